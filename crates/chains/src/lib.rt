// Chains: inner codes that are partitioned stage by stage, and the estimate of a stage's label from a reading.
#![tactic(auto)]

mod borrowed;
pub mod chain;
mod checks;
pub mod derived;
pub mod even;
pub mod examples;
mod reading;
pub mod reed_muller;
mod sides;
mod tables;
