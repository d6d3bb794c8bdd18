// Lives of a memory: lists of calls, done one after another, each with its answer.
#![tactic(auto)]

pub mod call;
mod calls;
pub mod life;
mod rooms;
pub mod whole;
