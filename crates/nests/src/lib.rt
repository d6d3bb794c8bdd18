// Piles that stand one in another, each lending the one below, as deep as cells allow: for the benchmark, and tested here.
#![tactic(auto)]

pub mod deep;
pub mod levels;
#[cfg(test)]
mod tests;
