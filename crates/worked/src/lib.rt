// The worked examples of the rules, proved together and run.
#![tactic(auto)]

mod arithmetic;
mod choices;
mod corrections;
pub mod examples;
mod readings;
#[cfg(test)]
mod tests;
