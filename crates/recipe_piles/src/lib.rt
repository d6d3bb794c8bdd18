// The parts of the pile that a recipe describes: its chain and the codes of its stages.
#![tactic(auto)]

mod chains_made;
mod codes_made;
pub mod making;
pub mod parts;
#[cfg(test)]
mod tests;
