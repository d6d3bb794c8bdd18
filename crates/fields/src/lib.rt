// Fields of 2 to 256 elements in which x + x = 0: the polynomial fields, and extensions of small fields.
#![tactic(auto)]

mod below;
mod borrowed;
pub mod extension;
pub mod field;
pub mod polynomial;
mod refusals;
mod tables;
#[cfg(test)]
mod tests;
pub mod worked;
