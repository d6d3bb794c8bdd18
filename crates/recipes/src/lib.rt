// Recipes: the byte form in which a pile is ordered, and what the bytes describe.
#![tactic(auto)]

mod fields;
pub mod kinds;
pub mod recipe;
pub mod table;
