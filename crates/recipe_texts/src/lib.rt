// Recipes as hexadecimal text, as programs read them.
#![tactic(auto)]

mod hex;
pub mod text;
