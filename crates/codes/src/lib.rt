// Codes: what every block code offers, and the simple kinds.
#![tactic(auto)]

mod borrowed;
pub mod checks;
pub mod code;
pub mod open;
pub mod repetition;
mod sides;
mod size;
pub mod worked;
