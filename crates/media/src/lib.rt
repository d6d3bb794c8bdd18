// Media: where pages are kept, cell by cell.
#![tactic(auto)]

pub mod checks;
pub mod grid;
pub mod medium;
pub mod packed;
mod state;
