// Stages: which outer codeword the estimates of a stage's columns decide for. The room to work in is arrays, cut
// to length, since libraries use no heap.
#![tactic(auto)]

mod checks;
pub mod choice;
mod columns;
mod scores;
mod trials;
pub mod worked;
