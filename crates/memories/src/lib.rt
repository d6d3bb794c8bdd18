// Memories: a code joined to a medium, page by page.
#![tactic(auto)]

mod bits;
mod checks;
mod joins;
pub mod memory;
mod patrols;
mod reads;
mod restores;
mod writes;
