// What every layer shares: faults, the checks of a call's buffers, harm, limits, and bits.
#![tactic(auto)]

pub mod bits;
pub mod buffer;
pub mod fault;
pub mod harms;
pub mod limits;
