// Reed-Solomon words decoded by elimination, over arithmetic of its own: what the programs that compare hold the library to.
#![tactic(auto)]

pub mod arithmetic;
pub mod decoder;
#[cfg(test)]
mod tests;
