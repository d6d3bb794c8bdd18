// Reed-Solomon codes over any field: the codewords are the values of polynomials of degree below K at the first N elements.
#![tactic(auto)]

pub mod code;
mod codewords;
mod elements;
mod interpolation;
mod key_equation;
mod passes;
mod search;
pub mod worked;
