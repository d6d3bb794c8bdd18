// Piles: generalised concatenated codes, a chain and one outer code for each of its stages. The room to work in is
// arrays, cut to length, since libraries use no heap. That a chain and codes are sound stands in
// each contract, since such a fact may have several proofs, which a ghost field refuses; a struct of the two would then hold no
// fact, nor would one of a row of codewords and their length.
#![tactic(auto)]

mod choices;
mod columns;
mod fit;
mod messages;
mod numbers;
pub mod pile;
mod recovery;
