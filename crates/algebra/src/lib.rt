// Lemmas only: fields of characteristic two, polynomials over them, and finite sums. `specs/` has the definitions, `proofs/` the lemmas.
#![tactic(auto)]
