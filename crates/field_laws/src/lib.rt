// Lemmas only: what a field is, the two kinds of field as models, and that each keeps the laws.
#![tactic(auto)]
