// Lemmas only: what a Reed-Solomon code is, that it is lawful, and why the key equation finds the nearest codeword.
#![tactic(auto)]
