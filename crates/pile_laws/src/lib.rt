// Lemmas only: what a pile means, that it is a lawful code, and that it answers exactly when some codeword is near.
#![tactic(auto)]
