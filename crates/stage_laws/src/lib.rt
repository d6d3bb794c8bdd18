// Lemmas only: the stage rule, and Forney's trials, by which its choice is made.
#![tactic(auto)]
