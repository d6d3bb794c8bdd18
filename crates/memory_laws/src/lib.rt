// Lemmas only: what a memory's pages hold, what its calls do, and what holds over every life of a memory.
#![tactic(auto)]
