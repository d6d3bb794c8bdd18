// Lemmas only: which chain and codes a recipe names, and that they fit and have the recipe's numbers.
#![tactic(auto)]
