// Definitions and laws only: a statement by itself, at the head of a list.
#![tactic(auto)]
