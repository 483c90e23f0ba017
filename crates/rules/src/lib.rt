// Definitions and theorems only: the ownership pass on trees, runs of the returned body, and what holds of all of them.
#![tactic(auto)]
