// Definitions and laws only: statements, blocks and branches one after another, whatever holds the locals.
#![tactic(auto)]
