// Definitions alone: lists of calls and demand 3 of document 01 (specs/), and its proof (proofs/).
#![tactic(auto)]
