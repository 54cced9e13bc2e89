// Definitions alone: rings and paths over any adjacency (specs/), and their laws (proofs/).
#![tactic(auto)]
