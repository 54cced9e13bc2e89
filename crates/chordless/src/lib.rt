// Definitions alone: the families of rings and of paths and their members up to a size (specs/), and openness as
// reachability in so many steps (proofs/).
#![tactic(auto)]
