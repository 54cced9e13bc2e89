// Definitions alone: the starred reference molecules of document 01 as one table (specs/), and the theorem that it
// holds (proofs/).
#![tactic(auto)]
