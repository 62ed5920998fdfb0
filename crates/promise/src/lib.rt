// Demands 2 and 3 of the index, proved. The crate is its theory: proofs/Demands.antt and proofs/Together.antt have the theorems, specs/Demands.antt what a builder promises; there is no code.
#![tactic(auto)]
