//! The turns of the actors of a cluster as walks of small steps, below all laws of that world: what holds
//! over each step holds over a whole turn. Begin with `proofs/Lists.antt` and `PROOF.md`; there is no code.
#![tactic(auto)]
