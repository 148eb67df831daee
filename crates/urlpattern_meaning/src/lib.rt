//! What patterns mean: the texts that parts match, the regular expressions generated from parts,
//! matching and printing, with the laws of these definitions.
#![tactic(auto)]

pub mod meaning_laws;
