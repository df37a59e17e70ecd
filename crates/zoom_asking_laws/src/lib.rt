//! Laws about an inquiry and the targets at its hosts, as definitions and proofs alone (Z39.50-2003, 3.2).
#![tactic(auto)]

pub mod laws;
