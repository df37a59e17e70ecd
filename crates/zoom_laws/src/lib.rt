//! Laws about connections and targets, as definitions and proofs alone (Z39.50-2003, 3.2 and 3.4).
//!
//! An origin and a target agree on requests and replies. Their exchange of octets stays sound. What a complete
//! connection knows does not depend on the schedule. It is what the question brings from the target's catalogue.
#![tactic(auto)]

pub mod laws;
