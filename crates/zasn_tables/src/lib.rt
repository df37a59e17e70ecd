//! Productions of ASN.1 as tables of places, as definitions and theory alone (X.680; Z39.50-2003, 4.1).
#![tactic(auto)]
