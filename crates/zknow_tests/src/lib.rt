//! Octets from outside, each with what it stands for: elements, queries, records and APDUs; what is known, told by rows of
//! facts and saved files, and what a caller alone sees of it; catalogues that stopped; texts of strangers in HTML; and
//! elements that are holdings or are none.
#![tactic(auto)]

#[cfg(test)]
mod apdus;
#[cfg(test)]
mod calls;
#[cfg(test)]
mod collected;
#[cfg(test)]
mod damaged;
#[cfg(test)]
mod elements;
#[cfg(test)]
mod facts;
#[cfg(test)]
mod fields;
#[cfg(test)]
mod known;
#[cfg(test)]
mod markup;
#[cfg(test)]
mod merged;
#[cfg(test)]
mod opacs;
#[cfg(test)]
mod others;
#[cfg(test)]
mod plain;
#[cfg(test)]
mod printed;
#[cfg(test)]
mod queries;
#[cfg(test)]
mod records;
#[cfg(test)]
mod saved;
#[cfg(test)]
mod segments;
#[cfg(test)]
mod servers;
#[cfg(test)]
mod stops;
