// Elements of BER: messages in pieces, headers, values and identifiers.
mod framing;
mod headers;
mod identifiers;
pub(crate) mod nested;
mod pieces;
mod readers;
pub(crate) mod scripts;
pub(crate) mod shown;
mod values;
