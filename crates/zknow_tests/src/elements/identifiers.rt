// Texts of object identifiers, worked out from X.690, 8.19, and X.660.
use std::alloc::{AllocError, Global};
use std::process::Abort;
use std::test::Fail;
use zber::{Oid, OidError};
use zber_rows::rows::{each_row, pair, split_row, tells};
use zber_rows::unread::Unread;

// Refusals, and texts that are refused.
const REFUSED: &str = "\
OidText 
OidText .
OidText 1..2
OidText 1.2.
OidText .1.2
OidText 01.2
OidText 1.00
OidText 1.2x
OidText +1.2
OidText 4294967296.x
OidArc 2.4294967296
OidArc 4294967296
OidArc 2.99999999999999999999999999999999999999999999999999999999999999999999
OidTooShort 1
OidTooShort 4294967295
OidFirst 1.40
OidFirst 0.40
OidFirst 3.1
OidFirst 4294967295.1.1
";

fn error_of(alloc: Global, oid: Result<Oid, OidError>) -> Result<String, AllocError> {
    match oid {
        Ok(_) => String::from_str(alloc, "none"),
        Err(error) => format!(in alloc; "{error:?}"),
    }
}

fn is_refused(alloc: Global, row: &str) -> Result<bool, Unread> {
    let (due, text) = pair(row);
    let refused = error_of(alloc, Oid::parse_dotted(alloc, text.as_bytes()));
    Ok(tells(refused, due))
}

#[test]
fn other_texts_are_refused(rt: HostRuntime) -> Result<(), Fail> {
    each_row(rt.alloc(), REFUSED, is_refused)
}

// Arcs and their refusals.
const ARCS: &str = "\
: OidTooShort
3: OidTooShort
3 0: OidFirst
1 40 1: OidFirst
1 39 1: none
";

fn arcs(alloc: Global, row: &str) -> Result<Vec<u32>, Unread> {
    let mut arcs = Vec::new(alloc);
    for arc in row.split_whitespace() {
        let Ok(arc) = arc.parse::<u32>() else {
            return Err(Unread);
        };
        if arcs.push(arc).is_err() {
            return Err(Unread);
        }
    }
    Ok(arcs)
}

fn are_arcs(alloc: Global, row: &str) -> Result<bool, Unread> {
    let (row, due) = split_row(row, ": ");
    let Ok(arcs) = arcs(alloc, row) else {
        return Err(Unread);
    };
    Ok(tells(error_of(alloc, Oid::from_arcs(alloc, arcs.as_slice())), due))
}

#[test]
fn arcs_are_refused(rt: HostRuntime) -> Result<(), Fail> {
    each_row(rt.alloc(), ARCS, are_arcs)
}
