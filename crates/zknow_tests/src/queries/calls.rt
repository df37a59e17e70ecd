// Calls of the notation that no command shows: tokens by themselves, and a text with octets that no argument has.
use crate::queries::plain::query_text;
use std::alloc::{AllocError, Global};
use std::process::Abort;
use std::test::Fail;
use zapdu_rows::boxes::parse;
use zber_rows::rows::spells;
use zber_rows::unread::Unread;
use zquery::{Token, tokens};

// Tokens with their places, each on a line, quoted ones in quotes.
fn put_token(alloc: Global, token: &Token, out: &mut Vec<u8>) -> Result<(), AllocError> {
    let mark = if token.quoted { 'q' } else { '-' };
    let Ok(place) = format!(in alloc; "{} {mark} ", token.at) else {
        return Err(AllocError);
    };
    if out.extend_from_slice(place.as_bytes()).is_err()
        || out.extend_from_slice(token.text.as_slice()).is_err()
    {
        return Err(AllocError);
    }
    out.extend_from_slice(b";")
}

fn list_tokens(alloc: Global, text: &[u8]) -> Result<Vec<u8>, Unread> {
    let Ok(tokens) = tokens(alloc, text) else {
        return Err(Unread);
    };
    let mut out = Vec::new(alloc);
    for token in tokens.iter() {
        if put_token(alloc, token, &mut out).is_err() {
            return Err(Unread);
        }
    }
    Ok(out)
}

#[test]
fn tokens_have_their_places(rt: HostRuntime) -> Result<(), Fail> {
    assert!(rt; spells(list_tokens(rt.alloc(), b"a \"b c\""), b"0 - a;2 q b c;"));
    Ok(())
}

fn parsed_text(alloc: Global, text: &[u8]) -> Result<Vec<u8>, Unread> {
    let query = parse(alloc, text)?;
    query_text(alloc, &query)
}

#[test]
fn a_term_has_any_octets(rt: HostRuntime) -> Result<(), Fail> {
    let due = b"\"\x0b\x0c\x00\x7f\xc2\xa0\xff\"";
    assert!(rt;
        spells(
            parsed_text(rt.alloc(), b"\x0b\x0c\x00\x7f\xc2\xa0\xff"),
            due
        )
    );
    assert!(rt; spells(parsed_text(rt.alloc(), due), due));
    Ok(())
}
