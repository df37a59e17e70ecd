//! Scripts of a framer: words that feed it octets, or ask what is next or what is left.
use std::alloc::{AllocError, Global};
use zber::{Body, Framer, Node};
use zber_rows::rows::{LIMIT, octets, tells};
use zber_rows::unread::{Unread, read};

// Appends a message's form, and how many octets or elements it has.
fn put_form(node: &Node, trace: &mut String) -> Result<(), AllocError> {
    match &node.body {
        Body::Prim(contents) => write!(trace, "primitive {};", contents.len()),
        Body::Cons(nodes) => write!(trace, "elements {};", nodes.len()),
    }
}

// Appends what is next: nothing, a message, or a fault and its place.
pub(crate) fn put_next(framer: &mut Framer, trace: &mut String) -> Result<(), AllocError> {
    match framer.next() {
        Ok(None) => trace.push_str("nothing;"),
        Ok(Some(node)) => put_form(&node, trace),
        Err(error) => write!(trace, "{error};"),
    }
}

// Appends whether nothing is left, or a fault and its place.
fn put_finish(framer: &Framer, trace: &mut String) -> Result<(), AllocError> {
    match framer.finish() {
        Ok(whole) => write!(trace, "{whole};"),
        Err(error) => write!(trace, "{error};"),
    }
}

// A word of a script: octets to feed, the question what is next, or the question what is left.
fn step(alloc: Global, framer: &mut Framer, word: &str, trace: &mut String) -> Result<(), Unread> {
    match word {
        "next" => read(put_next(framer, trace)),
        "finish" => read(put_finish(framer, trace)),
        digits => {
            let Ok(octets) = octets(alloc, digits) else {
                return Err(Unread);
            };
            read(framer.feed(octets.as_slice()))
        }
    }
}

fn play(
    alloc: Global,
    framer: &mut Framer,
    script: &str,
    trace: &mut String,
) -> Result<(), Unread> {
    for word in script.split_whitespace() {
        if step(alloc, framer, word, trace).is_err() {
            return Err(Unread);
        }
    }
    Ok(())
}

/// What a framer of this limit answers in a script, word by word.
pub fn answers(alloc: Global, limit: u32, script: &str) -> Result<String, Unread> {
    let mut trace = String::new(alloc);
    let mut framer = Framer::new(alloc, limit);
    if play(alloc, &mut framer, script, &mut trace).is_err() {
        return Err(Unread);
    }
    Ok(trace)
}

/// Whether a framer of the common limit answers in a script as it is due; not where there was no memory for either text.
pub fn answers_as(
    alloc: Global,
    script: Result<String, AllocError>,
    due: Result<String, AllocError>,
) -> bool {
    match (script, due) {
        (Ok(script), Ok(due)) => tells(answers(alloc, LIMIT, script.as_str()), due.as_str()),
        _ => false,
    }
}
