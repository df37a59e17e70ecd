//! Lines of parts, each with a space before it.
ghost use Rattle.std.specs.Prelude.{◌≡◌, ◌↔◌, ◌++◌, [], None, Some, IsTrue, IfSome, IsSomeAnd, IfOk, OnErr};

use std::alloc::{AllocError, Global};
use std::marker::Model;
use zapdu::quote;
use zber::Node;
use zber_rows::rows::encoding;
use zber_rows::unread::Unread;

/// A line that parts are put to. Once memory was refused for one, it is not whole.
#[derive(Drop)]
pub struct Line {
    octets: Vec<u8>,
    is_whole: bool,
}

impl Model for Line {
    ghost use Rattle.std.specs.Prelude.{List, ℕ, Option, None, Some, if◌then◌else◌};

    ghost Value = { Option (List ℕ) };

    ghost view = { λ l. if l.is_whole then Some l.octets.items else None };
}

impl Line {
    /// The line of no part.
    pub fn new(alloc: Global) -> Line
        ensures { result ≡ Some [] }
    {
        Line {
            octets: Vec::new(alloc),
            is_whole: true,
        }
    }

    /// Says that a part is lacking.
    pub fn fail(&mut self)
        ensures { self.new ≡ None }
    {
        self.is_whole = false;
    }

    /// Appends octets, with no space before them.
    pub fn put(&mut self, octets: &[u8])
        ensures { IfSome self.new (λ after. IsSomeAnd self.old (λ before. after ≡ before ++ octets.now)) }
    {
        if self.octets.extend_from_slice(octets).is_err() {
            self.is_whole = false;
        }
    }

    /// Appends a word.
    pub fn word(&mut self, word: &str) {
        self.put(b" ");
        self.put(word.as_bytes());
    }

    /// Appends a word that there was memory for.
    pub fn add_word(&mut self, word: Result<String, AllocError>) {
        match word {
            Ok(word) => self.word(word.as_str()),
            Err(_) => self.fail(),
        }
    }

    /// Appends a text that there was memory for, with no space before it.
    pub fn add_text(&mut self, text: Result<String, AllocError>) {
        match text {
            Ok(text) => self.put(text.as_bytes()),
            Err(_) => self.fail(),
        }
    }

    /// Appends octets that are there, with no space before them.
    pub fn add_octets<E: Drop>(&mut self, octets: Result<Vec<u8>, E>) {
        match octets {
            Ok(octets) => self.put(octets.as_slice()),
            Err(_) => self.fail(),
        }
    }

    /// Appends octets in quotes.
    pub fn add_quoted(&mut self, alloc: Global, octets: &[u8]) {
        self.put(b" ");
        if quote(alloc, octets, &mut self.octets).is_err() {
            self.fail();
        }
    }

    /// The octets of a whole line.
    pub fn whole(self) -> Result<Vec<u8>, Unread>
        ensures ok { IfOk result (λ v. self ≡ Some v.items) }
        ensures err { OnErr result (self ≡ None) }
    {
        if self.is_whole {
            Ok(self.octets)
        } else {
            Err(Unread)
        }
    }

    /// Whether these are all octets of a whole line.
    pub fn is(&self, due: &[u8]) -> bool
        ensures { IsTrue result ↔ (self.now ≡ Some due.now) }
    {
        self.is_whole && self.octets.as_slice() == due
    }
}

/// Appends a word.
pub fn put_word(word: &str, out: &mut Line) {
    out.word(word)
}

/// Appends a number in decimal.
pub fn put_number(alloc: Global, number: i64, out: &mut Line) {
    out.add_word(number.to_string(alloc))
}

fn encode_copy(alloc: Global, node: &Node) -> Result<String, AllocError> {
    let Ok(copy) = node.copy(alloc) else {
        return Err(AllocError);
    };
    encoding(alloc, &copy)
}

/// Appends the digits of the canonical encoding of an element's copy.
pub fn put_node(alloc: Global, node: &Node, out: &mut Line) {
    out.add_word(encode_copy(alloc, node))
}
