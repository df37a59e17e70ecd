//! Why the connection to a host stopped, in words.
ghost use Rattle.std.specs.Prelude.{◌≡◌, ◌++◌, OnOk, OnErr};
ghost use Rattle.zmeta_explain.specs.Sentences.{sentence_text};
ghost use Rattle.zmeta_explain.specs.Stops.{is_bracketed, host_of, port_of, refused_words, detail_words, stop_words};

use crate::places::{before_colon, behind, from_colon};
use crate::sentences::{Insert, Sentence, put_sentence};
use std::alloc::{AllocError, Global};
use zknow_stops::Detail;

/// A connection that stopped.
#[derive(Clone, Copy)]
pub struct Stopped<'a> {
    /// The name of the target or host.
    pub name: &'a [u8],
    /// The address of a host, as `host:port`. It is empty for a target in memory.
    pub address: &'a [u8],
    /// What is known of the reason.
    pub detail: Detail,
}

/// Tells whether the address begins with an address of IPv6 in brackets.
fn is_bracketed(address: &[u8]) -> bool
    ensures { result ≡ is_bracketed address.now }
{
    match address {
        [first, ..] => *first == b'[',
        [] => false,
    }
}

/// Returns what stands in front of the port; the name, if there is no address.
fn host_of<'a>(name: &'a [u8], address: &'a [u8]) -> &'a [u8]
    ensures { result.now ≡ host_of name.now address.now }
{
    if address.is_empty() {
        return name;
    }
    if is_bracketed(address) {
        return address;
    }
    before_colon(address)
}

/// Returns the port, if the address is a name or an address of IPv4 and a port.
fn port_of(address: &[u8]) -> &[u8]
    ensures { result.now ≡ port_of address.now }
{
    if is_bracketed(address) {
        return &[];
    }
    behind(from_colon(address), 1)
}

fn refused_sentence<'a>(host: &'a [u8], port: &'a [u8]) -> Sentence<'a>
    ensures { sentence_text result ≡ refused_words host.now port.now }
{
    if port.is_empty() {
        return Sentence::One(
            "",
            Insert::Name(host),
            " refused the connection; no server is there",
        );
    }
    Sentence::Two(
        "",
        Insert::Name(host),
        " refused the connection at port ",
        Insert::Name(port),
        "; no server is there",
    )
}

fn detail_sentence<'a>(host: &'a [u8], port: &'a [u8], detail: Detail) -> Sentence<'a>
    ensures { sentence_text result ≡ detail_words host.now port.now detail }
{
    let whom = Insert::Name(host);
    match detail {
        Detail::NoPort => Sentence::Two(
            "the address of ",
            whom,
            " has no port; write it as ",
            whom,
            ":210",
        ),
        Detail::NoName => Sentence::One("no host has the name ", whom, "; is it spelled right?"),
        Detail::NoFamily => Sentence::One(
            "",
            whom,
            " has no address of that family; leave out -4 or -6",
        ),
        Detail::Refused => refused_sentence(host, port),
        Detail::NoRoute => Sentence::One("no route leads to ", whom, "; is the network up?"),
        Detail::NoAnswer { seconds } => Sentence::Two(
            "",
            whom,
            " gave no answer in ",
            Insert::Number(seconds),
            " s; --connect sets how long that may take",
        ),
        Detail::Silent { seconds } => Sentence::Two(
            "",
            whom,
            " was silent for ",
            Insert::Number(seconds),
            " s; --patience sets how long that may be",
        ),
        Detail::HungUp => Sentence::One("", whom, " ended the connection before it had answered"),
        Detail::Reset => Sentence::One("the connection to ", whom, " broke"),
        Detail::NotZ3950 => Sentence::One(
            "",
            whom,
            " sent what is no Z39.50; is the port that of its catalogue?",
        ),
        Detail::Unfit => Sentence::One("", whom, " sent an answer that fits no request"),
        Detail::TooMany => { Sentence::One("", whom, " sent more than is read of one catalogue") }
        Detail::NoMemory => Sentence::One("no memory was found for what ", whom, " sent"),
    }
}

/// Appends the words for a connection that stopped: a sentence in printable ASCII, without a full stop.
///
/// It names the host of the address, or the target if there is no address. Returns `AllocError` if no memory is found;
/// `line` is then unchanged.
pub fn put_stop_words(
    alloc: Global,
    stopped: &Stopped<'_>,
    line: &mut Vec<u8>,
) -> Result<(), AllocError>
    ensures ok { OnOk result (line.new.items ≡ line.old.items ++ stop_words stopped.now) }
    ensures err { OnErr result (line.new.items ≡ line.old.items) }
{
    let host = host_of(stopped.name, stopped.address);
    let port = port_of(stopped.address);
    put_sentence(alloc, &detail_sentence(host, port, stopped.detail), line)
}
