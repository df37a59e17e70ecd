//! What can be told to people.
ghost use Rattle.std.specs.Prelude.{◌≡◌, ◌++◌, IfOk, OnOk, OnErr, codes, string_bytes};
ghost use Rattle.std.specs.Fmt.{decimal};
ghost use Rattle.zknow_stops.specs.Details.{in_seconds, detail_words, is_unreached};

use std::alloc::{AllocError, Global};

/// What can be told of a connection that stopped. The first six are of a catalogue that was not reached.
#[derive(Clone, Copy, PartialEq, Eq)]
pub enum Detail {
    /// The catalogue's address has no port.
    NoPort,
    /// No address was found for its name.
    NoName,
    /// Its name has addresses, but none of the family that is used.
    NoFamily,
    /// It refused to connect.
    Refused,
    /// There is no way to it.
    NoRoute,
    /// It did not answer within so many seconds.
    NoAnswer { seconds: u64 },
    /// It was reached, and then was silent for so many seconds.
    Silent { seconds: u64 },
    /// It ended the connection.
    HungUp,
    /// The connection broke.
    Reset,
    /// What it sent is no message of Z39.50.
    NotZ3950,
    /// It sent a message that answers no request.
    Unfit,
    /// It sent more than is read of one catalogue.
    TooMany,
    /// No memory was found for what it sent.
    NoMemory,
}

impl Detail {
    /// Whether the catalogue was not reached.
    pub fn is_unreached(self) -> bool
        ensures { result ≡ is_unreached self }
    {
        match self {
            Detail::NoPort
            | Detail::NoName
            | Detail::NoFamily
            | Detail::Refused
            | Detail::NoRoute
            | Detail::NoAnswer { .. } => true,
            Detail::Silent { .. }
            | Detail::HungUp
            | Detail::Reset
            | Detail::NotZ3950
            | Detail::Unfit
            | Detail::TooMany
            | Detail::NoMemory => false,
        }
    }

    /// Appends the words, as in `no such name` or `silent for 30 s`: printable ASCII. Returns `AllocError` if no memory
    /// is found; nothing is appended.
    pub fn put_words(self, alloc: Global, out: &mut String) -> Result<(), AllocError>
        ensures ok { OnOk result (string_bytes out.new ≡ string_bytes out.old ++ detail_words self) }
        ensures err { OnErr result (string_bytes out.new ≡ string_bytes out.old) }
    {
        let words = self.words(alloc)?;
        out.push_str(words.as_str())
    }

    /// Returns the words.
    fn words(self, alloc: Global) -> Result<String, AllocError>
        ensures { IfOk result (λ words. string_bytes words ≡ detail_words self) }
    {
        match self {
            Detail::NoPort => String::from_str(alloc, "the address has no port"),
            Detail::NoName => String::from_str(alloc, "no such name"),
            Detail::NoFamily => String::from_str(alloc, "no address of that family"),
            Detail::Refused => String::from_str(alloc, "refused"),
            Detail::NoRoute => String::from_str(alloc, "no route"),
            Detail::NoAnswer { seconds } => timed(alloc, "no answer in ", seconds),
            Detail::Silent { seconds } => timed(alloc, "silent for ", seconds),
            Detail::HungUp => String::from_str(alloc, "hung up"),
            Detail::Reset => String::from_str(alloc, "reset"),
            Detail::NotZ3950 => String::from_str(alloc, "sent what is no Z39.50"),
            Detail::Unfit => String::from_str(alloc, "sent an answer that fits no request"),
            Detail::TooMany => String::from_str(alloc, "sent too much"),
            Detail::NoMemory => String::from_str(alloc, "no memory was found for it"),
        }
    }
}

/// Returns words with a number of seconds behind them.
fn timed(alloc: Global, words: &str, seconds: u64) -> Result<String, AllocError>
    ensures { IfOk result (λ text. string_bytes text ≡ words.now ++ in_seconds seconds) }
{
    let mut text = String::from_str(alloc, words)?;
    let number = seconds.to_string(alloc)?;
    text.push_str(number.as_str())?;
    text.push_str(" s")?;
    Ok(text)
}
