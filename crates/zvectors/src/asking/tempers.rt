//! How hosts in memory behave.
use zber_rows::dice::Dice;

/// Nanoseconds of a millisecond.
pub(crate) const MILLISECOND: u64 = 1_000_000;

/// How a host behaves.
#[derive(Clone, Copy)]
pub(crate) enum Temper {
    /// It is not chosen.
    Unasked,
    /// Its name has no address.
    Unnamed,
    /// Its name is never resolved.
    Unresolved,
    /// It answers all requests in time.
    Honest,
    /// It connects, and never sends.
    Silent,
    /// Each attempt to connect fails.
    Refuses,
    /// Its first address never connects; else it is honest.
    FirstSilent,
    /// The first attempts get no socket; else it is honest.
    NoSocket,
    /// It ends after so many octets.
    Dies,
    /// It resets the connection in place of its Close.
    ResetsAtClose,
    /// It answers all but the Close.
    IgnoresClose,
    /// After so many writes, the next fails.
    Unwritable,
    /// It sends random octets.
    Lies,
    /// One octet of its answers is changed.
    Garbles,
    /// It sends octet by octet, for longer than the total.
    Trickles,
}

/// A temper, and what it takes to behave so.
#[derive(Clone, Copy)]
pub(crate) struct Nature {
    pub temper: Temper,
    /// How many addresses it has.
    pub addresses: usize,
    /// How many of its records the question finds.
    pub records: u32,
    /// How many octets, writes or attempts it takes until it is odd.
    pub number: u64,
    /// The most octets of a piece.
    pub piece: u64,
    /// How long it takes to resolve its name, in nanoseconds.
    pub resolves_in: u64,
}

const TEMPERS: [Temper; 19] = [
    Temper::Honest,
    Temper::Honest,
    Temper::Honest,
    Temper::Honest,
    Temper::Unasked,
    Temper::Unnamed,
    Temper::Unresolved,
    Temper::Silent,
    Temper::Refuses,
    Temper::FirstSilent,
    Temper::NoSocket,
    Temper::Dies,
    Temper::ResetsAtClose,
    Temper::IgnoresClose,
    Temper::Unwritable,
    Temper::Unwritable,
    Temper::Lies,
    Temper::Garbles,
    Temper::Trickles,
];

// How many octets, writes or attempts it takes until a host is odd.
fn number_for(temper: Temper, dice: &mut Dice) -> u64 {
    match temper {
        Temper::NoSocket => dice.number_below(2).saturating_add(1),
        Temper::Unwritable => dice.number_below(5),
        Temper::Dies | Temper::Garbles => dice.number_below(300),
        _ => 0,
    }
}

// How many addresses a host has.
fn addresses_of(temper: Temper, dice: &mut Dice) -> usize {
    match temper {
        Temper::Unnamed => 0,
        Temper::FirstSilent => 2,
        _ => (dice.number_below(3) as usize).saturating_add(1),
    }
}

// How long it takes to resolve a name: no time if it is an address in numbers, and sometimes longer than a host may
// take to connect.
fn resolves_in(dice: &mut Dice) -> u64 {
    if dice.number_below(4) == 0 {
        dice.number_below(1_200 * MILLISECOND)
    } else {
        0
    }
}

/// A nature by the dice.
pub(crate) fn draw_nature(dice: &mut Dice) -> Nature {
    let at = dice.number_below(TEMPERS.len() as u64) as usize;
    let temper = TEMPERS.get(at).copied().unwrap_or(Temper::Honest);
    Nature {
        temper,
        addresses: addresses_of(temper, dice),
        records: (dice.number_below(9) & 15) as u32,
        number: number_for(temper, dice),
        piece: dice.number_below(100).saturating_add(8),
        resolves_in: resolves_in(dice),
    }
}
