//! The choice of questions, and how their hosts are asked.

ghost use Rattle.std.specs.Prelude.{◌≡◌, ◌*◌, length, Ok, Err, IfOk, MatchResult};
ghost use Rattle.std.specs.Duration.{as_nanos};
ghost use Rattle.zmeta_args.specs.Texts.{texts_of};
ghost use Rattle.zmeta_commands.specs.Choice.{AreLimits, family_of, manner_of, address_if, IsChosen, AddressesResult, CheckNamesResult};
ghost use Rattle.zmeta_offline.specs.Names.{is_picked};

use bytes::Bytes;
use std::alloc::{AllocError, Global};
use std::time::Duration;
use zmeta_args::LimitOptions;
use zmeta_devices::fault::Fault;
use zmeta_offline::names::{first_unknown, is_picked};
use zoom::{Family, Limits, Manner};

/// Which questions are asked, and how.
#[derive(Clone, Copy)]
pub struct Choice<'a, 'w> {
    /// Whether the hosts are talked with at once or in order.
    pub manner: Manner,
    /// The names of the questions to ask. If there are none, all questions are asked.
    pub only: &'w [&'a str],
    /// How long hosts are waited for, and over which addresses.
    pub limits: Limits,
}

/// The seconds of patience without `--patience`.
const PATIENCE: u32 = 30;

/// The seconds for everything without `--within`.
const HOUR: u32 = 3600;

/// Returns the limits that the options say. Without `--patience` it is 30 seconds; without `--connect`, that is the
/// patience; without `--within`, everything may take an hour.
pub(crate) fn limits_of(options: &LimitOptions) -> Limits
    ensures { AreLimits options.now result }
{
    let patience = options.patience.unwrap_or(PATIENCE);
    Limits {
        connect: seconds(options.connect.unwrap_or(patience)),
        patience: seconds(patience),
        total: Some(seconds(options.within.unwrap_or(HOUR))),
        family: family_of(options.only_v4, options.only_v6),
    }
}

/// Returns so many seconds.
pub(crate) fn seconds(count: u32) -> Duration
    ensures { as_nanos result ≡ count * 1000000000 }
{
    Duration::from_secs(count as u64)
}

/// Returns which addresses are used.
fn family_of(only_v4: bool, only_v6: bool) -> Family
    ensures { result ≡ family_of only_v4 only_v6 }
{
    if only_v4 {
        Family::V4
    } else if only_v6 {
        Family::V6
    } else {
        Family::Any
    }
}

/// Returns whether the hosts are talked with at once or in order.
pub(crate) fn manner_of(at_once: bool) -> Manner
    ensures { result ≡ manner_of at_once }
{
    if at_once {
        Manner::AtOnce
    } else {
        Manner::InOrder
    }
}

/// Checks that each name is that of a question. `NoQuestion` gives the first that is not.
fn check_names<'a>(only: &[&'a str], names: &[Bytes]) -> Result<(), Fault<'a>>
    ensures { CheckNamesResult (texts_of only.now) names.now result }
{
    match first_unknown(only, names) {
        Some(text) => Err(Fault::NoQuestion(text)),
        None => Ok(()),
    }
}

/// Returns the address if the question's name is chosen, else `None`. It shares the octets.
fn address_of(only: &[&str], name: &Bytes, address: &Bytes) -> Result<Option<Bytes>, AllocError>
    ensures { IfOk result (λ chosen. chosen ≡ address_if (is_picked (texts_of only.now) name.now) address.now) }
{
    if is_picked(only, name.as_slice()) {
        Ok(Some(address.clone()?))
    } else {
        Ok(None)
    }
}

/// Returns the address of each chosen question, and `None` for each other question.
fn pick_addresses(
    alloc: Global,
    only: &[&str],
    names: &[Bytes],
    addresses: &[Bytes],
) -> Result<Vec<Option<Bytes>>, AllocError>
    requires { length names.now ≡ length addresses.now }
    ensures { IfOk result (λ chosen. IsChosen (texts_of only.now) names.now addresses.now chosen.items) }
{
    let mut chosen = Vec::new(alloc);
    for c in 0..addresses.len() {
        chosen.push(address_of(only, &names[c], &addresses[c])?)?;
    }
    Ok(chosen)
}

/// Returns the address of each chosen question, and `None` for each other question. `NoQuestion` gives the first
/// name in `only` that no question has.
pub(crate) fn addresses_of<'a>(
    alloc: Global,
    only: &[&'a str],
    names: &[Bytes],
    addresses: &[Bytes],
) -> Result<Vec<Option<Bytes>>, Fault<'a>>
    requires { length names.now ≡ length addresses.now }
    ensures { MatchResult result (λ chosen. AddressesResult (texts_of only.now) names.now addresses.now
        (Ok chosen.items))
        (λ fault. AddressesResult (texts_of only.now) names.now addresses.now (Err fault)) }
{
    check_names(only, names)?;
    Ok(pick_addresses(alloc, only, names, addresses)?)
}
