//! Numbers of a world file.
ghost use Rattle.std.specs.Prelude.{◌≡◌, ◌≤◌, IfSome};
ghost use Rattle.zmeta_world.specs.WorldWants.{number_in};

use zquery::number;

/// Returns the number that the decimal digits write, if it is between `least` and `most`, both included.
pub(crate) fn number_in(least: u64, most: u64, text: &[u8]) -> Option<u64>
    ensures value { result ≡ number_in least most text.now }
    ensures low { IfSome result (λ n. least ≤ n) }
    ensures high { IfSome result (λ n. n ≤ most) }
{
    match number(text, most) {
        Some(number) if number >= least => Some(number),
        _ => None,
    }
}
