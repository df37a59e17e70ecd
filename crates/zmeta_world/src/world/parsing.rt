//! From the text of a line to its tokens, its contents and its query.
ghost use Rattle.std.specs.Prelude.{◌≡◌};
ghost use Rattle.zmeta_world.specs.WorldReading.{ParseResult, HasQuery, fault_of};

use crate::world::fault::LineFault;
use crate::world::line::{Line, line_of};
use std::alloc::Global;
use zquery::laws::{one_answer, one_lexing};
use zquery::{PqfError, PqfErrorKind, Query, parse_pqf, tokens};

/// Returns the line's fault for an error of the prefix notation's parser: `Memory` stays, all else is `Refused`.
fn fault_of(error: PqfError) -> LineFault
    ensures { result ≡ fault_of error.kind }
{
    match error.kind {
        PqfErrorKind::Memory => LineFault::Memory,
        _ => LineFault::Refused,
    }
}

/// Reads the text of a line. `Refused` if its tokens are no line of a world file.
pub(crate) fn read_line(alloc: Global, text: &[u8]) -> Result<Line, LineFault>
    ensures { ParseResult text.now result }
{
    one_lexing();
    match tokens(alloc, text) {
        Ok(tokens) => line_of(alloc, tokens.as_slice()),
        Err(error) => Err(fault_of(error)),
    }
}

/// Reads the query of an `ask` line. `Refused` if the text is no query.
pub(crate) fn query_of(alloc: Global, text: &[u8]) -> Result<Query, LineFault>
    ensures { HasQuery text.now result }
{
    one_answer();
    match parse_pqf(alloc, text) {
        Ok(query) => Ok(query),
        Err(error) => Err(fault_of(error)),
    }
}
