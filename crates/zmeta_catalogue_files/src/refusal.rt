//! Why a file of catalogues is not asked, and what is written of that.

ghost use Rattle.std.specs.Prelude.{◌≡◌, ◌++◌, IfOk, OnOk};
ghost use Rattle.zmeta_catalogue_files.specs.Refusals.{file_line, option_of, catalogue_text, ask_text, HasErrorLine, AfterLine, AfterUnionFault};
ghost use Rattle.zmeta_catalogue_files.specs.Unions.{of_file};
ghost use Rattle.zmeta_catalogue_files.specs.declared.refusal.UnionFault.TheVariants as faults;
ghost use Rattle.zmeta_devices.specs.Devices.{output_device};
ghost use Rattle.zmeta_devices.specs.declared.fault.Fault.TheVariants.{Memory};

use std::alloc::{AllocError, Global};
use std::io::Write;
use zapdu::quote;
use zmeta_catalogues::{Access, AskError, CatalogueError};
use zmeta_devices::fault::{Fault, Status};
use zmeta_devices::output::Output;

/// Why the catalogues of a file are not asked.
#[derive(Drop)]
pub enum UnionFault<'a> {
    /// The file cannot be read, an option of the search is refused, or no memory was found.
    Fault(Fault<'a>),
    /// The file is refused, for this error.
    Refused(CatalogueError),
    /// The search cannot be put to the catalogues, for this error. An error of a text that an option gives as a whole
    /// is a `Fault`.
    Unasked(AskError),
}

impl From<AllocError> for UnionFault<'_> {
    ghost from_gives = { λ _ f. f ≡ faults.Fault Memory };

    fn from(_error: AllocError) -> Self {
        UnionFault::Fault(Fault::Memory)
    }
}

impl<'a> From<Fault<'a>> for UnionFault<'a> {
    ghost from_gives = { λ fault f. f ≡ faults.Fault fault };

    fn from(fault: Fault<'a>) -> Self {
        UnionFault::Fault(fault)
    }
}

impl From<CatalogueError> for UnionFault<'_> {
    ghost from_gives = { λ error f. f ≡ of_file error };

    fn from(error: CatalogueError) -> Self {
        match error {
            CatalogueError::Memory => UnionFault::Fault(Fault::Memory),
            error => UnionFault::Refused(error),
        }
    }
}

/// Returns the option that gives a term.
fn option_of(access: Access) -> &'static str
    ensures { result.now ≡ option_of access }
{
    match access {
        Access::Title => "--title",
        Access::Author => "--author",
        Access::Subject => "--subject",
        Access::Isbn => "--isbn",
        Access::Issn => "--issn",
        Access::Year => "--year",
        Access::Since => "--year",
        Access::Until => "--year",
        Access::Any => "--any",
    }
}

/// Appends a text.
pub(crate) fn put(text: &str, out: &mut Vec<u8>) -> Result<(), AllocError>
    ensures { OnOk result (out.new.items ≡ out.old.items ++ text.now) }
{
    out.extend_from_slice(text.as_bytes())
}

/// Appends a catalogue by its name.
pub(crate) fn put_catalogue(alloc: Global, name: &[u8], out: &mut Vec<u8>) -> Result<(), AllocError>
    ensures { OnOk result (out.new.items ≡ out.old.items ++ catalogue_text name.now) }
{
    put("catalogue ", out)?;
    quote(alloc, name, out)
}

/// Appends why a search cannot be put to the catalogues.
fn put_ask_text(alloc: Global, error: &AskError, out: &mut Vec<u8>) -> Result<(), AllocError>
    ensures { OnOk result (out.new.items ≡ out.old.items ++ ask_text error.now) }
{
    match error {
        AskError::NoSearch { catalogue } => {
            put_catalogue(alloc, catalogue.as_slice(), out)?;
            put(
                " has no query of its own; give --query, --title or another",
                out,
            )
        }
        AskError::TooManyTerms => put("more than 32 terms; give fewer", out),
        AskError::BlankTerm { access } => {
            put(option_of(*access), out)?;
            put(" asks for nothing; give it a text that is not blank", out)
        }
        AskError::TermCharset { catalogue, access } => {
            put_catalogue(alloc, catalogue.as_slice(), out)?;
            put(": its charset lacks a character of ", out)?;
            put(option_of(*access), out)
        }
        AskError::QueryCharset { catalogue } => {
            put_catalogue(alloc, catalogue.as_slice(), out)?;
            put(": its charset lacks a character of --query", out)
        }
        AskError::Query { kind, at } => {
            put(kind.name(), out)?;
            put(" at ", out)?;
            let at = at.to_string(alloc)?;
            put(at.as_str(), out)
        }
        AskError::Setting { catalogue, fault } => {
            put_catalogue(alloc, catalogue.as_slice(), out)?;
            put(": ", out)?;
            put(fault.key.name(), out)?;
            put(" refused", out)
        }
        AskError::Records => put("--records refused", out),
        AskError::Syntax => put("--syntax refused", out),
        AskError::Memory => put("out of memory", out),
    }
}

/// Appends a line about the file at a path.
pub(crate) fn put_line(path: &str, text: &[u8], lines: &mut Vec<u8>) -> Result<(), AllocError>
    ensures { OnOk result (lines.new.items ≡ lines.old.items ++ file_line path.now text.now) }
{
    put("zmeta: ", lines)?;
    put(path, lines)?;
    put(": ", lines)?;
    lines.extend_from_slice(text)?;
    put("\n", lines)
}

/// Appends the line of an error of the file at a path.
#[tactic(auto, using(crate::proofs::ErrorLines::has_line))]
pub(crate) fn put_error(
    alloc: Global,
    path: &str,
    error: &CatalogueError,
    lines: &mut Vec<u8>,
) -> Result<(), AllocError>
    ensures { OnOk result (HasErrorLine path.now lines.old.items lines.new.items) }
{
    let text = error.to_string(alloc)?;
    put_line(path, text.as_bytes(), lines)
}

/// Appends the line that says why a search cannot be put to the catalogues of the file at a path.
fn put_asking(
    alloc: Global,
    path: &str,
    error: &AskError,
    lines: &mut Vec<u8>,
) -> Result<(), AllocError>
    ensures { OnOk result (lines.new.items ≡ lines.old.items ++ file_line path.now (ask_text error.now)) }
{
    let mut text = Vec::new(alloc);
    put_ask_text(alloc, error, &mut text)?;
    put_line(path, text.as_slice(), lines)
}

/// Writes the error of the file at a path as one line on `errors`.
#[tactic(auto, using(crate::proofs::Reported::error_told, crate::proofs::Reported::memory_told))]
fn report_error<E: Write>(
    alloc: Global,
    path: &str,
    error: &CatalogueError,
    errors: &mut Output<'_, E>,
) -> Status
    ensures { AfterLine path.now (λ text. Unit {0}) (output_device E.contents errors.old)
        (output_device E.contents errors.new) result }
{
    let mut line = Vec::new(alloc);
    match put_error(alloc, path, error, &mut line) {
        Ok(()) => {
            errors.put_lines(line.as_slice());
            Status::Refused
        }
        Err(_) => Fault::Memory.report(errors),
    }
}

/// Writes why a search cannot be put to the catalogues of the file at a path, as one line on `errors`.
#[tactic(auto, using(crate::proofs::Reported::text_told, crate::proofs::Reported::memory_told))]
fn report_asking<E: Write>(
    alloc: Global,
    path: &str,
    error: &AskError,
    errors: &mut Output<'_, E>,
) -> Status
    ensures { AfterLine path.now (λ text. text ≡ ask_text error.now) (output_device E.contents errors.old)
        (output_device E.contents errors.new) result }
{
    let mut line = Vec::new(alloc);
    match put_asking(alloc, path, error, &mut line) {
        Ok(()) => {
            errors.put_lines(line.as_slice());
            Status::Refused
        }
        Err(_) => Fault::Memory.report(errors),
    }
}

impl UnionFault<'_> {
    /// Writes the fault as one line on `errors`, and returns its status. A `Fault` is written as `Fault::report` does,
    /// and any other with the path of its file.
    ///
    /// The status is `Refused`; `Memory` if that is the fault, or if no memory is found for the line, which is then
    /// that of `Memory`. It is the same if the line cannot be written.
    pub fn report<E: Write>(&self, alloc: Global, path: &str, errors: &mut Output<'_, E>) -> Status
        ensures { AfterUnionFault path.now self.now (output_device E.contents errors.old)
            (output_device E.contents errors.new) result }
    {
        match self {
            UnionFault::Fault(fault) => fault.report(errors),
            UnionFault::Refused(error) => report_error(alloc, path, error, errors),
            UnionFault::Unasked(error) => report_asking(alloc, path, error, errors),
        }
    }
}
