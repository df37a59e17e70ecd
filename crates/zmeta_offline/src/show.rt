//! The command `show`: the text of the messages in a stream of hexadecimal digits.
ghost use Rattle.std.specs.Prelude.{◌≡◌, None, IfSome};
ghost use Rattle.zmeta_offline.specs.Show.{ShowResult, AfterShow, OneShowing};
ghost use Rattle.zber.specs.declared.framer.TheConstants.{MESSAGE_LIMIT};
ghost use Rattle.zmeta_offline.specs.Steps.{PrintLinesResult, ShowOctetsResult, ShowNextResult};
ghost use Rattle.zmeta_devices.specs.Devices.{input_device, output_device, streams, IsOfStream};

use crate::digits::decode;
use std::alloc::Global;
use std::io::Write;
use zapdu::from_element;
use zapdu::laws::{one_refusal, one_value};
use zapdu_lines::print_apdu;
use zber::laws::one_answer;
use zber::{Framer, MESSAGE_LIMIT};
use zmeta_devices::fault::{Fault, Status, end_done};
use zmeta_devices::input::Input;
use zmeta_devices::output::Output;
use zmeta_devices::readable::Readable;

/// Prints the APDUs of the octets whose hexadecimal digits the input has. If it stops before the end of the
/// octets, it writes the fault on `errors`.
///
/// The text before a fault is printed. If no memory is found, nothing is printed.
pub fn show<'a, R: Readable, W: Write, E: Write>(
    alloc: Global,
    input: &mut Input<'a, R>,
    output: &mut Output<'a, W>,
    errors: &mut Output<'_, E>,
) -> Status
    ensures { AfterShow (streams R.remaining W.contents E.contents input.old output.old errors.old)
        (streams R.remaining W.contents E.contents input.new output.new errors.new) result }
{
    let answer = show_text(alloc, input, output);
    end_done(answer, errors)
}

/// Octets have only one text and one end.
pub fn one_showing()
    ensures { OneShowing }
{
    one_answer();
    one_value();
    one_refusal();
}

fn show_text<'a, R: Readable, W: Write>(
    alloc: Global,
    input: &mut Input<'a, R>,
    output: &mut Output<'a, W>,
) -> Result<(), Fault<'a>>
    ensures shown { IfSome (R.remaining input.old.reader)
        (λ text. ShowResult text (output_device W.contents output.old) (output_device W.contents output.new) result) }
    ensures path { input.new.path ≡ input.old.path }
    ensures failed { IsOfStream (input_device R.remaining input.new) (output_device W.contents output.new) result }
{
    let text = input.read_all(alloc)?;
    let octets = decode(alloc, text.as_slice())?;
    let mut lines = Vec::new(alloc);
    let answer = show_octets(alloc, octets.as_slice(), &mut lines);
    print_lines(output, lines.as_slice(), answer)
}

/// Writes the lines before a result, but nothing if the result is `Memory`.
fn print_lines<'a, W: Write>(
    output: &mut Output<'a, W>,
    lines: &[u8],
    given: Result<(), Fault<'a>>,
) -> Result<(), Fault<'a>>
    ensures { PrintLinesResult lines.now given.entry (output_device W.contents output.old)
        (output_device W.contents output.new) result }
{
    if matches!(given, Err(Fault::Memory)) {
        return given;
    }
    match output.put(lines) {
        Ok(()) => given,
        Err(fault) => Err(fault),
    }
}

/// Appends the lines of each message, up to the end of the octets or the first fault.
fn show_octets(alloc: Global, octets: &[u8], text: &mut Vec<u8>) -> Result<(), Fault<'static>>
    ensures { ShowOctetsResult octets.now text.old.items text.new.items result }
{
    let mut framer = Framer::new(alloc, MESSAGE_LIMIT);
    framer.feed(octets)?;
    while show_next(alloc, &mut framer, text)? {}
    framer.finish()?;
    Ok(())
}

/// Appends the lines of the next message. Returns `false` if the octets left are no whole message and show no
/// fault.
fn show_next(alloc: Global, framer: &mut Framer, text: &mut Vec<u8>) -> Result<bool, Fault<'static>>
    requires limited { framer.old.stream.limit ≡ MESSAGE_LIMIT }
    requires no_fault { framer.old.stream.fault ≡ None }
    ensures { ShowNextResult framer.old.stream framer.new.stream text.old.items text.new.items result }
{
    let Some(message) = framer.next()? else {
        return Ok(false);
    };
    let apdu = from_element(alloc, message)?;
    print_apdu(alloc, apdu, text)?;
    Ok(true)
}
