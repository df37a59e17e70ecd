//! Streams that are written.
ghost use Rattle.std.specs.Prelude.{◌≡◌, None, is_some, nat_lt, if◌then◌else◌, true};
ghost use Rattle.zmeta_devices.specs.Devices.{output_device, PutResult, PutKnownResult, AfterTell, AfterTellLines, ShowFaultResult, AfterWords};

use crate::counted::Counted;
use crate::explained::words_line;
use crate::fault::Fault;
use std::alloc::Global;
use std::fmt::Display;
use std::io::Write;
use zoom_devices::Failed;

/// A stream that is written.
#[derive(Drop)]
pub struct Output<'a, W> {
    /// The path in the messages about it: a file's path, or `-` for a standard stream.
    pub path: &'a str,
    /// The writer of its octets, with the number of its failed calls.
    writer: Counted<W>,
    /// The allocator for words, where faults are also told in words.
    words: Option<Global>,
}

impl<'a, W> Output<'a, W> {
    /// Returns the stream of a writer. No write of it has failed.
    pub fn new(path: &'a str, writer: W) -> Output<'a, W>
        ensures path { result.path ≡ path.entry }
        ensures writer { result.writer.writer ≡ writer }
        ensures no_failure { result.writer.failures ≡ 0 }
        ensures short { result.words ≡ None }
    {
        Output {
            path,
            writer: Counted::new(writer),
            words: None,
        }
    }

    /// Tells faults in words too from now on, if that is wanted.
    pub fn explain(&mut self, alloc: Global, wanted: bool)
        ensures path { self.new.path ≡ self.old.path }
        ensures writer { self.new.writer ≡ self.old.writer }
        ensures words { is_some self.new.words ≡ (if wanted then true else is_some self.old.words) }
    {
        if wanted {
            self.words = Some(alloc);
        }
    }

    /// Returns whether faults are told in words, too.
    pub fn explains(&self) -> bool
        ensures { result ≡ is_some self.now.words }
    {
        self.words.is_some()
    }

    /// Returns whether a write failed.
    pub fn has_failed(&self) -> bool
        ensures { result ≡ nat_lt 0 self.now.writer.failures }
    {
        self.writer.has_failed()
    }
}

impl<'a, W: Write> Output<'a, W> {
    /// Writes the whole text. `Write` with the stream's path if the stream fails: a front of the text is then
    /// written, and the failure is counted.
    pub fn put(&mut self, text: &[u8]) -> Result<(), Fault<'a>>
        ensures { PutResult (output_device W.contents self.old) (output_device W.contents self.new) text.now result }
    {
        match self.writer.write(text) {
            Ok(()) => Ok(()),
            Err(Failed) => Err(Fault::Write(self.path)),
        }
    }

    /// Writes lines that report what a command did not do. A failure is only counted: the command goes on, and
    /// `Refused` is its status at the end.
    pub fn put_lines(&mut self, lines: &[u8])
        ensures { AfterTellLines (output_device W.contents self.old) (output_device W.contents self.new) lines.now }
    {
        // A failure is counted.
        let _ = self.writer.write(lines);
    }

    /// Writes the line that reports a fault, without memory. Where faults are told in words too, writes a line of these
    /// behind it, if memory is found for it. A failure is only counted.
    pub fn write_fault(&mut self, fault: &Fault<'_>)
        ensures { AfterTell (output_device W.contents self.old) (output_device W.contents self.new) fault.now }
    {
        if self.show_fault(fault) {
            self.write_words(fault);
        }
    }

    /// Writes the line that reports a fault, without memory, and returns whether that succeeded. A failure is only
    /// counted.
    fn show_fault(&mut self, fault: &Fault<'_>) -> bool
        ensures { ShowFaultResult (output_device W.contents self.old) (output_device W.contents self.new) fault.now
            result }
    {
        self.writer.show(format_args!("zmeta: {fault}\n")).is_ok()
    }

    /// Writes the line of a fault in words, where faults are told so, and memory is found for it. A failure is only
    /// counted.
    fn write_words(&mut self, fault: &Fault<'_>)
        ensures { AfterWords (output_device W.contents self.old) (output_device W.contents self.new) fault.now }
    {
        let Some(alloc) = self.words else {
            return;
        };
        if let Ok(line) = words_line(alloc, fault) {
            // A failure is counted.
            let _ = self.writer.write(line.as_slice());
        }
    }

    /// Writes a value in its displayed form, without memory. `Write` with the stream's path if the stream fails; the
    /// failure is then counted.
    pub fn show<D: Display>(&mut self, value: &D) -> Result<(), Fault<'a>>
        ensures { PutKnownResult (output_device W.contents self.old) (output_device W.contents self.new)
            (D.output value.now) result }
    {
        match self.writer.show(value) {
            Ok(()) => Ok(()),
            Err(Failed) => Err(Fault::Write(self.path)),
        }
    }
}
