//! The lines of the commands, read from a source.
ghost use Rattle.std.specs.Prelude.{◌≡◌, ◌≤◌, []};
ghost use Rattle.step_debugger.specs.Lines.{is_too_long, TakesByte, GivesByte, NextLine};

use crate::error::DebugError;
use bn_outside::{Failed, Sink, Source};
use std::alloc::Global;
use std::marker::Model;

const LINE_FEED: u8 = 10;

// The most bytes of a line, its LF not counted.
const LINE_LIMIT: usize = 256;

// The most bytes of all commands.
const INPUT_LIMIT: u64 = 1 << 24;

/// Reads lines. It takes one byte after another, so that nothing after a line is taken with it.
/// Contracts see how many bytes came, and the line that was read last.
#[derive(Drop)]
pub(crate) struct LineReader {
    count: u64,
    line: Vec<u8>,
}

impl Model for LineReader {
    ghost use Rattle.step_debugger.specs.Lines.{Reading};
    ghost use Rattle.std.specs.Prelude.{◌≤◌, ◌^◌};

    ghost Value = { Reading };

    ghost view = { λ r. record { count = r.count; line = r.line.items } };

    ghost invariant = { λ r. r.count ≤ 2 ^ 24 };
}

impl LineReader {
    /// Before the first line.
    pub(crate) fn new(alloc: Global) -> LineReader
        ensures { result ≡ record { count = 0; line = [] } }
    {
        LineReader {
            count: 0,
            line: Vec::new(alloc),
        }
    }

    /// The line that was read last, without its LF.
    pub(crate) fn line(&self) -> &[u8]
        ensures { result.now ≡ self.now.line }
    {
        &self.line
    }

    // Whether the line is full, and another byte than LF comes.
    fn is_too_long(&self, byte: u8) -> bool
        ensures { result ≡ is_too_long self.now.line byte }
    {
        byte != LINE_FEED && !(self.line.len() < LINE_LIMIT)
    }

    // One byte more: whether the line ends with it.
    fn take(&mut self, byte: u8) -> Result<bool, DebugError>
        ensures { TakesByte self.old byte result self.new }
    {
        if self.is_too_long(byte) {
            return Err(DebugError::LineTooLong {
                length: self.line.len() as u64 + 1,
            });
        }
        if !(self.count < INPUT_LIMIT) {
            return Err(DebugError::TooMuch {
                read: self.count + 1,
            });
        }
        self.count += 1;
        if byte == LINE_FEED {
            return Ok(true);
        }
        match self.line.push(byte) {
            Ok(()) => Ok(false),
            Err(_) => Err(DebugError::OutOfMemory),
        }
    }

    /// Reads the next line. It is `true` if that ended with LF; `false` if the source ended, which may
    /// be without a byte after the last LF.
    ///
    /// It fails if a read fails, if the line or all commands are too long, or when out of memory.
    pub(crate) fn next<I: Source<O>, O: Sink>(
        &mut self,
        source: &mut I,
        out: &O,
    ) -> Result<bool, DebugError>
        ensures read { NextLine self.old (I.source source.old) (I.source source.new) I.note (O.stream out.now) result self.new }
        ensures later { (I.source source.old).faults ≤ (I.source source.new).faults }
    {
        self.line.clear();
        'bytes: loop {
            match next_byte(source, out) {
                Err(_) => return Err(DebugError::ReadFault),
                // The bytes after the last LF count as a line, also if there are none: an empty line prints nothing.
                Ok(None) => return Ok(false),
                Ok(Some(byte)) => match self.take(byte) {
                    Ok(false) => (),
                    Ok(true) => return Ok(true),
                    Err(error) => return Err(error),
                },
            }
        }
    }
}

// The next byte of a source; `None` at its end.
fn next_byte<I: Source<O>, O: Sink>(source: &mut I, out: &O) -> Result<Option<u8>, Failed>
    ensures given { GivesByte (I.source source.old) (I.source source.new) result }
    ensures later { (I.source source.old).faults ≤ (I.source source.new).faults }
    ensures called { (I.source source.new).noted ≡ I.note (I.source source.old).noted (O.stream out.now).text }
{
    let mut buffer = [0u8; 1];
    match source.read(out, &mut buffer) {
        Err(error) => Err(error),
        Ok(count) => {
            if count == 0 {
                Ok(None)
            } else {
                Ok(Some(buffer[0]))
            }
        }
    }
}
