//! A reader that isn't read again once it has said that it ended: a terminal could continue.
ghost use Rattle.std.specs.Prelude.{◌≡◌, ◌<◌, [], Some, Ok, IfOk, IsTrue, cond, false, length};
ghost use Rattle.std.specs.Io.{ReadsAtMost};
ghost use Rattle.std.specs.Io.KnownBytes.{ReadConsumes};

use crate::retries::read_on;
use std::io;
use std::io::Read;

/// A reader up to its first end. A terminal can give more bytes after an end, which nobody waits for.
#[derive(Drop)]
pub struct UntilEnd<R> {
    inner: R,
    has_ended: bool,
}

impl<R: Read> UntilEnd<R> {
    /// This reader, of which no end was seen.
    pub fn new(inner: R) -> Self
        ensures { result ≡ record { inner = inner; has_ended = false } }
    {
        UntilEnd {
            inner,
            has_ended: false,
        }
    }
}

impl<R: Read> Read for UntilEnd<R> {
    ghost remaining = { λ r. cond r.has_ended (Some []) (R.remaining r.inner) };

    fn read(&mut self, buffer: &mut [u8]) -> io::Result<usize>
        ensures bound { ReadsAtMost result buffer.new }
        ensures bytes { ReadConsumes (cond self.old.has_ended (Some []) (R.remaining self.old.inner))
            (cond self.new.has_ended (Some []) (R.remaining self.new.inner)) result buffer.new }

        // It has ended once it said so, and then it says no more.
        ensures ended { IfOk result (λ n. n ≡ 0 → 0 < length buffer.new → IsTrue self.new.has_ended) }
        ensures over { IsTrue self.old.has_ended → (result ≡ Ok 0) × (self.new ≡ self.old) }
    {
        if self.has_ended {
            return Ok(0);
        }
        let count = read_on(&mut self.inner, buffer)?;
        if count == 0 && !buffer.is_empty() {
            self.has_ended = true;
        }
        Ok(count)
    }
}
