//! Sources of bytes: the trait by which the program reads its inputs.
ghost use Rattle.std.specs.Prelude.{◌≡◌, ◌<◌, ◌≤◌, ℕ, List, Option, IfOk, OnErr, length, take};
ghost use Rattle.std.specs.Io.KnownBytes.{Consumes, Keeps};
ghost use Rattle.bn_outside.specs.Counts.{CountsFault, Rose};
ghost use Rattle.bn_outside.specs.Streams.{EndsExactly, Supply};

use crate::{Failed, Sink};

/// Bytes that come in, and answers to which go out into a sink.
pub trait Source<O: Sink> {
    /// What is known of it: the bytes that are left, if contracts can name them; how often a read has failed; and what it has
    /// noted of its reads, as a number.
    ghost source: { Self → Supply };

    /// What it notes after one more read. It notes what `out` has been given by then, and in which way is its own affair, as
    /// it is of a store.
    ghost note: { ℕ → Option (List ℕ) → ℕ };

    /// Moves the first bytes that are left to the front of `buffer` and answers how many, at most
    /// the buffer's length. The buffer has room, so 0 says that no byte is left.
    ///
    /// A failed read moves nothing. Each call counts one fault if it fails, and none else. Nothing is
    /// said of the rest of the buffer, nor of the whole buffer after a failure.
    fn read(&mut self, out: &O, buffer: &mut [u8]) -> Result<usize, Failed>
        requires { 0 < length buffer.old }
        ensures bound { IfOk result (λ n. n ≤ length buffer.new) }
        ensures moved { IfOk result (λ n. Consumes (source self.old).left (source self.new).left (take n buffer.new)) }
        ensures end { IfOk result (λ n. EndsExactly (source self.old).left n buffer.new) }
        ensures kept { OnErr result (Keeps (source self.old).left (source self.new).left) }
        ensures later { (source self.old).faults ≤ (source self.new).faults }
        ensures called { (source self.new).noted ≡ note (source self.old).noted (O.stream out.now).text }
        ensures once { CountsFault (source self.old).faults (source self.new).faults result }
        ensures cause { OnErr result (Rose (source self.old).faults (source self.new).faults) };
}
