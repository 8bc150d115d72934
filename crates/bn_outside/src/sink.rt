//! Sinks of bytes: the trait by which the program writes its outputs.
ghost use Rattle.std.specs.Prelude.{◌≤◌, ◌<◌, IfOk, OnErr, length, take};
ghost use Rattle.std.specs.Io.KnownBytes.{Appends, Keeps};
ghost use Rattle.bn_outside.specs.Counts.{CountsFault, Rose};
ghost use Rattle.bn_outside.specs.Streams.{Stream};

use crate::Failed;

/// Bytes that go out.
pub trait Sink {
    /// What is known of it: the bytes written so far, if contracts can name them, and how often a write has failed.
    ghost stream: { Self → Stream };

    /// Takes bytes from the beginning of `piece` and answers how many, at most the piece's length and
    /// at least one. No caller writes an empty piece, so each write that doesn't fail takes a byte.
    ///
    /// A failed write takes nothing. Each call counts one fault if it fails, and none else.
    fn write(&mut self, piece: &[u8]) -> Result<usize, Failed>
        requires { 0 < length piece.now }
        ensures bound { IfOk result (λ n. n ≤ length piece.now) }
        ensures some { IfOk result (λ n. 0 < n) }
        ensures taken { IfOk result (λ n. Appends (stream self.old).text (stream self.new).text (take n piece.now)) }
        ensures kept { OnErr result (Keeps (stream self.old).text (stream self.new).text) }
        ensures later { (stream self.old).faults ≤ (stream self.new).faults }
        ensures once { CountsFault (stream self.old).faults (stream self.new).faults result }
        ensures cause { OnErr result (Rose (stream self.old).faults (stream self.new).faults) };
}
