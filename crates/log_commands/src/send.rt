//! Texts sent to an output, whole or in blocks, and how a command ends.
ghost use Rattle.std.specs.Prelude.{◌≡◌, IfErr};
ghost use Rattle.log_commands.specs.Effects.{done_of, GivesStatus};
ghost use Rattle.log_commands.specs.Outside.{Sends, SendsBytes, Gathers, Refuses, Always};
ghost use Rattle.log_commands.specs.Statuses.{code};
ghost use Rattle.log_commands.specs.declared.refusal.Refusal.TheVariants.{WriteFailed};

use crate::names::Names;
use crate::refusal::Refusal;
use crate::status::Status;
use bn_outside::{Sink, send_all};
use rv_text::Text;
use std::alloc::Global;

// How many bytes of a text wait at least before they are sent.
const BLOCK: usize = 65_536;

/// Sends bytes.
pub fn send_bytes<K: Sink>(sink: &mut K, bytes: &[u8]) -> Result<(), Refusal>
    ensures { SendsBytes bytes.now (K.stream sink.old) (K.stream sink.new) result }
{
    match send_all(sink, bytes) {
        Ok(()) => Ok(()),
        Err(_) => Err(Refusal::WriteFailed),
    }
}

/// Sends a text.
pub fn send<K: Sink>(sink: &mut K, text: &Text) -> Result<(), Refusal>
    ensures sends { Sends text.now Always (K.stream sink.old) (K.stream sink.new) result }
    ensures write { IfErr result (λ refusal. refusal ≡ WriteFailed) }
{
    send_bytes(sink, text.as_bytes())
}

/// Tells a refusal on err, and answers its status; out of memory if its line finds no memory.
pub fn refuse<X: Sink>(alloc: Global, names: &Names, refusal: &Refusal, err: &mut X) -> Status
    ensures { Refuses names.now refusal.now (code result) (X.stream err.old) (X.stream err.new) }
{
    let mut line = Text::new(alloc);
    match refusal.push_line(alloc, names, &mut line) {
        Ok(()) => {
            let _ = send_all(err, line.as_bytes());
            refusal.status()
        }
        Err(_) => {
            let _ = send_all(err, b"bugnet: out of memory\n");
            Status::OutOfMemory
        }
    }
}

/// A text that was printed ends its command as done.
pub fn done(printed: Result<(), Refusal>) -> Result<Status, Refusal>
    ensures { result ≡ done_of printed }
{
    printed?;
    Ok(Status::Done)
}

/// Ends a command: a refusal, if there is one, is told on err, and gives the status.
pub fn give_status<X: Sink>(
    alloc: Global,
    names: &Names,
    ending: Result<Status, Refusal>,
    err: &mut X,
) -> Status
    ensures { GivesStatus names.now ending (code result) (X.stream err.old) (X.stream err.new) }
{
    match ending {
        Ok(status) => status,
        Err(refusal) => refuse(alloc, names, &refusal, err),
    }
}

/// Sends what waits, if it is a block or more.
pub fn send_block<O: Sink>(text: &mut Text, out: &mut O) -> Result<(), Refusal>
    ensures gathers { Gathers text.old text.new (O.stream out.old) (O.stream out.new) result }
    ensures write { IfErr result (λ refusal. refusal ≡ WriteFailed) }
{
    if text.len() < BLOCK {
        return Ok(());
    }
    send(out, text)?;
    text.clear();
    Ok(())
}

/// Sends what waits, if memory ran out for more of it.
pub fn send_short<O: Sink>(text: &Text, out: &mut O) -> Result<(), Refusal>
    ensures { Sends text.now (λ _. ⊥) (O.stream out.old) (O.stream out.new) result }
{
    send(out, text)?;
    Err(Refusal::OutOfMemory)
}
