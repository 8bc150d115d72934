//! Sending answers: long ones go out in blocks, so that their text needs little memory.
ghost use Rattle.std.specs.Prelude.{◌≡◌, ◌≤◌, IfErr};
ghost use Rattle.step_debugger.specs.Goings.{Sends, Gathers};
ghost use Rattle.step_debugger.specs.declared.error.DebugError.TheVariants.{WriteFault};

use crate::error::DebugError;
use bn_outside::{Sink, send_all};
use rv_text::Text;

// How many bytes of a text wait at least before they are sent.
const BLOCK: usize = 65_536;

/// Sends what waits of a text. The only error is that of a write.
pub(crate) fn send<O: Sink>(text: &Text, out: &mut O) -> Result<(), DebugError>
    ensures sent { Sends text.now (λ _. Unit {0}) (O.stream out.old) (O.stream out.new) result }
    ensures later { (O.stream out.old).faults ≤ (O.stream out.new).faults }
    ensures cause { IfErr result (λ e. e ≡ WriteFault) }
{
    match send_all(out, text.as_bytes()) {
        Ok(()) => Ok(()),
        Err(_) => Err(DebugError::WriteFault),
    }
}

/// Sends what waits of a text, if it is a block or more. The only error is that of a write.
pub(crate) fn send_block<O: Sink>(text: &mut Text, out: &mut O) -> Result<(), DebugError>
    ensures sent { Gathers text.old (λ _. Unit {0}) (O.stream out.old) (O.stream out.new) text.new result }
    ensures later { (O.stream out.old).faults ≤ (O.stream out.new).faults }
    ensures cause { IfErr result (λ e. e ≡ WriteFault) }
{
    if text.len() < BLOCK {
        return Ok(());
    }
    match send(text, out) {
        Ok(()) => {
            text.clear();
            Ok(())
        }
        Err(error) => Err(error),
    }
}
