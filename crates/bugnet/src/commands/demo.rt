//! The command `demo`: the demonstration of a number.
ghost use Rattle.std.specs.Prelude.{◌≡◌};
ghost use Rattle.bugnet.specs.Common.{demo_text, Answers, FileNames, IsMade, printed};
ghost use Rattle.bugnet.specs.LineCalls.{ShowsText};

use demo_run::demo_lines;
use log_commands::answer::Answer;
use log_commands::refusal::Refusal;
use std::alloc::Global;

/// The lines of the demonstration of a number.
pub fn evaluate(alloc: Global, seed: u64) -> Result<Answer, Refusal>
    ensures answers { Answers IsMade (λ names what. what ≡ printed (demo_text seed)) result }
    ensures shows { (names : FileNames) → ShowsText names (demo_text seed) result }
{
    match demo_lines(alloc, seed) {
        Ok(lines) => Ok(Answer::Shown(lines)),
        Err(_) => Err(Refusal::OutOfMemory),
    }
}
