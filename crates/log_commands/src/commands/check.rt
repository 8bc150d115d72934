//! The command `check`: what a log has.
ghost use Rattle.log_commands.specs.SaveCounts.{IsMade};
ghost use Rattle.log_commands.specs.Commands.{IsByLog, check_of};
ghost use Rattle.log_commands.specs.Texts.{check_line};
ghost use Rattle.log_commands.specs.Answering.{Answers};
ghost use Rattle.log_commands.specs.Outside.{Sends, Always};

use crate::answer::Answer;
use crate::refusal::Refusal;
use crate::send::send;
use crate::texts::push_check;
use bn_outside::Sink;
use log_blocks::count_file;
use log_file::LogCounts;
use rv_text::Text;
use std::alloc::Global;

/// The counts of a log.
pub fn evaluate(alloc: Global, log: &[u8]) -> Result<Answer, Refusal>
    ensures { Answers IsMade (λ names. IsByLog names log.now check_of) result }
{
    match count_file(alloc, log) {
        Ok(counts) => Ok(Answer::Checked(counts)),
        Err(damage) => Err(Refusal::of_damage(damage)),
    }
}

/// Sends the line of a log.
pub fn send_check<O: Sink>(alloc: Global, log: &LogCounts, out: &mut O) -> Result<(), Refusal>
    ensures { Sends (check_line log.now) Always (O.stream out.old) (O.stream out.new) result }
{
    let mut text = Text::new(alloc);
    push_check(&mut text, log)?;
    send(out, &text)
}
