//! The command `list`: a line for each interval that a log keeps.
ghost use Rattle.std.specs.Prelude.{◌++◌, drop};
ghost use Rattle.log_commands.specs.SaveCounts.{IsMade};
ghost use Rattle.log_commands.specs.Commands.{IsByLog, list_of};
ghost use Rattle.log_commands.specs.Texts.{interval_text, list_text, record_text};
ghost use Rattle.log_commands.specs.Answering.{Answers};
ghost use Rattle.log_commands.specs.Outside.{Sends, Gathers, Always};

use crate::answer::{Answer, read_log};
use crate::refusal::Refusal;
use crate::send::{send, send_block};
use crate::texts::push_interval;
use bn_base::EndMark;
use bn_outside::Sink;
use hart_replay::scan::next_mark;
use log_order::KeptLog;
use log_record::{Record, RecordList};
use rv_text::Text;
use std::alloc::Global;

/// The intervals of a log, to be listed.
pub fn evaluate(alloc: Global, log: &[u8]) -> Result<Answer, Refusal>
    ensures { Answers IsMade (λ names. IsByLog names log.now list_of) result }
{
    let log = read_log(alloc, log)?;
    Ok(Answer::Listed(log))
}

// Puts the line of an interval after what waits.
fn gather_interval<O: Sink>(
    text: &mut Text,
    hart: u64,
    interval: u64,
    ic: u64,
    mark: &EndMark,
    out: &mut O,
) -> Result<(), Refusal>
    ensures { Gathers (text.old ++ interval_text hart interval ic mark.now) text.new (O.stream out.old) (O.stream out.new) result }
{
    push_interval(text, hart, interval, ic, mark)?;
    send_block(text, out)
}

// Adds the line of a record before those from a place on, if it has one, to what waits.
fn gather_record<O: Sink>(
    text: &mut Text,
    entry: &Record,
    records: &RecordList,
    next: usize,
    out: &mut O,
) -> Result<(), Refusal>
    ensures { Gathers (text.old ++ record_text entry.now (drop next records.now)) text.new (O.stream out.old) (O.stream out.new) result }
{
    match *entry {
        Record::Header {
            hart,
            interval,
            ic,
            ..
        } => {
            let mark = next_mark(hart, records, next);
            gather_interval(text, u64::from(hart), interval, ic, &mark, out)
        }
        Record::FirstLoad { .. } => Ok(()),
        Record::ScOk { .. } => Ok(()),
        Record::ScFailed { .. } => Ok(()),
        Record::Edge { .. } => Ok(()),
        Record::End { .. } => Ok(()),
    }
}

/// Sends the lines of the intervals of a log, in blocks.
pub fn send_list<O: Sink>(alloc: Global, log: &KeptLog, out: &mut O) -> Result<(), Refusal>
    ensures { Sends (list_text log.now.records) Always (O.stream out.old) (O.stream out.new) result }
{
    let records = log.records();
    let mut text = Text::new(alloc);
    for place in 0..records.len() {
        gather_record(&mut text, &records.get(place), records, place + 1, out)?;
    }
    send(out, &text)
}
