//! The lines of an interval that is replayed: one at its begin, one a row, one at its end.
ghost use Rattle.std.specs.Prelude.{◌≡◌, ◌++◌, [], IfErr};
ghost use Rattle.rv_text.specs.Rows.{row_text};
ghost use Rattle.log_commands.specs.Texts.{rows_text, begin_text};
ghost use Rattle.log_commands.specs.Printed.{outcome_of, ending_of, end_of_interval, rest_text, text_from, LacksALine, SendsReplay};
ghost use Rattle.log_commands.specs.Outside.{Sends, Gathers, Always};

use crate::refusal::Refusal;
use crate::send::{send, send_block, send_short};
use crate::texts::push_begin;
use bn_base::{EndMark, Row};
use bn_outside::Sink;
use hart_replay::{ReplayError, Replayer, blank_row};
use rv_text::{RowLines, Text, write_end};
use std::alloc::Global;

/// How the replay of an interval ended.
#[derive(Clone, Copy, Drop)]
pub enum ReplayEnd {
    /// As its log says.
    Done,
    /// It stopped, or ends otherwise.
    Stopped(ReplayError),
}

// Puts the line of a row after what waits.
fn gather_row<O: Sink>(
    lines: &mut RowLines,
    text: &mut Text,
    row: &Row,
    out: &mut O,
) -> Result<(), Refusal>
    ensures gathers { Gathers (text.old ++ row_text row.now) text.new (O.stream out.old) (O.stream out.new) result }
    ensures memory { IfErr result (LacksALine (text.old ++ row_text row.now) (O.stream out.old) (O.stream out.new)) }
{
    match lines.write_row(row, text) {
        Ok(()) => send_block(text, out),
        Err(_) => send_short(text, out),
    }
}

// The end that an error of a replay makes; out of memory is none.
fn ending_of(error: ReplayError) -> Result<ReplayEnd, Refusal>
    ensures { result ≡ ending_of error }
{
    match error {
        ReplayError::OutOfMemory => Err(Refusal::OutOfMemory),
        ReplayError::NoInterval { .. } => Ok(ReplayEnd::Stopped(error)),
        ReplayError::LoadMissing { .. } => Ok(ReplayEnd::Stopped(error)),
        ReplayError::ScMissing { .. } => Ok(ReplayEnd::Stopped(error)),
        ReplayError::RecordsLeft { .. } => Ok(ReplayEnd::Stopped(error)),
        ReplayError::EndDiffers { .. } => Ok(ReplayEnd::Stopped(error)),
    }
}

// Sends the rows that are left of a replay, in blocks; at first none waits.
fn send_left<O: Sink>(
    replayer: &mut Replayer,
    lines: &mut RowLines,
    text: &mut Text,
    out: &mut O,
) -> Result<ReplayEnd, Refusal>
    requires { text.old ≡ [] }
    ensures { let r = replayer.old.left in SendsReplay (rows_text r.rows) r.outcome replayer.new (O.stream out.old) (O.stream out.new) result }
{
    let mut row = blank_row();
    'rows: loop {
        match replayer.advance(&mut row) {
            Ok(true) => gather_row(lines, text, &row, out)?,
            Ok(false) => {
                send(out, text)?;
                return Ok(ReplayEnd::Done);
            }
            Err(error) => {
                send(out, text)?;
                return ending_of(error);
            }
        }
    }
}

// Sends the rows that are left of a replay.
fn send_rows<O: Sink>(
    alloc: Global,
    replayer: &mut Replayer,
    out: &mut O,
) -> Result<ReplayEnd, Refusal>
    ensures { let r = replayer.old.left in SendsReplay (rows_text r.rows) r.outcome replayer.new (O.stream out.old) (O.stream out.new) result }
{
    let mut text = Text::new(alloc);
    let mut lines = RowLines::new(alloc);
    send_left(replayer, &mut lines, &mut text, out)
}

// Sends the line before the rows.
fn send_begin<O: Sink>(
    alloc: Global,
    hart: u64,
    interval: u64,
    ic: u64,
    out: &mut O,
) -> Result<(), Refusal>
    ensures sends { Sends (begin_text hart interval ic) Always (O.stream out.old) (O.stream out.new) result }
    ensures memory { IfErr result (LacksALine (begin_text hart interval ic) (O.stream out.old) (O.stream out.new)) }
{
    let mut text = Text::new(alloc);
    push_begin(&mut text, hart, interval, ic)?;
    send(out, &text)
}

// Sends the line after the rows, if the end was reached.
fn send_end<O: Sink>(
    alloc: Global,
    hart: u64,
    interval: u64,
    mark: &EndMark,
    ending: &ReplayEnd,
    out: &mut O,
) -> Result<(), Refusal>
    ensures sends { Sends (end_of_interval hart interval mark.now (outcome_of ending.now)) Always (O.stream out.old) (O.stream out.new) result }
    ensures memory { IfErr result (LacksALine (end_of_interval hart interval mark.now (outcome_of ending.now)) (O.stream out.old) (O.stream out.new)) }
{
    match ending {
        ReplayEnd::Done => {
            let mut text = Text::new(alloc);
            write_end(hart, interval, mark, &mut text)?;
            send(out, &text)
        }
        ReplayEnd::Stopped(_) => Ok(()),
    }
}

// Sends the rows that are left of a replay and the line after them.
fn send_rest<O: Sink>(
    alloc: Global,
    hart: u64,
    interval: u64,
    mark: &EndMark,
    replayer: &mut Replayer,
    out: &mut O,
) -> Result<ReplayEnd, Refusal>
    ensures { let r = replayer.old.left in SendsReplay (rest_text hart interval mark.now r) r.outcome replayer.new (O.stream out.old) (O.stream out.new) result }
{
    let ending = send_rows(alloc, replayer, out)?;
    send_end(alloc, hart, interval, mark, &ending, out)?;
    Ok(ending)
}

/// Sends all that the replay of an interval prints, and answers how it ends.
pub fn send_interval<O: Sink>(
    alloc: Global,
    hart: u64,
    interval: u64,
    mark: &EndMark,
    replayer: &mut Replayer,
    out: &mut O,
) -> Result<ReplayEnd, Refusal>
    ensures { let r = replayer.old.left in SendsReplay (text_from hart interval replayer.old.state.ic mark.now r) r.outcome replayer.new (O.stream out.old) (O.stream out.new) result }
{
    send_begin(alloc, hart, interval, replayer.state().ic, out)?;
    send_rest(alloc, hart, interval, mark, replayer, out)
}
