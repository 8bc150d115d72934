//! The replay of one interval, row by row: the crate's main type.
ghost use Rattle.std.specs.Prelude.{◌≡◌, None, take, IfOk, IfErr};
ghost use Rattle.hart_replay.specs.declared.error.ReplayError.TheVariants.{NoInterval};
ghost use Rattle.hart_replay.specs.Replay.{interval_of};
ghost use Rattle.hart_replay.specs.Coming.{Begins, Stepped, given};

use crate::decode_cache::DecodeCache;
use crate::error::ReplayError;
use crate::header::find;
use crate::interval_cursor::IntervalCursor;
use crate::pending::{Conditionals, Loads};
use crate::rows::blank_row;
use crate::scan::next_mark;
use crate::words::Words;
use bn_base::{EndMark, HartState, Image, Row};
use log_order::KeptLog;
use std::alloc::{AllocError, Global};
use std::marker::Model;

/// The replay of one checkpoint interval (BugNet, ISCA 2005), from its log and the program alone.
///
/// Contracts see the program, the mark of the interval's End, the hart's state after the rows given
/// so far, and what is left: the rows to come and the outcome. Each step takes constant time, but for records of the log that it
/// passes; each record is passed at most twice. The memory that it takes is in proportion to the
/// pages of 64 words that the interval touches, beside 16 KiB for what it looked up in the code.
#[derive(Drop)]
pub struct Replayer<'a> {
    cursor: IntervalCursor<'a>,
    /// The outcome, once it is told or only it is left.
    over: Option<Result<(), ReplayError>>,
}

impl<'a> Model for Replayer<'a> {
    ghost use Rattle.hart_replay.specs.Coming.{Replaying};
    ghost use Rattle.hart_replay.specs.Sides.{left_by};
    ghost use Rattle.hart_replay.specs.Cursors.{cursor_to_come};

    ghost Value = { Replaying };

    ghost view = { λ r. record { program = r.cursor.image.now; mark = r.cursor.mark; state = r.cursor.state; left = left_by r.over (cursor_to_come r.cursor) } };
}

impl<'a> Replayer<'a> {
    /// The replay of an interval of a hart, before its first row. The only error is NoInterval: the log
    /// keeps no Header of that hart and interval. It takes no memory.
    pub fn begin(
        alloc: Global,
        image: &'a Image,
        log: &'a KeptLog,
        hart: u64,
        interval: u64,
    ) -> Result<Replayer<'a>, ReplayError>
        ensures begins { IfOk result (λ r. Begins image.now hart interval log.now.records r) }
        ensures refused { IfErr result (λ e. (e ≡ NoInterval hart interval) × (interval_of hart interval log.now.records ≡ None)) }
    {
        Replayer::begin_from(alloc, image, log, hart, interval, 0)
    }

    /// As `begin`, for a Header that isn't among the first records: it is looked for from a place on.
    pub fn begin_from(
        alloc: Global,
        image: &'a Image,
        log: &'a KeptLog,
        hart: u64,
        interval: u64,
        place: usize,
    ) -> Result<Replayer<'a>, ReplayError>
        requires before { interval_of hart interval (take place log.now.records) ≡ None }
        ensures begins { IfOk result (λ r. Begins image.now hart interval log.now.records r) }
        ensures refused { IfErr result (λ e. (e ≡ NoInterval hart interval) × (interval_of hart interval log.now.records ≡ None)) }
    {
        let records = log.records();
        match find(hart, interval, records, place) {
            None => Err(ReplayError::NoInterval { hart, interval }),
            Some(start) => Ok(Replayer {
                cursor: IntervalCursor {
                    image: DecodeCache::new(alloc, image),
                    hart: start.hart,
                    // The End is looked for once, here, and what it says is kept.
                    mark: next_mark(start.hart, records, start.next),
                    state: start.state,
                    loads: Loads::new(start.hart, records, start.next),
                    conditionals: Conditionals::new(start.hart, records, start.next),
                    words: Words::new(alloc),
                    called: false,
                },
                over: None,
            }),
        }
    }

    /// The next row; `None` if all rows were given and the interval ended as its log says.
    ///
    /// The errors are those of the definition, and come after the rows before them. They are a word
    /// that neither the log nor an earlier row tells, a store-conditional without a record, an end that
    /// isn't the log's, and records that are left. OutOfMemory comes only in place of a row that tells
    /// a word of memory, since such words are kept. After `None` or an error it answers the same again,
    /// and the state stays.
    pub fn step(&mut self) -> Result<Option<Row>, ReplayError>
        ensures { Stepped self.old result self.new }
    {
        let mut row = blank_row();
        match self.advance(&mut row) {
            Ok(true) => Ok(Some(row)),
            Ok(false) => Ok(None),
            Err(error) => Err(error),
        }
    }

    /// As `step`, with the row written to `row`; `false` if `step` gives none.
    #[inline(always)]
    pub fn advance(&mut self, row: &mut Row) -> Result<bool, ReplayError>
        ensures { Stepped self.old (given result row.new) self.new }
    {
        match self.over {
            Some(Ok(())) => Ok(false),
            Some(Err(error)) => Err(error),
            None => {
                if self.cursor.state.ic < self.cursor.mark.ic {
                    if self.cursor.goes_on(&mut self.over, row) {
                        return Ok(true);
                    }
                    match self.over {
                        Some(Err(error)) => Err(error),
                        Some(Ok(())) => unreachable!(),
                        None => unreachable!(),
                    }
                } else {
                    let (faults, outcome) = self.cursor.end(row);
                    self.over = Some(outcome);
                    match outcome {
                        Ok(()) => Ok(faults),
                        Err(error) => if faults { Ok(true) } else { Err(error) },
                    }
                }
            }
        }
    }

    /// The mark of the interval's End.
    pub fn mark(&self) -> EndMark
        ensures { result ≡ self.now.mark }
    {
        self.cursor.mark
    }

    /// The hart's state after the rows given so far.
    pub fn state(&self) -> &HartState
        ensures { result.now ≡ self.now.state }
    {
        &self.cursor.state
    }

    /// An equal replayer. It takes memory in proportion to the pages that the interval touched so far,
    /// and fails only when out of memory.
    pub fn copy(&self) -> Result<Replayer<'a>, AllocError>
        ensures { IfOk result (λ r. r ≡ self.now) }
    {
        match self.cursor.copy() {
            Err(error) => Err(error),
            Ok(cursor) => Ok(Replayer {
                cursor,
                over: self.over,
            }),
        }
    }
}
