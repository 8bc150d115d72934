//! What a hart has to do in a joint replay: ordering points to pass, and retained intervals to replay.
ghost use Rattle.std.specs.Prelude.{◌≡◌, ◌<◌, true, is_some, Some, None, Err, IfOk, MatchOption};
ghost use Rattle.hart_replay.specs.Coming.{given};
ghost use Rattle.joint_replay.specs.Lanes.{has_row, lane_of, coming_of, point_of, state_of};
ghost use Rattle.joint_replay.specs.Intervals.{AreThere};
ghost use Rattle.joint_replay.specs.Moves.{CursorSteps, LaneRefuses, LaneSteps, stepped_by};
ghost use Rattle.joint_replay.specs.Sources.{edges_into, AscendFrom};
ghost use Rattle.joint_replay.specs.Harts.{cursor_coming, cursor_point, later_cursors, hart_cursors, IsHartLane};

use crate::calls::{Asked, filled};
use crate::incoming_edges::{IncomingEdge, IncomingEdges};
use crate::intervals::{Retained, retained_intervals};
use crate::kinds::{Coming, Stepped};
use crate::points::ordering_points;
use bn_base::end_mark::FAULT;
use bn_base::{Addr, EndMark, HartId, HartState, Ic, Image, Row};
use hart_replay::{ReplayError, Replayer, blank_row};
use log_order::KeptLog;
use std::alloc::{AllocError, Global};
use std::collections::BTreeSet;
use std::marker::Model;

/// The retained interval that is under way: its number, its replay, and whether the row of its
/// fault was given; if memory ran out for a row, the state before it.
#[derive(Drop)]
pub(crate) struct HartCursor<'a> {
    number: u64,
    replayer: Replayer<'a>,
    faulted: bool,
    ran_out_at: Option<HartState>,
}

/// A row, and the bytes that its call filled: the address of the first, and how many they are. It is the
/// caller's, and a step writes it there: the row is too large to be passed up through each level.
#[derive(Clone, Copy, Drop)]
pub(crate) struct Did {
    pub(crate) row: Row,
    pub(crate) filled: Option<(Addr, u32)>,
}

/// What a step of a hart did: it passed an ordering point, did an instruction, or ended an interval.
#[derive(Clone, Copy, Drop)]
pub(crate) enum Moved {
    Passed(Ic),
    Row,
    Ended(u64, EndMark),
}

impl Did {
    /// A place in which nothing is written.
    pub(crate) fn blank() -> Did {
        Did {
            row: blank_row(),
            filled: None,
        }
    }

    /// How a step is told that wrote this.
    pub(crate) fn stepped(&self, hart: HartId, moved: Moved) -> Stepped
        ensures { result ≡ stepped_by hart moved self.now }
    {
        match moved {
            Moved::Passed(ic) => Stepped::Passed { hart, ic },
            Moved::Row => Stepped::Did(self.row),
            Moved::Ended(interval, mark) => Stepped::Ended {
                hart,
                interval,
                mark,
            },
        }
    }
}

impl<'a> Model for HartCursor<'a> {
    ghost use Rattle.joint_replay.specs.Harts.{Running, running, ran_out};

    ghost Value = { Running };

    ghost view = { λ c. ran_out c.ran_out_at (running c.number c.replayer c.faulted) };
}

impl<'a> HartCursor<'a> {
    /// The hart's state.
    #[inline(always)]
    fn state(&self) -> &HartState
        ensures { result.now ≡ self.now.cursor.state }
    {
        match &self.ran_out_at {
            None => self.replayer.state(),
            Some(before) => before,
        }
    }

    /// Whether a row comes: of an instruction, or of the fault that the End tells of.
    fn has_row(&self) -> bool
        ensures { result ≡ has_row self.now.cursor }
    {
        let mark = self.replayer.mark();
        self.state().ic < mark.ic || mark.reason > FAULT && !self.faulted
    }

    /// What comes next of the interval.
    fn coming(&self) -> Coming
        ensures { result ≡ cursor_coming self.now.cursor }
    {
        if self.has_row() {
            Coming::RowAt {
                ic: self.state().ic,
            }
        } else {
            Coming::EndAt {
                ic: self.replayer.mark().ic,
            }
        }
    }

    /// The instruction that comes next, if one does.
    fn point(&self) -> Option<Ic>
        ensures { result ≡ cursor_point self.now.cursor }
    {
        let ic = self.state().ic;
        if ic < self.replayer.mark().ic {
            Some(ic)
        } else {
            None
        }
    }
}

impl<'a> HartCursor<'a> {
    /// Writes the next row; `false` if the interval ended as its log says.
    #[inline(always)]
    fn step(&mut self, did: &mut Did) -> Result<bool, ReplayError>
        ensures { CursorSteps self.old (given result did.new) self.new }
    {
        if self.ran_out_at.is_some() {
            return Err(ReplayError::OutOfMemory);
        }
        let asked = Asked::by(self.replayer.state());
        match self.replayer.advance(&mut did.row) {
            Ok(true) => {
                self.faulted = did.row.fault.is_some();
                did.filled = filled(asked, &did.row);
                Ok(true)
            }
            Ok(false) => Ok(false),
            Err(error) => Err(error),
        }
    }

    /// Why the step isn't done if there is no memory for its row: its refusal, else out of memory.
    // Only the replay itself can tell, so it takes the step, and the state before the row is kept.
    #[cold]
    #[inline(never)]
    fn starve(&mut self) -> ReplayError
        ensures { CursorSteps self.old (Err result) self.new }
    {
        if self.ran_out_at.is_some() {
            return ReplayError::OutOfMemory;
        }
        let before = *self.replayer.state();
        match self.replayer.step() {
            Err(refusal) => refusal,
            Ok(_) => {
                self.ran_out_at = Some(before);
                ReplayError::OutOfMemory
            }
        }
    }

    // The same interval, at the same place of its replay.
    fn copy(&self) -> Result<HartCursor<'a>, AllocError>
        ensures { IfOk result (λ c. c ≡ self.now) }
    {
        match self.replayer.copy() {
            Err(error) => Err(error),
            Ok(replayer) => Ok(HartCursor {
                number: self.number,
                replayer,
                faulted: self.faulted,
                ran_out_at: self.ran_out_at,
            }),
        }
    }
}

/// A hart in a joint replay: its ordering points that are left, the interval that is under way, and
/// those after it, the last first.
#[derive(Drop)]
pub(crate) struct Lane<'a> {
    alloc: Global,
    image: &'a Image,
    log: &'a KeptLog,
    hart: HartId,
    sources: IncomingEdges<'a>,
    points: BTreeSet<Ic>,
    cursor: Option<HartCursor<'a>>,
    later: Vec<Retained>,
}

impl<'a> Model for Lane<'a> {
    ghost use Rattle.std.specs.Prelude.{◌≡◌};
    ghost use Rattle.joint_replay.specs.Harts.{HartLane, hart_lane, IsHartLane};
    ghost use Rattle.joint_replay.specs.Sources.{hart_of};

    ghost Value = { HartLane };

    ghost view = { λ l. hart_lane l.image.now l.log.now.records l.hart l.points.keys l.cursor l.later.items };

    ghost invariant = { λ l. IsHartLane l.image.now l.log.now l.hart l.cursor l.later.items × (l.sources ≡ hart_of l.log.now l.hart) };
}

impl<'a> Lane<'a> {
    /// A hart before its first step.
    pub(crate) fn begin(
        alloc: Global,
        image: &'a Image,
        log: &'a KeptLog,
        hart: HartId,
    ) -> Result<Lane<'a>, AllocError>
        requires { hart < log.now.head.settings.harts }
        ensures { IfOk result (λ l. l ≡ record { program = image.now; records = log.now.records; hart = hart; lane = lane_of image.now log.now.records hart }) }
    {
        let sources = IncomingEdges::gather(alloc, log, hart)?;
        let points = ordering_points(alloc, hart, log.records())?;
        let mut later = retained_intervals(alloc, hart, log)?;
        let cursor = next_cursor(alloc, image, log, hart, &mut later);
        Ok(Lane {
            alloc,
            image,
            log,
            hart,
            sources,
            points,
            cursor,
            later,
        })
    }

    /// What comes next of the hart.
    pub(crate) fn coming(&self) -> Option<Coming>
        ensures { result ≡ coming_of self.now.lane }
    {
        match self.points.first() {
            Some(ic) => Some(Coming::PassAt { ic: *ic }),
            None => match &self.cursor {
                Some(cursor) => Some(cursor.coming()),
                None => None,
            },
        }
    }

    /// The point that the next step is at; a fault's row and an interval's end are at none.
    pub(crate) fn point(&self) -> Option<Ic>
        ensures { result ≡ point_of self.now.lane }
    {
        match self.points.first() {
            Some(ic) => Some(*ic),
            None => match &self.cursor {
                Some(cursor) => cursor.point(),
                None => None,
            },
        }
    }

    /// The Edges into the hart, by ascending targets.
    pub(crate) fn edges(&self) -> &[IncomingEdge]
        ensures all { result.now ≡ edges_into self.now.hart self.now.records }
        ensures order { AscendFrom 0 result.now }
    {
        self.sources.all()
    }

    /// The hart's state, if an interval is under way.
    pub(crate) fn state(&self) -> Option<&HartState>
        ensures { MatchOption result (state_of self.now.lane ≡ None) (λ s. state_of self.now.lane ≡ Some s.now) }
    {
        match self.points.first() {
            Some(_) => None,
            None => match &self.cursor {
                Some(cursor) => Some(cursor.state()),
                None => None,
            },
        }
    }
}

impl<'a> Lane<'a> {
    /// Takes the hart's next step, of which there has to be one, and writes its row if it has one.
    #[inline(always)]
    pub(crate) fn step(&mut self, did: &mut Did) -> Result<Moved, ReplayError>
        requires { is_some (coming_of self.old.lane) ≡ true }
        ensures { LaneSteps self.old result did.new self.new }
    {
        match self.points.pop_first() {
            Some(ic) => Ok(Moved::Passed(ic)),
            None => match &mut self.cursor {
                None => unreachable!(),
                Some(cursor) => match cursor.step(did) {
                    Err(error) => Err(error),
                    Ok(true) => Ok(Moved::Row),
                    Ok(false) => {
                        let ended = Moved::Ended(cursor.number, cursor.replayer.mark());
                        begin_next(
                            &mut self.cursor,
                            self.alloc,
                            self.image,
                            self.log,
                            self.hart,
                            &mut self.later,
                        );
                        Ok(ended)
                    }
                },
            },
        }
    }

    /// Why the hart's next step isn't done if there is no memory for it: its refusal, else out of memory.
    #[cold]
    #[inline(never)]
    pub(crate) fn starve(&mut self) -> ReplayError
        ensures { LaneRefuses self.old result self.new }
    {
        match self.points.first() {
            Some(_) => return ReplayError::OutOfMemory,
            None => match &mut self.cursor {
                None => return ReplayError::OutOfMemory,
                Some(cursor) => return cursor.starve(),
            },
        }
    }

    /// An equal hart.
    pub(crate) fn copy(&self) -> Result<Lane<'a>, AllocError>
        ensures { IfOk result (λ l. l ≡ self.now) }
    {
        let later = Vec::from_slice(self.alloc, &self.later)?;
        let sources = self.sources.copy()?;
        let points = copy_points(&self.points)?;
        match copy_cursor(&self.cursor) {
            Err(error) => Err(error),
            Ok(cursor) => Ok(Lane {
                alloc: self.alloc,
                image: self.image,
                log: self.log,
                hart: self.hart,
                sources,
                points,
                cursor,
                later,
            }),
        }
    }
}

fn copy_points(points: &BTreeSet<Ic>) -> Result<BTreeSet<Ic>, AllocError>
    ensures { IfOk result (λ copy. copy.keys ≡ points.now.keys) }
{
    points.clone()
}

// The same interval under way, if one is.
fn copy_cursor<'a>(cursor: &Option<HartCursor<'a>>) -> Result<Option<HartCursor<'a>>, AllocError>
    ensures { IfOk result (λ copy. copy ≡ cursor.now) }
{
    match cursor {
        None => Ok(None),
        Some(cursor) => match cursor.copy() {
            Ok(copy) => Ok(Some(copy)),
            Err(error) => Err(error),
        },
    }
}

// Begins the next one of the hart's intervals, which are given last first.
#[cold]
#[inline(never)]
fn next_cursor<'a>(
    alloc: Global,
    image: &'a Image,
    log: &'a KeptLog,
    hart: HartId,
    later: &mut Vec<Retained>,
) -> Option<HartCursor<'a>>
    requires hart { hart < log.now.head.settings.harts }
    requires there { AreThere hart log.now.records later.old.items }
    ensures cursors { hart_cursors image.now log.now.records hart result later.new.items ≡ later_cursors image.now log.now.records hart later.old.items }
    ensures whole { IsHartLane image.now log.now hart result later.new.items }
{
    match later.pop() {
        None => None,
        Some(next) => match Replayer::begin_from(
            alloc,
            image,
            log,
            hart as u64,
            next.number,
            next.place,
        ) {
            Ok(replayer) => Some(HartCursor {
                number: next.number,
                replayer,
                faulted: false,
                ran_out_at: None,
            }),
            Err(_) => unreachable!(),
        },
    }
}

// Begins the next one of the hart's intervals in the place of the one that ended. If the step itself moved it there,
// room for an interval would be zeroed in each step.
#[cold]
#[inline(never)]
fn begin_next<'a>(
    cursor: &mut Option<HartCursor<'a>>,
    alloc: Global,
    image: &'a Image,
    log: &'a KeptLog,
    hart: HartId,
    later: &mut Vec<Retained>,
)
    requires hart { hart < log.now.head.settings.harts }
    requires there { AreThere hart log.now.records later.old.items }
    ensures cursors { hart_cursors image.now log.now.records hart cursor.new later.new.items ≡ later_cursors image.now log.now.records hart later.old.items }
    ensures whole { IsHartLane image.now log.now hart cursor.new later.new.items }
{
    *cursor = next_cursor(alloc, image, log, hart, later);
}
