//! The rows of a replay up to the one that is asked for.
ghost use Rattle.std.specs.Prelude.{◌≡◌, ◌∷◌, [], List, false, OnOk, IfOk, IfErr};
ghost use Rattle.slice_back.specs.Common.{option_map, Row as RowOf};
ghost use Rattle.slice_back.specs.Slices.{note, passed};
ghost use Rattle.slice_back.specs.Tracing.{reached, error_of, IsStop, EndsUnnoted, IsTraced};

use crate::error::SliceError;
use crate::first_loads::Pending;
use crate::noted::Noted;
use crate::uses::used_word;
use bn_base::{Ic, Row};
use hart_replay::{ReplayError, Replayer};
use std::alloc::{AllocError, Global};
use std::marker::Model;

/// The rows up to the one with a count, with the first loads that they took. The later ones aren't
/// kept.
#[derive(Drop)]
pub(crate) struct RowTrace<'a> {
    ic: Ic,
    loads: Pending<'a>,
    noted: Vec<Noted>,
    found: bool,
}

impl<'a> Model for RowTrace<'a> {
    ghost use Rattle.slice_back.specs.Tracing.{Tracing};

    ghost Value = { Tracing };

    ghost view = { λ t. record { ic = t.ic; loads = t.loads; noted = t.noted.items; found = t.found } };
}

impl<'a> RowTrace<'a> {
    /// No row is met.
    pub(crate) fn new(alloc: Global, loads: &'a [(u32, u32)], ic: Ic) -> RowTrace<'a>
        ensures { result ≡ record { ic = ic; loads = record { loads = loads.now; skipped = 0 }; noted = []; found = false } }
    {
        RowTrace {
            ic,
            loads: Pending::new(loads),
            noted: Vec::new(alloc),
            found: false,
        }
    }

    // The value of the first load that a row takes.
    fn first_load(&mut self, row: &Row) -> Option<u32>
        ensures value { result ≡ (note self.old.loads row.now).first_load }
        ensures rest { self.new ≡ record self.old { loads = passed self.old.loads row.now } }
    {
        match used_word(row) {
            None => None,
            Some(_) => self.loads.take(),
        }
    }

    // Notes a row, if the last one isn't met.
    fn add(&mut self, row: Row) -> Result<(), AllocError>
        requires { self.old.found ≡ false }
        ensures { OnOk result ((rows : List RowOf) → reached self.new rows ≡ reached self.old (row ∷ rows)) }
    {
        let first_load = self.first_load(&row);
        self.noted.extend_from_slice(&[Noted { row, first_load }])?;
        self.found = row.ic == self.ic;
        Ok(())
    }

    // Takes in one more row.
    fn note(&mut self, row: Row) -> Result<(), AllocError>
        ensures { OnOk result ((rows : List RowOf) → reached self.new rows ≡ reached self.old (row ∷ rows)) }
    {
        if self.found { Ok(()) } else { self.add(row) }
    }

    // The rows up to the last one, if it was met.
    fn into_noted(self) -> Option<Vec<Noted>>
        ensures { reached self.entry [] ≡ option_map (λ v. v.items) result }
    {
        if self.found { Some(self.noted) } else { None }
    }
}

// The error of a slice whose replay stops; out of memory is its own.
fn error_of(error: ReplayError) -> SliceError
    ensures { result ≡ error_of error }
{
    match error {
        ReplayError::OutOfMemory => SliceError::OutOfMemory,
        ReplayError::NoInterval { .. } => SliceError::Replay(error),
        ReplayError::LoadMissing { .. } => SliceError::Replay(error),
        ReplayError::ScMissing { .. } => SliceError::Replay(error),
        ReplayError::RecordsLeft { .. } => SliceError::Replay(error),
        ReplayError::EndDiffers { .. } => SliceError::Replay(error),
    }
}

// Why the rest of a replay isn't noted: the replay's own refusal, which may be still to come, or else out
// of memory.
fn unnoted(replayer: &mut Replayer) -> SliceError
    ensures { EndsUnnoted replayer.old.left result replayer.new.left }
{
    'rest: loop {
        match replayer.step() {
            Ok(Some(_)) => (),
            Ok(None) => return SliceError::OutOfMemory,
            Err(error) => return error_of(error),
        }
    }
}

/// The rows of a replay up to the one with a count, if it is done; `None` if there is no such row.
///
/// All rows are replayed. The error is the replay's, or out of memory, which comes only if the replay
/// has a row or was out of memory itself. Without memory for the rows the replay continues, so that a later
/// refusal is told.
pub(crate) fn rows_up_to(
    alloc: Global,
    replayer: &mut Replayer,
    loads: &[(u32, u32)],
    ic: Ic,
) -> Result<Option<Vec<Noted>>, SliceError>
    ensures done { IfOk result (λ found. IsTraced ic loads.now replayer.old.left (option_map (λ v. v.items) found)) }
    ensures refused { IfErr result (λ e. IsStop replayer.old.left e) }
    ensures memory { IfErr result (λ e. EndsUnnoted replayer.old.left e replayer.new.left) }
{
    let mut trace = RowTrace::new(alloc, loads, ic);
    'rows: loop {
        match replayer.step() {
            Ok(Some(row)) => {
                if trace.note(row).is_err() {
                    return Err(unnoted(replayer));
                }
            }
            Ok(None) => return Ok(trace.into_noted()),
            Err(error) => return Err(error_of(error)),
        }
    }
}
