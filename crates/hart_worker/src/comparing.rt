//! Whether a book agrees with what each hart did by itself.
ghost use Rattle.std.specs.Prelude.{◌≡◌, ◌<◌, ℕ, true, false, List, length, slice_index_or, IfOk, IfSome, IfNone, MatchResult};
ghost use Rattle.std.specs.Bool.{Decides};
ghost use Rattle.hart_worker.specs.Common.{TurnRow, rows_by, harts_of, began_of, HasTaken};
ghost use Rattle.hart_worker.specs.Threads.{IsHartsOwn, AreAllOwn, AreWorked, DoAgree, rows_with};

use crate::worker::Worked;
use bn_base::{HartId, HartState};
use bn_outside::{Book, TurnRow};
use bus_core::Bus;
use run_laws::own_rows_are_turns;
use run_model::Start;
use rv_meaning::{Reply, Want};
use std::alloc::AllocError;

/// Whether a bus began with this.
pub fn begins_with<B: Book>(bus: &Bus<B>, from: &Start) -> bool
    ensures { Decides result (bus.now.began ≡ began_of from.now) }
{
    bus.start().is_same(from)
}

/// Whether the book of a bus that began with this has of each hart the rows that the hart gave; true if the
/// book doesn't tell its rows.
pub fn compares<B: Book>(bus: &Bus<B>, from: &Start, worked: &[Result<Worked, AllocError>]) -> bool
    requires began { bus.now.began ≡ began_of from.now }
    requires len { length worked.now ≡ from.now.settings.harts }
    requires each { AreWorked (began_of from.now) worked.now }
    ensures taken { result ≡ true → B.tells ≡ true → bus.now.halted ≡ false → HasTaken B.tells bus.now (harts_of bus.now.rows) }
    ensures all { DoAgree (began_of from.now) bus.now.rows worked.now → result ≡ true }
{
    own_rows_are_turns();
    let _settings = from.settings.raw();
    match bus.rows() {
        Some(rows) => agree_all(rows, from, worked),
        None => true,
    }
}

// Whether each hart's rows are those that it gave.
fn agree_all(rows: &[TurnRow], from: &Start, worked: &[Result<Worked, AllocError>]) -> bool
    requires len { length worked.now ≡ from.now.settings.harts }
    requires each { AreWorked (began_of from.now) worked.now }
    ensures own { result ≡ true → AreAllOwn (began_of from.now) rows.now }
    ensures all { DoAgree (began_of from.now) rows.now worked.now → result ≡ true }
{
    for hart in 0..from.settings.harts() {
        if !agrees_at(rows, hart, from, &worked[usize::from(hart)]) {
            return false;
        }
    }
    true
}

// Whether a hart's rows are those that it gave.
// In place, by a pass over the book for each hart: so it needs no memory.
fn agrees_at(rows: &[TurnRow], hart: HartId, from: &Start, one: &Result<Worked, AllocError>) -> bool
    requires { IfOk one.now (λ w. IsHartsOwn (began_of from.now) hart w.mine.items) }
    ensures own { result ≡ true → IsHartsOwn (began_of from.now) hart (rows_by hart rows.now) }
    ensures same { result ≡ true → MatchResult one.now (λ w. rows_by hart rows.now ≡ w.mine.items) (λ e. ⊥) }
    ensures all { MatchResult one.now (λ w. rows_by hart rows.now ≡ w.mine.items) (λ e. ⊥) → result ≡ true }
{
    match one {
        Ok(worked) => agrees(rows, hart, &worked.mine),
        Err(_) => false,
    }
}

// Whether the hart's rows are these.
#[tactic(auto, using(crate::proofs::OwnRuns::agrees_more, crate::proofs::OwnRuns::agrees_less))]
fn agrees(rows: &[TurnRow], hart: HartId, mine: &[TurnRow]) -> bool
    ensures same { result ≡ true → rows_by hart rows.now ≡ mine.now }
    ensures all { rows_by hart rows.now ≡ mine.now → result ≡ true }
{
    let mut rest = mine;
    for row in rows {
        let Some(left) = left_after(row, hart, rest) else {
            return false;
        };
        rest = left;
    }
    rest.is_empty()
}

// What is left of a hart's rows after one row of the book.
#[tactic(auto, using(crate::proofs::OwnRuns::left_found))]
fn left_after<'a>(row: &TurnRow, hart: HartId, rest: &'a [TurnRow]) -> Option<&'a [TurnRow]>
    ensures some { IfSome result (λ left. rest.entry.now ≡ rows_with hart row.entry.now left.now) }
    ensures none { IfNone result ((left : List TurnRow) → rest.entry.now ≡ rows_with hart row.entry.now left → ⊥) }
{
    if row.hart != hart {
        return Some(rest);
    }
    match rest.split_first() {
        None => None,
        Some((first, left)) => {
            if same_row(first, row) {
                Some(left)
            } else {
                None
            }
        }
    }
}

fn same_row(a: &TurnRow, b: &TurnRow) -> bool
    ensures same { result ≡ true → a.now ≡ b.now }
    ensures all { a.now ≡ b.now → result ≡ true }
{
    a.hart == b.hart
        && same_state(&a.ask.state, &b.ask.state)
        && same_want(&a.ask.want, &b.ask.want)
        && same_reply(&a.reply, &b.reply)
        && a.guarded == b.guarded
}

fn same_state(a: &HartState, b: &HartState) -> bool
    ensures same { result ≡ true → a.now ≡ b.now }
    ensures all { a.now ≡ b.now → result ≡ true }
{
    *a == *b
}

fn same_want(a: &Want, b: &Want) -> bool
    ensures same { result ≡ true → a.now ≡ b.now }
    ensures all { a.now ≡ b.now → result ≡ true }
{
    *a == *b
}

fn same_reply(a: &Reply, b: &Reply) -> bool
    ensures same { result ≡ true → a.now ≡ b.now }
    ensures all { a.now ≡ b.now → result ≡ true }
{
    *a == *b
}
