//! What an instruction accesses, as a race report reads it off a row.
ghost use Rattle.std.specs.Prelude.{◌≡◌, IfSome};
ghost use Rattle.bn_base.specs.declared.state.HartState.{HartState};
ghost use Rattle.race_report.specs.Points.{asked_by, touch_of, call_touch, loaded_touch, word_with, is_atomic, is_atomic_name, IsTouch};

use crate::calls::{Asked, filled_words, sent_words};
use bn_base::{Addr, Row};
use rv_decode::{Name, decode};

/// Aligned words one after another that an instruction reads or writes: the address of the first, and
/// how many. After the last word of the address space the first one follows.
#[derive(Clone, Copy, Drop)]
pub(crate) struct Touch {
    pub(crate) first: Addr,
    pub(crate) count: u32,
    pub(crate) writes: bool,
    /// It is a sync point: an LR, an AMO, or an SC that succeeded.
    pub(crate) syncs: bool,
}

// LR, SC and the AMOs.
fn is_atomic_name(name: Name) -> bool
    ensures { result ≡ is_atomic_name name }
{
    match name {
        Name::LrW => true,
        Name::ScW => true,
        Name::AmoswapW => true,
        Name::AmoaddW => true,
        Name::AmoxorW => true,
        Name::AmoandW => true,
        Name::AmoorW => true,
        Name::AmominW => true,
        Name::AmomaxW => true,
        Name::AmominuW => true,
        Name::AmomaxuW => true,
        _ => false,
    }
}

// Whether a row is of an LR, an SC or an AMO.
fn is_atomic(row: &Row) -> bool
    ensures { result ≡ is_atomic row.now }
{
    match row.word {
        None => false,
        Some(word) => match decode(word) {
            None => false,
            Some(instr) => is_atomic_name(instr.name),
        },
    }
}

// The word of a load or store.
fn word_with(access: Option<(Addr, u32)>, writes: bool, syncs: bool) -> Option<Touch>
    ensures value { result ≡ word_with access writes syncs }
    ensures whole { IfSome result IsTouch }
{
    match access {
        None => None,
        Some((addr, _)) => Some(Touch {
            first: addr / 4 * 4,
            count: 1,
            writes,
            syncs,
        }),
    }
}

// The words of a call.
fn call_words(asked: Asked, row: &Row) -> Option<Touch>
    ensures value { (before : HartState) → asked ≡ asked_by before → result ≡ call_touch before row.now }
    ensures whole { IfSome result IsTouch }
{
    match filled_words(asked, row) {
        Some(touch) => Some(touch),
        None => sent_words(asked, row),
    }
}

// The word of a load, or the words of a call.
fn loaded_words(asked: Asked, row: &Row) -> Option<Touch>
    ensures value { (before : HartState) → asked ≡ asked_by before → result ≡ loaded_touch before row.now }
    ensures whole { IfSome result IsTouch }
{
    match word_with(row.load, false, is_atomic(row)) {
        Some(touch) => Some(touch),
        None => call_words(asked, row),
    }
}

/// What an instruction accesses: the word that it stores, which an AMO loads too; else the word that
/// it loads; else the words that a call fills or takes. `None` if it accesses nothing, or faults.
pub(crate) fn touch_of(asked: Asked, row: &Row) -> Option<Touch>
    ensures value { (before : HartState) → asked ≡ asked_by before → result ≡ touch_of before row.now }
    ensures whole { IfSome result IsTouch }
{
    if row.fault.is_some() {
        return None;
    }
    match word_with(row.store, true, is_atomic(row)) {
        Some(touch) => Some(touch),
        None => loaded_words(asked, row),
    }
}
