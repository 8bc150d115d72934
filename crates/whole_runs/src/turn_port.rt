//! The port at which a hart that runs by itself takes its turns, and the loop that drives it there.
ghost use Rattle.std.specs.Prelude.{◌≡◌, true, false, [], length, slice_get, is_none, IfOk, IfSome, OnOk, IsTrue};
ghost use Rattle.whole_runs.specs.Common.{is_reply_to, IsOwn, Place, ask_from, place_over};
ghost use Rattle.whole_runs.specs.HartTurns.{place_at, taken_after, IsDriven, IsLed, reply_with, answer_with};

use crate::hart_place::HartPlace;
use bn_base::{HartId, Settings};
use bn_outside::{Gate, TurnRow};
use run_laws::own_rows_grow;
use rv_meaning::{Ask, DecodedImage, Reply, Want};
use std::alloc::{AllocError, Global};
use std::sync::Wait;

/// The port at which one hart takes its turns.
// A worker is generic over it, so that its contract names the turns that were taken: of a bus nothing can be said
// once its lock is given back.
pub trait TurnPort {
    ghost use Rattle.std.specs.Prelude.{ℕ, Bool, List};
    ghost use Rattle.whole_runs.specs.Common.{Ask, Reply, TurnRow, Place};

    /// Which asks ports of this type take from a hart at a place.
    ghost takes: { Place → Ask → Type 0 };

    /// What may be answered to a hart's ask: a reply, and whether the ask was guarded.
    ghost answers: { ℕ → Ask → Reply × Bool → Type 0 };

    /// Whether ports of this type tell the turns that were taken.
    ghost tells: { Bool };

    /// The turns that were taken, the oldest first, if it tells them.
    ghost taken: { Self → List TurnRow };

    /// Whether its last turn found the hart over.
    ghost over: { Self → Bool };

    /// A turn of a hart that asks this at a place: the reply, and whether the ask was guarded. None if the
    /// hart is over. The only error is out of memory.
    fn turn(
        &mut self,
        hart: HartId,
        place: &HartPlace,
        ask: &Ask,
    ) -> Result<Option<(Reply, bool)>, AllocError>
        requires { takes (place_at place.now) ask.now }
        ensures fits { IfOk result (λ o. IfSome o (λ r. IsTrue (is_reply_to ask.now.want r.0))) }
        ensures answered { IfOk result (λ o. IfSome o (λ r. answers hart ask.now r)) }
        ensures taken { IfOk result (λ o. taken self.new ≡ taken_after tells (taken self.old) hart ask.now o) }
        ensures over { IfOk result (λ o. over self.new ≡ is_none o) };
}

/// Runs one hart from a place until it is over, and gives its place then. Each turn is one call of the
/// port, between the gate's `pass` and `served`. What is asked is what the hart asks next. What is answered
/// is what the port answers, even if the port tells nothing.
pub fn drive<D: TurnPort, G: Gate, R: Wait>(
    rt: &R,
    port: &mut D,
    hart: HartId,
    code: &DecodedImage,
    settings: &Settings,
    first: HartPlace,
    gate: &G,
) -> Result<HartPlace, AllocError>
    requires first { D.taken port.old ≡ [] }
    requires asks { (p : Place) → D.takes p (ask_from settings.now code.now p) }
    ensures driven { IfOk result (λ place. IsDriven D.tells settings.now code.now hart (place_at first) (D.taken port.new) (place_at place)) }
    ensures led { IfOk result (λ place. IsLed D.answers settings.now code.now hart (place_at first) (place_at place)) }
    ensures over { OnOk result (D.over port.new ≡ true) }
{
    own_rows_grow();
    let mut place = first;
    for _ in rt.forever() {
        let ask = place.ask(code, settings);
        gate.pass(hart);
        // After an Over the hart asks once more, and the port finds it not live: so it stops by one rule, whoever
        // ended the run.
        let Some((reply, guarded)) = port.turn(hart, &place, &ask)? else {
            break;
        };
        gate.served(hart);
        place = place.after(settings, &ask, guarded, reply);
    }
    Ok(place)
}

/// A port in memory, for one hart: each turn takes the next word of a list, and the hart is over when the
/// list ends. It keeps the turns.
#[derive(Drop)]
pub struct MemoryPort {
    words: Vec<u32>,
    turns: Vec<TurnRow>,
    over: bool,
}

impl MemoryPort {
    /// A port that gives these words, before its first turn.
    pub fn new(alloc: Global, words: Vec<u32>) -> MemoryPort
        ensures turns { result.turns.items ≡ [] }
        ensures words { result.words ≡ words }
    {
        MemoryPort {
            words,
            turns: Vec::new(alloc),
            over: false,
        }
    }

    /// The turns that were taken, the oldest first.
    pub fn turns(&self) -> &[TurnRow]
        ensures { result.now ≡ self.now.turns.items }
    {
        &self.turns
    }
}

// A reply to a want that gives it a word; a store-conditional stores.
fn reply_with(want: &Want, word: u32) -> Reply
    ensures value { result ≡ reply_with want.now word }
    ensures fits { IsTrue (is_reply_to want.now result) }
{
    match want {
        Want::Load { .. } | Want::LoadReserved { .. } | Want::Amo { .. } => Reply::Word(word),
        Want::Store { .. } => Reply::Stored,
        Want::StoreConditional { .. } => Reply::ScOk,
        Want::System { .. } => Reply::Answer(word),
        Want::Cut => Reply::Went,
        Want::Faulted { .. } => Reply::Over,
    }
}

impl TurnPort for MemoryPort {
    ghost use Rattle.std.specs.Prelude.{true};

    ghost takes = { λ place ask. Unit {0} };

    ghost answers = { λ hart ask answered. Unit {0} };

    ghost tells = { true };

    ghost taken = { λ d. d.turns.items };

    ghost over = { λ d. d.over };

    fn turn(
        &mut self,
        hart: HartId,
        _place: &HartPlace,
        ask: &Ask,
    ) -> Result<Option<(Reply, bool)>, AllocError>
        ensures fits { IfOk result (λ o. IfSome o (λ r. IsTrue (is_reply_to ask.now.want r.0))) }
        ensures taken { IfOk result (λ o. self.new.turns.items ≡ taken_after true self.old.turns.items hart ask.now o) }
        ensures over { IfOk result (λ o. self.new.over ≡ is_none o) }
        ensures words { self.new.words ≡ self.old.words }
        ensures next { IfOk result (λ o. o ≡ answer_with ask.now.want (slice_get self.old.words.items (length self.old.turns.items))) }
    {
        let next = self.words.get(self.turns.len()).copied();
        self.over = next.is_none();
        let Some(word) = next else {
            return Ok(None);
        };
        let reply = reply_with(&ask.want, word);
        self.turns.extend_from_slice(&[TurnRow {
            hart,
            ask: *ask,
            reply,
            guarded: false,
        }])?;
        Ok(Some((reply, false)))
    }
}
