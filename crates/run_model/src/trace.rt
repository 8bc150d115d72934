//! What is traced of a run: its harts, their caches, the race log and the log. All records are appended here.
//! `specs/Represents` says which runs a trace represents.
ghost use Rattle.std.specs.Prelude.{◌≡◌, ◌≤◌, ◌<◌, ◌+◌, ◌-◌, ◌*◌, ◌^◌, ◌++◌, ◌==◌, ◌≢◌, ℕ, List, length, IsTrue, true, false, is_some, Option, OnOk, if◌then◌else◌};
ghost use Rattle.run_model.specs.Common.{Program, RawSettings, absorbed, is_reply_to, Event, Record, Point, RepresentsAccesses, KnowsSame, lasting_of, lasts, next_turn, next_count};
ghost use Rattle.run_model.specs.declared.hart.Hart.{Hart};
ghost use Rattle.run_model.specs.declared.turn_end.TurnEnd.TheVariants.{GoesOn};
ghost use Rattle.run_model.specs.declared.span.Span.{Span};
ghost use Rattle.run_model.specs.Machine.{Machine, call_of};
ghost use Rattle.run_model.specs.Turn.{Run, begun_anew, guarded_run, span_of, next_of, next_records, hart_after, loading, warmth, point_of, points_after, events_after, skipped_after};
ghost use Rattle.run_model.specs.Represents.Harts.{AreHarts, hart_in};
ghost use Rattle.run_model.specs.Represents.Logs.{taken, IsLog, is_marked_next};
ghost use Rattle.run_model.specs.Represents.Tracing.{IsAnew, CachesGoOn, next_by, harts_by, with_ends, with_access};
ghost use Rattle.run_model.specs.Represents.Accessed.{CanNote, IsNoted, CanFinish, EndsTurn};
ghost use Rattle.run_model.specs.Represents.EachCache.{AreCaches, steps_in, where_loading, touched_word, touches};
ghost use Rattle.run_model.specs.Counts.{is_loading};
ghost use Rattle.run_model.specs.Represents.Parts.{AreAddresses};
ghost use Rattle.run_model.specs.Represents.Plain.{IsTrace, everyone, IsRaceReady, count_after, clears};

use crate::caches::Caches;
use crate::hart::{Hart, skipped_after};
use crate::harts::end_others;
use crate::log::Log;
use crate::race::{record_access, sweep_at_end};
use crate::records::{append_conditional, append_load, append_next};
use crate::span::{Span, loading};
use crate::turn_end::TurnEnd;
use bn_base::{HartId, HartState, Settings};
use first_load_bits::Warm;
use race_log::Shadow;
use rv_meaning::{Ask, Reply, Want};
use std::alloc::AllocError;
use system_calls::Plan;

/// What is traced of a run: its harts, their caches, the race log and the log.
#[derive(Drop)]
pub struct Trace {
    pub harts: Vec<Hart>,
    pub caches: Caches,
    pub shadow: Shadow,
    pub log: Log,
}

// Whether the word of a loading access was warm, from what the cache answered for the access.
fn where_loading(want: &Want, touched: Option<Warm>) -> Option<Warm>
    ensures { result ≡ where_loading (loading want.now) touched }
{
    match loading(want) {
        None => None,
        Some(_) => touched,
    }
}

// The reply to a hart's ask gives its next state, and it takes in what comes next, which is answered; the End and
// the next Header are appended. It is changed in its place. `load` is how the word of a loading access was.
fn take_turn(
    settings: &Settings,
    own: &mut Hart,
    log: &mut Log,
    hart: HartId,
    call: Option<Plan>,
    ask: &Ask,
    reply: Reply,
    load: Option<Warm>,
) -> TurnEnd
    requires fits { IsTrue (is_reply_to ask.now.want reply) }
    requires number { own.old.number < 2 ^ 62 }
    requires skipped { own.old.skipped < 2 ^ 32 - 1 }
    requires marked { IsTrue (is_marked_next (next_of settings.now call own.old ask.now.want reply (absorbed ask.now reply).ic)) }
    requires room { taken log.old.ring + 2 < 2 ^ 56 }
    ensures next { result ≡ next_of settings.now call own.old ask.now.want reply (absorbed ask.now reply).ic }
    ensures own { own.new ≡ hart_after result (absorbed ask.now reply) (skipped_after load own.old.skipped) log.new.bytes own.old }
    ensures holds { (rs : List Record) → IsLog log.old rs → IsLog log.new (rs ++ next_records result hart own.old.number (absorbed ask.now reply)) }
    ensures took { taken log.new.ring ≤ taken log.old.ring + 2 }
    ensures size { log.new.ring.size ≡ log.old.ring.size }
{
    let skipped = skipped_after(load, own.skipped);
    own.absorb(ask, reply);
    let next = TurnEnd::of(settings, call, own, &ask.want, reply, own.state.ic);
    append_next(log, next, hart, own.number, &own.state);
    own.take(next, skipped, log.bytes);
    next
}

impl Trace {
    /// Finds the memory that the race log needs to take in an access of these words. All stays as it is,
    /// also on `Err`, and the only error is out of memory.
    #[inline(always)]
    pub fn reserve(&mut self, span: Option<Span>) -> Result<(), AllocError>
        requires { AreAddresses span }
        ensures ready { OnOk result (IsRaceReady self.new.shadow span) }
        ensures shadow { (points : List Point) → RepresentsAccesses points everyone self.old.shadow → RepresentsAccesses points everyone self.new.shadow }
        ensures same { KnowsSame self.old.shadow self.new.shadow }
        ensures harts { self.new.harts ≡ self.old.harts }
        ensures caches { self.new.caches ≡ self.old.caches }
        ensures log { self.new.log ≡ self.old.log }
    {
        match span {
            None => Ok(()),
            Some(span) => self.shadow.reserve(span.first, span.count),
        }
    }

    // The guard ends a hart's interval, and the hart begins its next one in a state: the End and the next
    // Header are appended, and the bits of its cache are cleared.
    fn begin_anew(&mut self, hart: HartId, state: &HartState)
        requires hart { hart < length self.old.harts.items }
        requires caches { hart < length self.old.caches }
        requires steps { steps_in self.old.caches hart < 2 ^ 42 }
        requires number { (hart_in self.old.harts.items hart).number < 2 ^ 62 }
        requires room { taken self.old.log.ring + 2 < 2 ^ 56 }
        ensures run { (c : RawSettings) (run : Run) → IsTrace c self.old run → IsTrace c self.new (begun_anew run hart state.now) }
        ensures anew { IsAnew hart state.now self.old self.new }
    {
        let before = &self.harts[hart as usize];
        let mut own = *before;
        append_next(&mut self.log, TurnEnd::by_guard(), hart, own.number, state);
        self.caches.clear(hart);
        own.begin_anew(state, self.log.bytes);
        self.harts[hart as usize] = own;
    }

    #[tactic(auto, using(crate::proofs::Begun::trace_unguarded))]
    /// If the ask that a hart makes in this state is guarded, the hart first begins its next interval
    /// there; else nothing changes.
    pub fn guard(&mut self, guarded: bool, hart: HartId, state: &HartState)
        requires hart { hart < length self.old.harts.items }
        requires caches { hart < length self.old.caches }
        requires steps { steps_in self.old.caches hart < 2 ^ 42 }
        requires number { (hart_in self.old.harts.items hart).number < 2 ^ 62 }
        requires room { taken self.old.log.ring + 2 < 2 ^ 56 }
        ensures run { (c : RawSettings) (run : Run) → IsTrace c self.old run → IsTrace c self.new (guarded_run guarded run hart state.now) }
        ensures anew { guarded ≡ true → IsAnew hart state.now self.old self.new }
        ensures same { guarded ≡ false → self.new ≡ self.old }
        ensures shadow { self.new.shadow ≡ self.old.shadow }
    {
        if guarded {
            self.begin_anew(hart, state);
        }
    }

    /// Takes in the words that a hart's asking instruction accesses: its Edges, its FirstLoad or how
    /// its SC went are appended, and the caches touched and dropped. The answer is how the word of a
    /// loading access was just before; `word` is that word.
    pub fn access(
        &mut self,
        turn: u64,
        hart: HartId,
        call: Option<Plan>,
        ask: &Ask,
        reply: Reply,
        word: u32,
    ) -> Option<Warm>
        requires hart { hart < length self.old.harts.items }
        requires caches { hart < length self.old.caches }
        requires steps { steps_in self.old.caches hart < 2 ^ 42 }
        requires addresses { AreAddresses (span_of call ask.now.want reply) }
        requires note { CanNote self.old.shadow turn hart ask.now.state.ic (span_of call ask.now.want reply) }
        requires room { taken self.old.log.ring + 18 < 2 ^ 56 }
        ensures load { (c : RawSettings) (i : Program) (m : Machine) (events : ℕ → List Event) → call ≡ call_of i m ask.now.want → AreCaches c self.old.caches events →
            result ≡ warmth c (loading ask.now.want) (events hart) }
        ensures loading { is_some result ≡ true → is_loading (loading ask.now.want) ≡ true }
        ensures caches { (c : RawSettings) (events : ℕ → List Event) → AreCaches c self.old.caches events →
            AreCaches c self.new.caches (events_after GoesOn hart call (span_of call ask.now.want reply) events) }
        ensures noted { IsNoted self.old.shadow self.new.shadow turn hart ask.now.state.ic (span_of call ask.now.want reply) }
        ensures holds { (points : List Point) (rs : List Record) → RepresentsAccesses points everyone self.old.shadow → IsLog self.old.log rs →
            IsLog self.new.log (with_access self.old.harts.items turn hart call ask.now reply result word points rs) }
        ensures harts { self.new.harts ≡ self.old.harts }
        ensures count { length self.new.caches ≡ length self.old.caches }
        ensures steps { (k : ℕ) → steps_in self.new.caches k ≡ (if k == hart then steps_in self.old.caches k + touches (touched_word call (span_of call ask.now.want reply)) else steps_in self.old.caches k) }
        ensures took { taken self.new.log.ring ≤ taken self.old.log.ring + 18 }
        ensures size { self.new.log.ring.size ≡ self.old.log.ring.size }
    {
        let span = Span::of(call, &ask.want, reply);
        record_access(
            &mut self.shadow,
            &mut self.log,
            hart,
            ask.state.ic,
            turn,
            span,
        );
        let touched = self.caches.take(hart, call, span);
        let load = where_loading(&ask.want, touched);
        let skipped = self.harts[hart as usize].skipped;
        append_load(&mut self.log, load, hart, skipped, word);
        append_conditional(&mut self.log, reply, hart);
        load
    }

    // Clears the bits of a hart's cache, if it begins an interval.
    #[inline(always)]
    pub(crate) fn begin(&mut self, hart: HartId, next: TurnEnd)
        requires caches { hart < length self.old.caches }
        requires steps { steps_in self.old.caches hart < 2 ^ 42 }
        ensures caches { (c : RawSettings) (call : Option Plan) (span : Option Span) (events : ℕ → List Event) →
            CachesGoOn c next hart call span events self.old.caches self.new.caches }
        ensures count { length self.new.caches ≡ length self.old.caches }
        ensures steps { (k : ℕ) → steps_in self.new.caches k ≡ (if k == hart then steps_in self.old.caches k + clears next else steps_in self.old.caches k) }
        ensures harts { self.new.harts ≡ self.old.harts }
        ensures shadow { self.new.shadow ≡ self.old.shadow }
        ensures log { self.new.log ≡ self.old.log }
    {
        match next {
            TurnEnd::NewInterval { .. } => self.caches.clear(hart),
            TurnEnd::GoesOn => {}
            TurnEnd::HartOver { .. } => {}
            TurnEnd::RunOver { .. } => {}
        }
    }

    /// The reply to a hart's ask gives its next state, and what comes next for it and for the others;
    /// the Ends and the next Header are appended. At an interval's end the race log gives up the accesses that all live
    /// harts know of, if the walk is due. `load` is how the word of a loading access was.
    pub fn finish(
        &mut self,
        settings: &Settings,
        hart: HartId,
        call: Option<Plan>,
        ask: &Ask,
        reply: Reply,
        load: Option<Warm>,
    )
        requires { CanFinish settings.now call self.old hart ask.now reply }
        ensures harts { (f : ℕ → Hart) → AreHarts self.old.harts.items f →
            AreHarts self.new.harts.items (harts_by settings.now call self.old.harts.items hart ask.now reply load self.new.log.bytes f) }
        ensures holds { (f : ℕ → Hart) (rs : List Record) → AreHarts self.old.harts.items f → IsLog self.old.log rs →
            IsLog self.new.log (with_ends settings.now call self.old.harts.items hart ask.now reply f rs) }
        ensures caches { (c : RawSettings) (span : Option Span) (events : ℕ → List Event) →
            CachesGoOn c (next_by settings.now call self.old.harts.items hart ask.now reply) hart call span events self.old.caches self.new.caches }
        ensures finished { EndsTurn self.old self.new hart (next_by settings.now call self.old.harts.items hart ask.now reply) }
    {
        let own = &mut self.harts[hart as usize];
        let next = take_turn(settings, own, &mut self.log, hart, call, ask, reply, load);
        self.begin(hart, next);
        end_others(&mut self.harts, &mut self.log, hart, next);
        sweep_at_end(&mut self.shadow, &self.harts, next);
    }
}
