//! Turns that are a load or a store, done in the hart's own place: its quiet instructions change its state there, and no
//! ask is copied. A turn that would need memory for its machine, or that a guard cuts, puts the state back and is then
//! taken as all other turns are.
ghost use Rattle.std.specs.Prelude.{is_some, ◌&&◌, nat_lt, ◌≡◌, ◌≤◌, ◌<◌, ◌+◌, ◌-◌, ◌^◌, ◌++◌, ◌==◌, ◌≢◌, ℕ, List, length, IsTrue, true, false, Option, Some, None, ◌*◌, if◌then◌else◌};
ghost use Rattle.run_model.specs.Common.{RawSettings, HartState, absorbed, is_reply_to, Event, Record, Point, RepresentsAccesses, harts_of, lasting_of, lasts, next_turn, next_count, aligned, Load, Store, is_aligned, Read, Write, may_load, Want};
ghost use Rattle.bn_base.specs.declared.settings.TheConstants.{HARTS};
ghost use Rattle.run_model.specs.declared.hart.Hart.{Hart};
ghost use Rattle.run_model.specs.declared.turn_end.TurnEnd.TheVariants.{GoesOn};
ghost use Rattle.run_model.specs.declared.span.Span.{Span};
ghost use Rattle.run_model.specs.Represents.Plain.{IsRun, IsSwept};
ghost use Rattle.run_model.specs.Represents.Turning.{parts};
ghost use Rattle.run_model.specs.Turn.{Run, span, ask_at, is_orderly, is_guarded, bytes_since, serve_call};
ghost use Rattle.run_model.specs.Turn.{next_of, next_records, hart_after, warmth, point_of, points_after, edge_records, load_record, events_after, skipped_after};
ghost use Rattle.run_model.specs.Represents.Harts.{AreHarts, hart_in};
ghost use Rattle.run_model.specs.Represents.Logs.{taken, IsLog, is_marked_next};
ghost use Rattle.run_model.specs.Represents.Tracing.{CachesGoOn, next_by, harts_by, with_ends};
ghost use Rattle.run_model.specs.Represents.EachCache.{AreCaches, steps_in};
ghost use Rattle.run_model.specs.Represents.InPlace.{ask_here, IsMoved};
ghost use Rattle.run_model.specs.Represents.Accessed.{CanAccess, IsAccessed, CanFinish, EndsTurn, IsOnlySwept, IsTurnedHere, AsksHere, Takes};
ghost use Rattle.run_model.specs.Represents.Parts.{IsSpanReady};
ghost use Rattle.run_model.specs.Represents.Plain.{everyone, IsRaceReady, count_after, clears};

use crate::hart::{Hart, skipped_after};
use crate::harts::end_others;
use crate::laws::each_turn_moves_on;
use crate::log::Log;
use crate::plain::Plain;
use crate::race::{record_access, sweep_at_end};
use crate::records::{append_load, append_next};
use crate::span::Span;
use crate::trace::Trace;
use crate::turn_end::TurnEnd;
use bn_base::{Addr, HartId, Ic, Register, Registers, Settings};
use first_load_bits::Warm;
use race_log::Mode;
use rv_meaning::{DecodedImage, Reply, Want};
use std::mem::swap;

// As `take_turn`, if the hart's own state is the one that it asks in, and no call is planned.
#[inline(always)]
fn take_turn_here(
    settings: &Settings,
    own: &mut Hart,
    log: &mut Log,
    hart: HartId,
    want: &Want,
    reply: Reply,
    load: Option<Warm>,
) -> TurnEnd
    requires fits { IsTrue (is_reply_to want.now reply) }
    requires number { own.old.number < 2 ^ 62 }
    requires skipped { own.old.skipped < 2 ^ 32 - 1 }
    requires marked { IsTrue (is_marked_next (next_of settings.now None own.old want.now reply (absorbed (ask_here own.old want.now) reply).ic)) }
    requires room { taken log.old.ring + 2 < 2 ^ 56 }
    ensures next { result ≡ next_of settings.now None own.old want.now reply (absorbed (ask_here own.old want.now) reply).ic }
    ensures own { own.new ≡ hart_after result (absorbed (ask_here own.old want.now) reply) (skipped_after load own.old.skipped) log.new.bytes own.old }
    ensures holds { (rs : List Record) → IsLog log.old rs → IsLog log.new (rs ++ next_records result hart own.old.number (absorbed (ask_here own.old want.now) reply)) }
    ensures took { taken log.new.ring ≤ taken log.old.ring + 2 }
    ensures size { log.new.ring.size ≡ log.old.ring.size }
{
    let skipped = skipped_after(load, own.skipped);
    own.absorb_here(want, reply);
    let next = TurnEnd::of(settings, None, own, want, reply, own.state.ic);
    append_next(log, next, hart, own.number, &own.state);
    own.take(next, skipped, log.bytes);
    next
}

impl Trace {
    // A hart does its quiet instructions, in its own place, up to what it asks.
    #[inline(always)]
    pub(crate) fn move_on(&mut self, settings: &Settings, code: &DecodedImage, hart: HartId) -> Want
        requires { hart < length self.old.harts.items }
        ensures want { result ≡ (ask_at settings.now code.now (hart_in self.old.harts.items hart)).want }
        ensures moved { IsMoved hart (ask_at settings.now code.now (hart_in self.old.harts.items hart)).state self.old self.new }
    {
        let own = &mut self.harts[hart as usize];
        let budget = own.budget(settings);
        code.quiet_run_in_place(&mut own.state, budget)
    }

    // Puts a hart back in an earlier state, whose parts are then those of the state that it was in.
    #[inline(never)]
    pub(crate) fn put_back(&mut self, hart: HartId, pc: &mut Addr, x: &mut Registers, ic: &mut Ic)
        requires { hart < length self.old.harts.items }
        ensures state { ◌≡◌ {A = HartState} (record { pc = pc.new; x = x.new; ic = ic.new }) (hart_in self.old.harts.items hart).state }
        ensures moved { IsMoved hart (record { pc = pc.old; x = x.old; ic = ic.old }) self.old self.new }
    {
        let own = &mut self.harts[hart as usize].state;
        swap(&mut own.pc, pc);
        swap(&mut own.x, x);
        swap(&mut own.ic, ic);
    }

    // As `finish`, if the hart's own state is the one that it asks in, and no call is planned.
    #[inline(always)]
    pub(crate) fn finish_here(
        &mut self,
        settings: &Settings,
        hart: HartId,
        want: &Want,
        reply: Reply,
        load: Option<Warm>,
    )
        requires { CanFinish settings.now None self.old hart (ask_here (hart_in self.old.harts.items hart) want.now) reply }
        ensures harts { (f : ℕ → Hart) → AreHarts self.old.harts.items f →
            AreHarts self.new.harts.items (harts_by settings.now None self.old.harts.items hart (ask_here (hart_in self.old.harts.items hart) want.now) reply load self.new.log.bytes f) }
        ensures holds { (f : ℕ → Hart) (rs : List Record) → AreHarts self.old.harts.items f → IsLog self.old.log rs →
            IsLog self.new.log (with_ends settings.now None self.old.harts.items hart (ask_here (hart_in self.old.harts.items hart) want.now) reply f rs) }
        ensures caches { (c : RawSettings) (span : Option Span) (events : ℕ → List Event) →
            CachesGoOn c (next_by settings.now None self.old.harts.items hart (ask_here (hart_in self.old.harts.items hart) want.now) reply) hart None span events self.old.caches self.new.caches }
        ensures finished { EndsTurn self.old self.new hart (next_by settings.now None self.old.harts.items hart (ask_here (hart_in self.old.harts.items hart) want.now) reply) }
    {
        let own = &mut self.harts[hart as usize];
        let next = take_turn_here(settings, own, &mut self.log, hart, want, reply, load);
        self.begin(hart, next);
        end_others(&mut self.harts, &mut self.log, hart, next);
        sweep_at_end(&mut self.shadow, &self.harts, next);
    }

    // Takes in the word that a hart's instruction of this count loads: its Edges and its FirstLoad are
    // appended, and the cache touched. The answer is how the word was just before.
    #[inline(always)]
    pub(crate) fn access_load(
        &mut self,
        turn: u64,
        hart: HartId,
        ic: Ic,
        span: Span,
        word: u32,
    ) -> Warm
        requires { CanAccess self.old turn hart ic span }
        ensures load { (c : RawSettings) (events : ℕ → List Event) → AreCaches c self.old.caches events → Some result ≡ warmth c (Some span.first) (events hart) }
        ensures accessed { IsAccessed self.old self.new turn hart ic span (Some result) word }
    {
        record_access(&mut self.shadow, &mut self.log, hart, ic, turn, Some(span));
        let warm = self.caches.take_access(hart, span);
        let skipped = self.harts[hart as usize].skipped;
        append_load(&mut self.log, Some(warm), hart, skipped, word);
        warm
    }

    // Takes in the word that a hart's instruction of this count stores, or stores a part of, which loads it: its
    // Edges and its FirstLoad are appended, and the caches touched and dropped. The answer is how a loaded word
    // was just before.
    #[inline(always)]
    pub(crate) fn access_store(
        &mut self,
        turn: u64,
        hart: HartId,
        ic: Ic,
        span: Span,
        whole: bool,
        word: u32,
    ) -> Option<Warm>
        requires { CanAccess self.old turn hart ic span }
        ensures load { (c : RawSettings) (events : ℕ → List Event) → AreCaches c self.old.caches events → result ≡ (elim whole [ true ↦ None | false ↦ warmth c (Some span.first) (events hart) ]) }
        ensures loading { is_some result ≡ true → whole ≡ false }
        ensures accessed { IsAccessed self.old self.new turn hart ic span result word }
    {
        record_access(&mut self.shadow, &mut self.log, hart, ic, turn, Some(span));
        let warm = self.caches.take_access(hart, span);
        let skipped = self.harts[hart as usize].skipped;
        let load = if whole { None } else { Some(warm) };
        append_load(&mut self.log, load, hart, skipped, word);
        load
    }
}

impl Plain {
    /// Whether a hart's ask that isn't a cut is guarded.
    #[inline(always)]
    pub(crate) fn guards(&self, hart: HartId) -> bool
        requires { hart < self.now.start.settings.harts }
        ensures run { (run : Run) → IsRun (parts self.now) run → result ≡ (self.now.start.settings.format == 2) && nat_lt self.now.start.settings.log_size (2 * bytes_since run hart) }
    {
        self.start.settings.format() == 2
            && u64::from(self.start.settings.log_size()) < 2 * self.since_header(hart)
    }

    // Whether the race log is ready for a hart's load from an address, and the load isn't guarded. It finds the
    // memory that the race log needs; all else stays as it is.
    #[inline(always)]
    fn ready_load(&mut self, hart: HartId, addr: Addr) -> bool
        requires hart { hart < self.old.start.settings.harts }
        requires loads { IsTrue (may_load self.old.start.image addr) }
        ensures ready { result ≡ true → IsRaceReady self.new.trace.shadow (Some (span (aligned addr) 1 Read)) }
        ensures unguarded { result ≡ true → (run : Run) → IsRun (parts self.old) run → (self.old.start.settings.format == 2) && nat_lt self.old.start.settings.log_size (2 * bytes_since run hart) ≡ false }
        ensures swept { IsOnlySwept (parts self.old) (parts self.new) }
    {
        let _memory = self.start.image.memory();
        if self.guards(hart) {
            return false;
        }
        let words = Span {
            first: addr / 4 * 4,
            count: 1,
            mode: Mode::Read,
        };
        match self.trace.reserve(Some(words)) {
            Ok(()) => true,
            Err(_) => false,
        }
    }

    // Answers the load that a live hart asks for in its present state, once the race log is ready for it,
    // and takes its turn. The ask isn't guarded. It takes no memory.
    #[inline(always)]
    fn apply_load(&mut self, hart: HartId, addr: Addr, width: u8, signed: bool, rd: Register)
        requires hart { hart < self.old.start.settings.harts }
        requires live { (hart_in self.old.trace.harts.items hart).live ≡ true }
        requires orderly { IsTrue (is_orderly self.old.start.settings self.old.start.image (hart_in self.old.trace.harts.items hart) (ask_here (hart_in self.old.trace.harts.items hart) (Load addr width signed rd))) }
        requires race { IsRaceReady self.old.trace.shadow (Some (span (aligned addr) 1 Read)) }
        ensures run { IsTurnedHere (parts self.old) (parts self.new) hart (Load addr width signed rd) }
        ensures start { self.new.start ≡ self.old.start }
    {
        each_turn_moves_on();
        let want = Want::Load {
            addr,
            width,
            signed,
            rd,
        };
        let word = self.machine.word_before(&self.start.image, &want);
        let reply = Reply::Word(word);
        let ic = self.trace.harts[hart as usize].state.ic;
        let words = Span {
            first: addr / 4 * 4,
            count: 1,
            mode: Mode::Read,
        };
        let warm = self.trace.access_load(self.turns, hart, ic, words, word);
        self.trace
            .finish_here(&self.start.settings, hart, &want, reply, Some(warm));
        self.turns += 1;
    }

    // Takes the turn of a live hart that asks for this load in its present state, if all is ready and no guard cuts it. It
    // tells whether it did.
    #[inline(always)]
    fn load_here(&mut self, hart: HartId, addr: Addr, width: u8, signed: bool, rd: Register) -> bool
        requires { AsksHere (parts self.old) hart (Load addr width signed rd) }
        ensures { Takes result (parts self.old) (parts self.new) hart (Load addr width signed rd) }
    {
        if !self.ready_load(hart, addr) {
            return false;
        }
        self.apply_load(hart, addr, width, signed, rd);
        true
    }

    /// Takes the turn of a live hart that asks for this load in its present state, if it can be done in the hart's own
    /// place. It tells whether it did.
    #[inline(always)]
    pub(crate) fn take_load(
        &mut self,
        hart: HartId,
        addr: Addr,
        width: u8,
        signed: bool,
        rd: Register,
    ) -> bool
        requires { AsksHere (parts self.old) hart (Load addr width signed rd) }
        ensures { Takes result (parts self.old) (parts self.new) hart (Load addr width signed rd) }
    {
        // Whole words apart: so they need no shifts.
        if width == 4 {
            self.load_here(hart, addr, 4, signed, rd)
        } else {
            self.load_here(hart, addr, width, signed, rd)
        }
    }

    // Whether a hart's store to an address needs no memory, and isn't guarded. It finds the memory that the race
    // log needs; all else stays as it is.
    #[inline(always)]
    fn ready_store(&mut self, hart: HartId, addr: Addr) -> bool
        requires hart { hart < self.old.start.settings.harts }
        requires stores { IsTrue (may_load self.old.start.image addr) }
        ensures ready { result ≡ true → IsRaceReady self.new.trace.shadow (Some (span (aligned addr) 1 Write)) }
        ensures page { result ≡ true → IsSpanReady self.new.machine.memory (span (aligned addr) 1 Write) }
        ensures unguarded { result ≡ true → (run : Run) → IsRun (parts self.old) run → (self.old.start.settings.format == 2) && nat_lt self.old.start.settings.log_size (2 * bytes_since run hart) ≡ false }
        ensures swept { IsOnlySwept (parts self.old) (parts self.new) }
    {
        let _memory = self.start.image.memory();
        if self.guards(hart) || !self.machine.is_made(addr) {
            return false;
        }
        let words = Span {
            first: addr / 4 * 4,
            count: 1,
            mode: Mode::Write,
        };
        match self.trace.reserve(Some(words)) {
            Ok(()) => true,
            Err(_) => false,
        }
    }

    // Answers the store that a live hart asks for in its present state, once all is ready for it, and takes its
    // turn. The ask isn't guarded. It takes no memory.
    #[inline(always)]
    fn apply_store(&mut self, hart: HartId, addr: Addr, width: u8, value: u32)
        requires hart { hart < self.old.start.settings.harts }
        requires live { (hart_in self.old.trace.harts.items hart).live ≡ true }
        requires orderly { IsTrue (is_orderly self.old.start.settings self.old.start.image (hart_in self.old.trace.harts.items hart) (ask_here (hart_in self.old.trace.harts.items hart) (Store addr width value))) }
        requires width { IsTrue (is_aligned addr width) }
        requires race { IsRaceReady self.old.trace.shadow (Some (span (aligned addr) 1 Write)) }
        requires page { IsSpanReady self.old.machine.memory (span (aligned addr) 1 Write) }
        ensures run { IsTurnedHere (parts self.old) (parts self.new) hart (Store addr width value) }
        ensures start { self.new.start ≡ self.old.start }
    {
        each_turn_moves_on();
        let want = Want::Store { addr, width, value };
        let word = self.machine.word_before(&self.start.image, &want);
        let reply = self.machine.store(hart, addr, width, value);
        let ic = self.trace.harts[hart as usize].state.ic;
        let words = Span {
            first: addr / 4 * 4,
            count: 1,
            mode: Mode::Write,
        };
        let load = self
            .trace
            .access_store(self.turns, hart, ic, words, width == 4, word);
        self.trace
            .finish_here(&self.start.settings, hart, &want, reply, load);
        self.turns += 1;
    }

    // Takes the turn of a live hart that asks for this store in its present state, if all is ready and no guard cuts it. It
    // tells whether it did.
    #[inline(always)]
    fn store_here(&mut self, hart: HartId, addr: Addr, width: u8, value: u32) -> bool
        requires { AsksHere (parts self.old) hart (Store addr width value) }
        ensures { Takes result (parts self.old) (parts self.new) hart (Store addr width value) }
    {
        if !self.ready_store(hart, addr) {
            return false;
        }
        self.apply_store(hart, addr, width, value);
        true
    }

    /// Takes the turn of a live hart that asks for this store in its present state, if it can be done in the hart's own
    /// place. It tells whether it did.
    #[inline(always)]
    pub(crate) fn take_store(&mut self, hart: HartId, addr: Addr, width: u8, value: u32) -> bool
        requires { AsksHere (parts self.old) hart (Store addr width value) }
        ensures { Takes result (parts self.old) (parts self.new) hart (Store addr width value) }
    {
        // Whole words apart: so they need no shifts.
        if width == 4 {
            self.store_here(hart, addr, 4, value)
        } else {
            self.store_here(hart, addr, width, value)
        }
    }
}
