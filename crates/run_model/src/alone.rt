//! Turns of a hart that is alone, one after another. Its loads and stores are done in its own place, as its quiet
//! instructions are, as long as its interval continues and no memory is needed.
//!
//! The hart's way through its code, and so its pc, its count and its budget, stays in variables from turn to turn.
ghost use Rattle.std.specs.Prelude.{◌≡◌, ◌≤◌, ◌<◌, ◌+◌, ℕ, List, [], length, IsTrue, true, false, is_some, Option, Some, None, IfSome, OnOk, OnErr, ◌&&◌, ◌==◌, nat_lt, ◌*◌, ◌^◌};
ghost use Rattle.run_model.specs.Common.{code_at, RawSettings, AsksThere, ask_of, count_up, is_aligned, instruction_in, aligned, Want, Load, Store, Event, Record, Point, Write, RepresentsAccesses};
ghost use Rattle.rv_meaning.specs.Ops.{Says};
ghost use Rattle.rv_meaning.specs.declared.asks.Reply.TheVariants as replies;
ghost use Rattle.run_model.specs.declared.hart.Hart.{Hart};
ghost use Rattle.run_model.specs.declared.span.Span.{Span};
ghost use Rattle.run_model.specs.declared.turn_end.TurnEnd.TheVariants.{GoesOn};
ghost use Rattle.run_model.specs.Turn.{Run, span, bytes_since, warmth, point_of, edge_records, counted, turn};
ghost use Rattle.run_model.specs.Represents.Accessed.{CanFinish, IsAccessed, EndsTurn, IsNoted, IsTurnedHere, AsksHere};
ghost use Rattle.run_model.specs.Represents.Alone.{CanNoteAlone, CanAccessAlone, IsOneOn, IsOnWay, CanTakeAlone, IsUnguarded, TakesAlone, TurnsAlone, HaveTurned, HaveStopped};
ghost use Rattle.run_model.specs.Represents.EachCache.{AreCaches};
ghost use Rattle.run_model.specs.Represents.Harts.{AreHarts, hart_in};
ghost use Rattle.run_model.specs.Represents.InPlace.{ask_here, IsMoved};
ghost use Rattle.run_model.specs.Represents.Logs.{IsLog};
ghost use Rattle.run_model.specs.Represents.Parts.{IsSpanReady};
ghost use Rattle.run_model.specs.Represents.Plain.{IsRun, everyone};
ghost use Rattle.run_model.specs.Represents.Tracing.{CachesGoOn, next_by, harts_by, with_ends};
ghost use Rattle.run_model.specs.Represents.Turning.{parts, is_live};

use crate::hart::{HEADER_SIZE, skipped_after};
use crate::laws::each_turn_moves_on;
use crate::plain::Plain;
use crate::records::append_load;
use crate::span::Span;
use crate::trace::Trace;
use bn_base::{Addr, Ic, Register, Settings};
use first_load_bits::Warm;
use race_log::{Mode, Shadow};
use rv_meaning::{DecodedImage, Op, Reply, Walk, Want, each_ask_is_orderly};
use std::alloc::AllocError;

// The race log takes in an access of the one hart, of whatever words: no Edge leads into it.
#[inline(always)]
fn note_alone(shadow: &mut Shadow, ic: Ic, turn: u64)
    requires { CanNoteAlone shadow.old turn ic }
    ensures noted { (words : Span) → IsNoted shadow.old shadow.new turn 0 ic (Some words) }
    ensures none { (words : Span) (points : List Point) → RepresentsAccesses points everyone shadow.old → edge_records (point_of 0 ic turn (Some words)) points ≡ [] }
{
    shadow.access_alone(ic, turn);
}

impl Trace {
    // As `access_load`, of the one hart.
    #[inline(always)]
    fn load_word_alone(&mut self, turn: u64, ic: Ic, span: Span, word: u32) -> Warm
        requires { CanAccessAlone self.old turn ic span }
        ensures load { (c : RawSettings) (events : ℕ → List Event) → AreCaches c self.old.caches events → Some result ≡ warmth c (Some span.first) (events 0) }
        ensures accessed { IsAccessed self.old self.new turn 0 ic span (Some result) word }
    {
        note_alone(&mut self.shadow, ic, turn);
        let warm = self.caches.take_access(0, span);
        let skipped = self.harts[0].skipped;
        append_load(&mut self.log, Some(warm), 0, skipped, word);
        warm
    }

    // As `finish_here`, of hart 0, if its interval continues.
    #[inline(always)]
    fn finish_on(&mut self, settings: &Settings, want: &Want, reply: Reply, load: Option<Warm>)
        requires can { CanFinish settings.now None self.old 0 (ask_here (hart_in self.old.harts.items 0) want.now) reply }
        requires on { next_by settings.now None self.old.harts.items 0 (ask_here (hart_in self.old.harts.items 0) want.now) reply ≡ GoesOn }
        ensures harts { (f : ℕ → Hart) → AreHarts self.old.harts.items f →
            AreHarts self.new.harts.items (harts_by settings.now None self.old.harts.items 0 (ask_here (hart_in self.old.harts.items 0) want.now) reply load self.new.log.bytes f) }
        ensures holds { (f : ℕ → Hart) (rs : List Record) → AreHarts self.old.harts.items f → IsLog self.old.log rs →
            IsLog self.new.log (with_ends settings.now None self.old.harts.items 0 (ask_here (hart_in self.old.harts.items 0) want.now) reply f rs) }
        ensures caches { (c : RawSettings) (span : Option Span) (events : ℕ → List Event) →
            CachesGoOn c (next_by settings.now None self.old.harts.items 0 (ask_here (hart_in self.old.harts.items 0) want.now) reply) 0 None span events self.old.caches self.new.caches }
        ensures finished { EndsTurn self.old self.new 0 (next_by settings.now None self.old.harts.items 0 (ask_here (hart_in self.old.harts.items 0) want.now) reply) }
    {
        let own = &mut self.harts[0];
        own.skipped = skipped_after(load, own.skipped);
        own.absorb_here(want, reply);
    }

    // The same after a load, whose word was warm or cold: each has its own way, so that nothing is chosen by that later.
    #[inline(always)]
    fn finish_load(&mut self, settings: &Settings, want: &Want, reply: Reply, warm: Warm)
        requires can { CanFinish settings.now None self.old 0 (ask_here (hart_in self.old.harts.items 0) want.now) reply }
        requires on { next_by settings.now None self.old.harts.items 0 (ask_here (hart_in self.old.harts.items 0) want.now) reply ≡ GoesOn }
        ensures harts { (f : ℕ → Hart) → AreHarts self.old.harts.items f →
            AreHarts self.new.harts.items (harts_by settings.now None self.old.harts.items 0 (ask_here (hart_in self.old.harts.items 0) want.now) reply (Some warm) self.new.log.bytes f) }
        ensures holds { (f : ℕ → Hart) (rs : List Record) → AreHarts self.old.harts.items f → IsLog self.old.log rs →
            IsLog self.new.log (with_ends settings.now None self.old.harts.items 0 (ask_here (hart_in self.old.harts.items 0) want.now) reply f rs) }
        ensures caches { (c : RawSettings) (span : Option Span) (events : ℕ → List Event) →
            CachesGoOn c (next_by settings.now None self.old.harts.items 0 (ask_here (hart_in self.old.harts.items 0) want.now) reply) 0 None span events self.old.caches self.new.caches }
        ensures finished { EndsTurn self.old self.new 0 (next_by settings.now None self.old.harts.items 0 (ask_here (hart_in self.old.harts.items 0) want.now) reply) }
    {
        match warm {
            Warm::Warm => self.finish_on(settings, want, reply, Some(Warm::Warm)),
            Warm::Cold => self.finish_on(settings, want, reply, Some(Warm::Cold)),
        }
    }

    // As `access_store`, of the one hart.
    #[inline(always)]
    fn store_word_alone(
        &mut self,
        turn: u64,
        ic: Ic,
        span: Span,
        whole: bool,
        word: u32,
    ) -> Option<Warm>
        requires { CanAccessAlone self.old turn ic span }
        ensures load { (c : RawSettings) (events : ℕ → List Event) → AreCaches c self.old.caches events → result ≡ (elim whole [ true ↦ None | false ↦ warmth c (Some span.first) (events 0) ]) }
        ensures loading { is_some result ≡ true → whole ≡ false }
        ensures accessed { IsAccessed self.old self.new turn 0 ic span result word }
    {
        note_alone(&mut self.shadow, ic, turn);
        let warm = self.caches.take_access(0, span);
        let skipped = self.harts[0].skipped;
        let load = if whole { None } else { Some(warm) };
        append_load(&mut self.log, load, 0, skipped, word);
        load
    }

    // The one hart does its quiet instructions, in its own place, up to its way's end at the most. It gives the op that
    // isn't quiet, if it stops at one.
    #[inline(always)]
    fn move_alone<'a>(&mut self, walk: &mut Walk<'a>, end: Ic) -> Option<&'a Op>
        requires hart { 0 < length self.old.harts.items }
        requires pc { walk.old.pc ≡ (hart_in self.old.harts.items 0).state.pc }
        requires end { end ≡ (hart_in self.old.harts.items 0).state.ic + walk.old.left }
        ensures moved { IsMoved 0 (hart_in self.new.harts.items 0).state self.old self.new }
        ensures pc { walk.new.pc ≡ (hart_in self.new.harts.items 0).state.pc }
        ensures end { end ≡ (hart_in self.new.harts.items 0).state.ic + walk.new.left }
        ensures left { walk.new.left ≤ walk.old.left }
        ensures program { walk.new.program ≡ walk.old.program }
        ensures asks { ask_of walk.old.program (walk.new.left + 1) (hart_in self.new.harts.items 0).state ≡ ask_of walk.old.program (walk.old.left + 1) (hart_in self.old.harts.items 0).state }
        ensures some { is_some result ≡ true → 0 < walk.new.left }
        ensures found { IfSome result (λ op. Says op.now (instruction_in (code_at walk.new.program walk.new.pc))) }
    {
        let own = &mut self.harts[0].state;
        let found = walk.run(&mut own.x);
        own.pc = walk.pc();
        own.ic = end - walk.left();
        found
    }
}

impl Plain {
    // Answers the load that the one hart asks for in its present state, and takes its turn, after which its interval
    // continues. It takes no memory.
    #[inline(always)]
    fn load_alone(&mut self, addr: Addr, width: u8, signed: bool, rd: Register)
        requires asks { AsksHere (parts self.old) 0 (Load addr width signed rd) }
        requires alone { self.old.start.settings.harts ≡ 1 }
        requires on { counted self.old.start.settings (hart_in self.old.trace.harts.items 0) (count_up (hart_in self.old.trace.harts.items 0).state.ic) ≡ GoesOn }
        ensures run { IsTurnedHere (parts self.old) (parts self.new) 0 (Load addr width signed rd) }
        ensures start { self.new.start ≡ self.old.start }
        ensures turns { self.new.turns ≡ self.old.turns + 1 }
        ensures one { IsOneOn (hart_in self.old.trace.harts.items 0) (hart_in self.new.trace.harts.items 0) }
    {
        each_turn_moves_on();
        let want = Want::Load {
            addr,
            width,
            signed,
            rd,
        };
        let word = self.machine.word_before(&self.start.image, &want);
        let reply = Reply::Word(word);
        let ic = self.trace.harts[0].state.ic;
        let words = Span {
            first: addr / 4 * 4,
            count: 1,
            mode: Mode::Read,
        };
        let warm = self.trace.load_word_alone(self.turns, ic, words, word);
        self.trace
            .finish_load(&self.start.settings, &want, reply, warm);
        self.turns += 1;
    }

    // The same of a store to a word whose page is made.
    #[inline(always)]
    fn store_alone(&mut self, addr: Addr, width: u8, value: u32)
        requires asks { AsksHere (parts self.old) 0 (Store addr width value) }
        requires width { IsTrue (is_aligned addr width) }
        requires alone { self.old.start.settings.harts ≡ 1 }
        requires on { counted self.old.start.settings (hart_in self.old.trace.harts.items 0) (count_up (hart_in self.old.trace.harts.items 0).state.ic) ≡ GoesOn }
        requires page { IsSpanReady self.old.machine.memory (span (aligned addr) 1 Write) }
        ensures run { IsTurnedHere (parts self.old) (parts self.new) 0 (Store addr width value) }
        ensures start { self.new.start ≡ self.old.start }
        ensures turns { self.new.turns ≡ self.old.turns + 1 }
        ensures one { IsOneOn (hart_in self.old.trace.harts.items 0) (hart_in self.new.trace.harts.items 0) }
    {
        each_turn_moves_on();
        let want = Want::Store { addr, width, value };
        let word = self.machine.word_before(&self.start.image, &want);
        let reply = self.machine.store(0, addr, width, value);
        let ic = self.trace.harts[0].state.ic;
        let words = Span {
            first: addr / 4 * 4,
            count: 1,
            mode: Mode::Write,
        };
        let load = self
            .trace
            .store_word_alone(self.turns, ic, words, width == 4, word);
        self.trace
            .finish_on(&self.start.settings, &want, reply, load);
        self.turns += 1;
    }

    // As `store_alone`, of a part of a word: so whether the word before is logged depends on the cache alone.
    #[inline(always)]
    fn store_part_alone(&mut self, addr: Addr, width: u8, value: u32)
        requires asks { AsksHere (parts self.old) 0 (Store addr width value) }
        requires width { IsTrue (is_aligned addr width) }
        requires part { (width == 4) ≡ false }
        requires alone { self.old.start.settings.harts ≡ 1 }
        requires on { counted self.old.start.settings (hart_in self.old.trace.harts.items 0) (count_up (hart_in self.old.trace.harts.items 0).state.ic) ≡ GoesOn }
        requires page { IsSpanReady self.old.machine.memory (span (aligned addr) 1 Write) }
        ensures run { IsTurnedHere (parts self.old) (parts self.new) 0 (Store addr width value) }
        ensures start { self.new.start ≡ self.old.start }
        ensures turns { self.new.turns ≡ self.old.turns + 1 }
        ensures one { IsOneOn (hart_in self.old.trace.harts.items 0) (hart_in self.new.trace.harts.items 0) }
    {
        each_turn_moves_on();
        let want = Want::Store { addr, width, value };
        let word = self.machine.word_before(&self.start.image, &want);
        let reply = self.machine.store(0, addr, width, value);
        let ic = self.trace.harts[0].state.ic;
        let words = Span {
            first: addr / 4 * 4,
            count: 1,
            mode: Mode::Write,
        };
        let answer = self.trace.load_word_alone(self.turns, ic, words, word);
        self.trace
            .finish_load(&self.start.settings, &want, reply, answer);
        self.turns += 1;
    }

    // As `store_alone`, unless the page isn't made: then nothing changes.
    #[inline(always)]
    fn put_alone(&mut self, walk: &Walk, addr: Addr, width: u8, value: u32) -> bool
        requires there { AsksThere walk.now (hart_in self.old.trace.harts.items 0).state.x (Store addr width value) }
        requires can { CanTakeAlone (parts self.old) walk.now }
        ensures { TakesAlone result (parts self.old) (parts self.new) walk.now }
    {
        if !self.machine.is_made(addr) {
            return false;
        }
        if width == 4 {
            self.store_alone(addr, width, value);
        } else {
            self.store_part_alone(addr, width, value);
        }
        true
    }

    // Takes the turn of the one hart, which asks this in its present state, if it is a load or a store.
    #[inline(always)]
    fn want_alone(&mut self, walk: &Walk, want: Want) -> bool
        requires there { AsksThere walk.now (hart_in self.old.trace.harts.items 0).state.x want }
        requires can { CanTakeAlone (parts self.old) walk.now }
        ensures { TakesAlone result (parts self.old) (parts self.new) walk.now }
    {
        match want {
            Want::Load {
                addr,
                width,
                signed,
                rd,
            } => {
                self.load_alone(addr, width, signed, rd);
                true
            }
            Want::Store { addr, width, value } => self.put_alone(walk, addr, width, value),
            _ => false,
        }
    }

    // Takes the turn of the one hart if its op asks for a load or a store of a part of a word.
    #[inline(never)]
    fn part_alone(&mut self, walk: &Walk, op: &Op) -> bool
        requires says { Says op.now (instruction_in (code_at walk.now.program walk.now.pc)) }
        requires can { CanTakeAlone (parts self.old) walk.now }
        ensures { TakesAlone result (parts self.old) (parts self.new) walk.now }
    {
        match walk.access(op, &self.trace.harts[0].state.x) {
            None => false,
            Some(want) => self.want_alone(walk, want),
        }
    }

    // The same, if it asks for a store of a whole word.
    #[inline(always)]
    fn store_or_part(&mut self, walk: &Walk, op: &Op) -> bool
        requires says { Says op.now (instruction_in (code_at walk.now.program walk.now.pc)) }
        requires can { CanTakeAlone (parts self.old) walk.now }
        ensures { TakesAlone result (parts self.old) (parts self.new) walk.now }
    {
        let x = &self.trace.harts[0].state.x;
        match walk.word_store(op, x) {
            Some(addr) => {
                let value = x.get(op.rs2);
                self.put_alone(walk, addr, 4, value)
            }
            None => self.part_alone(walk, op),
        }
    }

    // Takes the turn of the one hart, if its op asks for a load or a store that needs no memory. It tells whether it did.
    #[inline(always)]
    fn access_alone(&mut self, walk: &Walk, op: &Op) -> bool
        requires says { Says op.now (instruction_in (code_at walk.now.program walk.now.pc)) }
        requires can { CanTakeAlone (parts self.old) walk.now }
        ensures { TakesAlone result (parts self.old) (parts self.new) walk.now }
    {
        match walk.word_load(op, &self.trace.harts[0].state.x) {
            Some(addr) => {
                self.load_alone(addr, 4, false, op.rd);
                true
            }
            None => self.store_or_part(walk, op),
        }
    }

    // How many bytes the log has taken when a guard may cut an ask of the one hart, as long as its interval continues.
    fn guards_from(&self) -> u64
        requires { 0 < length self.now.trace.harts.items }
        ensures { IsUnguarded self.now.start.settings (hart_in self.now.trace.harts.items 0).headed result }
    {
        let half = u64::from(self.start.settings.log_size()) / 2;
        if self.start.settings.format() != 2 {
            return u64::MAX;
        }
        if half < HEADER_SIZE {
            return 0;
        }
        let own = &self.trace.harts[0];
        own.headed.saturating_add(half - (HEADER_SIZE - 1))
    }

    // Whether a guard may cut the ask of the one hart.
    #[inline(always)]
    fn may_guard(&self, limit: u64) -> bool
        requires hart { 0 < length self.now.trace.harts.items }
        requires limit { IsUnguarded self.now.start.settings (hart_in self.now.trace.harts.items 0).headed limit }
        ensures { result ≡ false → (run : Run) → IsRun (parts self.now) run → (self.now.start.settings.format == 2) && nat_lt self.now.start.settings.log_size (2 * bytes_since run 0) ≡ false }
    {
        self.trace.log.bytes >= limit
    }

    // Takes a turn of the one hart, if its interval continues after it and it needs no memory. Else its quiet instructions
    // are done.
    #[inline(always)]
    fn turn_alone(&mut self, walk: &mut Walk, end: Ic, limit: u64) -> bool
        requires live { is_live (parts self.old) 0 ≡ true }
        requires alone { self.old.start.settings.harts ≡ 1 }
        requires code { walk.old.program ≡ self.old.start.image }
        requires way { IsOnWay self.old.start.settings (hart_in self.old.trace.harts.items 0) walk.old end }
        requires limit { IsUnguarded self.old.start.settings (hart_in self.old.trace.harts.items 0).headed limit }
        ensures turns { TurnsAlone result (parts self.old) (parts self.new) walk.new end }
        ensures code { walk.new.program ≡ walk.old.program }
    {
        each_ask_is_orderly();
        let found = self.trace.move_alone(walk, end);
        if self.may_guard(limit) {
            return false;
        }
        match found {
            None => false,
            Some(op) => {
                if self.access_alone(walk, op) {
                    walk.go_on();
                    return true;
                }
                false
            }
        }
    }

    // The turn of the one hart whose quiet instructions are done in part.
    #[inline(never)]
    fn turn_moved(&mut self, code: &DecodedImage) -> Result<(), AllocError>
        requires live { is_live (parts self.old) 0 ≡ true }
        requires code { code.now ≡ self.old.start.image }
        ensures run { OnOk result ((run : Run) → IsRun (parts self.old) run → IsRun (parts self.new) (turn self.old.start.settings self.old.start.image run 0)) }
        ensures refused { OnErr result ((run : Run) → IsRun (parts self.old) run → IsRun (parts self.new) run) }
        ensures start { self.new.start ≡ self.old.start }
    {
        self.turn_ahead(code, 0)
    }

    // One turn of the one hart.
    fn one_alone(&mut self, code: &DecodedImage) -> Result<(), AllocError>
        requires live { is_live (parts self.old) 0 ≡ true }
        requires alone { self.old.start.settings.harts ≡ 1 }
        requires code { code.now ≡ self.old.start.image }
        ensures turned { OnOk result (HaveTurned 1 (parts self.old) (parts self.new)) }
        ensures stopped { OnErr result (HaveStopped 1 (parts self.old) (parts self.new)) }
        ensures start { self.new.start ≡ self.old.start }
    {
        each_ask_is_orderly();
        self.turn_moved(code)
    }

    // Turns of the one hart from a place on its way: at least one, and at most so many.
    #[inline(always)]
    fn turns_on(
        &mut self,
        code: &DecodedImage,
        from: Walk,
        end: Ic,
        most: u64,
    ) -> Result<(), AllocError>
        requires live { is_live (parts self.old) 0 ≡ true }
        requires alone { self.old.start.settings.harts ≡ 1 }
        requires code { code.now ≡ self.old.start.image }
        requires program { from.program ≡ self.old.start.image }
        requires way { IsOnWay self.old.start.settings (hart_in self.old.trace.harts.items 0) from end }
        requires some { 0 < most }
        ensures turned { OnOk result (HaveTurned most (parts self.old) (parts self.new)) }
        ensures stopped { OnErr result (HaveStopped most (parts self.old) (parts self.new)) }
        ensures start { self.new.start ≡ self.old.start }
    {
        each_ask_is_orderly();
        let last = self.turns.saturating_add(most - 1);
        let limit = self.guards_from();
        let mut walk = from;
        'turns: while self.turns < last {
            if !self.turn_alone(&mut walk, end, limit) {
                return self.turn_moved(code);
            }
        }
        self.turn_moved(code)
    }

    /// Turns of the one hart of a run, which is live: at least one, and at most so many. It is faster than as many calls of
    /// [`Plain::turn_ahead`].
    ///
    /// The only error is out of memory. Then fewer turns were taken than allowed, as [`Plain::turns`] tells, and the hart
    /// is live after them. A part of the next one may have been done, so this machine is of no further use.
    #[inline(never)]
    pub fn turns_alone(&mut self, code: &DecodedImage, most: u64) -> Result<(), AllocError>
        requires live { is_live (parts self.old) 0 ≡ true }
        requires alone { self.old.start.settings.harts ≡ 1 }
        requires code { code.now ≡ self.old.start.image }
        requires some { 0 < most }
        ensures turned { OnOk result (HaveTurned most (parts self.old) (parts self.new)) }
        ensures stopped { OnErr result (HaveStopped most (parts self.old) (parts self.new)) }
        ensures start { self.new.start ≡ self.old.start }
    {
        let own = &self.trace.harts[0];
        let budget = own.budget(&self.start.settings);
        let ic = own.state.ic;
        if budget == 0 {
            return self.one_alone(code);
        }
        match code.walk(own.state.pc, budget - 1) {
            None => self.one_alone(code),
            Some(walk) => self.turns_on(code, walk, ic + (budget - 1), most),
        }
    }
}
