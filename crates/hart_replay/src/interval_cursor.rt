//! The instructions of an interval, one by one: here the log's records are met. `Replayer` adds the end.
ghost use Rattle.std.specs.Prelude.{◌≡◌, ◌<◌, ◌/◌, ◌==◌, ◌&&◌, ◌||◌, ℕ, true, false, Some, None, Ok, Err, if◌then◌else◌, IsTrue, IfOk, IfErr, OnOk};
ghost use Rattle.hart_replay.specs.Common.{after, Load, LoadReserved, Amo, Store, StoreConditional, System, call_row, fetched};
ghost use Rattle.rv_meaning.specs.Orderly.{is_reply_to, is_aligned, is_cut, passes};
ghost use Rattle.hart_replay.specs.declared.error.ReplayError.{ReplayError};
ghost use Rattle.hart_replay.specs.declared.error.ReplayError.TheVariants.{LoadMissing, EndDiffers, OutOfMemory};
ghost use Rattle.hart_replay.specs.Replay.{call_reason, found};
ghost use Rattle.hart_replay.specs.Pages.{word_at};
ghost use Rattle.hart_replay.specs.Sides.{IsSystem, call_reg, call_answer, fault_in, word_due, outcome_of, rows_if};
ghost use Rattle.hart_replay.specs.Cursors.{CursorDoes, DoneAndKept, answered, next_asked, next_of, replied_row, replied, left_of, end_of};
ghost use Rattle.hart_replay.specs.Scans.{met, IsWaiting};

use crate::decode_cache::DecodeCache;
use crate::error::ReplayError;
use crate::pending::{Conditionals, Loads};
use crate::rows::write_row;
use crate::words::Words;
use bn_base::end_mark::{CALL, EXIT, FAULT, GROUP, LENGTH};
use bn_base::{Addr, EndMark, Fault, HartId, HartState, Register, Row};
use rv_meaning::{
    AmoOp, Fetched, Reply, Want, absorb_in_place, each_instruction_is_counted_or_asks,
    quiet_run_in_place, stored_word,
};
use std::alloc::AllocError;

/// The state of an interval's replay. It has the hart's state, what of the log is still to be met,
/// and the words that the rows so far tell. It also says whether the last instruction was the system
/// call that ends the interval.
#[derive(Drop)]
pub(crate) struct IntervalCursor<'a> {
    pub(crate) image: DecodeCache<'a>,
    pub(crate) hart: HartId,
    pub(crate) mark: EndMark,
    pub(crate) state: HartState,
    pub(crate) loads: Loads<'a>,
    pub(crate) conditionals: Conditionals<'a>,
    pub(crate) words: Words,
    pub(crate) called: bool,
}

// The reason of an end by the system call with this number.
fn call_reason(number: u32) -> u8
    ensures { result ≡ call_reason number }
{
    match number {
        93 => EXIT,
        94 => GROUP,
        _ => CALL,
    }
}

// The fault that a hart asks for, with its value.
fn fault_in(want: &Want) -> Option<(Fault, u32)>
    ensures { result ≡ fault_in want.now }
{
    match *want {
        Want::Faulted { kind, value } => Some((kind, value)),
        Want::Load { .. } => None,
        Want::LoadReserved { .. } => None,
        Want::Amo { .. } => None,
        Want::Store { .. } => None,
        Want::StoreConditional { .. } => None,
        Want::System { .. } => None,
        Want::Cut => None,
    }
}

impl<'a> IntervalCursor<'a> {
    // The word for a loading access: the log's, if it has a first load of this place, else the one
    // that the rows tell.
    fn load_word(&mut self, addr: Addr) -> Result<u32, ReplayError>
        ensures ok { IfOk result (λ x. word_due self.old.loads (word_at self.old.words.pages (addr / 4)) ≡ Some x) }
        ensures err { IfErr result (λ e. (e ≡ LoadMissing self.old.hart self.old.state.ic addr) × (word_due self.old.loads (word_at self.old.words.pages (addr / 4)) ≡ None)) }
        ensures waits { IsWaiting self.old.loads.skipped self.old.loads.loads }
        ensures rest { self.new ≡ record self.old { loads = met self.old.loads.skipped self.old.loads.loads } }
    {
        match self.loads.take() {
            Some(word) => Ok(word),
            None => match self.words.get(addr) {
                Some(word) => Ok(word),
                None => Err(ReplayError::LoadMissing {
                    hart: self.hart,
                    ic: self.state.ic,
                    addr,
                }),
            },
        }
    }

    // Keeps a word that a row tells.
    fn put(&mut self, addr: Addr, word: u32) -> Result<(), ReplayError>
        ensures ok { OnOk result ((k : ℕ) → word_at self.new.words.pages k ≡ (if k == addr / 4 then Some word else word_at self.old.words.pages k)) }
        ensures err { IfErr result (λ e. e ≡ OutOfMemory) }
        ensures rest { self.new ≡ record self.old { words = self.new.words } }
    {
        match self.words.put(addr, word) {
            Ok(()) => Ok(()),
            Err(_) => Err(ReplayError::OutOfMemory),
        }
    }

    // Does an asking instruction, which got this reply, and writes its row.
    #[inline(always)]
    fn done(
        &mut self,
        here: &Fetched,
        want: &Want,
        reply: Reply,
        load: Option<(Addr, u32)>,
        store: Option<(Addr, u32)>,
        row: &mut Row,
    )
        requires reply { IsTrue (is_reply_to want.now reply) }
        requires here { here.now ≡ fetched self.old.hart self.old.image.now self.old.state }
        ensures row { row.new ≡ replied_row self.old want.now reply load store }
        ensures rest { self.new ≡ replied self.old want.now reply }
    {
        absorb_in_place(&mut self.state, want, reply);
        self.called = false;
        write_row(here, &self.state.x, load, store, row);
    }

    // Does an asking instruction whose row tells a word, as `done`, and keeps the word.
    #[inline(always)]
    fn keep(
        &mut self,
        here: &Fetched,
        want: &Want,
        reply: Reply,
        load: Option<(Addr, u32)>,
        store: Option<(Addr, u32)>,
        told: (Addr, u32),
        row: &mut Row,
    ) -> Result<(), ReplayError>
        requires reply { IsTrue (is_reply_to want.now reply) }
        requires here { here.now ≡ fetched self.old.hart self.old.image.now self.old.state }
        ensures ok { OnOk result (DoneAndKept self.old want.now reply load store told row.new self.new) }
        ensures err { IfErr result (λ e. (e ≡ OutOfMemory) × (self.new ≡ record self.old { words = self.new.words })) }
    {
        match self.put(told.0, told.1) {
            Ok(()) => {
                self.done(here, want, reply, load, store, row);
                Ok(())
            }
            Err(error) => Err(error),
        }
    }

    // Does the system call that ends the interval.
    fn call_done(&mut self, here: &Fetched, want: &Want, reason: u8, row: &mut Row)
        requires here { here.now ≡ fetched self.old.hart self.old.image.now self.old.state }
        requires system { IsSystem want.now }
        ensures row { row.new ≡ call_row self.old.hart self.old.image.now self.old.state (call_reg reason self.old.mark.value) }
        ensures rest { self.new ≡ record self.old { state = after want.now (call_answer reason self.old.mark.value) self.old.state; called = true } }
    {
        self.called = true;
        if reason == CALL {
            absorb_in_place(&mut self.state, want, Reply::Answer(self.mark.value));
            *row = here.call_row(Some((Register::new(10), self.mark.value)));
        } else {
            absorb_in_place(&mut self.state, want, Reply::Over);
            *row = here.call_row(None);
        }
    }

    // Whether the interval ends with this mark of a system call.
    fn is_end(&self, end: EndMark) -> bool
        ensures { result ≡ (end.ic == self.now.mark.ic && (end.reason == self.now.mark.reason) && ((end.reason == 2) || (end.value == self.now.mark.value))) }
    {
        end.ic == self.mark.ic
            && end.reason == self.mark.reason
            && (end.reason == CALL || end.value == self.mark.value)
    }

    // Whether the interval ends with this mark of a fault.
    fn is_fault(&self, end: EndMark) -> bool
        ensures { result ≡ (end.reason == self.now.mark.reason && (end.value == self.now.mark.value)) }
    {
        end.reason == self.mark.reason && end.value == self.mark.value
    }

    fn differs(&self, end: EndMark) -> ReplayError
        ensures { result ≡ EndDiffers self.now.hart self.now.mark end }
    {
        ReplayError::EndDiffers {
            hart: self.hart,
            said: self.mark,
            found: end,
        }
    }

    // A system call ends its interval, or it isn't the one that the log has.
    #[tactic(auto, using(crate::proofs::Exits::call_counts))]
    fn call(
        &mut self,
        here: &Fetched,
        number: u32,
        args: [u32; 3],
        row: &mut Row,
    ) -> Result<(), ReplayError>
        requires here { here.now ≡ fetched self.old.hart self.old.image.now self.old.state }
        requires count { self.old.state.ic < self.old.mark.ic }
        ensures answer { CursorDoes self.old (next_asked self.old (System number args)) result row.new self.new }
        ensures same { (self.new.image ≡ self.old.image) × (self.new.hart ≡ self.old.hart) × (self.new.mark ≡ self.old.mark) }
    {
        let _last = self.mark.ic;
        let reason = call_reason(number);
        let value = if reason == CALL { 0 } else { args[0] };
        let end = EndMark {
            ic: self.state.ic + 1,
            reason,
            value,
        };
        if self.is_end(end) {
            let want = Want::System { number, args };
            self.call_done(here, &want, reason, row);
            Ok(())
        } else {
            Err(self.differs(end))
        }
    }

    // Does the instruction at the pc, which asks this.
    #[inline(always)]
    fn ask(&mut self, here: &Fetched, want: &Want, row: &mut Row) -> Result<(), ReplayError>
        requires here { here.now ≡ fetched self.old.hart self.old.image.now self.old.state }
        requires asks { (is_cut want.now ≡ false) × IsTrue (passes self.old.image.now want.now) }
        requires count { self.old.state.ic < self.old.mark.ic }
        ensures answer { CursorDoes self.old (next_asked self.old want.now) result row.new self.new }
        ensures same { (self.new.image ≡ self.old.image) × (self.new.hart ≡ self.old.hart) × (self.new.mark ≡ self.old.mark) }
    {
        match *want {
            Want::Load {
                addr,
                width,
                signed,
                rd,
            } => self.load(here, addr, width, signed, rd, row),
            Want::LoadReserved { addr, rd } => self.load_reserved(here, addr, rd, row),
            Want::Amo {
                addr,
                op,
                rd,
                value,
            } => self.amo(here, addr, op, rd, value, row),
            Want::Store { addr, width, value } => self.store(here, addr, width, value, row),
            Want::StoreConditional { addr, rd, value } => {
                self.store_conditional(here, addr, rd, value, row)
            }
            Want::System { number, args } => self.call(here, number, args, row),
            Want::Faulted { kind, value } => {
                Err(self.differs(EndMark::of_fault(self.state.ic, kind, value)))
            }
            Want::Cut => unreachable!(),
        }
    }

    #[inline(always)]
    fn load(
        &mut self,
        here: &Fetched,
        addr: Addr,
        width: u8,
        signed: bool,
        rd: Register,
        row: &mut Row,
    ) -> Result<(), ReplayError>
        requires here { here.now ≡ fetched self.old.hart self.old.image.now self.old.state }
        ensures answer { CursorDoes self.old (next_asked self.old (Load addr width signed rd)) result row.new self.new }
        ensures same { (self.new.image ≡ self.old.image) × (self.new.hart ≡ self.old.hart) × (self.new.mark ≡ self.old.mark) }
    {
        match self.load_word(addr) {
            Ok(word) => {
                let want = Want::Load {
                    addr,
                    width,
                    signed,
                    rd,
                };
                let told = (addr, word);
                self.keep(here, &want, Reply::Word(word), Some(told), None, told, row)
            }
            Err(error) => Err(error),
        }
    }

    fn load_reserved(
        &mut self,
        here: &Fetched,
        addr: Addr,
        rd: Register,
        row: &mut Row,
    ) -> Result<(), ReplayError>
        requires here { here.now ≡ fetched self.old.hart self.old.image.now self.old.state }
        ensures answer { CursorDoes self.old (next_asked self.old (LoadReserved addr rd)) result row.new self.new }
        ensures same { (self.new.image ≡ self.old.image) × (self.new.hart ≡ self.old.hart) × (self.new.mark ≡ self.old.mark) }
    {
        match self.load_word(addr) {
            Ok(word) => {
                let want = Want::LoadReserved { addr, rd };
                let told = (addr, word);
                self.keep(here, &want, Reply::Word(word), Some(told), None, told, row)
            }
            Err(error) => Err(error),
        }
    }

    fn amo(
        &mut self,
        here: &Fetched,
        addr: Addr,
        op: AmoOp,
        rd: Register,
        value: u32,
        row: &mut Row,
    ) -> Result<(), ReplayError>
        requires here { here.now ≡ fetched self.old.hart self.old.image.now self.old.state }
        ensures answer { CursorDoes self.old (next_asked self.old (Amo addr op rd value)) result row.new self.new }
        ensures same { (self.new.image ≡ self.old.image) × (self.new.hart ≡ self.old.hart) × (self.new.mark ≡ self.old.mark) }
    {
        match self.load_word(addr) {
            Ok(word) => {
                let want = Want::Amo {
                    addr,
                    op,
                    rd,
                    value,
                };
                let load = Some((addr, word));
                let stored = op.result(word, value);
                let told = (addr, stored);
                self.keep(here, &want, Reply::Word(word), load, Some(told), told, row)
            }
            Err(error) => Err(error),
        }
    }

    // A store of a byte or a halfword needs the word before.
    fn store_part(
        &mut self,
        here: &Fetched,
        addr: Addr,
        width: u8,
        value: u32,
        row: &mut Row,
    ) -> Result<(), ReplayError>
        requires here { here.now ≡ fetched self.old.hart self.old.image.now self.old.state }
        requires part { (width == 4) ≡ false }
        requires aligned { IsTrue (is_aligned addr width) }
        ensures answer { CursorDoes self.old (next_asked self.old (Store addr width value)) result row.new self.new }
        ensures same { (self.new.image ≡ self.old.image) × (self.new.hart ≡ self.old.hart) × (self.new.mark ≡ self.old.mark) }
    {
        match self.load_word(addr) {
            Ok(word) => {
                let want = Want::Store { addr, width, value };
                let told = (addr, stored_word(addr, width, value, word));
                self.keep(here, &want, Reply::Stored, None, Some(told), told, row)
            }
            Err(error) => Err(error),
        }
    }

    // A store of a word needs none of the log.
    #[inline(always)]
    fn store(
        &mut self,
        here: &Fetched,
        addr: Addr,
        width: u8,
        value: u32,
        row: &mut Row,
    ) -> Result<(), ReplayError>
        requires here { here.now ≡ fetched self.old.hart self.old.image.now self.old.state }
        requires aligned { IsTrue (is_aligned addr width) }
        ensures answer { CursorDoes self.old (next_asked self.old (Store addr width value)) result row.new self.new }
        ensures same { (self.new.image ≡ self.old.image) × (self.new.hart ≡ self.old.hart) × (self.new.mark ≡ self.old.mark) }
    {
        if width == 4 {
            let want = Want::Store { addr, width, value };
            let told = (addr, value);
            self.keep(here, &want, Reply::Stored, None, Some(told), told, row)
        } else {
            self.store_part(here, addr, width, value, row)
        }
    }

    // The log tells how a store-conditional ended.
    fn store_conditional(
        &mut self,
        here: &Fetched,
        addr: Addr,
        rd: Register,
        value: u32,
        row: &mut Row,
    ) -> Result<(), ReplayError>
        requires here { here.now ≡ fetched self.old.hart self.old.image.now self.old.state }
        ensures answer { CursorDoes self.old (next_asked self.old (StoreConditional addr rd value)) result row.new self.new }
        ensures same { (self.new.image ≡ self.old.image) × (self.new.hart ≡ self.old.hart) × (self.new.mark ≡ self.old.mark) }
    {
        let want = Want::StoreConditional { addr, rd, value };
        match self.conditionals.take() {
            None => Err(ReplayError::ScMissing {
                hart: self.hart,
                ic: self.state.ic,
            }),
            Some(good) => {
                if good {
                    let told = (addr, value);
                    self.keep(here, &want, Reply::ScOk, None, Some(told), told, row)
                } else {
                    self.done(here, &want, Reply::ScFailed, None, None, row);
                    Ok(())
                }
            }
        }
    }

    /// Does the next instruction before the mark's count, and writes its row. An error leaves the
    /// state unchanged.
    #[inline(always)]
    pub(crate) fn go_on(&mut self, row: &mut Row) -> Result<(), ReplayError>
        requires { self.old.state.ic < self.old.mark.ic }
        ensures answer { CursorDoes self.old (next_of self.old) result row.new self.new }
        ensures same { (self.new.image ≡ self.old.image) × (self.new.hart ≡ self.old.hart) × (self.new.mark ≡ self.old.mark) }
    {
        let here = self.image.fetch(self.hart, &self.state);
        self.go_on_at(&here, row)
    }

    // Does the next instruction, if its look-up is kept and it asks nothing, and writes its row. Else all stays but the row.
    #[inline(always)]
    fn goes_quietly(&mut self, row: &mut Row) -> bool
        ensures answer { result ≡ true → CursorDoes self.old (next_of self.old) (Ok tt) row.new self.new }
        ensures same { (self.new.image ≡ self.old.image) × (self.new.hart ≡ self.old.hart) × (self.new.mark ≡ self.old.mark) }
        ensures stays { result ≡ false → self.new ≡ self.old }
    {
        each_instruction_is_counted_or_asks();
        let ic = self.state.ic;
        match self.image.do_quiet(&mut self.state) {
            None => false,
            Some(kept) => {
                let here = Fetched {
                    hart: self.hart,
                    ic,
                    pc: kept.pc,
                    word: kept.word,
                    rd: kept.rd,
                };
                self.called = false;
                write_row(&here, &self.state.x, None, None, row);
                true
            }
        }
    }

    // As `go_on`, but an error is put in `over`.
    #[inline(never)]
    fn goes_anyhow(&mut self, over: &mut Option<Result<(), ReplayError>>, row: &mut Row) -> bool
        requires { self.old.state.ic < self.old.mark.ic }
        ensures answer { CursorDoes self.old (next_of self.old) (answered result over.new) row.new self.new }
        ensures same { (self.new.image ≡ self.old.image) × (self.new.hart ≡ self.old.hart) × (self.new.mark ≡ self.old.mark) }
        ensures kept { IsTrue result → over.new ≡ over.old }
        ensures refused { result ≡ false → (e : ReplayError) × (over.new ≡ Some (Err e)) }
    {
        match self.go_on(row) {
            Ok(()) => true,
            Err(error) => {
                *over = Some(Err(error));
                false
            }
        }
    }

    /// As `go_on`, but an error is put in `over`: an answer that could hold one would be copied for each row.
    #[inline(never)]
    pub(crate) fn goes_on(
        &mut self,
        over: &mut Option<Result<(), ReplayError>>,
        row: &mut Row,
    ) -> bool
        requires { self.old.state.ic < self.old.mark.ic }
        ensures answer { CursorDoes self.old (next_of self.old) (answered result over.new) row.new self.new }
        ensures same { (self.new.image ≡ self.old.image) × (self.new.hart ≡ self.old.hart) × (self.new.mark ≡ self.old.mark) }
        ensures kept { IsTrue result → over.new ≡ over.old }
        ensures refused { result ≡ false → (e : ReplayError) × (over.new ≡ Some (Err e)) }
    {
        // Most rows are of code in a loop that asks nothing: these go without room for what could be asked.
        if self.goes_quietly(row) {
            return true;
        }
        self.goes_anyhow(over, row)
    }

    // The same, for an instruction that was looked up.
    #[inline(always)]
    fn go_on_at(&mut self, here: &Fetched, row: &mut Row) -> Result<(), ReplayError>
        requires here { here.now ≡ fetched self.old.hart self.old.image.now self.old.state }
        requires count { self.old.state.ic < self.old.mark.ic }
        ensures answer { CursorDoes self.old (next_of self.old) result row.new self.new }
        ensures same { (self.new.image ≡ self.old.image) × (self.new.hart ≡ self.old.hart) × (self.new.mark ≡ self.old.mark) }
    {
        each_instruction_is_counted_or_asks();
        match self.image.step(&mut self.state) {
            Want::Cut => {
                self.called = false;
                write_row(here, &self.state.x, None, None, row);
                Ok(())
            }
            want => self.ask(here, &want, row),
        }
    }

    // What is left of the log.
    fn left_over(&self) -> Result<(), ReplayError>
        ensures { outcome_of result ≡ left_of self.now }
    {
        let left = self.loads.left() + self.conditionals.left();
        if left == 0 {
            Ok(())
        } else {
            Err(ReplayError::RecordsLeft {
                hart: self.hart,
                left,
            })
        }
    }

    // The end of an interval whose mark is a fault: the next instruction has to be that fault.
    fn fault_end(&self, row: &mut Row) -> (bool, Result<(), ReplayError>)
        requires { 16 < self.now.mark.reason }
        ensures { record { rows = rows_if result.0 row.new; outcome = outcome_of result.1 } ≡ end_of self.now }
    {
        let image = self.image.image();
        let here = Fetched::at(self.hart, image, &self.state);
        let mut state = self.state;
        let want = quiet_run_in_place(image, &mut state, 1);
        match fault_in(&want) {
            Some((kind, value)) => {
                let end = EndMark::of_fault(self.state.ic, kind, value);
                if self.is_fault(end) {
                    // The row comes before records that are left are reported.
                    *row = here.fault_row(kind, value);
                    (true, self.left_over())
                } else {
                    (false, Err(self.differs(end)))
                }
            }
            None => (false, Err(self.differs(self.end_here()))),
        }
    }

    // The mark that is found if the interval ends otherwise than its log says.
    fn end_here(&self) -> EndMark
        ensures { result ≡ found self.now.state.ic 1 0 }
    {
        EndMark {
            ic: self.state.ic,
            reason: LENGTH,
            value: 0,
        }
    }

    /// The end of the interval, at the mark's count: whether the row of its fault is written, if it ends
    /// so, and the outcome.
    #[cold]
    #[inline(never)]
    pub(crate) fn end(&self, row: &mut Row) -> (bool, Result<(), ReplayError>)
        ensures { record { rows = rows_if result.0 row.new; outcome = outcome_of result.1 } ≡ end_of self.now }
    {
        let reason = self.mark.reason;
        if reason > FAULT {
            return self.fault_end(row);
        }
        if (reason == CALL || reason == EXIT || reason == GROUP) && !self.called {
            (false, Err(self.differs(self.end_here())))
        } else {
            (false, self.left_over())
        }
    }

    /// A copy at the same place of the interval, with pages of its own for the words that it knows.
    pub(crate) fn copy(&self) -> Result<IntervalCursor<'a>, AllocError>
        ensures words { IfOk result (λ c. c.words.pages ≡ self.now.words.pages) }
        ensures rest { IfOk result (λ c. c ≡ record self.now { words = c.words }) }
    {
        match self.words.copy() {
            Err(error) => Err(error),
            Ok(words) => Ok(IntervalCursor {
                image: self.image.copy(),
                hart: self.hart,
                mark: self.mark,
                state: self.state,
                loads: self.loads.copy(),
                conditionals: self.conditionals.copy(),
                words,
                called: self.called,
            }),
        }
    }
}
