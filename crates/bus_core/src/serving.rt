//! The calls of a bus: what is asked of it, served by it, seen of it, and handed over at its end.
ghost use Rattle.std.specs.Prelude.{◌≡◌, ◌<◌, ◌+◌, ◌∷◌, ◌++◌, [], ℕ, Bool, true, false, not, ◌&&◌, ◌||◌, List, None, is_some, IfOk, OnOk, OnErr, IfSome, IsTrue};
ghost use Rattle.std.specs.List.{AllByRecursion};
ghost use Rattle.rv_meaning.specs.Orderly.{is_reply_to};
ghost use Rattle.log_record.specs.Spelling.{Fits};
ghost use Rattle.log_order.specs.Order.{broken_by};
ghost use Rattle.log_ring.specs.Kept.{HoldsLog};
ghost use Rattle.run_model.specs.Represents.Harts.{hart_in};
ghost use Rattle.run_model.specs.Runs.{has_finished, most_turns};
ghost use Rattle.run_model.specs.Runs as runs;
ghost use Rattle.run_model.specs.Turn.{Run, budget, halted, is_orderly};
ghost use Rattle.bn_outside.specs.declared.turn_row.TurnRow.{TurnRow};
ghost use Rattle.run_laws.specs.Ends.{AreLastMarks};
ghost use Rattle.bus_core.specs.Bus.{began_of, first_run, run_after, served_run, served_reply, served_guarded, row, is_live, marks, IsState, IsTold, IsLogged};

use crate::bus::Bus;
use crate::closed::Closed;
use crate::ends::{Ends, any_live, is_finished};
use crate::turn::take;
use bn_base::{HartId, HartState};
use bn_outside::{Book, TurnRow};
use file_laws::{logs_of_rows_are_contents, rings_keep_their_rules};
use log_ring::keeping::a_suffix_is_kept;
use race_log::notes_decide;
use run_laws::{kept_ends_are_marks, replies_fit};
use run_model::{Plain, Start};
use rv_meaning::{Ask, Reply};
use std::alloc::{AllocError, Global};

impl<B: Book> Bus<B> {
    /// The bus before its first turn. The book is cleared; on `Err`, out of memory, it is dropped.
    pub fn new(alloc: Global, from: &Start, mut book: B) -> Result<Bus<B>, AllocError>
        ensures began { IfOk result (λ b. b.began ≡ began_of from.now) }
        ensures state { IfOk result (λ b. IsState b (first_run (began_of from.now))) }
        ensures flags { IfOk result (λ b. (b.halted ≡ false) × (b.disordered ≡ false)) }
        ensures rows { IfOk result (λ b. b.rows ≡ []) }
    {
        let plain = Plain::new(alloc, from)?;
        let ends = Ends::new(alloc)?;
        book.clear();
        Ok(Bus {
            plain,
            ends,
            book,
            halted: false,
            disordered: false,
        })
    }

    /// What the run began with.
    pub fn start(&self) -> &Start
        ensures { began_of result.now ≡ self.now.began }
    {
        self.plain.start()
    }

    /// The rows of its book, if that tells them. They are lawful, and the machine and the harts are those
    /// of the run after them. If the book tells none, there are rows of which the same holds.
    pub fn rows(&self) -> Option<&[TurnRow]>
        ensures tells { is_some result ≡ B.tells }
        ensures rows { IfSome result (λ rows. rows.now ≡ self.now.rows) }
        ensures told { B.tells ≡ true → IsTold self.now self.now.rows }
        ensures some { (rows : List TurnRow) × IsTold self.now rows }
    {
        self.book.rows()
    }

    /// Whether a hart is there and live.
    pub fn live(&self, hart: HartId) -> bool
        ensures value { result ≡ is_live self.now hart }
        ensures run { (run : Run) → IsState self.now run → result ≡ runs.is_live self.now.began.settings run hart }
        ensures within { is_live self.now hart ≡ true → hart < self.now.began.settings.harts }
        ensures left { is_live self.now hart ≡ true → self.now.turns < most_turns self.now.began.settings }
        ensures running { is_live self.now hart ≡ true → self.now.halted ≡ false }
    {
        self.plain.live(hart)
    }

    /// How many turns were taken.
    pub fn turns(&self) -> u64
        ensures { result ≡ self.now.turns }
    {
        self.plain.turns()
    }

    /// How many instructions a hart may do before its next cut.
    pub fn budget(&self, hart: HartId) -> u64
        requires { hart < self.now.began.settings.harts }
        ensures { (run : Run) → IsState self.now run → result ≡ budget self.now.began.settings (run.harts hart) }
    {
        self.plain.budget(hart)
    }

    /// A hart's state, as its last served ask left it.
    pub fn state(&self, hart: HartId) -> &HartState
        requires { hart < self.now.began.settings.harts }
        ensures { (run : Run) → IsState self.now run → result.now ≡ (run.harts hart).state }
    {
        self.plain.state(hart)
    }

    /// Serves what a live hart asks: the reply, whether the ask was guarded, and the next state are those of
    /// the definition, from the state that the bus held, and the book has the row. The reply is one to what
    /// is asked. An ask that isn't orderly, which no hart makes by itself, ends all and is answered with
    /// `Over`.
    ///
    /// All memory is found first. On `Err`, out of memory, nothing has changed: served again, the ask has
    /// the same reply and leaves the same.
    pub fn serve(&mut self, hart: HartId, ask: &Ask) -> Result<(Reply, bool), AllocError>
        requires { is_live self.old hart ≡ true }
        ensures reply { IfOk result (λ r. (run : Run) → IsState self.old run → r.0 ≡ served_reply self.old.began run hart ask.now) }
        ensures fits { IfOk result (λ r. IsTrue (is_reply_to ask.now.want r.0)) }
        ensures guarded { IfOk result (λ r. (run : Run) → IsState self.old run → r.1 ≡ served_guarded self.old.began run hart ask.now) }
        ensures state { OnOk result ((run : Run) → IsState self.old run → IsState self.new (served_run self.old.began run hart ask.now)) }
        ensures told { IfOk result (λ r. B.tells ≡ true → self.new.rows ≡ self.old.rows ++ row hart ask.now r.0 r.1 ∷ []) }
        ensures disordered { OnOk result ((run : Run) → IsState self.old run → self.new.disordered ≡ (self.old.disordered || not (is_orderly self.old.began.settings self.old.began.image (run.harts hart) ask.now))) }
        ensures refused { OnErr result ((run : Run) → IsState self.old run → IsState self.new run) }
        ensures kept { OnErr result ((self.new.rows ≡ self.old.rows) × (self.new.disordered ≡ self.old.disordered)) }
        ensures turns { OnOk result (self.new.turns ≡ self.old.turns + 1) }
        ensures began { self.new.began ≡ self.old.began }
        ensures halted { self.new.halted ≡ self.old.halted }
    {
        notes_decide();
        replies_fit();
        let orderly = self.plain.is_orderly(hart, ask);
        let served = take(&mut self.plain, &mut self.book, hart, ask, orderly)?;
        self.disordered = self.disordered || !orderly;
        Ok(served)
    }

    /// No hart is live any more; nothing else changes.
    pub fn halt(&mut self)
        ensures state { (run : Run) → IsState self.old run → IsState self.new (halted run) }
        ensures halted { self.new.halted ≡ true }
        ensures began { self.new.began ≡ self.old.began }
        ensures rows { self.new.rows ≡ self.old.rows }
        ensures disordered { self.new.disordered ≡ self.old.disordered }
    {
        notes_decide();
        self.plain.halt();
        self.halted = true;
    }

    /// Hands over the ring, the streams, the book, each hart's last mark and the number of turns. It takes
    /// no memory. The ring holds the log of the run, whatever the book tells. Its records keep the rules of
    /// single records, and all rules of their order once the run is finished. A hart that has an End among
    /// them has the mark of its last one.
    pub fn close(self) -> Closed<B>
        ensures told { B.tells ≡ true → IsLogged self result.ring self.rows }
        ensures some { (rows : List TurnRow) × IsLogged self result.ring rows }
        ensures size { result.ring.size ≡ self.began.settings.log_size }
        ensures log { (run : Run) → IsState self run → HoldsLog result.ring run.stream }
        ensures out { (run : Run) → IsState self run → result.out.items ≡ run.machine.out }
        ensures err { (run : Run) → IsState self run → result.err.items ≡ run.machine.err }
        ensures ends { (run : Run) → IsState self run → result.ends.items ≡ marks 0 self.began.settings.harts run.harts }
        ensures turns { result.turns ≡ self.turns }
        ensures finished { (run : Run) → IsState self run → result.finished ≡ (not self.halted && not self.disordered && has_finished self.began.settings run) }
        ensures book { B.told result.book ≡ self.rows }
        ensures order { result.finished ≡ true → broken_by self.began.settings result.ring.dropped result.ring.records ≡ None }
        ensures last_marks { AreLastMarks result.ring.records result.ends.items }
        ensures fit { AllByRecursion (Fits 2) result.ring.records }
    {
        a_suffix_is_kept();
        kept_ends_are_marks();
        rings_keep_their_rules();
        logs_of_rows_are_contents();
        let Bus {
            plain,
            ends,
            book,
            halted,
            disordered,
        } = self;
        let _settings = plain.start().settings.raw();
        let recorded = plain.into_recorded();
        let live = any_live(&recorded.harts);
        let _kept = recorded.ring.pieces();
        Closed {
            ring: recorded.ring,
            out: recorded.out,
            err: recorded.err,
            ends: ends.of(&recorded.harts),
            turns: recorded.turns,
            finished: is_finished(halted, disordered, live),
            book,
        }
    }
}
