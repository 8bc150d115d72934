//! A turn of a hart in the bus's own place: its quiet instructions, and what it asks after them.
//! Each run on the caller's thread takes all its turns here.
ghost use Rattle.std.specs.Prelude.{◌≡◌, ◌<◌, ◌+◌, ◌∷◌, ◌++◌, [], true, false, IsTrue, IfOk, OnOk, OnErr};
ghost use Rattle.run_model.specs.Turn.{Run, ask_at, is_orderly};
ghost use Rattle.run_model.specs.Represents.Harts.{hart_in};
ghost use Rattle.run_model.specs.Represents.Turning.{parts};
ghost use Rattle.bus_core.specs.Bus.{turned_run, turn_row, is_live, IsState, HasTurnedAlone};

use crate::bus::Bus;
use crate::turn::answer_orderly;
use bn_base::HartId;
use bn_outside::{Book, TurnRow};
use race_log::notes_decide;
use run_model::Plain;
use rv_meaning::{Ask, DecodedImage, Reply, Want, each_ask_is_orderly};
use std::alloc::AllocError;

// Does a hart's quiet instructions on the copy of its state that an ask has, up to what the hart asks next. That
// is orderly.
fn ask_next(plain: &Plain, code: &DecodedImage, hart: HartId, ask: &mut Ask)
    requires hart { hart < (parts plain.now).start.settings.harts }
    requires code { code.now ≡ (parts plain.now).start.image }
    requires state { ask.old.state ≡ (hart_in (parts plain.now).trace.harts.items hart).state }
    ensures asks { ask.new ≡ ask_at (parts plain.now).start.settings (parts plain.now).start.image (hart_in (parts plain.now).trace.harts.items hart) }
    ensures orderly { IsTrue (is_orderly (parts plain.now).start.settings (parts plain.now).start.image (hart_in (parts plain.now).trace.harts.items hart) ask.new) }
{
    each_ask_is_orderly();
    ask.want = code.quiet_run_in_place(&mut ask.state, plain.budget(hart));
}

impl<B: Book> Bus<B> {
    // `take_turn` for books whose type tells no rows, so none is made.
    #[inline(always)]
    fn take_untold(&mut self, code: &DecodedImage, hart: HartId) -> Result<(), AllocError>
        requires live { is_live self.old hart ≡ true }
        requires code { code.now ≡ self.old.began.image }
        requires untold { B.tells ≡ false }
        ensures state { OnOk result ((run : Run) → IsState self.old run → IsState self.new (turned_run self.old.began run hart)) }
        ensures refused { OnErr result ((run : Run) → IsState self.old run → IsState self.new run) }
        ensures kept { self.new.rows ≡ self.old.rows }
        ensures turns { OnOk result (self.new.turns ≡ self.old.turns + 1) }
        ensures began { self.new.began ≡ self.old.began }
        ensures halted { self.new.halted ≡ self.old.halted }
        ensures disordered { self.new.disordered ≡ self.old.disordered }
    {
        notes_decide();
        each_ask_is_orderly();
        self.plain.turn_ahead(code, hart)?;
        Ok(())
    }

    /// Turns of the one hart of a run, which is live: at least one, and at most so many. They are those of as many calls of
    /// [`Bus::take_turn`], which takes longer.
    ///
    /// The only error is out of memory. The bus is dropped then.
    // By value: a turn that finds no memory may have been done in part, and its bus would be that of no rows.
    pub fn take_turns(self, code: &DecodedImage, most: u64) -> Result<Bus<B>, AllocError>
        requires live { is_live self 0 ≡ true }
        requires alone { self.began.settings.harts ≡ 1 }
        requires code { code.now ≡ self.began.image }
        requires some { 0 < most }
        ensures turned { IfOk result (λ bus. HasTurnedAlone B.tells most self bus) }
    {
        notes_decide();
        if self.book.rows().is_some() {
            let mut bus = self;
            bus.take_turn(code, 0)?;
            return Ok(bus);
        }
        let Bus {
            plain,
            ends,
            book,
            halted,
            disordered,
        } = self;
        let mut now = plain;
        now.turns_alone(code, most)?;
        Ok(Bus {
            plain: now,
            ends,
            book,
            halted,
            disordered,
        })
    }

    /// The next turn of a live hart, which does its quiet instructions up to its first ask: the ask is
    /// served as [`serve`](Bus::serve) does, and the book has the row. A hart's own ask is orderly, so that
    /// no test of it is made. `code` is the program that the run began with.
    ///
    /// All memory is found first. On `Err`, out of memory, nothing has changed: taken again, the turn
    /// leaves the same.
    #[inline(always)]
    pub fn take_turn(&mut self, code: &DecodedImage, hart: HartId) -> Result<(), AllocError>
        requires live { is_live self.old hart ≡ true }
        requires code { code.now ≡ self.old.began.image }
        ensures state { OnOk result ((run : Run) → IsState self.old run → IsState self.new (turned_run self.old.began run hart)) }
        ensures told { OnOk result (B.tells ≡ true → (run : Run) → IsState self.old run → self.new.rows ≡ self.old.rows ++ turn_row self.old.began run hart ∷ []) }
        ensures refused { OnErr result ((run : Run) → IsState self.old run → IsState self.new run) }
        ensures kept { OnErr result (self.new.rows ≡ self.old.rows) }
        ensures turns { OnOk result (self.new.turns ≡ self.old.turns + 1) }
        ensures began { self.new.began ≡ self.old.began }
        ensures halted { self.new.halted ≡ self.old.halted }
        ensures disordered { self.new.disordered ≡ self.old.disordered }
    {
        notes_decide();
        if self.book.rows().is_none() {
            return self.take_untold(code, hart);
        }
        let mut turn = TurnRow {
            hart,
            ask: Ask {
                state: *self.plain.state(hart),
                want: Want::Cut,
            },
            reply: Reply::Over,
            guarded: false,
        };
        ask_next(&self.plain, code, hart, &mut turn.ask);
        let (reply, guarded) = answer_orderly(&mut self.plain, &mut self.book, hart, &turn.ask)?;
        turn.reply = reply;
        turn.guarded = guarded;
        self.book.note(turn);
        Ok(())
    }
}
