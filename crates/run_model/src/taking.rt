//! A whole turn of a plain machine: a hart's quiet instructions, its ask, and the answer.
ghost use Rattle.std.specs.Prelude.{◌≡◌, true, OnOk, OnErr};
ghost use Rattle.rv_meaning.specs.declared.asks.Ask.{Ask};
ghost use Rattle.run_model.specs.Turn.{Run, turn, ask_at};
ghost use Rattle.run_model.specs.Represents.Harts.{hart_in};
ghost use Rattle.run_model.specs.Represents.Plain.{IsRun};
ghost use Rattle.run_model.specs.Represents.Turning.{parts, is_live};

use crate::plain::Plain;
use bn_base::{Addr, HartId, HartState, Ic, Registers};
use rv_meaning::{Ask, DecodedImage, Want, each_ask_is_orderly, quiet_run};
use std::alloc::AllocError;

impl Plain {
    /// A turn of a live hart: its quiet instructions up to its first ask, and the answer to that. The
    /// only error is out of memory; then no turn was taken.
    pub fn turn(&mut self, hart: HartId) -> Result<(), AllocError>
        requires { is_live (parts self.old) hart ≡ true }
        ensures run { OnOk result ((run : Run) → IsRun (parts self.old) run → IsRun (parts self.new) (turn self.old.start.settings self.old.start.image run hart)) }
        ensures refused { OnErr result ((run : Run) → IsRun (parts self.old) run → IsRun (parts self.new) run) }
        ensures start { self.new.start ≡ self.old.start }
    {
        let before = &self.trace.harts[hart as usize];
        let budget = before.budget(&self.start.settings);
        let ask = quiet_run(&self.start.image, before.state, budget);
        self.take_asked(hart, &ask)
    }

    /// As [`Plain::turn`], and faster: by the program's code decoded ahead.
    #[inline(always)]
    pub fn turn_ahead(&mut self, code: &DecodedImage, hart: HartId) -> Result<(), AllocError>
        requires live { is_live (parts self.old) hart ≡ true }
        requires code { code.now ≡ self.old.start.image }
        ensures run { OnOk result ((run : Run) → IsRun (parts self.old) run → IsRun (parts self.new) (turn self.old.start.settings self.old.start.image run hart)) }
        ensures refused { OnErr result ((run : Run) → IsRun (parts self.old) run → IsRun (parts self.new) run) }
        ensures start { self.new.start ≡ self.old.start }
    {
        each_ask_is_orderly();
        // Three copies in place of one of the whole, which would be a call.
        let before = self.state(hart);
        let mut pc = before.pc;
        let mut x = before.x;
        let mut ic = before.ic;
        let want = self.trace.move_on(&self.start.settings, code, hart);
        match want {
            Want::Load {
                addr,
                width,
                signed,
                rd,
            } => {
                if self.take_load(hart, addr, width, signed, rd) {
                    return Ok(());
                }
            }
            Want::Store { addr, width, value } => {
                if self.take_store(hart, addr, width, value) {
                    return Ok(());
                }
            }
            _ => {}
        }
        // A copy for the call: since no call sees `want` itself, that of a load or a store in place stays in registers.
        let asked = want;
        self.trace.put_back(hart, &mut pc, &mut x, &mut ic);
        self.take_in_parts(hart, pc, &x, ic, &asked)
    }

    // As `take_asked`, by the parts of the ask. It is made here: if its caller made it, room for it would be zeroed in
    // each turn, also in those that are done in their hart's own place.
    #[inline(never)]
    fn take_in_parts(
        &mut self,
        hart: HartId,
        pc: Addr,
        x: &Registers,
        ic: Ic,
        want: &Want,
    ) -> Result<(), AllocError>
        requires live { is_live (parts self.old) hart ≡ true }
        requires asked { ◌≡◌ {A = Ask} (record { state = record { pc = pc; x = x.now; ic = ic }; want = want.now }) (ask_at self.old.start.settings self.old.start.image (hart_in self.old.trace.harts.items hart)) }
        ensures run { OnOk result ((run : Run) → IsRun (parts self.old) run → IsRun (parts self.new) (turn self.old.start.settings self.old.start.image run hart)) }
        ensures refused { OnErr result ((run : Run) → IsRun (parts self.old) run → IsRun (parts self.new) run) }
        ensures start { self.new.start ≡ self.old.start }
    {
        let state = HartState { pc, x: *x, ic };
        self.take_asked(hart, &Ask { state, want: *want })
    }

    // The turn of a live hart that asks this next.
    #[inline(never)]
    fn take_asked(&mut self, hart: HartId, ask: &Ask) -> Result<(), AllocError>
        requires live { is_live (parts self.old) hart ≡ true }
        requires asked { ask.now ≡ ask_at self.old.start.settings self.old.start.image (hart_in self.old.trace.harts.items hart) }
        ensures run { OnOk result ((run : Run) → IsRun (parts self.old) run → IsRun (parts self.new) (turn self.old.start.settings self.old.start.image run hart)) }
        ensures refused { OnErr result ((run : Run) → IsRun (parts self.old) run → IsRun (parts self.new) run) }
        ensures start { self.new.start ≡ self.old.start }
    {
        each_ask_is_orderly();
        let call = self.prepare(ask)?;
        self.apply(hart, ask, call);
        Ok(())
    }
}
