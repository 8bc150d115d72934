//! Runs of a joint replay: all its steps, with their text.
ghost use Rattle.std.specs.Prelude.{◌≡◌, None};
ghost use Rattle.joint_replay.specs.declared.kinds.Next.TheVariants.{Hart, NoneReady};
ghost use Rattle.joint_replay.specs.Joining.{choice};
ghost use Rattle.joint_replay.specs.Runs.{Advances, IsStuck, Runs};

use crate::error::JointError;
use crate::joint::{Joint, error_of};
use crate::kinds::Next;
use crate::lane::Did;
use crate::laws::{runs_end, runs_go_on};
use crate::texts::write_moved;
use bn_base::HartId;
use rv_text::{RowLines, Text};

impl<'a> Joint<'a> {
    // Why no hart is ready.
    fn stuck(&mut self) -> JointError
        ensures { IsStuck self.old result self.new }
    {
        match self.positions() {
            Ok(positions) => JointError::Stuck { positions },
            Err(_) => {
                self.halt();
                JointError::OutOfMemory
            }
        }
    }

    // Takes the next step of the lowest ready hart, and appends its line.
    #[inline(always)]
    fn tell(
        &mut self,
        hart: HartId,
        lines: &mut RowLines,
        out: &mut Text,
    ) -> Result<bool, JointError>
        requires none { self.old.refused ≡ None }
        requires lowest { choice self.old ≡ Hart hart }
        ensures { Advances self.old result self.new out.old out.new }
    {
        let mut did = Did::blank();
        match self.step_into(hart, &mut did) {
            Err(error) => Err(error),
            Ok(moved) => match write_moved(lines, hart, moved, &did, out) {
                Ok(()) => Ok(true),
                Err(_) => {
                    self.halt();
                    Err(JointError::OutOfMemory)
                }
            },
        }
    }

    // Takes the next step, if none was refused so far.
    #[inline(always)]
    fn go_on(&mut self, lines: &mut RowLines, out: &mut Text) -> Result<bool, JointError>
        requires none { self.old.refused ≡ None }
        ensures { Advances self.old result self.new out.old out.new }
    {
        match self.next() {
            Next::AllDone => Ok(false),
            Next::NoneReady => Err(self.stuck()),
            Next::Hart(hart) => self.tell(hart, lines, out),
        }
    }

    /// Takes the next step of the lowest ready hart, and appends its line, which `lines` writes; `false`
    /// if all harts are done.
    ///
    /// Stuck comes if no hart is ready and not all are done. If the step is refused, its refusal comes.
    /// In both cases there is no line. When out of memory, there is no line either, but the step may be
    /// done. After that, as after any refusal, each step answers the same.
    #[inline(always)]
    pub fn advance(&mut self, lines: &mut RowLines, out: &mut Text) -> Result<bool, JointError>
        ensures { Advances self.old result self.new out.old out.new }
    {
        match self.refusal() {
            Some(refusal) => Err(error_of(refusal)),
            None => self.go_on(lines, out),
        }
    }

    /// Takes all steps, the lowest ready hart's first, and appends their lines, which `lines` writes.
    ///
    /// It ends when all harts are done. The errors are those of `advance`: the lines before them stay, and
    /// a further call appends nothing and answers the same.
    pub fn run_all(&mut self, lines: &mut RowLines, out: &mut Text) -> Result<(), JointError>
        ensures { Runs self.old result self.new out.old out.new }
    {
        runs_go_on();
        runs_end();
        'steps: loop {
            match self.advance(lines, out) {
                Err(error) => return Err(error),
                Ok(more) => {
                    if !more {
                        return Ok(());
                    }
                }
            }
        }
    }
}
