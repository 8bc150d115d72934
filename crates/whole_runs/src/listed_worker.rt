//! A hart in a thread of its own, whose bus keeps no rows.
ghost use Rattle.std.specs.Prelude.{◌≡◌};

use crate::hart_place::HartPlace;
use crate::listed_bus::{Beginning, ListedBus};
use crate::turn_port::{TurnPort, drive};
use bn_base::{HartId, Settings};
use bn_outside::{Book, Gate};
use rv_meaning::{Ask, DecodedImage, Reply};
use std::alloc::AllocError;
use std::sync::{Mutex, Wait};

/// A bus under its lock, as the port of one hart, which takes what the hart asks next.
#[derive(Drop)]
pub struct ListedPort<'a, J: Beginning, B: Book, R: Wait> {
    rt: &'a R,
    bus: &'a Mutex<ListedBus<J, B>>,
    over: bool,
}

impl<'a, J: Beginning, B: Book, R: Wait> ListedPort<'a, J, B, R> {
    /// The bus as the port of a hart.
    pub fn new(rt: &'a R, bus: &'a Mutex<ListedBus<J, B>>) -> ListedPort<'a, J, B, R> {
        ListedPort {
            rt,
            bus,
            over: false,
        }
    }
}

impl<J: Beginning, B: Book, R: Wait> TurnPort for ListedPort<'_, J, B, R> {
    ghost use Rattle.std.specs.Prelude.{◌≡◌, false, []};
    ghost use Rattle.run_laws.specs.History.{ask_from};
    ghost use Rattle.whole_runs.specs.Taking.{AnswersTurn};

    ghost takes = { λ place ask. ask ≡ ask_from J.began.settings J.began.image place };

    ghost answers = { λ hart ask answered. AnswersTurn J.began hart ask answered };

    ghost tells = { false };

    ghost taken = { λ d. [] };

    ghost over = { λ d. d.over };

    fn turn(
        &mut self,
        hart: HartId,
        place: &HartPlace,
        ask: &Ask,
    ) -> Result<Option<(Reply, bool)>, AllocError> {
        let taken = self.bus.lock(self.rt).take_own(hart, place, ask)?;
        self.over = taken.is_none();
        Ok(taken)
    }
}

/// Runs one hart of a bus under its lock, from its first place until it is over. Its quiet instructions run
/// outside of the lock. Then come the gate's `pass`, one served ask under the lock, and the gate's
/// `served`. The lock takes no ask but the one that the hart makes next.
///
/// The only error is out of memory. The bus is halted then, which no clause can say of what is under a
/// lock.
pub fn work_listed<J: Beginning, B: Book, G: Gate, R: Wait>(
    rt: &R,
    bus: &Mutex<ListedBus<J, B>>,
    hart: HartId,
    code: &DecodedImage,
    settings: &Settings,
    first: HartPlace,
    gate: &G,
) -> Result<(), AllocError>
    requires code { code.now ≡ J.began.image }
    requires settings { settings.now ≡ J.began.settings }
{
    let mut port = ListedPort::new(rt, bus);
    let _last = drive(rt, &mut port, hart, code, settings, first, gate)?;
    Ok(())
}
