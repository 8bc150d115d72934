//! What a run keeps of a hart: its state, and what its records need of its present interval.
ghost use Rattle.std.specs.Prelude.{◌≡◌, ◌<◌, ◌-◌, ◌^◌, IsTrue};
ghost use Rattle.run_model.specs.Common.{absorbed, is_reply_to};
ghost use Rattle.run_model.specs.Runs.{start_hart};
ghost use Rattle.run_model.specs.Counts.{anew};
ghost use Rattle.run_model.specs.Turn.{budget, hart_after, mark, stopped, dead, skipped_after};
ghost use Rattle.run_model.specs.Represents.InPlace.{ask_here};

use crate::turn_end::TurnEnd;
use bn_base::end_mark::STOPPED;
use bn_base::{EndMark, HartId, HartState, Ic, Settings};
use first_load_bits::Warm;
use rv_meaning::{Ask, Reply, Want, absorb_in_place};

/// How many bytes a Header has.
pub const HEADER_SIZE: u64 = 146;

/// A hart between two turns.
#[derive(Clone, Copy, Drop)]
pub struct Hart {
    /// Its state, as its last served ask left it.
    pub state: HartState,
    /// Whether it can take a turn: neither it nor the run is over.
    pub live: bool,
    /// The number of its present interval, from 0.
    pub number: u64,
    /// How many instructions it had done when that interval began.
    pub begun: Ic,
    /// How many bytes the log had taken, up to that interval's Header and with it.
    pub headed: u64,
    /// How many loading accesses of the interval were skipped since the last logged one.
    pub skipped: u32,
    /// How its last finished interval ended, if one did.
    pub mark: Option<EndMark>,
}

impl Hart {
    /// A hart before its first turn; its Header follows those of the harts before it.
    pub fn new(number: HartId, state: HartState) -> Hart
        ensures { result ≡ start_hart number state }
    {
        Hart {
            state,
            live: true,
            number: 0,
            begun: 0,
            headed: HEADER_SIZE * (u64::from(number) + 1),
            skipped: 0,
            mark: None,
        }
    }

    /// How many instructions it may do before its next cut: as many as are left of its interval, and of its limit.
    #[inline(always)]
    pub fn budget(&self, settings: &Settings) -> u64
        ensures { result ≡ budget settings.now self.now }
    {
        let done = self.state.ic.saturating_sub(self.begun);
        let interval = u64::from(settings.interval()).saturating_sub(done);
        let limit = settings.limit().saturating_sub(self.state.ic);
        interval.min(limit)
    }

    /// The reply to its ask gives its next state.
    pub fn absorb(&mut self, ask: &Ask, reply: Reply)
        requires { IsTrue (is_reply_to ask.now.want reply) }
        ensures { self.new ≡ record self.old { state = absorbed ask.now reply } }
    {
        self.state = ask.state;
        absorb_in_place(&mut self.state, &ask.want, reply);
    }

    /// The reply to what it asks in its present state gives its next state.
    #[inline(always)]
    pub fn absorb_here(&mut self, want: &Want, reply: Reply)
        requires { IsTrue (is_reply_to want.now reply) }
        ensures { self.new ≡ record self.old { state = absorbed (ask_here self.old want.now) reply } }
    {
        absorb_in_place(&mut self.state, want, reply);
    }

    /// Takes in what comes after its turn, its state being the one after the reply; the log took so
    /// many bytes by now.
    #[inline(always)]
    pub fn take(&mut self, next: TurnEnd, skipped: u32, bytes: u64)
        requires { self.old.number < 2 ^ 64 - 1 }
        ensures { self.new ≡ hart_after next self.old.state skipped bytes self.old }
    {
        match next {
            TurnEnd::GoesOn => self.skipped = skipped,
            TurnEnd::NewInterval { reason, value } => {
                self.mark = Some(self.mark_here(reason, value));
                self.number += 1;
                self.begun = self.state.ic;
                self.headed = bytes;
                self.skipped = 0;
            }
            TurnEnd::HartOver { reason, value } | TurnEnd::RunOver { reason, value } => {
                self.mark = Some(self.mark_here(reason, value));
                self.live = false;
                self.skipped = skipped;
            }
        }
    }

    /// The guard ends its interval, and it begins the next one in a state; the log took so many bytes by now.
    pub fn begin_anew(&mut self, state: &HartState, bytes: u64)
        requires { self.old.number < 2 ^ 64 - 1 }
        ensures { self.new ≡ anew state.now bytes self.old }
    {
        self.state = *state;
        self.take(TurnEnd::by_guard(), 0, bytes);
    }

    // A mark at its present count.
    fn mark_here(&self, reason: u8, value: u32) -> EndMark
        ensures { result ≡ mark self.now.state.ic reason value }
    {
        EndMark {
            ic: self.state.ic,
            reason,
            value,
        }
    }

    /// The run's end stops it, if it is live.
    pub fn stop(&mut self)
        ensures { self.new ≡ stopped self.old }
    {
        if self.live {
            self.live = false;
            self.mark = Some(self.mark_here(STOPPED, 0));
        }
    }

    /// It is over, without a mark.
    pub fn end(&mut self)
        ensures { self.new ≡ dead self.old }
    {
        self.live = false;
    }
}

/// How many loading accesses were skipped since the last logged one, after one more: whether its word
/// was warm just before, if there was one.
#[inline(always)]
pub fn skipped_after(load: Option<Warm>, skipped: u32) -> u32
    requires { skipped < 2 ^ 32 - 1 }
    ensures { result ≡ skipped_after load skipped }
{
    match load {
        Some(Warm::Cold) => 0,
        Some(Warm::Warm) => skipped + 1,
        None => skipped,
    }
}
