//! The choosers of turns: a seed, a schedule that a number draws, and a list.
ghost use Rattle.std.specs.Prelude.{◌≡◌, []};
ghost use Rattle.whole_runs.specs.declared.drawing.Drawing.{Drawing};

use crate::chooser::Chooser;
use crate::choosing::{choose, count_after, draw};
use crate::drawing::{Drawing, next_turn};
use bn_base::HartId;
use bn_outside::{Book, Manner};
use bus_core::Bus;

/// The draws after a number, over the live harts.
#[derive(Clone, Copy, Drop)]
pub struct Draws {
    // the last number drawn
    number: u64,
    // how many harts were live before the last turn, and whose it was; 0 before the first
    count: u8,
    last: HartId,
}

impl Draws {
    /// Before the first turn.
    pub fn of_seed(seed: u64) -> Draws
        ensures { result ≡ record { number = seed; count = 0; last = 0 } }
    {
        Draws {
            number: seed,
            count: 0,
            last: 0,
        }
    }
}

impl Chooser for Draws {
    ghost use Rattle.std.specs.Prelude.{true};
    ghost use Rattle.whole_runs.specs.Chosen.{IsCounted};
    ghost use Rattle.whole_runs.specs.Lists.{seeded_after};

    ghost ends = { true };

    ghost fits = { λ s b list. IsCounted b list s.last s.count };

    ghost turns = { λ s b list. seeded_after b list s.number };

    fn next<B: Book>(&mut self, bus: &Bus<B>) -> Option<HartId> {
        self.count = count_after(bus, self.last, self.count);
        self.number = draw(self.number);
        match choose(bus, self.count, self.number) {
            None => None,
            Some(hart) => {
                self.last = hart;
                Some(hart)
            }
        }
    }
}

/// The turns that a number draws in bursts, or with a sleeper.
#[derive(Clone, Copy, Drop)]
pub struct Bursts {
    manner: Manner,
    drawing: Drawing,
}

impl Bursts {
    /// Before the first turn.
    pub fn of_number(manner: Manner, number: u64) -> Bursts
        ensures { result ≡ record { manner = manner; drawing = record { hart = 0; left = 0; number = number } } }
    {
        Bursts {
            manner,
            drawing: Drawing::of_number(number),
        }
    }
}

impl Chooser for Bursts {
    ghost use Rattle.std.specs.Prelude.{true};
    ghost use Rattle.whole_runs.specs.Drawn.{drawn_after};

    ghost ends = { true };

    ghost fits = { λ s b list. Unit {0} };

    ghost turns = { λ s b list. drawn_after s.manner b list s.drawing };

    fn next<B: Book>(&mut self, bus: &Bus<B>) -> Option<HartId> {
        match next_turn(bus, self.manner, self.drawing) {
            None => None,
            Some(turn) => {
                self.drawing = turn.after;
                Some(turn.hart)
            }
        }
    }
}

/// The turns of a list up to the first whose hart isn't live then.
#[derive(Clone, Copy, Drop)]
pub struct GivenTurns<'a> {
    rest: &'a [u8],
}

impl<'a> GivenTurns<'a> {
    /// Before the first turn.
    pub fn of_list(list: &'a [u8]) -> GivenTurns<'a>
        ensures { result.rest ≡ list.entry }
    {
        GivenTurns { rest: list }
    }
}

impl Chooser for GivenTurns<'_> {
    ghost use Rattle.std.specs.Prelude.{false};
    ghost use Rattle.whole_runs.specs.Followed.{legal_prefix_from};
    ghost use Rattle.whole_runs.specs.Lists.{list_run};

    ghost ends = { false };

    ghost fits = { λ s b list. Unit {0} };

    ghost turns = { λ s b list. legal_prefix_from b.settings b.image (list_run b list) s.rest.now };

    fn next<B: Book>(&mut self, bus: &Bus<B>) -> Option<HartId> {
        match self.rest.split_first() {
            None => None,
            Some((hart, rest)) => {
                if !bus.live(*hart) {
                    return None;
                }
                self.rest = rest;
                Some(*hart)
            }
        }
    }
}
