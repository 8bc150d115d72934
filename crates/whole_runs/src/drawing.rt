//! Which hart takes the next turn of a schedule that a number draws: in bursts, or with a sleeper.
ghost use Rattle.std.specs.Prelude.{◌≡◌, ◌<◌, ◌^◌, ◌&&◌, nat_lt, true, Some, IfSome, OnSome};
ghost use Rattle.whole_runs.specs.Common.{Run, chosen, most_turns, is_live, IsState};
ghost use Rattle.run_model.specs.Runs as runs;
ghost use Rattle.whole_runs.specs.Lists.{live_without, live_harts_of};
ghost use Rattle.whole_runs.specs.Drawn.{powers, length_of, drawn, current, or_else, taker, after, IsDrawing, IsTaker, IsNext};

use crate::choosing::{choose, count_live, count_without, draw, live_at_without};
use bn_base::HartId;
use bn_outside::{Book, Manner};
use bus_core::Bus;

/// What the next turns are drawn from.
#[derive(Clone, Copy, Drop)]
pub struct Drawing {
    // whose burst it is, or who sleeps
    hart: HartId,
    // for how many turns
    left: u64,
    // the last number drawn
    number: u64,
}

impl Drawing {
    /// Before the first turn.
    pub fn of_number(number: u64) -> Drawing
        ensures { result ≡ record { hart = 0; left = 0; number = number } }
    {
        Drawing {
            hart: 0,
            left: 0,
            number,
        }
    }
}

fn powers(manner: Manner) -> u64
    ensures value { result ≡ powers manner }
    ensures some { 0 < result }
    ensures few { result < 64 }
{
    match manner {
        Manner::Bursts => 7,
        Manner::Sleeper => 10,
    }
}

fn power(exponent: u64) -> u64
    requires { exponent < 64 }
    ensures value { result ≡ 2 ^ exponent }
    ensures some { 0 < result }
{
    2u64.pow(exponent as u32)
}

fn length_of(manner: Manner, second: u64, third: u64) -> u64
    ensures { result ≡ length_of manner second third }
{
    let most = power((second >> 33) % powers(manner));
    1 + (third >> 33) % most
}

// A live hart, perhaps the last one again, and for how many turns.
fn drawn<B: Book>(bus: &Bus<B>, manner: Manner, drawing: Drawing) -> Option<Drawing>
    ensures value { (run : Run) → IsState bus.now run → IsDrawing bus.now.began run (drawn manner (live_harts_of bus.now.began run) drawing) result }
    ensures live { IfSome result (λ d. is_live bus.now d.hart ≡ true) }
    ensures within { IfSome result (λ d. d.hart < bus.now.began.settings.harts) }
    ensures left { OnSome result (bus.now.turns < most_turns bus.now.began.settings) }
{
    let first = draw(drawing.number);
    let second = draw(first);
    let third = draw(second);
    match choose(bus, count_live(bus), first) {
        None => None,
        Some(hart) => Some(Drawing {
            hart,
            left: length_of(manner, second, third),
            number: third,
        }),
    }
}

// Whether a burst or a sleep continues: it has turns left, and its hart is live.
fn goes_on<B: Book>(bus: &Bus<B>, drawing: Drawing) -> bool
    ensures run { (run : Run) → IsState bus.now run → result ≡ (nat_lt 0 drawing.left && runs.is_live bus.now.began.settings run drawing.hart) }
    ensures live { result ≡ true → is_live bus.now drawing.hart ≡ true }
    ensures within { result ≡ true → drawing.hart < bus.now.began.settings.harts }
    ensures left { result ≡ true → bus.now.turns < most_turns bus.now.began.settings }
{
    0 < drawing.left && bus.live(drawing.hart)
}

// Whose burst it is, or who sleeps, at the next turn.
fn current<B: Book>(bus: &Bus<B>, manner: Manner, drawing: Drawing) -> Option<Drawing>
    ensures value { (run : Run) → IsState bus.now run → IsDrawing bus.now.began run (current manner bus.now.began.settings run drawing) result }
    ensures live { IfSome result (λ d. is_live bus.now d.hart ≡ true) }
    ensures within { IfSome result (λ d. d.hart < bus.now.began.settings.harts) }
    ensures left { OnSome result (bus.now.turns < most_turns bus.now.began.settings) }
{
    if goes_on(bus, drawing) {
        return Some(drawing);
    }
    drawn(bus, manner, drawing)
}

// The live hart that a number draws without the sleeper; the sleeper, if no other hart is live.
fn other_than<B: Book>(bus: &Bus<B>, sleeper: HartId, number: u64) -> Option<HartId>
    ensures value { (run : Run) → IsState bus.now run → IsTaker bus.now.began run (chosen number (or_else (live_without bus.now.began run (Some sleeper)) (live_harts_of bus.now.began run))) result }
    ensures live { IfSome result (λ hart. is_live bus.now hart ≡ true) }
    ensures within { IfSome result (λ hart. hart < bus.now.began.settings.harts) }
{
    let count = count_without(bus, Some(sleeper));
    if count == 0 {
        return choose(bus, count_live(bus), number);
    }
    live_at_without(
        bus,
        Some(sleeper),
        ((number >> 33) % u64::from(count)) as u8,
    )
}

fn taker<B: Book>(bus: &Bus<B>, manner: Manner, now: Drawing) -> Option<HartId>
    requires live { is_live bus.now now.hart ≡ true }
    requires within { now.hart < bus.now.began.settings.harts }
    ensures value { (run : Run) → IsState bus.now run → IsTaker bus.now.began run (taker manner bus.now.began.settings run now) result }
    ensures live { IfSome result (λ hart. is_live bus.now hart ≡ true) }
    ensures within { IfSome result (λ hart. hart < bus.now.began.settings.harts) }
{
    match manner {
        Manner::Bursts => Some(now.hart),
        Manner::Sleeper => other_than(bus, now.hart, draw(now.number)),
    }
}

// What is drawn from after the turn.
fn after(manner: Manner, now: Drawing) -> Drawing
    ensures { result ≡ after manner now }
{
    let number = match manner {
        Manner::Bursts => now.number,
        Manner::Sleeper => draw(now.number),
    };
    Drawing {
        hart: now.hart,
        left: now.left.saturating_sub(1),
        number,
    }
}

/// A turn that is drawn.
#[derive(Clone, Copy, Drop)]
pub struct DrawnTurn {
    /// The hart that takes it.
    pub hart: HartId,
    /// What the turns after it are drawn from.
    pub after: Drawing,
}

/// The next turn; none if no hart is live.
pub fn next_turn<B: Book>(bus: &Bus<B>, manner: Manner, drawing: Drawing) -> Option<DrawnTurn>
    ensures value { (run : Run) → IsState bus.now run → IsNext manner bus.now.began run drawing result }
    ensures live { IfSome result (λ turn. is_live bus.now turn.hart ≡ true) }
    ensures within { IfSome result (λ turn. turn.hart < bus.now.began.settings.harts) }
    ensures left { OnSome result (bus.now.turns < most_turns bus.now.began.settings) }
{
    match current(bus, manner, drawing) {
        None => None,
        Some(now) => match taker(bus, manner, now) {
            None => None,
            Some(hart) => Some(DrawnTurn {
                hart,
                after: after(manner, now),
            }),
        },
    }
}
