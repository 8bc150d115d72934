//! Which harts of a run are live, as a set of bits: the race log's sweep takes it so.
ghost use Rattle.std.specs.Prelude.{◌≡◌, ◌<◌, ◌≤◌, ◌+◌, ◌^◌, ℕ, length};
ghost use Rattle.bn_base.specs.declared.settings.TheConstants.{HARTS};
ghost use Rattle.race_log.specs.Sweep.{has_bit};
ghost use Rattle.run_model.specs.Represents.Harts.{hart_in};

use crate::hart::Hart;

// A set of harts below one, with that one if it is live.
fn with_hart(set: u16, number: usize, live: bool) -> u16
    requires number { number < HARTS }
    requires below { set < 2 ^ number }
    ensures own { has_bit result number ≡ live }
    ensures others { (k : ℕ) → k < number → has_bit result k ≡ has_bit set k }
    ensures below { result < 2 ^ (number + 1) }
{
    if live { set | (1 << number) } else { set }
}

/// The set of the live harts: one bit for each, the lowest for hart 0.
pub fn live_set(harts: &[Hart]) -> u16
    requires { length harts.now ≤ HARTS }
    ensures own { (k : ℕ) → k < length harts.now → has_bit result k ≡ (hart_in harts.now k).live }
    ensures below { result < 2 ^ length harts.now }
{
    let mut set = 0u16;
    for number in 0..harts.len() {
        set = with_hart(set, number, harts[number].live);
    }
    set
}
