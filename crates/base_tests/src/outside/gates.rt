//! Gates between harts in threads of their own.

use bn_base::HartId;
use bn_outside::*;
use std::alloc::{AllocError, Global};
use std::sync::Wait;
use std::sync::atomic::{AtomicU64, Ordering};
use std::thread;
use std::thread::Threads;

// Some turns of one hart at any gate. Each turn adds the hart's number as a digit.
fn take_turns<G: Gate>(gate: &G, hart: HartId, turns: u32, digits: &AtomicU64) {
    for _ in 0..turns {
        gate.pass(hart);
        let before = digits.load(Ordering::SeqCst);
        let after = before.wrapping_mul(10).wrapping_add(u64::from(hart));
        digits.store(after, Ordering::SeqCst);
        gate.served(hart);
    }
}

// One turn of one hart at any gate, and how many harts had come to it when it was let pass.
fn come<G: Gate>(gate: &G, hart: HartId, comers: &AtomicU64) -> u64 {
    comers.fetch_add(1, Ordering::SeqCst);
    gate.pass(hart);
    let seen = comers.load(Ordering::SeqCst);
    gate.served(hart);
    seen
}

// The digits of one turn of each of these harts, in this order, at any gate.
fn turns_of<G: Gate>(gate: &G, harts: &[HartId]) -> u64 {
    let digits = AtomicU64::new(0);
    for &hart in harts {
        take_turns(gate, hart, 1, &digits);
    }
    digits.load(Ordering::SeqCst)
}

#[test]
fn an_open_gate_holds_no_hart(rt: HostRuntime) {
    assert!(rt; turns_of(&OpenGate, &[4, 2, 2]) == 422);
}

// Whether each of so many harts in threads of their own was let pass when all had come.
fn pass_together<R: Threads + Wait + Sync>(
    rt: &R,
    alloc: Global,
    gate: &MeetGate,
    harts: u8,
) -> Result<bool, AllocError> {
    let comers = AtomicU64::new(0);
    let seen = thread::map_indices(
        rt,
        alloc,
        usize::from(harts),
        &|hart| { come(gate, hart as u8, &comers) },
    )?;
    Ok(seen.iter().all(|comers| *comers == u64::from(harts)))
}

// Whether so many harts meet before one passes, and any hart passes from then on.
fn meet<R: Threads + Wait + Sync>(rt: &R, alloc: Global, harts: u8) -> Result<bool, AllocError> {
    let gate = MeetGate::new(harts);
    let apart = !gate.met();
    let together = pass_together(rt, alloc, &gate, harts)? && gate.met();
    let later = turns_of(&gate, &[0, 0, 255]) == 255;
    Ok(apart && together && later && gate.met())
}

#[test]
fn harts_meet_before_one_passes(rt: HostRuntime) -> Result<(), AllocError> {
    for harts in [1, 2, 8] {
        let well = meet(&rt, rt.alloc(), harts)?;
        assert!(rt; well, "{harts} harts");
    }
    Ok(())
}

// One pass of a hart, which is counted once it is let pass.
fn pass_counted(gate: &MeetGate, hart: HartId, passed: &AtomicU64) {
    gate.pass(hart);
    passed.fetch_add(1, Ordering::SeqCst);
}

// Waits until a pass is counted, and then lets hart 1 come: whether all had met before it came.
fn come_last(gate: &MeetGate, passed: &AtomicU64) -> bool {
    for _ in 0..10_000_000 {
        if passed.load(Ordering::SeqCst) > 0 {
            break;
        }
        thread::yield_now();
    }
    let met = gate.met();
    gate.pass(1);
    met
}

// Hart 0 comes twice, and hart 1 once one of these was let pass: whether all had met before hart 1 came.
fn come_twice<R: Threads + Wait + Sync>(
    rt: &R,
    alloc: Global,
    gate: &MeetGate,
    passed: &AtomicU64,
) -> Result<bool, AllocError> {
    let met = thread::map_indices(
        rt,
        alloc,
        3,
        &|worker| {
            if worker == 2 {
                return come_last(gate, passed);
            }
            pass_counted(gate, 0, passed);
            false
        },
    )?;
    Ok(met.iter().any(|met| *met))
}

// The same, whether all have met then, and how many passes of hart 0 were counted.
fn twice<R: Threads + Wait + Sync>(rt: &R, alloc: Global) -> Result<(bool, bool, u64), AllocError> {
    let gate = MeetGate::new(2);
    let passed = AtomicU64::new(0);
    let early = come_twice(rt, alloc, &gate, &passed)?;
    Ok((early, gate.met(), passed.load(Ordering::SeqCst)))
}

#[test]
fn a_hart_that_comes_twice_is_one(rt: HostRuntime) -> Result<(), AllocError> {
    let told = twice(&rt, rt.alloc())?;
    assert!(rt; told == (false, true, 2));
    Ok(())
}

// Whether two harts have met when one of them waited too long, and when the other came; the turns' digits.
fn late() -> (bool, bool, u64) {
    let digits = AtomicU64::new(0);
    let gate = MeetGate::with_patience(2, 3);
    take_turns(&gate, 0, 2, &digits);
    let before = gate.met();
    take_turns(&gate, 1, 1, &digits);
    (before, gate.met(), digits.load(Ordering::SeqCst))
}

#[test]
fn harts_that_come_late_have_not_met(rt: HostRuntime) {
    assert!(rt; late() == (false, false, 1));
}

// The digits of two harts' turns in a list's order, those and two turns more, and whether the list was kept.
fn in_order<R: Threads + Wait + Sync>(
    rt: &R,
    alloc: Global,
) -> Result<(u64, u64, bool), AllocError> {
    let gate = ListGate::new(alloc, &[2, 1, 1, 2, 2, 1])?;
    let digits = AtomicU64::new(0);
    thread::join(
        rt,
        || take_turns(&gate, 1, 3, &digits),
        || take_turns(&gate, 2, 3, &digits),
    );
    let listed = digits.load(Ordering::SeqCst);
    take_turns(&gate, 7, 2, &digits);
    Ok((listed, digits.load(Ordering::SeqCst), gate.kept()))
}

#[test]
fn turns_come_in_the_order_of_the_list(rt: HostRuntime) -> Result<(), AllocError> {
    let told = in_order(&rt, rt.alloc())?;
    assert!(rt; told == (211221, 21122177, true));
    Ok(())
}

// Whether a list is kept once hart 2 waited too long, the digits with a turn of hart 1, and whether it is then.
fn out_of_order(alloc: Global) -> Result<(bool, u64, bool), AllocError> {
    let gate = ListGate::with_patience(alloc, &[1, 2], 3)?;
    let digits = AtomicU64::new(0);
    take_turns(&gate, 2, 1, &digits);
    let before = gate.kept();
    take_turns(&gate, 1, 1, &digits);
    Ok((before, digits.load(Ordering::SeqCst), gate.kept()))
}

#[test]
fn a_list_that_a_hart_could_not_wait_for_is_not_kept(rt: HostRuntime) -> Result<(), AllocError> {
    let told = out_of_order(rt.alloc())?;
    assert!(rt; told == (false, 21, false));
    Ok(())
}

// How often one asks for what never comes, in a wait of this patience that runs out.
fn asked(patience: &Patience) -> Option<u64> {
    let asked = AtomicU64::new(0);
    patience.wait(|| {
        asked.fetch_add(1, Ordering::SeqCst);
        false
    });
    if patience.ran_out() {
        Some(asked.load(Ordering::SeqCst))
    } else {
        None
    }
}

#[test]
fn no_wait_yields_once_one_ran_out(rt: HostRuntime) {
    let patience = Patience::new(3);
    let first = asked(&patience);
    let second = asked(&patience);
    assert!(rt; (first, second) == (Some(4), Some(1)));
}
