//! Turns of harts one ask at a time, on a bus and on a plain machine.
use crate::telling::{print_closed, print_end, print_records, print_rows};
use bn_base::{HARTS, HartId, Image};
use bn_outside::Book;
use bus_core::{Bus, Closed};
use run_model::{Plain, Start};
use rv_meaning::{Ask, Want, quiet_run};
use std::alloc::Global;
use std::io;

// Prints the harts that are live.
fn print_live<R: Print, B: Book>(rt: &R, bus: &Bus<B>) -> io::Result<()> {
    print!(rt; "live")?;
    for hart in 0..HARTS as HartId {
        if bus.live(hart) {
            print!(rt; " {hart}")?;
        }
    }
    println!(rt; "")
}

// The ask of a hart that did its quiet instructions, or what it asks in a step that strays.
fn asked(name: &str, mut ask: Ask) -> Ask {
    if name == "stray" {
        ask.want = Want::Store {
            addr: 0x10054,
            width: 4,
            value: 7,
        };
    }
    ask
}

// Has a hart do its quiet instructions, and prints how many it did or what a bus replies then.
fn turn<R: Print, B: Book>(
    rt: &R,
    bus: &mut Bus<B>,
    image: &Image,
    word: &str,
    name: &str,
    hart: HartId,
) -> anyhow::Result<()> {
    if !bus.live(hart) {
        anyhow::bail!("the hart is over");
    }
    let quiet = quiet_run(image, *bus.state(hart), bus.budget(hart));
    match name {
        "ahead" => Ok(println!(rt; "{word} {}", quiet.state.ic)?),
        _ => {
            let (reply, _guarded) = bus.serve(hart, &asked(name, quiet))?;
            Ok(println!(rt; "{word} {reply:?}")?)
        }
    }
}

// Does a step on a bus, and prints the reply, or how many instructions a hart did by itself.
fn step<R: Print, B: Book>(
    rt: &R,
    bus: &mut Bus<B>,
    image: &Image,
    word: &str,
) -> anyhow::Result<()> {
    if word == "halt" {
        bus.halt();
        return Ok(());
    }
    let (name, number) = word.split_once('-').unwrap_or(("turn", word));
    turn(rt, bus, image, word, name, number.parse::<HartId>()?)
}

// Does steps on a bus, and prints what comes of each.
fn do_steps<R: Print, B: Book>(
    rt: &R,
    bus: &mut Bus<B>,
    image: &Image,
    words: &[&str],
) -> anyhow::Result<()> {
    print_live(rt, bus)?;
    for word in words {
        step(rt, bus, image, word)?;
        print_live(rt, bus)?;
    }
    Ok(print_rows(rt, bus.rows())?)
}

// Does steps on a bus, prints what comes of each, and closes it.
fn served<R: Print, B: Book>(
    rt: &R,
    mut bus: Bus<B>,
    image: &Image,
    words: &[&str],
) -> anyhow::Result<Closed<B>> {
    match do_steps(rt, &mut bus, image, words) {
        Ok(()) => Ok(bus.close()),
        Err(error) => Err(error),
    }
}

/// Does steps on a bus, prints what comes of each and what is handed over then, and gives the
/// records.
pub fn run_steps<R: Print, B: Book>(
    rt: &R,
    alloc: Global,
    start: &Start,
    book: B,
    words: &[&str],
) -> anyhow::Result<Vec<u8>> {
    let bus = Bus::new(alloc, start, book)?;
    let closed = served(rt, bus, &start.image, words)?;
    print_closed(rt, alloc, &closed)
}

// Takes turns on a plain machine, and prints after each whether its hart is live.
fn take_turns<R: Print>(rt: &R, plain: &mut Plain, harts: &[HartId]) -> anyhow::Result<()> {
    for hart in harts {
        if !plain.live(*hart) {
            anyhow::bail!("the hart is over");
        }
        plain.turn(*hart)?;
        println!(rt; "{hart} live {}", plain.live(*hart))?;
    }
    Ok(())
}

// Prints what a plain machine has, and gives its records.
fn print_plain<R: Print>(rt: &R, alloc: Global, plain: Plain) -> anyhow::Result<Vec<u8>> {
    for hart in 0..plain.start().settings.harts() {
        print_end(rt, hart, plain.hart(hart).and_then(|hart| hart.mark))?;
    }
    println!(rt; "turns {}", plain.turns())?;
    let records = plain.into_recorded().ring.copy(alloc)?;
    print_records(rt, &records)?;
    Ok(records)
}

// Takes turns on a plain machine that has begun, prints what it has then, and gives the records.
fn play<R: Print>(
    rt: &R,
    alloc: Global,
    mut plain: Plain,
    harts: &[HartId],
) -> anyhow::Result<Vec<u8>> {
    take_turns(rt, &mut plain, harts)?;
    print_plain(rt, alloc, plain)
}

/// Takes turns on a plain machine, prints what it has then, and gives the records.
pub fn run_plain<R: Print>(
    rt: &R,
    alloc: Global,
    start: &Start,
    harts: &[HartId],
) -> anyhow::Result<Vec<u8>> {
    let plain = Plain::new(alloc, start)?;
    play(rt, alloc, plain, harts)
}
