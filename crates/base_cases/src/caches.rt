//! Caches, and what accesses find in them.
ghost use Rattle.std.specs.Prelude.{◌≡◌, ◌<◌, ◌≤◌, ◌+◌, ◌^◌, IfOk};

use crate::words::low;
use bn_base::{RawSettings, Settings};
use first_load_bits::{Cache, Warm};
use std::alloc::Global;
use std::io;

/// An event of caches.
#[derive(Clone, Copy, Drop)]
pub enum Event {
    Touch(u32),
    Drop(u32),
    Clear,
}

/// The event that a line says.
pub fn event_of(verb: &str, words: &[&str]) -> Event {
    let addr = low(words, 1);
    match verb {
        "touch" => Event::Touch(addr),
        "drop" => Event::Drop(addr),
        _ => Event::Clear,
    }
}

// A cache of a geometry.
fn cache(alloc: Global, words: &[&str]) -> anyhow::Result<Cache>
    ensures { IfOk result (λ c. c.steps ≡ 0) }
{
    let mut raw = RawSettings::default();
    raw.sets = low(words, 1) as u64;
    raw.ways = low(words, 2) as u64;
    raw.line = low(words, 3) as u64;
    let settings = Settings::checked(&raw)?;
    Ok(Cache::new(alloc, &settings)?)
}

// What comes of an event; only an access has an answer.
fn answer(cache: &mut Cache, event: Option<&Event>) -> Option<(u32, Warm)>
    requires { cache.old.steps < 2 ^ 42 }
    ensures { cache.new.steps ≤ cache.old.steps + 1 }
{
    match event {
        Some(Event::Touch(addr)) => Some((*addr, cache.touch(*addr))),
        Some(Event::Drop(addr)) => {
            cache.drop_line(*addr);
            None
        }
        Some(Event::Clear) => {
            cache.clear_bits();
            None
        }
        None => None,
    }
}

// Prints what an access found.
fn print_answer<R: Print>(rt: &R, answer: Option<(u32, Warm)>) -> io::Result<()> {
    match answer {
        Some((addr, found)) => println!(rt; "{addr:08x} {found:?}"),
        None => Ok(()),
    }
}

/// Prints what each access finds in the cache of a line, of the first 1,000 events.
pub fn print_answers<R: Print>(
    rt: &R,
    alloc: Global,
    events: &[Event],
    words: &[&str],
) -> anyhow::Result<()> {
    let mut cache = cache(alloc, words)?;
    for place in 0..1000usize {
        let found = answer(&mut cache, events.get(place));
        print_answer(rt, found)?;
    }
    Ok(())
}
