//! A hart that takes its turns at a port in memory.
ghost use Rattle.std.specs.Prelude.{◌≡◌, ◌≤◌, []};

use bn_base::{Image, Segment, Settings};
use bn_outside::OpenGate;
use rv_meaning::{DecodedImage, Want};
use std::alloc::{AllocError, Global};
use std::sync::Wait;
use std::test::*;
use whole_runs::{HartPlace, MemoryPort, drive};

// The program that loads the word at 00020000 twice and then loops for ever.
fn program(alloc: Global, settings: &Settings) -> Result<Image, AllocError>
    requires { 131072 ≤ settings.now.memory }
{
    let words = Vec::from_array(alloc, [0x00020437, 0x00042283, 0x00042303, 0x0000006f])?;
    let segment = Segment::new(0x10054, words, 4, true, false);
    let segments = Vec::from_array(alloc, [segment])?;
    Ok(Image::new(segments, 0x10054, settings))
}

// Whether the last ask at a port was a load.
fn ends_with_a_load(port: &MemoryPort) -> bool {
    match port.turns().last() {
        Some(row) => matches!(&row.ask.want, Want::Load { .. }),
        None => false,
    }
}

// What a hart did with a program at a port: how many turns it took, registers 5 and 6, and whether its last ask was
// a load.
fn done(
    rt: &impl Wait,
    alloc: Global,
    image: &Image,
    settings: &Settings,
    mut port: MemoryPort,
) -> Result<(usize, u32, u32, bool), AllocError>
    requires { port.turns.items ≡ [] }
{
    let code = DecodedImage::new(alloc, image)?;
    let first = HartPlace::first(settings, image, 0);
    let last = drive(rt, &mut port, 0, &code, settings, first, &OpenGate)?;
    let x = last.state.x.contents();
    Ok((port.turns().len(), x[5], x[6], ends_with_a_load(&port)))
}

// The same of that program, with the two words given.
fn loads(rt: &impl Wait, alloc: Global) -> Result<(usize, u32, u32, bool), AllocError> {
    let settings = Settings::default();
    let image = program(alloc, &settings)?;
    let words = Vec::from_array(alloc, [7, 8])?;
    done(rt, alloc, &image, &settings, MemoryPort::new(alloc, words))
}

#[test]
fn a_hart_takes_the_words_that_its_port_gives(rt: HostRuntime) -> Result<(), AllocError> {
    let told = loads(&rt, rt.alloc())?;
    assert!(rt; told == (2, 7, 8, true));
    Ok(())
}
