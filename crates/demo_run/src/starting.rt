//! What a demonstration begins with: its settings, and the program that the number makes.
ghost use Rattle.std.specs.Prelude.{◌≡◌, IfOk};
ghost use Rattle.demo_run.specs.Demonstration.{demo_settings};
ghost use Rattle.demo_run.specs.Starts.{IsStart};

use crate::laws::guests_are_loaded;
use bn_base::{RawSettings, Settings};
use elf_loader::{ElfError, load};
use guest_gen::{Kind, guest};
use run_model::Start;
use sha2::{Digest, Sha256};
use std::alloc::{AllocError, Global};

#[tactic(auto, unfolding(crate::specs::Demonstration::demo_settings))]
fn demo_settings() -> Settings
    ensures { result ≡ demo_settings }
{
    match Settings::checked(&RawSettings {
        harts: 4,
        interval: 10_000,
        limit: 200_000,
        log_size: 1_048_576,
        memory: 1_048_576,
        sets: 16,
        ways: 2,
        line: 4,
        format: 1,
        sets2: 0,
        ways2: 0,
    }) {
        Ok(settings) => settings,
        Err(_) => unreachable!(),
    }
}

/// The program that the number makes, loaded with the settings of the demonstration. The only error is out
/// of memory.
pub fn start_of(alloc: Global, seed: u64) -> Result<Start, AllocError>
    ensures { IfOk result (λ start. IsStart seed start) }
{
    guests_are_loaded();
    let elf = guest(alloc, seed, Kind::Loop)?;
    let settings = demo_settings();
    match load(alloc, &elf, &settings) {
        Ok(image) => Ok(Start {
            image,
            settings,
            input: Vec::new(alloc),
            digest: Sha256::digest(&elf),
        }),
        Err(ElfError::OutOfMemory) => Err(AllocError),
        Err(_) => unreachable!(),
    }
}
