//! What is traced before the first turn: each hart's first Header.
ghost use Rattle.std.specs.Prelude.{◌≡◌, ◌≤◌, ◌<◌, ◌^◌, ◌+◌, ◌∷◌, ◌++◌, [], ℕ, List, length, IfOk};
ghost use Rattle.run_model.specs.Runs.{start as first_run, start_state};
ghost use Rattle.run_model.specs.Represents.Plain.{IsTrace, IsTraceFit};
ghost use Rattle.run_model.specs.Represents.First.{AreFirst};

use crate::caches::Caches;
use crate::hart::Hart;
use crate::log::Log;
use crate::records::append_header;
use crate::trace::Trace;
use bn_base::{HartId, HartState, Image, Registers, Settings};
use race_log::Shadow;
use std::alloc::{AllocError, Global};

/// How many bytes of the stacks' region each hart has, from the end of memory down.
const STACK: u32 = 65_536;

/// A hart before the run: it starts at the program's entry, with its number in a0 and the number of
/// harts in a1. In sp it has the end of memory less 65,536 bytes for each hart before it.
pub fn start_state(settings: &Settings, image: &Image, number: HartId) -> HartState
    ensures { result ≡ start_state settings.now image.now number }
{
    let mut contents = [0; 32];
    contents[10] = u32::from(number);
    contents[11] = u32::from(settings.harts());
    contents[2] = image.memory().wrapping_sub(STACK * u32::from(number));
    HartState {
        pc: image.entry(),
        x: Registers::new(contents),
        ic: 0,
    }
}

// The harts before the first turn, and the log with their first Headers.
fn first_harts(
    alloc: Global,
    settings: &Settings,
    image: &Image,
    log: &mut Log,
) -> Result<Vec<Hart>, AllocError>
    requires { (log.old.ring.records ≡ []) × (log.old.ring.dropped ≡ 0) }
    ensures { IfOk result (λ harts. AreFirst settings.now image.now settings.now.harts log.old harts.items log.new) }
{
    let mut harts = Vec::with_capacity(alloc, usize::from(settings.harts()))?;
    for number in 0..settings.harts() {
        append_header(log, number, 0, &start_state(settings, image, number));
        harts.push(Hart::new(number, start_state(settings, image, number)))?;
    }
    Ok(harts)
}

impl Trace {
    /// What is traced before the first turn: each hart has begun its interval 0. The only error is out
    /// of memory.
    pub fn new(alloc: Global, settings: &Settings, image: &Image) -> Result<Trace, AllocError>
        ensures run { IfOk result (λ t. (input : List ℕ) → IsTrace settings.now t (first_run settings.now image.now input)) }
        ensures fits { IfOk result (λ t. IsTraceFit settings.now t 0) }
    {
        let _settings = settings.raw();
        let mut log = Log::new(alloc, settings.log_size() as usize)?;
        let harts = first_harts(alloc, settings, image, &mut log)?;
        let caches = Caches::new(alloc, settings)?;
        let shadow = Shadow::new(alloc, settings)?;
        Ok(Trace {
            harts,
            caches,
            shadow,
            log,
        })
    }
}
