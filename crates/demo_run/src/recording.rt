//! The recording of a demonstration: the run by the number's turns, its log file and its counts.
ghost use Rattle.std.specs.Prelude.{◌≡◌, IfOk};
ghost use Rattle.demo_run.specs.Demonstration.{count_of, counts_in};
ghost use Rattle.demo_run.specs.Starts.{IsStart, IsRecordedRun};

use bn_base::EndMark;
use bn_outside::LeanBook;
use run_files::saved_file;
use run_model::Start;
use std::alloc::{AllocError, Global};
use whole_runs::run_seeded;

/// A recorded run: its turns, the instructions that all harts did, and its log file.
#[derive(Drop)]
pub struct DemoRecording {
    pub turns: u64,
    pub instructions: u128,
    pub file: Vec<u8>,
}

fn count_of(mark: &Option<EndMark>) -> u64
    ensures { result ≡ count_of mark.now }
{
    match mark {
        Some(mark) => mark.ic,
        None => 0,
    }
}

// The instructions that all harts did: the sum of their last marks' counts.
fn counts_in(marks: &[Option<EndMark>]) -> u128
    ensures { result ≡ counts_in marks.now }
{
    let mut sum = 0;
    for place in 0..marks.len() {
        sum += u128::from(count_of(&marks[place]));
    }
    sum
}

/// Records the run by the turns that the number chooses. No row of it is kept. The only error is out of
/// memory.
pub fn record(alloc: Global, start: &Start, seed: u64) -> Result<DemoRecording, AllocError>
    requires { IsStart seed start.now }
    ensures { IfOk result (λ recorded. IsRecordedRun seed recorded) }
{
    let closed = run_seeded(alloc, start, LeanBook, seed)?;
    Ok(DemoRecording {
        turns: closed.turns,
        instructions: counts_in(&closed.ends),
        file: saved_file(alloc, start, &closed.ring)?,
    })
}
