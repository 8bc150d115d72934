//! What is counted of a demonstration, and its text.
ghost use Rattle.std.specs.Prelude.{◌≡◌, ◌++◌, OnOk, codes, length, decimal};
ghost use Rattle.hex.specs.Hex.{encode_lower};
ghost use Rattle.demo_run.specs.Texts.{counted, two_counts, seed_line, turns_line, records_line, intervals_line, memory_line, figures_text};

use rv_text::Text;
use std::alloc::AllocError;

/// What is counted of a demonstration.
#[derive(Clone, Copy, Drop)]
pub struct Figures {
    /// The number that makes the program and chooses the turns.
    pub seed: u64,
    /// The turns of the run.
    pub turns: u64,
    /// The instructions that all harts did.
    pub instructions: u128,
    /// The records that the log keeps.
    pub records: u64,
    /// The records that were dropped before them.
    pub dropped: u64,
    /// The bytes of the kept records.
    pub bytes: u64,
    /// The intervals of which the log keeps the Header.
    pub intervals: u64,
    /// The rows that the replays of these intervals give, each by itself.
    pub rows: u128,
    /// The words that are known after the joint replay.
    pub words: u64,
    /// The SHA-256 digest (FIPS 180-4) of these words.
    pub digest: [u8; 32],
}

// Appends a word and a number in decimal. A sum of counts may have more than 64 bits.
#[tactic(auto, unfolding(crate::specs::Texts::counted))]
fn push_counted(text: &mut Text, word: &str, n: u128) -> Result<(), AllocError>
    ensures { OnOk result (text.new ≡ text.old ++ counted word.now n) }
{
    text.push_str(word)?;
    let mut buffer = itoa::Buffer::new();
    text.push_str(buffer.format(n))
}

// Appends two numbers, each after a word, and the end of the line.
#[tactic(auto, unfolding(crate::specs::Texts::two_counts))]
fn push_two(text: &mut Text, first: &str, a: u128, second: &str, b: u128) -> Result<(), AllocError>
    ensures { OnOk result (text.new ≡ text.old ++ two_counts first.now a second.now b) }
{
    push_counted(text, first, a)?;
    push_counted(text, second, b)?;
    text.push_str("\n")
}

// Appends a digest, two hexadecimal digits a byte.
fn push_digest(text: &mut Text, digest: &[u8; 32]) -> Result<(), AllocError>
    ensures { OnOk result (text.new ≡ text.old ++ encode_lower digest.now) }
{
    let mut digits = [0u8; 64];
    match hex::encode_to_slice(digest.as_slice(), &mut digits) {
        Ok(()) => text.push_bytes(&digits),
        Err(_) => unreachable!(),
    }
}

// Appends the first line.
#[tactic(auto, unfolding(crate::specs::Texts::seed_line))]
fn push_seed(text: &mut Text, figures: &Figures) -> Result<(), AllocError>
    ensures { OnOk result (text.new ≡ text.old ++ seed_line figures.now) }
{
    push_counted(text, "seed ", u128::from(figures.seed))?;
    text.push_str("\n")
}

// Appends the line of the run.
#[tactic(auto, unfolding(crate::specs::Texts::turns_line))]
fn push_turns(text: &mut Text, figures: &Figures) -> Result<(), AllocError>
    ensures { OnOk result (text.new ≡ text.old ++ turns_line figures.now) }
{
    push_two(
        text,
        "turns ",
        u128::from(figures.turns),
        " instructions ",
        figures.instructions,
    )
}

// Appends the line of the log.
#[tactic(auto, unfolding(crate::specs::Texts::records_line))]
fn push_records(text: &mut Text, figures: &Figures) -> Result<(), AllocError>
    ensures { OnOk result (text.new ≡ text.old ++ records_line figures.now) }
{
    push_counted(text, "records ", u128::from(figures.records))?;
    push_two(
        text,
        " dropped ",
        u128::from(figures.dropped),
        " bytes ",
        u128::from(figures.bytes),
    )
}

// Appends the line of the replays, each interval by itself.
#[tactic(auto, unfolding(crate::specs::Texts::intervals_line))]
fn push_intervals(text: &mut Text, figures: &Figures) -> Result<(), AllocError>
    ensures { OnOk result (text.new ≡ text.old ++ intervals_line figures.now) }
{
    push_two(
        text,
        "intervals ",
        u128::from(figures.intervals),
        " rows ",
        figures.rows,
    )
}

// Appends the line of the joint replay.
#[tactic(auto, unfolding(crate::specs::Texts::memory_line))]
fn push_memory(text: &mut Text, figures: &Figures) -> Result<(), AllocError>
    ensures { OnOk result (text.new ≡ text.old ++ memory_line figures.now) }
{
    push_counted(text, "memory ", u128::from(figures.words))?;
    text.push_str(" words ")?;
    push_digest(text, &figures.digest)?;
    text.push_str("\n")
}

// Appends the first three lines.
fn push_recording(text: &mut Text, figures: &Figures) -> Result<(), AllocError>
    ensures { OnOk result (text.new ≡ text.old ++ (seed_line figures.now ++ turns_line figures.now ++ records_line figures.now)) }
{
    push_seed(text, figures)?;
    push_turns(text, figures)?;
    push_records(text, figures)
}

impl Figures {
    /// Appends the five lines.
    #[tactic(auto, unfolding(crate::specs::Texts::figures_text))]
    pub fn push_lines(&self, text: &mut Text) -> Result<(), AllocError>
        ensures { OnOk result (text.new ≡ text.old ++ figures_text self.now) }
    {
        push_recording(text, self)?;
        push_intervals(text, self)?;
        push_memory(text, self)
    }
}
