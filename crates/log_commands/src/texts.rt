//! The lines of intervals, logs and recordings; each of their bytes is said in specs/Texts.antt.
ghost use Rattle.std.specs.Prelude.{◌≡◌, ◌++◌, OnOk, codes, decimal};
ghost use Rattle.rv_text.specs.Marks.{mark_text};
ghost use Rattle.log_commands.specs.Marks.{counted};
ghost use Rattle.log_commands.specs.Texts.{begin_text, interval_text, check_line, summary_text};

use bn_base::EndMark;
use log_file::LogCounts;
use rv_text::{Text, write_mark};
use std::alloc::AllocError;

/// Appends a number after a word.
#[tactic(auto, unfolding(crate::specs::Marks::counted))]
pub fn push_counted(text: &mut Text, word: &str, n: u64) -> Result<(), AllocError>
    ensures { OnOk result (text.new ≡ text.old ++ counted word.now n) }
{
    text.push_str(word)?;
    text.push_decimal(n)
}

// Appends two numbers after a word.
fn push_two(text: &mut Text, word: &str, a: u64, b: u64) -> Result<(), AllocError>
    ensures { OnOk result (text.new ≡ text.old ++ (word.now ++ decimal a ++ codes " " ++ decimal b)) }
{
    text.push_str(word)?;
    text.push_decimal(a)?;
    text.push_str(" ")?;
    text.push_decimal(b)
}

// Appends a number between two words.
fn push_between(text: &mut Text, before: &str, n: u64, after: &str) -> Result<(), AllocError>
    ensures { OnOk result (text.new ≡ text.old ++ (before.now ++ decimal n ++ after.now)) }
{
    text.push_str(before)?;
    text.push_decimal(n)?;
    text.push_str(after)
}

// Appends a mark between two words.
fn push_marked(text: &mut Text, before: &str, mark: &EndMark, after: &str) -> Result<(), AllocError>
    ensures { OnOk result (text.new ≡ text.old ++ (before.now ++ mark_text mark.now ++ after.now)) }
{
    text.push_str(before)?;
    write_mark(mark, text)?;
    text.push_str(after)
}

/// Appends the line before the rows of an interval.
#[tactic(auto, unfolding(crate::specs::Texts::begin_text))]
pub fn push_begin(text: &mut Text, hart: u64, interval: u64, ic: u64) -> Result<(), AllocError>
    ensures { OnOk result (text.new ≡ text.old ++ begin_text hart interval ic) }
{
    push_two(text, "interval ", hart, interval)?;
    push_between(text, " from ", ic, "\n")
}

/// Appends the line of an interval of a log.
#[tactic(auto, unfolding(crate::specs::Texts::interval_text))]
pub fn push_interval(
    text: &mut Text,
    hart: u64,
    interval: u64,
    ic: u64,
    mark: &EndMark,
) -> Result<(), AllocError>
    ensures { OnOk result (text.new ≡ text.old ++ interval_text hart interval ic mark.now) }
{
    push_two(text, "", hart, interval)?;
    push_between(text, " ", ic, " ")?;
    push_marked(text, "", mark, "\n")
}

// Appends two numbers, each after a word.
fn push_counts(text: &mut Text, first: &str, a: u64, second: &str, b: u64) -> Result<(), AllocError>
    ensures { OnOk result (text.new ≡ text.old ++ (counted first.now a ++ counted second.now b)) }
{
    push_counted(text, first, a)?;
    push_counted(text, second, b)
}

// Appends two numbers, each after a word, and the end of the line.
fn push_last_counts(
    text: &mut Text,
    first: &str,
    a: u64,
    second: &str,
    b: u64,
) -> Result<(), AllocError>
    ensures { OnOk result (text.new ≡ text.old ++ (counted first.now a ++ counted second.now b ++ codes "\n")) }
{
    push_counted(text, first, a)?;
    push_counted(text, second, b)?;
    text.push_str("\n")
}

/// Appends what `check` prints of a log that passes: a line that begins with `ok`.
#[tactic(auto, unfolding(crate::specs::Texts::check_line))]
pub fn push_check(text: &mut Text, log: &LogCounts) -> Result<(), AllocError>
    ensures { OnOk result (text.new ≡ text.old ++ check_line log.now) }
{
    push_counts(
        text,
        "ok records ",
        log.records,
        " intervals ",
        log.intervals,
    )?;
    push_last_counts(text, " dropped ", log.dropped, " bytes ", log.bytes)
}

/// What is counted of a recording, and how it ended.
#[derive(Clone, Copy, Drop)]
pub struct RunCounts {
    pub turns: u64,
    pub instructions: u128,
    pub dropped: u64,
    pub kept: u64,
}

// Appends how a recording ended, and the end of the line.
fn push_ending(text: &mut Text, ending: &str) -> Result<(), AllocError>
    ensures { OnOk result (text.new ≡ text.old ++ (codes " end " ++ ending.now ++ codes "\n")) }
{
    text.push_str(" end ")?;
    text.push_str(ending)?;
    text.push_str("\n")
}

// Appends the second half of the line of a recording.
fn push_kept(text: &mut Text, run: &RunCounts, ending: &str) -> Result<(), AllocError>
    ensures { OnOk result (text.new ≡ text.old ++ (counted (codes " dropped ") run.now.dropped ++ counted (codes " kept ") run.now.kept ++ (codes " end " ++ ending.now ++ codes "\n"))) }
{
    push_counted(text, " dropped ", run.dropped)?;
    push_counted(text, " kept ", run.kept)?;
    push_ending(text, ending)
}

// Appends a number of up to 128 bits after a word.
#[tactic(auto, unfolding(crate::specs::Marks::counted))]
fn push_great(text: &mut Text, word: &str, n: u128) -> Result<(), AllocError>
    ensures { OnOk result (text.new ≡ text.old ++ counted word.now n) }
{
    text.push_str(word)?;
    let mut buffer = itoa::Buffer::new();
    text.push_str(buffer.format(n))
}

// Appends the first half of the line of a recording. By its type the number of instructions may pass
// 64 bits.
fn push_done(text: &mut Text, run: &RunCounts) -> Result<(), AllocError>
    ensures { OnOk result (text.new ≡ text.old ++ (counted (codes "bugnet: turns ") run.now.turns ++ counted (codes " instructions ") run.now.instructions)) }
{
    push_counted(text, "bugnet: turns ", run.turns)?;
    push_great(text, " instructions ", run.instructions)
}

/// Appends the line of a recording.
#[tactic(auto, using(crate::proofs::Prints::joined), unfolding(crate::specs::Texts::summary_text))]
pub fn push_summary(text: &mut Text, run: &RunCounts, ending: &str) -> Result<(), AllocError>
    ensures { OnOk result (text.new ≡ text.old ++ summary_text run.now.turns run.now.instructions run.now.dropped run.now.kept ending.now) }
{
    push_done(text, run)?;
    push_kept(text, run, ending)
}
