//! The lines of a script that are about runs below the top call.
ghost use Rattle.std.specs.Prelude.{◌≤◌};

use crate::closed_runs::{by_number, by_turns, with_list};
use crate::serving::{run_plain, run_steps};
use crate::telling::print_bytes;
use crate::words::{code, harts, number, word};
use bn_base::{HartId, Image, RawSettings, Segment, Settings};
use bn_outside::{FullBook, LeanBook};
use run_model::Start;
use std::alloc::{AllocError, Global};
use std::mem::replace;

// The records of a run whose turns a number chooses, with their list or with a book of rows.
fn run_seed<R: Print>(
    rt: &R,
    alloc: Global,
    start: &Start,
    verb: &str,
    words: &[&str],
) -> anyhow::Result<Vec<u8>> {
    let seed = number(words, 0) as u64;
    match verb {
        "seed" => by_number(rt, alloc, start, seed),
        _ => with_list(rt, alloc, start, seed),
    }
}

// The records of a run whose turns are listed.
fn run_list<R: Print>(
    rt: &R,
    alloc: Global,
    start: &Start,
    verb: &str,
    list: &[HartId],
) -> anyhow::Result<Vec<u8>> {
    match verb {
        "plain" => run_plain(rt, alloc, start, list),
        "turns" => by_turns(rt, alloc, start, FullBook::new(alloc), list),
        _ => by_turns(rt, alloc, start, LeanBook, list),
    }
}

// The records of a run whose turns the words of a line list.
fn run_words<R: Print>(
    rt: &R,
    alloc: Global,
    start: &Start,
    verb: &str,
    words: &[&str],
) -> anyhow::Result<Vec<u8>> {
    let list = harts(alloc, words)?;
    run_list(rt, alloc, start, verb, &list)
}

// The records of the run that a line says.
fn run<R: Print>(
    rt: &R,
    alloc: Global,
    start: &Start,
    verb: &str,
    words: &[&str],
) -> anyhow::Result<Vec<u8>> {
    match verb {
        "serve" => run_steps(rt, alloc, start, FullBook::new(alloc), words),
        "serve-lean" => run_steps(rt, alloc, start, LeanBook, words),
        "seed" | "seed-listed" => run_seed(rt, alloc, start, verb, words),
        _ => run_words(rt, alloc, start, verb, words),
    }
}

/// What the runs of a case begin with, and the records of the last two.
#[derive(Drop)]
pub struct Runs {
    alloc: Global,
    code: Vec<u32>,
    input: Vec<u8>,
    raw: RawSettings,
    last: Vec<u8>,
    before: Vec<u8>,
}

impl Runs {
    /// No code and no input, by default settings.
    pub fn new(alloc: Global) -> Runs {
        Runs {
            alloc,
            code: Vec::new(alloc),
            input: Vec::new(alloc),
            raw: RawSettings::default(),
            last: Vec::new(alloc),
            before: Vec::new(alloc),
        }
    }

    // The program. The code stands at 0x10054, and is at most 64 words long.
    fn image(&self, settings: &Settings) -> Result<Image, AllocError>
        requires { 131072 ≤ settings.now.memory }
    {
        let mut words = self.code.to_vec(self.alloc)?;
        words.truncate(64);
        let count = words.len() as u32;
        let segment = Segment::new(0x10054, words, count, true, false);
        let mut segments = Vec::new(self.alloc);
        segments.push(segment)?;
        Ok(Image::new(segments, 0x10054, settings))
    }

    // What a run begins with.
    fn start(&self) -> anyhow::Result<Start> {
        let settings = Settings::checked(&self.raw)?;
        anyhow::ensure!(settings.memory() >= 0x20000, "a small memory");
        let input = self.input.to_vec(self.alloc)?;
        Ok(Start {
            image: self.image(&settings)?,
            settings,
            input,
            digest: [0; 32],
        })
    }

    // Changes a setting as a line says.
    fn set(&mut self, words: &[&str]) -> anyhow::Result<()> {
        let value = number(words, 1) as u64;
        match word(words, 0) {
            "harts" => self.raw.harts = value,
            "interval" => self.raw.interval = value,
            "line" => self.raw.line = value,
            _ => anyhow::bail!("no setting of cases"),
        }
        Ok(())
    }

    // Takes the code of a line.
    fn take_code(&mut self, words: &[&str]) -> anyhow::Result<()> {
        self.code = code(self.alloc, words)?;
        Ok(())
    }

    // Takes the input of a line.
    fn take_input(&mut self, text: &str) -> anyhow::Result<()> {
        self.input = hex::decode(self.alloc, text)?;
        Ok(())
    }

    // Prints bytes of the last run's records, from a place up to another.
    fn show<R: Print>(&self, rt: &R, words: &[&str]) -> anyhow::Result<()> {
        match self.last.get(number(words, 0)..number(words, 1)) {
            Some(bytes) => Ok(print_bytes(rt, bytes)?),
            None => Err(anyhow::anyhow!("no such records")),
        }
    }

    // Prints whether the last two runs have the same records.
    fn compare<R: Print>(&self, rt: &R) -> anyhow::Result<()> {
        Ok(println!(rt; "same {}", self.last == self.before)?)
    }

    /// Does what a line says that is about runs.
    pub fn step<R: Print>(&mut self, rt: &R, verb: &str, words: &[&str]) -> anyhow::Result<()> {
        match verb {
            "code" => self.take_code(words),
            "input" => self.take_input(word(words, 0)),
            "set" => self.set(words),
            "records" => self.show(rt, words),
            "same" => self.compare(rt),
            _ => self.begin(rt, verb, words),
        }
    }

    // The records of the run that a line says.
    fn records<R: Print>(&self, rt: &R, verb: &str, words: &[&str]) -> anyhow::Result<Vec<u8>> {
        let start = self.start()?;
        run(rt, self.alloc, &start, verb, words)
    }

    // Does the run that a line says.
    fn begin<R: Print>(&mut self, rt: &R, verb: &str, words: &[&str]) -> anyhow::Result<()> {
        let records = self.records(rt, verb, words)?;
        self.before = replace(&mut self.last, records);
        Ok(())
    }
}
