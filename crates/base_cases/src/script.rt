// The lines of a script of cases.
use crate::caches::{Event, event_of, print_answers};
use crate::memory::{Step, step_of};
use crate::programs::{loaded, make};
use crate::words::{word, words_of};
use crate::{command_lines, memory, numbers, programs, settings, streams};
use bn_base::Image;
use std::alloc::Global;
use std::io;

/// What the lines so far have made.
#[derive(Drop)]
pub struct Case {
    alloc: Global,
    file: Vec<u8>,
    image: Option<Image>,
    steps: Vec<Step>,
    events: Vec<Event>,
}

impl Case {
    /// What stands before the first line.
    pub fn new(alloc: Global) -> Case {
        Case {
            alloc,
            file: Vec::new(alloc),
            image: None,
            steps: Vec::new(alloc),
            events: Vec::new(alloc),
        }
    }

    // Notes the step of memory that a line says.
    fn note_step(&mut self, verb: &str, words: &[&str]) -> anyhow::Result<()> {
        Ok(self.steps.push(step_of(verb, words))?)
    }

    // Notes the event of caches that a line says.
    fn note_event(&mut self, verb: &str, words: &[&str]) -> anyhow::Result<()> {
        Ok(self.events.push(event_of(verb, words))?)
    }

    // Loads the program of the file, as a line says.
    fn load(&mut self, words: &[&str]) -> anyhow::Result<()> {
        self.image = Some(loaded(self.alloc, &self.file, words)?);
        Ok(())
    }

    // Prints what a line wants to know of the program.
    fn tell_program<R: Print>(&self, rt: &R, verb: &str, words: &[&str]) -> anyhow::Result<()> {
        match &self.image {
            Some(image) => Ok(programs::tell(rt, image, verb, words)?),
            None => Err(anyhow::anyhow!("no program")),
        }
    }

    // Prints what a line wants to know of the program's memory.
    fn tell_memory<R: Print>(&self, rt: &R, verb: &str, words: &[&str]) -> anyhow::Result<()> {
        match &self.image {
            Some(image) => memory::tell(rt, self.alloc, image, &self.steps, verb, words),
            None => Err(anyhow::anyhow!("no program")),
        }
    }

    // Does what a line says, by what it is about.
    fn act<R: Print>(&mut self, rt: &R, verb: &str, words: &[&str]) -> anyhow::Result<()> {
        match verb {
            "room" | "put" => self.note_step(verb, words),
            "touch" | "drop" | "clear" => self.note_event(verb, words),
            "file" | "more" => make(self.alloc, &mut self.file, verb, words),
            "load" => self.load(words),
            "at" | "bounds" | "mapped" | "call" => self.tell_program(rt, verb, words),
            "page" | "word" => self.tell_memory(rt, verb, words),
            "cache" => print_answers(rt, self.alloc, &self.events, words),
            "settings" | "mark" | "fault-mark" | "list" => {
                settings::tell(rt, self.alloc, verb, words)
            }
            "read" | "write4" | "write8" | "push" => numbers::tell(rt, self.alloc, verb, words),
            _ => streams::tell(rt, self.alloc, verb, words),
        }
    }

    // Begins a case, and prints its line.
    fn begin<R: Print>(&mut self, rt: &R, line: &str) -> anyhow::Result<()> {
        self.steps.clear();
        self.events.clear();
        Ok(println!(rt; "{line}")?)
    }

    // Does what the words of a line say.
    fn obey<R: Print>(&mut self, rt: &R, line: &str, words: &[&str]) -> anyhow::Result<()> {
        match word(words, 0) {
            "" | "note" => Ok(()),
            "#" => self.begin(rt, line),
            "words" => command_lines::tell(rt, self.alloc, line),
            verb => self.act(rt, verb, words),
        }
    }

    // Does what a line of the script says.
    fn step<R: Print>(&mut self, rt: &R, line: &str) -> anyhow::Result<()> {
        let words = words_of(self.alloc, line)?;
        self.obey(rt, line, &words)
    }

    /// Does what a line that was read says.
    pub fn take<R: Print>(&mut self, rt: &R, line: io::Result<String>) -> anyhow::Result<()> {
        let line = line?;
        self.step(rt, &line)
    }
}
