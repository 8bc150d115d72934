// The lines of a script of cases.
use crate::building::make;
use crate::files::Files;
use crate::logs::tell;
use crate::reports::report;
use crate::words::{code, rest, word, words_of};
use std::alloc::Global;
use std::io;

/// What a case has made so far.
#[derive(Drop)]
pub struct Case {
    alloc: Global,
    files: Files,
    code: Vec<u32>,
}

impl Case {
    /// What stands before the first case.
    pub fn new(alloc: Global) -> Case {
        Case {
            alloc,
            files: Files::new(alloc),
            code: Vec::new(alloc),
        }
    }

    // Makes of a file what a line says.
    fn make(&mut self, verb: &str, words: &[&str]) -> anyhow::Result<()> {
        let name = word(words, 1);
        let mut file = self.files.bytes(name).to_vec(self.alloc)?;
        make(self.alloc, &self.files, &mut file, verb, words)?;
        Ok(self.files.put(name, &file)?)
    }

    // Prints what a line wants to know, or makes the file that it says.
    fn act<R: Print>(&mut self, rt: &R, verb: &str, words: &[&str]) -> anyhow::Result<()> {
        match verb {
            "replay" | "slice" | "races" => report(rt, self.alloc, &self.files, &self.code, words),
            "read" | "salvage" | "tell" | "count" | "show" => {
                Ok(tell(rt, self.alloc, self.files.bytes(word(words, 1)), verb)?)
            }
            _ => self.make(verb, words),
        }
    }

    // Begins a case, and prints its line.
    fn begin<R: Print>(&mut self, rt: &R, line: &str) -> anyhow::Result<()> {
        self.files.begin();
        self.code.clear();
        Ok(println!(rt; "{line}")?)
    }

    // Takes the program of a line.
    fn load(&mut self, words: &[&str]) -> anyhow::Result<()> {
        self.code = code(self.alloc, rest(words, 1))?;
        Ok(())
    }

    // Does what the words of a line say.
    fn obey<R: Print>(&mut self, rt: &R, line: &str, words: &[&str]) -> anyhow::Result<()> {
        match word(words, 0) {
            "#" => self.begin(rt, line),
            "code" => self.load(words),
            "" | "note" => Ok(()),
            verb => self.act(rt, verb, words),
        }
    }

    /// Does what a line that was read says.
    pub fn take<R: Print>(&mut self, rt: &R, line: io::Result<String>) -> anyhow::Result<()> {
        let line = line?;
        self.step(rt, &line)
    }

    // Does what a line of the script says.
    fn step<R: Print>(&mut self, rt: &R, line: &str) -> anyhow::Result<()> {
        let words = words_of(self.alloc, line)?;
        self.obey(rt, line, &words)
    }
}
