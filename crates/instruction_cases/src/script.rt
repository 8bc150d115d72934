// The lines of a script of cases.
use crate::files::{loaded, make};
use crate::harts::{asked, hart_of, print_ask};
use crate::programs::{program, two_segments};
use crate::rows::{part_row, print_row};
use crate::texts::{change, print_decoded, print_instr};
use crate::words::{code, low, word, words_of};
use crate::{programs, replies};
use bn_base::Image;
use rv_meaning::{Ask, Want};
use rv_text::Text;
use std::alloc::Global;
use std::io;

/// What the lines so far have made.
#[derive(Drop)]
pub struct Case {
    alloc: Global,
    text: Text,
    code: Vec<u32>,
    image: Option<Image>,
    file: Vec<u8>,
    ask: Ask,
}

impl Case {
    /// What stands before the first line.
    pub fn new(alloc: Global) -> Case {
        Case {
            alloc,
            text: Text::new(alloc),
            code: Vec::new(alloc),
            image: None,
            file: Vec::new(alloc),
            ask: Ask {
                state: hart_of(&[], 0),
                want: Want::Cut,
            },
        }
    }

    // Makes the program of a line's words.
    fn make_program(&mut self, words: &[&str]) -> anyhow::Result<()> {
        self.code = code(self.alloc, words)?;
        self.image = Some(program(self.alloc, self.code.clone()?)?);
        Ok(())
    }

    // Gives the program a second segment of a line's words.
    fn add_segment(&mut self, words: &[&str]) -> anyhow::Result<()> {
        let others = code(self.alloc, words)?;
        self.image = Some(two_segments(self.alloc, self.code.clone()?, others)?);
        Ok(())
    }

    // Loads the file as a line says.
    fn load<R: Print>(&mut self, rt: &R, verb: &str, words: &[&str]) -> anyhow::Result<()> {
        match loaded(self.alloc, &self.file, verb, words)? {
            Ok(image) => {
                self.image = Some(image);
                Ok(println!(rt; "loaded")?)
            }
            Err(error) => Ok(println!(rt; "{error:?}: {error}")?),
        }
    }

    // Makes the file that a line says.
    fn make<R: Print>(&mut self, rt: &R, verb: &str, words: &[&str]) -> anyhow::Result<()> {
        make(self.alloc, &mut self.file, verb, words)?;
        Ok(println!(rt; "length {}", self.file.len())?)
    }

    // Has a hart run the program, and prints what it asks.
    fn run<R: Print>(&mut self, rt: &R, verb: &str, words: &[&str]) -> anyhow::Result<()> {
        match &self.image {
            Some(image) => self.ask = asked(self.alloc, image, verb, words)?,
            None => anyhow::bail!("no program"),
        }
        Ok(print_ask(rt, &self.ask)?)
    }

    // Prints what a line wants to know of the program.
    fn tell<R: Print>(&self, rt: &R, verb: &str, words: &[&str]) -> anyhow::Result<()> {
        match &self.image {
            Some(image) => programs::tell(rt, self.alloc, image, verb, words),
            None => Err(anyhow::anyhow!("no program")),
        }
    }

    // Prints what a line wants to know of instructions, or does what it says of the text.
    fn write<R: Print>(&mut self, rt: &R, verb: &str, words: &[&str]) -> anyhow::Result<()> {
        let (first, second) = (low(words, 1), low(words, 2));
        match verb {
            "decode" => Ok(print_decoded(rt, first)?),
            "text" => print_instr(rt, self.alloc, first, second),
            "row" => print_row(rt, self.alloc, &part_row(words)),
            _ => change(rt, &mut self.text, verb, words),
        }
    }

    // Does what a line says of files, of the program, of harts or of texts.
    fn act<R: Print>(&mut self, rt: &R, verb: &str, words: &[&str]) -> anyhow::Result<()> {
        match verb {
            "code" => self.make_program(words),
            "second" => self.add_segment(words),
            "file" | "more" | "guest" => self.make(rt, verb, words),
            "load" | "load-first" => self.load(rt, verb, words),
            "run" | "ahead" => self.run(rt, verb, words),
            "leaves" | "word" | "answer" | "sc-ok" | "sc-failed" | "over" => {
                replies::tell(rt, &self.ask, verb, words)
            }
            "at" | "begins" | "orderly" | "done" | "called" | "faulted" => {
                self.tell(rt, verb, words)
            }
            _ => self.write(rt, verb, words),
        }
    }

    // Begins a case, and prints its line.
    fn begin<R: Print>(&mut self, rt: &R, line: &str) -> anyhow::Result<()> {
        self.text.clear();
        Ok(println!(rt; "{line}")?)
    }

    // Does what the words of a line say.
    fn obey<R: Print>(&mut self, rt: &R, line: &str, words: &[&str]) -> anyhow::Result<()> {
        match word(words, 0) {
            "" | "note" => Ok(()),
            "#" => self.begin(rt, line),
            verb => self.act(rt, verb, words),
        }
    }

    // Does what a line of the script says.
    fn step<R: Print>(&mut self, rt: &R, line: &str) -> anyhow::Result<()> {
        let words = words_of(self.alloc, line)?;
        self.obey(rt, line, &words)
    }

    /// Does what a line that was read says.
    pub fn take<R: Print>(&mut self, rt: &R, line: io::Result<String>) -> anyhow::Result<()> {
        let line = line?;
        self.step(rt, &line)
    }
}
