//! The program on a store whose files stay.
use bn_outside::{Gate, MemorySink, MemorySource, MemoryStore};
use bugnet::run;
use std::alloc::{AllocError, Global};
use std::mem::replace;
use std::sync::Wait;
use std::thread::Threads;

// Puts a word after others.
fn add_word(alloc: Global, words: &mut Vec<String>, word: &str) -> Result<(), AllocError> {
    let word = String::from_str(alloc, word)?;
    words.push(word)?;
    Ok(())
}

// The words of a call, after the program's name.
fn call_words(alloc: Global, words: &[&str]) -> Result<Vec<String>, AllocError> {
    let mut owned = Vec::new(alloc);
    add_word(alloc, &mut owned, "bugnet")?;
    for word in words {
        add_word(alloc, &mut owned, word)?;
    }
    Ok(owned)
}

/// What calls of the program meet and leave.
#[derive(Drop)]
pub struct Surroundings {
    alloc: Global,
    pub files: MemoryStore,
    /// The writes of the next call's out that fail.
    pub failing: Vec<u64>,
    /// The writes of the next call's err that fail.
    pub failing_err: Vec<u64>,
    /// What the next call can read.
    pub keys: Vec<u8>,
    /// The reads of the next call that fail.
    pub failing_keys: Vec<u64>,
    /// What the last call left unread, if it had anything to read.
    pub left: Option<usize>,
    pub out: MemorySink,
    pub err: MemorySink,
}

impl Surroundings {
    /// A machine with no file, whose store fails at these of its calls.
    pub fn new(alloc: Global, failing: Vec<u64>) -> Surroundings {
        Surroundings {
            alloc,
            files: MemoryStore::new(alloc, failing),
            failing: Vec::new(alloc),
            failing_err: Vec::new(alloc),
            keys: Vec::new(alloc),
            failing_keys: Vec::new(alloc),
            left: None,
            out: MemorySink::new(alloc, Vec::new(alloc)),
            err: MemorySink::new(alloc, Vec::new(alloc)),
        }
    }

    /// The bytes of a file; none if it isn't there.
    pub fn bytes(&self, name: &str) -> &[u8] {
        self.files.bytes(name).unwrap_or(&[])
    }

    // What the next call reads.
    fn source(&mut self) -> MemorySource {
        let keys = replace(&mut self.keys, Vec::new(self.alloc));
        let failing = replace(&mut self.failing_keys, Vec::new(self.alloc));
        MemorySource::new(keys, failing)
    }

    // Empties the outputs of the next call, of which writes fail.
    fn clear(&mut self) {
        let failing = replace(&mut self.failing, Vec::new(self.alloc));
        self.out = MemorySink::new(self.alloc, failing);
        let failing = replace(&mut self.failing_err, Vec::new(self.alloc));
        self.err = MemorySink::new(self.alloc, failing);
    }

    // Calls the program with these words, and notes what of its input is left.
    fn call<G: Gate, R: Threads + Wait + Sync>(
        &mut self,
        rt: &R,
        words: &[String],
        gate: &G,
    ) -> u8 {
        let mut input = self.source();
        let some = !input.left().is_empty();
        let status = run(
            rt,
            self.alloc,
            words,
            &mut self.files,
            &mut input,
            &mut self.out,
            &mut self.err,
            gate,
        );
        self.left = if some { Some(input.left().len()) } else { None };
        status
    }

    /// Runs the program, with empty outputs.
    pub fn run<G: Gate, R: Threads + Wait + Sync>(
        &mut self,
        rt: &R,
        words: &[&str],
        gate: &G,
    ) -> Result<u8, AllocError> {
        let words = call_words(self.alloc, words)?;
        self.clear();
        Ok(self.call(rt, &words, gate))
    }
}
