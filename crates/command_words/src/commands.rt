//! What a command line asks for: one variant for each command, with its arguments.
use bn_base::RawSettings;

/// What a recording is to be.
#[derive(Clone, Copy, Debug)]
pub struct RecordOptions<'a> {
    /// The settings as they were given, in range or not. Those that weren't given have their
    /// defaults.
    pub settings: RawSettings,
    /// The seed of the turns, if there is one.
    pub seed: Option<u64>,
    /// Whether no list of turns is kept.
    pub lean: bool,
    /// The name of the file that the program reads as its input, if there is one.
    pub input: Option<&'a str>,
    /// The name of the program's file.
    pub elf: &'a str,
    /// The name under which the log is saved.
    pub log: &'a str,
    /// The name under which the list of turns is saved.
    pub book: &'a str,
}

/// What a command line asks for.
#[derive(Clone, Copy, Debug)]
pub enum Command<'a> {
    /// Record a run.
    Record(RecordOptions<'a>),
    /// Replay one interval of a hart from a log, with the program's file. The numbers are as they
    /// were given: the log may have no such hart or interval.
    Replay {
        log: &'a str,
        elf: &'a str,
        hart: u64,
        interval: u64,
    },
    /// Replay all intervals that a log keeps together, with the program's file.
    Joint {
        log: &'a str,
        elf: &'a str,
    },
    /// Step through the same replay by commands.
    Debug {
        log: &'a str,
        elf: &'a str,
    },
    /// List the intervals that a log keeps.
    List {
        log: &'a str,
    },
    /// Check that a file is a log.
    Check {
        log: &'a str,
    },
    /// Compare a log with the file of the run by a list of turns, with the program's file and, if
    /// there is one, the name of the file that the program reads as its input.
    Audit {
        log: &'a str,
        elf: &'a str,
        book: &'a str,
        input: Option<&'a str>,
    },
    /// List the races in what a log keeps, at most so many, with the program's file.
    Races {
        log: &'a str,
        elf: &'a str,
        max: u64,
    },
    /// List the rows of an interval that the row of a count depends on, with the program's file. The
    /// numbers are as they were given: the log may have no such hart or interval, or the interval no
    /// such row.
    Slice {
        log: &'a str,
        elf: &'a str,
        hart: u64,
        interval: u64,
        ic: u64,
    },
    /// Save what a log says as a file of version 2.
    Convert {
        log: &'a str,
        new: &'a str,
    },
    /// Save what is undamaged at the end of a log of version 2.
    Salvage {
        log: &'a str,
        new: &'a str,
    },
    /// Record, read back and replay the program that is generated from a number.
    Demo {
        seed: u64,
    },
}
