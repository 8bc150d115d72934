//! The statuses that the program ends with.
ghost use Rattle.std.specs.Prelude.{◌≡◌};
ghost use Rattle.log_commands.specs.Statuses.{code};

/// What the program ends with.
#[derive(Clone, Copy, Drop)]
pub enum Status {
    /// All is done.
    Done,
    /// The words are no command, a setting is out of range, or two names are one.
    WordsRefused,
    /// The store failed at a name.
    StoreFailed,
    /// The store has no file of a name.
    Missing,
    /// A file has more bytes than its role allows.
    TooLong,
    /// The loader refuses the program.
    ElfRefused,
    /// LOG is no log file.
    LogRefused,
    /// The log was recorded of another program.
    ProgramDiffers,
    /// Out of memory.
    OutOfMemory,
    /// A recording is done, and its run ended in a fault.
    Fault,
    /// A recording is done, and a hart met the limit.
    Limit,
    /// Reading commands failed.
    ReadFailed,
    /// Writing to out or err failed.
    WriteFailed,
    /// The log keeps no such interval.
    NoInterval,
    /// A replay does not do what the log says.
    ReplayStopped,
    /// The audited log is not the file of the run.
    FileDiffers,
    /// The list of turns is not a whole run.
    BookRefused,
    /// A line of commands, or all of them, have too many bytes.
    CommandsTooLong,
    /// Nothing of the log could be salvaged.
    NothingLeft,
    /// There are more races than were asked for.
    TooManyRaces,
    /// The interval has no row of this count.
    NoRow,
}

impl Status {
    /// The number that the process ends with.
    pub fn code(self) -> u8
        ensures { result ≡ code self }
    {
        match self {
            Status::Done => 0,
            Status::WordsRefused => 2,
            Status::StoreFailed => 3,
            Status::Missing => 4,
            Status::TooLong => 5,
            Status::ElfRefused => 6,
            Status::LogRefused => 7,
            Status::ProgramDiffers => 8,
            Status::OutOfMemory => 9,
            Status::Fault => 10,
            Status::Limit => 11,
            Status::ReadFailed => 12,
            Status::WriteFailed => 13,
            Status::NoInterval => 14,
            Status::ReplayStopped => 15,
            Status::FileDiffers => 16,
            Status::BookRefused => 17,
            Status::CommandsTooLong => 18,
            Status::NothingLeft => 19,
            Status::TooManyRaces => 20,
            Status::NoRow => 21,
        }
    }
}
