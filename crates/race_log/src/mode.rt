//! Whether an access reads its words or writes them.
ghost use Rattle.std.specs.Prelude.{◌≡◌};
ghost use Rattle.race_log.specs.Kept.{is_write};

/// What an access does to its words.
#[derive(Clone, Copy)]
pub enum Mode {
    /// It reads them.
    Read,
    /// It writes them, and may read them too.
    Write,
}

impl Mode {
    /// Whether it writes.
    pub fn is_write(self) -> bool
        ensures { result ≡ is_write self }
    {
        match self {
            Mode::Read => false,
            Mode::Write => true,
        }
    }
}
