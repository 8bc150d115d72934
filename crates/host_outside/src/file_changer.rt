//! The calls that change a file's name or length.
ghost use Rattle.std.specs.Prelude.{◌≡◌, OnOk};
ghost use Rattle.host_outside.specs.Changes.{Names, Empties};

use std::fs::{Files, OpenFile};
use std::{fs, io};

/// What changes the names and the lengths of files, and notes each change that it did as a number, in a way that is its
/// own affair.
// No contract of the library tells what such a call does. So what saves is written for any type that notes them: then its
// contracts can say which it makes.
pub trait FileChanger {
    ghost use Rattle.std.specs.Prelude.{ℕ};
    ghost use Rattle.host_outside.specs.Changes.{ChangeNote};

    /// What it has noted so far.
    ghost noted: { Self → ℕ };

    /// What it has noted after one more change.
    ghost note: { ChangeNote };

    /// Gives the file of a name another one in its place. A file that has that name loses it.
    fn rename(&mut self, from: &str, to: &str) -> io::Result<()>
        ensures { OnOk result (noted self.new ≡ note (noted self.old) (Names from.now to.now)) };

    /// Gives the file of a name a further one, unless something has that name.
    fn link(&mut self, from: &str, to: &str) -> io::Result<()>
        ensures { OnOk result (noted self.new ≡ note (noted self.old) (Names from.now to.now)) };

    /// Takes all bytes from an open file.
    fn empty<F: OpenFile>(&mut self, file: &F) -> io::Result<()>
        ensures { OnOk result (noted self.new ≡ note (noted self.old) Empties) };
}

/// The files of a host. It notes nothing.
#[derive(Drop)]
pub struct HostChanger<'a, R: Files> {
    rt: &'a R,
}

impl<'a, R: Files> HostChanger<'a, R> {
    /// Those of this host.
    pub fn new(rt: &'a R) -> Self {
        HostChanger { rt }
    }
}

impl<'a, R: Files> FileChanger for HostChanger<'a, R> {
    ghost noted = { λ _. 0 };

    ghost note = { λ _ _. 0 };

    fn rename(&mut self, from: &str, to: &str) -> io::Result<()> {
        fs::rename(self.rt, from, to)
    }

    fn link(&mut self, from: &str, to: &str) -> io::Result<()> {
        fs::hard_link(self.rt, from, to)
    }

    fn empty<F: OpenFile>(&mut self, file: &F) -> io::Result<()> {
        file.set_len(0)
    }
}
