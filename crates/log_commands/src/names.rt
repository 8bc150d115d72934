//! The names of a command's files, by what each file is to it.
ghost use Rattle.std.specs.Prelude.{◌≡◌, []};
ghost use Rattle.log_commands.specs.Names.{no_names, name_of};

use std::marker::Model;

/// What a file is to a command.
#[derive(Clone, Copy, Debug, Drop)]
pub enum Role {
    /// The program.
    Elf,
    /// The log that a command reads or saves.
    Log,
    /// The list of a recording's turns.
    Book,
    /// What the program reads as its input.
    Input,
    /// The log that is read, if another is made of it and saved.
    // `Log` is what a command saves or, if it saves none, reads: so what is said of saving a recording's log is
    // said of what `convert` and `salvage` save too.
    Origin,
}

/// The name of the file in each role; empty if the command has none.
#[derive(Drop)]
pub struct Names<'a> {
    pub elf: &'a str,
    pub log: &'a str,
    pub book: &'a str,
    pub input: &'a str,
    pub origin: &'a str,
}

impl<'a> Model for Names<'a> {
    ghost use Rattle.log_commands.specs.Names.{FileNames};

    ghost Value = { FileNames };

    ghost view = { λ n. record { elf = n.elf.now; log = n.log.now; book = n.book.now; input = n.input.now; origin = n.origin.now } };
}

impl<'a> Names<'a> {
    /// The names of no files.
    pub fn none() -> Names<'a>
        ensures { result ≡ no_names }
    {
        Names {
            elf: "",
            log: "",
            book: "",
            input: "",
            origin: "",
        }
    }

    /// The names of a log and a program.
    pub fn of_pair(log: &'a str, elf: &'a str) -> Names<'a>
        ensures { result ≡ record { elf = elf.now; log = log.now; book = []; input = []; origin = [] } }
    {
        Names {
            elf,
            log,
            book: "",
            input: "",
            origin: "",
        }
    }

    /// The name of a log.
    pub fn of_log(log: &'a str) -> Names<'a>
        ensures { result ≡ record { elf = []; log = log.now; book = []; input = []; origin = [] } }
    {
        Names {
            elf: "",
            log,
            book: "",
            input: "",
            origin: "",
        }
    }

    /// The names of a log that is made of another.
    pub fn of_new(origin: &'a str, log: &'a str) -> Names<'a>
        ensures { result ≡ record { elf = []; log = log.now; book = []; input = []; origin = origin.now } }
    {
        Names {
            elf: "",
            log,
            book: "",
            input: "",
            origin,
        }
    }

    /// The name of the file in a role.
    pub fn of(&self, role: Role) -> &'a str
        ensures { result.now ≡ name_of self.now role }
    {
        match role {
            Role::Elf => self.elf,
            Role::Log => self.log,
            Role::Book => self.book,
            Role::Input => self.input,
            Role::Origin => self.origin,
        }
    }
}
