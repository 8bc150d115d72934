//! The files that a command loads before it answers.
ghost use Rattle.std.specs.Prelude.{◌≡◌};
ghost use Rattle.log_commands.specs.Answering.{Fetches, LoadsAll};
ghost use Rattle.log_commands.specs.Inputs.{no_bytes, bytes_of, put, limit_of};

use crate::names::{Names, Role};
use crate::refusal::Refusal;
use bn_outside::{LoadError, Store};
use std::alloc::Global;

/// The most bytes of a program file.
pub const ELF_LIMIT: usize = 67_108_864;

/// The most bytes of a log file.
pub const LOG_LIMIT: usize = 272_629_760;

/// The most bytes of an input.
pub const INPUT_LIMIT: usize = 16_777_216;

/// The most bytes of a list of turns.
pub const BOOK_LIMIT: usize = 1_073_741_824;

/// Loads the file in a role.
pub fn fetch<S: Store>(
    alloc: Global,
    names: &Names,
    role: Role,
    files: &mut S,
) -> Result<Vec<u8>, Refusal>
    ensures { Fetches names.now role S.note (S.stored files.old) (S.stored files.new) result }
{
    match files.load(alloc, names.of(role), limit_of(role)) {
        Ok(bytes) => Ok(bytes),
        Err(LoadError::OutOfMemory) => Err(Refusal::OutOfMemory),
        Err(LoadError::Failed) => Err(Refusal::StoreFailed(role)),
        Err(LoadError::Missing) => Err(Refusal::Missing(role)),
        Err(LoadError::TooLong) => Err(Refusal::TooLong(role)),
    }
}

/// The bytes of a command's files, by their roles; empty if it has no such file.
#[derive(Drop)]
pub struct Inputs {
    pub elf: Vec<u8>,
    pub log: Vec<u8>,
    pub book: Vec<u8>,
    pub input: Vec<u8>,
    pub origin: Vec<u8>,
}

impl Inputs {
    fn none(alloc: Global) -> Inputs
        ensures { bytes_of result ≡ no_bytes }
    {
        Inputs {
            elf: Vec::new(alloc),
            log: Vec::new(alloc),
            book: Vec::new(alloc),
            input: Vec::new(alloc),
            origin: Vec::new(alloc),
        }
    }

    // The bytes of the file in a role.
    fn put(&mut self, role: Role, bytes: Vec<u8>)
        ensures { bytes_of self.new ≡ put (bytes_of self.old) role bytes.items }
    {
        match role {
            Role::Elf => self.elf = bytes,
            Role::Log => self.log = bytes,
            Role::Book => self.book = bytes,
            Role::Input => self.input = bytes,
            Role::Origin => self.origin = bytes,
        }
    }
}

/// The most bytes of the file in a role.
pub fn limit_of(role: Role) -> usize
    ensures { result ≡ limit_of role }
{
    match role {
        Role::Elf => ELF_LIMIT,
        Role::Log | Role::Origin => LOG_LIMIT,
        Role::Book => BOOK_LIMIT,
        Role::Input => INPUT_LIMIT,
    }
}

/// Loads the files of these roles, in this order. The first file that is refused ends it.
pub fn load_inputs<S: Store>(
    alloc: Global,
    names: &Names,
    roles: &[Role],
    files: &mut S,
) -> Result<Inputs, Refusal>
    ensures { LoadsAll names.now roles.now S.note (S.stored files.old) (S.stored files.new) result }
{
    let mut inputs = Inputs::none(alloc);
    for role in roles {
        let bytes = fetch(alloc, names, *role, files)?;
        inputs.put(*role, bytes);
    }
    Ok(inputs)
}
