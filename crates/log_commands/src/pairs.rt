//! A log and the program that it was recorded of.
ghost use Rattle.std.specs.Prelude.{◌≡◌};
ghost use Rattle.log_commands.specs.Common.{bytes_eq, sha256};
ghost use Rattle.log_commands.specs.Evaluated.{Makes, IsPairOfBytes, where_same};
ghost use Rattle.log_commands.specs.Outside.{IsOwn};
ghost use Rattle.log_commands.specs.PairAnswers.{LoadsPair};
ghost use Rattle.log_commands.specs.Pairs.{pair_roles};

use crate::answer::{digest_of, load_program, read_log};
use crate::inputs::load_inputs;
use crate::names::{Names, Role};
use crate::refusal::Refusal;
use bn_base::Image;
use bn_outside::Store;
use log_order::KeptLog;
use std::alloc::Global;

/// A log to be replayed jointly, with its program.
#[derive(Drop)]
pub struct JointReading {
    pub image: Image,
    pub log: KeptLog,
}

// A log with a program file, which has to be the one that it was recorded of.
fn pair_by(alloc: Global, elf: &[u8], log: KeptLog) -> Result<JointReading, Refusal>
    ensures is { Makes (λ result. result ≡ where_same (bytes_eq (sha256 elf.now) log.head.digest) elf.now log) result }
    ensures own { IsOwn result }
{
    let found = digest_of(elf);
    let head = *log.head();
    if found != head.digest {
        return Err(Refusal::ProgramDiffers {
            kept: head.digest,
            found,
        });
    }
    let image = load_program(alloc, elf, &head.settings)?;
    Ok(JointReading { image, log })
}

/// A log file with a program file, by their bytes: the log is read, the program's digest compared with the
/// one in the log, and the program loaded with the log's settings.
pub fn read_pair(alloc: Global, log: &[u8], elf: &[u8]) -> Result<JointReading, Refusal>
    ensures is { Makes (IsPairOfBytes log.now elf.now) result }
    ensures own { IsOwn result }
{
    let log = read_log(alloc, log)?;
    pair_by(alloc, elf, log)
}

const READS: &[Role] = &[Role::Log, Role::Elf];

// What is loaded, in this order.
fn pair_roles() -> &'static [Role]
    ensures { result.now ≡ pair_roles }
{
    READS
}

/// Loads a log and a program, LOG first, and reads them.
pub fn load_pair<S: Store>(
    alloc: Global,
    names: &Names,
    files: &mut S,
) -> Result<JointReading, Refusal>
    ensures { LoadsPair names.now S.note (S.stored files.old) (S.stored files.new) result }
{
    let inputs = load_inputs(alloc, names, pair_roles(), files)?;
    read_pair(alloc, &inputs.log, &inputs.elf)
}
