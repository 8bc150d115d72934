//! The command `audit`: whether a log is the file of the run of a list of turns.
ghost use Rattle.std.specs.Prelude.{◌≡◌, false};
ghost use Rattle.run_files.specs.Audits.{is_version2, IsSealed};
ghost use Rattle.log_commands.specs.SaveCounts.{IsMade};
ghost use Rattle.log_commands.specs.Evaluated.{Makes};
ghost use Rattle.log_commands.specs.Texts.{agree_text};
ghost use Rattle.log_commands.specs.Answering.{Answers};
ghost use Rattle.log_commands.specs.Audits.{IsAuditOf, audit_by, roles_of};
ghost use Rattle.log_commands.specs.Outside.{IsOwn, Sends, Always};

use crate::answer::Answer;
use crate::names::Role;
use crate::pairs::{JointReading, read_pair};
use crate::refusal::Refusal;
use crate::send::send;
use bn_outside::Sink;
use run_files::{Verdict, audit_sealed, files_number_their_version, verdicts_are_unique};
use run_model::{Start, TurnError};
use rv_text::Text;
use std::alloc::Global;

// What a recording of this program and input with the settings and the digest of the log begins with. The
// log's records are dropped.
fn start_of(reading: JointReading, input: Vec<u8>) -> Start
    ensures image { result.image ≡ reading.image }
    ensures settings { result.settings ≡ reading.log.head.settings }
    ensures digest { result.digest ≡ reading.log.head.digest }
    ensures input { result.input.items ≡ input.items }
{
    let head = *reading.log.head();
    let digest = head.digest;
    Start {
        image: reading.image,
        settings: head.settings,
        input,
        digest,
    }
}

// The audit of a log that was read.
fn compare(alloc: Global, start: &Start, book: &[u8], log: &[u8]) -> Result<(), Refusal>
    requires { is_version2 log.now ≡ false → IsSealed log.now }
    ensures is { Makes (λ result. result ≡ audit_by start.now.settings start.now.image start.now.digest start.now.input.items book.now log.now) result }
    ensures own { IsOwn result }
{
    verdicts_are_unique();
    match audit_sealed(alloc, start, book, log) {
        Ok(Verdict::Agree) => Ok(()),
        Ok(Verdict::Differ { at_byte }) => Err(Refusal::FileDiffers { at_byte }),
        Err(TurnError::OutOfMemory) => Err(Refusal::OutOfMemory),
        Err(error) => Err(Refusal::BookRefused(error)),
    }
}

/// Whether a log file is the file of the run of the turns of a book, with the settings that it says and this
/// program file and input, in the log's own version.
pub fn evaluate(
    alloc: Global,
    log: &[u8],
    elf: &[u8],
    book: &[u8],
    input: Vec<u8>,
) -> Result<Answer, Refusal>
    ensures { Answers IsMade (λ names. IsAuditOf names log.now elf.now book.now input.items) result }
{
    files_number_their_version();
    let pair = read_pair(alloc, log, elf)?;
    let start = start_of(pair, input);
    compare(alloc, &start, book, log)?;
    Ok(Answer::Agreed)
}

const READS: &[Role] = &[Role::Log, Role::Elf, Role::Book];

const READS_INPUT: &[Role] = &[Role::Log, Role::Elf, Role::Book, Role::Input];

/// What is loaded, in this order.
pub fn roles_of(has_input: bool) -> &'static [Role]
    ensures { result.now ≡ roles_of has_input }
{
    if has_input { READS_INPUT } else { READS }
}

/// Sends the line of a log that agrees.
#[tactic(auto, unfolding(crate::specs::Texts::agree_text))]
pub fn send_agreement<O: Sink>(alloc: Global, out: &mut O) -> Result<(), Refusal>
    ensures { Sends agree_text Always (O.stream out.old) (O.stream out.new) result }
{
    let mut text = Text::new(alloc);
    text.push_str("agree\n")?;
    send(out, &text)
}
