//! The head of a file of version 2, with its own digest: a damage after it leaves it readable.
ghost use Rattle.std.specs.Prelude.{◌≡◌, ◌≤◌, Some, None, length, IfOk, IfErr};
ghost use Rattle.log_blocks.specs.Fields.{settings_in, program_in, head_digest};
ghost use Rattle.log_blocks.specs.Faults.{is_second, later_fault, head_fault};

use crate::sealing::{front, part};
use bn_base::{RawSettings, Settings};
use le_numbers::read_u32;
use log_file::head::{DIGEST_SIZE, MAGIC, copied, digest_of, same, settings_in as first_settings};
use log_file::{FileError, offsets};

/// How many bytes come before the blocks: the head and its digest.
pub const HEAD_SIZE: usize = 136;

/// How many bytes a file of either version has at least.
pub const LEAST_SIZE: usize = 124;

/// The version of a file of sealed blocks.
pub const VERSION: u32 = 2;

fn settings_in(bytes: &[u8]) -> RawSettings
    requires { 136 ≤ length bytes.now }
    ensures { result ≡ settings_in bytes.now }
{
    RawSettings {
        format: read_u32(bytes, offsets::FORMAT) as u64,
        sets2: read_u32(bytes, offsets::SETS2) as u64,
        ways2: read_u32(bytes, offsets::WAYS2) as u64,
        ..first_settings(bytes)
    }
}

/// The digest of the program, which the head has.
pub(crate) fn program_in(bytes: &[u8]) -> [u8; 32]
    requires { 136 ≤ length bytes.now }
    ensures { result ≡ program_in bytes.now }
{
    copied(part(bytes, offsets::PROGRAM2, DIGEST_SIZE))
}

/// The digest of the head.
pub(crate) fn head_digest(bytes: &[u8]) -> [u8; 32]
    requires { 136 ≤ length bytes.now }
    ensures { result ≡ head_digest bytes.now }
{
    digest_of(front(bytes, offsets::DIGEST2))
}

// What is wrong after the settings: how many bytes the records may have, or the head's digest.
fn later_fault(bytes: &[u8], settings: &Settings) -> Option<FileError>
    requires { 136 ≤ length bytes.now }
    ensures { result ≡ later_fault bytes.now settings.now.log_size }
{
    let said = read_u32(bytes, offsets::N2);
    if settings.log_size() < said {
        return Some(FileError::BadHead {
            field: 9,
            value: said as u64,
        });
    }
    let kept = part(bytes, offsets::DIGEST2, DIGEST_SIZE);
    let digest = head_digest(bytes);
    if !same(kept, &digest) {
        return Some(FileError::DigestDiffers {
            kept: copied(kept),
            found: digest,
        });
    }
    None
}

/// Tells whether bytes begin a file of version 2.
#[tactic(auto, unfolding(log_file::specs::Layout::magic))]
pub fn is_second(bytes: &[u8]) -> bool
    ensures { result ≡ is_second bytes.now }
{
    bytes.len() >= LEAST_SIZE
        && same(front(bytes, 8), MAGIC)
        && read_u32(bytes, offsets::VERSION) == VERSION
}

/// The settings that a file's head has, if nothing is wrong with it. The error is the first fault.
#[tactic(auto, unfolding(crate::specs::Faults::head_fault, log_file::specs::Layout::magic))]
pub(crate) fn checked_settings(bytes: &[u8]) -> Result<Settings, FileError>
    ensures ok { IfOk result (λ s. (s ≡ settings_in bytes.now) × (head_fault bytes.now ≡ None)) }
    ensures long { IfOk result (λ s. 136 ≤ length bytes.now) }
    ensures err { IfErr result (λ e. head_fault bytes.now ≡ Some e) }
{
    let length = bytes.len();
    let short = Err(FileError::Short {
        length: length as u64,
    });
    if length < LEAST_SIZE {
        return short;
    }
    if !same(front(bytes, 8), MAGIC) {
        return Err(FileError::BadMagic);
    }
    let version = read_u32(bytes, offsets::VERSION);
    if version != VERSION {
        return Err(FileError::BadVersion {
            found: version as u64,
        });
    }
    if length < HEAD_SIZE {
        return short;
    }
    let settings = match Settings::checked(&settings_in(bytes)) {
        Ok(settings) => settings,
        Err(bad) => {
            return Err(FileError::BadHead {
                field: bad.field as u64,
                value: bad.value,
            });
        }
    };
    match later_fault(bytes, &settings) {
        None => Ok(settings),
        Some(fault) => Err(fault),
    }
}
