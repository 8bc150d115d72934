//! The fields before the records, as both versions have them.
ghost use Rattle.std.specs.Prelude.{◌≡◌, ◌≤◌, ◌+◌, Some, None, drop, length, IfOk, IfErr};
ghost use Rattle.log_file.specs.Common.{bytes_eq, sha256};
ghost use Rattle.log_file.specs.Layout.{settings_in, digest_in};
ghost use Rattle.log_file.specs.Faults.{later_fault, head_fault};

use crate::error::FileError;
use crate::offsets;
use bn_base::{RawSettings, Settings};
use le_numbers::{read_u32, read_u64};
use sha2::{Digest, Sha256};

/// The bytes that begin each file.
pub const MAGIC: &[u8; 8] = b"BUGNETLG";

/// The version of the format.
pub const VERSION: u32 = 1;

/// How many bytes come before the records.
pub const HEAD_SIZE: usize = 92;

/// How many bytes a digest has.
pub const DIGEST_SIZE: usize = 32;

/// The bytes from a place on.
pub fn tail(bytes: &[u8], at: usize) -> &[u8]
    requires { at ≤ length bytes.now }
    ensures { result.now ≡ drop at bytes.now }
{
    &bytes[at..]
}

/// The settings at their places. A file of version 1 has no other format, and no second level.
pub fn settings_in(bytes: &[u8]) -> RawSettings
    requires { 92 ≤ length bytes.now }
    ensures { result ≡ settings_in bytes.now }
{
    RawSettings {
        harts: read_u32(bytes, offsets::HARTS) as u64,
        interval: read_u32(bytes, offsets::INTERVAL) as u64,
        limit: read_u64(bytes, offsets::LIMIT),
        log_size: read_u32(bytes, offsets::LOG_SIZE) as u64,
        memory: read_u32(bytes, offsets::MEMORY) as u64,
        sets: read_u32(bytes, offsets::SETS) as u64,
        ways: read_u32(bytes, offsets::WAYS) as u64,
        line: read_u32(bytes, offsets::LINE) as u64,
        format: 1,
        sets2: 0,
        ways2: 0,
    }
}

/// The digest of the program, which the head has.
pub fn digest_in(bytes: &[u8]) -> [u8; 32]
    requires { 92 ≤ length bytes.now }
    ensures { result ≡ digest_in bytes.now }
{
    copied(&bytes[offsets::PROGRAM..offsets::DROPPED])
}

/// The 32 bytes of a digest.
pub fn copied(bytes: &[u8]) -> [u8; 32]
    requires { length bytes.now ≡ 32 }
    ensures { result ≡ bytes.now }
{
    let mut digest = [0; 32];
    digest.copy_from_slice(bytes);
    digest
}

/// Whether two pieces have the same bytes.
pub fn same(one: &[u8], other: &[u8]) -> bool
    ensures { result ≡ bytes_eq one.now other.now }
{
    one == other
}

/// The SHA-256 digest of some bytes (FIPS 180-4).
pub fn digest_of(bytes: &[u8]) -> [u8; 32]
    ensures { result ≡ sha256 bytes.now }
{
    Sha256::digest(bytes)
}

// What is wrong after the settings: how many bytes the records have, or the last digest.
fn later_fault(signed: &[u8], kept: &[u8], settings: &Settings) -> Option<FileError>
    requires signed { 92 ≤ length signed.now }
    requires kept { length kept.now ≡ 32 }
    ensures { result ≡ later_fault signed.now kept.now settings.now.log_size }
{
    let said = read_u32(signed, offsets::N);
    if settings.log_size() < said {
        return Some(FileError::BadHead {
            field: 9,
            value: said as u64,
        });
    }
    let found = signed.len() - HEAD_SIZE;
    if said as usize != found {
        return Some(FileError::LengthDiffers {
            said: said as u64,
            found: found as u64,
        });
    }
    let digest = digest_of(signed);
    if !same(kept, &digest) {
        return Some(FileError::DigestDiffers {
            kept: copied(kept),
            found: digest,
        });
    }
    None
}

/// The settings that a file's head has, if nothing is wrong with it: `signed` are all bytes of the
/// file but the last 32, which are `kept`. The error is the first fault.
#[tactic(auto, unfolding(crate::specs::Faults::head_fault, crate::specs::Layout::magic))]
pub fn checked_settings(signed: &[u8], kept: &[u8]) -> Result<Settings, FileError>
    requires signed { 92 ≤ length signed.now }
    requires kept { length kept.now ≡ 32 }
    ensures ok { IfOk result (λ s. (s ≡ settings_in signed.now) × (head_fault signed.now kept.now ≡ None)) }
    ensures err { IfErr result (λ e. head_fault signed.now kept.now ≡ Some e) }
{
    if !same(&signed[..8], MAGIC) {
        return Err(FileError::BadMagic);
    }
    let version = read_u32(signed, offsets::VERSION);
    if version != VERSION {
        return Err(FileError::BadVersion {
            found: version as u64,
        });
    }
    let settings = match Settings::checked(&settings_in(signed)) {
        Ok(settings) => settings,
        Err(bad) => {
            return Err(FileError::BadHead {
                field: bad.field as u64,
                value: bad.value,
            });
        }
    };
    match later_fault(signed, kept, &settings) {
        None => Ok(settings),
        Some(fault) => Err(fault),
    }
}
