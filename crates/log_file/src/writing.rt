//! Writing a file of version 1, and what both versions have in common.
ghost use Rattle.std.specs.Prelude.{◌≡◌, ◌<◌, ◌≤◌, ◌++◌, ◌^◌, length, IfOk, OnOk};
ghost use Rattle.le_numbers.specs.Numbers.{number_bytes};
ghost use Rattle.log_file.specs.Common.{sha256};
ghost use Rattle.log_file.specs.Layout.{magic, settings_bytes, signed_bytes, spelling};

use crate::head::{DIGEST_SIZE, HEAD_SIZE, MAGIC, VERSION, digest_of};
use bn_base::Settings;
use le_numbers::{push_u32, push_u64};
use log_record::Head;
use std::alloc::{AllocError, Global};

// Appends what begins each file, the version, and the settings up to the limit.
#[tactic(auto, unfolding(crate::specs::Layout::magic))]
fn push_first(out: &mut Vec<u8>, version: u32, settings: &Settings) -> Result<(), AllocError>
    ensures { OnOk result (out.new.items ≡ out.old.items ++ (magic ++ number_bytes 4 version
        ++ number_bytes 4 settings.now.harts ++ number_bytes 4 settings.now.interval ++ number_bytes 8 settings.now.limit)) }
{
    out.extend_from_slice(MAGIC)?;
    push_u32(out, version)?;
    push_u32(out, settings.harts() as u32)?;
    push_u32(out, settings.interval())?;
    push_u64(out, settings.limit())
}

// Appends the settings from the log's size on.
fn push_sizes(out: &mut Vec<u8>, settings: &Settings) -> Result<(), AllocError>
    ensures { OnOk result (out.new.items ≡ out.old.items ++ (number_bytes 4 settings.now.log_size ++ number_bytes 4 settings.now.memory
        ++ number_bytes 4 settings.now.sets ++ number_bytes 4 settings.now.ways ++ number_bytes 4 settings.now.line)) }
{
    push_u32(out, settings.log_size())?;
    push_u32(out, settings.memory())?;
    push_u32(out, settings.sets())?;
    push_u32(out, settings.ways())?;
    push_u32(out, settings.line())
}

/// Appends what a file of either version begins with: the magic, the version, and the settings that both
/// versions have. When out of memory, part of it may be there.
#[tactic(auto, unfolding(crate::specs::Layout::settings_bytes))]
pub fn push_settings(out: &mut Vec<u8>, version: u32, settings: &Settings) -> Result<(), AllocError>
    ensures { OnOk result (out.new.items ≡ out.old.items ++ settings_bytes version settings.now) }
{
    push_first(out, version, settings)?;
    push_sizes(out, settings)
}

/// Appends what follows the settings: the program's digest, how many records were given up, and how many
/// bytes the kept ones have. When out of memory, part of it may be there.
pub fn push_counts(
    out: &mut Vec<u8>,
    digest: &[u8; 32],
    dropped: u64,
    size: u32,
) -> Result<(), AllocError>
    ensures { OnOk result (out.new.items ≡ out.old.items ++ (digest.now ++ number_bytes 8 dropped ++ number_bytes 4 size)) }
{
    out.extend_from_slice(digest)?;
    push_u64(out, dropped)?;
    push_u32(out, size)
}

// Appends what comes between the settings and the last digest.
fn push_rest(
    out: &mut Vec<u8>,
    head: &Head,
    dropped: u64,
    front: &[u8],
    back: &[u8],
) -> Result<(), AllocError>
    requires { length (front.now ++ back.now) < 2 ^ 32 }
    ensures { OnOk result (out.new.items ≡ out.old.items
        ++ (head.now.digest ++ number_bytes 8 dropped ++ number_bytes 4 (length (front.now ++ back.now)) ++ (front.now ++ back.now))) }
{
    let size = front.len() + back.len();
    push_counts(out, &head.digest, dropped, size as u32)?;
    out.extend_from_slice(front)?;
    out.extend_from_slice(back)
}

/// The bytes of the file of version 1 with this head and so many dropped records, up to the last digest, for which there is
/// room. The kept ones' bytes come in two pieces, as a ring has them.
#[tactic(auto, unfolding(crate::specs::Layout::signed_bytes))]
pub fn write_unsealed(
    alloc: Global,
    head: &Head,
    dropped: u64,
    front: &[u8],
    back: &[u8],
) -> Result<Vec<u8>, AllocError>
    requires format { head.now.settings.format ≡ 1 }
    requires bound { length (front.now ++ back.now) ≤ head.now.settings.log_size }
    ensures { IfOk result (λ v. v.items ≡ signed_bytes head.now dropped (front.now ++ back.now)) }
{
    // Proves that the size fits.
    let _bound = head.settings.log_size();
    let size = front.len() + back.len();
    let mut out = Vec::with_capacity(alloc, HEAD_SIZE + size + DIGEST_SIZE)?;
    push_settings(&mut out, VERSION, &head.settings)?;
    push_rest(&mut out, head, dropped, front, back)?;
    Ok(out)
}

/// Ends a file of version 1 with the digest of the bytes before.
pub fn seal(out: &mut Vec<u8>) -> Result<(), AllocError>
    ensures { OnOk result (out.new.items ≡ out.old.items ++ sha256 out.old.items) }
{
    let digest = digest_of(out);
    out.extend_from_slice(&digest)
}

/// The bytes of the file of version 1 with this head and so many dropped records. The kept ones' bytes come in two
/// pieces, as a ring has them. Its room is made once.
pub fn write_file(
    alloc: Global,
    head: &Head,
    dropped: u64,
    front: &[u8],
    back: &[u8],
) -> Result<Vec<u8>, AllocError>
    requires format { head.now.settings.format ≡ 1 }
    requires bound { length (front.now ++ back.now) ≤ head.now.settings.log_size }
    ensures { IfOk result (λ v. v.items ≡ spelling head.now dropped (front.now ++ back.now)) }
{
    let mut out = write_unsealed(alloc, head, dropped, front, back)?;
    seal(&mut out)?;
    Ok(out)
}
