//! Writing a file of version 2: a head, and blocks that are sealed by digests. `specs/` pins each byte.
ghost use Rattle.std.specs.Prelude.{◌≡◌, ◌<◌, ◌≤◌, ◌++◌, ◌^◌, List, ℕ, length, IfOk, OnOk};
ghost use Rattle.log_blocks.specs.Common.{flat_map, AllByRecursion, Record, bytes_of, Fits, content, number_bytes, head_bytes2, file_bytes2, blocks_of, all_sealed};
ghost use Rattle.log_blocks.specs.Pieces.{piece, piece_bytes};

use crate::cutting::next_block;
use crate::head::{HEAD_SIZE, VERSION};
use crate::sealing::{SEAL_SIZE, seal_of};
use bn_base::Settings;
use le_numbers::{push_u32, push_u64};
use log_file::head::{digest_of, tail};
use log_file::writing::{push_counts, push_settings};
use log_order::KeptLog;
use log_record::laws::records_fit_later_versions;
use log_record::{Head, RecordList, write};
use std::alloc::{AllocError, Global};

// Appends the format and the second level.
fn push_second(out: &mut Vec<u8>, settings: &Settings) -> Result<(), AllocError>
    ensures { OnOk result (out.new.items ≡ out.old.items ++ (number_bytes 4 settings.now.format
        ++ number_bytes 4 settings.now.sets2 ++ number_bytes 4 settings.now.ways2)) }
{
    push_u32(out, settings.format() as u32)?;
    push_u32(out, settings.second_sets())?;
    push_u32(out, settings.second_ways())
}

// Appends the head before its digest.
#[tactic(auto, unfolding(log_file::specs::Layout::head_bytes2))]
fn push_head(out: &mut Vec<u8>, head: &Head, dropped: u64, size: u32) -> Result<(), AllocError>
    ensures { OnOk result (out.new.items ≡ out.old.items ++ head_bytes2 head.now dropped size) }
{
    push_settings(out, VERSION, &head.settings)?;
    push_second(out, &head.settings)?;
    push_counts(out, &head.digest, dropped, size)
}

// Appends a block: its records' bytes, how many records are before it, how many bytes after it, and
// its seal.
fn push_block(
    out: &mut Vec<u8>,
    digest: &[u8; 32],
    records: &[u8],
    before: u64,
    left: u32,
) -> Result<(), AllocError>
    requires { length records.now < 2 ^ 32 }
    ensures { OnOk result (out.new.items ≡ out.old.items ++ piece_bytes digest.now (piece records.now before left)) }
{
    let start = out.len();
    out.extend_from_slice(records)?;
    push_u64(out, before)?;
    push_u32(out, left)?;
    push_u32(out, records.len() as u32)?;
    let seal = seal_of(digest, tail(out, start));
    out.extend_from_slice(&seal)
}

// Appends the blocks of records of which so many were given up or are in blocks before.
fn push_blocks(
    out: &mut Vec<u8>,
    digest: &[u8; 32],
    dropped: u64,
    records: &[u8],
) -> Result<(), AllocError>
    requires bound { length records.now < 2 ^ 32 }
    ensures { (format : ℕ) (rs : List Record) → AllByRecursion (Fits format) rs → records.now ≡ flat_map bytes_of rs → OnOk result (out.new.items ≡ out.old.items ++ all_sealed digest.now (blocks_of dropped rs)) }
{
    let mut rest = records;
    let mut before = dropped;
    while !rest.is_empty() {
        let (count, size) = next_block(rest);
        if size == 0 {
            return Ok(());
        }
        let (block, behind) = rest.split_at(size);
        push_block(out, digest, block, before, behind.len() as u32)?;
        before = before.wrapping_add(count as u64);
        rest = behind;
    }
    Ok(())
}

/// The file of version 2 with this head, so many dropped records and these kept ones, at most log-size
/// bytes: whole records, else it is no log's. They are cut into blocks from the first on, each sealed by
/// a digest. The only error is out of memory.
pub fn write_file2(
    alloc: Global,
    head: &Head,
    dropped: u64,
    records: &[u8],
) -> Result<Vec<u8>, AllocError>
    requires { length records.now ≤ head.now.settings.log_size }
    ensures { (format : ℕ) (rs : List Record) → AllByRecursion (Fits format) rs → records.now ≡ flat_map bytes_of rs → IfOk result (λ v. v.items ≡ file_bytes2 (content head.now dropped rs)) }
{
    let _bound = head.settings.log_size();
    let size = records.len();
    let room = HEAD_SIZE + size + SEAL_SIZE * (1 + size / 3950);
    let mut out = Vec::with_capacity(alloc, room)?;
    push_head(&mut out, head, dropped, size as u32)?;
    let digest = digest_of(&out);
    out.extend_from_slice(&digest)?;
    push_blocks(&mut out, &digest, dropped, records)?;
    Ok(out)
}

// Appends the bytes of records.
fn push_records(out: &mut Vec<u8>, records: &RecordList) -> Result<(), AllocError>
    requires { AllByRecursion (Fits 2) records.now }
    ensures { OnOk result (out.new.items ≡ out.old.items ++ flat_map bytes_of records.now) }
{
    for place in 0..records.len() {
        let bytes = write(&records.get(place));
        out.extend_from_slice(bytes.as_slice())?;
    }
    Ok(())
}

/// The file of version 2 of what a log says, whatever the version that it was read of. The only error is
/// out of memory.
pub fn write_log2(alloc: Global, log: &KeptLog) -> Result<Vec<u8>, AllocError>
    ensures { IfOk result (λ v. v.items ≡ file_bytes2 log.now) }
{
    records_fit_later_versions();
    let mut records = Vec::new(alloc);
    push_records(&mut records, log.records())?;
    write_file2(alloc, log.head(), log.dropped(), &records)
}
