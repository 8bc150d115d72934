//! Testing the blocks of a file of version 2: they are a log's, or have a first fault.
ghost use Rattle.std.specs.Prelude.{◌≡◌, ◌≤◌, ◌+◌, List, None, length, MatchResult, IfOk, IfErr};
ghost use Rattle.log_blocks.specs.Counts.{CountsBlocks, TestsBlocks, TestsRead};
ghost use Rattle.log_blocks.specs.Fields.{settings_in, size_in, head_digest, blocks_in};
ghost use Rattle.log_blocks.specs.Faults.{head_fault};
ghost use Rattle.log_blocks.specs.File.{IsRecordsFault, IsSecondRefusal};
ghost use Rattle.log_blocks.specs.Pieces.{Piece, gathered};
ghost use Rattle.log_blocks.specs.Walks.{AreKept, HasWalked};

use crate::damage::Damage;
use crate::gathering::{first_wrong, gather};
use crate::head::{HEAD_SIZE, checked_settings, head_digest, program_in};
use crate::walking::{Walk, walk_back};
use bn_base::Settings;
use le_numbers::laws::{numbers_have_their_width, read_numbers_are_written};
use le_numbers::{read_u32, read_u64};
use log_file::head::tail;
use log_file::offsets::{DROPPED2, N2};
use log_file::{FileError, LogCounts, tally_of};
use log_record::Head;
use log_record::laws::tags_tell_sizes;
use std::alloc::Global;

/// What a log's file has: the head, the bytes of the records, and what is counted of these.
#[derive(Drop)]
pub struct Tested {
    pub head: Head,
    pub records: Vec<u8>,
    pub counts: LogCounts,
}

// What is counted of the records of the blocks that a walk back over the bytes after a head kept, given
// the records' bytes.
fn counts_along(
    head: &Head,
    dropped: u64,
    bytes: &[u8],
    walk: &Walk,
    records: &[u8],
) -> Result<LogCounts, Damage>
    requires laid { (pieces : List Piece) × AreKept bytes.now walk.now pieces }
    requires bound { walk.now.size ≤ head.now.settings.log_size }
    requires digest { length head.now.digest ≡ 32 }
    requires records { (pieces : List Piece) → AreKept bytes.now walk.now pieces → records.now ≡ gathered pieces }
    ensures { (pieces : List Piece) → AreKept bytes.now walk.now pieces → MatchResult result (CountsBlocks head.now dropped (136 + walk.now.rest) pieces) (IsRecordsFault head.now dropped (136 + walk.now.rest) pieces) }
{
    let _settings = head.settings.raw();
    match tally_of(head.settings.format(), &head.settings, dropped, records) {
        Err(at) => Err(Damage::File(FileError::BadRecord { at })),
        Ok(tally) => match first_wrong(bytes, walk, dropped, records) {
            Some(at) => Err(Damage::BadBlock { at }),
            None => match tally.broken {
                None => Ok(tally.counts),
                Some(found) => Err(Damage::File(FileError::BadOrder {
                    at: found.at,
                    rule: found.rule,
                })),
            },
        },
    }
}

/// What the blocks have that a walk back over the bytes after a head kept.
pub(crate) fn test_blocks(
    alloc: Global,
    head: Head,
    dropped: u64,
    bytes: &[u8],
    walk: &Walk,
) -> Result<Tested, Damage>
    requires laid { (pieces : List Piece) × AreKept bytes.now walk.now pieces }
    requires bound { walk.now.size ≤ head.settings.log_size }
    ensures { (pieces : List Piece) → AreKept bytes.now walk.now pieces → MatchResult result (TestsBlocks head dropped (136 + walk.now.rest) pieces) (IsRecordsFault head dropped (136 + walk.now.rest) pieces) }
{
    let _digest = head.digest;
    let records = gather(alloc, bytes, walk)?;
    match counts_along(&head, dropped, bytes, walk, &records) {
        Ok(counts) => Ok(Tested {
            head,
            records,
            counts,
        }),
        Err(damage) => Err(damage),
    }
}

// The walk over the blocks of a file whose head has no fault, if they are all good and have as many
// bytes of records as the head says. The error is the first that applies.
fn whole_walk(alloc: Global, bytes: &[u8]) -> Result<Walk, Damage>
    requires long { 136 ≤ length bytes.now }
    requires fault { head_fault bytes.now ≡ None }
    ensures walked { IfOk result (λ w. HasWalked (head_digest bytes.now) (size_in bytes.now) (blocks_in bytes.now) w.rest w.size w.sizes.items) }
    ensures all { IfOk result (λ w. w.rest ≡ 0) }
    ensures size { IfOk result (λ w. size_in bytes.now ≡ w.size) }
    ensures refused { IfErr result (IsSecondRefusal bytes.now) }
{
    let said = read_u32(bytes, N2) as usize;
    let (walk, listed) = walk_back(alloc, &head_digest(bytes), said, tail(bytes, HEAD_SIZE));
    if 0 < walk.rest {
        return Err(Damage::BadBlock {
            at: (HEAD_SIZE + walk.rest) as u64,
        });
    }
    if said != walk.size {
        return Err(Damage::File(FileError::LengthDiffers {
            said: said as u64,
            found: walk.size as u64,
        }));
    }
    if !listed {
        return Err(Damage::File(FileError::OutOfMemory));
    }
    Ok(walk)
}

// What a file has whose head has no fault and these settings.
fn test_in(alloc: Global, bytes: &[u8], settings: Settings) -> Result<Tested, Damage>
    requires long { 136 ≤ length bytes.now }
    requires settings { settings ≡ settings_in bytes.now }
    requires fault { head_fault bytes.now ≡ None }
    ensures tested { IfOk result (TestsRead bytes.now) }
    ensures refused { IfErr result (IsSecondRefusal bytes.now) }
{
    read_numbers_are_written();
    numbers_have_their_width();
    tags_tell_sizes();
    let _range = settings.raw();
    let walk = whole_walk(alloc, bytes)?;
    let head = Head {
        settings,
        digest: program_in(bytes),
    };
    let dropped = read_u64(bytes, DROPPED2);
    test_blocks(alloc, head, dropped, tail(bytes, HEAD_SIZE), &walk)
}

/// What a file has. The error is the first that applies.
pub(crate) fn test(alloc: Global, bytes: &[u8]) -> Result<Tested, Damage>
    ensures tested { IfOk result (TestsRead bytes.now) }
    ensures refused { IfErr result (IsSecondRefusal bytes.now) }
{
    match checked_settings(bytes) {
        Err(fault) => Err(Damage::File(fault)),
        Ok(settings) => test_in(alloc, bytes, settings),
    }
}
