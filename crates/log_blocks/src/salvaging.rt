//! What is salvaged of a damaged file of version 2: the good blocks at its end, a suffix of the log.
ghost use Rattle.std.specs.Prelude.{◌≡◌, ◌≤◌, ◌==◌, ◌&&◌, not, false, List, None, length, IfOk, IfErr};
ghost use Rattle.log_blocks.specs.Fields.{settings_in, size_in, head_digest, blocks_in};
ghost use Rattle.log_blocks.specs.Faults.{head_fault};
ghost use Rattle.log_blocks.specs.Pieces.{Piece};
ghost use Rattle.log_blocks.specs.Walks.{AreKept, HasWalked};
ghost use Rattle.log_blocks.specs.Counts.{TestsSalvaged, RenewsSalvaged};
ghost use Rattle.log_blocks.specs.File.{dropped_before, told, IsSalvaged, IsSalvageRefusal};

use crate::damage::{Damage, SalvageError};
use crate::head::{HEAD_SIZE, checked_settings, head_digest, program_in};
use crate::sealing::{SEAL_SIZE, front};
use crate::testing::{Tested, test_blocks};
use crate::walking::{Walk, walk_back};
use crate::writing::write_file2;
use bn_base::Settings;
use le_numbers::{read_u32, read_u64};
use log_file::head::tail;
use log_file::offsets::{DROPPED2, N2};
use log_file::splitting::list;
use log_file::{FileError, LogCounts};
use log_order::KeptLog;
use log_record::Head;
use std::alloc::Global;

/// A file of version 2 that is made of another, and what its log has.
#[derive(Drop)]
pub struct NewFile {
    /// The file.
    pub bytes: Vec<u8>,
    /// What is counted of its log.
    pub counts: LogCounts,
}

// A damage as a reason why nothing is salvaged.
fn told(damage: Damage) -> SalvageError
    ensures { result ≡ told damage }
{
    match damage {
        Damage::File(FileError::OutOfMemory) => SalvageError::OutOfMemory,
        _ => SalvageError::File(damage),
    }
}

// How many records were given up before the blocks that a walk back kept: what the first of them
// says, or, of none, the head.
fn dropped_before(bytes: &[u8], walk: &Walk, dropped: u64) -> u64
    requires { (pieces : List Piece) × AreKept bytes.now walk.now pieces }
    ensures { (pieces : List Piece) → AreKept bytes.now walk.now pieces → result ≡ dropped_before dropped pieces }
{
    let _length = bytes.len();
    let count = walk.sizes.len();
    if count == 0 {
        return dropped;
    }
    let end = walk.rest + walk.sizes[count - 1];
    read_u64(front(bytes, end + SEAL_SIZE), end)
}

// Whether there should be bytes of records and no block was kept.
fn is_lost(said: usize, walk: &Walk) -> bool
    ensures { result ≡ (not (said == 0) && (length walk.now.sizes.items == 0)) }
{
    said != 0 && walk.sizes.is_empty()
}

// The walk over the last good blocks of a file whose head has no fault.
fn kept_walk(alloc: Global, bytes: &[u8]) -> Result<Walk, SalvageError>
    requires long { 136 ≤ length bytes.now }
    requires fault { head_fault bytes.now ≡ None }
    ensures walked { IfOk result (λ w. HasWalked (head_digest bytes.now) (size_in bytes.now) (blocks_in bytes.now) w.rest w.size w.sizes.items) }
    ensures some { IfOk result (λ w. (not (size_in bytes.now == 0) && (length w.sizes.items == 0)) ≡ false) }
    ensures refused { IfErr result (IsSalvageRefusal bytes.now) }
{
    let said = read_u32(bytes, N2) as usize;
    let (walk, listed) = walk_back(alloc, &head_digest(bytes), said, tail(bytes, HEAD_SIZE));
    if !listed {
        return Err(SalvageError::OutOfMemory);
    }
    if is_lost(said, &walk) {
        return Err(SalvageError::NothingLeft);
    }
    Ok(walk)
}

// What the last good blocks have of a file whose head has no fault and these settings.
fn test_in(alloc: Global, bytes: &[u8], settings: Settings) -> Result<Tested, SalvageError>
    requires long { 136 ≤ length bytes.now }
    requires settings { settings ≡ settings_in bytes.now }
    requires fault { head_fault bytes.now ≡ None }
    ensures tested { IfOk result (TestsSalvaged bytes.now) }
    ensures refused { IfErr result (IsSalvageRefusal bytes.now) }
{
    let _range = settings.raw();
    let walk = kept_walk(alloc, bytes)?;
    let head = Head {
        settings,
        digest: program_in(bytes),
    };
    let blocks = tail(bytes, HEAD_SIZE);
    let dropped = dropped_before(blocks, &walk, read_u64(bytes, DROPPED2));
    match test_blocks(alloc, head, dropped, blocks, &walk) {
        Ok(tested) => Ok(tested),
        Err(damage) => Err(told(damage)),
    }
}

// What the last good blocks of a file have, or why nothing is salvaged.
fn test(alloc: Global, bytes: &[u8]) -> Result<Tested, SalvageError>
    ensures tested { IfOk result (TestsSalvaged bytes.now) }
    ensures refused { IfErr result (IsSalvageRefusal bytes.now) }
{
    match checked_settings(bytes) {
        Err(fault) => Err(SalvageError::File(Damage::File(fault))),
        Ok(settings) => test_in(alloc, bytes, settings),
    }
}

/// The log of the last blocks of a file of version 2, up to the last that is bad: its head must be
/// whole, and is kept. How many records were given up before it is what its first block says. Out of
/// memory comes only if blocks are left, or should have no records.
pub fn salvage(alloc: Global, bytes: &[u8]) -> Result<KeptLog, SalvageError>
    ensures salvaged { IfOk result (IsSalvaged bytes.now) }
    ensures refused { IfErr result (IsSalvageRefusal bytes.now) }
{
    let tested = test(alloc, bytes)?;
    let log = list(alloc, tested.head, tested.counts, &tested.records)?;
    Ok(log)
}

/// The file of version 2 of what `salvage` salvages of a file, and what that log has, without a list of its
/// records: it takes three times as much memory as the records' bytes. It is refused as `salvage` refuses it.
/// A file without damage gives the same bytes again.
pub fn salvage_file(alloc: Global, bytes: &[u8]) -> Result<NewFile, SalvageError>
    ensures renewed { IfOk result (RenewsSalvaged bytes.now) }
    ensures refused { IfErr result (IsSalvageRefusal bytes.now) }
{
    let tested = test(alloc, bytes)?;
    let file = write_file2(alloc, &tested.head, tested.counts.dropped, &tested.records)?;
    Ok(NewFile {
        bytes: file,
        counts: tested.counts,
    })
}
