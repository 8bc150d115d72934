//! The records' bytes of blocks, in one piece, and whether the blocks are cut as they should be.
ghost use Rattle.std.specs.Prelude.{◌≡◌, ◌≤◌, ◌+◌, ◌==◌, ◌&&◌, not, List, ℕ, length, take, IfOk};
ghost use Rattle.log_blocks.specs.Common.{number_at, flat_map, AllByRecursion, Record, bytes_of, Fits, blocks_of};
ghost use Rattle.log_blocks.specs.Pieces.{Piece, gathered};
ghost use Rattle.log_blocks.specs.Walks.{AreKept, FindsWrong};
ghost use Rattle.log_blocks.specs.Cuts.{first_wrong};

use crate::cutting::next_block;
use crate::head::HEAD_SIZE;
use crate::sealing::{SEAL_SIZE, front, part};
use crate::walking::Walk;
use le_numbers::read_u64;
use log_file::head::tail;
use std::alloc::{AllocError, Global};

/// The records' bytes of the blocks that a walk back over some bytes kept. The only error is out of
/// memory.
// They are gathered before they are split: so a record over a border of blocks is no bad record, but a block that
// is cut otherwise.
pub(crate) fn gather(alloc: Global, bytes: &[u8], walk: &Walk) -> Result<Vec<u8>, AllocError>
    requires { (pieces : List Piece) × AreKept bytes.now walk.now pieces }
    ensures { (pieces : List Piece) → AreKept bytes.now walk.now pieces → IfOk result (λ v. v.items ≡ gathered pieces) }
{
    let _length = bytes.len();
    let mut out = Vec::with_capacity(alloc, walk.size)?;
    let mut at = walk.rest;
    let mut left = walk.sizes.len();
    while left > 0 {
        left -= 1;
        let size = walk.sizes[left];
        out.extend_from_slice(part(bytes, at, size))?;
        at += size + SEAL_SIZE;
    }
    Ok(out)
}

// Whether the block that stands at a place isn't that of so many bytes and with so many records before.
fn is_other(bytes: &[u8], at: usize, size: usize, cut: usize, before: u64) -> bool
    requires { at + size + 48 ≤ length bytes.now }
    ensures { result ≡ not ((cut == size) && (number_at 8 (at + size) (take (at + size + 48) bytes.now) == before)) }
{
    let block = front(bytes, at + size + SEAL_SIZE);
    !(cut == size && read_u64(block, at + size) == before)
}

/// The end, in the file, of the first of the blocks that a walk back kept which isn't cut as their
/// records are, so many records having been given up before them.
pub(crate) fn first_wrong(bytes: &[u8], walk: &Walk, dropped: u64, records: &[u8]) -> Option<u64>
    requires { (pieces : List Piece) × AreKept bytes.now walk.now pieces }
    ensures { FindsWrong bytes.now walk.now dropped records.now result }
{
    let _length = bytes.len();
    let mut at = walk.rest;
    let mut left = walk.sizes.len();
    let mut rest = records;
    let mut before = dropped;
    while left > 0 {
        left -= 1;
        let size = walk.sizes[left];
        let (count, cut) = next_block(rest);
        if is_other(bytes, at, size, cut, before) {
            return Some((HEAD_SIZE + at + size + SEAL_SIZE) as u64);
        }
        at += size + SEAL_SIZE;
        rest = tail(rest, cut);
        before = before.wrapping_add(count as u64);
    }
    None
}
