//! Cutting the bytes of records into blocks.
ghost use Rattle.std.specs.Prelude.{◌≡◌, ◌≤◌, List, ℕ, length};
ghost use Rattle.log_blocks.specs.Common.{flat_map, AllByRecursion, Record, bytes_of, Fits};
ghost use Rattle.log_blocks.specs.Cuts.{IsNext};

use crate::sealing::BLOCK_SIZE;
use log_record::laws::tags_tell_sizes;
use log_record::size;

/// How many of the records whose bytes these are make the first block, and how many bytes these
/// have: as many whole records as have at most 4,096 bytes.
pub(crate) fn next_block(bytes: &[u8]) -> (usize, usize)
    ensures next { (format : ℕ) (rs : List Record) → AllByRecursion (Fits format) rs → bytes.now ≡ flat_map bytes_of rs → IsNext format rs result.0 result.1 }
    ensures within { result.1 ≤ length bytes.now }
    ensures few { result.1 ≤ 4096 }
    ensures fewer { result.0 ≤ result.1 }
{
    tags_tell_sizes();
    let most = bytes.len().min(BLOCK_SIZE);
    let mut count = 0;
    let mut at = 0;
    while at < bytes.len() {
        match size(bytes[at]) {
            None => return (count, at),
            Some(size) => {
                if most < at + size {
                    return (count, at);
                }
                at += size;
                count += 1;
            }
        }
    }
    (count, at)
}
