//! The walk over the blocks of a file, from its end back.
ghost use Rattle.std.specs.Prelude.{◌≡◌, ◌<◌, ◌≤◌, ◌+◌, ◌^◌, ◌∷◌, ◌++◌, [], true, false, length, IfSome, IfNone};
ghost use Rattle.log_blocks.specs.Pieces.{len_in, left_in, is_sized, is_good};
ghost use Rattle.log_blocks.specs.Walks.{HasSeen};

use crate::sealing::{BLOCK_SIZE, SEAL_SIZE, front, part, seal_of};
use le_numbers::read_u32;
use log_file::head::{DIGEST_SIZE, same, tail};
use log_file::offsets::{LEFT, LEN};
use std::alloc::Global;

/// What a walk back from the end of some bytes found: good blocks, and what stands ahead of them.
#[derive(Drop)]
pub struct Walk {
    /// How many bytes stand ahead of the blocks.
    pub rest: usize,
    /// How many bytes the blocks' records have.
    pub size: usize,
    /// How many bytes each block's records have, the last block first.
    pub sizes: Vec<usize>,
}

fn is_sized(len: usize, said: usize, left: usize, n: usize, whole: usize) -> bool
    requires len { len < 2 ^ 32 }
    requires left { left < 2 ^ 32 }
    ensures { result ≡ is_sized len said left n whole }
{
    1 <= len && len <= BLOCK_SIZE && len + SEAL_SIZE <= whole && said == left && left + len <= n
}

/// How many bytes of records the block has that ends some bytes, if it is good: `left` bytes of
/// records follow it, and the head says that there are `n`.
#[tactic(auto, unfolding(crate::specs::Pieces::is_good))]
pub(crate) fn good_block(digest: &[u8; 32], n: usize, left: usize, bytes: &[u8]) -> Option<usize>
    requires { left < 2 ^ 32 }
    ensures good { IfSome result (λ len. is_good digest.now n left bytes.now ≡ true) }
    ensures len { IfSome result (λ len. len ≡ len_in bytes.now) }
    ensures low { IfSome result (λ len. 1 ≤ len) }
    ensures high { IfSome result (λ len. len ≤ 4096) }
    ensures within { IfSome result (λ len. len + 48 ≤ length bytes.now) }
    ensures few { IfSome result (λ len. left + len ≤ n) }
    ensures none { IfNone result (is_good digest.now n left bytes.now ≡ false) }
{
    let length = bytes.len();
    if length < SEAL_SIZE {
        return None;
    }
    let len = read_u32(bytes, length - LEN) as usize;
    let said = read_u32(bytes, length - LEFT) as usize;
    if !is_sized(len, said, left, n, length) {
        return None;
    }
    let body = part(bytes, length - SEAL_SIZE - len, len + 16);
    if same(tail(bytes, length - DIGEST_SIZE), &seal_of(digest, body)) {
        Some(len)
    } else {
        None
    }
}

// Appends a block's size to those of the blocks before, unless one of these isn't listed or memory runs out,
// and tells whether it did.
fn list(sizes: &mut Vec<usize>, listed: bool, size: usize) -> bool
    ensures { result ≡ true → (listed ≡ true) × (sizes.new.items ≡ sizes.old.items ++ size ∷ []) }
{
    listed && sizes.push(size).is_ok()
}

/// Walks back over the blocks that end some bytes, up to the first bad one, and tells whether all their
/// sizes are listed. Without memory for these it continues, so that damage before them is seen.
pub(crate) fn walk_back(alloc: Global, digest: &[u8; 32], n: usize, bytes: &[u8]) -> (Walk, bool)
    requires { n < 2 ^ 32 }
    ensures { HasSeen digest.now n bytes.now result.0 result.1 }
{
    let mut rest = bytes.len();
    let mut size = 0;
    let mut sizes = Vec::new(alloc);
    let mut listed = true;
    while let Some(len) = good_block(digest, n, size, front(bytes, rest)) {
        listed = list(&mut sizes, listed, len);
        size += len;
        rest -= len + SEAL_SIZE;
    }
    (Walk { rest, size, sizes }, listed)
}
