//! Parts of bytes, and digests of two parts.
ghost use Rattle.std.specs.Prelude.{◌≡◌, ◌≤◌, ◌+◌, ◌-◌, ◌++◌, length, take, drop};
ghost use Rattle.sha2.specs.Sha256.{sha256};

use log_file::head::tail;
use sha2::{Digest, Sha256};

/// How many bytes a block has after its records: three numbers and a digest.
pub const SEAL_SIZE: usize = 48;

/// The most bytes of records in a block.
pub const BLOCK_SIZE: usize = 4096;

pub(crate) fn front(bytes: &[u8], size: usize) -> &[u8]
    requires { size ≤ length bytes.now }
    ensures { result.now ≡ take size bytes.now }
{
    &bytes[..size]
}

// So many bytes from a place on.
pub(crate) fn part(bytes: &[u8], at: usize, size: usize) -> &[u8]
    requires { at + size ≤ length bytes.now }
    ensures value { result.now ≡ take size (drop at bytes.now) }
    ensures len { length result.now ≡ size }
{
    &tail(bytes, at)[..size]
}

/// The SHA-256 digest (FIPS 180-4) of a digest and of bytes after it.
pub(crate) fn seal_of(digest: &[u8; 32], body: &[u8]) -> [u8; 32]
    ensures { result ≡ sha256 (digest.now ++ body.now) }
{
    let mut hasher = Sha256::new();
    hasher.update(digest.as_slice());
    hasher.update(body);
    hasher.finalize()
}
