//! The log file that is saved of a recording, from what its ring keeps.
ghost use Rattle.std.specs.Prelude.{◌≡◌, IfOk};
ghost use Rattle.log_order.specs.Content.{content};
ghost use Rattle.log_file.specs.Common.{flat_map, bytes_of};
ghost use Rattle.log_file.specs.Layout.{file_bytes, file_bytes2, saved_bytes, signed_bytes};
ghost use Rattle.run_files.specs.Audits.{bytes_in};

use log_blocks::write_file2;
use log_file::{seal, write_unsealed};
use log_record::Head;
use log_ring::Ring;
use run_model::Start;
use std::alloc::{AllocError, Global};

// The file of version 1 up to its last digest, of the two pieces in which a ring has its records' bytes.
pub(crate) fn unsealed_file(alloc: Global, from: &Start, ring: &Ring) -> Result<Vec<u8>, AllocError>
    requires size { ring.now.size ≡ from.now.settings.log_size }
    requires format { from.now.settings.format ≡ 1 }
    ensures { IfOk result (λ log. log.items ≡ signed_bytes (record { settings = from.now.settings; digest = from.now.digest }) ring.now.dropped (flat_map bytes_of ring.now.records)) }
{
    let (front, back) = ring.pieces();
    let head = Head {
        settings: from.settings,
        digest: from.digest,
    };
    write_unsealed(alloc, &head, ring.dropped(), front, back)
}

// The file of version 1.
fn first_file(alloc: Global, from: &Start, ring: &Ring) -> Result<Vec<u8>, AllocError>
    requires size { ring.now.size ≡ from.now.settings.log_size }
    requires format { from.now.settings.format ≡ 1 }
    ensures { IfOk result (λ log. log.items ≡ file_bytes (content (record { settings = from.now.settings; digest = from.now.digest }) ring.now.dropped ring.now.records)) }
{
    let mut file = unsealed_file(alloc, from, ring)?;
    seal(&mut file)?;
    Ok(file)
}

// The file of version 2, of the records' bytes in one piece, which is cut into blocks.
fn second_file(alloc: Global, from: &Start, ring: &Ring) -> Result<Vec<u8>, AllocError>
    requires { ring.now.size ≡ from.now.settings.log_size }
    ensures { IfOk result (λ log. log.items ≡ file_bytes2 (content (record { settings = from.now.settings; digest = from.now.digest }) ring.now.dropped ring.now.records)) }
{
    let records = ring.copy(alloc)?;
    let head = Head {
        settings: from.settings,
        digest: from.digest,
    };
    write_file2(alloc, &head, ring.dropped(), &records)
}

/// The log file of a recording, by what it began with and what a ring keeps of its records, in the version
/// of the settings' format. The only error is out of memory.
pub fn saved_file(alloc: Global, from: &Start, ring: &Ring) -> Result<Vec<u8>, AllocError>
    requires { ring.now.size ≡ from.now.settings.log_size }
    ensures { IfOk result (λ log. log.items ≡ saved_bytes (content (record { settings = from.now.settings; digest = from.now.digest }) ring.now.dropped ring.now.records)) }
{
    if from.settings.format() == 2 {
        second_file(alloc, from, ring)
    } else {
        first_file(alloc, from, ring)
    }
}

/// The log file as `saved_file` has it, or the file of version 2, whatever the format, if that is asked
/// for. The only error is out of memory.
pub fn saved_file_in(
    alloc: Global,
    from: &Start,
    second: bool,
    ring: &Ring,
) -> Result<Vec<u8>, AllocError>
    requires { ring.now.size ≡ from.now.settings.log_size }
    ensures { IfOk result (λ log. log.items ≡ bytes_in second (content (record { settings = from.now.settings; digest = from.now.digest }) ring.now.dropped ring.now.records)) }
{
    if second {
        second_file(alloc, from, ring)
    } else {
        saved_file(alloc, from, ring)
    }
}
