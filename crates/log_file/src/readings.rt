//! The law that readers of files rest on: bytes are a log's, or there is a cause to refuse them.
ghost use Rattle.log_file.specs.Readings.{AreReadOrRefused};

use le_numbers::laws::read_numbers_are_written;
use log_record::laws::{read_records_are_written, tags_tell_sizes, written_records_are_read};

/// Each list of bytes is a log's, or there is a cause to refuse it.
#[tactic(auto, using(crate::proofs::Decided::decided))]
pub fn files_are_read_or_refused()
    ensures { AreReadOrRefused }
{
    tags_tell_sizes();
    read_records_are_written();
    written_records_are_read();
    read_numbers_are_written();
}
