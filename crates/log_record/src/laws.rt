//! Laws by which log files are read back: records' bytes begin no other record, and are read as they were written.
ghost use Rattle.std.specs.Prelude.{◌≡◌, Some, length};
ghost use Rattle.log_record.specs.declared.record.Record.{Record};
ghost use Rattle.log_record.specs.Spelling.{size_of, tag_of, bytes_of, FitsFields};
ghost use Rattle.log_record.specs.Laws.{TellTheirSize, AreRead, AreWritten, BeginNoOther, FitLater};

use le_numbers::laws::{
    numbers_have_their_width, read_numbers_are_written, written_numbers_are_read,
};

/// A record has as many bytes as its tag says, and the tag stands first. So bytes are split into
/// records without reading these.
pub fn tags_tell_sizes()
    ensures tag { (r : Record) → FitsFields r → size_of (tag_of r) ≡ Some (length (bytes_of r)) }
    ensures front { TellTheirSize }
{
    numbers_have_their_width();
}

/// A record that is written is read back, whatever comes after it.
#[tactic(auto, using(crate::proofs::Records::record_again))]
pub fn written_records_are_read()
    ensures { AreRead }
{
    written_numbers_are_read();
}

/// Bytes that are read are the bytes of the record that they give, whatever an End's mark.
pub fn read_records_are_written()
    ensures { AreWritten }
{
    read_numbers_are_written();
}

/// No record's bytes begin another's, so bytes are those of at most one list of records.
#[tactic(auto, using(crate::proofs::Records::one_record))]
pub fn no_record_begins_another()
    ensures { BeginNoOther }
{
    written_records_are_read();
}

/// A record that a log of version 1 has, one of version 2 has too.
#[tactic(auto, using(crate::proofs::Records::fit_later))]
pub fn records_fit_later_versions()
    ensures { FitLater }
{}
