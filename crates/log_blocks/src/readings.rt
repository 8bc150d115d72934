//! What bytes are to the reader of logs of either version, and to salvage.
ghost use Rattle.log_blocks.specs.Readings.{ReadingsAreUnique, SalvagesAreUnique, FilesAreRead, AreReadOrRefused, AreSalvagedOrRefused, WholeAreSalvaged};

use crate::laws::{
    files_name_their_version, files_say_one_thing, logs_are_not_refused, refusals_are_unique,
    salvage_is_unique,
};
use le_numbers::laws::{
    numbers_have_their_width, read_numbers_are_written, written_numbers_are_read,
};
use log_file::laws::settings_in_range_are_not_bad;
use log_record::laws::{read_records_are_written, tags_tell_sizes, written_records_are_read};

/// A law: bytes are the log file of one content, in either version, or are refused for one damage, and never both.
pub fn readings_are_unique()
    ensures { ReadingsAreUnique }
{
    log_file::laws::files_say_one_thing();
    log_file::laws::logs_are_not_refused();
    files_say_one_thing();
    logs_are_not_refused();
    refusals_are_unique();
}

/// Bytes are salvaged in one way.
#[tactic(auto, using(crate::proofs::Says::one_salvage))]
pub fn salvages_are_unique()
    ensures { SalvagesAreUnique }
{
    salvage_is_unique();
}

/// The files of either version say the log that they are of.
pub fn files_are_read()
    ensures { FilesAreRead }
{
    files_name_their_version();
}

/// Each list of bytes is a log's in the version that it names, or there is a cause to refuse it.
#[tactic(auto, using(crate::proofs::Decided::decided))]
pub fn files_are_read_or_refused()
    ensures { AreReadOrRefused }
{
    tags_tell_sizes();
    read_records_are_written();
    written_records_are_read();
    read_numbers_are_written();
    numbers_have_their_width();
    log_file::readings::files_are_read_or_refused();
}

/// Of each list of bytes a log is salvaged, or there is a cause why none is.
#[tactic(auto, using(crate::proofs::Decided::salvaged))]
pub fn files_are_salvaged_or_refused()
    ensures { AreSalvagedOrRefused }
{
    tags_tell_sizes();
    read_records_are_written();
    written_records_are_read();
    read_numbers_are_written();
    numbers_have_their_width();
}

/// Of the file of version 2 of a log that very log is salvaged.
#[tactic(auto, using(crate::proofs::Recovered::whole_salvaged))]
pub fn whole_files_are_salvaged()
    ensures { WholeAreSalvaged }
{
    written_numbers_are_read();
    numbers_have_their_width();
    settings_in_range_are_not_bad();
    tags_tell_sizes();
}
