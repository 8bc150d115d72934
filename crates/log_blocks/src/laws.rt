//! What blocks, files and logs have to do with each other.
ghost use Rattle.log_blocks.specs.Laws.{NameTheirVersion, SayOneThing, AreNotRefused, RefusalsAreUnique, HaveTheirSize, AreFew, SavedHaveTheirLimit};
ghost use Rattle.log_blocks.specs.Laws.{SalvagedAreUnique, SalvagedAreNotRefused, SalvageRefusalsAreUnique, LastBlocksAreAnEnd, SalvagedAreAnEnd};

use le_numbers::laws::{numbers_have_their_width, written_numbers_are_read};
use log_file::laws::settings_in_range_are_not_bad;
use log_record::laws::{no_record_begins_another, tags_tell_sizes};

/// The files of both versions are told apart by the version that they name.
pub fn files_name_their_version()
    ensures { NameTheirVersion }
{
    written_numbers_are_read();
    numbers_have_their_width();
    settings_in_range_are_not_bad();
}

/// No file of version 2 says two things.
#[tactic(auto, using(crate::proofs::Recovered::one_content))]
pub fn files_say_one_thing()
    ensures { SayOneThing }
{
    written_numbers_are_read();
    numbers_have_their_width();
    tags_tell_sizes();
    no_record_begins_another();
}

/// Bytes that are a log's in version 2 have no cause for a refusal.
pub fn logs_are_not_refused()
    ensures { AreNotRefused }
{
    written_numbers_are_read();
    numbers_have_their_width();
    settings_in_range_are_not_bad();
    tags_tell_sizes();
    no_record_begins_another();
}

/// Bytes have at most one first cause for a refusal.
pub fn refusals_are_unique()
    ensures { RefusalsAreUnique }
{
    no_record_begins_another();
    log_file::laws::refusals_are_unique();
}

/// What is salvaged of some bytes is one log, or there is one cause to refuse it.
pub fn salvage_is_unique()
    ensures log { SalvagedAreUnique }
    ensures either { SalvagedAreNotRefused }
    ensures cause { SalvageRefusalsAreUnique }
{
    no_record_begins_another();
}

/// The file of version 2 of a log has 136 bytes, and 48 a block, more than the records that the log
/// keeps.
#[tactic(auto, using(crate::proofs::Recovered::file_size))]
pub fn files_have_their_size()
    ensures { HaveTheirSize }
{
    numbers_have_their_width();
}

/// The last blocks of some records hold the last of them, know how many are ahead, and are the
/// blocks into which they are cut again. So what is salvaged of a log is a suffix of it.
pub fn last_blocks_are_an_end()
    ensures { LastBlocksAreAnEnd }
{}

/// If the blocks that are salvaged are the last of a log's, what is salvaged has the log's last
/// records, and counts those ahead of them: it is a suffix of the log.
pub fn salvaged_blocks_are_an_end()
    ensures { SalvagedAreAnEnd }
{
    tags_tell_sizes();
    no_record_begins_another();
}

/// Each block but the last has at least 3,951 bytes of records: so a file of version 2 isn't much longer
/// than its records.
#[tactic(auto, using(crate::proofs::Few::few))]
pub fn blocks_are_few()
    ensures { AreFew }
{
    tags_tell_sizes();
}

/// What a recording saves, in either version, is at most 4 MiB longer than the most records that a log
/// keeps.
#[tactic(auto, using(crate::proofs::Few::saved_limit))]
pub fn saved_files_keep_to_the_limit()
    ensures { SavedHaveTheirLimit }
{
    log_file::laws::files_have_their_size();
    files_have_their_size();
    blocks_are_few();
}
