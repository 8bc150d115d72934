//! Laws between files and logs: a written log is read back, and a file that is read is the spelling of what it says.
ghost use Rattle.std.specs.Prelude.{◌≡◌, ◌≢◌, List, ℕ};
ghost use Rattle.log_file.specs.declared.error.FileError.{FileError};
ghost use Rattle.log_file.specs.declared.error.FileError.TheVariants.{OutOfMemory};
ghost use Rattle.log_file.specs.File.{IsRefusal};
ghost use Rattle.log_file.specs.Laws.{AreNotBad, SayOneThing, AreNotRefused, HaveTheirSize};

use le_numbers::laws::{numbers_have_their_width, written_numbers_are_read};
use log_record::laws::no_record_begins_another;

/// Settings in range are taken: none is found bad.
#[tactic(auto, using(crate::proofs::Again::none_bad))]
pub fn settings_in_range_are_not_bad()
    ensures { AreNotBad }
{}

/// No file says two things.
#[tactic(auto, using(crate::proofs::Again::one_content))]
pub fn files_say_one_thing()
    ensures { SayOneThing }
{
    written_numbers_are_read();
    no_record_begins_another();
}

/// Bytes that are a log's have no cause for a refusal.
pub fn logs_are_not_refused()
    ensures { AreNotRefused }
{
    numbers_have_their_width();
    written_numbers_are_read();
    no_record_begins_another();
}

/// Bytes have at most one first cause for a refusal.
pub fn refusals_are_unique()
    ensures { (bytes : List ℕ) (e f : FileError) → IsRefusal bytes e → IsRefusal bytes f → e ≢ OutOfMemory → f ≢ OutOfMemory → e ≡ f }
{
    no_record_begins_another();
}

/// The file of a log has 124 bytes more than the records that the log keeps.
#[tactic(auto, using(crate::proofs::Again::file_size))]
pub fn files_have_their_size()
    ensures { HaveTheirSize }
{
    numbers_have_their_width();
}
