//! What holds of demonstrations. These functions do nothing: their contracts are theorems.
ghost use Rattle.demo_run.specs.Laws.{GuestsAreLoaded, DemonstrationsAreRecordings};

use guest_gen::laws::files_have_one_size;
use whole_runs::seeded_lists_end;

/// Each generated program file is loaded with the settings of demonstrations.
pub fn guests_are_loaded()
    ensures { GuestsAreLoaded }
{
    files_have_one_size();
}

/// What a demonstration records is a recording, so all laws of recordings hold of it.
pub fn demonstrations_are_recordings()
    ensures { DemonstrationsAreRecordings }
{
    guests_are_loaded();
    seeded_lists_end();
}
