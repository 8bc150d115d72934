//! What holds of all answers: laws, each a function with an empty body.
//! They are about definitions alone, so that code which keeps its contract may change without them.
ghost use Rattle.bugnet.specs.DebugSessions.{ConvertedHaveTheirLimit, SessionsShowTheRun, RecordingsCanBeDebugged, PrefixesCanBeDebugged};
ghost use Rattle.bugnet.specs.Laws.{OneAnswer, OneSession, SeedsAreWhole, SchedulesAreWhole, FilesKeepToTheirSize};
ghost use Rattle.bugnet.specs.Agreements.{AuditsAgree};
ghost use Rattle.bugnet.specs.Books.{BooksAreFollowed, SchedulesGiveOneRun};
ghost use Rattle.bugnet.specs.Complete.{EachHasAnAnswer, EachCanBeDone};
ghost use Rattle.bugnet.specs.Crashes.{CrashesAreShown};
ghost use Rattle.bugnet.specs.Determined.{AnswersAreDetermined};
ghost use Rattle.bugnet.specs.Headline.{Headline, RecordingsAreReplayed, RecordingsSayEnds};
ghost use Rattle.bugnet.specs.Jointly.{JointHeadline, RecordingsCanBeJoined, RecordingsAreJoined};
ghost use Rattle.bugnet.specs.SalvagedLogs.{SalvagedSayEnds, SalvagedAreReplayed};
ghost use Rattle.bugnet.specs.Traced.{PrintedRacesSayTheRun, RacesAreTold, SlicesAreTold};

use file_laws::{logs_are_contents, salvaged_files_suffice};
use joint_laws::{
    beginnings_go_on, joint_replays_say_the_run, reached_joint_replays_say_the_run,
    steps_are_not_refused,
};
use log_blocks::laws::{blocks_are_few, files_have_their_size, saved_files_keep_to_the_limit};
use log_blocks::readings::{
    files_are_read, files_are_read_or_refused, files_are_salvaged_or_refused, readings_are_unique,
    salvages_are_unique, whole_files_are_salvaged,
};
use replay_laws::{ends_suffice, the_rows_of_an_interval_stand_together};
use report_laws::races_say_the_run;
use run_files::{files_number_their_version, verdicts_are_unique};
use run_laws::{faults_are_kept, kept_records_are_an_end, own_asks_are_orderly};
use step_debugger::laws::refusals_stay;
use whole_runs::{
    scheduled_lists_end, seeded_lists_end, whole_lists_are_followed, whole_runs_have_no_error,
};

/// No words have two answers, whatever the files are and whatever schedule is given. But a recording with
/// neither a seed nor a schedule has one for each list of turns. Of a lean one of these, which saves no
/// list, nothing is said.
#[tactic(auto, using(crate::proofs::Single::one_answer))]
pub fn one_answer()
    ensures { OneAnswer }
{
    readings_are_unique();
    salvages_are_unique();
}

/// A session of the debugger has one answer for the commands that are read.
#[tactic(auto, using(crate::proofs::Single::one_session))]
pub fn one_session()
    ensures { OneSession }
{
    readings_are_unique();
}

/// What `convert` and `salvage` save has at most the bytes that a command loads, whatever the format of the
/// log's settings.
#[tactic(auto, using(crate::proofs::Jointly::converted_size))]
pub fn converted_files_keep_to_the_limit()
    ensures { ConvertedHaveTheirLimit }
{
    files_have_their_size();
    blocks_are_few();
}

/// Wherever its commands take a session over a log of a recording, the replay isn't refused, and what it
/// shows is the run's. That is the order of the steps, the rows, the states of the harts, and the words.
/// Such a log may be converted or salvaged: its file is one that a session loads.
pub fn sessions_show_the_run()
    ensures { SessionsShowTheRun }
{
    beginnings_go_on();
    steps_are_not_refused();
    reached_joint_replays_say_the_run();
}

/// A session of the debugger isn't stopped, if the log file says an end of a recording's records, and the
/// recording's program file is there and within its limit. Its commands have to be read whole, and to keep
/// to their limits.
pub fn recordings_can_be_debugged()
    ensures { RecordingsCanBeDebugged }
{
    sessions_show_the_run();
}

/// If all commands of an input keep to their limits, there is all that a session needs with each prefix of
/// them. So a session isn't stopped in the middle of an input that isn't refused.
pub fn prefixes_can_be_debugged()
    ensures { PrefixesCanBeDebugged }
{
    recordings_can_be_debugged();
    refusals_stay();
}

/// Take a log that says an end of a recording's records. The answer to the replay of an interval is the
/// text of the run's own rows, from the count of the interval's Header to that of its End. It is so
/// whatever the program, its input, the list of turns, the settings, and how much of the records is left. A
/// program file that is longer than a command may load is refused, when it is recorded too.
pub fn headline()
    ensures { Headline }
{
    readings_are_unique();
    ends_suffice();
    the_rows_of_an_interval_stand_together();
    log_file::laws::files_have_their_size();
    files_have_their_size();
    blocks_are_few();
}

/// The answer to the joint replay of such a log is the text of one that says the run. It isn't stopped, and
/// keeps the recorded order of conflicting accesses. It gives the run's own rows of each hart's retained
/// intervals from the run's own states, and ends with recorded words. It is so whatever the program, its
/// input, the list of turns, the settings, and how much of the records is left. A program file that is
/// longer than a command may load is refused, when it is recorded too.
#[tactic(auto, using(crate::proofs::Jointly::joint_headline))]
pub fn joint_headline()
    ensures { JointHeadline }
{
    readings_are_unique();
    joint_replays_say_the_run();
    log_file::laws::files_have_their_size();
    files_have_their_size();
    blocks_are_few();
}

/// What a recording saves says an end of its records, and so does the same log in version 2, as `convert`
/// saves it.
#[tactic(auto, using(crate::proofs::Suffices::say_ends))]
pub fn recordings_say_ends()
    ensures { RecordingsSayEnds }
{
    logs_are_contents();
    saved_files_keep_to_the_limit();
    files_are_read();
    kept_records_are_an_end();
}

/// What `salvage` saves of a recording's damaged file says an end of its records, if the blocks that it
/// keeps are the recording's last ones.
pub fn salvaged_logs_say_ends()
    ensures { SalvagedSayEnds }
{
    salvaged_files_suffice();
    files_are_read();
}

/// Words and files have an answer, whatever schedule is given, if what a log file holds is bytes.
#[tactic(auto, using(crate::proofs::Complete::some_answer))]
pub fn each_has_an_answer()
    ensures { EachHasAnAnswer }
{
    seeds_are_whole();
    schedules_are_whole();
    files_are_read_or_refused();
    files_are_salvaged_or_refused();
}

/// Words, files and a schedule determine what is told: one answer, whatever the status of a call. But a
/// recording with neither a seed nor a schedule depends on its turns too, and `debug` on its commands.
#[tactic(auto, using(crate::proofs::Determined::determined))]
pub fn answers_are_determined()
    ensures { AnswersAreDetermined }
{
    one_answer();
    each_has_an_answer();
}

/// A command has an answer, and each of its answers is that of a command that is done, under these
/// conditions. The settings are in range, and LOG and BOOK are two names. The files are there, within their
/// limits, and are what the command needs.
pub fn each_can_be_done()
    ensures { EachCanBeDone }
{
    verdicts_are_unique();
    whole_runs_have_no_error();
    one_answer();
    seeds_are_whole();
    schedules_are_whole();
    ends_suffice();
    the_rows_of_an_interval_stand_together();
    logs_are_contents();
    saved_files_keep_to_the_limit();
    files_are_read();
    files_number_their_version();
    files_have_their_size();
    log_file::laws::files_have_their_size();
    blocks_are_few();
    whole_files_are_salvaged();
}

/// If an audit is done, the log is the file of the run of the book's turns, in its own version or in
/// version 2. The settings are in range, the program and the input are the given ones, and the turns are
/// legal and finished.
pub fn audits_agree()
    ensures { AuditsAgree }
{
    verdicts_are_unique();
    whole_runs_have_no_error();
}

/// Of the files that a recording leaves, the replay of each interval whose Header the log keeps prints
/// the recorded run's rows.
pub fn recordings_are_replayed()
    ensures { RecordingsAreReplayed }
{
    headline();
    logs_are_contents();
    saved_files_keep_to_the_limit();
    files_are_read();
    kept_records_are_an_end();
}

/// With format 2 a crash is shown. If a recording's run ended in a fault, its last turn is that
/// fault. The log that it leaves has an interval of the fault's hart that ends with it: `list` prints that
/// interval's line, and its replay the recorded run's rows up to the fault's.
#[tactic(auto, using(crate::proofs::Crashes::crashes_shown))]
pub fn crashes_are_shown()
    ensures { CrashesAreShown }
{
    recordings_are_replayed();
    readings_are_unique();
    own_asks_are_orderly();
    faults_are_kept();
    logs_are_contents();
    saved_files_keep_to_the_limit();
    files_are_read();
}

/// If a log is salvaged of a recording's damaged file, the replay of each interval whose Header it has
/// prints the recorded run's rows.
pub fn salvaged_logs_are_replayed()
    ensures { SalvagedAreReplayed }
{
    salvaged_files_suffice();
    files_are_read();
    headline();
}

/// The joint replay of a log file that says an end of a recording's records isn't stopped, if the
/// recording's program file is there and within its limit.
pub fn recordings_can_be_joined()
    ensures { RecordingsCanBeJoined }
{
    joint_replays_say_the_run();
}

/// Of the files that a recording leaves, the joint replay of the log is printed, and says the recorded
/// run.
pub fn recordings_are_joined()
    ensures { RecordingsAreJoined }
{
    joint_headline();
    logs_are_contents();
    saved_files_keep_to_the_limit();
    files_are_read();
    kept_records_are_an_end();
}

/// Take a log file that says an end of a recording's records, with the recording's program file. Of it
/// `races` tells the races of the joint replay that says the run, or that there are more than asked for:
/// never that a replay stopped.
#[tactic(auto, using(crate::proofs::Traces::races_told))]
pub fn races_are_told()
    ensures { RacesAreTold }
{
    readings_are_unique();
    joint_replays_say_the_run();
    saved_files_keep_to_the_limit();
    converted_files_keep_to_the_limit();
}

/// What `races` prints of such a log lists exactly the races of the recorded run's own points of which the log
/// keeps the rows, each once: conflicting accesses that no synchronisation ordered.
pub fn printed_races_say_the_run()
    ensures { PrintedRacesSayTheRun }
{
    races_are_told();
    races_say_the_run();
}

/// Take a log file that says an end of a recording's records, with the recording's program file. Of it
/// `slice` tells the slice of a row of the run's own, that the interval has no row of that count, or that
/// the log doesn't keep the interval: never that a replay stopped.
#[tactic(auto, using(crate::proofs::Traces::slices_told))]
pub fn slices_are_told()
    ensures { SlicesAreTold }
{
    readings_are_unique();
    ends_suffice();
    saved_files_keep_to_the_limit();
    converted_files_keep_to_the_limit();
}

/// The list of turns that a seed chooses is legal and finished, if the settings were tested.
pub fn seeds_are_whole()
    ensures { SeedsAreWhole }
{
    seeded_lists_end();
}

/// Two recordings without a seed of one program, one input and the same settings that are given one schedule have the same
/// status and texts, lean ones too. They take the same turns, and leave the same log and the same list, byte for byte.
#[tactic(auto, using(crate::proofs::Books::one_run))]
pub fn schedules_give_one_run()
    ensures { SchedulesGiveOneRun }
{}

/// Take two recordings of one program, one input and the same settings. If the second was given the BOOK of the first as
/// its schedule, it took the same turns, and left the same log and the same list, byte for byte.
pub fn books_are_followed()
    ensures { BooksAreFollowed }
{
    whole_lists_are_followed();
}

/// The list of a schedule is legal and finished, if the settings were tested.
pub fn schedules_are_whole()
    ensures { SchedulesAreWhole }
{
    scheduled_lists_end();
}

/// The records that the log of a recording keeps have at most the bytes that the settings give. Its file
/// has 124 bytes more than they in version 1; in version 2 it has 136 more, and 48 for each block.
pub fn files_keep_to_their_size()
    ensures { FilesKeepToTheirSize }
{
    logs_are_contents();
    log_file::laws::files_have_their_size();
    files_have_their_size();
}
