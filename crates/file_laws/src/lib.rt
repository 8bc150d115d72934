//! Laws of log files: what a recording keeps obeys the order of records, so its file is one that is
//! read. These functions do nothing: their contracts are theorems over the definitions of
//! `run_model` and `log_order`.
#![tactic(auto)]

ghost use Rattle.file_laws.specs.Laws.{KeptRecordsKeepTheRules, RingsKeepTheRules, FinishedLogsAreInOrder, LogsAreContents, StreamsAreInOrder};
ghost use Rattle.file_laws.specs.Laws.{FilesAreRead, FilesSayTheRun, FilesSuffice, SalvagedFilesSuffice, LogsOfRowsAreContents, FilesOfRowsAreRead};
ghost use Rattle.file_laws.specs.Retained.{FaultsAreReplayed};

mod examples;

use elf_loader::laws::loaded_programs_are_images;
pub use examples::{a_stray_store_leaves_a_header, an_exit_is_a_recording};
use log_blocks::laws::salvaged_blocks_are_an_end;
use log_blocks::readings::readings_are_unique;
use log_order::laws::{
    an_awaited_header_follows, an_edge_follows, an_end_follows, early_edges_are_not_late,
    kept_records_are_in_order, kept_records_keep_the_rules, loads_and_conditionals_follow,
    no_records_are_kept, one_more_is_kept, the_first_are_given_up,
};
use log_ring::keeping::{a_suffix_is_kept, kept_records_fit};
use race_log::listed_edges_are_all;
use replay_laws::{ends_suffice, the_log_suffices};
use run_laws::{edges_are_few, faults_are_kept, kept_records_are_an_end, runs_end};
use run_model::{each_turn_fits, each_turn_moves_on, guarded_asks_fit, others_stay_fit};
use rv_meaning::{each_ask_is_orderly, registers_stay_words};

/// At all times the kept records keep the rules of single records, and each kept Edge comes from an
/// instruction that its source has done. This holds after any rows, each of which had a live hart and the
/// machine's reply, even if an ask was not one that its hart could make.
#[tactic(auto, using(crate::proofs::Rows::rules_are_kept))]
pub fn kept_records_keep_their_rules()
    ensures { KeptRecordsKeepTheRules }
{
    each_turn_moves_on();
    each_turn_fits();
    others_stay_fit();
    guarded_asks_fit();
    listed_edges_are_all();
    a_suffix_is_kept();
    no_records_are_kept();
    one_more_is_kept();
    the_first_are_given_up();
    an_awaited_header_follows();
    loads_and_conditionals_follow();
    an_edge_follows();
    an_end_follows();
    kept_records_keep_the_rules();
}

/// At all times the records of a ring of the log's size keep the rules of single records, if it holds the
/// log of lawful rows, whoever made their asks.
#[tactic(auto, using(crate::proofs::Rows::held_rules))]
pub fn rings_keep_their_rules()
    ensures { RingsKeepTheRules }
{
    kept_records_keep_their_rules();
}

/// If each ask was one that its hart could make, and no hart is live any more, the kept records keep all
/// rules of the order of records.
#[tactic(auto, using(crate::proofs::Rows::finished_in_order))]
pub fn finished_logs_are_in_order()
    ensures { FinishedLogsAreInOrder }
{
    each_turn_moves_on();
    each_turn_fits();
    others_stay_fit();
    guarded_asks_fit();
    listed_edges_are_all();
    a_suffix_is_kept();
    no_records_are_kept();
    one_more_is_kept();
    the_first_are_given_up();
    an_awaited_header_follows();
    loads_and_conditionals_follow();
    an_edge_follows();
    an_end_follows();
    kept_records_are_in_order();
    early_edges_are_not_late();
}

/// What is kept of a recording is what a log can say, whatever program was loaded. The records fit their
/// fields and the log, they are in order, and the numbers of the head are in range.
pub fn logs_are_contents()
    ensures { LogsAreContents }
{
    loaded_programs_are_images();
    each_ask_is_orderly();
    registers_stay_words();
    each_turn_moves_on();
    each_turn_fits();
    others_stay_fit();
    guarded_asks_fit();
    runs_end();
    edges_are_few();
    listed_edges_are_all();
    a_suffix_is_kept();
    kept_records_fit();
    no_records_are_kept();
    one_more_is_kept();
    the_first_are_given_up();
    an_awaited_header_follows();
    loads_and_conditionals_follow();
    an_edge_follows();
    an_end_follows();
    kept_records_are_in_order();
    early_edges_are_not_late();
}

/// All records of a recording are in order. So are the last ones of them, wherever they begin
/// (`log_order::laws::order_stays_without_the_first_records`).
#[tactic(auto, using(crate::proofs::Contents::streams_in_order))]
pub fn streams_are_in_order()
    ensures { StreamsAreInOrder }
{
    loaded_programs_are_images();
    each_ask_is_orderly();
    registers_stay_words();
    each_turn_moves_on();
    each_turn_fits();
    others_stay_fit();
    guarded_asks_fit();
    edges_are_few();
    listed_edges_are_all();
    no_records_are_kept();
    one_more_is_kept();
    an_awaited_header_follows();
    loads_and_conditionals_follow();
    an_edge_follows();
    an_end_follows();
    kept_records_are_in_order();
    early_edges_are_not_late();
}

/// The file of a recording, in the version of its settings' format, is read: it has no cause for a
/// refusal.
pub fn files_are_read()
    ensures { FilesAreRead }
{
    logs_are_contents();
    log_blocks::readings::files_are_read();
}

/// What is read of the file of a recording is what was kept.
pub fn files_say_the_run()
    ensures { FilesSayTheRun }
{
    files_are_read();
    readings_are_unique();
}

/// The file suffices: each interval of a hart whose Header is read of the file of a recording is
/// replayed with exactly the rows that the recorded run had in it.
pub fn files_suffice()
    ensures { FilesSuffice }
{
    files_say_the_run();
    the_log_suffices();
}

/// What is salvaged of a damaged file suffices too, if the blocks that are kept are the last of a
/// recording's. The log of these has the run's last records. Each interval of a hart whose Header it has is
/// replayed with exactly the rows that the recorded run had in it.
pub fn salvaged_files_suffice()
    ensures { SalvagedFilesSuffice }
{
    logs_are_contents();
    salvaged_blocks_are_an_end();
    kept_records_are_an_end();
    ends_suffice();
}

/// What a ring holds after lawful rows of orderly asks that leave no hart live is what a log can say,
/// whoever made the asks. Nothing is asked of the harts' own lists, nor of the program.
#[tactic(auto, using(crate::proofs::OfRows::ring_contents))]
pub fn logs_of_rows_are_contents()
    ensures { LogsOfRowsAreContents }
{
    each_turn_moves_on();
    each_turn_fits();
    others_stay_fit();
    guarded_asks_fit();
    edges_are_few();
    listed_edges_are_all();
    a_suffix_is_kept();
    kept_records_fit();
    no_records_are_kept();
    one_more_is_kept();
    the_first_are_given_up();
    an_awaited_header_follows();
    loads_and_conditionals_follow();
    an_edge_follows();
    an_end_follows();
    kept_records_are_in_order();
    early_edges_are_not_late();
}

/// The file of a ring is read, if the ring holds lawful rows of orderly asks that leave no hart live.
pub fn files_of_rows_are_read()
    ensures { FilesOfRowsAreRead }
{
    logs_of_rows_are_contents();
    log_blocks::readings::files_are_read();
}

/// With format 2 a crash can be replayed. If the run ends in a fault, the guard has made the log keep the
/// fault's interval. Its replay is done, with exactly that interval's rows of the run.
#[tactic(auto, using(crate::proofs::Retained::faults_replayed))]
pub fn faults_are_replayed()
    ensures { FaultsAreReplayed }
{
    faults_are_kept();
    the_log_suffices();
}
