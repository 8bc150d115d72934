//! Laws of rows: what the rows of a run, as a replay gives them, tell of the run's states, its words in
//! memory and its points. These functions do nothing: their contracts are theorems.
#![tactic(auto)]

ghost use Rattle.row_laws.specs.Laws.{RowsTellStates, RowsTellRegisters, RowsTellRuns, RowsAreOfTurns, TurnRowsAreRows, BeginningsTellStates, IntervalRowsAreOfTurns};
ghost use Rattle.row_laws.specs.Laws.{RowsTellWords, RunRowsTellWords, RowsThatTellHaveNoFault, PointsAreOfTurns, WritersHaveRows, RunWritersHaveRows, PartsHaveCodeWords, FillRowsFill, RunFillRowsFill, SendRowsSend, RunCallsAccess};

mod examples;

pub use examples::{a_filled_word_is_told, a_read_call_fills};
use race_log::tests_decide;
use replay_laws::intervals_begin_in_the_run;
use run_laws::{own_asks_are_orderly, turns_move_their_hart};

/// Along the rows of a turn each row has its hart's number and the count, the pc and the code word of the
/// state reached, and the last state is the hart's after the turn.
#[tactic(auto, using(crate::proofs::Along::rows_tell_states))]
pub fn rows_tell_states()
    ensures { RowsTellStates }
{
    turns_move_their_hart();
}

/// A register that a row writes has the row's contents in the state after it.
pub fn rows_tell_registers()
    ensures { RowsTellRegisters }
{}

/// The rows of a hart tell its states over the turns of a legal list too, from any turn on.
pub fn rows_tell_runs()
    ensures { RowsTellRuns }
{
    own_asks_are_orderly();
    turns_move_their_hart();
}

/// Each row of a hart is that of one of its turns, with the same state before it.
#[tactic(auto, using(crate::proofs::Places::rows_are_of_turns))]
pub fn rows_are_of_turns()
    ensures { RowsAreOfTurns }
{
    own_asks_are_orderly();
    turns_move_their_hart();
}

/// Each row of a turn is one of the hart's rows, with the same state before it.
pub fn turn_rows_are_rows()
    ensures { TurnRowsAreRows }
{
    own_asks_are_orderly();
    turns_move_their_hart();
}

/// If an interval begins in the run, even at a guarded ask, the rows of its hart before it lead to the
/// Header's state.
pub fn beginnings_tell_states()
    ensures { BeginningsTellStates }
{}

/// Each row of an interval whose Header stands in an end of the records is that of a turn, and the state
/// before it, reckoned from the Header's, is the run's. With log sufficiency this says that the states
/// of a replay are the run's.
pub fn interval_rows_are_of_turns()
    ensures { IntervalRowsAreOfTurns }
{
    own_asks_are_orderly();
    turns_move_their_hart();
    intervals_begin_in_the_run();
}

/// If a row of a turn loads or stores a word, memory has it after the turn. The turn adds the point that
/// accesses it, with the row's hart and count. A word that a system call fills is never told by the call's
/// own row.
pub fn rows_tell_words()
    ensures { RowsTellWords }
{}

/// The run has the point of a row that tells a word, and memory right after that turn has the word.
pub fn run_rows_tell_words()
    ensures { RunRowsTellWords }
{
    own_asks_are_orderly();
    turns_move_their_hart();
}

/// A row of a turn that tells a word is that of an instruction, and of no fault.
pub fn rows_that_tell_have_no_fault()
    ensures { RowsThatTellHaveNoFault }
{}

/// Each point of a run is the one that a turn of its hart added, at its place.
#[tactic(auto, using(crate::proofs::Places::points_are_of_turns))]
pub fn points_are_of_turns()
    ensures { PointsAreOfTurns }
{
    own_asks_are_orderly();
    turns_move_their_hart();
}

/// The point of a turn that writes a word has a row of its hart and count. This row stores the word that
/// memory then has, or is that of a read call that fills bytes of the word. The program's code words have
/// 32 bits, since a larger number could decode as an ECALL without being one.
#[tactic(auto, using(crate::proofs::Writers::writers_have_rows))]
pub fn writers_have_rows()
    ensures { WritersHaveRows }
{
    tests_decide();
}

/// Each point of a run that writes a word has a row of its hart and count: it stores the word, or is that
/// of a read call that fills bytes of it.
#[tactic(auto, using(crate::proofs::Whole::run_writers_have_rows))]
pub fn run_writers_have_rows()
    ensures { RunWritersHaveRows }
{
    own_asks_are_orderly();
    turns_move_their_hart();
    tests_decide();
}

/// A program's code words have 32 bits if the words of its segments have.
#[tactic(auto, using(crate::proofs::Codes::parts_have_code_words))]
pub fn parts_have_code_words()
    ensures { PartsHaveCodeWords }
{}

/// The row of a read call that gives bytes is a fill of so many bytes from the address in a1 on. Its plan,
/// memory after it, its point and the words that this writes are those of such a call.
pub fn fill_rows_fill()
    ensures { FillRowsFill }
{
    tests_decide();
}

/// The run has the point of such a row, which writes each word with one of the bytes.
#[tactic(auto, using(crate::proofs::Whole::run_fill_rows_fill))]
pub fn run_fill_rows_fill()
    ensures { RunFillRowsFill }
{
    own_asks_are_orderly();
    turns_move_their_hart();
    tests_decide();
}

/// The row of a write call that takes bytes is a point that reads the words in which they lie, all of them
/// below the memory's size.
pub fn send_rows_send()
    ensures { SendRowsSend }
{}

/// The run has the point of each row of a call that fills or takes bytes: it accesses just the words in which
/// they lie, and these are below the memory's size.
#[tactic(auto, using(crate::proofs::Whole::run_calls_access))]
pub fn run_calls_access()
    ensures { RunCallsAccess }
{
    own_asks_are_orderly();
    turns_move_their_hart();
    tests_decide();
}
