//! What the tests of a slice mean. These functions do nothing: their contracts are theorems.
ghost use Rattle.slice_back.specs.Agreeing.{SliceSuffices};
ghost use Rattle.slice_back.specs.Ascending.{SlicesAscend};
ghost use Rattle.slice_back.specs.Laws.{RowsAreLeast, RegistersAreFromBefore, WordsAreTaken};

use hart_replay::laws::first_loads_are_met_by_place;
use rv_meaning::each_instruction_is_counted_or_asks;

/// A row is told if and only if it is in the least set that has the given row and, with each row, the
/// rows that it needs.
pub fn slices_are_least()
    ensures rows { RowsAreLeast }
    ensures registers { RegistersAreFromBefore }
    ensures words { WordsAreTaken }
{}

/// A slice is enough. If two intervals of one program agree row by row, and on the registers and words
/// that the slice of a row says it took, the slices have the same rows.
pub fn slices_suffice()
    ensures { SliceSuffices }
{
    first_loads_are_met_by_place();
}

/// The lists of a slice ascend: its rows, words and branches by their counts, its registers by their
/// numbers. So nothing is told twice.
pub fn slices_ascend()
    ensures { SlicesAscend }
{
    each_instruction_is_counted_or_asks();
}
