//! The texts of marks and of the ends of intervals, as replays print them.
ghost use Rattle.std.specs.Prelude.{◌≡◌, ◌++◌, OnOk, OnErr, codes, decimal};
ghost use Rattle.rv_text.specs.Marks.{mark_text, end_text};
ghost use Rattle.rv_text.specs.Texts.{BeginsWith};

use crate::rows::write_spaced;
use crate::text::Text;
use bn_base::EndMark;
use std::alloc::AllocError;

/// A mark; an error may leave a part of it.
#[tactic(auto, unfolding(crate::specs::Marks::mark_text))]
fn write_mark_parts(mark: &EndMark, text: &mut Text) -> Result<(), AllocError>
    ensures ok { OnOk result (text.new ≡ text.old ++ mark_text mark.now) }
    ensures begins { BeginsWith text.old text.new }
{
    text.push_decimal(mark.ic)?;
    text.push_str(" ")?;
    text.push_str(mark.word())?;
    write_spaced(mark.value, text)
}

/// The word for an end, the hart and the number of its interval.
fn write_place(hart: u64, interval: u64, text: &mut Text) -> Result<(), AllocError>
    ensures ok { OnOk result (text.new ≡ text.old ++ (codes "end " ++ decimal hart ++ codes " " ++ decimal interval)) }
    ensures begins { BeginsWith text.old text.new }
{
    text.push_str("end ")?;
    text.push_decimal(hart)?;
    text.push_str(" ")?;
    text.push_decimal(interval)
}

/// A mark after a space, and the end of the line.
fn write_rest(mark: &EndMark, text: &mut Text) -> Result<(), AllocError>
    ensures ok { OnOk result (text.new ≡ text.old ++ (codes " " ++ mark_text mark.now ++ codes "\n")) }
    ensures begins { BeginsWith text.old text.new }
{
    text.push_str(" ")?;
    write_mark_parts(mark, text)?;
    text.push_str("\n")
}

/// The line of an end; an error may leave a part of it.
#[tactic(auto, unfolding(crate::specs::Marks::end_text))]
fn write_end_parts(
    hart: u64,
    interval: u64,
    mark: &EndMark,
    text: &mut Text,
) -> Result<(), AllocError>
    ensures ok { OnOk result (text.new ≡ text.old ++ end_text hart interval mark.now) }
    ensures begins { BeginsWith text.old text.new }
{
    write_place(hart, interval, text)?;
    write_rest(mark, text)
}

/// Appends a mark: its count in decimal, the word for its reason, and its value as eight
/// hexadecimal digits. When out of memory, the text is unchanged.
pub fn write_mark(mark: &EndMark, text: &mut Text) -> Result<(), AllocError>
    ensures ok { OnOk result (text.new ≡ text.old ++ mark_text mark.now) }
    ensures err { OnErr result (text.new ≡ text.old) }
{
    let length = text.len();
    let written = write_mark_parts(mark, text);
    if written.is_err() {
        text.truncate(length);
    }
    written
}

/// Appends the line of an interval's end: the word `end`, the hart and the number of the interval in
/// decimal, and the mark. When out of memory, the text is unchanged.
pub fn write_end(
    hart: u64,
    interval: u64,
    mark: &EndMark,
    text: &mut Text,
) -> Result<(), AllocError>
    ensures ok { OnOk result (text.new ≡ text.old ++ end_text hart interval mark.now) }
    ensures err { OnErr result (text.new ≡ text.old) }
{
    let length = text.len();
    let written = write_end_parts(hart, interval, mark, text);
    if written.is_err() {
        text.truncate(length);
    }
    written
}
