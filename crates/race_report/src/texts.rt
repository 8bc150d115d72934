//! The lines of a race report. `specs/` pins each byte.
ghost use Rattle.std.specs.Prelude.{◌≡◌, ◌++◌, codes, OnOk, OnErr};
ghost use Rattle.rv_text.specs.Texts.{BeginsWith};
ghost use Rattle.race_report.specs.Texts.{place_text, race_text, count_text};

use crate::race::Race;
use bn_base::Row;
use rv_text::{Text, end_with_decimal, end_with_hex8, write_row};
use std::alloc::AllocError;

// A point by its hart and count; an error may leave a part of it.
#[tactic(auto, unfolding(crate::specs::Texts::place_text))]
fn write_place(row: &Row, text: &mut Text) -> Result<(), AllocError>
    ensures ok { OnOk result (text.new ≡ text.old ++ place_text row.now) }
    ensures begins { BeginsWith text.old text.new }
{
    text.push_str(" ")?;
    text.push_decimal(u64::from(row.hart))?;
    text.push_str(" ")?;
    text.push_decimal(row.ic)
}

// The harts and counts of the points of a race; an error may leave a part of it.
fn write_places(race: &Race, text: &mut Text) -> Result<(), AllocError>
    ensures ok { OnOk result (text.new ≡ text.old ++ (codes "race" ++ place_text race.now.first ++ place_text race.now.second)) }
    ensures begins { BeginsWith text.old text.new }
{
    text.push_str("race")?;
    write_place(&race.first, text)?;
    write_place(&race.second, text)
}

// The lines of a race; an error may leave a part of it.
#[tactic(auto, unfolding(crate::specs::Texts::race_text))]
fn write_race_parts(race: &Race, text: &mut Text) -> Result<(), AllocError>
    ensures ok { OnOk result (text.new ≡ text.old ++ race_text race.now) }
    ensures begins { BeginsWith text.old text.new }
{
    write_places(race, text)?;
    end_with_hex8(" ", race.word, text)?;
    write_row(&race.first, text)?;
    write_row(&race.second, text)
}

/// Appends the lines of a race: `race`, the harts and counts of both points, and the word as eight
/// hexadecimal digits; then both rows. When out of memory, the text is unchanged.
pub fn write_race(race: &Race, text: &mut Text) -> Result<(), AllocError>
    ensures ok { OnOk result (text.new ≡ text.old ++ race_text race.now) }
    ensures err { OnErr result (text.new ≡ text.old) }
{
    let length = text.len();
    let written = write_race_parts(race, text);
    if written.is_err() {
        text.truncate(length);
    }
    written
}

// The line of how many races there are; an error may leave a part of it.
#[tactic(auto, unfolding(crate::specs::Texts::count_text))]
fn write_count_parts(count: u64, text: &mut Text) -> Result<(), AllocError>
    ensures ok { OnOk result (text.new ≡ text.old ++ count_text count) }
    ensures begins { BeginsWith text.old text.new }
{
    end_with_decimal("races ", count, text)
}

/// Appends the line of how many races there are. When out of memory, the text is unchanged.
pub fn write_count(count: u64, text: &mut Text) -> Result<(), AllocError>
    ensures ok { OnOk result (text.new ≡ text.old ++ count_text count) }
    ensures err { OnErr result (text.new ≡ text.old) }
{
    let length = text.len();
    let written = write_count_parts(count, text);
    if written.is_err() {
        text.truncate(length);
    }
    written
}
