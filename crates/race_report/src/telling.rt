//! A race report as its text.
ghost use Rattle.std.specs.Prelude.{◌≡◌, ◌++◌, OnOk, IfOk};
ghost use Rattle.std.specs.List.{flat_map};
ghost use Rattle.race_report.specs.Reports.{joint_of};
ghost use Rattle.race_report.specs.Texts.{race_text, races_text, IsReportText};

use crate::error::RaceError;
use crate::race::Race;
use crate::reporting::report;
use crate::texts::{write_count, write_race};
use bn_base::Image;
use log_order::KeptLog;
use rv_text::Text;
use std::alloc::{AllocError, Global};

// Appends the lines of races.
fn write_races(races: &[Race], text: &mut Text) -> Result<(), AllocError>
    ensures { OnOk result (text.new ≡ text.old ++ flat_map race_text races.now) }
{
    for race in races {
        write_race(race, text)?;
    }
    Ok(())
}

// The text of races.
fn text_of(alloc: Global, races: &[Race]) -> Result<Text, AllocError>
    ensures { IfOk result (λ text. text ≡ races_text races.now) }
{
    let mut text = Text::new(alloc);
    write_races(races, &mut text)?;
    write_count(races.len() as u64, &mut text)?;
    Ok(text)
}

/// The text of a log's race report: the lines of each race in the order of `report`, and then the line of
/// how many there are. If there is no report, the error is that of `report`.
pub fn races_text(alloc: Global, image: &Image, log: &KeptLog, max: u64) -> Result<Text, RaceError>
    ensures { IsReportText log.now.head.settings.harts max (joint_of image.now log.now) result }
{
    match report(alloc, image, log, max) {
        Err(error) => Err(error),
        Ok(races) => match text_of(alloc, races.as_slice()) {
            Ok(text) => Ok(text),
            Err(_) => Err(RaceError::OutOfMemory),
        },
    }
}
