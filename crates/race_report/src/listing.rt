//! The races in the order of the report, by hart and count.
ghost use Rattle.std.specs.Prelude.{◌≡◌, ◌<◌, ◌++◌, [], ℕ, List, cond, length, slice_get, OnOk, IfOk};
ghost use Rattle.std.specs.Option.{option_map, option_to_list};
ghost use Rattle.race_report.specs.Points.{Accessing};
ghost use Rattle.race_report.specs.Races.{is_at, row_of, race_if, races_with, races_by_second, races_by_place, races_of, meetings_of};
ghost use Rattle.race_report.specs.Kept.{lists_of};
ghost use Rattle.race_report.specs.Gathering.{IsGathered};

use crate::gathered::Gathered;
use crate::meeting::Meeting;
use crate::race::Race;
use bn_base::{HartId, Row};
use std::alloc::{AllocError, Global};

// Appends a race, if there is one.
fn push_race(race: Option<Race>, out: &mut Vec<Race>) -> Result<(), AllocError>
    ensures { OnOk result (out.new.items ≡ out.old.items ++ option_to_list race) }
{
    match race {
        None => Ok(()),
        Some(race) => out.extend_from_slice(&[race]),
    }
}

impl Gathered {
    // The row of a point of this hart at a place.
    fn row_of(&self, place: usize, hart: HartId) -> Option<Row>
        ensures { (harts : ℕ) (run : List Accessing) → IsGathered harts run self.now → result ≡ row_of run place hart }
    {
        match self.owners.get(place) {
            None => None,
            Some(owner) => {
                if *owner == hart {
                    self.rows.get(place).copied()
                } else {
                    None
                }
            }
        }
    }

    // The row of the point at a place.
    fn row_at(&self, place: usize) -> Option<Row>
        ensures { (harts : ℕ) (run : List Accessing) → IsGathered harts run self.now → result ≡ option_map (λ p. p.row) (slice_get run place) }
    {
        self.rows.get(place).copied()
    }

    // The race of a place with a later one, if that one is of this hart.
    fn race_with(&self, first: usize, hart: HartId, meeting: Meeting) -> Option<Race>
        ensures { (harts : ℕ) (run : List Accessing) → IsGathered harts run self.now → race_if run first hart meeting ≡ option_to_list result }
    {
        match self.row_at(first) {
            None => None,
            Some(row) => match self.row_of(meeting.second as usize, hart) {
                None => None,
                Some(second) => Some(Race {
                    first: row,
                    second,
                    word: meeting.word,
                }),
            },
        }
    }

    // Appends the races of the access at a place of the list, each with an access of this hart.
    fn push_with(&self, first: usize, hart: HartId, out: &mut Vec<Race>) -> Result<(), AllocError>
        requires { first < length (lists_of self.now.found) }
        ensures { OnOk result ((harts : ℕ) (run : List Accessing) → IsGathered harts run self.now → out.new.items ≡ out.old.items ++ races_with run first hart (meetings_of run first)) }
    {
        let meetings = self.found.with(first);
        for k in 0..meetings.len() {
            push_race(self.race_with(first, hart, meetings[k]), out)?;
        }
        Ok(())
    }

    // Appends the races of a place, hart by hart.
    fn push_first(&self, first: usize, out: &mut Vec<Race>) -> Result<(), AllocError>
        requires { first < length (lists_of self.now.found) }
        ensures { OnOk result ((harts : ℕ) (run : List Accessing) → IsGathered harts run self.now → out.new.items ≡ out.old.items ++ races_by_second run first harts) }
    {
        for hart in 0..self.harts {
            self.push_with(first, hart, out)?;
        }
        Ok(())
    }

    // Appends the races whose first point is at a place, if that is of this hart.
    fn push_if(&self, first: usize, hart: HartId, out: &mut Vec<Race>) -> Result<(), AllocError>
        requires { first < length (lists_of self.now.found) }
        ensures { OnOk result ((harts : ℕ) (run : List Accessing) → IsGathered harts run self.now → out.new.items ≡ out.old.items ++ cond (is_at run first hart) (races_by_second run first harts) []) }
    {
        match self.row_of(first, hart) {
            None => Ok(()),
            Some(_) => self.push_first(first, out),
        }
    }

    // Appends the races whose first point is of a hart, place by place.
    fn push_hart(&self, hart: HartId, out: &mut Vec<Race>) -> Result<(), AllocError>
        ensures { OnOk result ((harts : ℕ) (run : List Accessing) → IsGathered harts run self.now → out.new.items ≡ out.old.items ++ races_by_place harts run hart (length run)) }
    {
        for first in 0..self.found.len() {
            self.push_if(first, hart, out)?;
        }
        Ok(())
    }

    /// The races: by hart and place of the first, and then of the second.
    pub(crate) fn races(&self, alloc: Global) -> Result<Vec<Race>, AllocError>
        ensures { IfOk result (λ out. (harts : ℕ) (run : List Accessing) → IsGathered harts run self.now → out.items ≡ races_of harts run) }
    {
        let mut out = Vec::new(alloc);
        for hart in 0..self.harts {
            self.push_hart(hart, &mut out)?;
        }
        Ok(out)
    }
}
