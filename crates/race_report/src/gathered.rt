//! The points of a joint replay so far, and their races: each new point is compared with those before it.
ghost use Rattle.std.specs.Prelude.{◌≡◌, ◌<◌, ◌≤◌, ◌++◌, ◌∷◌, [], ℕ, List, length, OnOk, IfOk};
ghost use Rattle.race_report.specs.Points.{Accessing, IsTouch};
ghost use Rattle.race_report.specs.Found.{total};
ghost use Rattle.race_report.specs.Gathering.{IsGathered, IsState, point_by};
ghost use Rattle.race_report.specs.Meets.{TookRow};

use crate::calls::Asked;
use crate::meets::{Reached, meet_point, note_point};
use crate::race_lists::RaceLists;
use crate::reach::reach;
use crate::touch::{Touch, touch_of};
use crate::track::Track;
use bn_base::{HartId, Row, Settings};
use race_log::{Shadow, places_stand_for_counts, tests_decide};
use std::alloc::{AllocError, Global};

/// The points so far with their rows and harts, the accesses of each word, which of the points
/// synchronisation orders, and the races.
#[derive(Drop)]
pub(crate) struct Gathered {
    pub(crate) harts: HartId,
    pub(crate) rows: Vec<Row>,
    pub(crate) owners: Vec<HartId>,
    // All accesses, and those that write.
    all: Track,
    written: Track,
    shadow: Shadow,
    pub(crate) found: RaceLists,
}

impl Gathered {
    /// No points.
    pub(crate) fn new(alloc: Global, settings: &Settings) -> Result<Gathered, AllocError>
        ensures { IfOk result (λ g. IsGathered settings.now.harts [] g) }
    {
        let harts = settings.harts();
        let all = Track::new(alloc, harts)?;
        let written = Track::new(alloc, harts)?;
        let shadow = Shadow::new(alloc, settings)?;
        Ok(Gathered {
            harts,
            rows: Vec::new(alloc),
            owners: Vec::new(alloc),
            all,
            written,
            shadow,
            found: RaceLists::new(alloc),
        })
    }

    /// How many races there are.
    pub(crate) fn count(&self) -> u64
        ensures { result ≡ total self.now.found.lists.items }
    {
        self.found.count()
    }

    // The index of the next point, which is that of its row. A report of more than 2^32 - 1 points is treated as out of
    // memory.
    fn next_place(&self) -> Result<u32, AllocError>
        ensures { IfOk result (λ n. n ≡ length self.now.rows.items) }
    {
        let place = self.rows.len();
        if place >= u32::MAX as usize {
            return Err(AllocError);
        }
        Ok(place as u32)
    }

    // Takes in a point.
    fn take_point(&mut self, hart: HartId, row: &Row, touch: Touch) -> Result<(), AllocError>
        requires whole { IsTouch touch }
        requires gathered { (harts : ℕ) × (run : List Accessing) × (hart < harts) × IsGathered harts run self.old }
        ensures { OnOk result ((harts : ℕ) (run : List Accessing) → hart < harts → IsGathered harts run self.old → IsGathered harts (run ++ point_by hart row.now touch ∷ []) self.new) }
    {
        tests_decide();
        places_stand_for_counts();
        let place = self.next_place()?;
        let known = reach(&mut self.shadow, hart, place, touch)?;
        let point = Reached { hart, place, known };
        meet_point(
            &self.all,
            &self.written,
            &mut self.found,
            self.harts,
            touch,
            &point,
        )?;
        note_point(&mut self.all, &mut self.written, touch, hart, place)?;
        self.rows.extend_from_slice(&[*row])?;
        self.owners.push(hart)?;
        self.found.add_place()
    }

    /// Takes in a row of a hart that asked this of a system call before it, as long as there are no more
    /// than so many races.
    pub(crate) fn take_row(
        &mut self,
        hart: HartId,
        asked: Asked,
        row: &Row,
        most: u64,
    ) -> Result<(), AllocError>
        requires there { (harts : ℕ) × (run : List Accessing) × (hart < harts) × IsState harts most run self.old }
        ensures { OnOk result (TookRow hart asked row.now most self.old self.new) }
    {
        if self.found.count() > most {
            return Ok(());
        }
        match touch_of(asked, row) {
            None => Ok(()),
            Some(touch) => self.take_point(hart, row, touch),
        }
    }
}
