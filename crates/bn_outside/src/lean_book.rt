//! A book that keeps nothing, for recordings without a saved schedule.
ghost use Rattle.std.specs.Prelude.{[], false, IsOk};

use crate::{Book, TurnRow};
use std::alloc::AllocError;

/// A book that keeps no row. It takes no memory and always has room.
#[derive(Drop)]
pub struct LeanBook;

impl Book for LeanBook {
    ghost tells = { false };

    ghost told = { λ book. [] };

    ghost spare = { λ book. 1 };

    fn room(&mut self) -> Result<(), AllocError>
        ensures { IsOk result }
    {
        Ok(())
    }

    fn note(&mut self, _row: TurnRow) {}

    fn rows(&self) -> Option<&[TurnRow]> {
        None
    }

    fn clear(&mut self) {}
}
