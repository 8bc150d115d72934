//! A book that keeps its rows, so that contracts can name them.
ghost use Rattle.std.specs.Prelude.{◌≡◌, ◌+◌, ◌<◌, ◌≤◌, [], ◌∷◌, ◌++◌, true, IsSomeAnd, OnOk, OnErr, length};
ghost use Rattle.bn_outside.specs.Books.{empty_book};

use crate::{Book, TurnRow};
use std::alloc::{AllocError, Global};
use std::marker::Model;

/// A book that keeps its rows in memory and tells them.
#[derive(Drop)]
pub struct FullBook {
    rows: Vec<TurnRow>,
}

impl Model for FullBook {
    ghost use Rattle.std.specs.Prelude.{◌-◌, vec_len, vec_capacity};
    ghost use Rattle.bn_outside.specs.Books.{BookState};

    ghost Value = { BookState };

    ghost view = { λ book. record {
      rows = book.rows.items;
      spare = vec_capacity book.rows - vec_len book.rows;
    } };
}

impl FullBook {
    /// A book with no row and no room.
    pub fn new(alloc: Global) -> Self
        ensures { result ≡ empty_book 0 }
    {
        FullBook {
            rows: Vec::new(alloc),
        }
    }
}

impl Book for FullBook {
    ghost tells = { true };

    ghost told = { λ book. book.rows };

    ghost spare = { λ book. book.spare };

    fn room(&mut self) -> Result<(), AllocError>
        ensures ok { OnOk result (0 < self.new.spare) }
        ensures rows { self.new.rows ≡ self.old.rows }
        ensures err { OnErr result (self.new ≡ self.old) }

        // Room that is there isn't lost, and an error comes only if there was none.
        ensures kept { self.old.spare ≤ self.new.spare }
        ensures needed { OnErr result (self.old.spare ≡ 0) }
    {
        self.rows.reserve(1)
    }

    fn note(&mut self, row: TurnRow)
        requires { 0 < self.old.spare }
        ensures row { self.new.rows ≡ self.old.rows ++ row ∷ [] }
        ensures spare { self.old.spare ≤ self.new.spare + 1 }
    {
        // The checker has no proof of a `push` of rows.
        if self.rows.extend_from_slice(&[row]).is_err() {
            unreachable!();
        }
    }

    fn rows(&self) -> Option<&[TurnRow]>
        ensures { IsSomeAnd result (λ rows. rows.now ≡ self.now.rows) }
    {
        Some(&self.rows)
    }

    // The room of the rows that go can be used again.
    fn clear(&mut self)
        ensures { self.new ≡ empty_book (self.old.spare + length self.old.rows) }
    {
        self.rows.clear();
    }
}
