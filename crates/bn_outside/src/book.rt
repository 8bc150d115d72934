//! Books, the journals of turns: the trait by which a recording notes its schedule.
ghost use Rattle.std.specs.Prelude.{◌≡◌, ◌+◌, ◌<◌, ◌≤◌, [], ◌∷◌, ◌++◌, true, is_some, IfSome, OnOk, OnErr};

use crate::TurnRow;
use std::alloc::AllocError;

/// A journal of the turns of a run.
///
/// A book may tell its rows or not; its type determines that. Code that passes a book to several
/// threads asks for `Send` beside it.
// The type determines it, so that contracts of code that passes a book to threads can say it with no book at hand.
pub trait Book: Drop {
    ghost use Rattle.std.specs.Prelude.{Bool, ℕ, List};
    ghost use Rattle.bn_outside.specs.declared.turn_row.TurnRow.{TurnRow};

    /// Whether books of this type tell their rows.
    ghost tells: { Bool };

    /// The rows that were noted since the book was made or cleared, the oldest first, if it tells
    /// them.
    ghost told: { Self → List TurnRow };

    /// How many rows can be noted before room has to be made again.
    ghost spare: { Self → ℕ };

    /// Makes room for one row at least.
    ///
    /// Whatever the answer, the rows stay. The error is out of memory; the room is then unchanged.
    fn room(&mut self) -> Result<(), AllocError>
        ensures ok { OnOk result (0 < spare self.new) }
        ensures rows { told self.new ≡ told self.old }
        ensures err { OnErr result (spare self.new ≡ spare self.old) };

    /// Adds a row at the end. That can't fail, since there is room.
    fn note(&mut self, row: TurnRow)
        requires { 0 < spare self.old }
        ensures row { tells ≡ true → told self.new ≡ told self.old ++ row ∷ [] }
        ensures spare { spare self.old ≤ spare self.new + 1 };

    /// The rows, the oldest first: Some if and only if books of this type tell them.
    fn rows(&self) -> Option<&[TurnRow]>
        ensures tells { is_some result ≡ tells }
        ensures rows { IfSome result (λ rows. rows.now ≡ told self.now) };

    /// Gives up all rows.
    fn clear(&mut self)
        ensures { told self.new ≡ [] };
}
