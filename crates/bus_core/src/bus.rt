//! The bus: the machine that all harts share, with its book. Its invariant is `IsKept`, in specs/Bus.antt.
ghost use Rattle.std.specs.Prelude.{◌≡◌, true, false};

use crate::ends::Ends;
use bn_outside::Book;
use run_model::Plain;
use std::marker::Model;

/// The machine that all harts share, with the book of its turns. One ask is served at a time.
///
/// Its type says that rows led to it, those of its book if that tells them. Each was of a live hart and had
/// the machine's reply. Memory, reservations, caches, race log, harts and ring are those of the run after
/// these rows.
#[derive(Drop)]
pub struct Bus<B: Book> {
    pub(crate) plain: Plain,
    // Room for what `close` hands over.
    pub(crate) ends: Ends,
    pub(crate) book: B,
    pub(crate) halted: bool,
    pub(crate) disordered: bool,
}

impl<B: Book> Model for Bus<B> {
    ghost use Rattle.std.specs.Prelude.{◌≡◌, true, List};
    ghost use Rattle.bn_outside.specs.declared.turn_row.TurnRow.{TurnRow};
    ghost use Rattle.run_model.specs.Represents.Turning.{parts};
    ghost use Rattle.bus_core.specs.Bus.{Seen, seen, IsKept};

    ghost Value = { Seen };

    ghost view = { λ b. seen (parts b.plain) b.halted b.disordered (B.told b.book) };

    ghost invariant = { λ b. IsKept B.tells (B.told b.book) (parts b.plain) b.halted b.disordered };
}
