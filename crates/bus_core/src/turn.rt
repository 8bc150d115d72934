//! One served ask: the machine's turn, then the book's row. All memory is found before either changes.
ghost use Rattle.std.specs.Prelude.{◌≡◌, ◌<◌, true, false, IsTrue, OnOk};
ghost use Rattle.run_model.specs.Turn.{Run, is_orderly};
ghost use Rattle.run_model.specs.Represents.Harts.{hart_in};
ghost use Rattle.run_model.specs.Represents.Plain.{IsRun};
ghost use Rattle.run_model.specs.Represents.Turning.{parts, is_live};
ghost use Rattle.bus_core.specs.Bus.{AnswersAsk, AddsRow};

use bn_base::HartId;
use bn_outside::{Book, TurnRow};
use run_model::Plain;
use rv_meaning::{Ask, Reply};
use std::alloc::AllocError;

/// Answers an orderly ask, and leaves room for its row in the book. All memory is found first: pages, a
/// stream's room, the race log's and the book's.
pub fn answer_orderly<B: Book>(
    plain: &mut Plain,
    book: &mut B,
    hart: HartId,
    ask: &Ask,
) -> Result<(Reply, bool), AllocError>
    requires live { is_live (parts plain.old) hart ≡ true }
    requires orderly { IsTrue (is_orderly (parts plain.old).start.settings (parts plain.old).start.image (hart_in (parts plain.old).trace.harts.items hart) ask.now) }
    requires meant { (run : Run) → IsRun (parts plain.old) run → is_orderly (parts plain.old).start.settings (parts plain.old).start.image (run.harts hart) ask.now ≡ true }
    ensures answers { AnswersAsk (parts plain.old) (parts plain.new) hart ask.now result }
    ensures rows { B.told book.new ≡ B.told book.old }
    ensures room { OnOk result (0 < B.spare book.new) }
{
    let guarded = plain.is_guarded(hart, ask);
    let call = plain.prepare(ask)?;
    book.room()?;
    let reply = plain.apply(hart, ask, call);
    Ok((reply, guarded))
}

fn take_orderly<B: Book>(
    plain: &mut Plain,
    book: &mut B,
    hart: HartId,
    ask: &Ask,
) -> Result<(Reply, bool), AllocError>
    requires live { is_live (parts plain.old) hart ≡ true }
    requires orderly { IsTrue (is_orderly (parts plain.old).start.settings (parts plain.old).start.image (hart_in (parts plain.old).trace.harts.items hart) ask.now) }
    requires meant { (run : Run) → IsRun (parts plain.old) run → is_orderly (parts plain.old).start.settings (parts plain.old).start.image (run.harts hart) ask.now ≡ true }
    ensures answers { AnswersAsk (parts plain.old) (parts plain.new) hart ask.now result }
    ensures rows { AddsRow B.tells (B.told book.old) (B.told book.new) hart ask.now result }
{
    let (reply, guarded) = answer_orderly(plain, book, hart, ask)?;
    book.note(TurnRow {
        hart,
        ask: *ask,
        reply,
        guarded,
    });
    Ok((reply, guarded))
}

// Serves an ask that isn't orderly: it ends all.
fn take_disorderly<B: Book>(
    plain: &mut Plain,
    book: &mut B,
    hart: HartId,
    ask: &Ask,
) -> Result<(Reply, bool), AllocError>
    requires live { is_live (parts plain.old) hart ≡ true }
    requires meant { (run : Run) → IsRun (parts plain.old) run → is_orderly (parts plain.old).start.settings (parts plain.old).start.image (run.harts hart) ask.now ≡ false }
    ensures answers { AnswersAsk (parts plain.old) (parts plain.new) hart ask.now result }
    ensures rows { AddsRow B.tells (B.told book.old) (B.told book.new) hart ask.now result }
{
    book.room()?;
    plain.end_all(hart);
    let reply = Reply::Over;
    book.note(TurnRow {
        hart,
        ask: *ask,
        reply,
        guarded: false,
    });
    Ok((reply, false))
}

/// Serves an ask, orderly or not: the machine's turn, and the book's row. On `Err`, out of memory, the
/// machine and the rows haven't changed.
pub fn take<B: Book>(
    plain: &mut Plain,
    book: &mut B,
    hart: HartId,
    ask: &Ask,
    orderly: bool,
) -> Result<(Reply, bool), AllocError>
    requires live { is_live (parts plain.old) hart ≡ true }
    requires orderly { orderly ≡ is_orderly (parts plain.old).start.settings (parts plain.old).start.image (hart_in (parts plain.old).trace.harts.items hart) ask.now }
    requires meant { (run : Run) → IsRun (parts plain.old) run → orderly ≡ is_orderly (parts plain.old).start.settings (parts plain.old).start.image (run.harts hart) ask.now }
    ensures answers { AnswersAsk (parts plain.old) (parts plain.new) hart ask.now result }
    ensures rows { AddsRow B.tells (B.told book.old) (B.told book.new) hart ask.now result }
{
    if orderly {
        take_orderly(plain, book, hart, ask)
    } else {
        take_disorderly(plain, book, hart, ask)
    }
}
