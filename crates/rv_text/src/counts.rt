//! The text of a hart and its count, kept but for its last two digits: a hundred rows in a row share it.
ghost use Rattle.std.specs.Prelude.{◌≡◌, ◌<◌, ◌≤◌, ◌/◌, ◌^◌, ◌++◌, OnOk};
ghost use Rattle.rv_text.specs.Texts.{BeginsWith};
ghost use Rattle.rv_text.specs.Lines.{count_text, NoneOrCount, HasDigits};

use crate::Text;
use crate::piece::Piece;
use bn_base::{HartId, Ic};
use std::alloc::AllocError;
use std::marker::Model;

/// The text of a hart and of its latest count without its last two digits, and these digits. It is empty until one is kept.
#[derive(Drop)]
pub struct CountText {
    hart: HartId,
    hundreds: Ic,
    latest: Ic,
    tens: u8,
    ones: u8,
    piece: Piece,
}

impl Model for CountText {
    ghost Value = { Unit {0} };

    ghost view = { λ _. tt };

    ghost invariant = { λ k. NoneOrCount k.hart k.hundreds k.piece × HasDigits k.hundreds k.latest k.tens k.ones };
}

// The hart and its count. An error may leave a part of it.
#[tactic(auto, unfolding(crate::specs::Lines::count_text))]
fn write_count(hart: HartId, ic: Ic, text: &mut Text) -> Result<(), AllocError>
    ensures ok { OnOk result (text.new ≡ text.old ++ count_text hart ic) }
    ensures begins { BeginsWith text.old text.new }
{
    text.push_decimal(u64::from(hart))?;
    text.push_str(" ")?;
    text.push_decimal(ic)
}

impl CountText {
    /// No text.
    pub fn none() -> CountText {
        CountText {
            hart: 0,
            hundreds: 0,
            latest: 0,
            tens: 48,
            ones: 48,
            piece: Piece::none(),
        }
    }

    // Appends a hart and a count but for its last two digits, and keeps the text in place of the other. An error may leave a
    // part of it.
    fn renew(&mut self, hart: HartId, ic: Ic, text: &mut Text) -> Result<(), AllocError>
        ensures ok { OnOk result (text.new ≡ text.old ++ count_text hart (ic / 100)) }
        ensures begins { BeginsWith text.old text.new }
    {
        let mark = text.len();
        write_count(hart, ic / 100, text)?;
        let rest = (ic % 100) as u8;
        *self = CountText {
            hart,
            hundreds: ic / 100,
            latest: ic,
            tens: 48 + rest / 10,
            ones: 48 + rest % 10,
            piece: Piece::of(&text.as_bytes()[mark..]),
        };
        Ok(())
    }

    // Appends a hart and a count of three digits or more, whatever text is kept. An error may leave a part of it.
    #[cold]
    #[inline(never)]
    fn write_anew(&mut self, hart: HartId, ic: Ic, text: &mut Text) -> Result<(), AllocError>
        requires { (100 ≤ ic) × (ic < 2 ^ 64) }
        ensures ok { OnOk result (text.new ≡ text.old ++ count_text hart ic) }
        ensures begins { BeginsWith text.old text.new }
    {
        let rest = (ic % 100) as u8;
        let digits = [48 + rest / 10, 48 + rest % 10];
        if self.hart == hart && self.hundreds == ic / 100 && !self.piece.is_empty() {
            self.latest = ic;
            self.tens = 48 + rest / 10;
            self.ones = 48 + rest % 10;
            return self.piece.append_with(digits, text);
        }
        self.renew(hart, ic, text)?;
        text.push_bytes(&digits)
    }

    // Appends a hart and a count of three digits or more. Mostly it is the count after the latest, and one digit changes. An
    // error may leave a part of it.
    #[inline(always)]
    fn write_long(&mut self, hart: HartId, ic: Ic, text: &mut Text) -> Result<(), AllocError>
        requires { (100 ≤ ic) × (ic < 2 ^ 64) }
        ensures ok { OnOk result (text.new ≡ text.old ++ count_text hart ic) }
        ensures begins { BeginsWith text.old text.new }
    {
        if self.hart == hart && self.latest == ic - 1 && self.ones < 57 && !self.piece.is_empty() {
            self.latest = ic;
            self.ones += 1;
            return self.piece.append_with([self.tens, self.ones], text);
        }
        self.write_anew(hart, ic, text)
    }

    /// Appends a hart and its count, and keeps what comes before the last two digits. An error may leave a
    /// part of it.
    #[inline(always)]
    pub fn write(&mut self, hart: HartId, ic: Ic, text: &mut Text) -> Result<(), AllocError>
        ensures ok { OnOk result (text.new ≡ text.old ++ count_text hart ic) }
        ensures begins { BeginsWith text.old text.new }
    {
        if ic < 100 {
            return write_count(hart, ic, text);
        }
        self.write_long(hart, ic, text)
    }
}
