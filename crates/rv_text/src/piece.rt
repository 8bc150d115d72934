//! A short text that is appended often.
ghost use Rattle.std.specs.Prelude.{◌≡◌, ◌≤◌, ◌+◌, ◌++◌, ◌==◌, ◌⊎◌, [], length, take, codes, IfOk, OnOk, OnErr};
ghost use Rattle.rv_text.specs.Lines.{contents_text};

use crate::text::Text;
use bn_base::Row;
use std::alloc::AllocError;
use std::marker::Model;

/// How many bytes are kept in place.
const ROOM: usize = 64;

/// How many bytes a piece has at most: eight digits and the end of a line have room after them. The text of a pc, its code
/// and a label is no longer.
const LONGEST: usize = 55;

/// At most 55 bytes, kept in 64. All 64 are appended, and those that don't count are taken off again: a copy of a
/// length that the compiler knows takes the fewest instructions.
#[derive(Drop)]
pub struct Piece {
    bytes: [u8; 64],
    used: usize,
}

impl Model for Piece {
    ghost use Rattle.std.specs.Prelude.{List, ℕ, ◌≤◌, take};

    ghost Value = { List ℕ };

    ghost view = { λ p. take p.used p.bytes };

    ghost invariant = { λ p. p.used ≤ 55 };
}

// These bytes, and others after them.
fn begun_with(bytes: &[u8]) -> [u8; 64]
    requires { length bytes.now ≤ 55 }
    ensures { take (length bytes.now) result ≡ bytes.now }
{
    let mut all = [0; 64];
    all[..bytes.len()].copy_from_slice(bytes);
    all
}

impl Piece {
    /// No byte.
    pub fn none() -> Piece
        ensures { result ≡ [] }
    {
        Piece {
            bytes: [0; 64],
            used: 0,
        }
    }

    /// These bytes; none if they are too many.
    pub fn of(bytes: &[u8]) -> Piece
        ensures { (result ≡ bytes.now) ⊎ (result ≡ []) }
    {
        if bytes.len() > LONGEST {
            return Piece::none();
        }
        Piece {
            bytes: begun_with(bytes),
            used: bytes.len(),
        }
    }

    /// Whether there is no byte.
    #[inline(always)]
    pub fn is_empty(&self) -> bool
        ensures { result ≡ (length self.now == 0) }
    {
        self.used == 0
    }

    /// Appends it to a text. It may take memory for 64 bytes, whatever its length is.
    #[inline(always)]
    pub fn append_to(&self, text: &mut Text) -> Result<(), AllocError>
        ensures ok { OnOk result (text.new ≡ text.old ++ self.now) }
        ensures err { OnErr result (text.new ≡ text.old) }
    {
        text.push_bytes(&self.bytes)?;
        text.truncate(text.len() - (ROOM - self.used));
        Ok(())
    }

    // Appends all 64 bytes to a text, and gives the place of the first that doesn't count.
    #[inline(always)]
    fn append_all_to(&self, text: &mut Text) -> Result<usize, AllocError>
        ensures end { IfOk result (λ end. take end text.new ≡ text.old ++ self.now) }
        ensures room { IfOk result (λ end. end + 9 ≤ length text.new) }
        ensures err { OnErr result (text.new ≡ text.old) }
    {
        text.push_bytes(&self.bytes)?;
        Ok(text.len() - (ROOM - self.used))
    }

    /// Appends it and two bytes to a text. It may take memory for 64 bytes.
    #[inline(always)]
    pub fn append_with(&self, tail: [u8; 2], text: &mut Text) -> Result<(), AllocError>
        ensures ok { OnOk result (text.new ≡ text.old ++ (self.now ++ tail)) }
        ensures err { OnErr result (text.new ≡ text.old) }
    {
        let end = self.append_all_to(text)?;
        text.end_with(end, tail);
        Ok(())
    }

    /// Appends it, the contents of the register that a row writes and the end of a line to a text. It may take memory for 64
    /// bytes.
    #[inline(always)]
    pub fn append_line(&self, row: &Row, text: &mut Text) -> Result<(), AllocError>
        ensures ok { OnOk result (text.new ≡ text.old ++ (self.now ++ (contents_text row.now.reg ++ codes "\n"))) }
        ensures err { OnErr result (text.new ≡ text.old) }
    {
        let end = self.append_all_to(text)?;
        match row.reg {
            Some((_, value)) => text.end_line_with(end, value),
            None => text.end_line(end),
        }
        Ok(())
    }
}
