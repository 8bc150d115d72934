//! Lines of many rows, as `write_row` writes them. A replay prints its rows by it.
ghost use Rattle.std.specs.Prelude.{◌≡◌, ◌<◌, ◌++◌, ◌/◌, ◌%◌, Some, None, OnOk, OnErr, codes};
ghost use Rattle.rv_text.specs.Rows.{row_text};
ghost use Rattle.rv_text.specs.Texts.{BeginsWith};
ghost use Rattle.rv_text.specs.Lines.{count_text, place_text, label_text, contents_text, accesses_text, joined_text};

use crate::code::{CodeText, write_labelled};
use crate::counts::CountText;
use crate::effects::{end_with_accesses, end_with_contents, register_of};
use crate::{Text, write_row};
use bn_base::{Addr, Row};
use std::alloc::{AllocError, Global};

/// How many texts are kept.
const KEPT: usize = 1024;

/// Writes lines of rows, and keeps the texts of their code: of the pcs that have the same place in a
/// table of 1,024, the latest with its word. Of the last hart and count it keeps all but two digits.
///
/// The table takes some 90 KiB. When out of memory, it keeps less or nothing.
#[derive(Drop)]
pub struct RowLines {
    count: CountText,
    kept: Vec<CodeText>,
}

// The place of an address in the table.
fn place_of(pc: Addr) -> usize
    ensures { result ≡ pc / 4 % 1024 }
{
    (pc / 4) as usize % KEPT
}

// A table of no texts: 1,024, or as many as there is memory for.
fn empty_table(alloc: Global) -> Vec<CodeText> {
    let mut kept = Vec::new(alloc);
    'places: for _place in 0..KEPT {
        if kept.push(CodeText::none()).is_err() {
            break 'places;
        }
    }
    kept
}

impl RowLines {
    /// A writer that keeps no text at first.
    pub fn new(alloc: Global) -> RowLines {
        RowLines {
            count: CountText::none(),
            kept: empty_table(alloc),
        }
    }

    // The text of a pc, a word and a register, by the table. An error may leave a part of it.
    #[inline(always)]
    fn write_code(
        &mut self,
        pc: Addr,
        word: u32,
        register: u8,
        text: &mut Text,
    ) -> Result<(), AllocError>
        requires { register < 33 }
        ensures ok { OnOk result (text.new ≡ text.old ++ (place_text pc word ++ label_text register)) }
        ensures begins { BeginsWith text.old text.new }
    {
        let place = place_of(pc);
        if place < self.kept.len() {
            return self.kept[place].write(pc, word, register, text);
        }
        write_labelled(pc, word, register, text)
    }

    // The line from its pc on of a row that accesses no word, by the table. An error may leave a part of it.
    #[inline(always)]
    fn write_plain(
        &mut self,
        row: &Row,
        word: u32,
        register: u8,
        text: &mut Text,
    ) -> Result<(), AllocError>
        requires { register < 33 }
        ensures ok { OnOk result (text.new ≡ text.old ++ (place_text row.now.pc word ++ label_text register ++ (contents_text row.now.reg ++ codes "\n"))) }
        ensures begins { BeginsWith text.old text.new }
    {
        let place = place_of(row.pc);
        if place < self.kept.len() {
            return self.kept[place].write_line(row, word, register, text);
        }
        write_labelled(row.pc, word, register, text)?;
        end_with_contents(row, text)
    }

    // The line from its pc on of a row with this word, by the table. An error may leave a part of it.
    #[inline(always)]
    fn write_rest(
        &mut self,
        row: &Row,
        word: u32,
        register: u8,
        text: &mut Text,
    ) -> Result<(), AllocError>
        requires { register < 33 }
        ensures ok { OnOk result (text.new ≡ text.old ++ (place_text row.now.pc word ++ label_text register ++ (contents_text row.now.reg ++ (accesses_text row.now ++ codes "\n")))) }
        ensures begins { BeginsWith text.old text.new }
    {
        if row.load.is_none() && row.store.is_none() {
            return self.write_plain(row, word, register, text);
        }
        self.write_code(row.pc, word, register, text)?;
        end_with_accesses(row, text)
    }

    // The line of a row with this word, in its parts. An error may leave a part of it.
    #[inline(always)]
    #[tactic(auto, unfolding(crate::specs::Lines::joined_text, crate::specs::Rows::changes_text))]
    fn write_parts(&mut self, row: &Row, word: u32, text: &mut Text) -> Result<(), AllocError>
        ensures ok { OnOk result (text.new ≡ text.old ++ joined_text row.now word) }
        ensures begins { BeginsWith text.old text.new }
    {
        self.count.write(row.hart, row.ic, text)?;
        self.write_rest(row, word, register_of(row.reg), text)
    }

    // The line of a row that has this word and no fault. An error may leave a part of it.
    #[tactic(auto, using(crate::proofs::Joined::joined))]
    fn write_line(&mut self, row: &Row, word: u32, text: &mut Text) -> Result<(), AllocError>
        requires { (row.now.fault ≡ None) × (row.now.word ≡ Some word) }
        ensures ok { OnOk result (text.new ≡ text.old ++ row_text row.now) }
        ensures begins { BeginsWith text.old text.new }
    {
        self.write_parts(row, word, text)
    }

    // The same; when out of memory, the text is unchanged.
    fn write_whole(&mut self, row: &Row, word: u32, text: &mut Text) -> Result<(), AllocError>
        requires { (row.now.fault ≡ None) × (row.now.word ≡ Some word) }
        ensures ok { OnOk result (text.new ≡ text.old ++ row_text row.now) }
        ensures err { OnErr result (text.new ≡ text.old) }
    {
        let mark = text.len();
        let written = self.write_line(row, word, text);
        if written.is_err() {
            text.truncate(mark);
        }
        written
    }

    /// Appends the line of a row, the same as `rv_text`'s `write_row` does. When out of memory, the
    /// text is unchanged.
    pub fn write_row(&mut self, row: &Row, text: &mut Text) -> Result<(), AllocError>
        ensures ok { OnOk result (text.new ≡ text.old ++ row_text row.now) }
        ensures err { OnErr result (text.new ≡ text.old) }
    {
        match row.fault {
            None => match row.word {
                Some(word) => self.write_whole(row, word, text),
                None => write_row(row, text),
            },
            Some(_) => write_row(row, text),
        }
    }
}
