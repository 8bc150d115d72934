//! The text of a pc, its code word and the label of the register that it writes, kept for rows of instructions that are
//! done again.
ghost use Rattle.std.specs.Prelude.{◌≡◌, ◌<◌, ◌++◌, OnOk, IfSome, codes, option_map};
ghost use Rattle.rv_decode.specs.Seen.{seen};
ghost use Rattle.rv_decode.specs.Table.{decoded};
ghost use Rattle.rv_text.specs.Rows.{text_or_illegal, word_text};
ghost use Rattle.rv_text.specs.Texts.{BeginsWith};
ghost use Rattle.rv_text.specs.Lines.{place_text, label_text, contents_text, NoneOrText};

use crate::effects::{end_with_contents, label_of};
use crate::piece::Piece;
use crate::{Text, write_instr};
use bn_base::{Addr, Row};
use rv_decode::{Instr, decode};
use std::alloc::AllocError;
use std::marker::Model;

/// The text of a pc, of the code word there and of the label of a register. It is empty until one is kept.
#[derive(Drop)]
pub struct CodeText {
    pc: Addr,
    word: u32,
    register: u8,
    piece: Piece,
}

impl Model for CodeText {
    ghost Value = { Unit {0} };

    ghost view = { λ _. tt };

    ghost invariant = { λ k. NoneOrText k.pc k.word k.register k.piece };
}

// The text of an instruction, if there is one. After an error it may be incomplete.
fn write_text(pc: Addr, instr: Option<Instr>, text: &mut Text) -> Result<(), AllocError>
    ensures ok { OnOk result (text.new ≡ text.old ++ text_or_illegal pc (option_map seen instr)) }
    ensures begins { BeginsWith text.old text.new }
{
    match instr {
        Some(instr) => write_instr(&instr, pc, text),
        None => text.push_str("illegal"),
    }
}

/// Appends a word and its text. An error may leave a part of it.
#[tactic(auto, unfolding(crate::specs::Rows::word_text))]
pub fn write_word(
    pc: Addr,
    word: u32,
    instr: Option<Instr>,
    text: &mut Text,
) -> Result<(), AllocError>
    ensures ok { OnOk result (text.new ≡ text.old ++ word_text pc word (option_map seen instr)) }
    ensures begins { BeginsWith text.old text.new }
{
    text.push_str(" ")?;
    text.push_hex8(word)?;
    text.push_str(" ")?;
    write_text(pc, instr, text)
}

// A word and the text of what it spells. An error may leave a part of it.
fn write_plain(pc: Addr, word: u32, text: &mut Text) -> Result<(), AllocError>
    ensures ok { OnOk result (text.new ≡ text.old ++ word_text pc word (decoded word)) }
    ensures begins { BeginsWith text.old text.new }
{
    write_word(pc, word, decode(word), text)
}

// A pc, the word there and what it spells. An error may leave a part of it.
#[tactic(auto, unfolding(crate::specs::Lines::place_text))]
fn write_place(pc: Addr, word: u32, text: &mut Text) -> Result<(), AllocError>
    ensures ok { OnOk result (text.new ≡ text.old ++ place_text pc word) }
    ensures begins { BeginsWith text.old text.new }
{
    text.push_str(" ")?;
    text.push_hex8(pc)?;
    write_plain(pc, word, text)
}

/// Appends a pc, the word there, what it spells and the label of a register. An error may leave a part of it.
pub fn write_labelled(pc: Addr, word: u32, register: u8, text: &mut Text) -> Result<(), AllocError>
    requires { register < 33 }
    ensures ok { OnOk result (text.new ≡ text.old ++ (place_text pc word ++ label_text register)) }
    ensures begins { BeginsWith text.old text.new }
{
    write_place(pc, word, text)?;
    text.push_str(label_of(register))
}

impl CodeText {
    /// No text.
    pub fn none() -> CodeText {
        CodeText {
            pc: 0,
            word: 0,
            register: 0,
            piece: Piece::none(),
        }
    }

    // Appends the text of this pc, word and register, and keeps it in place of the other. An error may leave a part
    // of it.
    #[cold]
    #[inline(never)]
    fn renew(
        &mut self,
        pc: Addr,
        word: u32,
        register: u8,
        text: &mut Text,
    ) -> Result<(), AllocError>
        requires { register < 33 }
        ensures ok { OnOk result (text.new ≡ text.old ++ (place_text pc word ++ label_text register)) }
        ensures begins { BeginsWith text.old text.new }
    {
        let mark = text.len();
        write_labelled(pc, word, register, text)?;
        *self = CodeText {
            pc,
            word,
            register,
            piece: Piece::of(&text.as_bytes()[mark..]),
        };
        Ok(())
    }

    // The text of this pc, word and register, if it is kept.
    #[inline(always)]
    fn kept(&self, pc: Addr, word: u32, register: u8) -> Option<&Piece>
        ensures { IfSome result (λ piece. piece.now ≡ place_text pc word ++ label_text register) }
    {
        if self.pc == pc
            && self.word == word
            && self.register == register
            && !self.piece.is_empty()
        {
            Some(&self.piece)
        } else {
            None
        }
    }

    /// Appends the text of this pc, word and register, and keeps it. An error may leave a part of it.
    #[inline(always)]
    pub fn write(
        &mut self,
        pc: Addr,
        word: u32,
        register: u8,
        text: &mut Text,
    ) -> Result<(), AllocError>
        requires { register < 33 }
        ensures ok { OnOk result (text.new ≡ text.old ++ (place_text pc word ++ label_text register)) }
        ensures begins { BeginsWith text.old text.new }
    {
        match self.kept(pc, word, register) {
            Some(piece) => piece.append_to(text),
            None => self.renew(pc, word, register, text),
        }
    }

    /// Appends the line from its pc on of a row that accesses no word and writes this register, if it writes one; it keeps the
    /// text of its code. An error may leave a part of it.
    #[inline(always)]
    pub fn write_line(
        &mut self,
        row: &Row,
        word: u32,
        register: u8,
        text: &mut Text,
    ) -> Result<(), AllocError>
        requires { register < 33 }
        ensures ok { OnOk result (text.new ≡ text.old ++ (place_text row.now.pc word ++ label_text register ++ (contents_text row.now.reg ++ codes "\n"))) }
        ensures begins { BeginsWith text.old text.new }
    {
        match self.kept(row.pc, word, register) {
            Some(piece) => piece.append_line(row, text),
            None => {
                self.renew(row.pc, word, register, text)?;
                end_with_contents(row, text)
            }
        }
    }
}
