//! What a row uses: registers and words, read off its instruction.
ghost use Rattle.std.specs.Prelude.{◌≡◌, ◌%◌, IfSome};
ghost use Rattle.slice_back.specs.Common.{option_map, instruction_in};
ghost use Rattle.rv_decode.specs.Seen.{seen};
ghost use Rattle.slice_back.specs.Uses.{is_call, is_part_store, stores_part, word_of, part_stored, used_word, is_choice, chooses, is_branch};

use bn_base::{Addr, Row};
use rv_decode::{Instr, Name, decode};

/// The instruction that a word spells, if there is one.
pub(crate) fn instruction_in(word: Option<u32>) -> Option<Instr>
    ensures { option_map seen result ≡ instruction_in word }
{
    match word {
        None => None,
        Some(word) => decode(word),
    }
}

/// Whether it is ECALL.
pub(crate) fn is_call(name: Name) -> bool
    ensures { result ≡ is_call name }
{
    matches!(name, Name::Ecall)
}

fn is_part_store(name: Name) -> bool
    ensures { result ≡ is_part_store name }
{
    matches!(name, Name::Sb | Name::Sh)
}

// Whether data decide at which pc the hart continues. Rows of these that aren't in the slice are listed beside it.
fn is_choice(name: Name) -> bool
    ensures { result ≡ is_choice name }
{
    matches!(
        name,
        Name::Beq | Name::Bne | Name::Blt | Name::Bge | Name::Bltu | Name::Bgeu | Name::Jalr
    )
}

fn stores_part(word: Option<u32>) -> bool
    ensures { result ≡ stores_part (instruction_in word) }
{
    match instruction_in(word) {
        None => false,
        Some(instr) => is_part_store(instr.name),
    }
}

/// The aligned address of an access.
pub(crate) fn word_of(access: Option<(Addr, u32)>) -> Option<Addr>
    ensures value { result ≡ word_of access }
    ensures aligned { IfSome result (λ a. a % 4 ≡ 0) }
{
    match access {
        None => None,
        Some((addr, _)) => Some(addr / 4 * 4),
    }
}

// The aligned address of a store, if it is of a byte or halfword. Only a store is decoded.
#[tactic(auto, using(crate::proofs::Afters::no_store))]
fn part_store(word: Option<u32>, store: Option<(Addr, u32)>) -> Option<Addr>
    ensures value { result ≡ part_stored (stores_part (instruction_in word)) store }
    ensures aligned { IfSome result (λ a. a % 4 ≡ 0) }
{
    match store {
        None => None,
        Some(_) => {
            if stores_part(word) {
                word_of(store)
            } else {
                None
            }
        }
    }
}

/// The aligned address of the word that a row uses: that of its load or AMO, or of its store of a
/// byte or halfword.
pub(crate) fn used_word(row: &Row) -> Option<Addr>
    ensures value { result ≡ used_word row.now }
    ensures aligned { IfSome result (λ a. a % 4 ≡ 0) }
{
    match row.load {
        Some((addr, _)) => Some(addr / 4 * 4),
        None => part_store(row.word, row.store),
    }
}

/// Whether a row is of a conditional branch or jalr.
pub(crate) fn is_branch(row: &Row) -> bool
    ensures { result ≡ is_branch row.now }
{
    match instruction_in(row.word) {
        None => false,
        Some(instr) => is_choice(instr.name),
    }
}
