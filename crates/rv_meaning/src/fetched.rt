//! The instruction at a pc, and the row that it gets.
ghost use Rattle.std.specs.Prelude.{◌≡◌, ℕ};
ghost use Rattle.rv_meaning.specs.Common.{Program, HartState};
ghost use Rattle.rv_meaning.specs.Rows.{instruction_in, row_of, call_row, fault_row};
ghost use Rattle.rv_meaning.specs.Lookups.{destination, written_to, fetched, done_row, called_row, faulted_row};

use bn_base::{Addr, Fault, HartId, HartState, Ic, Image, Register, Registers, Row};
use rv_decode::decode;

/// An instruction that a hart is about to do: its hart, count and pc, its word, and the register that
/// it writes. It is looked up once, before the instruction is done, and makes the row afterwards.
#[derive(Clone, Copy, Drop)]
pub struct Fetched {
    pub hart: HartId,
    /// The number of instructions that the hart had done before it.
    pub ic: Ic,
    pub pc: u32,
    /// The code word; `None` if the pc is at none.
    pub word: Option<u32>,
    /// The destination register, if there is one other than x0.
    pub rd: Option<Register>,
}

// The destination of the instruction that a word decodes to, but not x0.
fn destination(word: Option<u32>) -> Option<Register>
    ensures { result ≡ destination (instruction_in word) }
{
    match decode(word?) {
        Some(instr) if instr.rd != 0 => Some(Register::new(instr.rd)),
        _ => None,
    }
}

// The register with its contents.
fn written(register: Option<Register>, x: &Registers) -> Option<(Register, u32)>
    ensures { result ≡ written_to register x.now }
{
    match register {
        None => None,
        Some(register) => Some((register, x.get(register))),
    }
}

impl Fetched {
    /// The instruction that a hart in this state does next.
    pub fn at(hart: HartId, image: &Image, state: &HartState) -> Fetched
        ensures { result ≡ fetched hart image.now state.now }
    {
        let word = image.code(state.pc);
        Fetched {
            hart,
            ic: state.ic,
            pc: state.pc,
            word,
            rd: destination(word),
        }
    }

    /// Its row once it is done, by the registers after it and the words that it loaded and stored:
    /// byte addresses, with the whole aligned words.
    pub fn row(&self, x: &Registers, load: Option<(Addr, u32)>, store: Option<(Addr, u32)>) -> Row
        ensures fields { result ≡ done_row self.now x.now load store }
        ensures looked_up { (h : ℕ) (i : Program) (before after : HartState) → self.now ≡ fetched h i before → x.now ≡ after.x → result ≡ row_of h i before after load store }
    {
        Row {
            hart: self.hart,
            ic: self.ic,
            pc: self.pc,
            word: self.word,
            reg: written(self.rd, x),
            load,
            store,
            fault: None,
        }
    }

    /// Its row as a system call, with the register that the call wrote: a0 if the hart continues.
    pub fn call_row(&self, reg: Option<(Register, u32)>) -> Row
        ensures fields { result ≡ called_row self.now reg }
        ensures looked_up { (h : ℕ) (i : Program) (before : HartState) → self.now ≡ fetched h i before → result ≡ call_row h i before reg }
    {
        Row {
            hart: self.hart,
            ic: self.ic,
            pc: self.pc,
            word: self.word,
            reg,
            load: None,
            store: None,
            fault: None,
        }
    }

    /// Its row if it faults.
    pub fn fault_row(&self, kind: Fault, value: u32) -> Row
        ensures fields { result ≡ faulted_row self.now kind value }
        ensures looked_up { (h : ℕ) (i : Program) (before : HartState) → self.now ≡ fetched h i before → result ≡ fault_row h i before kind value }
    {
        Row {
            hart: self.hart,
            ic: self.ic,
            pc: self.pc,
            word: self.word,
            reg: None,
            load: None,
            store: None,
            fault: Some((kind, value)),
        }
    }
}
