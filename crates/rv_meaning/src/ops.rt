//! Decoded instructions in the form in which the loop of quiet instructions reads them: eight bytes each.
ghost use Rattle.std.specs.Prelude.{◌≡◌, ◌%◌, ◌<◌, ◌≤◌, ◌+◌, ◌^◌, ℕ, true, false, List, Option, option_map, slice_index, IfSome};
ghost use Rattle.rv_meaning.specs.Common.{Program, put_reg, seen, Instruction};
ghost use Rattle.rv_meaning.specs.Execute.{branch, jump};
ghost use Rattle.rv_meaning.specs.Ops.{Says, Done, Quietly, Asking, is_done, is_on, pc_of};
ghost use Rattle.rv_meaning.specs.declared.asks.Want.{Want};
ghost use Rattle.rv_meaning.specs.declared.asks.Want.TheVariants.{Load, Store};
ghost use Rattle.rv_meaning.specs.Words.{add};

use crate::asks::Want;
use crate::questions::{load, may_load, may_store, store};
use crate::words::{
    div_signed, div_unsigned, flag, high_mixed, high_signed, high_unsigned, less, rem_signed,
    rem_unsigned, shift_left, shift_right, shift_right_signed, sub,
};
use bn_base::{Addr, Image, Register, Registers};
use rv_decode::{Instr, Name};

/// A decoded instruction, with what its meaning reads of it. A word that is none is an `ebreak` here: both fault, and
/// what faults is decoded again when it is met.
#[derive(Clone, Copy, Drop)]
pub struct Op {
    /// The 32 bits of the immediate.
    pub imm: u32,
    pub name: Name,
    pub rd: Register,
    pub rs1: Register,
    pub rs2: Register,
}

impl Op {
    /// What a word decodes to.
    pub fn of(decoded: Option<Instr>) -> Op
        ensures { Says result (option_map seen decoded) }
    {
        match decoded {
            None => Op {
                imm: 0,
                name: Name::Ebreak,
                rd: Register::new(0),
                rs1: Register::new(0),
                rs2: Register::new(0),
            },
            Some(instr) => Op {
                imm: instr.imm.cast_unsigned(),
                name: instr.name,
                rd: Register::new(instr.rd),
                rs1: Register::new(instr.rs1),
                rs2: Register::new(instr.rs2),
            },
        }
    }
}

/// What became of an op.
#[derive(Clone, Copy, Drop)]
pub(crate) enum Went {
    /// It was done, and the next one follows.
    On,
    /// It was done, and another may follow.
    Jumped,
    /// It isn't quiet, and all is as it was.
    Stopped,
}

/// The address of a place in a list of ops.
#[inline(always)]
pub fn pc_of(first: Addr, place: usize) -> Addr
    ensures { result ≡ pc_of first place }
{
    first.wrapping_add(((place % (1 << 32)) as u32).wrapping_mul(4))
}

#[inline(always)]
fn src1(op: &Op, x: &Registers) -> u32
    ensures { result ≡ slice_index x.now op.now.rs1 }
{
    x.get(op.rs1)
}

#[inline(always)]
fn src2(op: &Op, x: &Registers) -> u32
    ensures { result ≡ slice_index x.now op.now.rs2 }
{
    x.get(op.rs2)
}

// The address of a load or a store.
#[inline(always)]
fn there(op: &Op, x: &Registers) -> Addr
    ensures { result ≡ add (slice_index x.now op.now.rs1) op.now.imm }
{
    x.get(op.rs1).wrapping_add(op.imm)
}

// The address that an offset from an op's own leads to.
#[inline(always)]
fn near(op: &Op, first: Addr, place: usize) -> Addr
    ensures { result ≡ add (pc_of first place) op.now.imm }
{
    pc_of(first, place).wrapping_add(op.imm)
}

// Writes `value` to rd, as an instruction that computes it.
#[inline(always)]
fn gives(value: u32, op: &Op, place: &mut usize, x: &mut Registers) -> Went
    requires { place.old < 2 ^ 30 }
    ensures place { place.new ≡ place.old + 1 }
    ensures x { x.new ≡ put_reg op.now.rd value x.old }
    ensures went { result ≡ Went.On }
{
    x.put(op.rd, value);
    *place += 1;
    Went::On
}

// Does nothing: all accesses of all harts are in one order anyway. Like each of these functions it answers what became of
// the instruction.
#[inline(always)]
fn fence(place: &mut usize) -> Went
    requires { place.old < 2 ^ 30 }
    ensures place { place.new ≡ place.old + 1 }
    ensures went { result ≡ Went.On }
{
    *place += 1;
    Went::On
}

// Jumps, unless the target is no multiple of 4: that faults, and nothing is written. `place` counts instructions from
// the address `first` on.
#[inline(always)]
fn jump(target: Addr, op: &Op, first: Addr, place: &mut usize, x: &mut Registers) -> Went
    requires first { first % 4 ≡ 0 }
    requires place { place.old < 2 ^ 30 }
    ensures within { place.new ≤ 2 ^ 30 }
    ensures on { is_on result ≡ false }
    ensures done { (d : Instruction) → op.now.rd ≡ d.rd →
        Done (is_done result) (pc_of first place.old) x.old (pc_of first place.new) x.new (jump d target) }
{
    if target % 4 != 0 {
        return Went::Stopped;
    }
    x.put(op.rd, pc_of(first, *place + 1));
    *place = (target.wrapping_sub(first) / 4) as usize;
    Went::Jumped
}

// Goes to the op's target if the branch is taken, unless that is no multiple of 4: that faults.
#[inline(always)]
fn branch(taken: bool, op: &Op, first: Addr, place: &mut usize) -> Went
    requires first { first % 4 ≡ 0 }
    requires place { place.old < 2 ^ 30 }
    ensures within { place.new ≤ 2 ^ 30 }
    ensures next { is_on result ≡ true → place.new ≡ place.old + 1 }
    ensures done { (x : List ℕ) →
        Done (is_done result) (pc_of first place.old) x (pc_of first place.new) x (branch taken (add (pc_of first place.old) op.now.imm)) }
{
    if !taken {
        *place += 1;
        return Went::On;
    }
    let target = near(op, first, *place);
    if target % 4 != 0 {
        return Went::Stopped;
    }
    *place = (target.wrapping_sub(first) / 4) as usize;
    Went::Jumped
}

/// Does an instruction, if it is quiet: `place` is then that of the next one. Else all stays as it is.
// Each arm reads the operands that it needs. What is read before the match is read for every instruction.
#[inline(always)]
#[tactic(auto, using(crate::proofs::QuietOps::done_says))]
pub(crate) fn do_quiet(op: &Op, first: Addr, place: &mut usize, x: &mut Registers) -> Went
    requires first { first % 4 ≡ 0 }
    requires place { place.old < 2 ^ 30 }
    ensures within { place.new ≤ 2 ^ 30 }
    ensures next { is_on result ≡ true → place.new ≡ place.old + 1 }
    ensures done { (i : Program) (o : Option Instruction) → Says op.now o →
        Quietly (is_done result) i o (pc_of first place.old) x.old (pc_of first place.new) x.new }
{
    match op.name {
        Name::Addi => gives(src1(op, x).wrapping_add(op.imm), op, place, x),
        Name::Slti => gives(flag(less(src1(op, x), op.imm)), op, place, x),
        Name::Sltiu => gives(flag(src1(op, x) < op.imm), op, place, x),
        Name::Xori => gives(src1(op, x) ^ op.imm, op, place, x),
        Name::Ori => gives(src1(op, x) | op.imm, op, place, x),
        Name::Andi => gives(src1(op, x) & op.imm, op, place, x),
        Name::Slli => gives(shift_left(src1(op, x), op.imm), op, place, x),
        Name::Srli => gives(shift_right(src1(op, x), op.imm), op, place, x),
        Name::Srai => gives(shift_right_signed(src1(op, x), op.imm), op, place, x),
        Name::Add => gives(src1(op, x).wrapping_add(src2(op, x)), op, place, x),
        Name::Sub => gives(sub(src1(op, x), src2(op, x)), op, place, x),
        Name::Slt => gives(flag(less(src1(op, x), src2(op, x))), op, place, x),
        Name::Sltu => gives(flag(src1(op, x) < src2(op, x)), op, place, x),
        Name::And => gives(src1(op, x) & src2(op, x), op, place, x),
        Name::Or => gives(src1(op, x) | src2(op, x), op, place, x),
        Name::Xor => gives(src1(op, x) ^ src2(op, x), op, place, x),
        Name::Sll => gives(shift_left(src1(op, x), src2(op, x)), op, place, x),
        Name::Srl => gives(shift_right(src1(op, x), src2(op, x)), op, place, x),
        Name::Sra => gives(shift_right_signed(src1(op, x), src2(op, x)), op, place, x),
        Name::Mul => gives(src1(op, x).wrapping_mul(src2(op, x)), op, place, x),
        Name::Mulh => gives(high_signed(src1(op, x), src2(op, x)), op, place, x),
        Name::Mulhsu => gives(high_mixed(src1(op, x), src2(op, x)), op, place, x),
        Name::Mulhu => gives(high_unsigned(src1(op, x), src2(op, x)), op, place, x),
        Name::Div => gives(div_signed(src1(op, x), src2(op, x)), op, place, x),
        Name::Divu => gives(div_unsigned(src1(op, x), src2(op, x)), op, place, x),
        Name::Rem => gives(rem_signed(src1(op, x), src2(op, x)), op, place, x),
        Name::Remu => gives(rem_unsigned(src1(op, x), src2(op, x)), op, place, x),
        Name::Lui => gives(op.imm, op, place, x),
        Name::Auipc => gives(near(op, first, *place), op, place, x),
        Name::Beq => branch(src1(op, x) == src2(op, x), op, first, place),
        Name::Bne => branch(src1(op, x) != src2(op, x), op, first, place),
        Name::Blt => branch(less(src1(op, x), src2(op, x)), op, first, place),
        Name::Bge => branch(!less(src1(op, x), src2(op, x)), op, first, place),
        Name::Bltu => branch(src1(op, x) < src2(op, x), op, first, place),
        Name::Bgeu => branch(!(src1(op, x) < src2(op, x)), op, first, place),
        Name::Jal => jump(near(op, first, *place), op, first, place, x),
        Name::Jalr => jump(
            src1(op, x).wrapping_add(op.imm) / 2 * 2,
            op,
            first,
            place,
            x,
        ),
        Name::Fence => fence(place),
        _ => Went::Stopped,
    }
}

/// The address from which an op loads a whole word, if it is such a load and the address passes its tests.
#[inline(always)]
#[tactic(auto, using(crate::proofs::QuietOps::asks_says))]
pub fn word_load(op: &Op, image: &Image, x: &Registers) -> Option<Addr>
    ensures { IfSome result (λ addr. (o : Option Instruction) → Says op.now o → Asking true image.now o x.now (Load addr 4 false op.now.rd)) }
{
    match op.name {
        Name::Lw => {
            let addr = there(op, x);
            let mut fault = Want::Cut;
            if may_load(&mut fault, image, addr, 4) {
                return Some(addr);
            }
            None
        }
        _ => None,
    }
}

/// The address at which an op stores a whole word, if it is such a store and the address passes its tests.
#[inline(always)]
#[tactic(auto, using(crate::proofs::QuietOps::asks_says))]
pub fn word_store(op: &Op, image: &Image, x: &Registers) -> Option<Addr>
    ensures { IfSome result (λ addr. (o : Option Instruction) → Says op.now o → Asking true image.now o x.now (Store addr 4 (slice_index x.now op.now.rs2))) }
{
    match op.name {
        Name::Sw => {
            let addr = there(op, x);
            let mut fault = Want::Cut;
            if may_store(&mut fault, image, addr, 4) {
                return Some(addr);
            }
            None
        }
        _ => None,
    }
}

/// Writes what a load or a store asks to `want`: other instructions it leaves alone.
#[inline(always)]
#[tactic(auto, using(crate::proofs::QuietOps::asks_says))]
pub fn ask_memory(op: &Op, image: &Image, x: &Registers, want: &mut Want) -> bool
    ensures { (o : Option Instruction) → Says op.now o → Asking result image.now o x.now want.new }
{
    match op.name {
        Name::Lb => !load(want, image, there(op, x), 1, true, op.rd),
        Name::Lh => !load(want, image, there(op, x), 2, true, op.rd),
        Name::Lw => !load(want, image, there(op, x), 4, false, op.rd),
        Name::Lbu => !load(want, image, there(op, x), 1, false, op.rd),
        Name::Lhu => !load(want, image, there(op, x), 2, false, op.rd),
        Name::Sb => !store(want, image, there(op, x), 1, src2(op, x)),
        Name::Sh => !store(want, image, there(op, x), 2, src2(op, x)),
        Name::Sw => !store(want, image, there(op, x), 4, src2(op, x)),
        _ => false,
    }
}
