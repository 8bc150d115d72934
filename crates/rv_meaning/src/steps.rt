//! One instruction of a hart: what it does if it is quiet, else what it asks.
ghost use Rattle.std.specs.Prelude.{◌≡◌, ℕ, true, false, List, slice_index};
ghost use Rattle.rv_meaning.specs.Common.{put_reg, seen};
ghost use Rattle.rv_meaning.specs.Execute.{meaning, imm, jump, branch, store_or};
ghost use Rattle.rv_meaning.specs.declared.asks.Want.TheVariants.{Amo};
ghost use Rattle.rv_meaning.specs.Told.{ToldParts};
ghost use Rattle.rv_meaning.specs.Words.{add};

use crate::amo::AmoOp;
use crate::asks::Want;
use crate::questions::{amo, fault, load, load_reserved, store, store_conditional, system};
use crate::words::{
    div_signed, div_unsigned, flag, high_mixed, high_signed, high_unsigned, less, rem_signed,
    rem_unsigned, shift_left, shift_right, shift_right_signed, sub,
};
use bn_base::{Addr, Fault, Image, Register, Registers};
use rv_decode::{Instr, Name};

#[inline(always)]
fn rd_of(instr: &Instr) -> Register
    ensures { result ≡ instr.now.rd }
{
    Register::new(instr.rd)
}

#[inline(always)]
fn src1(instr: &Instr, x: &Registers) -> u32
    ensures { result ≡ slice_index x.now instr.now.rs1 }
{
    x.get(Register::new(instr.rs1))
}

#[inline(always)]
fn src2(instr: &Instr, x: &Registers) -> u32
    ensures { result ≡ slice_index x.now instr.now.rs2 }
{
    x.get(Register::new(instr.rs2))
}

// The immediate's 32 bits.
#[inline(always)]
#[tactic(auto, using(crate::proofs::OneStep::word_again))]
fn imm_of(instr: &Instr) -> u32
    ensures { result ≡ imm (seen instr.now) }
{
    instr.imm.cast_unsigned()
}

// The address that rs1 and the immediate give.
#[inline(always)]
fn there(instr: &Instr, x: &Registers) -> Addr
    ensures { result ≡ add (slice_index x.now instr.now.rs1) (imm (seen instr.now)) }
{
    src1(instr, x).wrapping_add(imm_of(instr))
}

// The address that an offset from an instruction's own leads to.
#[inline(always)]
fn near(instr: &Instr, pc: Addr) -> Addr
    ensures { result ≡ add pc (imm (seen instr.now)) }
{
    pc.wrapping_add(imm_of(instr))
}

// Writes `value` to rd, as an instruction that computes it, and continues at the following one.
fn gives(value: u32, instr: &Instr, pc: &mut Addr, x: &mut Registers) -> bool
    ensures pc { pc.new ≡ add pc.old 4 }
    ensures x { x.new ≡ put_reg instr.now.rd value x.old }
    ensures quiet { result ≡ true }
{
    x.put(rd_of(instr), value);
    *pc = pc.wrapping_add(4);
    true
}

fn jump(target: Addr, instr: &Instr, want: &mut Want, pc: &mut Addr, x: &mut Registers) -> bool
    ensures { ToldParts result pc.old x.old pc.new x.new want.new (jump (seen instr.now) target) }
{
    if target % 4 != 0 {
        return fault(want, Fault::TargetMisaligned, target);
    }
    x.put(rd_of(instr), pc.wrapping_add(4));
    *pc = target;
    true
}

fn branch(taken: bool, target: Addr, want: &mut Want, pc: &mut Addr) -> bool
    ensures { (x : List ℕ) → ToldParts result pc.old x pc.new x want.new (branch taken target) }
{
    if !taken {
        *pc = pc.wrapping_add(4);
        true
    } else if target % 4 == 0 {
        *pc = target;
        true
    } else {
        fault(want, Fault::TargetMisaligned, target)
    }
}

fn fence(pc: &mut Addr) -> bool
    ensures pc { pc.new ≡ add pc.old 4 }
    ensures quiet { result ≡ true }
{
    *pc = pc.wrapping_add(4);
    true
}

// An atomic memory operation, or its fault.
fn amo_of(op: AmoOp, instr: &Instr, image: &Image, want: &mut Want, x: &Registers) -> bool
    ensures asked { want.new ≡ store_or image.now (slice_index x.now instr.now.rs1) 4 (Amo (slice_index x.now instr.now.rs1) op instr.now.rd (slice_index x.now instr.now.rs2)) }
    ensures asks { result ≡ false }
{
    amo(
        want,
        image,
        src1(instr, x),
        op,
        rd_of(instr),
        src2(instr, x),
    )
}

/// Does an instruction, unless it asks. Then it gives false, `want` is what it asks, and pc and registers
/// are unchanged. If it gives true, the caller counts it.
// Each arm reads the operands that it needs: what is read before the match is read for every instruction.
// One match does it, or writes what it asks to the caller's `Want`. Measured: a second match that gave the want
// by value was a quarter slower on code with loads and stores.
#[inline(always)]
pub fn step(instr: &Instr, image: &Image, pc: &mut Addr, x: &mut Registers, want: &mut Want) -> bool
    ensures { ToldParts result pc.old x.old pc.new x.new want.new (meaning instr.now.name image.now (seen instr.now)) }
{
    match instr.name {
        Name::Lui => gives(imm_of(instr), instr, pc, x),
        Name::Auipc => gives(near(instr, *pc), instr, pc, x),
        Name::Jal => jump(near(instr, *pc), instr, want, pc, x),
        Name::Jalr => jump(there(instr, x) / 2 * 2, instr, want, pc, x),
        Name::Beq => branch(src1(instr, x) == src2(instr, x), near(instr, *pc), want, pc),
        Name::Bne => branch(src1(instr, x) != src2(instr, x), near(instr, *pc), want, pc),
        Name::Blt => branch(
            less(src1(instr, x), src2(instr, x)),
            near(instr, *pc),
            want,
            pc,
        ),
        Name::Bge => branch(
            !less(src1(instr, x), src2(instr, x)),
            near(instr, *pc),
            want,
            pc,
        ),
        Name::Bltu => branch(src1(instr, x) < src2(instr, x), near(instr, *pc), want, pc),
        Name::Bgeu => branch(
            !(src1(instr, x) < src2(instr, x)),
            near(instr, *pc),
            want,
            pc,
        ),
        Name::Lb => load(want, image, there(instr, x), 1, true, rd_of(instr)),
        Name::Lh => load(want, image, there(instr, x), 2, true, rd_of(instr)),
        Name::Lw => load(want, image, there(instr, x), 4, false, rd_of(instr)),
        Name::Lbu => load(want, image, there(instr, x), 1, false, rd_of(instr)),
        Name::Lhu => load(want, image, there(instr, x), 2, false, rd_of(instr)),
        Name::Sb => store(want, image, there(instr, x), 1, src2(instr, x)),
        Name::Sh => store(want, image, there(instr, x), 2, src2(instr, x)),
        Name::Sw => store(want, image, there(instr, x), 4, src2(instr, x)),
        Name::Addi => gives(src1(instr, x).wrapping_add(imm_of(instr)), instr, pc, x),
        Name::Slti => gives(flag(less(src1(instr, x), imm_of(instr))), instr, pc, x),
        Name::Sltiu => gives(flag(src1(instr, x) < imm_of(instr)), instr, pc, x),
        Name::Xori => gives(src1(instr, x) ^ imm_of(instr), instr, pc, x),
        Name::Ori => gives(src1(instr, x) | imm_of(instr), instr, pc, x),
        Name::Andi => gives(src1(instr, x) & imm_of(instr), instr, pc, x),
        Name::Slli => gives(shift_left(src1(instr, x), imm_of(instr)), instr, pc, x),
        Name::Srli => gives(shift_right(src1(instr, x), imm_of(instr)), instr, pc, x),
        Name::Srai => gives(
            shift_right_signed(src1(instr, x), imm_of(instr)),
            instr,
            pc,
            x,
        ),
        Name::Add => gives(src1(instr, x).wrapping_add(src2(instr, x)), instr, pc, x),
        Name::Sub => gives(sub(src1(instr, x), src2(instr, x)), instr, pc, x),
        Name::Slt => gives(flag(less(src1(instr, x), src2(instr, x))), instr, pc, x),
        Name::Sltu => gives(flag(src1(instr, x) < src2(instr, x)), instr, pc, x),
        Name::And => gives(src1(instr, x) & src2(instr, x), instr, pc, x),
        Name::Or => gives(src1(instr, x) | src2(instr, x), instr, pc, x),
        Name::Xor => gives(src1(instr, x) ^ src2(instr, x), instr, pc, x),
        Name::Sll => gives(shift_left(src1(instr, x), src2(instr, x)), instr, pc, x),
        Name::Srl => gives(shift_right(src1(instr, x), src2(instr, x)), instr, pc, x),
        Name::Sra => gives(
            shift_right_signed(src1(instr, x), src2(instr, x)),
            instr,
            pc,
            x,
        ),
        Name::Mul => gives(src1(instr, x).wrapping_mul(src2(instr, x)), instr, pc, x),
        Name::Mulh => gives(high_signed(src1(instr, x), src2(instr, x)), instr, pc, x),
        Name::Mulhsu => gives(high_mixed(src1(instr, x), src2(instr, x)), instr, pc, x),
        Name::Mulhu => gives(high_unsigned(src1(instr, x), src2(instr, x)), instr, pc, x),
        Name::Div => gives(div_signed(src1(instr, x), src2(instr, x)), instr, pc, x),
        Name::Divu => gives(div_unsigned(src1(instr, x), src2(instr, x)), instr, pc, x),
        Name::Rem => gives(rem_signed(src1(instr, x), src2(instr, x)), instr, pc, x),
        Name::Remu => gives(rem_unsigned(src1(instr, x), src2(instr, x)), instr, pc, x),
        Name::Fence => fence(pc),
        Name::Ecall => system(want, x),
        Name::Ebreak => fault(want, Fault::Breakpoint, 0),
        Name::LrW => load_reserved(want, image, src1(instr, x), rd_of(instr)),
        Name::ScW => store_conditional(want, image, src1(instr, x), rd_of(instr), src2(instr, x)),
        Name::AmoswapW => amo_of(AmoOp::Swap, instr, image, want, x),
        Name::AmoaddW => amo_of(AmoOp::Add, instr, image, want, x),
        Name::AmoxorW => amo_of(AmoOp::Xor, instr, image, want, x),
        Name::AmoandW => amo_of(AmoOp::And, instr, image, want, x),
        Name::AmoorW => amo_of(AmoOp::Or, instr, image, want, x),
        Name::AmominW => amo_of(AmoOp::Min, instr, image, want, x),
        Name::AmomaxW => amo_of(AmoOp::Max, instr, image, want, x),
        Name::AmominuW => amo_of(AmoOp::MinU, instr, image, want, x),
        Name::AmomaxuW => amo_of(AmoOp::MaxU, instr, image, want, x),
    }
}
