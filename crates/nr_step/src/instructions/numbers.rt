//! The instructions that compute numbers, each with its whole rule.

ghost use Rattle.std.specs.Prelude.{◌≡◌, ◌≤◌, length, IsSome};
ghost use Rattle.nr_optable.specs.Operations.{int_narrowing as int_narrowings, int_operation, int_shift as int_shifts, long_operation, long_shift as long_shifts};
ghost use Rattle.nr_step.specs.Instructions.{CanOperate, IsRowOf, Operates};
ghost use Rattle.nr_step.specs.declared.flow.Told.{Told};

use crate::arithmetic::{
    compared_longs, int_as_long, long_as_int, narrowed_int, negated_int, negated_long, shifted_int,
    shifted_long, two_ints, two_longs,
};
use crate::flow::Flow;
use nr_model::Value;
use nr_prog::Instr;

/// iadd, isub, imul, iand, ior, ixor.
#[inline(always)]
pub fn int_pair(i: &Instr, code: u8, stack: &mut [Value], depth: &mut usize) -> Flow
    requires row { IsRowOf code i.now.row }
    requires code { IsSome (int_operation code) }
    requires room { depth.old ≤ length stack.old }
    requires can { CanOperate i.now stack.old depth.old }
    ensures went { (told : Told) → Operates result i.now stack.old depth.old told stack.new depth.new }
    ensures room { depth.new ≤ length stack.new }
    ensures length { length stack.new ≡ length stack.old }
{
    two_ints(code, stack, depth);
    Flow::Next
}

/// ladd, lsub, lmul, land, lor, lxor.
#[inline(always)]
pub fn long_pair(i: &Instr, code: u8, stack: &mut [Value], depth: &mut usize) -> Flow
    requires row { IsRowOf code i.now.row }
    requires code { IsSome (long_operation code) }
    requires room { depth.old ≤ length stack.old }
    requires can { CanOperate i.now stack.old depth.old }
    ensures went { (told : Told) → Operates result i.now stack.old depth.old told stack.new depth.new }
    ensures room { depth.new ≤ length stack.new }
    ensures length { length stack.new ≡ length stack.old }
{
    two_longs(code, stack, depth);
    Flow::Next
}

/// ishl, ishr, iushr.
#[inline(always)]
pub fn int_shift(i: &Instr, code: u8, stack: &mut [Value], depth: &mut usize) -> Flow
    requires row { IsRowOf code i.now.row }
    requires code { IsSome (int_shifts code) }
    requires room { depth.old ≤ length stack.old }
    requires can { CanOperate i.now stack.old depth.old }
    ensures went { (told : Told) → Operates result i.now stack.old depth.old told stack.new depth.new }
    ensures room { depth.new ≤ length stack.new }
    ensures length { length stack.new ≡ length stack.old }
{
    shifted_int(code, stack, depth);
    Flow::Next
}

/// lshl, lshr, lushr.
#[inline(always)]
pub fn long_shift(i: &Instr, code: u8, stack: &mut [Value], depth: &mut usize) -> Flow
    requires row { IsRowOf code i.now.row }
    requires code { IsSome (long_shifts code) }
    requires room { depth.old ≤ length stack.old }
    requires can { CanOperate i.now stack.old depth.old }
    ensures went { (told : Told) → Operates result i.now stack.old depth.old told stack.new depth.new }
    ensures room { depth.new ≤ length stack.new }
    ensures length { length stack.new ≡ length stack.old }
{
    shifted_long(code, stack, depth);
    Flow::Next
}

/// i2b, i2c, i2s.
#[inline(always)]
pub fn int_narrowing(i: &Instr, code: u8, stack: &mut [Value], depth: &mut usize) -> Flow
    requires row { IsRowOf code i.now.row }
    requires code { IsSome (int_narrowings code) }
    requires room { depth.old ≤ length stack.old }
    requires can { CanOperate i.now stack.old depth.old }
    ensures went { (told : Told) → Operates result i.now stack.old depth.old told stack.new depth.new }
    ensures room { depth.new ≤ length stack.new }
    ensures length { length stack.new ≡ length stack.old }
{
    narrowed_int(code, stack, depth);
    Flow::Next
}

/// ineg.
#[inline(always)]
pub fn ineg(i: &Instr, stack: &mut [Value], depth: &mut usize) -> Flow
    requires row { IsRowOf 116 i.now.row }
    requires room { depth.old ≤ length stack.old }
    requires can { CanOperate i.now stack.old depth.old }
    ensures went { (told : Told) → Operates result i.now stack.old depth.old told stack.new depth.new }
    ensures room { depth.new ≤ length stack.new }
    ensures length { length stack.new ≡ length stack.old }
{
    negated_int(stack, depth);
    Flow::Next
}

/// lneg.
#[inline(always)]
pub fn lneg(i: &Instr, stack: &mut [Value], depth: &mut usize) -> Flow
    requires row { IsRowOf 117 i.now.row }
    requires room { depth.old ≤ length stack.old }
    requires can { CanOperate i.now stack.old depth.old }
    ensures went { (told : Told) → Operates result i.now stack.old depth.old told stack.new depth.new }
    ensures room { depth.new ≤ length stack.new }
    ensures length { length stack.new ≡ length stack.old }
{
    negated_long(stack, depth);
    Flow::Next
}

/// i2l.
#[inline(always)]
pub fn i2l(i: &Instr, stack: &mut [Value], depth: &mut usize) -> Flow
    requires row { IsRowOf 133 i.now.row }
    requires room { depth.old ≤ length stack.old }
    requires can { CanOperate i.now stack.old depth.old }
    ensures went { (told : Told) → Operates result i.now stack.old depth.old told stack.new depth.new }
    ensures room { depth.new ≤ length stack.new }
    ensures length { length stack.new ≡ length stack.old }
{
    int_as_long(stack, depth);
    Flow::Next
}

/// l2i.
#[inline(always)]
pub fn l2i(i: &Instr, stack: &mut [Value], depth: &mut usize) -> Flow
    requires row { IsRowOf 136 i.now.row }
    requires room { depth.old ≤ length stack.old }
    requires can { CanOperate i.now stack.old depth.old }
    ensures went { (told : Told) → Operates result i.now stack.old depth.old told stack.new depth.new }
    ensures room { depth.new ≤ length stack.new }
    ensures length { length stack.new ≡ length stack.old }
{
    long_as_int(stack, depth);
    Flow::Next
}

/// lcmp.
#[inline(always)]
pub fn lcmp(i: &Instr, stack: &mut [Value], depth: &mut usize) -> Flow
    requires row { IsRowOf 148 i.now.row }
    requires room { depth.old ≤ length stack.old }
    requires can { CanOperate i.now stack.old depth.old }
    ensures went { (told : Told) → Operates result i.now stack.old depth.old told stack.new depth.new }
    ensures room { depth.new ≤ length stack.new }
    ensures length { length stack.new ≡ length stack.old }
{
    compared_longs(stack, depth);
    Flow::Next
}
