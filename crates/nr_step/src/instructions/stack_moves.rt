//! The instructions that move operands, with their whole rules.

ghost use Rattle.std.specs.Prelude.{◌≡◌, ◌≤◌, length};
ghost use Rattle.nr_step.specs.Instructions.{CanOperate, IsRowOf, Operates};
ghost use Rattle.nr_step.specs.declared.flow.Told.{Told};

use crate::flow::Flow;
use crate::moves::{
    copy_top, copy_top_below_one, copy_top_below_two, copy_top_two, copy_top_two_below_one,
    copy_top_two_below_two, drop_one, drop_two, swap_two,
};
use nr_model::Value;
use nr_prog::Instr;

/// pop.
#[inline(always)]
pub fn pop(i: &Instr, stack: &[Value], depth: &mut usize) -> Flow
    requires row { IsRowOf 87 i.now.row }
    requires room { depth.old ≤ length stack.now }
    requires can { CanOperate i.now stack.now depth.old }
    ensures went { (told : Told) → Operates result i.now stack.now depth.old told stack.now depth.new }
    ensures room { depth.new ≤ length stack.now }
{
    drop_one(stack, depth);
    Flow::Next
}

/// pop2.
#[inline(always)]
pub fn pop2(i: &Instr, stack: &[Value], depth: &mut usize) -> Flow
    requires row { IsRowOf 88 i.now.row }
    requires room { depth.old ≤ length stack.now }
    requires can { CanOperate i.now stack.now depth.old }
    ensures went { (told : Told) → Operates result i.now stack.now depth.old told stack.now depth.new }
    ensures room { depth.new ≤ length stack.now }
{
    drop_two(stack, depth);
    Flow::Next
}

/// dup.
#[inline(always)]
pub fn dup(i: &Instr, stack: &mut [Value], depth: &mut usize) -> Flow
    requires row { IsRowOf 89 i.now.row }
    requires room { depth.old ≤ length stack.old }
    requires can { CanOperate i.now stack.old depth.old }
    ensures went { (told : Told) → Operates result i.now stack.old depth.old told stack.new depth.new }
    ensures room { depth.new ≤ length stack.new }
    ensures length { length stack.new ≡ length stack.old }
{
    copy_top(stack, depth);
    Flow::Next
}

/// dup_x1.
#[inline(always)]
pub fn dup_x1(i: &Instr, stack: &mut [Value], depth: &mut usize) -> Flow
    requires row { IsRowOf 90 i.now.row }
    requires room { depth.old ≤ length stack.old }
    requires can { CanOperate i.now stack.old depth.old }
    ensures went { (told : Told) → Operates result i.now stack.old depth.old told stack.new depth.new }
    ensures room { depth.new ≤ length stack.new }
    ensures length { length stack.new ≡ length stack.old }
{
    copy_top_below_one(stack, depth);
    Flow::Next
}

/// dup_x2.
#[inline(always)]
pub fn dup_x2(i: &Instr, stack: &mut [Value], depth: &mut usize) -> Flow
    requires row { IsRowOf 91 i.now.row }
    requires room { depth.old ≤ length stack.old }
    requires can { CanOperate i.now stack.old depth.old }
    ensures went { (told : Told) → Operates result i.now stack.old depth.old told stack.new depth.new }
    ensures room { depth.new ≤ length stack.new }
    ensures length { length stack.new ≡ length stack.old }
{
    copy_top_below_two(stack, depth);
    Flow::Next
}

/// dup2.
#[inline(always)]
pub fn dup2(i: &Instr, stack: &mut [Value], depth: &mut usize) -> Flow
    requires row { IsRowOf 92 i.now.row }
    requires room { depth.old ≤ length stack.old }
    requires can { CanOperate i.now stack.old depth.old }
    ensures went { (told : Told) → Operates result i.now stack.old depth.old told stack.new depth.new }
    ensures room { depth.new ≤ length stack.new }
    ensures length { length stack.new ≡ length stack.old }
{
    copy_top_two(stack, depth);
    Flow::Next
}

/// dup2_x1.
#[inline(always)]
pub fn dup2_x1(i: &Instr, stack: &mut [Value], depth: &mut usize) -> Flow
    requires row { IsRowOf 93 i.now.row }
    requires room { depth.old ≤ length stack.old }
    requires can { CanOperate i.now stack.old depth.old }
    ensures went { (told : Told) → Operates result i.now stack.old depth.old told stack.new depth.new }
    ensures room { depth.new ≤ length stack.new }
    ensures length { length stack.new ≡ length stack.old }
{
    copy_top_two_below_one(stack, depth);
    Flow::Next
}

/// dup2_x2.
#[inline(always)]
pub fn dup2_x2(i: &Instr, stack: &mut [Value], depth: &mut usize) -> Flow
    requires row { IsRowOf 94 i.now.row }
    requires room { depth.old ≤ length stack.old }
    requires can { CanOperate i.now stack.old depth.old }
    ensures went { (told : Told) → Operates result i.now stack.old depth.old told stack.new depth.new }
    ensures room { depth.new ≤ length stack.new }
    ensures length { length stack.new ≡ length stack.old }
{
    copy_top_two_below_two(stack, depth);
    Flow::Next
}

/// swap.
#[inline(always)]
pub fn swap(i: &Instr, stack: &mut [Value], depth: &mut usize) -> Flow
    requires row { IsRowOf 95 i.now.row }
    requires room { depth.old ≤ length stack.old }
    requires can { CanOperate i.now stack.old depth.old }
    ensures went { (told : Told) → Operates result i.now stack.old depth.old told stack.new depth.new }
    ensures room { depth.new ≤ length stack.new }
    ensures length { length stack.new ≡ length stack.old }
{
    swap_two(stack, depth);
    Flow::Next
}
