//! The instructions that push a constant, each with its whole rule.

ghost use Rattle.std.specs.Prelude.{◌≡◌, ◌≤◌, length, IsTrue};
ghost use Rattle.nr_linked.specs.TypingFacts.{is_shaped};
ghost use Rattle.nr_step.specs.Instructions.{CanLoad, CanOperate, IsRowOf, Loads, Operates, is_pool_load, is_push};
ghost use Rattle.nr_step.specs.declared.flow.Told.{Told};

use crate::constants::{int_constant, long_constant, null, small_int, small_long};
use crate::flow::Flow;
use nr_linked::Resolved;
use nr_model::Value;
use nr_prog::{Args, Instr};

/// iconst_m1 to iconst_5.
#[inline(always)]
pub fn iconst(i: &Instr, code: u8, stack: &mut [Value], depth: &mut usize) -> Flow
    requires row { IsRowOf code i.now.row }
    requires low { 2 ≤ code }
    requires high { code ≤ 8 }
    requires shaped { IsTrue (is_shaped i.now.row.shape i.now.args) }
    requires room { depth.old ≤ length stack.old }
    requires can { CanOperate i.now stack.old depth.old }
    ensures went { (told : Told) → Operates result i.now stack.old depth.old told stack.new depth.new }
    ensures room { depth.new ≤ length stack.new }
    ensures length { length stack.new ≡ length stack.old }
{
    small_int(code, stack, depth);
    Flow::Next
}

/// lconst_0, lconst_1.
#[inline(always)]
pub fn lconst(i: &Instr, code: u8, stack: &mut [Value], depth: &mut usize) -> Flow
    requires row { IsRowOf code i.now.row }
    requires low { 9 ≤ code }
    requires high { code ≤ 10 }
    requires shaped { IsTrue (is_shaped i.now.row.shape i.now.args) }
    requires room { depth.old ≤ length stack.old }
    requires can { CanOperate i.now stack.old depth.old }
    ensures went { (told : Told) → Operates result i.now stack.old depth.old told stack.new depth.new }
    ensures room { depth.new ≤ length stack.new }
    ensures length { length stack.new ≡ length stack.old }
{
    small_long(code, stack, depth);
    Flow::Next
}

/// aconst_null.
#[inline(always)]
pub fn aconst_null(i: &Instr, stack: &mut [Value], depth: &mut usize) -> Flow
    requires row { IsRowOf 1 i.now.row }
    requires room { depth.old ≤ length stack.old }
    requires can { CanOperate i.now stack.old depth.old }
    ensures went { (told : Told) → Operates result i.now stack.old depth.old told stack.new depth.new }
    ensures room { depth.new ≤ length stack.new }
    ensures length { length stack.new ≡ length stack.old }
{
    null(stack, depth);
    Flow::Next
}

/// bipush, sipush.
#[inline(always)]
pub fn push_number(i: &Instr, code: u8, stack: &mut [Value], depth: &mut usize) -> Flow
    requires row { IsRowOf code i.now.row }
    requires code { IsTrue (is_push code) }
    requires shaped { IsTrue (is_shaped i.now.row.shape i.now.args) }
    requires room { depth.old ≤ length stack.old }
    requires can { CanOperate i.now stack.old depth.old }
    ensures went { (told : Told) → Operates result i.now stack.old depth.old told stack.new depth.new }
    ensures room { depth.new ≤ length stack.new }
    ensures length { length stack.new ≡ length stack.old }
{
    let _ = code;
    match &i.args {
        Args::Num(n) => {
            int_constant(*n, stack, depth);
            Flow::Next
        }
        _ => unreachable!(),
    }
}

/// ldc, ldc_w, ldc2_w.
#[inline(always)]
pub fn ldc(i: &Instr, found: &Resolved, code: u8, stack: &mut [Value], depth: &mut usize) -> Flow
    requires row { IsRowOf code i.now.row }
    requires code { IsTrue (is_pool_load code) }
    requires room { depth.old ≤ length stack.old }
    requires can { CanLoad i.now found.now stack.old depth.old }
    ensures went { (told : Told) → Loads result i.now found.now stack.old depth.old told stack.new depth.new }
    ensures room { depth.new ≤ length stack.new }
    ensures length { length stack.new ≡ length stack.old }
{
    let _ = code;
    match found {
        Resolved::Int(n) => {
            int_constant(*n, stack, depth);
            Flow::Next
        }
        Resolved::Long(n) => {
            long_constant(*n, stack, depth);
            Flow::Next
        }
        _ => unreachable!(),
    }
}

/// nop.
#[inline(always)]
pub fn nop(i: &Instr, stack: &[Value], depth: usize) -> Flow
    requires row { IsRowOf 0 i.now.row }
    ensures { (told : Told) → Operates result i.now stack.now depth told stack.now depth }
{
    let _ = (i.at, stack.len(), depth);
    Flow::Next
}
