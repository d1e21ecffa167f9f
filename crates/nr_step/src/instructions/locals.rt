//! Loads and stores of local variables, with their whole rules.

ghost use Rattle.std.specs.Prelude.{◌≡◌, ◌≤◌, length, IsTrue};
ghost use Rattle.nr_linked.specs.TypingFacts.{is_shaped};
ghost use Rattle.nr_step.specs.Instructions.{CanMove, IsRowOf, Moves, is_load, is_store};
ghost use Rattle.nr_step.specs.declared.flow.Told.{Told};

use crate::flow::Flow;
use crate::variables::{increment_variable, load_variable, store_variable};
use nr_model::Value;
use nr_prog::{Args, Instr};

/// iload, lload, aload.
#[inline(always)]
pub fn load(i: &Instr, code: u8, locals: &[Value], stack: &mut [Value], depth: &mut usize) -> Flow
    requires row { IsRowOf code i.now.row }
    requires code { IsTrue (is_load code) }
    requires shaped { IsTrue (is_shaped i.now.row.shape i.now.args) }
    requires room { depth.old ≤ length stack.old }
    requires can { CanMove i.now locals.now stack.old depth.old }
    ensures went { (told : Told) → Moves result i.now locals.now stack.old depth.old told locals.now stack.new depth.new }
    ensures room { depth.new ≤ length stack.new }
    ensures length { length stack.new ≡ length stack.old }
{
    let _ = code;
    let number = match &i.args {
        Args::Local(number) => *number,
        _ => unreachable!(),
    };
    load_variable(number, locals, stack, depth);
    Flow::Next
}

/// iload_0 to iload_3, lload_0 to lload_3, aload_0 to aload_3.
#[inline(always)]
pub fn load_numbered(
    i: &Instr,
    code: u8,
    locals: &[Value],
    stack: &mut [Value],
    depth: &mut usize,
) -> Flow
    requires row { IsRowOf code i.now.row }
    requires low { 26 ≤ code }
    requires high { code ≤ 45 }
    requires shaped { IsTrue (is_shaped i.now.row.shape i.now.args) }
    requires room { depth.old ≤ length stack.old }
    requires can { CanMove i.now locals.now stack.old depth.old }
    ensures went { (told : Told) → Moves result i.now locals.now stack.old depth.old told locals.now stack.new depth.new }
    ensures room { depth.new ≤ length stack.new }
    ensures length { length stack.new ≡ length stack.old }
{
    load_variable(u16::from((code - 26) % 4), locals, stack, depth);
    Flow::Next
}

/// istore, lstore, astore.
#[inline(always)]
pub fn store(i: &Instr, code: u8, locals: &mut [Value], stack: &[Value], depth: &mut usize) -> Flow
    requires row { IsRowOf code i.now.row }
    requires code { IsTrue (is_store code) }
    requires shaped { IsTrue (is_shaped i.now.row.shape i.now.args) }
    requires room { depth.old ≤ length stack.now }
    requires can { CanMove i.now locals.old stack.now depth.old }
    ensures went { (told : Told) → Moves result i.now locals.old stack.now depth.old told locals.new stack.now depth.new }
    ensures room { depth.new ≤ length stack.now }
    ensures length { length locals.new ≡ length locals.old }
{
    let _ = code;
    let number = match &i.args {
        Args::Local(number) => *number,
        _ => unreachable!(),
    };
    store_variable(number, locals, stack, depth);
    Flow::Next
}

/// istore_0 to istore_3, lstore_0 to lstore_3, astore_0 to astore_3.
#[inline(always)]
pub fn store_numbered(
    i: &Instr,
    code: u8,
    locals: &mut [Value],
    stack: &[Value],
    depth: &mut usize,
) -> Flow
    requires row { IsRowOf code i.now.row }
    requires low { 59 ≤ code }
    requires high { code ≤ 78 }
    requires shaped { IsTrue (is_shaped i.now.row.shape i.now.args) }
    requires room { depth.old ≤ length stack.now }
    requires can { CanMove i.now locals.old stack.now depth.old }
    ensures went { (told : Told) → Moves result i.now locals.old stack.now depth.old told locals.new stack.now depth.new }
    ensures room { depth.new ≤ length stack.now }
    ensures length { length locals.new ≡ length locals.old }
{
    store_variable(u16::from((code - 59) % 4), locals, stack, depth);
    Flow::Next
}

/// iinc.
#[inline(always)]
pub fn iinc(i: &Instr, locals: &mut [Value], stack: &[Value], depth: usize) -> Flow
    requires row { IsRowOf 132 i.now.row }
    requires can { CanMove i.now locals.old stack.now depth }
    ensures went { (told : Told) → Moves result i.now locals.old stack.now depth told locals.new stack.now depth }
    ensures length { length locals.new ≡ length locals.old }
{
    let _ = stack.len();
    match &i.args {
        Args::Inc(number, by) => {
            increment_variable(*number, *by, locals);
            Flow::Next
        }
        _ => unreachable!(),
    }
}
