//! wide, with its whole rule.

ghost use Rattle.std.specs.Prelude.{◌≡◌, ◌≤◌, length};
ghost use Rattle.nr_step.specs.Instructions.{CanMove, IsRowOf, Moves, is_load as is_load_code};
ghost use Rattle.nr_step.specs.declared.flow.Told.{Told};

use crate::flow::Flow;
use crate::variables::{increment_variable, load_variable, store_variable};
use nr_model::Value;
use nr_prog::{Args, Instr};

/// Whether the code is that of iload, lload or aload.
#[inline(always)]
fn is_load(code: u8) -> bool
    ensures { result ≡ is_load_code code }
{
    code == 21 || (code == 22 || code == 25)
}

/// wide: iload, lload, aload, istore, lstore, astore or iinc.
#[inline(always)]
pub fn wide(i: &Instr, locals: &mut [Value], stack: &mut [Value], depth: &mut usize) -> Flow
    requires row { IsRowOf 196 i.now.row }
    requires room { depth.old ≤ length stack.old }
    requires can { CanMove i.now locals.old stack.old depth.old }
    ensures went { (told : Told) → Moves result i.now locals.old stack.old depth.old told locals.new stack.new depth.new }
    ensures room { depth.new ≤ length stack.new }
    ensures length { length stack.new ≡ length stack.old }
    ensures locals { length locals.new ≡ length locals.old }
{
    match &i.args {
        Args::Wide(code, number) => {
            if is_load(*code) {
                load_variable(*number, locals, stack, depth);
                return Flow::Next;
            }
            store_variable(*number, locals, stack, depth);
            Flow::Next
        }
        Args::WideInc(number, by) => {
            increment_variable(*number, *by, locals);
            Flow::Next
        }
        _ => unreachable!(),
    }
}
