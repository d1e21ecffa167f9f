//! Returns, with their whole rules.

ghost use Rattle.std.specs.Prelude.{◌≡◌, ◌≤◌, length, IsTrue};
ghost use Rattle.nr_step.specs.Instructions.{CanOperate, IsRowOf, Operates, returns_top};
ghost use Rattle.nr_step.specs.declared.flow.Told.{Told};

use crate::flow::Flow;
use nr_model::Value;
use nr_prog::Instr;

/// return.
#[inline(always)]
pub fn return_nothing(i: &Instr, stack: &[Value], depth: usize) -> Flow
    requires row { IsRowOf 177 i.now.row }
    ensures { (told : Told) → Operates result i.now stack.now depth told stack.now depth }
{
    let _ = (i.at, stack.len(), depth);
    Flow::Return
}

/// ireturn, lreturn, areturn.
#[inline(always)]
pub fn return_top(i: &Instr, code: u8, stack: &[Value], depth: usize) -> Flow
    requires row { IsRowOf code i.now.row }
    requires code { IsTrue (returns_top code) }
    requires can { CanOperate i.now stack.now depth }
    ensures { (told : Told) → Operates result i.now stack.now depth told stack.now depth }
{
    let _ = (i.at, code, stack.len(), depth);
    Flow::ReturnTop
}
