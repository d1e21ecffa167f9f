//! Calls: a frame for the method that is called (JVM Specification 2.6.1).

ghost use Rattle.std.specs.Prelude.{◌≡◌, ◌≤◌, length, Some, false, true};
ghost use Rattle.nr_linked.specs.Facts.{ProgramFacts};
ghost use Rattle.nr_model.specs.CallRules.{operands_of};
ghost use Rattle.nr_model.specs.Outcomes.{is_too_deep};
ghost use Rattle.nr_model.specs.States.{Control, Running};
ghost use Rattle.nr_model.specs.Steps.{entered};
ghost use Rattle.nr_machine.specs.CallStacks.{CanEnter, IsStack, OnRunning, frames_of};

use super::arguments::push_window;
use super::{CallStack, Frame};
use nr_linked::{MethodId, MethodInfo, Program};

/// ACC_STATIC (JVM Specification 4.6, table 4.6-A).
pub const STATIC: u16 = 0x0008;

/// How many operands a call of the method takes: its arguments, and the receiver below them.
#[inline(always)]
pub fn operand_count(info: &MethodInfo) -> usize
    requires { length info.now.params ≤ 254 }
    ensures { result ≡ operands_of info.now }
{
    if info.flags & STATIC != 0 {
        info.params.len()
    } else {
        info.params.len() + 1
    }
}

impl CallStack {
    /// Enters a method that the running frame calls: its topmost operands, the arguments, become the first
    /// locals of a new frame. It answers false, and changes nothing, where that would pass a limit.
    #[inline(always)]
    pub fn enter(&mut self, program: &Program, method: MethodId) -> bool
        requires facts { ProgramFacts program.now }
        requires stack { IsStack program.now self.old.frames.items self.old.values.items }
        requires can { OnRunning (frames_of program.now self.old.frames.items self.old.values.items)
            (λ f fs. CanEnter program.now method f) }
        ensures stack { IsStack program.now self.new.frames.items self.new.values.items }
        ensures entered { result ≡ true → OnRunning (frames_of program.now self.old.frames.items self.old.values.items)
            (λ f fs. entered program.now method f fs
            ≡ Some (Running (frames_of program.now self.new.frames.items self.new.values.items))) }
        ensures too_deep { result ≡ false → OnRunning (frames_of program.now self.old.frames.items self.old.values.items)
            (λ f fs. (c : Control) → entered program.now method f fs ≡ Some c → is_too_deep program.now c ≡ true) }
        ensures unchanged { result ≡ false → (self.new.frames.items ≡ self.old.frames.items)
            × (self.new.values.items ≡ self.old.values.items) }
    {
        let info = program.method(method);
        let slots = usize::from(info.max_locals) + usize::from(info.max_stack);
        if self.is_full(slots) {
            return false;
        }
        let Some(caller) = self.frames.pop() else {
            unreachable!()
        };
        let count = operand_count(info);
        let kept = caller.depth - count;
        let first = self.values.len() - usize::from(program.method(caller.method).max_stack) + kept;
        push_window(&mut self.values, slots, first, count);
        let _ = self.frames.push(Frame {
            depth: kept,
            ..caller
        });
        let _ = self.frames.push(Frame {
            method,
            instr: 0,
            depth: 0,
        });
        true
    }
}
