//! What the running frame calls, and with which arguments.

ghost use Rattle.std.specs.Prelude.{◌≡◌, ◌-◌, ◌<◌, ◌≤◌, ℕ, drop, length, reverse, take};
ghost use Rattle.nr_linked.specs.Facts.{ProgramFacts};
ghost use Rattle.nr_machine.specs.CallStacks.{IsCallOf, IsLast, IsStack, OnRunning, frames_of};

use super::{CallStack, Frame};
use nr_linked::{MethodId, Program, Resolved};
use nr_model::Value;

/// So many values that end before a place.
#[inline(always)]
fn part_before(values: &[Value], end: usize, count: usize) -> &[Value]
    requires start { count ≤ end }
    requires end { end ≤ length values.now }
    ensures { result.now ≡ take count (drop (end - count) values.now) }
{
    &values[end - count..end]
}

impl CallStack {
    /// The frame of the running method.
    #[inline(always)]
    pub fn running(&self) -> Frame
        requires { 0 < length self.now.frames.items }
        ensures { IsLast self.now.frames.items result }
    {
        self.frames[self.frames.len() - 1]
    }

    /// The method that the running frame's instruction names.
    pub fn called_method(&self, program: &Program) -> MethodId
        requires facts { ProgramFacts program.now }
        requires some { 0 < length self.now.frames.items }
        requires stack { IsStack program.now self.now.frames.items self.now.values.items }
        requires call { OnRunning (frames_of program.now self.now.frames.items self.now.values.items)
            (λ f fs. (m : ℕ) × IsCallOf program.now f m) }
        ensures { OnRunning (frames_of program.now self.now.frames.items self.now.values.items)
            (λ f fs. IsCallOf program.now f result) }
    {
        let frame = self.running();
        match program.method(frame.method).resolved.as_slice()[frame.instr] {
            Resolved::Method(method, _) => method,
            _ => unreachable!(),
        }
    }

    /// The topmost operands of the running frame, so many, the lowest first.
    pub fn top_operands(&self, program: &Program, count: usize) -> &[Value]
        requires some { 0 < length self.now.frames.items }
        requires stack { IsStack program.now self.now.frames.items self.now.values.items }
        requires enough { OnRunning (frames_of program.now self.now.frames.items self.now.values.items)
            (λ f fs. count ≤ length f.operands) }
        ensures { OnRunning (frames_of program.now self.now.frames.items self.now.values.items)
            (λ f fs. reverse (take count f.operands) ≡ result.now) }
    {
        let frame = self.running();
        let values = self.values.as_slice();
        let operands = values.len() - usize::from(program.method(frame.method).max_stack);
        part_before(values, operands + frame.depth, count)
    }
}
