//! Frames that end, and frames that go on (JVM Specification 2.6.4, 2.6.5).

ghost use Rattle.std.specs.Prelude.{◌≡◌, ◌∷◌, ◌++◌, ◌+◌, ◌<◌, ◌≤◌, [], IsSomeAnd, drop, length};
ghost use Rattle.nr_linked.specs.Programs.{method_at};
ghost use Rattle.nr_machine.specs.CallStacks.{IsStack, OnRunning, frames_of};

use super::{CallStack, Frame};
use nr_linked::Program;
use nr_model::Value;

impl CallStack {
    /// Takes the running frame away, with its values.
    #[inline(always)]
    pub fn drop_running(&mut self, program: &Program)
        requires some { 0 < length self.old.frames.items }
        requires stack { IsStack program.now self.old.frames.items self.old.values.items }
        ensures stack { IsStack program.now self.new.frames.items self.new.values.items }
        ensures dropped { OnRunning (frames_of program.now self.old.frames.items self.old.values.items)
            (λ f fs. frames_of program.now self.new.frames.items self.new.values.items ≡ fs) }
        ensures fewer { length self.new.frames.items + 1 ≡ length self.old.frames.items }
    {
        let Some(frame) = self.frames.pop() else {
            unreachable!()
        };
        let info = program.method(frame.method);
        let slots = usize::from(info.max_locals) + usize::from(info.max_stack);
        self.values.truncate(self.values.len() - slots);
    }

    /// Puts a frame, which was taken from the top, back there with one more operand.
    #[inline(always)]
    pub fn put_back(&mut self, program: &Program, frame: Frame, operand: Value)
        requires stack { IsStack program.now (self.old.frames.items ++ frame ∷ []) self.old.values.items }
        requires room { IsSomeAnd (method_at program.now frame.method) (λ i. frame.depth + 1 ≤ i.max_stack) }
        ensures stack { IsStack program.now self.new.frames.items self.new.values.items }
        ensures frames { OnRunning (frames_of program.now (self.old.frames.items ++ frame ∷ []) self.old.values.items)
            (λ f fs. frames_of program.now self.new.frames.items self.new.values.items
            ≡ record f { operands = operand ∷ f.operands } ∷ fs) }
    {
        let info = program.method(frame.method);
        let operands = self.values.len() - usize::from(info.max_stack);
        self.values[operands + frame.depth] = operand;
        let _ = self.frames.push(Frame {
            depth: frame.depth + 1,
            ..frame
        });
    }

    /// Takes so many operands of the running frame away.
    pub fn drop_operands(&mut self, program: &Program, count: usize)
        requires stack { IsStack program.now self.old.frames.items self.old.values.items }
        requires enough { OnRunning (frames_of program.now self.old.frames.items self.old.values.items)
            (λ f fs. count ≤ length f.operands) }
        ensures stack { IsStack program.now self.new.frames.items self.new.values.items }
        ensures frames { OnRunning (frames_of program.now self.old.frames.items self.old.values.items)
            (λ f fs. frames_of program.now self.new.frames.items self.new.values.items
            ≡ record f { operands = drop count f.operands } ∷ fs) }
        ensures as_many { length self.new.frames.items ≡ length self.old.frames.items }
    {
        let Some(frame) = self.frames.pop() else {
            unreachable!()
        };
        let _ = self.frames.push(Frame {
            depth: frame.depth - count,
            ..frame
        });
    }
}
