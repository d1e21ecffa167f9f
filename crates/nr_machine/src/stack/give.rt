//! Returns (JVM Specification 2.6.4).

ghost use Rattle.std.specs.Prelude.{◌≡◌, ◌<◌, Some, false, length, true};
ghost use Rattle.nr_linked.specs.Facts.{ProgramFacts};
ghost use Rattle.nr_model.specs.States.{Control, Returned, Running};
ghost use Rattle.nr_model.specs.Steps.{given};
ghost use Rattle.nr_machine.specs.CallStacks.{CanGoOn, IsStack, OnRunning, code_at, frames_of};

use super::{CallStack, Frame};
use nr_linked::{MethodId, Program};
use nr_model::Value;
use nr_prog::Instr;

/// The instructions of a method's code; none where it has no code.
#[inline(always)]
pub fn code_of(program: &Program, method: MethodId) -> &[Instr]
    requires { method < length program.now.methods }
    ensures { result.now ≡ code_at program.now method }
{
    match &program.method(method).body {
        Some(body) => body.instrs.as_slice(),
        None => &[],
    }
}

impl CallStack {
    /// A method returned to the running frame, with its result where it has one: the frame goes on at its next
    /// instruction, with the result as an operand. It answers false where there is no frame.
    #[inline(always)]
    pub fn go_on(&mut self, program: &Program, value: Option<Value>) -> bool
        requires facts { ProgramFacts program.now }
        requires stack { IsStack program.now self.old.frames.items self.old.values.items }
        requires can { (c : Control) × (given program.now value (frames_of program.now self.old.frames.items self.old.values.items) ≡ Some c)
            × CanGoOn program.now c }
        ensures stack { IsStack program.now self.new.frames.items self.new.values.items }
        ensures onward { result ≡ true → given program.now value (frames_of program.now self.old.frames.items self.old.values.items)
            ≡ Some (Running (frames_of program.now self.new.frames.items self.new.values.items)) }
        ensures ended { result ≡ false → given program.now value (frames_of program.now self.old.frames.items self.old.values.items)
            ≡ Some (Returned value) }
        ensures some { 0 < length self.old.frames.items → result ≡ true }
    {
        let Some(caller) = self.frames.pop() else {
            return false;
        };
        let code = code_of(program, caller.method);
        let next = caller.instr + 1;
        prove!(next < code.len());
        let frame = Frame {
            instr: next,
            ..caller
        };
        match value {
            Some(value) => self.put_back(program, frame, value),
            None => {
                let _ = self.frames.push(frame);
            }
        }
        true
    }

    /// The running method returns, with its result where it has one, to the frame below. It answers false
    /// where there is none below.
    #[inline(always)]
    pub fn give(&mut self, program: &Program, value: Option<Value>) -> bool
        requires facts { ProgramFacts program.now }
        requires stack { IsStack program.now self.old.frames.items self.old.values.items }
        requires can { OnRunning (frames_of program.now self.old.frames.items self.old.values.items)
            (λ f fs. (c : Control) × (given program.now value fs ≡ Some c) × CanGoOn program.now c) }
        ensures stack { IsStack program.now self.new.frames.items self.new.values.items }
        ensures onward { result ≡ true → OnRunning (frames_of program.now self.old.frames.items self.old.values.items)
            (λ f fs. given program.now value fs
            ≡ Some (Running (frames_of program.now self.new.frames.items self.new.values.items))) }
        ensures ended { result ≡ false → OnRunning (frames_of program.now self.old.frames.items self.old.values.items)
            (λ f fs. given program.now value fs ≡ Some (Returned value)) }
    {
        self.drop_running(program);
        self.go_on(program, value)
    }
}
