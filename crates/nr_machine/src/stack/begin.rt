//! The first frame of a run (JVM Specification 2.6.1).

ghost use Rattle.std.specs.Prelude.{◌≡◌, ◌∷◌, [], IsSome, IsSomeAnd, List, false, reverse, true};
ghost use Rattle.nr_linked.specs.Facts.{ProgramFacts};
ghost use Rattle.nr_linked.specs.Programs.{method_at};
ghost use Rattle.nr_model.specs.declared.value.Value.{Value as Held};
ghost use Rattle.nr_model.specs.Heaps.{Heap as Objects};
ghost use Rattle.nr_model.specs.Locals.{Begins};
ghost use Rattle.nr_model.specs.Outcomes.{is_too_deep};
ghost use Rattle.nr_model.specs.States.{Running, State};
ghost use Rattle.nr_model.specs.Steps.{first_frame};
ghost use Rattle.nr_machine.specs.CallStacks.{CanBegin, IsStack, frames_of};

use super::arguments::push_first_window;
use super::{CallStack, Frame, MAX_VALUES};
use nr_linked::{MethodId, Program};
use nr_model::Value;

/// Whether the first frame of a run that begins with the method passes a limit by itself.
pub fn is_first_too_deep(program: &Program, method: MethodId) -> bool
    requires { IsSome (method_at program.now method) }
    ensures { (h : Objects) (args : List Held) (s : State) → Begins program.now h method args s → is_too_deep program.now s.control ≡ result }
{
    let info = program.method(method);
    usize::from(info.max_locals) + usize::from(info.max_stack) > MAX_VALUES
}

impl CallStack {
    /// Makes the frame of the first method, with its arguments, the first first. It answers false where that
    /// frame alone would pass a limit.
    pub fn begin(&mut self, program: &Program, method: MethodId, args: &[Value]) -> bool
        requires facts { ProgramFacts program.now }
        requires frames { self.old.frames.items ≡ [] }
        requires values { self.old.values.items ≡ [] }
        requires can { CanBegin program.now method args.now }
        ensures stack { result ≡ true → IsStack program.now self.new.frames.items self.new.values.items }
        ensures begun { result ≡ true → IsSomeAnd (method_at program.now method)
            (λ i. frames_of program.now self.new.frames.items self.new.values.items
            ≡ first_frame i method (reverse args.now) ∷ []) }
        ensures too_deep { result ≡ false → IsSomeAnd (method_at program.now method)
            (λ i. is_too_deep program.now (Running (first_frame i method (reverse args.now) ∷ [])) ≡ true) }
    {
        let info = program.method(method);
        let slots = usize::from(info.max_locals) + usize::from(info.max_stack);
        if self.is_full(slots) {
            return false;
        }
        push_first_window(&mut self.values, slots, args);
        let _ = self.frames.push(Frame {
            method,
            instr: 0,
            depth: 0,
        });
        true
    }
}
