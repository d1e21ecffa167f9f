//! Printing of arrays of chars (the project's own).

ghost use Rattle.std.specs.Prelude.{◌≡◌, ◌∷◌, ◌≤◌, ℕ, List, Option, length};
ghost use Rattle.nr_linked.specs.Facts.{ProgramFacts};
ghost use Rattle.nr_model.specs.Heaps.{Heap as Objects};
ghost use Rattle.nr_model.specs.Outcomes.{max_printed};
ghost use Rattle.nr_model.specs.declared.value.Value.{Value as Held};
ghost use Rattle.nr_model.specs.declared.value.Value.TheVariants.{Null};
ghost use Rattle.nr_machine.specs.declared.stack.print.Printing.TheVariants as printings;
ghost use Rattle.nr_machine.specs.CallStacks.{IsStack, OnRunning, frames_of};
ghost use Rattle.nr_machine.specs.Prints.{PrintsBy};
ghost use Rattle.nr_machine.specs.Settles.{Settles, seen};
ghost use Rattle.nr_machine.specs.Stays.{FramesStand, running};

use super::CallStack;
use crate::answer::Turn;
use crate::printing::text_of_chars;
use nr_heap::Heap;
use nr_linked::{BuiltIn, Program};
use nr_model::Value;
use nr_step::{Flow, Told, throw_object};

impl CallStack {
    /// The running frame's instruction prints null: it throws a NullPointerException.
    fn throw_null(&mut self, program: &Program, heap: &mut Heap, told: &mut Told) -> Option<Turn>
        requires facts { ProgramFacts program.now }
        requires stack { IsStack program.now self.old.frames.items self.old.values.items }
        requires prints { (h : Objects) × FramesStand program.now h (frames_of program.now self.old.frames.items self.old.values.items)
            × PrintsBy program.now h heap.old.objects printings.Chars (frames_of program.now self.old.frames.items self.old.values.items) }
        requires null { OnRunning (frames_of program.now self.old.frames.items self.old.values.items) (λ f below. (us : List Held) × (f.operands ≡ Null ∷ us)) }
        ensures stack { IsStack program.now self.new.frames.items self.new.values.items }
        ensures settles { (h : Objects) → FramesStand program.now h (frames_of program.now self.old.frames.items self.old.values.items)
            → PrintsBy program.now h heap.old.objects printings.Chars (frames_of program.now self.old.frames.items self.old.values.items)
            → (service : Option ℕ) (printed : List ℕ) → length printed ≤ max_printed
            → Settles program.now service result (running h (frames_of program.now self.old.frames.items self.old.values.items) printed)
            (seen program.now heap.new.objects self.new.frames.items self.new.values.items result printed) }
    {
        let _cells = heap.cells();
        match throw_object(program, heap, BuiltIn::NullPointerException, told) {
            Flow::Throw => self.throw_told(program, heap, told),
            Flow::NoMemory => Some(Turn::NoMemory),
            Flow::Full => Some(Turn::HeapFull),
            _ => unreachable!(),
        }
    }

    /// The running frame's instruction prints the chars of an array, its topmost operand; for null it throws.
    pub fn print_chars(
        &mut self,
        program: &Program,
        heap: &mut Heap,
        printed: &mut Vec<u8>,
        told: &mut Told,
    ) -> Option<Turn>
        requires facts { ProgramFacts program.now }
        requires stack { IsStack program.now self.old.frames.items self.old.values.items }
        requires short { length printed.old.items ≤ max_printed }
        requires prints { (h : Objects) × FramesStand program.now h (frames_of program.now self.old.frames.items self.old.values.items)
            × PrintsBy program.now h heap.old.objects printings.Chars (frames_of program.now self.old.frames.items self.old.values.items) }
        ensures stack { IsStack program.now self.new.frames.items self.new.values.items }
        ensures short { length printed.new.items ≤ max_printed }
        ensures settles { (h : Objects) → FramesStand program.now h (frames_of program.now self.old.frames.items self.old.values.items)
            → PrintsBy program.now h heap.old.objects printings.Chars (frames_of program.now self.old.frames.items self.old.values.items)
            → (service : Option ℕ)
            → Settles program.now service result (running h (frames_of program.now self.old.frames.items self.old.values.items) printed.old.items)
            (seen program.now heap.new.objects self.new.frames.items self.new.values.items result printed.new.items) }
    {
        let _cells = heap.cells();
        let name = match self.top_operand(program) {
            Value::Ref(name) => name,
            Value::Null => return self.throw_null(program, heap, told),
            _ => unreachable!(),
        };
        match text_of_chars(*printed.allocator(), heap, name) {
            Ok(text) => self.print_text(program, heap, printed, text.as_bytes(), 1),
            Err(_) => Some(Turn::NoMemory),
        }
    }
}
