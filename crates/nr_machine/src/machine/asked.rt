//! Remote calls and their answers (the project's own).

ghost use Rattle.std.specs.Prelude.{◌≡◌, ◌+◌, ◌<◌, ◌≤◌, Err, IfOk, IsOkUnless, OnErr, OnOk, Option, length, reverse};
ghost use Rattle.nr_linked.specs.declared.program.kind.Kind.{Kind};
ghost use Rattle.nr_linked.specs.Programs.{result_of};
ghost use Rattle.nr_model.specs.Asks.{Answered, Asks, Faulted, asked_args, fault_class};
ghost use Rattle.nr_model.specs.Belonging.{IsResult};
ghost use Rattle.nr_model.specs.Heaps.{Heap as Objects};
ghost use Rattle.nr_model.specs.Outcomes.{OutputTooLong, max_cells, max_printed};
ghost use Rattle.nr_heap.specs.Contents.{object_of, reached};
ghost use Rattle.nr_machine.specs.Executions.{IsAsking, Stands, state_in};
ghost use Rattle.nr_machine.specs.Resumed.{AnswerPasses, Resumed};

use super::Machine;
use crate::answer::{ResumeFault, Turn};
use crate::stack::{MAX_PRINTED, operand_count};
use nr_heap::{Heap, HeapFault};
use nr_linked::{Base, ClassId, Kind};
use nr_model::{Ref, Value};

impl<'p> Machine<'p> {
    /// The arguments of the remote call at which the machine stands, the first first.
    pub fn asked_args(&self) -> &[Value]
        requires { IsAsking self.now }
        ensures { (h : Objects) (a : Asks self.now.program self.now.service (state_in h self.now)) → asked_args a ≡ reverse result.now }
    {
        let program = self.program.program();
        let _facts = program.tables();
        let method = self.stack.called_method(program);
        let count = operand_count(program.method(method));
        self.stack.top_operands(program, count)
    }

    /// Goes on after the remote call at which the machine stands, with the heap that it left, its value where
    /// the method has a result, and what it printed. That is one step. `OutputTooLong` exactly where the run
    /// would have printed more than 1,048,576 bytes, and `NoMemory` for want of memory; then the machine still
    /// asks.
    pub fn resume(
        &mut self,
        heap: &Heap,
        value: Option<Value>,
        printed: &[u8],
    ) -> Result<(), ResumeFault>
        requires asking { IsAsking self.old }
        requires stands { (k : Option Kind) × Stands k heap.now.objects self.old }
        requires value { (h : Objects) (a : Asks self.old.program self.old.service (state_in h self.old))
            → IsResult self.old.program heap.now.objects (result_of self.old.program a.method) value }
        ensures resumed { OnOk result ((before : Objects)
            → Resumed before self.old (Answered heap.now.objects value printed.now) self.new heap.now.objects) }
        ensures stands { OnOk result ((k : Option Kind) → Stands k heap.now.objects self.old → Stands k heap.now.objects self.new) }
        ensures too_long { result ≡ Err ResumeFault.OutputTooLong → (before : Objects)
            → AnswerPasses before self.old (Answered heap.now.objects value printed.now) OutputTooLong }
        ensures over { max_printed < length self.old.printed + length printed.now → result ≡ Err ResumeFault.OutputTooLong }
        ensures err { OnErr result (self.new ≡ self.old) }
    {
        let program = self.program.program();
        let _facts = program.tables();
        let _cells = heap.cells();
        let _budget = self.budget;
        if self.printed.len() + printed.len() > MAX_PRINTED {
            return Err(ResumeFault::OutputTooLong);
        }
        self.printed.extend_from_slice(printed)?;
        let method = self.stack.called_method(program);
        let count = operand_count(program.method(method));
        self.stack.drop_operands(program, count);
        let _goes_on = self.stack.go_on(program, value);
        self.steps += 1;
        Ok(())
    }

    /// Goes on after the remote call at which the machine stands, which met a fault: with a throw of a new
    /// object of the class that a fault throws, whose name it gives. That is one step. `HeapFull` exactly
    /// where the heap would have more than 1,048,576 cells, with their number, and `NoMemory` for want of
    /// memory; then the machine still asks, and nothing changed.
    pub fn resume_throw(&mut self, heap: &mut Heap, class: ClassId) -> Result<Ref, HeapFault>
        requires asking { IsAsking self.old }
        requires stands { (k : Option Kind) × Stands k heap.old.objects self.old }
        requires class { class ≡ fault_class self.old.program }
        ensures thrown { IfOk result (λ name. Resumed heap.old.objects self.old (Faulted name) self.new heap.new.objects) }
        ensures stands { OnOk result ((k : Option Kind) → Stands k heap.old.objects self.old → Stands k heap.new.objects self.new) }

        // It fails exactly where the heap would pass its limit, or for want of memory.
        ensures full { let n = reached heap.old.objects (object_of self.old.program class) in
            max_cells < n → result ≡ Err (HeapFault.HeapFull n) }
        ensures other { reached heap.old.objects (object_of self.old.program class) ≤ max_cells → IsOkUnless result HeapFault.NoMemory }
        ensures err { OnErr result ((self.new ≡ self.old) × (heap.new ≡ heap.old)) }
    {
        let program = self.program.program();
        let _facts = program.tables();
        let name = heap.new_object(program, class)?;
        let _cells = heap.cells();
        let _budget = self.budget;
        let method = self.stack.called_method(program);
        let count = operand_count(program.method(method));
        self.stack.drop_operands(program, count);
        self.steps += 1;
        let kind = Kind {
            dims: 0,
            base: Base::Object(class),
        };
        if self.stack.unwind(program, kind, name) {
            return Ok(name);
        }
        self.last = Some(Turn::Thrown(name));
        Ok(name)
    }
}
