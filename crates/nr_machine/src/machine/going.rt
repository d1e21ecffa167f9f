//! Turns (the project's own).

ghost use Rattle.std.specs.Prelude.{◌≡◌, ◌≤◌, Option};
ghost use Rattle.nr_linked.specs.declared.program.kind.Kind.{Kind};
ghost use Rattle.nr_machine.specs.Executions.{Stands};
ghost use Rattle.nr_machine.specs.Turned.{Turned, last_of};

use super::Machine;
use crate::answer::Turn;
use nr_heap::Heap;

/// The answer, if each later turn gives it again.
fn last_of(answer: Turn) -> Option<Turn>
    ensures { result ≡ last_of answer }
{
    match answer {
        Turn::Ran | Turn::RemoteAsk(_) => None,
        _ => Some(answer),
    }
}

impl<'p> Machine<'p> {
    /// Makes steps of the run, `n` at most, and answers why it ends there: as `Turn` says. An end comes first.
    /// A step that would pass a limit, or for which memory runs out, isn't made: the machine and the heap are
    /// as before it. A machine that has given a last answer gives it again, and stays as it is.
    pub fn turn(&mut self, heap: &mut Heap, n: u64) -> Turn
        requires some { 1 ≤ n }
        requires stands { (k : Option Kind) × Stands k heap.old.objects self.old }
        ensures turned { Turned n self.old heap.old.objects result self.new heap.new.objects }
        ensures stands { (k : Option Kind) → Stands k heap.old.objects self.old → Stands k heap.new.objects self.new }
    {
        if let Some(last) = self.last {
            return last;
        }
        let program = self.program.program();
        let _facts = program.tables();
        let steps = n.min(self.budget - self.steps);
        let part = self.stack.advance_all(
            program,
            &mut self.selections,
            self.service,
            heap,
            &mut self.printed,
            steps,
        );
        self.steps += part.made;
        let answer = match part.answer {
            Some(answer) => answer,
            None if self.steps == self.budget => Turn::BudgetSpent,
            None => Turn::Ran,
        };
        self.last = last_of(answer);
        answer
    }
}
