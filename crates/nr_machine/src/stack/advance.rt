//! Steps of a run, over the frames that it enters and leaves.

ghost use Rattle.std.specs.Prelude.{◌≡◌, ◌+◌, ◌<◌, ◌≤◌, ◌^◌, ℕ, None, length};
ghost use Rattle.nr_linked.specs.Facts.{ProgramFacts};
ghost use Rattle.nr_model.specs.Heaps.{Heap as Objects};
ghost use Rattle.nr_model.specs.Outcomes.{max_printed};
ghost use Rattle.nr_machine.specs.CallStacks.{IsStack, frames_of};
ghost use Rattle.nr_machine.specs.Settles.{Advanced, Settles, seen, with_step};
ghost use Rattle.nr_machine.specs.Stays.{FramesStand, Leaves, running};

use super::CallStack;
use crate::answer::Turn;
use nr_heap::Heap;
use nr_linked::{ClassId, Program};
use nr_step::{Flow, Selections, Told};

/// How many steps were made, and why no more; `None` where all were made that there were.
#[derive(Clone, Copy, Debug, PartialEq, Eq)]
pub struct Advance {
    pub made: u64,
    pub answer: Option<Turn>,
}

/// So many steps, and the one that the answer tells of, if it was made: not at a limit, and where a remote
/// method is asked for.
#[inline(always)]
fn with_step(answer: Option<Turn>, made: u64) -> u64
    requires { made + 1 < 2 ^ 64 }
    ensures { result ≡ with_step answer made }
{
    match answer {
        None | Some(Turn::Returned(_)) | Some(Turn::Thrown(_)) => made + 1,
        Some(_) => made,
    }
}

impl CallStack {
    /// Makes the step of the instruction that left its frame so, or answers why not.
    #[inline(always)]
    fn settle(
        &mut self,
        program: &Program,
        service: Option<ClassId>,
        heap: &mut Heap,
        printed: &mut Vec<u8>,
        flow: Flow,
        told: &mut Told,
    ) -> Option<Turn>
        requires facts { ProgramFacts program.now }
        requires stack { IsStack program.now self.old.frames.items self.old.values.items }
        requires short { length printed.old.items ≤ max_printed }
        requires left { (h : Objects) × FramesStand program.now h (frames_of program.now self.old.frames.items self.old.values.items)
            × Leaves program.now (frames_of program.now self.old.frames.items self.old.values.items) flow told.old h heap.old.objects }
        ensures stack { IsStack program.now self.new.frames.items self.new.values.items }
        ensures short { length printed.new.items ≤ max_printed }
        ensures settles { (h : Objects) → FramesStand program.now h (frames_of program.now self.old.frames.items self.old.values.items)
            → Leaves program.now (frames_of program.now self.old.frames.items self.old.values.items) flow told.old h heap.old.objects
            → Settles program.now service result (running h (frames_of program.now self.old.frames.items self.old.values.items) printed.old.items)
            (seen program.now heap.new.objects self.new.frames.items self.new.values.items result printed.new.items) }
    {
        match flow {
            Flow::Throw => self.throw_told(program, heap, told),
            Flow::Invoke => self.call_told(program, service, heap, told),
            Flow::Print => self.print_told(program, heap, printed, told),
            Flow::Return => self.return_nothing(program, heap, told),
            Flow::ReturnTop => self.return_top(program, heap, told),
            Flow::NoMemory => Some(Turn::NoMemory),
            Flow::Full => Some(Turn::HeapFull),
            Flow::Next | Flow::Branch => unreachable!(),
        }
    }

    /// Makes steps, so many at most: of one frame, and the one that leaves it.
    fn advance(
        &mut self,
        program: &Program,
        selections: &mut Selections<'_>,
        service: Option<ClassId>,
        heap: &mut Heap,
        printed: &mut Vec<u8>,
        steps: u64,
    ) -> Advance
        requires facts { ProgramFacts program.now }
        requires same { selections.old ≡ program.now }
        requires stack { IsStack program.now self.old.frames.items self.old.values.items }
        requires short { length printed.old.items ≤ max_printed }
        requires stands { FramesStand program.now heap.old.objects (frames_of program.now self.old.frames.items self.old.values.items) }
        requires some { 0 < steps }
        ensures same { selections.new ≡ selections.old }
        ensures stack { IsStack program.now self.new.frames.items self.new.values.items }
        ensures short { length printed.new.items ≤ max_printed }
        ensures few { result.made ≤ steps }
        ensures some { result.answer ≡ None → 0 < result.made }
        ensures advanced { Advanced program.now service steps
            (running heap.old.objects (frames_of program.now self.old.frames.items self.old.values.items) printed.old.items) result.made result.answer
            (seen program.now heap.new.objects self.new.frames.items self.new.values.items result.answer printed.new.items) }
    {
        let mut told = Told {
            number: 0,
            cells: 0,
        };
        let stay = self.stay(program, selections, heap, steps, &mut told);
        match stay.flow {
            None => Advance {
                made: stay.made,
                answer: None,
            },
            Some(flow) => {
                let answer = self.settle(program, service, heap, printed, flow, &mut told);
                Advance {
                    made: with_step(answer, stay.made),
                    answer,
                }
            }
        }
    }

    /// Makes steps, so many unless the run ends or stops before.
    pub fn advance_all(
        &mut self,
        program: &Program,
        selections: &mut Selections<'_>,
        service: Option<ClassId>,
        heap: &mut Heap,
        printed: &mut Vec<u8>,
        steps: u64,
    ) -> Advance
        requires facts { ProgramFacts program.now }
        requires same { selections.old ≡ program.now }
        requires stack { IsStack program.now self.old.frames.items self.old.values.items }
        requires short { length printed.old.items ≤ max_printed }
        requires stands { FramesStand program.now heap.old.objects (frames_of program.now self.old.frames.items self.old.values.items) }
        ensures same { selections.new ≡ selections.old }
        ensures stack { IsStack program.now self.new.frames.items self.new.values.items }
        ensures short { length printed.new.items ≤ max_printed }
        ensures few { result.made ≤ steps }
        ensures all { result.answer ≡ None → result.made ≡ steps }
        ensures advanced { Advanced program.now service steps
            (running heap.old.objects (frames_of program.now self.old.frames.items self.old.values.items) printed.old.items) result.made result.answer
            (seen program.now heap.new.objects self.new.frames.items self.new.values.items result.answer printed.new.items) }
    {
        let mut made = 0;
        while made < steps {
            let part = self.advance(program, selections, service, heap, printed, steps - made);
            made += part.made;
            if part.answer.is_some() {
                return Advance {
                    made,
                    answer: part.answer,
                };
            }
        }
        Advance { made, answer: None }
    }
}
