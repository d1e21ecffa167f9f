//! Steps of the running method, one behind the other.

ghost use Rattle.std.specs.Prelude.{◌≡◌, ◌∷◌, ◌-◌, ◌≤◌, ℕ, IsSomeAnd, List, drop, false, length, take};
ghost use Rattle.nr_linked.specs.Facts.{ProgramFacts};
ghost use Rattle.nr_linked.specs.Programs.{method_at};
ghost use Rattle.nr_model.specs.Outcomes.{is_too_deep};
ghost use Rattle.nr_model.specs.States.{Frame as Seen, Running};
ghost use Rattle.nr_machine.specs.CallStacks.{IsPlaced, IsStack, frame_of, frames_of, slots_of};
ghost use Rattle.nr_machine.specs.Stays.{FramesStand, Stayed, frame_with};

use super::places::place_at;
use super::{CallStack, Frame};
use nr_heap::Heap;
use nr_linked::Program;
use nr_model::Value;
use nr_step::{Flow, Selections, Told, step};

/// How many steps were made in the running frame, and how the instruction went that leaves it; `None` where
/// all steps were made.
#[derive(Clone, Copy, Debug, PartialEq, Eq)]
pub struct Stay {
    pub made: u64,
    pub flow: Option<Flow>,
}

/// Makes steps of the frame's method, so many at most, up to an instruction that leaves the frame.
#[inline(always)]
fn stay_in_frame(
    program: &Program,
    selections: &mut Selections<'_>,
    frame: &mut Frame,
    locals: &mut [Value],
    stack: &mut [Value],
    heap: &mut Heap,
    steps: u64,
    told: &mut Told,
) -> Stay
    requires facts { ProgramFacts program.now }
    requires same { selections.old ≡ program.now }
    requires placed { IsPlaced program.now frame.old }
    requires room { IsSomeAnd (method_at program.now frame.old.method) (λ i. length stack.old ≡ i.max_stack) }
    requires stands { (below : List Seen) × FramesStand program.now heap.old.objects (frame_with program.now frame.old locals.old stack.old ∷ below) }
    ensures same { selections.new ≡ selections.old }
    ensures placed { IsPlaced program.now frame.new }
    ensures method { frame.new.method ≡ frame.old.method }
    ensures few { result.made ≤ steps }
    ensures stayed { (below : List Seen) → is_too_deep program.now (Running (frame_with program.now frame.old locals.old stack.old ∷ below)) ≡ false
        → Stayed program.now steps heap.old.objects (frame_with program.now frame.old locals.old stack.old ∷ below) result.made result.flow told.new
        heap.new.objects (frame_with program.now frame.new locals.new stack.new ∷ below) }
{
    let own = program.method(frame.method);
    let Some(body) = &own.body else {
        unreachable!()
    };
    let code = body.instrs.as_slice();
    let found = own.resolved.as_slice();
    let _before = heap.cells();
    for made in 0..steps {
        let instr = &code[frame.instr];
        let flow = step(
            program,
            selections,
            own,
            instr,
            &found[frame.instr],
            heap,
            locals,
            stack,
            &mut frame.depth,
            told,
        );
        let _cells = heap.cells();
        match flow {
            Flow::Next => frame.instr += 1,
            Flow::Branch => frame.instr = place_at(code, told.number),
            _ => {
                return Stay {
                    made,
                    flow: Some(flow),
                };
            }
        }
    }
    Stay {
        made: steps,
        flow: None,
    }
}

/// The same, where the values end with the frame's window.
#[inline(always)]
fn stay_at_end(
    program: &Program,
    selections: &mut Selections<'_>,
    frame: &mut Frame,
    values: &mut [Value],
    heap: &mut Heap,
    steps: u64,
    told: &mut Told,
) -> Stay
    requires facts { ProgramFacts program.now }
    requires same { selections.old ≡ program.now }
    requires placed { IsPlaced program.now frame.old }
    requires window { slots_of program.now frame.old.method ≤ length values.old }
    requires stands { (below : List Seen) × FramesStand program.now heap.old.objects (frame_of program.now frame.old
        (drop (length values.old - slots_of program.now frame.old.method) values.old) ∷ below) }
    ensures same { selections.new ≡ selections.old }
    ensures placed { IsPlaced program.now frame.new }
    ensures method { frame.new.method ≡ frame.old.method }
    ensures few { result.made ≤ steps }
    ensures below { let from = length values.old - slots_of program.now frame.old.method in take from values.new ≡ take from values.old }
    ensures stayed { let from = length values.old - slots_of program.now frame.old.method in
        (below : List Seen) → is_too_deep program.now (Running (frame_of program.now frame.old (drop from values.old) ∷ below)) ≡ false
        → Stayed program.now steps heap.old.objects (frame_of program.now frame.old (drop from values.old) ∷ below) result.made result.flow told.new
        heap.new.objects (frame_of program.now frame.new (drop from values.new) ∷ below) }
{
    let info = program.method(frame.method);
    let places = usize::from(info.max_locals);
    let from = values.len() - (places + usize::from(info.max_stack));
    let (_, window) = values.split_at_mut(from);
    let (locals, stack) = window.split_at_mut(places);
    stay_in_frame(program, selections, frame, locals, stack, heap, steps, told)
}

impl CallStack {
    /// Makes steps of the running method, so many at most, up to an instruction that leaves its frame.
    pub fn stay(
        &mut self,
        program: &Program,
        selections: &mut Selections<'_>,
        heap: &mut Heap,
        steps: u64,
        told: &mut Told,
    ) -> Stay
        requires facts { ProgramFacts program.now }
        requires same { selections.old ≡ program.now }
        requires stack { IsStack program.now self.old.frames.items self.old.values.items }
        requires stands { FramesStand program.now heap.old.objects (frames_of program.now self.old.frames.items self.old.values.items) }
        ensures same { selections.new ≡ selections.old }
        ensures stack { IsStack program.now self.new.frames.items self.new.values.items }
        ensures few { result.made ≤ steps }
        ensures stayed { Stayed program.now steps heap.old.objects (frames_of program.now self.old.frames.items self.old.values.items)
            result.made result.flow told.new heap.new.objects (frames_of program.now self.new.frames.items self.new.values.items) }
    {
        let Some(mut frame) = self.frames.pop() else {
            unreachable!()
        };
        let stay = stay_at_end(
            program,
            selections,
            &mut frame,
            &mut self.values,
            heap,
            steps,
            told,
        );
        let _ = self.frames.push(frame);
        stay
    }
}
