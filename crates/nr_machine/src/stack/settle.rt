//! What follows an instruction that leaves its frame: throws, calls and returns.

ghost use Rattle.std.specs.Prelude.{◌≡◌, ◌∷◌, ◌≤◌, ℕ, IfSome, List, None, Option, Some, length};
ghost use Rattle.nr_linked.specs.Facts.{ProgramFacts};
ghost use Rattle.nr_model.specs.Asks.{Asks, is_remote};
ghost use Rattle.nr_model.specs.Heaps.{Heap as Objects};
ghost use Rattle.nr_model.specs.Outcomes.{max_printed};
ghost use Rattle.nr_model.specs.declared.value.Value.{Value as Held};
ghost use Rattle.nr_step.specs.declared.flow.Flow.TheVariants as flows;
ghost use Rattle.nr_machine.specs.CallStacks.{IsStack, OnRunning, frames_of};
ghost use Rattle.nr_machine.specs.Settles.{GivesBack, Settles, seen};
ghost use Rattle.nr_machine.specs.Stays.{FramesStand, Leaves, running};

use super::CallStack;
use super::enter::STATIC;
use super::give::code_of;
use crate::answer::Turn;
use nr_heap::Heap;
use nr_linked::{ClassId, MethodId, MethodInfo, Program, Resolved};
use nr_model::Value;
use nr_step::Told;

/// invokestatic (JVM Specification 6.5).
const INVOKESTATIC: u8 = 184;

/// ACC_PUBLIC (JVM Specification 4.6, table 4.6-A).
const PUBLIC: u16 = 0x0001;

/// Whether the method is one of the service's remote methods.
fn is_remote(service: Option<ClassId>, info: &MethodInfo) -> bool
    ensures { result ≡ is_remote service info.now }
{
    match service {
        Some(class) => {
            info.class == class && (info.flags & PUBLIC != 0 && info.flags & STATIC != 0)
        }
        None => false,
    }
}

impl CallStack {
    /// The remote method of the service that the running frame's instruction calls, if it calls one.
    pub fn asked_method(&self, program: &Program, service: Option<ClassId>) -> Option<MethodId>
        requires facts { ProgramFacts program.now }
        requires stack { IsStack program.now self.now.frames.items self.now.values.items }
        requires stands { (h : Objects) × FramesStand program.now h (frames_of program.now self.now.frames.items self.now.values.items) }
        ensures asks { IfSome result (λ m. (h : Objects) (printed : List ℕ)
            → (a : Asks program.now service (running h (frames_of program.now self.now.frames.items self.now.values.items) printed)) × (a.method ≡ m)) }
        ensures own { result ≡ None → (h : Objects) (printed : List ℕ)
            → Asks program.now service (running h (frames_of program.now self.now.frames.items self.now.values.items) printed) → ⊥ }
    {
        if service.is_none() {
            return None;
        }
        let frame = self.running();
        let code = code_of(program, frame.method);
        if code[frame.instr].row.code != INVOKESTATIC {
            return None;
        }
        let Resolved::Method(method, _) = program
            .method(frame.method)
            .resolved
            .as_slice()[frame.instr]
        else {
            return None;
        };
        let called = program.method_at(method)?;
        if called.body.is_some() && is_remote(service, called) {
            Some(method)
        } else {
            None
        }
    }

    /// The topmost operand of the running frame.
    #[inline(always)]
    pub fn top_operand(&self, program: &Program) -> Value
        requires stack { IsStack program.now self.now.frames.items self.now.values.items }
        requires some { OnRunning (frames_of program.now self.now.frames.items self.now.values.items) (λ f below. 1 ≤ length f.operands) }
        ensures { OnRunning (frames_of program.now self.now.frames.items self.now.values.items)
            (λ f below. (us : List Held) × (f.operands ≡ result ∷ us)) }
    {
        self.top_operands(program, 1)[0]
    }

    /// The object is thrown that was told. It answers it where no frame handles it.
    #[cold]
    #[inline(never)]
    pub fn throw_told(&mut self, program: &Program, heap: &Heap, told: &Told) -> Option<Turn>
        requires facts { ProgramFacts program.now }
        requires stack { IsStack program.now self.old.frames.items self.old.values.items }
        requires left { (h : Objects) × FramesStand program.now h (frames_of program.now self.old.frames.items self.old.values.items)
            × Leaves program.now (frames_of program.now self.old.frames.items self.old.values.items) flows.Throw told.now h heap.now.objects }
        ensures stack { IsStack program.now self.new.frames.items self.new.values.items }
        ensures settles { (h : Objects) → FramesStand program.now h (frames_of program.now self.old.frames.items self.old.values.items)
            → Leaves program.now (frames_of program.now self.old.frames.items self.old.values.items) flows.Throw told.now h heap.now.objects
            → (service : Option ℕ) (printed : List ℕ) → length printed ≤ max_printed
            → Settles program.now service result (running h (frames_of program.now self.old.frames.items self.old.values.items) printed)
            (seen program.now heap.now.objects self.new.frames.items self.new.values.items result printed) }
    {
        let _cells = heap.cells();
        let thrown = told.number;
        let kind = heap.kind_of(thrown);
        if self.unwind(program, kind, thrown) {
            None
        } else {
            Some(Turn::Thrown(thrown))
        }
    }

    /// The method that was told is called. It answers, and changes nothing, where the method is a remote one of
    /// the service, and where the call would pass a limit.
    #[inline(always)]
    pub fn call_told(
        &mut self,
        program: &Program,
        service: Option<ClassId>,
        heap: &Heap,
        told: &Told,
    ) -> Option<Turn>
        requires facts { ProgramFacts program.now }
        requires stack { IsStack program.now self.old.frames.items self.old.values.items }
        requires left { (h : Objects) × FramesStand program.now h (frames_of program.now self.old.frames.items self.old.values.items)
            × Leaves program.now (frames_of program.now self.old.frames.items self.old.values.items) flows.Invoke told.now h heap.now.objects }
        ensures stack { IsStack program.now self.new.frames.items self.new.values.items }
        ensures settles { (h : Objects) → FramesStand program.now h (frames_of program.now self.old.frames.items self.old.values.items)
            → Leaves program.now (frames_of program.now self.old.frames.items self.old.values.items) flows.Invoke told.now h heap.now.objects
            → (printed : List ℕ) → length printed ≤ max_printed
            → Settles program.now service result (running h (frames_of program.now self.old.frames.items self.old.values.items) printed)
            (seen program.now heap.now.objects self.new.frames.items self.new.values.items result printed) }
    {
        if let Some(method) = self.asked_method(program, service) {
            return Some(Turn::RemoteAsk(method));
        }
        if self.enter(program, told.number) {
            None
        } else {
            Some(Turn::TooDeep)
        }
    }

    /// The running method returns, with this result where it has one. It answers the result where it was the
    /// first method.
    #[inline(always)]
    fn return_value(&mut self, program: &Program, heap: &Heap, value: Option<Value>) -> Option<Turn>
        requires facts { ProgramFacts program.now }
        requires stack { IsStack program.now self.old.frames.items self.old.values.items }
        requires left { (h : Objects) × FramesStand program.now h (frames_of program.now self.old.frames.items self.old.values.items)
            × GivesBack program.now h heap.now.objects value (frames_of program.now self.old.frames.items self.old.values.items) }
        ensures stack { IsStack program.now self.new.frames.items self.new.values.items }
        ensures settles { (h : Objects) → FramesStand program.now h (frames_of program.now self.old.frames.items self.old.values.items)
            → GivesBack program.now h heap.now.objects value (frames_of program.now self.old.frames.items self.old.values.items)
            → (service : Option ℕ) (printed : List ℕ) → length printed ≤ max_printed
            → Settles program.now service result (running h (frames_of program.now self.old.frames.items self.old.values.items) printed)
            (seen program.now heap.now.objects self.new.frames.items self.new.values.items result printed) }
    {
        let _cells = heap.cells();
        if self.give(program, value) {
            None
        } else {
            Some(Turn::Returned(value))
        }
    }

    /// The running method returns nothing.
    #[inline(always)]
    pub fn return_nothing(&mut self, program: &Program, heap: &Heap, told: &Told) -> Option<Turn>
        requires facts { ProgramFacts program.now }
        requires stack { IsStack program.now self.old.frames.items self.old.values.items }
        requires left { (h : Objects) × FramesStand program.now h (frames_of program.now self.old.frames.items self.old.values.items)
            × Leaves program.now (frames_of program.now self.old.frames.items self.old.values.items) flows.Return told.now h heap.now.objects }
        ensures stack { IsStack program.now self.new.frames.items self.new.values.items }
        ensures settles { (h : Objects) → FramesStand program.now h (frames_of program.now self.old.frames.items self.old.values.items)
            → Leaves program.now (frames_of program.now self.old.frames.items self.old.values.items) flows.Return told.now h heap.now.objects
            → (service : Option ℕ) (printed : List ℕ) → length printed ≤ max_printed
            → Settles program.now service result (running h (frames_of program.now self.old.frames.items self.old.values.items) printed)
            (seen program.now heap.now.objects self.new.frames.items self.new.values.items result printed) }
    {
        let _ = told;
        self.return_value(program, heap, None)
    }

    /// The running method returns its topmost operand.
    #[inline(always)]
    pub fn return_top(&mut self, program: &Program, heap: &Heap, told: &Told) -> Option<Turn>
        requires facts { ProgramFacts program.now }
        requires stack { IsStack program.now self.old.frames.items self.old.values.items }
        requires left { (h : Objects) × FramesStand program.now h (frames_of program.now self.old.frames.items self.old.values.items)
            × Leaves program.now (frames_of program.now self.old.frames.items self.old.values.items) flows.ReturnTop told.now h heap.now.objects }
        ensures stack { IsStack program.now self.new.frames.items self.new.values.items }
        ensures settles { (h : Objects) → FramesStand program.now h (frames_of program.now self.old.frames.items self.old.values.items)
            → Leaves program.now (frames_of program.now self.old.frames.items self.old.values.items) flows.ReturnTop told.now h heap.now.objects
            → (service : Option ℕ) (printed : List ℕ) → length printed ≤ max_printed
            → Settles program.now service result (running h (frames_of program.now self.old.frames.items self.old.values.items) printed)
            (seen program.now heap.now.objects self.new.frames.items self.new.values.items result printed) }
    {
        let _ = told;
        let value = self.top_operand(program);
        self.return_value(program, heap, Some(value))
    }
}
