//! First states.

ghost use Rattle.std.specs.Prelude.{◌≡◌, ℕ, List, Option, Some};
ghost use Rattle.nr_prog.specs.declared.body.whole.Body.{Body};
ghost use Rattle.nr_linked.specs.declared.program.tables.MethodInfo.{MethodInfo};
ghost use Rattle.nr_linked.specs.declared.program.tables.ProgramTables.{ProgramTables};
ghost use Rattle.nr_linked.specs.Programs.{method_at};
ghost use Rattle.nr_linked.specs.TypingFacts.{TypingFacts};
ghost use Rattle.nr_linked.specs.WellTyped.{WellTyped};
ghost use Rattle.nr_model.specs.declared.value.Value.{Value};
ghost use Rattle.nr_model.specs.Heaps.{Heap};
ghost use Rattle.nr_model.specs.States.{Returned, State};
ghost use Rattle.nr_model.specs.Steps.{Run};
ghost use Rattle.nr_model.specs.Belonging.{Belong, IsResult};
ghost use Rattle.nr_typed.specs.Standing.{StandsIn, first_state};
ghost use Rattle.nr_model.specs.TypedHeaps.{TypedHeap};
ghost use Rattle.nr_model.specs.Types.{argument_tys};

/// Promises that the first state of a method with code stands for its result, where the heap is typed and
/// the arguments, the last first, belong to the method's parameters and its receiver's class. So a run from
/// it that ends by a return gives nothing where the method has no result, and else a value that belongs to
/// the verifier's type of the result, in the heap then. It does nothing.
pub fn first_states_stand()
    ensures stands { (p : ProgramTables) (h : Heap) (n : ℕ) (m : MethodInfo) (body : Body) (args : List Value)
        → TypingFacts p → (typed : WellTyped p) → method_at p n ≡ Some m → m.body ≡ Some body
        → TypedHeap p h → Belong p h (argument_tys m) args
        → StandsIn p typed.frames m.result (first_state h n m args) }
    ensures results { (p : ProgramTables) (h : Heap) (n k : ℕ) (m : MethodInfo) (body : Body) (args : List Value)
        (t : State) (v : Option Value)
        → TypingFacts p → WellTyped p → method_at p n ≡ Some m → m.body ≡ Some body
        → TypedHeap p h → Belong p h (argument_tys m) args
        → Run p (first_state h n m args) k t → t.control ≡ Returned v → IsResult p t.heap m.result v }
{}
