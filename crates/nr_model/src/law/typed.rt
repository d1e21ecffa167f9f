//! What a typed heap has.

ghost use Rattle.std.specs.Prelude.{◌≡◌, ◌≢◌, ℕ, List, Option, Some, None};
ghost use Rattle.std.specs.FinMap.{get};
ghost use Rattle.nr_linked.specs.declared.program.kind.Kind.{Kind};
ghost use Rattle.nr_linked.specs.declared.program.tables.MethodInfo.{MethodInfo};
ghost use Rattle.nr_linked.specs.declared.program.tables.ProgramTables.{ProgramTables};
ghost use Rattle.nr_model.specs.declared.value.Value.{Value};
ghost use Rattle.nr_model.specs.Heaps.{Heap, on_some};
ghost use Rattle.nr_model.specs.Pairs.{Holds, IsClosed, name_in};
ghost use Rattle.nr_model.specs.Types.{argument_tys};
ghost use Rattle.nr_model.specs.Belonging.{Belong, IsResult};
ghost use Rattle.nr_model.specs.TypedHeaps.{TypedHeap};

/// Promises that a typed heap is closed, and that a heap has what is named by arguments that belong to a
/// method's parameters and its receiver, and by a result that belongs to its kind. It does nothing.
pub fn typed_heaps_are_closed()
    ensures heap { (p : ProgramTables) (h : Heap) → TypedHeap p h → IsClosed h }
    ensures arguments { (p : ProgramTables) (h : Heap) (m : MethodInfo) (args : List Value) (x : ℕ)
        → Belong p h (argument_tys m) args → Holds args x → get h x ≢ None }
    ensures results { (p : ProgramTables) (h : Heap) (result : Option Kind) (v : Option Value) (x : ℕ)
        → IsResult p h result v → on_some v None name_in ≡ Some x → get h x ≢ None }
{}
