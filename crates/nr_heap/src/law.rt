//! Typed heaps stay typed.

ghost use Rattle.std.specs.Prelude.{◌≡◌, ◌≢◌, ◌<◌, ℕ, List, Some, None, IsTrue, length, slice_get};
ghost use Rattle.std.specs.FinMap.{get};
ghost use Rattle.nr_linked.specs.declared.program.kind.Kind.{Kind};
ghost use Rattle.nr_linked.specs.declared.program.tables.ProgramTables.{ProgramTables};
ghost use Rattle.nr_linked.specs.Kinds.{array_of};
ghost use Rattle.nr_linked.specs.Subtypes.{is_assignable};
ghost use Rattle.nr_linked.specs.TypingFacts.{is_makeable};
ghost use Rattle.nr_model.specs.declared.value.Value.{Value};
ghost use Rattle.nr_model.specs.declared.value.Value.TheVariants as values;
ghost use Rattle.nr_model.specs.Belonging.{Belongs};
ghost use Rattle.nr_model.specs.Heaps.{Heap, Obj};
ghost use Rattle.nr_model.specs.Scripts.{with_slot};
ghost use Rattle.nr_model.specs.TypedHeaps.{TypedHeap, slot_ty};
ghost use Rattle.nr_heap.specs.Contents.{Contents, HasMade, Keeps, array_with, object_of, with_only};

/// Promises that a typed heap stays typed: with a new object of a class that can have objects, with a new
/// array of a kind of the program, with a value of the slot's type in a slot, and where objects are given up
/// that no slot of those that stay names. A value of the slot's type is one that the slot can hold. It does
/// nothing.
pub fn heaps_stay_typed()
    ensures object { (p : ProgramTables) (old new : Contents) (name c : ℕ) → TypedHeap p old.objects
        → IsTrue (is_makeable p c) → HasMade old new name (object_of p c) → TypedHeap p new.objects }
    ensures array { (p : ProgramTables) (old new : Contents) (name n : ℕ) (e : Kind) → TypedHeap p old.objects
        → IsTrue (is_assignable p (array_of e) (array_of e)) → HasMade old new name (array_with e n) → TypedHeap p new.objects }
    ensures slot { (p : ProgramTables) (h : Heap) (a i : ℕ) (o : Obj) (v : Value) → TypedHeap p h → get h a ≡ Some o
        → i < length o.slots → Belongs p h (slot_ty p o.kind i) v → TypedHeap p (with_slot h a o i v) }
    ensures kept { (p : ProgramTables) (h : Heap) (k : Kind) (i : ℕ) (v : Value) → Belongs p h (slot_ty p k i) v → Keeps k v }
    ensures cut { (p : ProgramTables) (h : Heap) (names : List ℕ) → TypedHeap p h
        → ((a b i : ℕ) (o : Obj) → get (with_only names h) a ≡ Some o → slice_get o.slots i ≡ Some (values.Ref b)
        → get (with_only names h) b ≢ None)
        → TypedHeap p (with_only names h) }
{}
