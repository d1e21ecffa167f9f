//! A call's copies and pictures.

ghost use Rattle.std.specs.Prelude.{◌≡◌, ◌≢◌, ℕ, List, None, slice_get, Some};
ghost use Rattle.std.specs.FinMap.{get};
ghost use Rattle.nr_linked.specs.declared.program.tables.ProgramTables.{ProgramTables};
ghost use Rattle.nr_model.specs.declared.value.Value.{Value};
ghost use Rattle.nr_model.specs.Heaps.{Heap};
ghost use Rattle.nr_model.specs.Locals.{CopyArgs, copy_of};
ghost use Rattle.nr_model.specs.Pairs.{Holds, Reach};
ghost use Rattle.nr_graph.specs.declared.graph.Graph.{Graph};
ghost use Rattle.nr_graph.specs.Pictures.{IsPicture};

/// Promises that a call's arguments look the same with its copies, where the heap has all that they reach:
/// they have a picture of the same graph, which lists in place of each name that of its copy, where it has
/// one. It does nothing.
pub fn copies_look_the_same()
    ensures { (p : ProgramTables) (h k : Heap) (us vs : List Value) (names : List ℕ) (g : Graph) (c : CopyArgs p h us k vs)
        → ((x : ℕ) → Reach h (Holds us) x → get h x ≢ None) → IsPicture p h us names g
        → (others : List ℕ) × IsPicture p k vs others g
        × ((i x y : ℕ) → slice_get names i ≡ Some x → slice_get others i ≡ Some y → y ≡ copy_of c.copies x) }
{}
