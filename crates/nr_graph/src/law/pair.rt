//! Two heaps and one graph.

ghost use Rattle.std.specs.Prelude.{◌≡◌, ℕ, List, reverse, slice_get, Some};
ghost use Rattle.std.specs.List.{zip};
ghost use Rattle.nr_linked.specs.declared.program.tables.ProgramTables.{ProgramTables};
ghost use Rattle.nr_linked.specs.Linked.{Linked};
ghost use Rattle.nr_model.specs.declared.value.Value.{Value};
ghost use Rattle.nr_model.specs.Alike.{AllLike};
ghost use Rattle.nr_model.specs.Heaps.{Heap};
ghost use Rattle.nr_model.specs.Locals.{Begins};
ghost use Rattle.nr_model.specs.PairedCalls.{ListedOrArgs, PairedCalls};
ghost use Rattle.nr_model.specs.Pairs.{IsPair, Listed, Paired, PairedStates, StartOf};
ghost use Rattle.nr_model.specs.States.{State};
ghost use Rattle.nr_graph.specs.declared.graph.Graph.{Graph};
ghost use Rattle.nr_graph.specs.declared.graph.Slot.{Slot};
ghost use Rattle.nr_graph.specs.Fitting.{GraphFits};
ghost use Rattle.nr_graph.specs.Pictures.{AllDraw, IsPicture, Shown};

/// Promises that two heaps that show one graph of a linked program, each under its own names, are paired from
/// the names of one node each and from arguments that agree but for these names, the calls' first states too;
/// and that their pairs are just those names. Values that show the same slots agree so, in each order. It does
/// nothing.
pub fn heaps_of_one_graph_pair()
    ensures calls { (p : ProgramTables) (h k : Heap) (us vs : List Value) (names others : List ℕ) (g : Graph)
        → Linked p → GraphFits p g → Shown p h names g → Shown p k others g → AllLike (Listed (zip names others)) us vs
        → PairedCalls (zip names others) h us k vs
        × ((x y : ℕ) → IsPair (ListedOrArgs (zip names others) us vs) h k x y → Listed (zip names others) x y) }
    ensures starts { (p : ProgramTables) (h k : Heap) (m : ℕ) (us vs : List Value) (names others : List ℕ) (g : Graph) (s t : State)
        → Linked p → GraphFits p g → Shown p h names g → Shown p k others g → AllLike (Listed (zip names others)) us vs
        → Begins p h m us s → Begins p k m vs t → PairedStates (zip names others) s t
        × ((x y : ℕ) → IsPair (StartOf (zip names others) s t) s.heap t.heap x y → Listed (zip names others) x y) }
    ensures values { (names others : List ℕ) (us vs : List Value) (ss : List Slot)
        → AllDraw names us ss → AllDraw others vs ss → AllLike (Listed (zip names others)) us vs }
    ensures last_first { (names others : List ℕ) (us vs : List Value)
        → AllLike (Listed (zip names others)) us vs → AllLike (Listed (zip names others)) (reverse us) (reverse vs) }
{}

/// Promises that paired heaps show one graph: where values of one have a picture, the values beside them in
/// the other have one of the same graph, whose names stand in pairs with those of the first. So it is from
/// listed pairs, in paired states, and for the arguments of paired calls. It does nothing.
pub fn paired_heaps_show_one_graph()
    ensures heaps { (p : ProgramTables) (pairs : List (ℕ × ℕ)) (h k : Heap) (us vs : List Value) (names : List ℕ) (g : Graph)
        → Paired (Listed pairs) h k → AllLike (IsPair (Listed pairs) h k) us vs → IsPicture p h us names g
        → (others : List ℕ) × IsPicture p k vs others g
        × ((i x y : ℕ) → slice_get names i ≡ Some x → slice_get others i ≡ Some y → IsPair (Listed pairs) h k x y) }
    ensures states { (p : ProgramTables) (pairs : List (ℕ × ℕ)) (s t : State) (us vs : List Value) (names : List ℕ) (g : Graph)
        → PairedStates pairs s t → AllLike (IsPair (StartOf pairs s t) s.heap t.heap) us vs → IsPicture p s.heap us names g
        → (others : List ℕ) × IsPicture p t.heap vs others g
        × ((i x y : ℕ) → slice_get names i ≡ Some x → slice_get others i ≡ Some y
        → IsPair (StartOf pairs s t) s.heap t.heap x y) }
    ensures calls { (p : ProgramTables) (pairs : List (ℕ × ℕ)) (h k : Heap) (us vs : List Value) (names : List ℕ) (g : Graph)
        → PairedCalls pairs h us k vs → IsPicture p h us names g
        → (others : List ℕ) × IsPicture p k vs others g
        × ((i x y : ℕ) → slice_get names i ≡ Some x → slice_get others i ≡ Some y
        → IsPair (ListedOrArgs pairs us vs) h k x y) }
{}
