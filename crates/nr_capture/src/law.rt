//! Laws of graphs, typed heaps and copies.

ghost use Rattle.std.specs.Prelude.{ℕ, List};
ghost use Rattle.nr_linked.specs.declared.program.tables.ProgramTables.{ProgramTables};
ghost use Rattle.nr_linked.specs.Linked.{Linked};
ghost use Rattle.nr_model.specs.declared.value.Value.{Value};
ghost use Rattle.nr_model.specs.Heaps.{Heap};
ghost use Rattle.nr_model.specs.Locals.{CopyArgs};
ghost use Rattle.nr_model.specs.TypedHeaps.{TypedHeap};
ghost use Rattle.nr_graph.specs.declared.graph.Graph.{Graph};
ghost use Rattle.nr_graph.specs.Fitting.{GraphFits};
ghost use Rattle.nr_graph.specs.Listing.{Lists};
ghost use Rattle.nr_graph.specs.Pictures.{IsPicture, Pictured};
ghost use Rattle.nr_capture.specs.Drawing.{HasCodeBits};
ghost use Rattle.nr_capture.specs.Planting.{Adds, names_of_roots};
ghost use Rattle.nr_capture.specs.Roots.{root_values};

/// Promises that the graph of a typed heap fits the program, where its numbers and its dimensions have no more
/// bits than those of code. It does nothing.
pub fn graphs_of_typed_heaps_fit()
    ensures { (p : ProgramTables) (h : Heap) (vs : List Value) (names : List ℕ) (g : Graph)
        → TypedHeap p h → Pictured p h vs names g → HasCodeBits g → GraphFits p g }
{}

/// Promises that a graph that fits can be planted in each typed heap, whatever it has: with new objects, one
/// for each node, which look like the graph, the heap is typed again. It does nothing.
pub fn graphs_can_be_planted()
    ensures { (p : ProgramTables) (h : Heap) (g : Graph) → Linked p → TypedHeap p h → GraphFits p g
        → (k : Heap) × (names : List ℕ) × Adds h k names × Pictured p k (root_values (names_of_roots names g.roots)) names g
        × TypedHeap p k }
{}

/// Promises that there are copies of what a call passes by copy, and that its arguments look the same with
/// them, where the nodes that the reply restores are listed. It does nothing.
pub fn copies_can_be_made()
    ensures { (p : ProgramTables) (h : Heap) (us : List Value) (names nodes : List ℕ) (g : Graph)
        → Linked p → GraphFits p g → IsPicture p h us names g → Lists p g nodes
        → (k : Heap) × (vs : List Value) × (others : List ℕ) × CopyArgs p h us k vs × IsPicture p k vs others g }
{}
