//! Pictures of a heap.

ghost use Rattle.std.specs.Prelude.{◌≡◌, ℕ, List};
ghost use Rattle.nr_linked.specs.declared.program.tables.ProgramTables.{ProgramTables};
ghost use Rattle.nr_linked.specs.Linked.{Linked};
ghost use Rattle.nr_model.specs.declared.value.Value.{Value};
ghost use Rattle.nr_model.specs.Heaps.{Has, Heap};
ghost use Rattle.nr_model.specs.Pairs.{Holds, Reach};
ghost use Rattle.nr_graph.specs.declared.graph.Graph.{Graph};
ghost use Rattle.nr_graph.specs.Fitting.{GraphFits};
ghost use Rattle.nr_graph.specs.Graphs.{IsInOrder};
ghost use Rattle.nr_graph.specs.Pictures.{AllReached, IsPicture, Pictured};

/// Promises that values have one picture in a heap: its names and its graph are determined by the order of
/// first visit, and by the names alone its graph is. The graph is in order; and where a heap shows a graph in
/// order, that is a picture. A picture lists just what is reached, all of it where the program is linked and
/// the graph fits. It does nothing.
pub fn pictures_are_one()
    ensures one { (p : ProgramTables) (h : Heap) (vs : List Value) (names others : List ℕ) (f g : Graph)
        → IsPicture p h vs names f → IsPicture p h vs others g → (names ≡ others) × (f ≡ g) }
    ensures by_names { (p : ProgramTables) (h : Heap) (vs : List Value) (names : List ℕ) (f g : Graph)
        → Pictured p h vs names f → Pictured p h vs names g → f ≡ g }
    ensures in_order { (p : ProgramTables) (h : Heap) (vs : List Value) (names : List ℕ) (g : Graph)
        → IsPicture p h vs names g → IsInOrder g }
    ensures picture { (p : ProgramTables) (h : Heap) (vs : List Value) (names : List ℕ) (g : Graph)
        → IsInOrder g → Pictured p h vs names g → IsPicture p h vs names g }
    ensures reached { (p : ProgramTables) (h : Heap) (vs : List Value) (names : List ℕ) (g : Graph)
        → IsPicture p h vs names g → AllReached h vs names }
    ensures whole { (p : ProgramTables) (h : Heap) (vs : List Value) (names : List ℕ) (g : Graph) (x : ℕ)
        → Linked p → GraphFits p g → Pictured p h vs names g → Reach h (Holds vs) x → Has names x }
{}
