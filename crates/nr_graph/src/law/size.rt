//! The size of a heap that shows a graph.

ghost use Rattle.std.specs.Prelude.{◌≡◌, ◌≢◌, ℕ, List, None};
ghost use Rattle.std.specs.FinMap.{get};
ghost use Rattle.nr_linked.specs.declared.program.tables.ProgramTables.{ProgramTables};
ghost use Rattle.nr_model.specs.Heaps.{Has, Heap, cells, cells_named};
ghost use Rattle.nr_graph.specs.declared.graph.Graph.{Graph};
ghost use Rattle.nr_graph.specs.Graphs.{graph_cells};
ghost use Rattle.nr_graph.specs.Pictures.{Shown};

/// Promises that the objects that a list shows have the cells of the graph, and so has a heap that has no
/// other names. It does nothing.
pub fn shown_cells_are_counted()
    ensures named { (p : ProgramTables) (h : Heap) (names : List ℕ) (g : Graph)
        → Shown p h names g → cells_named h names ≡ graph_cells g }
    ensures all { (p : ProgramTables) (h : Heap) (names : List ℕ) (g : Graph)
        → Shown p h names g → ((x : ℕ) → get h x ≢ None → Has names x) → cells h ≡ graph_cells g }
{}
