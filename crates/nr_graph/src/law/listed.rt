//! The nodes that a reply restores.

ghost use Rattle.std.specs.Prelude.{◌≡◌, ◌↔◌, ℕ, List, slice_get, Some};
ghost use Rattle.nr_linked.specs.declared.program.tables.ProgramTables.{ProgramTables};
ghost use Rattle.nr_linked.specs.Linked.{Linked};
ghost use Rattle.nr_model.specs.declared.value.Value.{Value};
ghost use Rattle.nr_model.specs.Heaps.{Has, Heap};
ghost use Rattle.nr_model.specs.Locals.{IsShared};
ghost use Rattle.nr_graph.specs.declared.graph.Graph.{Graph};
ghost use Rattle.nr_graph.specs.Fitting.{GraphFits};
ghost use Rattle.nr_graph.specs.Listing.{Lists};
ghost use Rattle.nr_graph.specs.Pictures.{Pictured};

/// Promises that the listed nodes of a graph stand for just the objects that a restorable argument reaches.
/// It does nothing.
pub fn listed_nodes_are_shared()
    ensures { (p : ProgramTables) (h : Heap) (vs : List Value) (names nodes : List ℕ) (g : Graph) (i x : ℕ)
        → Linked p → GraphFits p g → Pictured p h vs names g → Lists p g nodes → slice_get names i ≡ Some x
        → Has nodes i ↔ IsShared p h vs x }
{}
