//! A graph that two heaps show.

ghost use Rattle.std.specs.Prelude.{◌≢◌, ℕ, List, None};
ghost use Rattle.std.specs.FinMap.{get};
ghost use Rattle.nr_linked.specs.declared.program.tables.ProgramTables.{ProgramTables};
ghost use Rattle.nr_model.specs.declared.value.Value.{Value};
ghost use Rattle.nr_model.specs.Heaps.{Has, Heap};
ghost use Rattle.nr_graph.specs.declared.graph.Graph.{Graph};
ghost use Rattle.nr_graph.specs.Fitting.{GraphFits};
ghost use Rattle.nr_graph.specs.Pictures.{IsPicture};

/// Promises that, in every program, two heaps have a picture of one graph that fits, each under its own names
/// and with no others: an array of arrays that holds one array twice and a null, where that array is a root
/// too and another root is null. It does nothing.
pub fn premises_can_be_met()
    ensures { (p : ProgramTables) → (h : Heap) × (k : Heap) × (us : List Value) × (vs : List Value)
        × (names : List ℕ) × (others : List ℕ) × (g : Graph)
        × GraphFits p g × IsPicture p h us names g × IsPicture p k vs others g
        × ((x : ℕ) → get h x ≢ None → Has names x) × ((x : ℕ) → get k x ≢ None → Has others x) × (names ≢ others) }
{}
