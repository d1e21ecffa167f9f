//! The laws of canonical texts.

ghost use Rattle.std.specs.Prelude.{◌≡◌, ℕ, List};
ghost use Rattle.nr_linked.specs.declared.program.tables.ProgramTables.{ProgramTables};
ghost use Rattle.nr_linked.specs.Linked.{Linked};
ghost use Rattle.nr_graph.specs.declared.graph.Graph.{Graph};
ghost use Rattle.nr_graph.specs.Fitting.{IsSpellable};
ghost use Rattle.nr_serform.specs.Streams.{IsCanonical, Spells};

/// Promises that the canonical text of a graph is one of those that spell it; that each graph that a stream
/// of a linked program can spell has a canonical text; and that it has no other. It does nothing.
pub fn graphs_have_one_canonical_text()
    ensures spells { (p : ProgramTables) (text : List ℕ) (g : Graph) → IsCanonical p text g → Spells p text g }
    ensures some { (p : ProgramTables) (g : Graph) → Linked p → IsSpellable p g → (text : List ℕ) × IsCanonical p text g }
    ensures one { (p : ProgramTables) (a b : List ℕ) (g : Graph) → IsCanonical p a g → IsCanonical p b g → a ≡ b }
{}
