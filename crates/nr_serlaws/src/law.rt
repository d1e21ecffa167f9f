//! What is read is what is spelled.

ghost use Rattle.std.specs.Prelude.{◌≡◌, ℕ, ◌<◌, ◌^◌, List, Ok, Err, length};
ghost use Rattle.nr_base.specs.Grammar.{IsBytes};
ghost use Rattle.nr_linked.specs.declared.program.tables.ProgramTables.{ProgramTables};
ghost use Rattle.nr_linked.specs.Facts.{ProgramFacts};
ghost use Rattle.nr_graph.specs.declared.graph.Graph.{Graph};
ghost use Rattle.nr_serform.specs.ClassNumbers.{class_number};
ghost use Rattle.nr_serform.specs.Streams.{IsCanonical, Spells};
ghost use Rattle.nr_serread.specs.declared.fault.StreamFault.{StreamFault};
ghost use Rattle.nr_serread.specs.Reading.{stream_of};

/// Promises that a text of bytes that is read as a graph with so many roots spells that graph, and nothing
/// follows. It does nothing.
pub fn what_is_read_is_spelled()
    ensures { (p : ProgramTables) (roots : ℕ) (bytes : List ℕ) (g : Graph) → ProgramFacts p
        → IsBytes bytes → stream_of p roots bytes ≡ Ok g → Spells p bytes g × (length g.roots ≡ roots) }
{}

/// Promises that a text that spells a graph is read as just that graph, where the numbers of the classes fit
/// 64 bits; that it spells no other graph; and that a text that is refused for a number of roots spells no graph
/// with so many. It does nothing.
pub fn what_is_spelled_is_read()
    ensures read { (p : ProgramTables) (bytes : List ℕ) (g : Graph) → ProgramFacts p
        → ((c : ℕ) → class_number p c < 2 ^ 64) → length bytes < 2 ^ 32
        → Spells p bytes g → stream_of p (length g.roots) bytes ≡ Ok g }
    ensures one { (p : ProgramTables) (bytes : List ℕ) (g h : Graph) → ProgramFacts p
        → ((c : ℕ) → class_number p c < 2 ^ 64) → length bytes < 2 ^ 32
        → Spells p bytes g → Spells p bytes h → g ≡ h }
    ensures none { (p : ProgramTables) (roots : ℕ) (bytes : List ℕ) (g : Graph) (e : StreamFault)
        → ProgramFacts p → ((c : ℕ) → class_number p c < 2 ^ 64) → length bytes < 2 ^ 32
        → stream_of p roots bytes ≡ Err e → length g.roots ≡ roots → Spells p bytes g → ⊥ }
{}

/// Promises that a canonical text spells its graph, and that a graph has one canonical text at most. It does
/// nothing.
pub fn canonical_texts_are_one()
    ensures spells { (p : ProgramTables) (text : List ℕ) (g : Graph)
        → IsCanonical p text g → Spells p text g }
    ensures one { (p : ProgramTables) (a b : List ℕ) (g : Graph)
        → IsCanonical p a g → IsCanonical p b g → a ≡ b }
{}

/// Promises that a program, a text and a graph meet the premises of these laws: of the built-in classes, an array
/// of one int. It does nothing.
pub fn premises_can_be_met()
    ensures { (p : ProgramTables) × (bytes : List ℕ) × (g : Graph) × ProgramFacts p × ((c : ℕ) → class_number p c < 2 ^ 64)
        × IsBytes bytes × (length bytes < 2 ^ 32) × (stream_of p 1 bytes ≡ Ok g) × IsCanonical p bytes g }
{}
