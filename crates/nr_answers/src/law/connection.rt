//! What is said to frames and to connections.

ghost use Rattle.std.specs.Prelude.{◌≡◌, ◌++◌, ℕ, List, All};
ghost use Rattle.nr_linked.specs.declared.program.tables.ProgramTables.{ProgramTables};
ghost use Rattle.nr_frame.specs.declared.kind.Side.TheVariants.{Server};
ghost use Rattle.nr_frame.specs.Splits.{IsFrame};
ghost use Rattle.nr_answers.specs.Connections.{ConnectionText, Holding, Peer, SaysAll, WholeFrames};

/// Promises that there is a text for whatever a server receives: all bytes are whole frames and a rest, whole
/// frames are always answered, by want of memory if need be, and so each connection has a text. It does nothing.
pub fn connections_have_texts()
    ensures framed { (bytes : List ℕ) → (texts : List (List ℕ)) × WholeFrames bytes texts }
    ensures said { (p : ProgramTables) (s : Peer) (h : Holding) (texts : List (List ℕ)) → All (IsFrame Server) texts
        → (text : List ℕ) × (after : Holding) × SaysAll p s h texts text after }
    ensures answered { (p : ProgramTables) (s : Peer) (received : List ℕ) → (text : List ℕ) × ConnectionText p s received text }
{}

/// Promises that frames are answered one after the other: what is said to some and then to others is said to all,
/// and what is said to all is said so. It does nothing.
pub fn frames_are_said_in_turn()
    ensures joined { (p : ProgramTables) (s : Peer) (h m after : Holding) (texts more : List (List ℕ)) (said then : List ℕ)
        → SaysAll p s h texts said m → SaysAll p s m more then after → SaysAll p s h (texts ++ more) (said ++ then) after }
    ensures apart { (p : ProgramTables) (s : Peer) (h after : Holding) (texts more : List (List ℕ)) (text : List ℕ)
        → SaysAll p s h (texts ++ more) text after
        → (m : Holding) × (said : List ℕ) × (then : List ℕ) × SaysAll p s h texts said m × SaysAll p s m more then after
        × (text ≡ said ++ then) }
{}
