//! What a client is told that sends a hello and whole batches.

ghost use Rattle.std.specs.Prelude.{◌≡◌, ◌≤◌, ◌++◌, [], ℕ, List, length};
ghost use Rattle.std.specs.List.{AllByRecursion, flat_map};
ghost use Rattle.nr_linked.specs.declared.program.tables.ProgramTables.{ProgramTables};
ghost use Rattle.nr_linked.specs.Facts.{ProgramFacts};
ghost use Rattle.nr_frame.specs.declared.kind.FrameKind.TheVariants.{Hello, Reply};
ghost use Rattle.nr_frame.specs.Splits.{texts_of};
ghost use Rattle.nr_answers.specs.Batches.{frame_text};
ghost use Rattle.nr_answers.specs.Connections.{ConnectionText, IsPeer, Peer, max_frames};
ghost use Rattle.nr_answers.specs.Talks.{IsBatch, IsShort, IsTalk, call_count, talk_frames};

/// Promises what a server says to a client that sends a hello and then whole batches, in no more frames than are
/// answered: a hello, and a reply that fits a frame for each call. A client that was given so many replies is
/// given nothing more. It does nothing.
pub fn talks_are_answered()
    ensures told { (p : ProgramTables) (s : Peer) (hello : List ℕ) (batches : List (List (List ℕ))) (sent text : List ℕ)
        → ProgramFacts p → IsShort hello → AllByRecursion IsBatch batches → length (talk_frames hello batches) ≤ max_frames
        → sent ≡ texts_of (talk_frames hello batches) → ConnectionText p s sent text → IsTalk p s (call_count batches) text }
    ensures no_more { (p : ProgramTables) (s : Peer) (count : ℕ) (text greeting rest : List ℕ) (replies : List (List ℕ))
        → IsPeer p s → IsTalk p s count text → IsShort greeting → AllByRecursion IsShort replies → length replies ≡ count
        → text ≡ frame_text Hello greeting ++ (flat_map (frame_text Reply) replies ++ rest) → rest ≡ [] }
{}
