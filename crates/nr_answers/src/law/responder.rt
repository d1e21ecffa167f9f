//! Responders.

ghost use Rattle.std.specs.Prelude.{◌≡◌, [], ◌++◌, ℕ, List, take, All, None, Some};
ghost use Rattle.nr_linked.specs.declared.program.tables.ProgramTables.{ProgramTables};
ghost use Rattle.nr_frame.specs.declared.fault.FrameFault.{FrameFault};
ghost use Rattle.nr_frame.specs.declared.kind.Side.TheVariants.{Server};
ghost use Rattle.nr_frame.specs.Splits.{IsFrame, texts_of};
ghost use Rattle.nr_answers.specs.Connections.{ConnectionText, Peer};
ghost use Rattle.nr_answers.specs.Faithful.{IsFaithful};
ghost use Rattle.nr_answers.specs.Responders.{ArePaced, CanSay, Feeds, Goes, IsQuiet, Responding, Stands, start_of};

/// Promises where a connection stands. A responder to which nothing was fed may say just what a server says to the
/// bytes of a connection, whatever they are. Where bytes are given and sent, and where a piece is received and fed,
/// a connection goes on standing. What was sent is always a first part of a text, also where a piece was received
/// and not fed, or bytes were given and only some of them sent; and it is a whole text where nothing is to be said
/// before more is fed. It does nothing.
pub fn connections_stand()
    ensures start { (p : ProgramTables) (s : Peer) → Stands p s (start_of p s) [] [] }
    ensures can { (p : ProgramTables) (s : Peer) → CanSay (start_of p s) }
    ensures given { (p : ProgramTables) (s : Peer) (r after : Responding) (received sent bytes : List ℕ)
        → Goes r bytes after → Stands p s r received sent → Stands p s after received (sent ++ bytes) }
    ensures fed { (p : ProgramTables) (s : Peer) (r after : Responding) (received sent piece : List ℕ)
        → Feeds r piece after → Stands p s r received sent → Stands p s after (received ++ piece) sent }
    ensures part { (p : ProgramTables) (s : Peer) (r : Responding) (received sent : List ℕ)
        → CanSay r → Stands p s r received sent → IsFaithful p s received sent }
    ensures unfed { (p : ProgramTables) (s : Peer) (r : Responding) (received sent piece : List ℕ)
        → CanSay r → Stands p s r received sent → IsFaithful p s (received ++ piece) sent }
    ensures half { (p : ProgramTables) (s : Peer) (r after : Responding) (received sent bytes : List ℕ) (n : ℕ)
        → Goes r bytes after → CanSay after → Stands p s r received sent → IsFaithful p s received (sent ++ take n bytes) }
    ensures whole { (p : ProgramTables) (s : Peer) (r : Responding) (received sent : List ℕ)
        → CanSay r → IsQuiet r → Stands p s r received sent → ConnectionText p s received sent }
{}

/// Promises that a responder whose due jobs keep the pace of the rounds can always say something, whatever is fed;
/// also one that keeps the fault of a header, where it holds whole frames. It does nothing.
pub fn paced_responders_can_say()
    ensures good { (r : Responding) → ArePaced r → r.fault ≡ None → CanSay r }
    ensures cut { (r : Responding) (f : FrameFault) (texts : List (List ℕ)) → ArePaced r → r.fault ≡ Some f → All (IsFrame Server) texts
        → texts_of texts ≡ r.unread → CanSay r }
{}
