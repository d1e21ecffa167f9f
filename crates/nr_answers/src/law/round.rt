//! Rounds of a batch.

ghost use Rattle.std.specs.Prelude.{◌≡◌, ◌<◌, ◌≤◌, ◌++◌, ◌∷◌, ℕ, suc, Bool, List};
ghost use Rattle.std.specs.List.{AllByRecursion};
ghost use Rattle.nr_linked.specs.declared.program.tables.ProgramTables.{ProgramTables};
ghost use Rattle.nr_frame.specs.declared.kind.FrameKind.TheVariants.{Reply};
ghost use Rattle.nr_answers.specs.Batches.{Timed, Times, frame_text, in_rounds, reply_frames};
ghost use Rattle.nr_answers.specs.Hosts.{Gives, Held, Runs, turned_once};
ghost use Rattle.nr_answers.specs.Responders.{DueIn, call_of};

/// Promises how a batch is answered round by round. Of the answers, the first one of the earliest round is said
/// first. What a done job gives is an answer of the round in which it was turned last, or of the first where it
/// wasn't turned. And what may be said after a job that ran was turned once more, might be said before. It does
/// nothing.
pub fn rounds_give_their_answers()
    ensures first { (t : Timed) (us vs : List Timed) → AllByRecursion (λ u. t.round < u.round) us → AllByRecursion (λ v. t.round ≤ v.round) vs
        → reply_frames (in_rounds (us ++ t ∷ vs)) ≡ frame_text Reply t.text ++ reply_frames (in_rounds (us ++ vs)) }
    ensures turned { (p : ProgramTables) (service n : ℕ) (h : Held) (text : List ℕ) → h.turns ≡ suc n → Gives p service h text
        → Times p service (call_of h) (record { round = suc n; text = text }) }
    ensures at_once { (p : ProgramTables) (service : ℕ) (h : Held) (text : List ℕ) → h.turns ≡ 0 → Gives p service h text
        → Times p service (call_of h) (record { round = 1; text = text }) }
    ensures later { (p : ProgramTables) (service n : ℕ) (h : Held) (failed : Bool) (t : Timed) → Runs p service h
        → DueIn p service (suc n) (turned_once h failed) t → DueIn p service n h t }
{}
