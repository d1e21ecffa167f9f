//! Requests.

ghost use Rattle.std.specs.Prelude.{◌≡◌, ◌<◌, ◌^◌, ℕ, List, length};
ghost use Rattle.nr_linked.specs.declared.program.tables.ProgramTables.{ProgramTables};
ghost use Rattle.nr_linked.specs.Facts.{ProgramFacts};
ghost use Rattle.nr_message.specs.declared.serve_fault.ServeFault.{ServeFault};
ghost use Rattle.nr_answers.specs.Once.{HasOneLength, HasOneText, IsAnsweredOnce, SpellsOneGraph};
ghost use Rattle.nr_answers.specs.Requests.{Accepted, RefusedAs, Request};

/// Promises that, where a text spells one graph and the call's stream has fewer than 2^32 bytes, a request isn't
/// both refused and accepted; and that its job has one number of steps, whatever names the objects of its run
/// take: it runs on just before that. It does nothing.
pub fn requests_have_one_length()
    ensures refused { (p : ProgramTables) (service : ℕ) (body : List ℕ) (f : ServeFault) → SpellsOneGraph p
        → ((q : Request p service body) → length q.call.stream < 2 ^ 32) → RefusedAs p service body f → ¬ Accepted p service body }
    ensures length { (p : ProgramTables) (service version : ℕ) (body : List ℕ) → ProgramFacts p → SpellsOneGraph p
        → ((q : Request p service body) → length q.call.stream < 2 ^ 32) → HasOneLength p service version body }
{}

/// Promises that, in version 1 of the messages, a request has one reply, after one number of steps, whatever names
/// the objects of its run take, where besides a graph has one canonical text; and that what it is refused for is
/// one fault. It does nothing.
pub fn requests_have_one_reply()
    ensures refusal { (p : ProgramTables) (service : ℕ) (body : List ℕ) (f g : ServeFault) → SpellsOneGraph p
        → ((q : Request p service body) → length q.call.stream < 2 ^ 32) → RefusedAs p service body f → RefusedAs p service body g → f ≡ g }
    ensures reply { (p : ProgramTables) (service : ℕ) (body : List ℕ) → ProgramFacts p → SpellsOneGraph p → HasOneText p
        → ((q : Request p service body) → length q.call.stream < 2 ^ 32) → IsAnsweredOnce p service 1 body }
{}
