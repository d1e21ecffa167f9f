//! Jobs of a host.

ghost use Rattle.std.specs.Prelude.{◌≡◌, ◌⊎◌, ◌<◌, ◌^◌, ℕ, Bool, List, length};
ghost use Rattle.nr_linked.specs.declared.program.tables.ProgramTables.{ProgramTables};
ghost use Rattle.nr_linked.specs.Facts.{ProgramFacts};
ghost use Rattle.nr_answers.specs.Answers.{no_memory_text};
ghost use Rattle.nr_answers.specs.Histories.{History};
ghost use Rattle.nr_answers.specs.Hosts.{Event};
ghost use Rattle.nr_answers.specs.Once.{HasOneText, IsAnsweredOnce, SpellsOneGraph};
ghost use Rattle.nr_answers.specs.Requests.{Request};

/// Promises that what comes of a job depends on its request and its turns alone, where the request has one reply
/// at most: in any two lists of events in which a job with this request was added, turned equally often and then
/// taken, its turns were answered alike and it gave the same reply, but where one of both gave up for want of
/// memory. So it is in version 1, where a text spells one graph and a graph has one canonical text. It does
/// nothing.
pub fn hosts_agree()
    ensures once { (p : ProgramTables) (service version : ℕ) (body : List ℕ) (events others : List Event) (turns again : List Bool) (text other : List ℕ)
        → IsAnsweredOnce p service version body
        → History p service events version body turns text → History p service others version body again other → length turns ≡ length again
        → ((text ≡ other) × (turns ≡ again)) ⊎ ((text ≡ no_memory_text body) ⊎ (other ≡ no_memory_text body)) }
    ensures streams { (p : ProgramTables) (service : ℕ) (body : List ℕ) (events others : List Event) (turns again : List Bool) (text other : List ℕ)
        → ProgramFacts p → SpellsOneGraph p → HasOneText p → ((q : Request p service body) → length q.call.stream < 2 ^ 32)
        → History p service events 1 body turns text → History p service others 1 body again other → length turns ≡ length again
        → ((text ≡ other) × (turns ≡ again)) ⊎ ((text ≡ no_memory_text body) ⊎ (other ≡ no_memory_text body)) }
{}
