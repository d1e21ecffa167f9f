//! Walks in the order of first visit.

ghost use Rattle.std.specs.Prelude.{◌≡◌, ℕ, Bool, true, List, []};
ghost use Rattle.nr_model.specs.Heaps.{EachOnce, Has};
ghost use Rattle.nr_graph.specs.Walks.{MeetsRefused, Walk};

/// Promises that a walk has one result, which has each name once, all where the walk begins, and with each
/// name all that it leads to; and that at most one name is the first that is refused, which is one of those
/// that a whole walk meets. It does nothing.
pub fn walks_have_one_result()
    ensures one { (next : ℕ → List ℕ) (xs seen a b : List ℕ) → Walk next xs seen a → Walk next xs seen b → a ≡ b }
    ensures once { (next : ℕ → List ℕ) (xs out : List ℕ) → Walk next xs [] out → EachOnce out }
    ensures roots { (next : ℕ → List ℕ) (xs out : List ℕ) (x : ℕ) → Walk next xs [] out → Has xs x → Has out x }
    ensures closed { (next : ℕ → List ℕ) (xs out : List ℕ) (x y : ℕ)
        → Walk next xs [] out → Has out x → Has (next x) y → Has out y }
    ensures refused { (next : ℕ → List ℕ) (refused : ℕ → Bool) (xs seen : List ℕ) (x y : ℕ)
        → MeetsRefused next refused xs seen x → MeetsRefused next refused xs seen y → x ≡ y }
    ensures met { (next : ℕ → List ℕ) (refused : ℕ → Bool) (xs seen out : List ℕ) (x : ℕ)
        → MeetsRefused next refused xs seen x → Walk next xs seen out → (refused x ≡ true) × Has out x }
{}
