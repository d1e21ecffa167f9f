//! Answers that were worked out by hand.

ghost use Rattle.std.specs.Prelude.{◌≡◌, ℕ, List, [], ◌∷◌};
ghost use Rattle.nr_linked.specs.declared.program.tables.ProgramTables.{ProgramTables};
ghost use Rattle.nr_answers.specs.Answers.{Replies};
ghost use Rattle.nr_answers.specs.Batches.{Timed, in_rounds, round_of};

/// Promises some answers. A request of three bytes is answered, with no step, by number 0 and fault 9 with code
/// 1. Of a batch of three jobs that take 9,000, 10 and 5,000 steps, the second is answered in the first round, the
/// third in the second and the first in the third. It does nothing.
pub fn answers_worked_by_hand()
    ensures three_bytes { (p : ProgramTables) (service version : ℕ)
        → Replies p service version (0 ∷ 0 ∷ 0 ∷ []) 0 (0 ∷ 0 ∷ 0 ∷ 0 ∷ 9 ∷ 1 ∷ []) }
    ensures three_jobs { (a b c : List ℕ) → let first : Timed = record { round = round_of 9000; text = a } in
        let second : Timed = record { round = round_of 10; text = b } in
        let third : Timed = record { round = round_of 5000; text = c } in
        in_rounds (first ∷ second ∷ third ∷ []) ≡ (record { round = 1; text = b }) ∷ (record { round = 2; text = c }) ∷ (record { round = 3; text = a }) ∷ [] }
{}
