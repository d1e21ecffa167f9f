//! The laws of runs.

ghost use Rattle.std.specs.Prelude.{◌≡◌, ℕ, ℤ, List, ◌++◌};
ghost use Rattle.nr_linked.specs.declared.program.tables.ProgramTables.{ProgramTables};
ghost use Rattle.nr_run.specs.declared.ran.Ran.{Ran};
ghost use Rattle.nr_run.specs.declared.ran.RunEnd.TheVariants.{Returned};
ghost use Rattle.nr_run.specs.Runs.{IsText, RunEnds, RunStops, result_line};

/// Promises that a run within a budget has at most one end, and prints the same whenever it is made,
/// whatever names new objects take. It does nothing.
pub fn runs_have_one_end()
    ensures { (p : ProgramTables) (m : ℕ) (ints : List ℤ) (budget : ℕ) (r q : Ran)
        → RunEnds p m ints budget r → RunEnds p m ints budget q → r ≡ q }
{}

/// Promises that what a run that returns prints, and the line with its result, is the text of one machine
/// without a budget and limits; and that there is one such text at most. It does nothing.
pub fn runs_have_texts()
    ensures ended { (p : ProgramTables) (m : ℕ) (ints : List ℤ) (budget : ℕ) (r : Ran) (n : ℤ)
        → RunEnds p m ints budget r → r.end ≡ Returned n
        → IsText p m ints (r.printed ++ result_line n) }
    ensures one { (p : ProgramTables) (m : ℕ) (ints : List ℤ) (text other : List ℕ)
        → IsText p m ints text → IsText p m ints other → text ≡ other }
{}

/// Promises that a run that stopped for want of memory has printed a first part of what the run prints
/// until its end. It does nothing.
pub fn stopped_runs_print_a_part()
    ensures { (p : ProgramTables) (m : ℕ) (ints : List ℤ) (budget : ℕ) (printed : List ℕ) (r : Ran)
        → RunStops p m ints budget printed → RunEnds p m ints budget r
        → (more : List ℕ) × (r.printed ≡ printed ++ more) }
{}
