//! The top call.
ghost use Rattle.std.specs.Prelude.{◌≡◌, ◌⊎◌, ◌<◌, ◌+◌, ◌++◌, ℕ, List, false, None, map, codes, ℤ};
ghost use Rattle.nr_outside.specs.Calls.{CallsAtMost, next_count};
ghost use Rattle.nr_outside.specs.Causes.{Rose};
ghost use Rattle.nr_cli.specs.Words.{command_of};
ghost use Rattle.nr_cli.specs.Ending.{EndsAs, calls_for, line, printed_of, result_of};
ghost use Rattle.nr_cli.specs.Dues.{AddsText, IsEndOf, MayEnd};
ghost use Rattle.nr_cli.specs.Plan.{calls_of, due_of};
ghost use Rattle.nr_cli.specs.declared.ending.End.{End};
ghost use Rattle.nr_cli.specs.declared.ending.Stop.{Stop};

use crate::ending::{End, Stop};
use crate::plan::plan;
use crate::report::end_with;
use nr_outside::{Folder, Sink, Wire};
use std::alloc::Global;

/// Does what the words after the program's name say, and gives the status of the process.
///
/// `run DIR MAIN BUDGET` and then 0 to 1,000 words INT links the class files of the folder DIR, verifies
/// them, and runs `main` of the class MAIN on an array of the numbers INT, for at most BUDGET steps. Other
/// words are refused. What the run prints goes to `out` when it has ended, and a line `result N` behind it
/// where `main` returned N; at each other end a line goes to `err`. The status is 0 where `main` returned,
/// 1 where it ended by a throw, 2 where the words fit no command, 3 where the folder failed, 4 where a
/// class file is refused, 5 where the classes don't link or MAIN isn't there or has no `main`, 6 where the
/// program isn't well typed, 9 where the run made BUDGET steps without an end, 10 where it would pass a
/// limit of the machine, 11 where a sink failed and 12 where memory ran out.
pub fn nrmi<F: Folder, W: Wire, O: Sink, E: Sink>(
    alloc: Global,
    words: &[&str],
    folder: &mut F,
    wire: &mut W,
    out: &mut O,
    err: &mut E,
) -> u8
    requires { W.opened wire.old ≡ false }
    ensures wire { wire.new ≡ wire.old }
    ensures files { F.Tells → F.files folder.new ≡ F.files folder.old }

    // How many calls are made on the folder at most: one that lists it and one for each file up to the first that
    // is refused.
    ensures calls { F.Tells
        → CallsAtMost (calls_of (command_of (map (λ w. w.now) words.now)) (F.files folder.old))
        (F.calls folder.old) (F.calls folder.new) }

    // With status 0 nothing is written on `err`; else it is written to once.
    ensures quiet { E.Tells → result ≡ 0 → E.writes err.new ≡ E.writes err.old }
    ensures told { E.Tells → (result ≡ 0 → ⊥) → E.writes err.new ≡ next_count (E.writes err.old) }

    // It ends in one way: as is due, where the folder tells its files, but where the folder or memory failed. The
    // end gives the status, what is written on `out` and the line on `err`, but where a sink or memory failed. What a
    // run printed is written by one call, and its result by another.
    ensures ends { (end : End)
        × (F.Tells → MayEnd (Rose (F.faults folder.old) (F.faults folder.new))
        (due_of (map (λ w. w.now) words.now) (F.files folder.old)) end)
        × EndsAs end result
        O.Tells (O.bytes out.old) (O.bytes out.new) E.Tells (E.bytes err.old) (E.bytes err.new)
        (Rose (F.faults folder.old) (F.faults folder.new))
        (Rose (O.faults out.old) (O.faults out.new))
        × (O.Tells → CallsAtMost (calls_for (printed_of end) + calls_for (result_of end)) (O.writes out.old) (O.writes out.new)) }

    // With status 0 it adds exactly the text of one machine.
    ensures text { F.Tells → O.Tells → result ≡ 0
        → AddsText (due_of (map (λ w. w.now) words.now) (F.files folder.old)) (O.bytes out.old) (O.bytes out.new) }

    // Where `main` returns within the budget and nothing of the outside fails, so it is said, unless memory runs out.
    ensures returns { (printed : List ℕ) (n : ℤ) → F.Tells
        → IsEndOf (due_of (map (λ w. w.now) words.now) (F.files folder.old)) (End.Run printed (Stop.Returned n))
        → (Rose (F.faults folder.old) (F.faults folder.new) → ⊥)
        → (Rose (O.faults out.old) (O.faults out.new) → ⊥)
        → (Rose (E.faults err.old) (E.faults err.new) → ⊥) → (result ≡ 0) ⊎ (result ≡ 12) }

    // When each status comes that isn't that of a run, and what is written then.
    ensures words { result ≡ 2 → command_of (map (λ w. w.now) words.now) ≡ None }
    ensures no_words { command_of (map (λ w. w.now) words.now) ≡ None
        → (result ≡ 2) ⊎ (result ≡ 11) ⊎ (result ≡ 12) }
    ensures folder { result ≡ 3 → Rose (F.faults folder.old) (F.faults folder.new) }
    ensures folder_out { O.Tells → result ≡ 3 → O.bytes out.new ≡ O.bytes out.old }
    ensures folder_line { E.Tells → result ≡ 3
        → E.bytes err.new ≡ E.bytes err.old ++ line (codes "folder") }
    ensures sink { result ≡ 11
        → Rose (O.faults out.old) (O.faults out.new) ⊎ Rose (E.faults err.old) (E.faults err.new) }
    ensures sink_failed { (O.faults out.old < O.faults out.new) ⊎ (E.faults err.old < E.faults err.new)
        → (result ≡ 11) ⊎ (result ≡ 12) }
    ensures sink_line { E.Tells → result ≡ 11 → (Rose (E.faults err.old) (E.faults err.new) → ⊥)
        → E.bytes err.new ≡ E.bytes err.old ++ line (codes "sink") }
{
    let end = plan(alloc, words, folder);
    end_with(alloc, &end, out, err)
}
