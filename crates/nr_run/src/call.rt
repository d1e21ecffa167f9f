//! A call of a method, by a machine of its own.

ghost use Rattle.std.specs.Prelude.{◌≡◌, ◌≢◌, IsSome, IsSomeAnd, Some, [], reverse};
ghost use Rattle.nr_linked.specs.Programs.{method_at, result_of};
ghost use Rattle.nr_model.specs.Belonging.{Belong};
ghost use Rattle.nr_model.specs.TypedHeaps.{TypedHeap};
ghost use Rattle.nr_model.specs.Types.{argument_tys};
ghost use Rattle.nr_run.specs.Runs.{CallEnds, CallStops, int_kind};

use super::answer::end_told;
use super::ran::{Limit, Ran, RunEnd};
use nr_base::Items;
use nr_heap::Heap;
use nr_linked::{MethodId, Verified};
use nr_machine::{Machine, StartFault};
use nr_model::Value;
use std::alloc::Global;

// Nothing was printed.
fn ended_at_once(alloc: Global, end: RunEnd) -> Ran
    ensures { result ≡ record { end = end; printed = [] } }
{
    Ran {
        end,
        printed: Items::new(alloc),
    }
}

/// Calls a method that returns an int, for at most `budget` steps.
pub fn run_call(
    alloc: Global,
    p: &Verified,
    heap: &mut Heap,
    method: MethodId,
    args: &[Value],
    budget: u32,
) -> Ran
    requires method { IsSomeAnd (method_at p.now method) (λ i. IsSome i.body
        × Belong p.now heap.old.objects (argument_tys i) (reverse args.now)) }
    requires int { result_of p.now method ≡ Some int_kind }
    requires heap { TypedHeap p.now heap.old.objects }
    ensures ends { result.end ≢ RunEnd.NoMemory
        → CallEnds p.now heap.old.objects method (reverse args.now) budget result }
    ensures stops { CallStops p.now heap.old.objects method (reverse args.now) budget result.printed }
{
    let _facts = p.program().tables();
    let budget = u64::from(budget);
    let mut machine = match Machine::start(alloc, p, None, heap, method, args, budget) {
        Ok(machine) => machine,
        Err(StartFault::TooDeep) => return ended_at_once(alloc, RunEnd::Limit(Limit::Depth)),
        Err(StartFault::NoMemory) => return ended_at_once(alloc, RunEnd::NoMemory),
    };
    // the budget is spent before all steps of the turn are made
    let answer = machine.turn(heap, budget + 1);
    let end = end_told(heap, answer);
    match Items::of(alloc, machine.output()) {
        Ok(printed) => Ran { end, printed },
        Err(_) => ended_at_once(alloc, RunEnd::NoMemory),
    }
}
