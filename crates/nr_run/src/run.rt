//! The run of a program's `main`.

ghost use Rattle.std.specs.Prelude.{◌≡◌, ◌≢◌, ◌<◌, ◌^◌, IfOk, length, map, vec_len};
ghost use Rattle.std.specs.FinMap.{empty, insert};
ghost use Rattle.nr_model.specs.declared.value.Value.TheVariants.{Int};
ghost use Rattle.nr_run.specs.Runs.{IsMain, RunEnds, RunStops, int_array};

use super::call::run_call;
use super::ran::{Ran, RunEnd};
use nr_base::Items;
use nr_heap::Heap;
use nr_linked::{Base, Kind, MethodId, Verified};
use nr_model::{Ref, Value};
use std::alloc::{AllocError, Global};

const INT: Kind = Kind {
    dims: 0,
    base: Base::Int,
};

fn values_of(alloc: Global, ints: &[i32]) -> Result<Vec<Value>, AllocError>
    ensures items { IfOk result (λ values. values.items ≡ map Int ints.now) }
    ensures len { IfOk result (λ values. vec_len values ≡ length ints.now) }
{
    ints.iter().map(|n| Value::Int(*n)).collect(alloc)
}

// A heap with the array of the ints alone, and the array's name.
fn heap_of(alloc: Global, ints: &[i32]) -> Result<(Heap, Ref), AllocError>
    requires { length ints.now < 2 ^ 20 }
    ensures { IfOk result (λ made. made.0.objects ≡ insert empty made.1 (int_array ints.now)) }
{
    let values = values_of(alloc, ints)?;
    let mut heap = Heap::new(alloc);
    match heap.new_array(INT, ints.len() as u32) {
        Ok(name) => {
            heap.write_run(name, 0, &values);
            Ok((heap, name))
        }
        Err(_) => Err(AllocError),
    }
}

/// Runs `main` on one machine, on an array of the ints, for at most `budget` steps: until it ends, makes
/// as many steps, would pass a limit, or memory runs out.
pub fn run_main(alloc: Global, p: &Verified, main: MethodId, ints: &[i32], budget: u32) -> Ran
    requires main { IsMain p.now main }
    requires few { length ints.now < 2 ^ 20 }

    // It ends as the outcome within the budget says.
    ensures ends { result.end ≢ RunEnd.NoMemory → RunEnds p.now main ints.now budget result }

    // It has printed so on the way, also where memory ran out.
    ensures stops { RunStops p.now main ints.now budget result.printed }
{
    let _facts = p.program().tables();
    match heap_of(alloc, ints) {
        Ok((mut heap, name)) => run_call(alloc, p, &mut heap, main, &[Value::Ref(name)], budget),
        Err(_) => Ran {
            end: RunEnd::NoMemory,
            printed: Items::new(alloc),
        },
    }
}
