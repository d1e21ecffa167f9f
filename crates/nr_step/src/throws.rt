//! Throws by the machine itself (JVM Specification 2.10).

ghost use Rattle.std.specs.Prelude.{◌≡◌, IsTrue};
ghost use Rattle.nr_linked.specs.TypingFacts.{is_thrown};
ghost use Rattle.nr_model.specs.Scripts.{Within};
ghost use Rattle.nr_model.specs.Throws.{throw_new};
ghost use Rattle.nr_step.specs.Flows.{ThrewNew};

use crate::flow::{Flow, Told};
use nr_heap::{Heap, HeapFault};
use nr_linked::{BuiltIn, Program};

/// Makes an object of a built-in class, to be thrown, and tells its name.
#[cold]
#[inline(never)]
pub fn throw_object(p: &Program, heap: &mut Heap, which: BuiltIn, told: &mut Told) -> Flow
    requires { IsTrue (is_thrown which) }
    ensures { (w : Within) → w.heap ≡ heap.old.objects → ThrewNew result (throw_new p.now which) w told.new heap.new.objects }
{
    let _ = p.tables();
    match heap.new_object(p, p.built_in(which)) {
        Ok(name) => {
            told.number = name;
            Flow::Throw
        }
        Err(HeapFault::HeapFull(cells)) => {
            told.cells = cells;
            Flow::Full
        }
        Err(HeapFault::NoMemory) => Flow::NoMemory,
    }
}
