//! The end of which a machine's last answer tells.

ghost use Rattle.std.specs.Prelude.{◌≡◌, ℕ, IsSomeAnd};
ghost use Rattle.std.specs.FinMap.{get};
ghost use Rattle.nr_linked.specs.Kinds.{class_kind};
ghost use Rattle.nr_run.specs.Answers.{Tells};
ghost use Rattle.nr_run.specs.declared.ran.RunEnd.{RunEnd as End};

use super::ran::{Limit, RunEnd};
use nr_heap::Heap;
use nr_linked::{Base, ClassId};
use nr_machine::Turn;
use nr_model::{Ref, Value};

// The class of an object.
fn class_of(heap: &Heap, object: Ref) -> ClassId
    requires { (c : ℕ) × IsSomeAnd (get heap.now.objects object) (λ o. o.kind ≡ class_kind c) }
    ensures { IsSomeAnd (get heap.now.objects object) (λ o. o.kind ≡ class_kind result) }
{
    match heap.kind_of(object).base {
        Base::Object(class) => class,
        _ => unreachable!(),
    }
}

/// The end of which a machine's answer tells, in its heap, where it tells of one.
pub fn end_told(heap: &Heap, answer: Turn) -> RunEnd
    requires { (end : End) × Tells heap.now.objects answer end }
    ensures { Tells heap.now.objects answer result }
{
    match answer {
        Turn::Returned(Some(Value::Int(value))) => RunEnd::Returned(value),
        Turn::Thrown(object) => RunEnd::Thrown(class_of(heap, object)),
        Turn::BudgetSpent => RunEnd::Budget,
        Turn::HeapFull => RunEnd::Limit(Limit::Cells),
        Turn::TooDeep => RunEnd::Limit(Limit::Depth),
        Turn::OutputTooLong => RunEnd::Limit(Limit::Output),
        Turn::NoMemory => RunEnd::NoMemory,
        Turn::Ran | Turn::RemoteAsk(_) | Turn::Returned(_) => unreachable!(),
    }
}
