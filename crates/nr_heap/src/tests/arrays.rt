//! What arrays of each kind hold.

ghost use Rattle.std.specs.Prelude.{◌≡◌, ◌<◌, ◌≤◌, ◌^◌, IsSomeAnd, length};
ghost use Rattle.std.specs.FinMap.{get};
ghost use Rattle.std.specs.List.{All};
ghost use Rattle.nr_linked.specs.Kinds.{array_of};
ghost use Rattle.nr_heap.specs.Contents.{Keeps};

use crate::fault::HeapFault;
use crate::heap::Heap;
use nr_linked::{Base, Kind};
use nr_model::{Ref, Value};
use std::test::Fail;

/// Whether each element of an array is this value.
fn holds_only(heap: &Heap, array: Ref, len: u32, value: Value) -> bool
    requires { IsSomeAnd (get heap.now.objects array) (λ o. length o.slots ≡ len) }
{
    for place in 0..len {
        if heap.get_slot(array, place) != value {
            return false;
        }
    }
    true
}

/// Whether the elements of an array are these values.
fn holds(heap: &Heap, array: Ref, values: &[Value]) -> bool
    requires few { length values.now < 2 ^ 32 }
    requires array { IsSomeAnd (get heap.now.objects array) (λ o. length o.slots ≡ length values.now) }
{
    for (place, value) in values.iter().enumerate() {
        if heap.get_slot(array, place as u32) != *value {
            return false;
        }
    }
    true
}

/// Whether a new array of these values keeps each in its place, and has zeros or nulls before.
#[tactic(auto, using(crate::proofs::Tested::has_array, crate::proofs::Tested::has_length, crate::proofs::Tested::has_run, crate::proofs::Tested::keeps_run, crate::proofs::Tested::has_written))]
fn keeps(heap: &mut Heap, elem: Kind, zero: Value, values: &[Value]) -> Result<bool, HeapFault>
    requires dims { elem.dims ≤ 254 }
    requires few { length values.now < 2 ^ 32 }
    requires keeps { All (Keeps (array_of elem)) values.now }
{
    let len = values.len() as u32;
    let array = heap.new_array(elem, len)?;
    let is_new = heap.len_of(array) == Some(len) && holds_only(heap, array, len, zero);
    heap.write_run(array, 0, values);
    Ok(is_new && holds(heap, array, values))
}

fn one(base: Base) -> Kind
    ensures { result ≡ record { dims = 0; base = base } }
{
    Kind { dims: 0, base }
}

/// Each value stands in a place of a word of its own; the last word isn't full.
#[test]
fn arrays_keep_their_elements(rt: HostRuntime) -> Result<(), Fail> {
    let mut heap = Heap::new(rt.alloc());
    let ints = [
        Value::Int(2_147_483_647),
        Value::Int(-2_147_483_648),
        Value::Int(-1),
        Value::Int(0),
        Value::Int(1),
    ];
    assert!(rt; keeps(&mut heap, one(Base::Int), Value::Int(0), &ints)?);
    let bytes = [
        Value::Int(-128),
        Value::Int(127),
        Value::Int(-1),
        Value::Int(0),
        Value::Int(1),
        Value::Int(2),
        Value::Int(3),
        Value::Int(-2),
        Value::Int(64),
    ];
    assert!(rt; keeps(&mut heap, one(Base::Byte), Value::Int(0), &bytes)?);
    let bits = [Value::Int(1), Value::Int(0), Value::Int(1)];
    assert!(rt; keeps(&mut heap, one(Base::Bool), Value::Int(0), &bits)?);
    let shorts = [
        Value::Int(-32_768),
        Value::Int(32_767),
        Value::Int(-1),
        Value::Int(0),
        Value::Int(5),
    ];
    assert!(rt; keeps(&mut heap, one(Base::Short), Value::Int(0), &shorts)?);
    let chars = [
        Value::Int(65_535),
        Value::Int(0),
        Value::Int(32_768),
        Value::Int(97),
        Value::Int(1),
    ];
    assert!(rt; keeps(&mut heap, one(Base::Char), Value::Int(0), &chars)?);
    let longs = [
        Value::Long(9_223_372_036_854_775_807),
        Value::Long(-9_223_372_036_854_775_808),
        Value::Long(-1),
    ];
    assert!(rt; keeps(&mut heap, one(Base::Long), Value::Long(0), &longs)?);
    let names = [Value::Ref(0), Value::Null, Value::Ref(4_294_967_295)];
    assert!(rt; keeps(&mut heap, one(Base::Object(0)), Value::Null, &names)?);
    let rows = Kind {
        dims: 2,
        base: Base::Byte,
    };
    assert!(rt; keeps(&mut heap, rows, Value::Null, &names)?);

    // One cell for each array, and one for each element.
    assert!(rt; heap.cells() == 8 + 5 + 9 + 3 + 5 + 5 + 3 + 3 + 3);
    Ok(())
}
