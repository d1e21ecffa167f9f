//! The limit of cells, spare cells, and marks.

ghost use Rattle.std.specs.Prelude.{◌≡◌};

use crate::fault::HeapFault;
use crate::heap::Heap;
use nr_linked::{Base, Kind};
use std::test::Fail;

fn ints() -> Kind
    ensures { result.dims ≡ 0 }
{
    Kind {
        dims: 0,
        base: Base::Int,
    }
}

#[test]
fn a_heap_has_at_most_its_limit(rt: HostRuntime) -> Result<(), Fail> {
    let mut heap = Heap::new(rt.alloc());
    assert!(rt; heap.new_array(ints(), 1_048_576) == Err(HeapFault::HeapFull(1_048_577)));
    assert!(rt; heap.new_array(ints(), 4_294_967_295) == Err(HeapFault::HeapFull(4_294_967_296)));
    assert!(rt; heap.cells() == 0);
    assert!(rt; heap.new_array(ints(), 1_048_573) == Ok(0));
    assert!(rt; heap.new_array(ints(), 2) == Err(HeapFault::HeapFull(1_048_577)));
    assert!(rt; heap.new_array(ints(), 1) == Ok(1));
    assert!(rt; heap.cells() == 1_048_576);
    assert!(rt; heap.new_array(ints(), 0) == Err(HeapFault::HeapFull(1_048_577)));
    Ok(())
}

#[test]
fn what_came_after_a_mark_is_given_up(rt: HostRuntime) -> Result<(), Fail> {
    let mut heap = Heap::new(rt.alloc());
    heap.new_array(ints(), 3)?;
    let mark = heap.mark();
    heap.new_array(ints(), 5)?;
    heap.new_array(ints(), 6)?;
    assert!(rt; heap.cells() == 4 + 6 + 7);
    heap.cut_back(mark);
    assert!(rt; heap.cells() == 4);
    assert!(rt; heap.new_array(ints(), 1)? == 1);
    assert!(rt; heap.new_array(ints(), 2)? == 2);
    heap.reserve(9)?;
    assert!(rt; heap.spare() == 9);
    heap.new_array(ints(), 7)?;
    assert!(rt; heap.spare() == 1);
    Ok(())
}
