//! Classes by name, slots, selected and static methods.

use super::world::{found, id, kind, name, tables, word};
use crate::program::ProgramTables;
use std::alloc::Global;
use std::process::Abort;
use std::test::Fail;

// A name, and the class of that name.
const NAMES: &str = "\
demo/Sub 1
demo/No -
java/lang/Object 11
";

// The class of the object, the declaring class, the field, and its slot.
const SLOTS: &str = "\
1 0 v 0
1 1 v 1
1 1 next 2
1 0 next -
0 0 v 0
0 1 v -
4 0 v 0
10 10 a 0
5 5 v -
";

// A method, the receiver's class, and the method that is selected.
const SELECTED: &str = "\
1 0 1
1 1 4
1 4 -
7 1 4
7 5 -
7 4 -
3 1 3
2 0 -
2 1 5
6 4 -
0 1 0
8 3 -
";

// A class, a name, a descriptor, and the public static method.
const STATIC: &str = "\
4 k (I)V 9
4 k ()V -
4 j (I)V -
0 g ()I 2
1 g ()I -
4 g ()I -
0 f ()I -
";

fn find_class(
    rt: &impl Abort,
    alloc: Global,
    program: &ProgramTables,
    row: &str,
) -> Result<(), Fail> {
    let called = name(alloc, word(row, 0))?;
    assert!(rt; program.place_of(&called) == found(row, 1), "{row}");
    Ok(())
}

fn find_slot(
    rt: &impl Abort,
    alloc: Global,
    program: &ProgramTables,
    row: &str,
) -> Result<(), Fail> {
    let field = name(alloc, word(row, 2))?;
    let slot = program.slot_named(id(row, 0), id(row, 1), &field);
    assert!(rt; slot == found(row, 3), "{row}");
    Ok(())
}

fn static_named(alloc: Global, program: &ProgramTables, row: &str) -> Result<Option<usize>, Fail> {
    let called = name(alloc, word(row, 1))?;
    let desc = name(alloc, word(row, 2))?;
    Ok(program.static_named(id(row, 0), called.as_bytes(), desc.as_bytes()))
}

fn find_static(
    rt: &impl Abort,
    alloc: Global,
    program: &ProgramTables,
    row: &str,
) -> Result<(), Fail> {
    let method = static_named(alloc, program, row)?;
    assert!(rt; method == found(row, 3), "{row}");
    Ok(())
}

fn select(rt: &impl Abort, program: &ProgramTables) {
    for row in SELECTED.lines() {
        let selected = program.selected(id(row, 0), id(row, 1));
        assert!(rt; selected == found(row, 2), "{row}");
    }
}

fn look_at_slots(rt: &impl Abort, program: &ProgramTables) {
    assert!(rt; program.slots_of(1).len() == 3);
    assert!(rt; program.kind_of_slot(1, 2) == Some(kind("[L1")));
    assert!(rt; program.kind_of_slot(1, 3).is_none());
}

fn find(rt: &impl Abort, alloc: Global, program: &ProgramTables) -> Result<(), Fail> {
    for row in NAMES.lines() {
        find_class(rt, alloc, program, row)?;
    }
    for row in SLOTS.lines() {
        find_slot(rt, alloc, program, row)?;
    }
    for row in STATIC.lines() {
        find_static(rt, alloc, program, row)?;
    }
    Ok(())
}

#[test]
fn members(rt: HostRuntime) -> Result<(), Fail> {
    let alloc = rt.alloc();
    let program = tables(alloc, "")?;
    find(&rt, alloc, &program)?;
    look_at_slots(&rt, &program);
    select(&rt, &program);
    Ok(())
}
