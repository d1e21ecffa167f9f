//! Subtypes, and which kinds are sent and restored.

use super::world::{kind, tables, word, yes};
use crate::program::ProgramTables;
use std::process::Abort;
use std::test::Fail;

// Two kinds, whether the first is a subtype, and whether it is assignable.
const PAIRS: &str = "\
L0 L0 yes yes
L1 L0 yes yes
L0 L1 no no
L1 L11 yes yes
L4 L2 yes yes
L1 L2 no yes
L2 L11 yes yes
L2 L2 yes yes
L2 L0 no no
L1 L5 no no
[I L11 yes yes
[I L12 yes yes
[I L29 yes yes
[I L30 no yes
[I L2 no yes
[I L0 no no
[I [I yes yes
[I [J no no
[I [[I no no
[[I [L11 yes yes
[[I [L29 yes yes
[[I [L2 no yes
[L1 [L0 yes yes
[L0 [L1 no no
[L4 [L2 yes yes
[L1 [L2 no yes
[[L1 [[L0 yes yes
[[L1 [L0 no no
[L1 L0 no no
L0 [I no no
I I yes yes
I J no no
B B yes yes
B Z no no
I L11 no no
I L2 no no
[I I no no
";

// A kind, whether it is sendable, and whether it is restorable.
const SENT: &str = "\
I no no
J no no
[I yes yes
[[J yes yes
L0 yes no
L1 yes no
L2 no no
L3 no no
L4 yes no
L5 no no
L6 no no
L7 yes yes
L8 yes no
L9 yes no
L10 no no
L11 no no
[L5 yes yes
[L11 yes yes
";

fn compare(rt: &impl Abort, program: &ProgramTables) {
    for row in PAIRS.lines() {
        let a = kind(word(row, 0));
        let b = kind(word(row, 1));
        assert!(rt; program.is_sub(a, b) == yes(row, 2), "{row}");
        assert!(rt; program.is_assignable(a, b) == yes(row, 3), "{row}");
    }
}

fn send_and_restore(rt: &impl Abort, program: &ProgramTables) {
    for row in SENT.lines() {
        let sent = kind(word(row, 0));
        assert!(rt; program.is_sendable(sent) == yes(row, 1), "{row}");
        assert!(rt; program.is_restorable(sent) == yes(row, 2), "{row}");
    }
}

// The descriptor of 254 dimensions has 65,535 bytes.
fn send_long(rt: &impl Abort, program: &ProgramTables) {
    let mut long = kind("[L5");
    long.dims = 254;
    assert!(rt; program.is_sendable(long));
    long.dims = 255;
    assert!(rt; !program.is_sendable(long));
}

#[test]
fn kinds(rt: HostRuntime) -> Result<(), Fail> {
    let program = tables(rt.alloc(), "")?;
    compare(&rt, &program);
    send_and_restore(&rt, &program);
    send_long(&rt, &program);
    Ok(())
}
