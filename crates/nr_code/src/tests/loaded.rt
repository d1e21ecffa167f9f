//! Whole answers.

use super::bodies::list_bodies;
use super::files::{COUNTER, SWITCHES};
use crate::load_class;
use nr_classread::read_class;
use std::process::Abort;
use std::test::Fail;

// What javap -v -p says of it, with the codes of the instructions by the JVM Specification, chapter
// 7, and each frame map as the whole frame that it stands for.
const COUNTER_BODIES: &str = "\
body
0 42
1 183 pool 1
4 177
body
0 3
1 60
2 27
3 16 number 7
5 162 to 24
8 42
9 42
10 180 pool 9
13 4
14 96
15 181 pool 9
18 132 local 1 by 1
21 167 to 2
24 177
map 2 locals Counter Int stack
map 24 locals Counter stack
body
0 42
1 180 pool 9
4 43
5 192 pool 7
8 180 pool 9
11 100
12 172
13 77
14 2
15 172
handler 0 12 13 13
map 13 locals Counter java/lang/Object stack java/lang/ClassCastException
";

// The same of this one.
const SWITCHES_BODIES: &str = "\
body
0 3
1 60
2 0
3 27
4 170 from -1 to [32, 60, 32] default:83
32 27
33 171 -7:60 500000:83 default:104
60 17 number 1000
63 196 54 local 257
67 196 21 local 257
71 87
72 196 132 local 1 by -300
78 200 to 3
83 42
84 3
85 46
86 172
87 87
88 187 pool 4
91 167 to 94
94 87
95 10
96 65
97 1
98 167 to 101
101 87
102 4
103 172
104 27
105 172
handler 83 87 87 10
map 3 locals [Int Int stack
map 32 locals [Int Int stack
map 60 locals [Int Int stack
map 83 locals [Int stack
map 87 locals [Int stack java/lang/RuntimeException
map 94 locals [Int stack Uninit(88)
map 101 locals [Int Top Long stack Null
map 104 locals [Int Int stack
";

fn expect<R: AllocGlobal + Abort>(rt: &R, bytes: &[u8], want: &str) -> Result<(), Fail> {
    assert!(rt; bytes.len() < 1000);
    let class = read_class(rt.alloc(), bytes).ok().ok_or("a class")?;
    let loaded = load_class(rt.alloc(), bytes)
        .ok()
        .ok_or("a class with code")?;
    assert!(rt; loaded.class.parts() == class.parts());
    let listing = list_bodies(rt.alloc(), loaded.bodies.as_slice())?;
    let mut told = listing.lines();
    for line in want.lines() {
        assert_eq!(rt; told.next(), Some(line));
    }
    assert_eq!(rt; told.next(), None);
    Ok(())
}

#[test]
fn bodies_of_classes(rt: HostRuntime) -> Result<(), Fail> {
    expect(&rt, COUNTER, COUNTER_BODIES)?;
    expect(&rt, SWITCHES, SWITCHES_BODIES)
}
