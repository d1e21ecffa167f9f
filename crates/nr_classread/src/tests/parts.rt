//! The parts of whole classes.

use super::files::{COUNTER, M};
use super::listing::list_class;
use crate::read_class;
use std::process::Abort;
use std::test::Fail;

// What javap -v says of it.
const M_PARTS: &str = "\
Utf8 M
Class 1
Utf8 java/lang/Object
Class 3
Utf8 main
Utf8 ([I)I
Utf8 Code
class 33 2 4
method 9 5 6
code 2 1 [5, 6, 96, 172]
";

// What javap -v says of it, with the bytes of code and of frame maps beside.
const COUNTER_PARTS: &str = "\
Methodref 2 3
Class 4
NameAndType 5 6
Utf8 java/lang/Object
Utf8 <init>
Utf8 ()V
Class 8
Utf8 Counter
Fieldref 7 10
NameAndType 11 12
Utf8 count
Utf8 I
Class 14
Utf8 java/lang/ClassCastException
Class 16
Utf8 java/lang/Runnable
Class 18
Utf8 java/lang/Comparable
Utf8 STEP
Utf8 ConstantValue
Integer 7
Utf8 LIMIT
Utf8 J
Long 5000000000
Unused
Utf8 NAME
Utf8 Ljava/lang/String;
String 29
Utf8 counter
Utf8 Code
Utf8 LineNumberTable
Utf8 run
Utf8 StackMapTable
Utf8 compareTo
Utf8 (Ljava/lang/Object;)I
Utf8 SourceFile
Utf8 Counter.java
class 33 7 2
interface 15
interface 17
field 24 19 12 21
field 24 22 23 24
field 24 26 27 28
field 0 11 12 0
method 1 5 6
code 1 1 [42, 183, 0, 1, 177]
method 1 32 6
code 3 2 [3, 60, 27, 16, 7, 162, 0, 19, 42, 42, 180, 0, 9, 4, 96, 181, 0, 9, 132, 1, 1, 167, 255, 237, 177]
maps [0, 2, 252, 0, 2, 1, 250, 0, 21]
method 1 34 35
code 2 3 [42, 180, 0, 9, 43, 192, 0, 7, 180, 0, 9, 100, 172, 77, 2, 172]
handler 0 12 13 13
maps [0, 1, 77, 7, 0, 13]
";

fn expect<R: AllocGlobal + Abort>(rt: &R, bytes: &[u8], want: &str) -> Result<(), Fail> {
    assert!(rt; bytes.len() < 1000);
    let class = read_class(rt.alloc(), bytes).ok().ok_or("a class")?;
    let listing = list_class(rt.alloc(), class.parts())?;
    let mut told = listing.lines();
    for line in want.lines() {
        assert_eq!(rt; told.next(), Some(line));
    }
    assert_eq!(rt; told.next(), None);
    Ok(())
}

#[test]
fn parts_of_classes(rt: HostRuntime) -> Result<(), Fail> {
    expect(&rt, M, M_PARTS)?;
    expect(&rt, COUNTER, COUNTER_PARTS)
}
