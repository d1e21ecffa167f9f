//! Each fault of a class file's form, at its index or its place.

use crate::{Class, ClassParts, Code, Field, FormFault, Handler, Method, PoolEntry};
use nr_base::Items;
use std::alloc::{AllocError, Global};
use std::process::Abort;
use std::test::Fail;

// The constant pool of a class that keeps the form: the index of each entry, its tag (JVM
// Specification, table 4.4-A), which is 0 for the place after a long or a double, and the indices
// or the text of some. The text `*` is the letter a and a zero, which no name has.
const POOL: &str = "\
1 1 demo/A
2 7 1
3 1 java/lang/Object
4 7 3
5 1 I
6 3
7 1 J
8 5
9 0
10 1 Ljava/lang/String;
11 8 1
12 1 m
13 1 ()V
14 1 <init>
15 1 ()I
16 12 12 13
17 10 2 16
18 9 2 16
19 11 4 16
20 4
21 6
22 0
23 1 m
24 1 *
25 1 F
";

// What is other than in that class, and the first fault of its form. A number gives the entry at an
// index, which may come after the last one; `field` and `method` give one more: its flags, its name,
// its descriptor, and the constant value or the length of the code.
const CASES: &str = "\
nothing = formed
9 3 = PoolKind 8
8 3 = PoolKind 9
22 5 = PoolKind 21
1 0 = PoolKind 1
26 6 = PoolKind 26
26 7 0 = PoolKind 26
26 7 2 = PoolKind 26
26 7 27 = PoolKind 26
11 8 6 = PoolKind 11
18 9 16 16 = PoolKind 18
17 10 2 2 = PoolKind 17
19 11 1 16 = PoolKind 19
16 12 12 2 = PoolKind 16
26 7 24 = formed
this 0 = BadName 0
this 1 = BadName 1
super 0 = PoolKind 0
super 16 = BadName 16
interface 4 = formed
interface 6 = BadName 6
1 1 demo//A = BadName 2
3 1 [I = BadName 4
3 1 * = BadName 4
field 0 12 7 8 = formed
field 0 5 5 0 = formed
field 0 6 5 0 = BadName 6
field 0 3 5 0 = BadName 3
field 0 24 5 0 = BadName 24
field 0 5 12 0 = BadDesc 12
field 0 5 25 0 = BadDesc 25
field 0 5 13 0 = BadDesc 13
field 0 23 5 0 = Doubled 23
field 0 5 5 8 = PoolKind 8
field 0 5 7 6 = PoolKind 6
field 0 5 10 11 = formed
field 0 5 10 1 = PoolKind 1
field 0 5 5 26 = PoolKind 26
method 0 23 15 1 = formed
method 0 3 13 1 = BadName 3
method 0 5 5 1 = BadDesc 5
method 0 23 13 1 = Doubled 23
method 256 5 13 - = OutOfProfile 1
method 32 5 13 1 = OutOfProfile 1
method 1032 5 13 - = OutOfProfile 1
method 0 14 13 1 = formed
method 8 14 13 1 = OutOfProfile 1
method 1024 14 13 - = OutOfProfile 1
method 0 14 15 1 = OutOfProfile 1
method 0 5 13 0 = OutOfProfile 1
method 0 5 13 65535 = formed
method 0 5 13 65536 = OutOfProfile 1
method 1024 5 13 - = formed
method 1024 5 13 1 = CodePresence 1
method 0 5 13 - = CodePresence 1
";

fn part(text: &str, mark: char, place: usize) -> &str {
    text.split(mark).nth(place).unwrap_or("")
}

fn word(row: &str, place: usize) -> &str {
    part(row, ' ', place)
}

// The number at a place of a row, or none for anything else.
fn listed(row: &str, place: usize) -> Option<u32> {
    word(row, place).parse::<u32>().ok()
}

fn number(row: &str, place: usize) -> u16 {
    word(row, place).parse::<u16>().unwrap_or(0)
}

fn text(alloc: Global, text: &str) -> Result<PoolEntry, AllocError> {
    let bytes = if text == "*" {
        b"a\xC0\x80".as_slice()
    } else {
        text.as_bytes()
    };
    Ok(PoolEntry::Utf8(Items::of(alloc, bytes)?))
}

fn plain(tag: u16, first: u16, second: u16) -> PoolEntry {
    match tag {
        3 => PoolEntry::Integer(7),
        4 => PoolEntry::Float(0),
        5 => PoolEntry::Long(7),
        6 => PoolEntry::Double(0),
        7 => PoolEntry::Class(first),
        8 => PoolEntry::Str(first),
        9 => PoolEntry::FieldRef(first, second),
        10 => PoolEntry::MethodRef(first, second),
        11 => PoolEntry::InterfaceMethodRef(first, second),
        12 => PoolEntry::NameAndType(first, second),
        _ => PoolEntry::Unused,
    }
}

fn entry(alloc: Global, row: &str) -> Result<PoolEntry, AllocError> {
    match number(row, 1) {
        1 => text(alloc, word(row, 2)),
        tag => Ok(plain(tag, number(row, 2), number(row, 3))),
    }
}

fn pool(alloc: Global, change: &str) -> Result<Items<PoolEntry>, AllocError> {
    let mut pool = Items::new(alloc);
    for row in POOL.lines() {
        let row = if word(row, 0) == word(change, 0) {
            change
        } else {
            row
        };
        pool.push(entry(alloc, row)?)?;
    }
    if word(change, 0) == "26" {
        pool.push(entry(alloc, change)?)?;
    }
    Ok(pool)
}

fn interfaces(alloc: Global, change: &str) -> Result<Items<u16>, AllocError> {
    let mut interfaces = Items::new(alloc);
    interfaces.push(2)?;
    if word(change, 0) == "interface" {
        interfaces.push(number(change, 1))?;
    }
    Ok(interfaces)
}

fn field(row: &str) -> Field {
    Field {
        flags: number(row, 1),
        name: number(row, 2),
        desc: number(row, 3),
        constant: number(row, 4),
    }
}

fn fields(alloc: Global, change: &str) -> Result<Items<Field>, AllocError> {
    let mut fields = Items::new(alloc);
    fields.push(field("field 8 12 5 6"))?;
    if word(change, 0) == "field" {
        fields.push(field(change))?;
    }
    Ok(fields)
}

fn handlers(alloc: Global) -> Result<Items<Handler>, AllocError> {
    let mut handlers = Items::new(alloc);
    handlers.push(Handler {
        start: 0,
        end: 1,
        handler: 0,
        catch_type: 0,
    })?;
    Ok(handlers)
}

fn code(alloc: Global, len: u32) -> Result<Code, AllocError> {
    let bytes = vec![in alloc; 0; len as usize]?;
    Ok(Code {
        max_stack: 1,
        max_locals: 1,
        bytes: Items::from_vec(bytes),
        handlers: handlers(alloc)?,
        maps: None,
    })
}

fn method(alloc: Global, row: &str) -> Result<Method, AllocError> {
    let code = match listed(row, 4) {
        Some(len) => Some(code(alloc, len)?),
        None => None,
    };
    Ok(Method {
        flags: number(row, 1),
        name: number(row, 2),
        desc: number(row, 3),
        code,
    })
}

fn methods(alloc: Global, change: &str) -> Result<Items<Method>, AllocError> {
    let mut methods = Items::new(alloc);
    methods.push(method(alloc, "method 1 12 13 1")?)?;
    if word(change, 0) == "method" {
        methods.push(method(alloc, change)?)?;
    }
    Ok(methods)
}

// The index that the change gives a part, or the one that it has in the class.
fn changed(change: &str, part: &str, usual: u16) -> u16 {
    if word(change, 0) == part {
        number(change, 1)
    } else {
        usual
    }
}

fn parts(alloc: Global, change: &str) -> Result<ClassParts, AllocError> {
    let pool = pool(alloc, change)?;
    let interfaces = interfaces(alloc, change)?;
    let fields = fields(alloc, change)?;
    let methods = methods(alloc, change)?;
    Ok(ClassParts {
        pool,
        flags: 0x0021,
        this_class: changed(change, "this", 2),
        super_class: changed(change, "super", 4),
        interfaces,
        fields,
        methods,
    })
}

fn told(fault: FormFault) -> (&'static str, u16) {
    match fault {
        FormFault::PoolKind(index) => ("PoolKind", index),
        FormFault::BadName(index) => ("BadName", index),
        FormFault::BadDesc(index) => ("BadDesc", index),
        FormFault::Doubled(index) => ("Doubled", index),
        FormFault::CodePresence(place) => ("CodePresence", place),
        FormFault::OutOfProfile(place) => ("OutOfProfile", place),
        FormFault::NoMemory => ("NoMemory", 0),
    }
}

// Whether the class has the changed parts.
fn is_changed(alloc: Global, class: &Class, change: &str) -> Result<bool, AllocError> {
    let parts = parts(alloc, change)?;
    Ok(*class.parts() == parts)
}

fn made(alloc: Global, class: Class, change: &str) -> Result<(&'static str, u16), AllocError> {
    if is_changed(alloc, &class, change)? {
        Ok(("formed", 0))
    } else {
        Ok(("other parts", 0))
    }
}

// The first fault of the changed parts, or that they make a class of themselves.
fn outcome(alloc: Global, change: &str) -> Result<(&'static str, u16), AllocError> {
    let parts = parts(alloc, change)?;
    if !parts.is_within_bounds() {
        return Ok(("too large", 0));
    }
    match Class::from_parts(alloc, parts) {
        Ok(class) => made(alloc, class, change),
        Err(fault) => Ok(told(fault)),
    }
}

fn check(rt: &impl Abort, alloc: Global, row: &str) -> Result<(), AllocError> {
    let want = part(row, '=', 1);
    let (found, place) = outcome(alloc, part(row, '=', 0))?;
    assert!(rt; found == word(want, 1), "{row}");
    assert!(rt; place == number(want, 2), "{row}");
    Ok(())
}

#[test]
fn faults(rt: HostRuntime) -> Result<(), Fail> {
    let alloc = rt.alloc();
    for row in CASES.lines() {
        check(&rt, alloc, row)?;
    }
    Ok(())
}
