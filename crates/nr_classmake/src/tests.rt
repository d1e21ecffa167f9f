//! Classes that are made, with places, pools and faults that were counted by hand.

use crate::ClassMaker;
use nr_base::{Items, Name};
use nr_prog::{Class, Code, FormFault, PoolEntry};
use std::alloc::{AllocError, Global};
use std::fmt::Debug;
use std::mem;
use std::process::Abort;
use std::test::Fail;

// Each call of a class A with the superclass B, whose pool is A, Class(1), B, Class(3) at first, and what
// it answers. A class that ends has a pool, interfaces, fields (flags, name, descriptor, constant value)
// and methods (flags, name, descriptor), or a fault.
const CLASSES: &str = "\
text A|Ok(1)
text x|Ok(5)
text x|Ok(5)
class A|Ok(2)
class B|Ok(4)
class C|Ok(7)
class C|Ok(7)
int 7|Ok(8)
int 7|Ok(8)
int -7|Ok(9)
long 7|Ok(10)
long 7|Ok(10)
text y|Ok(12)
ref 9 A x y|Ok(14)
ref 9 A x y|Ok(14)
ref 10 A x y|Ok(15)
ref 10 A x y|Ok(15)
ref 11 A x y|Ok(16)
ref 11 A x y|Ok(16)
ref 10 D x y|Ok(19)
ref 9 D y y|Ok(21)
text z|Ok(22)
end|A Class(1) B Class(3) x C Class(6) Integer(7) Integer(-7) Long(7) Unused y NameAndType(5, 12) FieldRef(2, 13) MethodRef(2, 13) InterfaceMethodRef(2, 13) D Class(17) MethodRef(18, 13) NameAndType(12, 12) FieldRef(18, 20) z / [] [] []
end|A Class(1) B Class(3) / [] [] []
interface I|Ok(())
field f I 24 5|Ok(())
field g I 24 5|Ok(())
field h J 24 5|Ok(())
field i J 2 none|Ok(())
interface I|Ok(())
method m ()V 1 code|Ok(())
method n ()V 9 code|Ok(())
method o ()V 1 maps|Ok(())
method f ()V 1 maps|Ok(())
method p ()V 1025 none|Ok(())
text z|Ok(23)
end|A Class(1) B Class(3) I Class(5) f ConstantValue Integer(5) g h J Long(5) Unused i m ()V Code n o StackMapTable p z / [6, 6] [(24, 7, 5, 9), (24, 10, 5, 9), (24, 11, 12, 13), (2, 15, 12, 0)] [(1, 16, 17), (9, 19, 17), (1, 20, 17), (1, 7, 17), (1025, 22, 17)]
field f Q 2 none|Ok(())
end|BadDesc(6)
field a/b I 2 none|Ok(())
end|BadName(5)
field f I 2 none|Ok(())
field f I 24 7|Ok(())
end|Doubled(5)
field f LA; 24 7|Ok(())
end|PoolKind(8)
interface C;|Ok(())
end|BadName(6)
method m ()V 1 none|Ok(())
end|CodePresence(0)
method m ()V 1 code|Ok(())
method n ()V 1025 code|Ok(())
end|CodePresence(1)
method m ()V 257 none|Ok(())
end|OutOfProfile(0)
";

// Calls of a class whose pool has the ints 0 to 65,529 at the places 5 to 65,534: one place is left.
const FULL: &str = "\
long 1|Err(PoolFull)
class C|Err(PoolFull)
interface C|Err(PoolFull)
ref 9 A x y|Err(PoolFull)
field x I 24 7|Err(PoolFull)
method x ()V 1 code|Err(PoolFull)
int 65529|Ok(65534)
class B|Ok(4)
int -1|Ok(65535)
int -2|Err(PoolFull)
text C|Err(PoolFull)
text x|Err(PoolFull)
long 1|Err(PoolFull)
int -1|Ok(65535)
text A|Ok(1)
interface B|Ok(())
field A B 2 none|Ok(())
field A B 2 7|Err(PoolFull)
int 0|Ok(5)
";

fn debug<T: Debug>(alloc: Global, value: &T) -> Result<String, AllocError> {
    format!(in alloc; "{value:?}")
}

fn name<R: AllocGlobal + Abort>(rt: &R, text: &str) -> Result<Name, Fail> {
    assert!(rt; text.len() < 1000);
    Ok(Name::read(rt.alloc(), text.as_bytes())?)
}

fn new_maker<R: AllocGlobal + Abort>(rt: &R) -> Result<ClassMaker, Fail> {
    Ok(ClassMaker::new(rt.alloc(), &name(rt, "A")?, &name(rt, "B")?, 33)?)
}

// One instruction, and frame maps or none.
fn code(alloc: Global, kind: &str) -> Result<Option<Code>, AllocError> {
    let maps = match kind.as_bytes() {
        b"none" => return Ok(None),
        b"maps" => Some(Items::of(alloc, b"\0\0")?),
        _ => None,
    };
    Ok(Some(Code {
        max_stack: 0,
        max_locals: 1,
        bytes: Items::of(alloc, b"\xB1")?,
        handlers: Items::new(alloc),
        maps,
    }))
}

// A call's words: its verb, and up to four others.
fn words(call: &str) -> [&str; 5] {
    let mut words = call.split(' ');
    let verb = words.next().unwrap_or("");
    let first = words.next().unwrap_or("");
    let second = words.next().unwrap_or("");
    let third = words.next().unwrap_or("");
    [verb, first, second, third, words.next().unwrap_or("")]
}

// What a call that adds a field or a method answers.
fn added<R: AllocGlobal + Abort>(
    rt: &R,
    maker: &mut ClassMaker,
    words: [&str; 5],
) -> Result<String, Fail> {
    let alloc = rt.alloc();
    let [verb, first, second, flags, last] = words;
    let flags = flags.parse::<u16>()?;
    let member = name(rt, first)?;
    let desc = name(rt, second)?;
    let made = if verb == "field" {
        let constant = last.parse::<i32>().ok().map(i64::from);
        maker.add_field(alloc, flags, &member, &desc, constant)
    } else {
        maker.add_method(alloc, flags, &member, &desc, code(alloc, last)?)
    };
    Ok(debug(alloc, &made)?)
}

// The place that a call of a reference answers.
fn referred<R: AllocGlobal + Abort>(
    rt: &R,
    maker: &mut ClassMaker,
    words: [&str; 5],
) -> Result<String, Fail> {
    let [_, tag, class, second, third] = words;
    let tag = tag.parse::<u8>()?;
    assert!(rt; tag >= 9 && tag <= 11);
    let class = name(rt, class)?;
    let member = name(rt, second)?;
    let desc = name(rt, third)?;
    let place = maker.member_ref(rt.alloc(), tag, &class, &member, &desc);
    Ok(debug(rt.alloc(), &place)?)
}

// What a call answers.
fn answer<R: AllocGlobal + Abort>(
    rt: &R,
    maker: &mut ClassMaker,
    call: &str,
) -> Result<String, Fail> {
    let alloc = rt.alloc();
    let words = words(call);
    let [verb, word, ..] = words;
    assert!(rt; word.len() < 1000);
    let place = match verb.as_bytes() {
        b"text" => maker.utf8(alloc, word.as_bytes()),
        b"class" => maker.class_ref(alloc, &name(rt, word)?),
        b"int" => maker.int_const(alloc, word.parse::<i32>()?),
        b"long" => maker.long_const(alloc, word.parse::<i64>()?),
        b"interface" => return Ok(debug(alloc, &maker.add_interface(alloc, &name(rt, word)?))?),
        b"ref" => return referred(rt, maker, words),
        _ => return added(rt, maker, words),
    };
    Ok(debug(alloc, &place)?)
}

fn entry_told(alloc: Global, entry: &PoolEntry) -> Result<String, AllocError> {
    match entry {
        PoolEntry::Utf8(text) => format!(in alloc; "{}", text.as_slice().escape_ascii()),
        entry => debug(alloc, entry),
    }
}

// What a class has, or the fault of one that is refused.
fn class_told(alloc: Global, made: Result<Class, FormFault>) -> Result<String, AllocError> {
    let class = match made {
        Ok(class) => class,
        Err(fault) => return debug(alloc, &fault),
    };
    let parts = class.parts();
    let mut told = String::new(alloc);
    for entry in parts.pool.as_slice() {
        told.push_str(entry_told(alloc, entry)?.as_str())?;
        told.push(' ')?;
    }
    let interfaces = parts.interfaces.as_slice();
    let mut fields = Vec::new(alloc);
    for field in parts.fields.as_slice() {
        fields.push((field.flags, field.name, field.desc, field.constant))?;
    }
    let mut methods = Vec::new(alloc);
    for method in parts.methods.as_slice() {
        methods.push((method.flags, method.name, method.desc))?;
    }
    format!(in alloc; "{told}/ {interfaces:?} {fields:?} {methods:?}")
}

fn finished<R: AllocGlobal + Abort>(rt: &R, maker: ClassMaker) -> Result<Class, FormFault> {
    assert!(rt; maker.is_within_bounds());
    maker.finish(rt.alloc())
}

// What a row's call answers, or what the class has that ends there. Then a new one begins.
fn row_told<R: AllocGlobal + Abort>(
    rt: &R,
    maker: &mut ClassMaker,
    call: &str,
) -> Result<String, Fail> {
    if call != "end" {
        return answer(rt, maker, call);
    }
    let made = mem::replace(maker, new_maker(rt)?);
    Ok(class_told(rt.alloc(), finished(rt, made))?)
}

#[test]
fn classes(rt: HostRuntime) -> Result<(), Fail> {
    let mut maker = new_maker(&rt)?;
    for row in CLASSES.lines() {
        let (call, want) = row.split_once('|').ok_or("a row")?;
        assert_eq!(rt; row_told(&rt, &mut maker, call)?.as_str(), want, "{call}");
    }
    Ok(())
}

#[test]
fn full_pools(rt: HostRuntime) -> Result<(), Fail> {
    let mut maker = new_maker(&rt)?;
    for n in 0..65_530 {
        maker.int_const(rt.alloc(), n)?;
    }
    for row in FULL.lines() {
        let (call, want) = row.split_once('|').ok_or("a row")?;
        assert_eq!(rt; answer(&rt, &mut maker, call)?.as_str(), want, "{call}");
    }
    let class = finished(&rt, maker)?;
    let parts = class.parts();
    assert_eq!(rt; parts.pool.len(), 65_535);
    assert_eq!(rt;
        (
            parts.interfaces.len(),
            parts.fields.len(),
            parts.methods.len()
        ),
        (1, 1, 0)
    );
    Ok(())
}
