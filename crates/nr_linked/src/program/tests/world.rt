//! Small tables, written as text.

use super::features::class_with;
use crate::program::{Base, ClassInfo, Kind, MethodInfo, ProgramTables, SlotInfo};
use nr_base::{Items, Name};
use nr_prog::{Body, Class};
use std::alloc::{AllocError, Global};
use std::test::Fail;

// Each class: its name, its flags, its superclass, what stands above it, its slots (the declaring
// class, the name and the kind), its first method and how many it declares. The built-in classes
// follow from 11 on: 29 is Serializable, 30 is Restorable. The name `*` stands for 65,279 times the
// letter a.
const CLASSES: &str = "\
demo/Base 33 11 0,11,29 0:v:I 0 4
demo/Sub 33 0 1,0,11,29 0:v:I,1:v:C,1:next:[L1 4 3
demo/Face 1537 11 2,11 - 7 1
demo/Part 1057 0 3,0,11,29,2 0:v:I 8 1
demo/Whole 33 3 4,3,0,11,29,2 0:v:I 9 2
* 33 11 5,11 - 11 0
demo/Odd 33 5 6,5,11,29 - 11 0
demo/Mark 33 11 7,11,30,29 - 11 0
demo/Own 33 11 8,11,29 - 11 0
demo/Below 33 8 9,8,11,29 - 11 0
demo/Twin 33 11 10,11,29 10:a:I,10:a:J 11 0
java/lang/Object 33 - 11 - 11 0
b1 1537 11 11 - 11 0
b2 33 11 11 - 11 0
b3 33 11 11 - 11 0
b4 33 11 11 - 11 0
b5 33 11 11 - 11 0
b6 33 11 11 - 11 0
b7 33 11 11 - 11 0
b8 33 11 11 - 11 0
b9 33 11 11 - 11 0
b10 33 11 11 - 11 0
b11 33 11 11 - 11 0
b12 33 11 11 - 11 0
b13 33 11 11 - 11 0
b14 33 11 11 - 11 0
b15 33 11 11 - 11 0
b16 33 11 11 - 11 0
b17 33 11 11 - 11 0
b18 1537 11 11 - 11 0
b19 1537 11 11 - 11 0
b20 33 11 11 - 11 0
b21 33 11 11 - 11 0
";

// Each method: its name, its descriptor, its flags and whether it has a body.
const METHODS: &str = "\
<init> ()V 1 yes
f ()I 1 yes
g ()I 9 yes
h ()I 2 yes
f ()I 1 yes
g ()I 1 yes
h ()I 1 yes
f ()I 1025 no
f ()I 1025 no
k (I)V 9 yes
k ()V 8 yes
";

fn part(text: &str, mark: char, place: usize) -> &str {
    text.split(mark).nth(place).unwrap_or("")
}

/// The word at a place of a row.
pub fn word(row: &str, place: usize) -> &str {
    part(row, ' ', place)
}

/// The number at a place of a row, or none for anything else.
pub fn number(row: &str, place: usize) -> Option<u32> {
    word(row, place).parse::<u32>().ok()
}

/// The number of a class or a method at a place of a row.
pub fn id(row: &str, place: usize) -> u32 {
    number(row, place).unwrap_or(u32::MAX)
}

/// The place in a table at a place of a row, or none for anything else.
pub fn found(row: &str, place: usize) -> Option<usize> {
    word(row, place).parse::<usize>().ok()
}

pub fn flags(row: &str, place: usize) -> u16 {
    word(row, place).parse::<u16>().unwrap_or(0)
}

/// Whether the word at a place is `yes`.
pub fn yes(row: &str, place: usize) -> bool {
    word(row, place) == "yes"
}

fn base(text: &str) -> Base {
    match text.as_bytes() {
        b"Z" => Base::Bool,
        b"B" => Base::Byte,
        b"C" => Base::Char,
        b"S" => Base::Short,
        b"I" => Base::Int,
        b"J" => Base::Long,
        _ => Base::Object(part(text, 'L', 1).parse::<u32>().unwrap_or(u32::MAX)),
    }
}

/// A kind, as `[[I` or `[L3`, where a number names the class.
pub fn kind(text: &str) -> Kind {
    let dims = text.split('[').count().saturating_sub(1);
    Kind {
        dims: u8::try_from(dims).unwrap_or(0),
        base: base(part(text, '[', dims)),
    }
}

pub fn name(alloc: Global, text: &str) -> Result<Name, Fail> {
    if text == "*" {
        let long = vec![in alloc; b'a'; 65279]?;
        return Ok(Name::read(alloc, long.as_slice())?);
    }
    if text.len() > 0xFFFF {
        return Err("a long name")?;
    }
    Ok(Name::read(alloc, text.as_bytes())?)
}

fn numbers(alloc: Global, text: &str) -> Result<Items<u32>, AllocError> {
    let mut listed = Items::new(alloc);
    for word in text.split(',') {
        listed.push(word.parse::<u32>().unwrap_or(u32::MAX))?;
    }
    Ok(listed)
}

fn slot(alloc: Global, text: &str) -> Result<SlotInfo, Fail> {
    let field = name(alloc, part(text, ':', 1))?;
    let desc = name(alloc, "I")?;
    Ok(SlotInfo {
        declared_in: part(text, ':', 0).parse::<u32>().unwrap_or(u32::MAX),
        name: field,
        desc,
        kind: kind(part(text, ':', 2)),
    })
}

fn slots(alloc: Global, text: &str) -> Result<Items<SlotInfo>, Fail> {
    let mut listed = Items::new(alloc);
    if text != "-" {
        for word in text.split(',') {
            listed.push(slot(alloc, word)?)?;
        }
    }
    Ok(listed)
}

fn class_above(
    alloc: Global,
    row: &str,
    read: Option<Class>,
    supers: Items<u32>,
) -> Result<ClassInfo, Fail> {
    let called = name(alloc, word(row, 0))?;
    let slots = slots(alloc, word(row, 4))?;
    Ok(ClassInfo {
        name: called,
        flags: flags(row, 1),
        super_class: number(row, 2),
        interfaces: Items::new(alloc),
        supers,
        slots,
        first_method: id(row, 5),
        methods: id(row, 6),
        read,
    })
}

fn class(alloc: Global, row: &str, member: &str) -> Result<ClassInfo, Fail> {
    let read = if word(row, 0) == "demo/Own" {
        class_with(alloc, member)?
    } else {
        None
    };
    let supers = numbers(alloc, word(row, 3))?;
    class_above(alloc, row, read, supers)
}

fn body(alloc: Global) -> Body {
    Body {
        instrs: Items::new(alloc),
        handlers: Items::new(alloc),
        maps: Items::new(alloc),
    }
}

fn method(alloc: Global, row: &str) -> Result<MethodInfo, Fail> {
    let called = name(alloc, word(row, 0))?;
    let desc = name(alloc, word(row, 1))?;
    Ok(MethodInfo {
        class: 0,
        name: called,
        desc,
        flags: flags(row, 2),
        params: Items::new(alloc),
        result: None,
        max_stack: 0,
        max_locals: 0,
        body: if yes(row, 3) { Some(body(alloc)) } else { None },
        resolved: Items::new(alloc),
        catches: Items::new(alloc),
        maps: Items::new(alloc),
    })
}

fn classes(alloc: Global, member: &str) -> Result<Items<ClassInfo>, Fail> {
    let mut classes = Items::new(alloc);
    for row in CLASSES.lines() {
        classes.push(class(alloc, row, member)?)?;
    }
    Ok(classes)
}

fn methods(alloc: Global) -> Result<Items<MethodInfo>, Fail> {
    let mut methods = Items::new(alloc);
    for row in METHODS.lines() {
        methods.push(method(alloc, row)?)?;
    }
    Ok(methods)
}

/// The tables of the texts above; `demo/Own` was read as a class with the member of a row, or is not
/// read where the row is empty.
pub fn tables(alloc: Global, member: &str) -> Result<ProgramTables, Fail> {
    let classes = classes(alloc, member)?;
    let methods = methods(alloc)?;
    Ok(ProgramTables { classes, methods })
}
