//! The numbers of classes as `serialver` of a JDK gives them, the order of slots, and handles.

mod classes;

use crate::number::parts_number;
use crate::order::push_declared;
use crate::{Handled, Handles};
use classes::{class, name};
use nr_base::{Items, Name};
use nr_linked::{Base, Kind, SlotInfo};
use std::alloc::{AllocError, Global};
use std::test::Fail;

// The parts of classes, and their numbers by `serialver` of OpenJDK 17, where they were compiled for
// version 50 by ecj.
const CLASSES: [(&str, i64); 8] = [
    (
        "class demo/Rich 49 nrmi/Restorable java/lang/Cloneable
field 24 K I
field 10 seen I
field 8 shared I
field 2 b I
field 0 a I
field 4 c [J
field 130 f I
field 129 g Ldemo/Rich;
field 65 s Ljava/lang/Object;
method 2 <init> (I)V
method 1 <init> ()V
method 0 <init> (Ljava/lang/Object;[I)V
method 2 hidden ()I
method 1 m (ILdemo/Rich;)I
method 12 m (J)J
method 16 z ([Ljava/lang/Object;)V",
        -8403197841801527091,
    ),
    (
        "class demo/Shape 1056 java/io/Serializable
method 0 <init> ()V
method 1024 size ([[Ldemo/Shape;)I",
        455479313382810628,
    ),
    (
        "class demo/Dim 33 nrmi/Restorable
field 128 x I
method 1 <init> ()V",
        -3704329885128919723,
    ),
    (
        "class book/Account 33 nrmi/Restorable
field 0 id I
field 0 balance J
field 0 left Lbook/Account;
field 0 right Lbook/Account;
method 0 <init> (I)V",
        -710667797374065869,
    ),
    (
        "class book/Book 33 nrmi/Restorable
field 0 root Lbook/Account;
method 1 <init> ()V",
        -7406071521638254084,
    ),
    (
        "class book/Plus 33 nrmi/Restorable
field 0 d J
method 1 <init> ()V",
        5678420364048662664,
    ),
    // a number that is declared
    (
        "class demo/Node 33 nrmi/Restorable
field 24 serialVersionUID J 1
field 0 v I
field 0 next Ldemo/Node;
method 1 <init> ()V",
        1,
    ),
    (
        "class demo/Node 33 nrmi/Restorable
field 26 serialVersionUID J -2
method 1 <init> ()V",
        -2,
    ),
];

#[test]
fn numbers(rt: HostRuntime) -> Result<(), Fail> {
    let alloc = rt.alloc();
    for (text, want) in CLASSES {
        let called = name(alloc, text)?;
        let class = class(alloc, text)?;
        let number = parts_number(alloc, &called, &class)?;
        assert_eq!(rt; number, want.cast_unsigned(), "{text}");
    }
    Ok(())
}

fn slot(
    alloc: Global,
    declared_in: u32,
    called: &[u8],
    desc: &[u8],
    base: Base,
) -> Result<SlotInfo, Fail> {
    if called.len() > 0xFFFF || desc.len() > 0xFFFF {
        return Err("a long text")?;
    }
    Ok(SlotInfo {
        declared_in,
        name: Name::read(alloc, called)?,
        desc: Name::read(alloc, desc)?,
        kind: Kind { dims: 0, base },
    })
}

#[test]
fn order(rt: HostRuntime) -> Result<(), Fail> {
    let alloc = rt.alloc();
    let mut slots = Items::new(alloc);
    slots.push(slot(alloc, 0, b"next", b"Ldemo/Node;", Base::Object(0))?)?;
    slots.push(slot(alloc, 1, b"other", b"I", Base::Int)?)?;
    slots.push(slot(alloc, 0, b"v", b"I", Base::Int)?)?;
    slots.push(slot(alloc, 0, b"a", b"Ldemo/Node;", Base::Object(0))?)?;
    slots.push(slot(alloc, 0, b"length", b"J", Base::Long)?)?;
    slots.push(slot(alloc, 0, b"B", b"Z", Base::Bool)?)?;
    slots.push(slot(alloc, 0, b"v", b"B", Base::Byte)?)?;
    let slots = slots.as_slice();
    assert!(rt; slots.len() == 7);
    let mut found = Vec::new(alloc);
    push_declared(alloc, &mut found, slots, 0)?;
    let mut places = Vec::new(alloc);
    for slot in &found {
        places.push(slot.place)?;
    }
    assert_eq!(rt; places.as_slice(), [5, 4, 6, 2, 3, 0].as_slice());
    Ok(())
}

fn give<'p>(handles: &mut Handles<'p>, key: Handled<'p>) -> Result<bool, AllocError> {
    match handles.find(key) {
        Some(_) => Ok(false),
        None => {
            handles.give(key)?;
            Ok(true)
        }
    }
}

#[test]
fn handles(rt: HostRuntime) -> Result<(), Fail> {
    let alloc = rt.alloc();
    let ints = Kind {
        dims: 1,
        base: Base::Int,
    };
    let mut handles = Handles::new(alloc);
    assert!(rt; give(&mut handles, Handled::Class(ints))?);
    assert!(rt; give(&mut handles, Handled::Text(b"[I"))?);
    assert!(rt; give(&mut handles, Handled::Object(0))?);
    assert!(rt; !give(&mut handles, Handled::Text(b"[I"))?);
    assert!(rt; give(&mut handles, Handled::Object(1))?);
    assert_eq!(rt; handles.find(Handled::Class(ints)), Some(0x7E0000));
    assert_eq!(rt; handles.find(Handled::Text(b"[I")), Some(0x7E0001));
    assert_eq!(rt; handles.find(Handled::Object(1)), Some(0x7E0003));
    assert_eq!(rt; handles.find(Handled::Object(2)), None);
    assert!(rt; handles.at(0x7E0002) == Some(Handled::Object(0)));
    assert!(rt; handles.at(0x7E0004).is_none());
    assert!(rt; handles.at(0x7DFFFF).is_none());
    Ok(())
}
