//! Classes that are made, and their files.

use crate::tests::scene::M_CLASS;
use nr_base::{Items, Name};
use nr_classmake::ClassMaker;
use nr_classwrite::write_class;
use nr_prog::Code;
use std::process::Abort;

// A class file that is put together by hand (JVM Specification 4): an abstract class p/Q with an
// interface, two fields with constant values, a method with one frame map, and an abstract method.
const Q_CLASS: &[u8] = b"\
\xCA\xFE\xBA\xBE\0\0\02\0\x15\x01\0\x03p/Q\x07\0\x01\x01\0\x10java/lang/Object\x07\0\x03\x01\0\x14ja\
va/io/Serializable\x07\0\x05\x01\0\x04STEP\x01\0\x01I\x01\0\x0DConstantValue\x03\xFF\xFF\xFF\xF9\x01\
\0\x05LIMIT\x01\0\x01J\x05\xFF\xFF\xFF\xFF\xFF\xFF\xFF\xFE\x01\0\x03abs\x01\0\x04(I)I\x01\0\x04Code\
\x01\0\x0DStackMapTable\x01\0\x03run\x01\0\x03()V\x04!\0\x02\0\x04\0\x01\0\x06\0\x02\0\x19\0\x07\0\
\x08\0\x01\0\x09\0\0\0\x02\0\x0A\0\x19\0\x0B\0\x0C\0\x01\0\x09\0\0\0\x02\0\x0D\0\x02\0\x09\0\x0F\0\
\x10\0\x01\0\x11\0\0\0\x1E\0\x01\0\x01\0\0\0\x09\x1A\x9C\0\x06\x1At\xAC\x1A\xAC\0\0\0\x01\0\x12\0\0\
\0\x03\0\x01\x07\x04\x01\0\x13\0\x14\0\0\0\0";

// iconst_2, iconst_3, iadd, ireturn
const FIVE: &[u8] = b"\x05\x06\x60\xAC";

// 0 iload_0, 1 ifge 7, 4 iload_0, 5 ineg, 6 ireturn, 7 iload_0, 8 ireturn
const ABS: &[u8] = b"\x1A\x9C\0\x06\x1At\xAC\x1A\xAC";

// One frame, the same as the first, at 7.
const ABS_MAPS: &[u8] = b"\0\x01\x07";

fn name<R: AllocGlobal + Abort>(rt: &R, text: &str) -> Name {
    assert!(rt; text.len() < 1000);
    Name::read(rt.alloc(), text.as_bytes()).expect(rt, "a name")
}

fn maker<R: AllocGlobal + Abort>(rt: &R, class: &str, flags: u16) -> ClassMaker {
    let object = name(rt, "java/lang/Object");
    ClassMaker::new(rt.alloc(), &name(rt, class), &object, flags).expect(rt, "a class")
}

fn add_field<R: AllocGlobal + Abort>(
    rt: &R,
    maker: &mut ClassMaker,
    field: &str,
    desc: &str,
    value: i32,
) {
    let added = maker.add_field(
        rt.alloc(),
        0x0019,
        &name(rt, field),
        &name(rt, desc),
        Some(i64::from(value)),
    );
    added.expect(rt, "a field");
}

fn code<R: AllocGlobal + Abort>(
    rt: &R,
    max_stack: u16,
    bytes: &[u8],
    maps: Option<Items<u8>>,
) -> Option<Code> {
    Some(Code {
        max_stack,
        max_locals: 1,
        bytes: Items::of(rt.alloc(), bytes).expect(rt, "bytes"),
        handlers: Items::new(rt.alloc()),
        maps,
    })
}

fn add_method<R: AllocGlobal + Abort>(
    rt: &R,
    maker: &mut ClassMaker,
    flags: u16,
    method: &str,
    desc: &str,
    code: Option<Code>,
) {
    let added = maker.add_method(rt.alloc(), flags, &name(rt, method), &name(rt, desc), code);
    added.expect(rt, "a method");
}

fn file<R: AllocGlobal + Abort>(rt: &R, maker: ClassMaker) -> Vec<u8> {
    assert!(rt; maker.is_within_bounds());
    let class = maker.finish(rt.alloc()).expect(rt, "a class");
    write_class(rt.alloc(), &class).expect(rt, "a file")
}

#[test]
fn one_method(rt: HostRuntime) {
    let mut maker = maker(&rt, "M", 0x0021);
    add_method(
        &rt,
        &mut maker,
        0x0009,
        "main",
        "([I)I",
        code(&rt, 2, FIVE, None),
    );
    assert_eq!(rt; file(&rt, maker).as_slice(), M_CLASS.as_slice());
}

#[test]
fn members_of_all_kinds(rt: HostRuntime) {
    let mut maker = maker(&rt, "p/Q", 0x0421);
    let serializable = name(&rt, "java/io/Serializable");
    maker
        .add_interface(rt.alloc(), &serializable)
        .expect(&rt, "an interface");
    add_field(&rt, &mut maker, "STEP", "I", -7);
    add_field(&rt, &mut maker, "LIMIT", "J", -2);
    let maps = Items::of(rt.alloc(), ABS_MAPS).expect(&rt, "maps");
    add_method(
        &rt,
        &mut maker,
        0x0009,
        "abs",
        "(I)I",
        code(&rt, 1, ABS, Some(maps)),
    );
    add_method(&rt, &mut maker, 0x0401, "run", "()V", None);
    assert_eq!(rt; file(&rt, maker).as_slice(), Q_CLASS);
}
