//! Names and descriptors with their answers, by the rules of the JVM Specification, and each call once.

use crate::{
    Cur, Desc, DescBase, DescFault, Items, MethodDesc, Name, NameFault, Put, ResultWord, Short,
};
use std::alloc::{AllocError, Global};
use std::collections::HashMap;
use std::process::Abort;
use std::test::Fail;

#[test]
fn names(rt: HostRuntime) {
    let table: [(&[u8], Option<NameFault>); 20] = [
        (b"", None),
        (b"main", None),
        (b"java/lang/Object", None),
        // U+00A2, U+20AC, and the two surrogates of U+1F600, each in three bytes
        (b"\xC2\xA2", None),
        (b"a\xE2\x82\xACb", None),
        (b"\xED\xA0\xBD\xED\xB8\x80", None),
        // a surrogate alone is a unit
        (b"\xED\xA0\x80", None),
        (b"\xC2\x80", None),
        (b"\xDF\xBF", None),
        (b"\xE0\xA0\x80", None),
        (b"\xEF\xBF\xBF", None),
        (b"\xC0\x80", Some(NameFault::ZeroChar(0))),
        (b"ab\xC0\x80c", Some(NameFault::ZeroChar(2))),
        (b"a\x00", Some(NameFault::BadUtf(1))),
        // in more bytes than are due
        (b"\xC1\xBF", Some(NameFault::BadUtf(0))),
        (b"ab\xE0\x9F\xBF", Some(NameFault::BadUtf(2))),
        // cut off, without a first byte, and without a second
        (b"a\xE2\x82", Some(NameFault::BadUtf(1))),
        (b"\x80", Some(NameFault::BadUtf(0))),
        (b"a\xC2a", Some(NameFault::BadUtf(1))),
        // U+1F600 in the four bytes of UTF-8
        (b"ab\xF0\x9F\x98\x80", Some(NameFault::BadUtf(2))),
    ];
    for (bytes, fault) in table {
        match Name::read(rt.alloc(), bytes) {
            Ok(name) => {
                assert_eq!(rt; fault, None, "{bytes:?}");
                assert_eq!(rt; name.as_bytes(), bytes);
            }
            Err(e) => assert_eq!(rt; fault, Some(e), "{bytes:?}"),
        }
    }
}

#[test]
fn legal_names(rt: HostRuntime) -> Result<(), NameFault> {
    // whether it is the name of a class, of a field, of a method
    let table: [(&[u8], bool, bool, bool); 12] = [
        (b"", false, false, false),
        (b"a", true, true, true),
        (b"java/lang/Object", true, false, false),
        (b"/a", false, false, false),
        (b"a/", false, false, false),
        (b"a//b", false, false, false),
        (b"a.b", false, false, false),
        (b"a;", false, false, false),
        (b"[I", false, false, false),
        (b"<init>", true, true, true),
        (b"<clinit>", true, true, true),
        (b"<a>", true, true, false),
    ];
    for (bytes, class, field, method) in table {
        let name = Name::read(rt.alloc(), bytes)?;
        assert_eq!(rt; name.is_class_name(), class, "{bytes:?}");
        assert_eq!(rt; name.is_field_name(), field, "{bytes:?}");
        assert_eq!(rt; name.is_method_name(), method, "{bytes:?}");
    }
    Ok(())
}

fn is_base(base: &DescBase, text: &[u8]) -> bool {
    match base {
        DescBase::Bool => text == b"Z".as_slice(),
        DescBase::Byte => text == b"B".as_slice(),
        DescBase::Char => text == b"C".as_slice(),
        DescBase::Short => text == b"S".as_slice(),
        DescBase::Int => text == b"I".as_slice(),
        DescBase::Long => text == b"J".as_slice(),
        DescBase::Object(name) => name.as_bytes() == text,
    }
}

#[test]
fn descriptors(rt: HostRuntime) {
    // the dimensions, and the letter or the class name of the elements
    let read: [(&[u8], u8, &[u8]); 10] = [
        (b"Z", 0, b"Z"),
        (b"B", 0, b"B"),
        (b"C", 0, b"C"),
        (b"S", 0, b"S"),
        (b"I", 0, b"I"),
        (b"[J", 1, b"J"),
        (b"Ljava/lang/Object;", 0, b"java/lang/Object"),
        (b"[[La;", 2, b"a"),
        (b"L\xC2\xA2/b;", 0, b"\xC2\xA2/b"),
        (b"L<init>;", 0, b"<init>"),
    ];
    for (bytes, dims, base) in read {
        match Desc::read(rt.alloc(), bytes) {
            Ok(desc) => {
                assert_eq!(rt; desc.dims, dims, "{bytes:?}");
                assert!(rt; is_base(&desc.base, base), "{bytes:?}");
            }
            Err(e) => assert!(rt; false, "{e:?}"),
        }
    }
    let refused: [(&[u8], DescFault); 20] = [
        (b"", DescFault::BadDesc(0)),
        (b"V", DescFault::BadDesc(0)),
        (b"[V", DescFault::BadDesc(1)),
        (b"[", DescFault::BadDesc(1)),
        (b"F", DescFault::FloatDesc(0)),
        (b"[D", DescFault::FloatDesc(1)),
        (b"Q", DescFault::BadDesc(0)),
        (b"II", DescFault::BadDesc(1)),
        (b"L;", DescFault::BadDesc(1)),
        (b"L", DescFault::BadDesc(1)),
        (b"La", DescFault::BadDesc(2)),
        (b"La/", DescFault::BadDesc(3)),
        (b"La/;", DescFault::BadDesc(3)),
        (b"La//b;", DescFault::BadDesc(3)),
        (b"L/a;", DescFault::BadDesc(1)),
        (b"La.b;", DescFault::BadDesc(2)),
        (b"La[;", DescFault::BadDesc(2)),
        (b"La;I", DescFault::BadDesc(3)),
        // characters that are cut off, or U+0000: where they begin
        (b"Lab\xE2\x82;", DescFault::BadDesc(3)),
        (b"La\xC0\x80;", DescFault::BadDesc(2)),
    ];
    for (bytes, fault) in refused {
        assert_eq!(rt; dims_of(&rt, rt.alloc(), bytes), Err(fault), "{bytes:?}");
    }
}

/// `front`, then `count` times `byte`, then `back`.
fn many(
    alloc: Global,
    front: &[u8],
    byte: u8,
    count: usize,
    back: &[u8],
) -> Result<Vec<u8>, AllocError> {
    let mut text = Vec::from_slice(alloc, front)?;
    for _ in 0..count {
        text.push(byte)?;
    }
    text.extend_from_slice(back)?;
    Ok(text)
}

fn dims_of(rt: &impl Abort, alloc: Global, bytes: &[u8]) -> Result<u8, DescFault> {
    assert!(rt; bytes.len() < 1000);
    Ok(Desc::read(alloc, bytes)?.dims)
}

fn slots_of(rt: &impl Abort, alloc: Global, bytes: &[u8]) -> Result<usize, DescFault> {
    assert!(rt; bytes.len() < 1000);
    Ok(MethodDesc::read(alloc, bytes)?.slots())
}

#[test]
fn limits(rt: HostRuntime) -> Result<(), AllocError> {
    let alloc = rt.alloc();
    let deepest = many(alloc, b"", b'[', 255, b"I")?;
    assert_eq!(rt; dims_of(&rt, alloc, deepest.as_slice()), Ok(255));
    let deeper = many(alloc, b"", b'[', 256, b"I")?;
    assert_eq!(rt;
        dims_of(&rt, alloc, deeper.as_slice()),
        Err(DescFault::BadDesc(255))
    );
    let slots: [(&[u8], u8, usize, &[u8], Result<usize, DescFault>); 9] = [
        (b"(", b'I', 254, b")V", Ok(254)),
        (b"(", b'I', 255, b")V", Err(DescFault::TooManyArgs(255))),
        (b"(", b'J', 127, b")V", Ok(254)),
        (b"(", b'J', 127, b"I)V", Err(DescFault::TooManyArgs(255))),
        (b"(I", b'J', 126, b"[J)J", Ok(254)),
        (b"(II", b'J', 127, b")V", Err(DescFault::TooManyArgs(256))),
        // what doesn't read has no number
        (b"(", b'I', 300, b")", Err(DescFault::BadDesc(302))),
        (b"(", b'I', 300, b")VV", Err(DescFault::BadDesc(303))),
        (b"(", b'I', 300, b"F)V", Err(DescFault::FloatDesc(301))),
    ];
    for (front, byte, count, back, want) in slots {
        let text = many(alloc, front, byte, count, back)?;
        assert_eq!(rt; slots_of(&rt, alloc, text.as_slice()), want, "{count}");
    }
    Ok(())
}

#[test]
fn methods(rt: HostRuntime) -> Result<(), DescFault> {
    let m = MethodDesc::read(rt.alloc(), b"(I[JLjava/lang/Object;)[Z")?;
    let params = m.params.as_slice();
    assert_eq!(rt; params.len(), 3);
    assert_eq!(rt; (params[0].dims, params[1].dims, params[2].dims), (0, 1, 0));
    assert!(rt; is_base(&params[0].base, b"I") && is_base(&params[1].base, b"J"));
    assert!(rt; is_base(&params[2].base, b"java/lang/Object"));
    match &m.result {
        Some(result) => assert!(rt; result.dims == 1 && is_base(&result.base, b"Z")),
        None => assert!(rt; false),
    }
    assert_eq!(rt; (m.slots(), params[1].slots()), (3, 1));
    let none = MethodDesc::read(rt.alloc(), b"()V")?;
    assert!(rt; none.params.is_empty() && none.result.is_none());
    let refused: [(&[u8], DescFault); 12] = [
        (b"", DescFault::BadDesc(0)),
        (b"I", DescFault::BadDesc(0)),
        (b"(", DescFault::BadDesc(1)),
        (b"()", DescFault::BadDesc(2)),
        (b"(V)V", DescFault::BadDesc(1)),
        (b"()VI", DescFault::BadDesc(3)),
        (b"()[V", DescFault::BadDesc(3)),
        (b"(D)V", DescFault::FloatDesc(1)),
        (b"(I)F", DescFault::FloatDesc(3)),
        (b"(La//b;)V", DescFault::BadDesc(4)),
        (b"(I", DescFault::BadDesc(2)),
        (b"((I)V", DescFault::BadDesc(1)),
    ];
    for (bytes, fault) in refused {
        assert_eq!(rt; slots_of(&rt, rt.alloc(), bytes), Err(fault), "{bytes:?}");
    }
    Ok(())
}

#[test]
fn numbers(rt: HostRuntime) -> Result<(), Fail> {
    let mut put = Put::new(rt.alloc());
    put.u8(0x01)?;
    put.u16(0x0203)?;
    put.u32(0x04050607)?;
    put.u64(0x08090A0B0C0D0E0F)?;
    put.bytes(b"ab")?;
    let bytes = put.done();
    let want: [u8; 17] = [
        1, 2, 3, 4, 5, 6, 7, 8, 9, 10, 11, 12, 13, 14, 15, b'a', b'b',
    ];
    assert_eq!(rt; bytes.as_slice(), want.as_slice());
    let mut cur = Cur::new(&want);
    assert_eq!(rt; cur.u8(), Ok(0x01));
    assert_eq!(rt; cur.u16(), Ok(0x0203));
    assert_eq!(rt; (cur.at(), cur.left()), (3, 14));
    assert_eq!(rt; cur.u32(), Ok(0x04050607));
    assert_eq!(rt; cur.u64(), Ok(0x08090A0B0C0D0E0F));
    assert_eq!(rt; cur.u32(), Err(Short { at: 15 }));
    assert_eq!(rt; cur.take(3).is_err(), true);
    assert_eq!(rt; cur.rest(), b"ab".as_slice());
    assert_eq!(rt;
        cur.take(2).is_ok_and(|text| text == b"ab".as_slice()),
        true
    );
    assert!(rt; cur.is_empty());
    assert_eq!(rt; cur.u8(), Err(Short { at: 17 }));
    Ok(())
}

#[test]
fn lists(rt: HostRuntime) -> Result<(), Fail> {
    let mut items = Items::new(rt.alloc());
    assert!(rt; items.is_empty());
    items.push(7u8)?;
    items.push(8)?;
    assert_eq!(rt; items.len(), 2);
    assert!(rt; items == Items::of(rt.alloc(), &[7, 8])?);
    assert!(rt; items < Items::of(rt.alloc(), &[7, 9])?);
    assert!(rt; items.clone()? == items);
    assert_eq!(rt;
        Items::from_vec(items.into_vec()).as_slice(),
        [7, 8].as_slice()
    );
    let a = Name::read(rt.alloc(), b"a").map_err(|_| AllocError)?;
    let b = Name::read(rt.alloc(), b"b").map_err(|_| AllocError)?;
    assert!(rt; a.clone()? == a && a < b);
    assert!(rt; ResultWord::Int(1) != ResultWord::Int(2));
    Ok(())
}

#[test]
fn writing_into_a_list(rt: HostRuntime) -> Result<(), Fail> {
    let mut items = Items::of(rt.alloc(), &[7, 8])?;
    items.as_mut_slice()[0] = 9;
    if let Some(item) = items.get_mut(1) {
        *item = 5;
    }
    assert_eq!(rt; items.as_slice(), [9, 5].as_slice());
    assert!(rt; items.get_mut(2).is_none());
    Ok(())
}

#[test]
fn keys_of_maps(rt: HostRuntime) -> Result<(), DescFault> {
    let table: [(&[u8], u32); 4] = [(b"()V", 0), (b"(I)V", 1), (b"([I)V", 2), (b"()La;", 3)];
    let mut methods = HashMap::new(rt.alloc());
    for (text, number) in table {
        let old = methods
            .insert(MethodDesc::read(rt.alloc(), text)?, number)
            .map_err(|_| AllocError)?;
        assert!(rt; old.is_none());
    }
    for (text, number) in table {
        let desc = MethodDesc::read(rt.alloc(), text)?;
        assert_eq!(rt; methods.get(&desc).copied(), Some(number));
    }
    let other = MethodDesc::read(rt.alloc(), b"()Lb;")?;
    assert!(rt; methods.get(&other).is_none());
    Ok(())
}
