//! Class files that are written as text, a class a line.
//!
//! A class is `NAME FLAGS SUPER` and then parts: `i|NAME` an interface, `f|FLAGS|NAME|DESC` a field,
//! `c|NAME`, `r|TAG|CLASS|NAME|DESC` and `j|LONG` entries of the constant pool, numbered from 0, and
//! `m|FLAGS|NAME|DESC|CODE|MAPS|HANDLERS|STACK.LOCALS` a method. CODE and MAPS are bytes in hexadecimal, or `$` and the
//! number of an entry for its index, each after a dot. Handlers are `START.END.AT.ENTRY`, each after a comma, with `0` for
//! the entry of one that catches all, and else the number of the entry and 1. STACK and LOCALS are `max_stack` and
//! `max_locals`, both 4 where they aren't told.
use nr_base::{Items, Name};
use nr_classmake::ClassMaker;
use nr_classwrite::write_class;
use nr_prog::{Code, Handler};
use std::process::Abort;

fn name<R: AllocGlobal + Abort>(rt: &R, text: &str) -> Name {
    assert!(rt; text.len() < 1000);
    Name::read(rt.alloc(), text.as_bytes()).expect(rt, "a name")
}

// The part at a place, or an empty one.
fn part(text: &str, mark: char, place: usize) -> &str {
    text.split(mark).nth(place).unwrap_or("")
}

fn number<R: Abort>(rt: &R, text: &str) -> u16 {
    text.parse::<u16>().expect(rt, "a number")
}

// A byte in hexadecimal, or the index of an entry.
fn put<R: AllocGlobal + Abort>(rt: &R, bytes: &mut Items<u8>, text: &str, entries: &[u16]) {
    match text.strip_prefix("$") {
        Some(place) => {
            let index = entries.get(usize::from(number(rt, place)));
            for byte in index.expect(rt, "an entry").to_be_bytes() {
                bytes.push(byte).expect(rt, "a byte");
            }
        }
        None => {
            let byte = u8::from_str_radix(text, 16).expect(rt, "a byte");
            bytes.push(byte).expect(rt, "a byte");
        }
    }
}

fn bytes_of<R: AllocGlobal + Abort>(rt: &R, text: &str, entries: &[u16]) -> Items<u8> {
    let mut bytes = Items::new(rt.alloc());
    if !text.is_empty() {
        for byte in text.split('.') {
            put(rt, &mut bytes, byte, entries);
        }
    }
    bytes
}

fn handler<R: AllocGlobal + Abort>(rt: &R, text: &str, entries: &[u16]) -> Handler {
    let entry = usize::from(number(rt, part(text, '.', 3)));
    let catch_type = match entry.checked_sub(1) {
        Some(place) => *entries.get(place).expect(rt, "an entry"),
        None => 0,
    };
    Handler {
        start: number(rt, part(text, '.', 0)),
        end: number(rt, part(text, '.', 1)),
        handler: number(rt, part(text, '.', 2)),
        catch_type,
    }
}

// `max_stack` and `max_locals`.
fn places<R: Abort>(rt: &R, text: &str) -> (u16, u16) {
    if text.is_empty() {
        (4, 4)
    } else {
        (
            number(rt, part(text, '.', 0)),
            number(rt, part(text, '.', 1)),
        )
    }
}

fn code<R: AllocGlobal + Abort>(rt: &R, text: &str, entries: &[u16]) -> Option<Code> {
    let bytes = part(text, '|', 4);
    if bytes.is_empty() {
        return None;
    }
    let mut handlers = Items::new(rt.alloc());
    let listed = part(text, '|', 6);
    if !listed.is_empty() {
        for one in listed.split(',') {
            handlers
                .push(handler(rt, one, entries))
                .expect(rt, "a handler");
        }
    }
    let maps = part(text, '|', 5);
    let (max_stack, max_locals) = places(rt, part(text, '|', 7));
    Some(Code {
        max_stack,
        max_locals,
        bytes: bytes_of(rt, bytes, entries),
        handlers,
        maps: if maps.is_empty() {
            None
        } else {
            Some(bytes_of(rt, maps, entries))
        },
    })
}

// The index of an entry of the constant pool.
fn entry<R: AllocGlobal + Abort>(rt: &R, maker: &mut ClassMaker, text: &str) -> u16 {
    let alloc = rt.alloc();
    let word = |place| part(text, '|', place);
    if word(0) == "c" {
        let index = maker.class_ref(alloc, &name(rt, word(1)));
        return index.expect(rt, "an entry");
    }
    if word(0) == "j" {
        let value = word(1).parse::<i64>().expect(rt, "a long");
        return maker.long_const(alloc, value).expect(rt, "an entry");
    }
    let tag = word(1).parse::<u8>().expect(rt, "a tag");
    assert!(rt; 9 <= tag && tag <= 11);
    let (class, member, desc) = (name(rt, word(2)), name(rt, word(3)), name(rt, word(4)));
    let index = maker.member_ref(alloc, tag, &class, &member, &desc);
    index.expect(rt, "an entry")
}

// Adds a part to the class, or an entry to its constant pool.
fn add<R: AllocGlobal + Abort>(rt: &R, maker: &mut ClassMaker, text: &str, entries: &mut Vec<u16>) {
    let alloc = rt.alloc();
    let word = |place| part(text, '|', place);
    match word(0) {
        "i" => {
            let added = maker.add_interface(alloc, &name(rt, word(1)));
            added.expect(rt, "an interface");
        }
        "f" => {
            let flags = number(rt, word(1));
            let added = maker.add_field(alloc, flags, &name(rt, word(2)), &name(rt, word(3)), None);
            added.expect(rt, "a field");
        }
        "c" | "r" | "j" => {
            let index = entry(rt, maker, text);
            entries.push(index).expect(rt, "an entry");
        }
        _ => {
            let flags = number(rt, word(1));
            let code = code(rt, text, entries);
            let added = maker.add_method(
                alloc,
                flags,
                &name(rt, word(2)),
                &name(rt, word(3)),
                code,
            );
            added.expect(rt, "a method");
        }
    }
}

/// The class file of a class that is written so.
pub fn class_file<R: AllocGlobal + Abort>(rt: &R, text: &str) -> Vec<u8> {
    let mut words = text.split(' ');
    let own = name(rt, words.next().expect(rt, "a name"));
    let flags = number(rt, words.next().expect(rt, "flags"));
    let above = name(rt, words.next().expect(rt, "a superclass"));
    let maker = ClassMaker::new(rt.alloc(), &own, &above, flags);
    let mut maker = maker.expect(rt, "a class");
    let mut entries = Vec::new(rt.alloc());
    for text in words {
        add(rt, &mut maker, text, &mut entries);
    }
    assert!(rt; maker.is_within_bounds());
    let class = maker.finish(rt.alloc()).expect(rt, "a class");
    write_class(rt.alloc(), &class).expect(rt, "a file")
}
