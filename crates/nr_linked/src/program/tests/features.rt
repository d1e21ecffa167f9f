//! Classes with features of serialization that are left out.

use super::world::{flags, kind, tables, word, yes};
use nr_base::Items;
use nr_prog::{Class, ClassParts, Code, Field, Method, PoolEntry};
use std::alloc::{AllocError, Global};
use std::process::Abort;
use std::test::Fail;

// The name of a member, its flags, whether it is a field, and whether a class with it is sendable.
const MEMBERS: &str = "\
writeObject 2 method no
readObject 2 method no
readObjectNoData 2 method no
readResolve 1 method no
writeReplace 9 method no
readObjects 2 method yes
readExternal 1 method yes
serialPersistentFields 26 field no
serialPersistentFields 2 field no
serialVersionUID 24 field yes
x 128 field no
x 136 field yes
readObject 2 field yes
";

// The entries of the constant pool, a number being the index of a class's name; `?` is the name of
// the member.
const POOL: &str = "\
demo/Own
1
java/lang/Object
3
()V
I
?
";

fn entry(alloc: Global, row: &str, called: &str) -> Result<PoolEntry, AllocError> {
    if let Ok(name) = row.parse::<u16>() {
        return Ok(PoolEntry::Class(name));
    }
    let text = if row == "?" { called } else { row };
    Ok(PoolEntry::Utf8(Items::of(alloc, text.as_bytes())?))
}

fn pool(alloc: Global, called: &str) -> Result<Items<PoolEntry>, AllocError> {
    let mut pool = Items::new(alloc);
    for row in POOL.lines() {
        pool.push(entry(alloc, row, called)?)?;
    }
    Ok(pool)
}

fn code(alloc: Global) -> Result<Code, AllocError> {
    Ok(Code {
        max_stack: 0,
        max_locals: 1,
        bytes: Items::of(alloc, b"\xB1")?,
        handlers: Items::new(alloc),
        maps: None,
    })
}

fn methods(alloc: Global, row: &str) -> Result<Items<Method>, AllocError> {
    let mut methods = Items::new(alloc);
    if word(row, 2) == "method" {
        methods.push(Method {
            flags: flags(row, 1),
            name: 7,
            desc: 5,
            code: Some(code(alloc)?),
        })?;
    }
    Ok(methods)
}

fn fields(alloc: Global, row: &str) -> Result<Items<Field>, AllocError> {
    let mut fields = Items::new(alloc);
    if word(row, 2) == "field" {
        fields.push(Field {
            flags: flags(row, 1),
            name: 7,
            desc: 6,
            constant: 0,
        })?;
    }
    Ok(fields)
}

fn parts(alloc: Global, row: &str) -> Result<ClassParts, AllocError> {
    let pool = pool(alloc, word(row, 0))?;
    let fields = fields(alloc, row)?;
    let methods = methods(alloc, row)?;
    Ok(ClassParts {
        pool,
        flags: 33,
        this_class: 2,
        super_class: 4,
        interfaces: Items::new(alloc),
        fields,
        methods,
    })
}

/// A class with the member of a row, or none where the row is empty.
pub fn class_with(alloc: Global, row: &str) -> Result<Option<Class>, Fail> {
    if row.is_empty() {
        return Ok(None);
    }
    let parts = parts(alloc, row)?;
    if !parts.is_within_bounds() {
        return Err("a large class")?;
    }
    Ok(Some(Class::from_parts(alloc, parts)?))
}

fn check(rt: &impl Abort, alloc: Global, row: &str) -> Result<(), Fail> {
    let program = tables(alloc, row)?;
    assert!(rt; program.is_sendable(kind("L8")) == yes(row, 3), "{row}");
    // A class below it.
    assert!(rt; program.is_sendable(kind("L9")) == yes(row, 3), "{row}");
    Ok(())
}

#[test]
fn keeps_features_out(rt: HostRuntime) -> Result<(), Fail> {
    let alloc = rt.alloc();
    for row in MEMBERS.lines() {
        check(&rt, alloc, row)?;
    }
    Ok(())
}
