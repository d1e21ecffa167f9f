//! Classes of rows: first the class with its flags and its superinterfaces, then fields and methods with
//! their flags, names and descriptors, and a field's constant value.

use nr_base::{Items, Name};
use nr_prog::{Class, ClassParts, Code, Field, Method, PoolEntry};
use std::alloc::{AllocError, Global};
use std::test::Fail;

fn word(row: &str, place: usize) -> &str {
    row.split(' ').nth(place).unwrap_or("")
}

fn flags(row: &str, place: usize) -> u16 {
    word(row, place).parse::<u16>().unwrap_or(0)
}

/// Puts an entry into the pool: its index.
fn put(pool: &mut Items<PoolEntry>, entry: PoolEntry) -> Result<u16, AllocError> {
    pool.push(entry)?;
    u16::try_from(pool.len()).map_err(|_| AllocError)
}

fn put_text(alloc: Global, pool: &mut Items<PoolEntry>, text: &str) -> Result<u16, AllocError> {
    put(pool, PoolEntry::Utf8(Items::of(alloc, text.as_bytes())?))
}

fn put_class(alloc: Global, pool: &mut Items<PoolEntry>, text: &str) -> Result<u16, AllocError> {
    let name = put_text(alloc, pool, text)?;
    put(pool, PoolEntry::Class(name))
}

/// The constant value of a field, or 0 for none.
fn put_constant(pool: &mut Items<PoolEntry>, text: &str) -> Result<u16, AllocError> {
    let Ok(number) = text.parse::<i64>() else {
        return Ok(0);
    };
    let index = put(pool, PoolEntry::Long(number))?;
    pool.push(PoolEntry::Unused)?;
    Ok(index)
}

fn field(alloc: Global, pool: &mut Items<PoolEntry>, row: &str) -> Result<Field, AllocError> {
    Ok(Field {
        flags: flags(row, 1),
        name: put_text(alloc, pool, word(row, 2))?,
        desc: put_text(alloc, pool, word(row, 3))?,
        constant: put_constant(pool, word(row, 4))?,
    })
}

fn code(alloc: Global, flags: u16) -> Result<Option<Code>, AllocError> {
    if flags & 0x0400 != 0 {
        return Ok(None);
    }
    Ok(Some(Code {
        max_stack: 0,
        max_locals: 4,
        bytes: Items::of(alloc, b"\xB1")?,
        handlers: Items::new(alloc),
        maps: None,
    }))
}

fn method(alloc: Global, pool: &mut Items<PoolEntry>, row: &str) -> Result<Method, AllocError> {
    Ok(Method {
        flags: flags(row, 1),
        name: put_text(alloc, pool, word(row, 2))?,
        desc: put_text(alloc, pool, word(row, 3))?,
        code: code(alloc, flags(row, 1))?,
    })
}

fn interfaces(
    alloc: Global,
    pool: &mut Items<PoolEntry>,
    row: &str,
) -> Result<Items<u16>, AllocError> {
    let mut interfaces = Items::new(alloc);
    for text in row.split(' ').skip(3) {
        interfaces.push(put_class(alloc, pool, text)?)?;
    }
    Ok(interfaces)
}

fn parts(alloc: Global, text: &str) -> Result<ClassParts, AllocError> {
    let row = text.lines().next().unwrap_or("");
    let mut pool = Items::new(alloc);
    let mut fields = Items::new(alloc);
    let mut methods = Items::new(alloc);
    let this_class = put_class(alloc, &mut pool, word(row, 1))?;
    let super_class = put_class(alloc, &mut pool, "java/lang/Object")?;
    let interfaces = interfaces(alloc, &mut pool, row)?;
    for row in text.lines() {
        if word(row, 0) == "field" {
            fields.push(field(alloc, &mut pool, row)?)?;
        }
        if word(row, 0) == "method" {
            methods.push(method(alloc, &mut pool, row)?)?;
        }
    }
    Ok(ClassParts {
        pool,
        flags: flags(row, 2),
        this_class,
        super_class,
        interfaces,
        fields,
        methods,
    })
}

pub fn class(alloc: Global, text: &str) -> Result<Class, Fail> {
    let parts = parts(alloc, text)?;
    if !parts.is_within_bounds() {
        return Err("a large class")?;
    }
    Ok(Class::from_parts(alloc, parts)?)
}

/// The class's name.
pub fn name(alloc: Global, text: &str) -> Result<Name, Fail> {
    let name = word(text.lines().next().unwrap_or(""), 1);
    if name.len() > 0xFFFF {
        return Err("a long name")?;
    }
    Ok(Name::read(alloc, name.as_bytes())?)
}
