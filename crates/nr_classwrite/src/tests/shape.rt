//! Classes of a shape that a row tells.

ghost use Rattle.std.specs.Prelude.{◌<◌};

use nr_base::Items;
use nr_prog::{Class, ClassParts, Code, Field, Handler, Method, PoolEntry};
use std::alloc::{AllocError, Global};
use std::process::Abort;
use std::test::Fail;

// The indices of three entries of each pool, behind 768 texts of members.
const CLASS: u16 = 769;

const SEVEN: u16 = 770;

const INT: u16 = 771;

const HANDLER: Handler = Handler {
    start: 0,
    end: 1,
    handler: 0,
    catch_type: 0,
};

fn number(digits: &str) -> Result<usize, Fail> {
    Ok(digits.parse::<usize>()?)
}

fn text(alloc: Global, text: &str) -> Result<PoolEntry, AllocError> {
    Ok(PoolEntry::Utf8(Items::of(alloc, text.as_bytes())?))
}

// Texts of 256 names, and of as many descriptors of fields and of methods.
fn texts(alloc: Global) -> Result<Items<PoolEntry>, AllocError> {
    let mut pool = Items::new(alloc);
    for k in 0..256 {
        pool.push(text(alloc, &format!(in alloc; "n{k}")?)?)?;
        pool.push(text(alloc, &format!(in alloc; "Ln{k};")?)?)?;
        pool.push(text(alloc, &format!(in alloc; "()Ln{k};")?)?)?;
    }
    Ok(pool)
}

// A pool that has these names, filled up to so many entries.
fn pool(alloc: Global, names: &str, count: usize) -> Result<Items<PoolEntry>, AllocError> {
    let mut pool = texts(alloc)?;
    pool.push(PoolEntry::Class(1))?;
    pool.push(PoolEntry::Integer(7))?;
    pool.push(text(alloc, "I")?)?;
    for name in names.split_whitespace() {
        pool.push(text(alloc, name)?)?;
    }
    for _ in pool.len()..count {
        pool.push(PoolEntry::Integer(7))?;
    }
    Ok(pool)
}

// The indices of a member's name and of its descriptor, where 1 stands for a field and 2 for a method.
// The first 65,536 members differ.
fn indices(member: usize, kind: u16) -> (u16, u16)
    requires { kind < 3 }
{
    let name = (member / 256 % 256) as u16;
    let desc = (member % 256) as u16;
    (1 + 3 * name, 1 + 3 * desc + kind)
}

// So many fields, and behind them so many that have a constant value.
fn fields(alloc: Global, count: usize, constants: usize) -> Result<Items<Field>, AllocError> {
    let mut fields = Items::new(alloc);
    for member in 0..count {
        let (name, desc) = indices(member, 1);
        fields.push(Field {
            flags: 8,
            name,
            desc,
            constant: 0,
        })?;
    }
    for _ in 0..constants {
        fields.push(Field {
            flags: 8,
            name: 1,
            desc: INT,
            constant: SEVEN,
        })?;
    }
    Ok(fields)
}

// Code of so many bytes and handlers, with so many bytes of frame maps where a third number stands.
fn code(alloc: Global, counts: &str) -> Result<Code, Fail> {
    let mut counts = counts.split(':');
    let bytes = number(counts.next().ok_or("bytes")?)?;
    let handlers = number(counts.next().ok_or("handlers")?)?;
    let maps = match counts.next() {
        None => None,
        Some(count) => Some(Items::from_vec(vec![in alloc; 0; number(count)?]?)),
    };
    Ok(Code {
        max_stack: 1,
        max_locals: 1,
        bytes: Items::from_vec(vec![in alloc; 0; bytes]?),
        handlers: Items::from_vec(vec![in alloc; HANDLER; handlers]?),
        maps,
    })
}

// So many abstract methods, and behind them one for each code.
fn methods(alloc: Global, count: usize, codes: &str) -> Result<Items<Method>, Fail> {
    let mut methods = Items::new(alloc);
    for member in 0..count {
        let (name, desc) = indices(member, 2);
        methods.push(Method {
            flags: 0x0400,
            name,
            desc,
            code: None,
        })?;
    }
    for counts in codes.split_whitespace() {
        let (name, desc) = indices(methods.len(), 2);
        methods.push(Method {
            flags: 0,
            name,
            desc,
            code: Some(code(alloc, counts)?),
        })?;
    }
    Ok(methods)
}

fn parts_of(alloc: Global, row: &str) -> Result<ClassParts, Fail> {
    let columns: Vec<&str> = row.split('|').collect(alloc)?;
    let [entries, names, interfaces, plain, constants, bare, codes, _] = columns.as_slice() else {
        return Err("eight columns".into());
    };
    Ok(ClassParts {
        pool: pool(alloc, names, number(entries)?)?,
        flags: 0x0421,
        this_class: CLASS,
        super_class: CLASS,
        interfaces: Items::from_vec(vec![in alloc; CLASS; number(interfaces)?]?),
        fields: fields(alloc, number(plain)?, number(constants)?)?,
        methods: methods(alloc, number(bare)?, codes)?,
    })
}

/// The class of a row.
pub fn class_of<R: AllocGlobal + Abort>(rt: &R, row: &str) -> Result<Class, Fail> {
    let parts = parts_of(rt.alloc(), row)?;
    assert!(rt; parts.is_within_bounds(), "{row}");
    Ok(Class::from_parts(rt.alloc(), parts).ok().ok_or("a class")?)
}
