//! The parts of a class as lines of text.

use nr_prog::{ClassParts, Code, Method, PoolEntry};
use std::alloc::{AllocError, Global};

fn list_entry(out: &mut String, entry: &PoolEntry) -> Result<(), AllocError> {
    match entry {
        PoolEntry::Utf8(text) => writeln!(out, "Utf8 {}", text.as_slice().escape_ascii()),
        PoolEntry::Integer(value) => writeln!(out, "Integer {value}"),
        PoolEntry::Float(bits) => writeln!(out, "Float {bits}"),
        PoolEntry::Long(value) => writeln!(out, "Long {value}"),
        PoolEntry::Double(bits) => writeln!(out, "Double {bits}"),
        PoolEntry::Class(name) => writeln!(out, "Class {name}"),
        PoolEntry::Str(text) => writeln!(out, "String {text}"),
        PoolEntry::FieldRef(class, member) => writeln!(out, "Fieldref {class} {member}"),
        PoolEntry::MethodRef(class, member) => writeln!(out, "Methodref {class} {member}"),
        PoolEntry::InterfaceMethodRef(class, member) => {
            writeln!(out, "InterfaceMethodref {class} {member}")
        }
        PoolEntry::NameAndType(name, desc) => writeln!(out, "NameAndType {name} {desc}"),
        PoolEntry::Unused => writeln!(out, "Unused"),
    }
}

fn list_code(out: &mut String, code: &Code) -> Result<(), AllocError> {
    let bytes = code.bytes.as_slice();
    writeln!(out, "code {} {} {bytes:?}", code.max_stack, code.max_locals)?;
    for h in code.handlers.as_slice() {
        let (start, end) = (h.start, h.end);
        writeln!(out, "handler {start} {end} {} {}", h.handler, h.catch_type)?;
    }
    if let Some(maps) = &code.maps {
        let maps = maps.as_slice();
        writeln!(out, "maps {maps:?}")?;
    }
    Ok(())
}

fn list_method(out: &mut String, method: &Method) -> Result<(), AllocError> {
    writeln!(
        out,
        "method {} {} {}",
        method.flags, method.name, method.desc
    )?;
    if let Some(code) = &method.code {
        list_code(out, code)?;
    }
    Ok(())
}

/// A line for each entry of the pool, for the class, and for each interface, field, method, code,
/// handler and frame map, in their order.
pub fn list_class(alloc: Global, parts: &ClassParts) -> Result<String, AllocError> {
    let mut out = String::new(alloc);
    for entry in parts.pool.as_slice() {
        list_entry(&mut out, entry)?;
    }
    let (this, above) = (parts.this_class, parts.super_class);
    writeln!(out, "class {} {this} {above}", parts.flags)?;
    for interface in parts.interfaces.as_slice() {
        writeln!(out, "interface {interface}")?;
    }
    for f in parts.fields.as_slice() {
        let (flags, name) = (f.flags, f.name);
        writeln!(out, "field {flags} {name} {} {}", f.desc, f.constant)?;
    }
    for method in parts.methods.as_slice() {
        list_method(&mut out, method)?;
    }
    Ok(out)
}
