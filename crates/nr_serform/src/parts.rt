//! The parts of a class of which its number is a digest.

ghost use Rattle.std.specs.Prelude.{◌≡◌, ◌<◌, ◌^◌, ◌++◌, length, map, All, IfOk, OnOk, if◌then◌else◌};
ghost use Rattle.std.specs.List.{filter, flat_map};
ghost use Rattle.nr_graph.specs.Sorted.{is_at_most, sorted};
ghost use Rattle.nr_serform.specs.ClassNumbers.{field_part, field_part_text, fields_text, interface_name, interfaces_text, is_field_part, is_initialiser, is_method_part, is_sooner, method_part, method_part_text, methods_text, parts_text, text_of};
ghost use Rattle.nr_serform.specs.Members.{IsShort, part_of};

use crate::flags::{PRIVATE, STATIC, TRANSIENT, has_flag};
use crate::members::{Member, sort};
use crate::texts::{put_dotted, put_utf};
use nr_base::{Name, Put};
use nr_prog::{Class, Field, Method, PoolEntry};
use std::alloc::{AllocError, Global};

/// The text at an index of the constant pool, or no bytes where none stands there.
fn text(class: &Class, index: u16) -> &[u8]
    ensures text { result.now ≡ text_of class.now.pool index }
    ensures short { length result.now < 2 ^ 16 }
{
    class.text(index).unwrap_or(&[])
}

fn is_field_part(field: &Field) -> bool
    ensures { result ≡ is_field_part field.now }
{
    !(has_flag(field.flags, PRIVATE)
        && (has_flag(field.flags, STATIC) || has_flag(field.flags, TRANSIENT)))
}

fn field_part<'a>(class: &'a Class, field: &Field) -> Member<'a>
    ensures part { part_of result ≡ field_part class.now.pool field.now }
    ensures short { IsShort result }
{
    Member {
        name: text(class, field.name),
        desc: text(class, field.desc),
        number: u32::from(field.flags & 0x00DF),
    }
}

fn field_parts<'a>(alloc: Global, class: &'a Class) -> Result<Vec<Member<'a>>, AllocError>
    ensures parts { IfOk result (λ v. map part_of v.items
        ≡ map (field_part class.now.pool) (filter is_field_part class.now.fields)) }
    ensures short { IfOk result (λ v. All IsShort v.items) }
{
    let mut parts = Vec::new(alloc);
    for field in class.parts().fields.as_slice() {
        if is_field_part(field) {
            parts.push(field_part(class, field))?;
        }
    }
    Ok(parts)
}

fn put_field(put: &mut Put, member: Member) -> Result<(), AllocError>
    requires { IsShort member }
    ensures { OnOk result (put.new ≡ put.old ++ field_part_text (part_of member.entry)) }
{
    put_utf(put, member.name)?;
    put.u32(member.number)?;
    put_utf(put, member.desc)
}

fn put_fields(alloc: Global, put: &mut Put, class: &Class) -> Result<(), AllocError>
    ensures { OnOk result (put.new ≡ put.old ++ fields_text class.now) }
{
    let mut parts = field_parts(alloc, class)?;
    sort(&mut parts)?;
    for part in &parts {
        put_field(put, *part)?;
    }
    Ok(())
}

#[tactic(auto, unfolding(nr_prog::specs::Members::spells))]
fn is_initialiser(class: &Class, method: &Method) -> bool
    ensures { result ≡ is_initialiser class.now.pool method.now }
{
    match class.text(method.name) {
        Some(name) => b"<init>".as_slice() == name,
        None => false,
    }
}

fn is_method_part(class: &Class, initialisers: bool, method: &Method) -> bool
    ensures { result ≡ is_method_part class.now.pool initialisers method.now }
{
    !has_flag(method.flags, PRIVATE) && is_initialiser(class, method) == initialisers
}

fn method_part<'a>(class: &'a Class, method: &Method) -> Member<'a>
    ensures part { part_of result ≡ method_part class.now.pool method.now }
    ensures short { IsShort result }
{
    Member {
        name: text(class, method.name),
        desc: text(class, method.desc),
        number: u32::from(method.flags & 0x0D3F),
    }
}

fn method_parts<'a>(
    alloc: Global,
    class: &'a Class,
    initialisers: bool,
) -> Result<Vec<Member<'a>>, AllocError>
    ensures parts { IfOk result (λ v. map part_of v.items ≡ map (method_part class.now.pool)
        (filter (is_method_part class.now.pool initialisers) class.now.methods)) }
    ensures short { IfOk result (λ v. All IsShort v.items) }
{
    let mut parts = Vec::new(alloc);
    for method in class.parts().methods.as_slice() {
        if is_method_part(class, initialisers, method) {
            parts.push(method_part(class, method))?;
        }
    }
    Ok(parts)
}

fn put_method(put: &mut Put, member: Member) -> Result<(), AllocError>
    requires { IsShort member }
    ensures { OnOk result (put.new ≡ put.old ++ method_part_text (part_of member.entry)) }
{
    put_utf(put, member.name)?;
    put.u32(member.number)?;
    put_dotted(put, member.desc)
}

/// Writes the initialisers, or the other methods.
fn put_methods(
    alloc: Global,
    put: &mut Put,
    class: &Class,
    initialisers: bool,
) -> Result<(), AllocError>
    ensures { OnOk result (put.new ≡ put.old ++ methods_text class.now initialisers) }
{
    let mut parts = method_parts(alloc, class, initialisers)?;
    sort(&mut parts)?;
    for part in &parts {
        put_method(put, *part)?;
    }
    Ok(())
}

/// The name of the class at an index of the constant pool, or no bytes where no class stands there.
#[tactic(auto, unfolding(nr_prog::specs::BodyNames::class_text_at))]
fn class_text(class: &Class, index: u16) -> &[u8]
    ensures text { result.now ≡ interface_name class.now.pool index }
    ensures short { length result.now < 2 ^ 16 }
{
    match class.entry(index) {
        Some(PoolEntry::Class(name)) => text(class, *name),
        _ => &[],
    }
}

fn interface_names<'a>(alloc: Global, class: &'a Class) -> Result<Vec<&'a [u8]>, AllocError>
    ensures names { IfOk result (λ v. map (λ name. name.now) v.items
        ≡ map (interface_name class.now.pool) class.now.interfaces) }
    ensures short { IfOk result (λ v. All (λ name. length name.now < 2 ^ 16) v.items) }
{
    let mut names = Vec::new(alloc);
    for index in class.parts().interfaces.as_slice() {
        names.push(class_text(class, *index))?;
    }
    Ok(names)
}

/// Sorts texts by their bytes. The error comes only for want of memory.
fn sort_texts(names: &mut Vec<&[u8]>) -> Result<(), AllocError>
    requires { All (λ name. length name.now < 2 ^ 16) names.old.items }
    ensures sorted { OnOk result (map (λ name. name.now) names.new.items
        ≡ sorted is_at_most (map (λ name. name.now) names.old.items)) }
    ensures short { OnOk result (All (λ name. length name.now < 2 ^ 16) names.new.items) }
{
    names.sort()?;
    Ok(())
}

fn put_interfaces(alloc: Global, put: &mut Put, class: &Class) -> Result<(), AllocError>
    ensures { OnOk result (put.new ≡ put.old ++ interfaces_text class.now) }
{
    let mut names = interface_names(alloc, class)?;
    sort_texts(&mut names)?;
    for name in &names {
        put_dotted(put, *name)?;
    }
    Ok(())
}

/// The text of which the class's number is a digest (Java Object Serialization Specification 4.6).
#[tactic(auto, unfolding(crate::specs::ClassNumbers::parts_text))]
pub fn parts_text(alloc: Global, name: &Name, class: &Class) -> Result<Vec<u8>, AllocError>
    ensures { IfOk result (λ text. text.items ≡ parts_text name.now class.now) }
{
    let mut put = Put::new(alloc);
    put_dotted(&mut put, name.as_bytes())?;
    put.u32(u32::from(class.parts().flags & 0x0611))?;
    put_interfaces(alloc, &mut put, class)?;
    put_fields(alloc, &mut put, class)?;
    put_methods(alloc, &mut put, class, true)?;
    put_methods(alloc, &mut put, class, false)?;
    Ok(put.done())
}
