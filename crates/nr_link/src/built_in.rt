//! The built-in classes as entries of the tables.

ghost use Rattle.std.specs.Prelude.{◌≡◌, ◌+◌, ◌<◌, ◌≤◌, ◌^◌, ◌++◌, length, map, IfOk, OnOk, IsOkUnless, None, Some};
ghost use Rattle.std.specs.List.{flat_map};
ghost use Rattle.std.specs.Option.{option_map, option_to_list};
ghost use Rattle.nr_base.specs.ModifiedUtf8.{IsModifiedUtf8};
ghost use Rattle.nr_linked.specs.BuiltIns.{built_in_class, number};
ghost use Rattle.nr_linked.specs.BuiltInTables.{built_in_info, built_in_infos, built_ins, methods_before, within_steps};

use crate::names::name_of;
use nr_base::{Items, Name};
use nr_linked::{BuiltIn, ClassId, ClassInfo, MethodId};
use nr_linkrules::LinkFault;
use std::alloc::{AllocError, Global};

/// All of them, by their numbers.
pub fn built_ins() -> &'static [BuiltIn]
    ensures { result.now ≡ built_ins }
{
    &[
        BuiltIn::Object,
        BuiltIn::Cloneable,
        BuiltIn::Throwable,
        BuiltIn::Exception,
        BuiltIn::Error,
        BuiltIn::RuntimeException,
        BuiltIn::ArithmeticException,
        BuiltIn::ArrayStoreException,
        BuiltIn::ClassCastException,
        BuiltIn::IllegalArgumentException,
        BuiltIn::IllegalStateException,
        BuiltIn::IndexOutOfBoundsException,
        BuiltIn::NegativeArraySizeException,
        BuiltIn::NullPointerException,
        BuiltIn::ArrayIndexOutOfBoundsException,
        BuiltIn::LinkageError,
        BuiltIn::IncompatibleClassChangeError,
        BuiltIn::AbstractMethodError,
        BuiltIn::Serializable,
        BuiltIn::Restorable,
        BuiltIn::Out,
        BuiltIn::RemoteFault,
    ]
}

/// Its name.
#[tactic(auto, using(crate::proofs::BuiltInNames::is_name, crate::proofs::BuiltInNames::short))]
pub fn built_in_name(alloc: Global, class: BuiltIn) -> Result<Name, LinkFault>
    ensures name { IfOk result (λ name. name ≡ (built_in_class class).name) }
    ensures err { IsOkUnless result LinkFault.NoMemory }
{
    name_of(alloc, class.name())
}

/// Its flags.
#[tactic(auto, unfolding(nr_linked::specs::BuiltIns::built_in_class))]
fn flags(class: BuiltIn) -> u16
    ensures { result ≡ (built_in_class class).flags }
{
    match class {
        BuiltIn::Cloneable | BuiltIn::Serializable | BuiltIn::Restorable => 0x0601,
        BuiltIn::Out => 0x0031,
        _ => 0x0021,
    }
}

/// Its superinterface, where it has one.
#[tactic(auto, unfolding(nr_linked::specs::BuiltIns::built_in_class))]
fn interface(class: BuiltIn) -> Option<BuiltIn>
    ensures { option_to_list result ≡ (built_in_class class).interfaces }
{
    match class {
        BuiltIn::Restorable => Some(BuiltIn::Serializable),
        _ => None,
    }
}

/// How many methods it declares.
#[tactic(auto, unfolding(nr_linked::specs::BuiltIns::built_in_class))]
fn method_count(class: BuiltIn) -> u32
    ensures { result ≡ length (built_in_class class).methods }
{
    match class {
        BuiltIn::Cloneable | BuiltIn::Serializable | BuiltIn::Restorable => 0,
        BuiltIn::Out => 5,
        _ => 1,
    }
}

/// How many methods the earlier ones declare.
#[tactic(auto, unfolding(nr_linked::specs::BuiltIns::built_in_class))]
fn methods_before(class: BuiltIn) -> u32
    ensures value { result ≡ methods_before class }
    ensures few { result ≤ 22 }
{
    match class {
        BuiltIn::Object => 0,
        BuiltIn::Cloneable | BuiltIn::Throwable => 1,
        BuiltIn::Exception => 2,
        BuiltIn::Error => 3,
        BuiltIn::RuntimeException => 4,
        BuiltIn::ArithmeticException => 5,
        BuiltIn::ArrayStoreException => 6,
        BuiltIn::ClassCastException => 7,
        BuiltIn::IllegalArgumentException => 8,
        BuiltIn::IllegalStateException => 9,
        BuiltIn::IndexOutOfBoundsException => 10,
        BuiltIn::NegativeArraySizeException => 11,
        BuiltIn::NullPointerException => 12,
        BuiltIn::ArrayIndexOutOfBoundsException => 13,
        BuiltIn::LinkageError => 14,
        BuiltIn::IncompatibleClassChangeError => 15,
        BuiltIn::AbstractMethodError => 16,
        BuiltIn::Serializable | BuiltIn::Restorable | BuiltIn::Out => 17,
        BuiltIn::RemoteFault => 22,
    }
}

/// Its number, where the first of them has this one.
pub fn place(first_class: ClassId, class: BuiltIn) -> ClassId
    requires { first_class ≤ 2 ^ 31 }
    ensures { result ≡ first_class + number class }
{
    first_class + class.number() as u32
}

fn place_of(first_class: ClassId, class: Option<BuiltIn>) -> Option<ClassId>
    requires { first_class ≤ 2 ^ 31 }
    ensures { result ≡ option_map (λ a. first_class + number a) class }
{
    match class {
        Some(class) => Some(place(first_class, class)),
        None => None,
    }
}

/// The superinterfaces, as numbers.
fn interfaces(
    alloc: Global,
    first_class: ClassId,
    class: BuiltIn,
) -> Result<Items<ClassId>, AllocError>
    requires { first_class ≤ 2 ^ 31 }
    ensures { IfOk result (λ is. is ≡ map (λ a. first_class + number a) (built_in_class class).interfaces) }
{
    let mut interfaces = Items::new(alloc);
    if let Some(above) = interface(class) {
        interfaces.push(place(first_class, above))?;
    }
    Ok(interfaces)
}

/// Puts the class and what stands at most so many steps above it at the end of the list.
fn push_above(
    first_class: ClassId,
    steps: u8,
    class: BuiltIn,
    supers: &mut Items<ClassId>,
) -> Result<(), AllocError>
    requires { first_class ≤ 2 ^ 31 }
    ensures { OnOk result (supers.new ≡ supers.old ++ map (λ a. first_class + number a) (within_steps steps class)) }
{
    supers.push(place(first_class, class))?;
    if steps == 0 {
        return Ok(());
    }
    if let Some(above) = class.super_class() {
        push_above(first_class, steps - 1, above, supers)?;
    }
    if let Some(above) = interface(class) {
        push_above(first_class, steps - 1, above, supers)?;
    }
    Ok(())
}

/// The entry of a class.
#[tactic(auto, unfolding(nr_linked::specs::BuiltInTables::built_in_info))]
fn info(
    alloc: Global,
    first_class: ClassId,
    first_method: MethodId,
    class: BuiltIn,
) -> Result<ClassInfo, LinkFault>
    requires few_classes { first_class ≤ 2 ^ 31 }
    requires few_methods { first_method ≤ 2 ^ 31 }
    ensures info { IfOk result (λ info. info ≡ built_in_info first_class first_method class) }
    ensures err { IsOkUnless result LinkFault.NoMemory }
{
    let mut supers = Items::new(alloc);
    push_above(first_class, 5, class, &mut supers)?;
    Ok(ClassInfo {
        name: built_in_name(alloc, class)?,
        flags: flags(class),
        super_class: place_of(first_class, class.super_class()),
        interfaces: interfaces(alloc, first_class, class)?,
        supers,
        slots: Items::new(alloc),
        first_method: first_method + methods_before(class),
        methods: method_count(class),
        read: None,
    })
}

#[tactic(auto, using(crate::proofs::Loops::maps, crate::proofs::Loops::mapped))]
fn add_infos(
    alloc: Global,
    first_class: ClassId,
    first_method: MethodId,
    classes: &[BuiltIn],
    infos: &mut Items<ClassInfo>,
) -> Result<(), LinkFault>
    requires few_classes { first_class ≤ 2 ^ 31 }
    requires few_methods { first_method ≤ 2 ^ 31 }
    ensures added { OnOk result (infos.new ≡ infos.old ++ map (built_in_info first_class first_method) classes.now) }
    ensures err { IsOkUnless result LinkFault.NoMemory }
{
    for class in classes {
        infos.push(info(alloc, first_class, first_method, *class)?)?;
    }
    Ok(())
}

/// Puts the entries of all at the end of the table of classes.
#[tactic(auto, unfolding(nr_linked::specs::BuiltInTables::built_in_infos))]
pub fn add_built_ins(
    alloc: Global,
    first_class: ClassId,
    first_method: MethodId,
    infos: &mut Items<ClassInfo>,
) -> Result<(), LinkFault>
    requires few_classes { first_class ≤ 2 ^ 31 }
    requires few_methods { first_method ≤ 2 ^ 31 }
    ensures added { OnOk result (infos.new ≡ infos.old ++ built_in_infos first_class first_method) }
    ensures err { IsOkUnless result LinkFault.NoMemory }
{
    add_infos(alloc, first_class, first_method, built_ins(), infos)
}
