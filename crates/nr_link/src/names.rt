//! Names of classes.

ghost use Rattle.std.specs.Prelude.{◌≡◌, ◌<◌, ◌^◌, ◌∷◌, [], ◌++◌, not, length, map, IfOk, IfSome, OnOk, IsOkUnless, IsTrue, List};
ghost use Rattle.std.specs.List.{list_any};
ghost use Rattle.std.specs.Str.{bytes_eq};
ghost use Rattle.nr_base.specs.ModifiedUtf8.{IsModifiedUtf8};
ghost use Rattle.nr_prog.specs.BodyNames.{class_text_at};
ghost use Rattle.nr_prog.specs.Form.{NamesClass};
ghost use Rattle.nr_prog.specs.Pool.{text_at};
ghost use Rattle.nr_linked.specs.BuiltIns.{built_in_class};
ghost use Rattle.nr_linkrules.specs.Outline.{names_of, number_in, own_name, own_names, some_text};
ghost use Rattle.nr_link.specs.Seen.{AreApart};
ghost use Rattle.nr_names.specs.Numbers.{texts};

use crate::built_in::{built_in_name, built_ins};
use indexmap::IndexSet;
use nr_base::{Items, Name};
use nr_linked::BuiltIn;
use nr_linkrules::LinkFault;
use nr_prog::{Class, Loaded, PoolEntry};
use std::alloc::{AllocFailed, Global};

/// The bytes that name the class at an index of the constant pool; none where no class stands there.
#[tactic(auto, unfolding(nr_prog::specs::BodyNames::class_text_at))]
pub fn class_bytes(class: &Class, index: u16) -> &[u8]
    ensures value { result.now ≡ some_text (class_text_at class.now.pool index) }
    ensures short { length result.now < 2 ^ 16 }
{
    match class.entry(index) {
        Some(PoolEntry::Class(name)) => match class.text(*name) {
            Some(text) => text,
            None => &[],
        },
        _ => &[],
    }
}

/// The name of the class, in internal form.
#[tactic(auto, using(nr_linkrules::proofs::NameLaws::own_is_name))]
pub fn own_name(class: &Class) -> &[u8]
    ensures value { result.now ≡ own_name class.now }
    ensures name { IsModifiedUtf8 result.now }
    ensures short { length result.now < 2 ^ 16 }
{
    class_bytes(class, class.parts().this_class)
}

/// The name of bytes that are one. The error comes only for want of memory.
pub fn name_of(alloc: Global, bytes: &[u8]) -> Result<Name, LinkFault>
    requires name { IsModifiedUtf8 bytes.now }
    requires short { length bytes.now < 2 ^ 16 }
    ensures name { IfOk result (λ name. name ≡ bytes.now) }
    ensures err { IsOkUnless result LinkFault.NoMemory }
{
    match Name::read(alloc, bytes) {
        Ok(name) => Ok(name),
        Err(_) => Err(LinkFault::NoMemory),
    }
}

/// Adds a name, and says whether it is new.
#[tactic(auto, unfolding(nr_names::specs::Numbers::texts))]
pub fn add<'a>(
    names: &mut IndexSet<&'a [u8]>,
    name: &'a [u8],
) -> Result<bool, AllocFailed<&'a [u8]>>
    ensures new { IfOk result (λ new. new ≡ not (list_any (bytes_eq name.now) (texts names.old))) }
    ensures kept { IfOk result (λ new. IsTrue new → texts names.new ≡ texts names.old ++ name.now ∷ []) }
{
    let (_, new) = names.insert_full(name)?;
    Ok(new)
}

/// The name of the class that the index names, in internal form.
#[tactic(auto, using(nr_linkrules::proofs::NameLaws::is_name_at))]
pub fn class_name_at(class: &Class, index: u16) -> &[u8]
    requires { NamesClass class.now.pool index }
    ensures value { result.now ≡ some_text (class_text_at class.now.pool index) }
    ensures name { IsModifiedUtf8 result.now }
    ensures short { length result.now < 2 ^ 16 }
{
    class_bytes(class, index)
}

/// The text at an index of the constant pool; none where none stands there.
pub fn text_bytes(class: &Class, index: u16) -> &[u8]
    ensures value { result.now ≡ some_text (text_at class.now.pool index) }
    ensures short { length result.now < 2 ^ 16 }
{
    match class.text(index) {
        Some(text) => text,
        None => &[],
    }
}

#[tactic(auto, using(crate::proofs::Loops::maps_at, crate::proofs::Loops::mapped))]
fn push_loaded_names(
    alloc: Global,
    classes: &[Loaded],
    names: &mut Items<Name>,
) -> Result<(), LinkFault>
    ensures names { OnOk result (names.new ≡ names.old ++ own_names classes.now) }
    ensures err { IsOkUnless result LinkFault.NoMemory }
{
    for loaded in classes {
        names.push(name_of(alloc, own_name(&loaded.class))?)?;
    }
    Ok(())
}

#[tactic(auto, using(crate::proofs::Loops::maps, crate::proofs::Loops::mapped))]
fn push_built_in_names(
    alloc: Global,
    classes: &[BuiltIn],
    names: &mut Items<Name>,
) -> Result<(), LinkFault>
    ensures names { OnOk result (names.new ≡ names.old ++ map (λ b. (built_in_class b).name) classes.now) }
    ensures err { IsOkUnless result LinkFault.NoMemory }
{
    for class in classes {
        names.push(built_in_name(alloc, *class)?)?;
    }
    Ok(())
}

/// The names of all classes, by their numbers.
pub fn all_names(alloc: Global, classes: &[Loaded]) -> Result<Items<Name>, LinkFault>
    ensures names { IfOk result (λ names. names ≡ names_of classes.now) }
    ensures err { IsOkUnless result LinkFault.NoMemory }
{
    let mut names = Items::new(alloc);
    push_loaded_names(alloc, classes, &mut names)?;
    push_built_in_names(alloc, built_ins(), &mut names)?;
    Ok(names)
}

/// The numbers of names, each of which stands once among them.
#[tactic(auto, using(crate::proofs::Numbered::adds))]
pub fn numbers(alloc: Global, all: &[Name]) -> Result<IndexSet<&[u8]>, LinkFault>
    requires { AreApart all.now }
    ensures names { IfOk result (λ names. texts names ≡ all.now) }
    ensures err { IsOkUnless result LinkFault.NoMemory }
{
    let mut names = IndexSet::new(alloc);
    for name in all {
        let _new = add(&mut names, name.as_bytes())?;
    }
    Ok(names)
}
