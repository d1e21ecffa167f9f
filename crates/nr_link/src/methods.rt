//! To which method a reference resolves (JVM Specification 5.4.3.3, 5.4.3.4).

ghost use Rattle.std.specs.Prelude.{◌≡◌, ◌<◌, ◌^◌, length, find, false, codes, IfSome};
ghost use Rattle.std.specs.List.{flat_map};
ghost use Rattle.std.specs.Str.{bytes_eq};
ghost use Rattle.nr_linked.specs.Linked.{declared};
ghost use Rattle.nr_linked.specs.Programs.{methods_of, superclasses};
ghost use Rattle.nr_linked.specs.Selection.{is_called};
ghost use Rattle.nr_links.specs.Resolution.{classes_for, interface_and_above, is_called_at, method_classes, resolved_method, superinterfaces};
ghost use Rattle.nr_linkrules.specs.Reaches.{HasSteps, rows_of};
ghost use Rattle.nr_link.specs.Barren.{IsBarren};
ghost use Rattle.nr_link.specs.Declaring.{declares_method};
ghost use Rattle.nr_link.specs.Lookups.{IsIndexed, IsSought, method_key};
ghost use Rattle.nr_names.specs.Numbers.{texts};
ghost use Rattle.nr_names.specs.Tables.{has_key};

use crate::closure::reaches;
use crate::lookup::{Lookup, Sought, kept_of, key_in};
use crate::superinterfaces::interfaces_of;
use nr_linked::{ClassId, MethodId, MethodInfo, ProgramTables};
use nr_names::Key;
use std::ops::Range;

fn is_called(info: &MethodInfo, name: &[u8], desc: &[u8]) -> bool
    ensures { result ≡ is_called name.now desc.now info.now }
{
    info.name.as_bytes() == name && info.desc.as_bytes() == desc
}

fn is_called_at(tables: &ProgramTables, method: usize, name: &[u8], desc: &[u8]) -> bool
    ensures { result ≡ is_called_at tables.now name.now desc.now method }
{
    match tables.methods.as_slice().get(method) {
        Some(info) => is_called(info, name, desc),
        None => false,
    }
}

/// The method of this name and descriptor that the class itself declares, found by its texts.
fn declared_by_texts(
    tables: &ProgramTables,
    class: ClassId,
    name: &[u8],
    desc: &[u8],
) -> Option<usize>
    ensures { result ≡ declared tables.now class name.now desc.now }
{
    let Range { start, end } = tables.methods_of(class);
    (start..end).find(|method| is_called_at(tables, *method, name, desc))
}

/// The method of this key that the class itself declares.
#[tactic(auto, using(crate::proofs::Looked::no_methods))]
fn declared_by_key(
    tables: &ProgramTables,
    lookup: &Lookup,
    class: ClassId,
    key: Key,
) -> Option<usize>
    requires indexed { IsIndexed tables.now lookup.now }
    ensures { result ≡ find (λ m. has_key key (method_key tables.now (texts lookup.now.texts) class m)) (methods_of tables.now class) }
{
    kept_of(tables, lookup, class)?.methods.get(key)
}

/// The method of this name and descriptor that the class itself declares.
#[tactic(auto, using(crate::proofs::Looked::declared_told, nr_linked::proofs::Places::found_within))]
fn declared(
    tables: &ProgramTables,
    lookup: &Lookup,
    sought: &Sought,
    class: ClassId,
) -> Option<usize>
    requires indexed { IsIndexed tables.now lookup.now }
    requires sought { IsSought (texts lookup.now.texts) sought.now }
    ensures method { result ≡ declared tables.now class sought.now.name.now sought.now.desc.now }
    ensures within { IfSome result (λ m. m < length tables.now.methods) }
{
    match key_in(sought, class) {
        Some(key) => declared_by_key(tables, lookup, class, key),
        None => declared_by_texts(tables, class, sought.name, sought.desc),
    }
}

fn declares_method(tables: &ProgramTables, lookup: &Lookup, sought: &Sought, class: ClassId) -> bool
    requires indexed { IsIndexed tables.now lookup.now }
    requires sought { IsSought (texts lookup.now.texts) sought.now }
    ensures { result ≡ declares_method tables.now sought.now.name.now sought.now.desc.now class }
{
    declared(tables, lookup, sought, class).is_some()
}

/// Whether a class at or above the class declares the method. It may also answer true elsewhere.
#[tactic(auto, using(crate::proofs::Interfaces::barren))]
fn may_find(tables: &ProgramTables, lookup: &Lookup, sought: &Sought, class: ClassId) -> bool
    requires indexed { IsIndexed tables.now lookup.now }
    requires sought { IsSought (texts lookup.now.texts) sought.now }
    ensures { result ≡ false → IsBarren tables.now (declares_method tables.now sought.now.name.now sought.now.desc.now) class }
{
    if class as usize >= tables.classes.len() {
        return true;
    }
    for above in 0..tables.classes.len() as u32 {
        if reaches(tables, lookup.rows, class, above)
            && declares_method(tables, lookup, sought, above)
        {
            return true;
        }
    }
    false
}

/// The first that declares the method, of the interfaces and of those fewer than `left` steps above
/// each of them.
fn find_in_interfaces(
    tables: &ProgramTables,
    lookup: &Lookup,
    sought: &Sought,
    left: usize,
    interfaces: &[ClassId],
) -> Option<ClassId>
    requires indexed { IsIndexed tables.now lookup.now }
    requires sought { IsSought (texts lookup.now.texts) sought.now }
    ensures { result ≡ find (declares_method tables.now sought.now.name.now sought.now.desc.now) (flat_map (interface_and_above tables.now left) interfaces.now) }
{
    if left == 0 {
        return None;
    }
    for class in interfaces {
        if may_find(tables, lookup, sought, *class) {
            if declares_method(tables, lookup, sought, *class) {
                return Some(*class);
            }
            let above = interfaces_of(tables, lookup.lists.as_slice(), *class);
            if let Some(found) = find_in_interfaces(tables, lookup, sought, left - 1, above) {
                return Some(found);
            }
        }
    }
    None
}

/// The first that declares the method, of the class and its superclasses.
fn find_in_superclasses(
    tables: &ProgramTables,
    lookup: &Lookup,
    sought: &Sought,
    class: ClassId,
) -> Option<ClassId>
    requires indexed { IsIndexed tables.now lookup.now }
    requires sought { IsSought (texts lookup.now.texts) sought.now }
    ensures { result ≡ find (declares_method tables.now sought.now.name.now sought.now.desc.now) (superclasses tables.now class) }
{
    for class in tables.superclasses(class) {
        if declares_method(tables, lookup, sought, class) {
            return Some(class);
        }
    }
    None
}

/// The first that declares the method, of the superinterfaces of the class and its superclasses.
fn find_in_superinterfaces(
    tables: &ProgramTables,
    lookup: &Lookup,
    sought: &Sought,
    class: ClassId,
) -> Option<ClassId>
    requires indexed { IsIndexed tables.now lookup.now }
    requires sought { IsSought (texts lookup.now.texts) sought.now }
    ensures { result ≡ find (declares_method tables.now sought.now.name.now sought.now.desc.now) (superinterfaces tables.now class) }
{
    let most = tables.classes.len();
    for class in tables.superclasses(class) {
        let interfaces = interfaces_of(tables, lookup.lists.as_slice(), class);
        if let Some(found) = find_in_interfaces(tables, lookup, sought, most, interfaces) {
            return Some(found);
        }
    }
    None
}

/// The class that declares the method, where it is no initialiser.
#[tactic(auto, using(crate::proofs::Interfaces::of_interface, crate::proofs::Interfaces::find_first, crate::proofs::Interfaces::find_second))]
fn method_class(
    tables: &ProgramTables,
    lookup: &Lookup,
    sought: &Sought,
    class: ClassId,
) -> Option<ClassId>
    requires indexed { IsIndexed tables.now lookup.now }
    requires sought { IsSought (texts lookup.now.texts) sought.now }
    ensures { result ≡ find (declares_method tables.now sought.now.name.now sought.now.desc.now) (method_classes tables.now class) }
{
    if tables.is_interface(class) {
        let most = tables.classes.len();
        return find_in_interfaces(tables, lookup, sought, most, &[class]);
    }
    match find_in_superclasses(tables, lookup, sought, class) {
        Some(found) => Some(found),
        None => find_in_superinterfaces(tables, lookup, sought, class),
    }
}

/// The class that declares the method. An initialiser is looked for in the class alone.
fn declaring_class(
    tables: &ProgramTables,
    lookup: &Lookup,
    sought: &Sought,
    class: ClassId,
) -> Option<ClassId>
    requires indexed { IsIndexed tables.now lookup.now }
    requires sought { IsSought (texts lookup.now.texts) sought.now }
    ensures { result ≡ find (declares_method tables.now sought.now.name.now sought.now.desc.now) (classes_for tables.now class sought.now.name.now) }
{
    if sought.name != b"<init>".as_slice() {
        return method_class(tables, lookup, sought, class);
    }
    if declares_method(tables, lookup, sought, class) {
        Some(class)
    } else {
        None
    }
}

/// The method to which a reference to the class resolves.
#[tactic(auto, using(crate::proofs::Interfaces::found_in, crate::proofs::Interfaces::found_nowhere))]
pub fn resolved_method(
    tables: &ProgramTables,
    lookup: &Lookup,
    sought: &Sought,
    class: ClassId,
) -> Option<MethodId>
    requires indexed { IsIndexed tables.now lookup.now }
    requires sought { IsSought (texts lookup.now.texts) sought.now }
    ensures { result ≡ resolved_method tables.now class sought.now.name.now sought.now.desc.now }
{
    let holder = declaring_class(tables, lookup, sought, class)?;
    let method = declared(tables, lookup, sought, holder)?;
    Some(method as u32)
}
