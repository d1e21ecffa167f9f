//! The rules on the members of a class (JVM Specification 4.1, 4.5, 4.6 and 5.4.2, and the project's own
//! profile).

ghost use Rattle.std.specs.Prelude.{◌≡◌, ◌&&◌, ◌<◌, ◌^◌, not, length};
ghost use Rattle.std.specs.Option.{option_or};
ghost use Rattle.std.specs.Str.{bytes_eq};
ghost use Rattle.nr_prog.specs.Members.{is_abstract, is_static, spells};
ghost use Rattle.nr_linked.specs.Selection.{is_public};
ghost use Rattle.nr_links.specs.Rules.{has_interface_members, is_class_initialiser};
ghost use Rattle.nr_linkrules.specs.ClassRules.{field_fault, has_no_initialiser, members_fault, method_fault};
ghost use Rattle.nr_linkrules.specs.Faults.{Finds, first_numbered, first_of};
ghost use Rattle.nr_linkrules.specs.LinkFaults.{first_class_fault, on_loaded};
ghost use Rattle.nr_linkrules.specs.Reaches.{HasSteps, rows_of};
ghost use Rattle.nr_link.specs.Finals.{finals_of};
ghost use Rattle.nr_link.specs.Meanings.{meanings_of};
ghost use Rattle.nr_link.specs.Seen.{IsNamesOf};

use crate::above::copied;
use crate::finals::{Finals, check_overrides, finals_of};
use crate::known::{check_field, check_method};
use crate::meanings::{Meaning, meanings_of};
use crate::tables::{ABSTRACT, PUBLIC, STATIC, has_flag};
use indexmap::IndexSet;
use nr_base::Items;
use nr_linked::{ClassId, ClassInfo, ProgramTables};
use nr_linkrules::LinkFault;
use nr_prog::{Class, Field, Method};
use std::alloc::Global;

#[tactic(auto, unfolding(nr_prog::specs::Members::spells))]
fn is_class_initialiser(class: &Class, method: &Method) -> bool
    ensures { result ≡ is_class_initialiser class.now.pool method.now }
{
    match class.text(method.name) {
        Some(name) => b"<clinit>".as_slice() == name,
        None => false,
    }
}

fn has_no_initialiser(class: &Class) -> bool
    ensures { result ≡ has_no_initialiser class.now }
{
    let methods = class.parts().methods.as_slice();
    methods
        .iter()
        .all(|method| !is_class_initialiser(class, method))
}

fn are_static(fields: &[Field]) -> bool
    ensures { result ≡ Rattle.std.specs.List.list_all (λ f. is_static f.flags) fields.now }
{
    fields.iter().all(|field| has_flag(field.flags, STATIC))
}

fn are_public_abstract(methods: &[Method]) -> bool
    ensures { result ≡ Rattle.std.specs.List.list_all (λ m. is_public m.flags && is_abstract m.flags) methods.now }
{
    methods.iter().all(|method| has_flag(method.flags, PUBLIC) && has_flag(method.flags, ABSTRACT))
}

fn has_interface_members(class: &Class) -> bool
    ensures { result ≡ has_interface_members class.now }
{
    let parts = class.parts();
    are_static(parts.fields.as_slice()) && are_public_abstract(parts.methods.as_slice())
}

#[tactic(auto, using(crate::proofs::Walks::goes_on_of, crate::proofs::Walks::ends_of))]
fn check_each_field(
    alloc: Global,
    tables: &ProgramTables,
    names: &IndexSet<&[u8]>,
    class: &Class,
    meanings: &[Option<Meaning>],
    fields: &[Field],
) -> Result<(), LinkFault>
    requires names { IsNamesOf tables.now names.now }
    requires meanings { meanings.now ≡ meanings_of tables.now class.now.pool }
    ensures { Finds result (first_of (λ f. field_fault tables.now class.now.pool f.desc) fields.now) }
{
    for field in fields {
        check_field(alloc, tables, names, class, meanings, field.desc)?;
    }
    Ok(())
}

#[tactic(auto, using(crate::proofs::Walks::goes_on_of, crate::proofs::Walks::ends_of))]
fn check_each_method(
    alloc: Global,
    tables: &ProgramTables,
    names: &IndexSet<&[u8]>,
    class: &Class,
    meanings: &[Option<Meaning>],
    methods: &[Method],
) -> Result<(), LinkFault>
    requires names { IsNamesOf tables.now names.now }
    requires meanings { meanings.now ≡ meanings_of tables.now class.now.pool }
    ensures { Finds result (first_of (λ m. method_fault tables.now class.now.pool m.desc) methods.now) }
{
    for method in methods {
        check_method(alloc, tables, names, class, meanings, method.desc)?;
    }
    Ok(())
}

fn check_fields(
    alloc: Global,
    tables: &ProgramTables,
    names: &IndexSet<&[u8]>,
    class: &Class,
    meanings: &[Option<Meaning>],
) -> Result<(), LinkFault>
    requires names { IsNamesOf tables.now names.now }
    requires meanings { meanings.now ≡ meanings_of tables.now class.now.pool }
    ensures { Finds result (first_of (λ f. field_fault tables.now class.now.pool f.desc) class.now.fields) }
{
    let fields = class.parts().fields.as_slice();
    check_each_field(alloc, tables, names, class, meanings, fields)
}

fn check_methods(
    alloc: Global,
    tables: &ProgramTables,
    names: &IndexSet<&[u8]>,
    class: &Class,
    meanings: &[Option<Meaning>],
) -> Result<(), LinkFault>
    requires names { IsNamesOf tables.now names.now }
    requires meanings { meanings.now ≡ meanings_of tables.now class.now.pool }
    ensures { Finds result (first_of (λ m. method_fault tables.now class.now.pool m.desc) class.now.methods) }
{
    let methods = class.parts().methods.as_slice();
    check_each_method(alloc, tables, names, class, meanings, methods)
}

/// Looks for the classes of the descriptors of the class's members, fields first.
#[tactic(auto, using(crate::proofs::Walks::fails_first))]
fn check_types(
    alloc: Global,
    tables: &ProgramTables,
    names: &IndexSet<&[u8]>,
    class: &Class,
) -> Result<(), LinkFault>
    requires names { IsNamesOf tables.now names.now }
    requires few { length tables.now.classes < 2 ^ 32 }
    ensures { Finds result (option_or (first_of (λ f. field_fault tables.now class.now.pool f.desc) class.now.fields) (first_of (λ m. method_fault tables.now class.now.pool m.desc) class.now.methods)) }
{
    let meanings = meanings_of(alloc, tables, names, class)?;
    let meanings = meanings.as_slice();
    check_fields(alloc, tables, names, class, meanings)?;
    check_methods(alloc, tables, names, class, meanings)
}

#[tactic(auto, using(crate::proofs::Walks::fails_first), unfolding(nr_linkrules::specs::ClassRules::members_fault))]
fn check_members_of(
    alloc: Global,
    tables: &ProgramTables,
    names: &IndexSet<&[u8]>,
    rows: &[Items<bool>],
    finals: &[Finals],
    place: ClassId,
    info: &ClassInfo,
    class: &Class,
) -> Result<(), LinkFault>
    requires few { length tables.now.classes < 2 ^ 32 }
    requires names { IsNamesOf tables.now names.now }
    requires rows { rows.now ≡ rows_of tables.now (length tables.now.classes) }
    requires steps { HasSteps tables.now }
    requires finals { finals.now ≡ finals_of tables.now }
    ensures { Finds result (members_fault tables.now place info.now class.now) }
{
    if !has_no_initialiser(class) {
        return Err(LinkFault::Initialiser(copied(&info.name)?));
    }
    if tables.is_interface(place) && !has_interface_members(class) {
        return Err(LinkFault::InterfaceMember(copied(&info.name)?));
    }
    check_overrides(tables, rows, finals, &info.name, place)?;
    check_types(alloc, tables, names, class)
}

fn check_entry(
    alloc: Global,
    tables: &ProgramTables,
    names: &IndexSet<&[u8]>,
    rows: &[Items<bool>],
    finals: &[Finals],
    place: ClassId,
    info: &ClassInfo,
) -> Result<(), LinkFault>
    requires few { length tables.now.classes < 2 ^ 32 }
    requires names { IsNamesOf tables.now names.now }
    requires rows { rows.now ≡ rows_of tables.now (length tables.now.classes) }
    requires steps { HasSteps tables.now }
    requires finals { finals.now ≡ finals_of tables.now }
    ensures { Finds result (on_loaded (members_fault tables.now) place info.now) }
{
    match &info.read {
        Some(class) => { check_members_of(alloc, tables, names, rows, finals, place, info, class) }
        None => Ok(()),
    }
}

#[tactic(auto, using(crate::proofs::Walks::goes_on, crate::proofs::Walks::ends))]
fn check_each(
    alloc: Global,
    tables: &ProgramTables,
    names: &IndexSet<&[u8]>,
    rows: &[Items<bool>],
    finals: &[Finals],
    classes: &[ClassInfo],
) -> Result<(), LinkFault>
    requires few { length tables.now.classes < 2 ^ 32 }
    requires few_entries { length classes.now < 2 ^ 32 }
    requires names { IsNamesOf tables.now names.now }
    requires rows { rows.now ≡ rows_of tables.now (length tables.now.classes) }
    requires steps { HasSteps tables.now }
    requires finals { finals.now ≡ finals_of tables.now }
    ensures { Finds result (first_numbered (on_loaded (members_fault tables.now)) 0 classes.now) }
{
    for (place, info) in classes.iter().enumerate() {
        check_entry(alloc, tables, names, rows, finals, place as u32, info)?;
    }
    Ok(())
}

/// Looks at the members of each class.
#[tactic(auto, unfolding(nr_linkrules::specs::LinkFaults::first_class_fault))]
pub fn check_members(
    alloc: Global,
    tables: &ProgramTables,
    names: &IndexSet<&[u8]>,
    rows: &[Items<bool>],
) -> Result<(), LinkFault>
    requires few { length tables.now.classes < 2 ^ 32 }
    requires names { IsNamesOf tables.now names.now }
    requires rows { rows.now ≡ rows_of tables.now (length tables.now.classes) }
    requires steps { HasSteps tables.now }
    ensures { Finds result (first_class_fault (members_fault tables.now) tables.now) }
{
    let finals = finals_of(alloc, tables)?;
    let classes = tables.classes.as_slice();
    check_each(alloc, tables, names, rows, finals.as_slice(), classes)
}
