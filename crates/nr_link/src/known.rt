//! Classes that descriptors name.

ghost use Rattle.std.specs.Prelude.{◌≡◌, None, true};
ghost use Rattle.nr_prog.specs.Pool.{text_at};
ghost use Rattle.nr_linkrules.specs.ClassRules.{desc_fault, field_fault, known_fault, method_fault, types_in};
ghost use Rattle.nr_linkrules.specs.Faults.{Finds, first_of};
ghost use Rattle.nr_link.specs.Meanings.{meanings_of};
ghost use Rattle.nr_link.specs.Seen.{IsNamesOf};

use crate::above::copied;
use crate::meanings::{Meaning, meaning_at};
use crate::names::text_bytes;
use indexmap::IndexSet;
use nr_base::{Desc, DescBase, DescFault, MethodDesc, Name};
use nr_linked::ProgramTables;
use nr_linkrules::LinkFault;
use nr_names::number;
use nr_prog::Class;
use std::alloc::Global;

/// Looks for the class of that name.
#[tactic(auto, using(nr_linkrules::proofs::NameLaws::known_by_texts), unfolding(nr_linkrules::specs::ClassRules::known_fault))]
fn check_name(tables: &ProgramTables, names: &IndexSet<&[u8]>, name: &Name) -> Result<(), LinkFault>
    requires names { IsNamesOf tables.now names.now }
    ensures { Finds result (known_fault tables.now name.now) }
{
    match number(names, name.as_bytes()) {
        Some(_) => Ok(()),
        None => Err(LinkFault::NoClass(copied(name)?)),
    }
}

/// Looks for the class that the descriptor names.
pub fn check_desc(
    tables: &ProgramTables,
    names: &IndexSet<&[u8]>,
    desc: &Desc,
) -> Result<(), LinkFault>
    requires names { IsNamesOf tables.now names.now }
    ensures { Finds result (desc_fault tables.now desc.now) }
{
    match &desc.base {
        DescBase::Object(name) => check_name(tables, names, name),
        _ => Ok(()),
    }
}

#[tactic(auto, using(crate::proofs::Walks::goes_on_of, crate::proofs::Walks::fails_in_of, crate::proofs::Walks::ends_of))]
fn check_descs(
    tables: &ProgramTables,
    names: &IndexSet<&[u8]>,
    descs: &[Desc],
) -> Result<(), LinkFault>
    requires names { IsNamesOf tables.now names.now }
    ensures { Finds result (first_of (desc_fault tables.now) descs.now) }
{
    for desc in descs {
        check_desc(tables, names, desc)?;
    }
    Ok(())
}

/// Looks for the classes of a method's descriptor, parameters first.
#[tactic(auto, using(crate::proofs::Walks::fails_first, crate::proofs::Parts::first_of_both, crate::proofs::Parts::first_of_one))]
fn check_method_desc(
    tables: &ProgramTables,
    names: &IndexSet<&[u8]>,
    desc: &MethodDesc,
) -> Result<(), LinkFault>
    requires names { IsNamesOf tables.now names.now }
    ensures { Finds result (first_of (desc_fault tables.now) (types_in (Ok desc.now))) }
{
    check_descs(tables, names, desc.params.as_slice())?;
    match &desc.result {
        Some(desc) => check_desc(tables, names, desc),
        None => Ok(()),
    }
}

/// Whether the descriptor of a field at this index is known to name a class that the program has, or
/// none.
#[tactic(auto, using(crate::proofs::Meant::field_known))]
fn is_field_known(
    tables: &ProgramTables,
    class: &Class,
    meanings: &[Option<Meaning>],
    index: u16,
) -> bool
    requires meanings { meanings.now ≡ meanings_of tables.now class.now.pool }
    ensures { result ≡ true → field_fault tables.now class.now.pool index ≡ None }
{
    match meaning_at(tables, class, meanings, index) {
        Some(meaning) => meaning.said.is_some(),
        None => false,
    }
}

/// The same of a method's.
#[tactic(auto, using(crate::proofs::Meant::method_known))]
fn is_method_known(
    tables: &ProgramTables,
    class: &Class,
    meanings: &[Option<Meaning>],
    index: u16,
) -> bool
    requires meanings { meanings.now ≡ meanings_of tables.now class.now.pool }
    ensures { result ≡ true → method_fault tables.now class.now.pool index ≡ None }
{
    match meaning_at(tables, class, meanings, index) {
        Some(meaning) => meaning.whole,
        None => false,
    }
}

/// Looks for the class that the descriptor of a field at this index names.
#[tactic(auto, using(crate::proofs::Parts::first_of_one, crate::proofs::Parts::first_of_none), unfolding(nr_linkrules::specs::ClassRules::field_fault))]
pub fn check_field(
    alloc: Global,
    tables: &ProgramTables,
    names: &IndexSet<&[u8]>,
    class: &Class,
    meanings: &[Option<Meaning>],
    index: u16,
) -> Result<(), LinkFault>
    requires names { IsNamesOf tables.now names.now }
    requires meanings { meanings.now ≡ meanings_of tables.now class.now.pool }
    ensures { Finds result (field_fault tables.now class.now.pool index) }
{
    if is_field_known(tables, class, meanings, index) {
        return Ok(());
    }
    match Desc::read(alloc, text_bytes(class, index)) {
        Ok(desc) => check_desc(tables, names, &desc),
        Err(DescFault::NoMemory) => Err(LinkFault::NoMemory),
        Err(_) => Ok(()),
    }
}

/// Looks for the classes that the descriptor of a method at this index names.
#[tactic(auto, using(crate::proofs::Parts::first_of_none), unfolding(nr_linkrules::specs::ClassRules::method_fault))]
pub fn check_method(
    alloc: Global,
    tables: &ProgramTables,
    names: &IndexSet<&[u8]>,
    class: &Class,
    meanings: &[Option<Meaning>],
    index: u16,
) -> Result<(), LinkFault>
    requires names { IsNamesOf tables.now names.now }
    requires meanings { meanings.now ≡ meanings_of tables.now class.now.pool }
    ensures { Finds result (method_fault tables.now class.now.pool index) }
{
    if is_method_known(tables, class, meanings, index) {
        return Ok(());
    }
    match MethodDesc::read(alloc, text_bytes(class, index)) {
        Ok(desc) => check_method_desc(tables, names, &desc),
        Err(DescFault::NoMemory) => Err(LinkFault::NoMemory),
        Err(_) => Ok(()),
    }
}
