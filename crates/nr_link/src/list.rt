//! The rules on the list of classes itself.

ghost use Rattle.std.specs.Prelude.{◌≡◌, ◌≤◌, ◌∷◌, [], ◌++◌, length, map, not, IfOk, OnOk, List, ℕ, ◌+◌, ◌<◌};
ghost use Rattle.std.specs.List.{list_any};
ghost use Rattle.std.specs.Str.{bytes_eq};
ghost use Rattle.nr_linkrules.specs.ClassRules.{doubled_fault, is_earlier, limit_fault, list_fault, reserved_fault};
ghost use Rattle.nr_links.specs.Rules.{is_reserved};
ghost use Rattle.nr_linkrules.specs.Faults.{Finds, first_numbered, first_of, unless};
ghost use Rattle.nr_linkrules.specs.Outline.{own_name, own_names};
ghost use Rattle.nr_names.specs.Numbers.{texts};
ghost use Rattle.nr_linkrules.specs.declared.fault.LinkFault.TheVariants as faults;

use crate::names::{add, name_of, own_name};
use indexmap::IndexSet;
use nr_linkrules::LinkFault;
use nr_prog::Loaded;
use std::alloc::Global;

/// How many classes there can be.
const LIMIT: usize = 1024;

fn check_limit(classes: &[Loaded]) -> Result<(), LinkFault>
    ensures { Finds result (limit_fault classes.now) }
{
    if classes.len() <= LIMIT {
        Ok(())
    } else {
        Err(LinkFault::LimitClasses(classes.len() as u64))
    }
}

/// Whether the name is kept for built-in classes.
fn is_reserved(name: &[u8]) -> bool
    ensures { result ≡ is_reserved name.now }
{
    name.starts_with(b"java/") || name.starts_with(b"nrmi/")
}

fn check_reserved(alloc: Global, loaded: &Loaded) -> Result<(), LinkFault>
    ensures { Finds result (reserved_fault loaded.now) }
{
    let name = own_name(&loaded.class);
    if is_reserved(name) {
        Err(LinkFault::ReservedName(name_of(alloc, name)?))
    } else {
        Ok(())
    }
}

#[tactic(auto, using(crate::proofs::Walks::goes_on_of, crate::proofs::Walks::fails_in_of, crate::proofs::Walks::ends_of))]
fn check_all_reserved(alloc: Global, classes: &[Loaded]) -> Result<(), LinkFault>
    ensures { Finds result (first_of reserved_fault classes.now) }
{
    for loaded in classes {
        check_reserved(alloc, loaded)?;
    }
    Ok(())
}

/// Adds the class's name to those of the classes before it.
fn add_name<'a>(
    alloc: Global,
    loaded: &'a Loaded,
    names: &mut IndexSet<&'a [u8]>,
) -> Result<(), LinkFault>
    ensures fault { Finds result (unless (not (list_any (bytes_eq (own_name loaded.now.«class»)) (texts names.old))) (faults.DoubledClass (own_name loaded.now.«class»))) }
    ensures kept { OnOk result (texts names.new ≡ texts names.old ++ own_name loaded.now.«class» ∷ []) }
{
    let name = own_name(&loaded.class);
    if add(names, name)? {
        Ok(())
    } else {
        Err(LinkFault::DoubledClass(name_of(alloc, name)?))
    }
}

/// The names of the classes, by their numbers.
fn names_of(alloc: Global, classes: &[Loaded]) -> Result<IndexSet<&[u8]>, LinkFault>
    ensures fault { Finds result (first_numbered (doubled_fault (own_names classes.now)) 0 classes.now) }
    ensures names { IfOk result (λ names. texts names ≡ own_names classes.now) }
{
    let mut names = IndexSet::new(alloc);
    for loaded in classes {
        add_name(alloc, loaded, &mut names)?;
    }
    Ok(names)
}

/// Looks at the list of classes, and gives their names by their numbers.
#[tactic(auto, using(crate::proofs::Walks::fails_first), unfolding(nr_linkrules::specs::ClassRules::list_fault))]
pub fn check_list(alloc: Global, classes: &[Loaded]) -> Result<IndexSet<&[u8]>, LinkFault>
    ensures fault { Finds result (list_fault classes.now) }
    ensures names { IfOk result (λ names. texts names ≡ own_names classes.now) }
{
    check_limit(classes)?;
    check_all_reserved(alloc, classes)?;
    names_of(alloc, classes)
}
