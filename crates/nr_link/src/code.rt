//! What linking finds for the code of methods.

ghost use Rattle.std.specs.Prelude.{◌≡◌, All, IfOk, Some, map, option_copied};
ghost use Rattle.nr_linked.specs.Linked.{instrs_of};
ghost use Rattle.nr_linkrules.specs.Completion.{resolved_in};
ghost use Rattle.nr_linkrules.specs.Faults.{Finds, first_of};
ghost use Rattle.nr_linkrules.specs.SiteRules.{code_fault};
ghost use Rattle.nr_link.specs.Coded.{IsCoded, found_in, read_class, site_fault};
ghost use Rattle.nr_link.specs.Lookups.{IsIndexed};
ghost use Rattle.nr_link.specs.Naming.{HasNames};

use crate::lookup::Lookup;
use crate::sites::find;
use nr_base::Items;
use nr_linked::{ClassId, MethodInfo, ProgramTables, Resolved};
use nr_linkrules::LinkFault;
use nr_prog::{Class, Instr};
use std::alloc::Global;

#[tactic(auto, using(crate::proofs::Walks::goes_on_of, crate::proofs::Walks::ends_of, crate::proofs::SiteFaults::no_fault, crate::proofs::SiteFaults::found_is))]
fn find_each(
    alloc: Global,
    tables: &ProgramTables,
    lookup: &Lookup,
    info: &MethodInfo,
    class: &Class,
    instrs: &[Instr],
) -> Result<Items<Resolved>, LinkFault>
    requires indexed { IsIndexed tables.now lookup.now }
    requires here { Some class.now ≡ read_class tables.now info.now.«class» }
    requires named { All (HasNames class.now.pool) instrs.now }
    ensures fault { Finds result (first_of (site_fault tables.now info.now class.now.pool) instrs.now) }
    ensures found { IfOk result (λ found. found ≡ map (found_in tables.now info.now class.now.pool) instrs.now) }
{
    let mut found = Items::new(alloc);
    for instr in instrs {
        found.push(find(alloc, tables, lookup, info, class, instr)?)?;
    }
    Ok(found)
}

/// The class as it was read.
pub fn read_class(tables: &ProgramTables, class: ClassId) -> Option<&Class>
    ensures { option_copied result ≡ read_class tables.now class }
{
    tables.class_at(class)?.read.as_ref()
}

fn instrs_of(info: &MethodInfo) -> &[Instr]
    ensures { result.now ≡ instrs_of info.now }
{
    match &info.body {
        Some(body) => body.instrs.as_slice(),
        None => &[],
    }
}

/// What linking finds for each instruction of a method.
fn find_in_method(
    alloc: Global,
    tables: &ProgramTables,
    lookup: &Lookup,
    info: &MethodInfo,
) -> Result<Items<Resolved>, LinkFault>
    requires indexed { IsIndexed tables.now lookup.now }
    requires coded { IsCoded tables.now info.now }
    ensures fault { Finds result (code_fault tables.now info.now) }
    ensures found { IfOk result (λ found. found ≡ resolved_in tables.now info.now) }
{
    let instrs = instrs_of(info);
    match read_class(tables, info.class) {
        Some(class) => find_each(alloc, tables, lookup, info, class, instrs),
        None => Ok(Items::new(alloc)),
    }
}

/// What linking finds for each instruction of each method.
#[tactic(auto, using(crate::proofs::Walks::goes_on_of, crate::proofs::Walks::ends_of))]
pub fn find_in_methods(
    alloc: Global,
    tables: &ProgramTables,
    lookup: &Lookup,
    methods: &[MethodInfo],
) -> Result<Items<Items<Resolved>>, LinkFault>
    requires indexed { IsIndexed tables.now lookup.now }
    requires coded { All (IsCoded tables.now) methods.now }
    ensures fault { Finds result (first_of (code_fault tables.now) methods.now) }
    ensures found { IfOk result (λ found. found ≡ map (resolved_in tables.now) methods.now) }
{
    let mut found = Items::new(alloc);
    for info in methods {
        found.push(find_in_method(alloc, tables, lookup, info)?)?;
    }
    Ok(found)
}
