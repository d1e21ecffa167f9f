//! Methods with what linking finds for them.

ghost use Rattle.std.specs.Prelude.{◌≡◌, ◌<◌, ◌^◌, ◌++◌, All, IfOk, IsOkUnless, drop, length, map};
ghost use Rattle.std.specs.List.{zip};
ghost use Rattle.std.specs.Option.{option_and_then};
ghost use Rattle.nr_linkrules.specs.Completion.{kinds_of, resolved_in};
ghost use Rattle.nr_linkrules.specs.Faults.{Finds, first_of};
ghost use Rattle.nr_linkrules.specs.Layout.{kind_of};
ghost use Rattle.nr_linkrules.specs.SiteRules.{around_fault};
ghost use Rattle.nr_link.specs.Coded.{IsCoded};
ghost use Rattle.nr_link.specs.Completing.{around_of, completed_by, found_for, signature_of};
ghost use Rattle.nr_link.specs.Lookups.{IsIndexed};
ghost use Rattle.nr_link.specs.Seen.{IsNamesOf};

use crate::around::{Around, find_around};
use crate::code::read_class;
use crate::gathering::push_some;
use crate::kinds::kind_of;
use crate::lookup::Lookup;
use indexmap::IndexSet;
use nr_base::{Desc, DescFault, Items, MethodDesc};
use nr_linked::{Kind, MethodInfo, ProgramTables, Resolved};
use nr_linkrules::LinkFault;
use std::alloc::Global;

/// The kinds of a method's parameters, and that of its result.
#[derive(Debug, Drop)]
pub struct Signature {
    pub params: Items<Kind>,
    pub result: Option<Kind>,
}

/// What linking finds for a method.
#[derive(Debug, Drop)]
pub struct Found {
    pub signature: Signature,
    /// What is found for each instruction.
    pub resolved: Items<Resolved>,
    pub around: Around,
}

#[tactic(auto, using(crate::proofs::Loops::gathers, crate::proofs::Loops::gathered))]
fn kinds_of(
    alloc: Global,
    tables: &ProgramTables,
    names: &IndexSet<&[u8]>,
    descs: &[Desc],
) -> Result<Items<Kind>, LinkFault>
    requires names { IsNamesOf tables.now names.now }
    requires few { length tables.now.classes < 2 ^ 32 }
    ensures kinds { IfOk result (λ kinds. kinds ≡ kinds_of tables.now descs.now) }
    ensures err { IsOkUnless result LinkFault.NoMemory }
{
    let mut kinds = Items::new(alloc);
    for desc in descs {
        push_some(&mut kinds, kind_of(tables, names, desc))?;
    }
    Ok(kinds)
}

fn result_of(
    tables: &ProgramTables,
    names: &IndexSet<&[u8]>,
    returned: &Option<Desc>,
) -> Option<Kind>
    requires names { IsNamesOf tables.now names.now }
    requires few { length tables.now.classes < 2 ^ 32 }
    ensures { result ≡ option_and_then (kind_of tables.now) returned.now }
{
    match returned {
        Some(desc) => kind_of(tables, names, desc),
        None => None,
    }
}

fn signature_of(
    alloc: Global,
    tables: &ProgramTables,
    names: &IndexSet<&[u8]>,
    info: &MethodInfo,
) -> Result<Signature, LinkFault>
    requires names { IsNamesOf tables.now names.now }
    requires few { length tables.now.classes < 2 ^ 32 }
    ensures signature { IfOk result (λ signature. signature ≡ signature_of tables.now info.now) }
    ensures err { IsOkUnless result LinkFault.NoMemory }
{
    match MethodDesc::read(alloc, info.desc.as_bytes()) {
        Ok(desc) => Ok(Signature {
            params: kinds_of(alloc, tables, names, desc.params.as_slice())?,
            result: result_of(tables, names, &desc.result),
        }),
        Err(DescFault::NoMemory) => Err(LinkFault::NoMemory),
        Err(_) => Ok(Signature {
            params: Items::new(alloc),
            result: None,
        }),
    }
}

/// What the exception handlers and the frame maps of a method name.
fn around_of(
    alloc: Global,
    tables: &ProgramTables,
    names: &IndexSet<&[u8]>,
    lookup: &Lookup,
    info: &MethodInfo,
) -> Result<Around, LinkFault>
    requires names { IsNamesOf tables.now names.now }
    requires indexed { IsIndexed tables.now lookup.now }
    requires coded { IsCoded tables.now info.now }
    ensures fault { Finds result (around_fault tables.now info.now) }
    ensures around { IfOk result (λ around. around ≡ around_of tables.now info.now) }
{
    match read_class(tables, info.class) {
        Some(class) => find_around(alloc, tables, names, lookup, class, info),
        None => Ok(Around {
            catches: Items::new(alloc),
            maps: Items::new(alloc),
        }),
    }
}

fn found_for(
    alloc: Global,
    tables: &ProgramTables,
    names: &IndexSet<&[u8]>,
    lookup: &Lookup,
    info: &MethodInfo,
    resolved: Items<Resolved>,
) -> Result<Found, LinkFault>
    requires names { IsNamesOf tables.now names.now }
    requires indexed { IsIndexed tables.now lookup.now }
    requires coded { IsCoded tables.now info.now }
    requires resolved { resolved ≡ resolved_in tables.now info.now }
    ensures fault { Finds result (around_fault tables.now info.now) }
    ensures found { IfOk result (λ found. found ≡ found_for tables.now info.now) }
{
    let around = around_of(alloc, tables, names, lookup, info)?;
    Ok(Found {
        signature: signature_of(alloc, tables, names, info)?,
        resolved,
        around,
    })
}

/// What linking finds for each method, where what it finds for the instructions is known.
pub fn found_for_all(
    alloc: Global,
    tables: &ProgramTables,
    names: &IndexSet<&[u8]>,
    lookup: &Lookup,
    methods: &[MethodInfo],
    resolved: Items<Items<Resolved>>,
) -> Result<Items<Found>, LinkFault>
    requires names { IsNamesOf tables.now names.now }
    requires indexed { IsIndexed tables.now lookup.now }
    requires coded { All (IsCoded tables.now) methods.now }
    requires resolved { resolved ≡ map (resolved_in tables.now) methods.now }
    ensures fault { Finds result (first_of (around_fault tables.now) methods.now) }
    ensures found { IfOk result (λ found. found ≡ map (found_for tables.now) methods.now) }
{
    let mut found = Items::new(alloc);
    let mut rest = resolved.into_vec().into_iter();
    for info in methods {
        let Some(resolved) = rest.next() else {
            return Ok(found);
        };
        found.push(found_for(alloc, tables, names, lookup, info, resolved)?)?;
    }
    Ok(found)
}

fn completed_by(info: MethodInfo, found: Found) -> MethodInfo
    ensures { result ≡ completed_by info found }
{
    let Found {
        signature,
        resolved,
        around,
    } = found;
    MethodInfo {
        params: signature.params,
        result: signature.result,
        resolved,
        catches: around.catches,
        maps: around.maps,
        ..info
    }
}

/// The methods with what was found for them; those behind, for which nothing was, as they are.
pub fn complete(
    alloc: Global,
    methods: Items<MethodInfo>,
    found: Items<Found>,
) -> Result<Items<MethodInfo>, LinkFault>
    ensures methods { IfOk result (λ completed. completed ≡ map (λ p. completed_by p.0 p.1) (zip methods found) ++ drop (length found) methods) }
    ensures err { IsOkUnless result LinkFault.NoMemory }
{
    let mut completed = Items::new(alloc);
    let mut rest = methods.into_vec().into_iter();
    let mut found = found.into_vec().into_iter();
    while let Some(info) = rest.next() {
        match found.next() {
            Some(found) => completed.push(completed_by(info, found))?,
            None => completed.push(info)?,
        }
    }
    Ok(completed)
}
