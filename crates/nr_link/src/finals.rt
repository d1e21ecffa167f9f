//! Final methods, which no method below may hide (JVM Specification 5.4.2, 4.6).

ghost use Rattle.std.specs.Prelude.{◌≡◌, ◌∷◌, ◌++◌, ◌&&◌, ◌==◌, ◌<◌, ◌^◌, ◌-◌, [], not, length, map, IfOk, OnOk, IsOkUnless};
ghost use Rattle.std.specs.List.{filter, flat_map, list_any, range_with_len};
ghost use Rattle.nr_prog.specs.Members.{is_static};
ghost use Rattle.nr_linked.specs.Programs.{methods_of};
ghost use Rattle.nr_linked.specs.Selection.{is_private};
ghost use Rattle.nr_linkrules.specs.ClassRules.{hides_final, override_fault};
ghost use Rattle.nr_linkrules.specs.Faults.{Finds, first_of};
ghost use Rattle.nr_linkrules.specs.Reaches.{HasSteps, reaches, rows_of};
ghost use Rattle.nr_link.specs.Finals.{finals_in, finals_of, finals_with, hides_one, is_called_as, is_open_final, is_open_final_at};

use crate::above::copied;
use crate::closure::reaches;
use crate::gathering::push_if;
use crate::tables::{FINAL, PRIVATE, STATIC, has_flag};
use nr_base::{Items, Name};
use nr_linked::{ClassId, MethodInfo, ProgramTables};
use nr_linkrules::LinkFault;
use std::alloc::Global;
use std::ops::Range;

/// The final methods of a class that are neither static nor private, by their numbers.
#[derive(Debug, Drop)]
pub struct Finals {
    pub class: ClassId,
    pub methods: Items<usize>,
}

/// Whether the method is neither static nor private.
fn is_open(method: &MethodInfo) -> bool
    ensures { result ≡ (not (is_static method.now.flags) && not (is_private method.now.flags)) }
{
    !has_flag(method.flags, STATIC) && !has_flag(method.flags, PRIVATE)
}

fn is_open_final(method: &MethodInfo) -> bool
    ensures { result ≡ is_open_final method.now }
{
    is_open(method) && has_flag(method.flags, FINAL)
}

fn is_open_final_at(tables: &ProgramTables, method: usize) -> bool
    ensures { result ≡ is_open_final_at tables.now method }
{
    match tables.methods.as_slice().get(method) {
        Some(method) => is_open_final(method),
        None => false,
    }
}

#[tactic(auto, using(crate::proofs::Loops::keeps, crate::proofs::Loops::kept))]
fn finals_in(
    alloc: Global,
    tables: &ProgramTables,
    class: ClassId,
) -> Result<Items<usize>, LinkFault>
    ensures finals { IfOk result (λ finals. finals ≡ finals_in tables.now class) }
    ensures err { IsOkUnless result LinkFault.NoMemory }
{
    let mut finals = Items::new(alloc);
    let Range { start, end } = tables.methods_of(class);
    for method in start..end {
        push_if(&mut finals, is_open_final_at(tables, method), method)?;
    }
    Ok(finals)
}

/// Puts those of the class at the end of the list, where it has any.
fn push_finals(
    alloc: Global,
    tables: &ProgramTables,
    class: ClassId,
    finals: &mut Items<Finals>,
) -> Result<(), LinkFault>
    ensures added { OnOk result (finals.new ≡ finals.old ++ finals_with tables.now class) }
    ensures err { IsOkUnless result LinkFault.NoMemory }
{
    let methods = finals_in(alloc, tables, class)?;
    let has_any = !methods.is_empty();
    push_if(finals, has_any, Finals { class, methods })?;
    Ok(())
}

/// The methods that no method below may hide, of each class that has any.
#[tactic(auto, using(crate::proofs::Loops::gathers_up))]
pub fn finals_of(alloc: Global, tables: &ProgramTables) -> Result<Items<Finals>, LinkFault>
    requires few { length tables.now.classes < 2 ^ 32 }
    ensures finals { IfOk result (λ finals. finals ≡ finals_of tables.now) }
    ensures err { IsOkUnless result LinkFault.NoMemory }
{
    let mut finals = Items::new(alloc);
    for class in 0..tables.classes.len() as u32 {
        push_finals(alloc, tables, class, &mut finals)?;
    }
    Ok(finals)
}

fn is_called_as(tables: &ProgramTables, method: usize, as_this: &MethodInfo) -> bool
    ensures { result ≡ is_called_as tables.now as_this.now method }
{
    match tables.methods.as_slice().get(method) {
        Some(method) => {
            method.name.as_bytes() == as_this.name.as_bytes()
                && method.desc.as_bytes() == as_this.desc.as_bytes()
        }
        None => false,
    }
}

fn any_called_as(tables: &ProgramTables, methods: &[usize], as_this: &MethodInfo) -> bool
    ensures { result ≡ list_any (is_called_as tables.now as_this.now) methods.now }
{
    methods
        .iter()
        .any(|method| is_called_as(tables, *method, as_this))
}

/// Whether the method hides one of a class above.
fn hides_one(
    tables: &ProgramTables,
    rows: &[Items<bool>],
    finals: &Finals,
    method: &MethodInfo,
) -> bool
    requires rows { rows.now ≡ rows_of tables.now (length tables.now.classes) }
    requires steps { HasSteps tables.now }
    ensures { result ≡ hides_one tables.now method.now finals.now }
{
    finals.class != method.class
        && reaches(tables, rows, method.class, finals.class)
        && any_called_as(tables, finals.methods.as_slice(), method)
}

fn hides_any(
    tables: &ProgramTables,
    rows: &[Items<bool>],
    finals: &[Finals],
    method: &MethodInfo,
) -> bool
    requires rows { rows.now ≡ rows_of tables.now (length tables.now.classes) }
    requires steps { HasSteps tables.now }
    ensures { result ≡ list_any (hides_one tables.now method.now) finals.now }
{
    finals
        .iter()
        .any(|finals| hides_one(tables, rows, finals, method))
}

/// Whether the method hides a final one of a class above.
#[tactic(auto, using(crate::proofs::Hiding::selects_itself, crate::proofs::Hiding::hides_by_lists))]
fn hides_final(
    tables: &ProgramTables,
    rows: &[Items<bool>],
    finals: &[Finals],
    method: &MethodInfo,
) -> bool
    requires rows { rows.now ≡ rows_of tables.now (length tables.now.classes) }
    requires steps { HasSteps tables.now }
    requires finals { finals.now ≡ finals_of tables.now }
    ensures { result ≡ hides_final tables.now method.now }
{
    is_open(method) && hides_any(tables, rows, finals, method)
}

#[tactic(auto, unfolding(nr_linkrules::specs::ClassRules::override_fault))]
fn check_override(
    tables: &ProgramTables,
    rows: &[Items<bool>],
    finals: &[Finals],
    name: &Name,
    method: usize,
) -> Result<(), LinkFault>
    requires rows { rows.now ≡ rows_of tables.now (length tables.now.classes) }
    requires steps { HasSteps tables.now }
    requires finals { finals.now ≡ finals_of tables.now }
    ensures { Finds result (override_fault tables.now name.now method) }
{
    let Some(info) = tables.methods.as_slice().get(method) else {
        return Ok(());
    };
    if hides_final(tables, rows, finals, info) {
        let name = copied(name)?;
        return Err(LinkFault::FinalOverride(name, info.method_name()?));
    }
    Ok(())
}

/// Looks whether a method of the class hides a final one.
#[tactic(auto, using(crate::proofs::Walks::goes_on_up, crate::proofs::Walks::ends_up))]
pub fn check_overrides(
    tables: &ProgramTables,
    rows: &[Items<bool>],
    finals: &[Finals],
    name: &Name,
    class: ClassId,
) -> Result<(), LinkFault>
    requires rows { rows.now ≡ rows_of tables.now (length tables.now.classes) }
    requires steps { HasSteps tables.now }
    requires finals { finals.now ≡ finals_of tables.now }
    ensures { Finds result (first_of (override_fault tables.now name.now) (methods_of tables.now class)) }
{
    let Range { start, end } = tables.methods_of(class);
    for method in start..end {
        check_override(tables, rows, finals, name, method)?;
    }
    Ok(())
}
