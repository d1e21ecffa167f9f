//! Methods that instructions name.

ghost use Rattle.std.specs.Prelude.{◌≡◌, Some, false, ℕ, IfSome};
ghost use Rattle.std.specs.Option.{option_map_or};
ghost use Rattle.nr_base.specs.Clauses.{GivesWhole};
ghost use Rattle.nr_instrs.specs.Checks.{then_on};
ghost use Rattle.nr_prog.specs.BodyNames.{NamesAnyClass};
ghost use Rattle.nr_prog.specs.Pool.{entry_at};
ghost use Rattle.nr_linked.specs.Initialisers.{is_initialiser};
ghost use Rattle.nr_linked.specs.Programs.{method_at};
ghost use Rattle.nr_linkrules.specs.Faults.{is_free};
ghost use Rattle.nr_linkrules.specs.SiteRules.{Place as SpecPlace, by_member, callable, can_call, method_found, no_method, on_entry, on_member, or_fault, place_in};
ghost use Rattle.nr_link.specs.Naming.{IsMemberNamed};
ghost use Rattle.nr_link.specs.Coded.{read_class};
ghost use Rattle.nr_link.specs.Lookups.{IsIndexed, IsSought};
ghost use Rattle.nr_names.specs.Numbers.{texts};

use super::member::sought_at;
use super::place::{Place, member_at, place_of};
use super::slots::class_with_members;
use crate::lookup::{Lookup, Sought};
use crate::methods::resolved_method;
use crate::named::kind_at;
use crate::tables::{STATIC, has_flag, is_above};
use nr_linked::{ClassId, Kind, MethodId, MethodInfo, ProgramTables, Resolved};
use nr_linkrules::LinkFault;
use nr_prog::Class;
use std::alloc::Global;

/// The code of invokespecial (JVM Specification 6.5).
const INVOKESPECIAL: u8 = 183;

/// The code of invokestatic.
const INVOKESTATIC: u8 = 184;

/// The code of invokeinterface.
const INVOKEINTERFACE: u8 = 185;

fn is_initialiser(info: &MethodInfo) -> bool
    ensures { result ≡ is_initialiser info.now }
{
    info.name.as_bytes() == b"<init>".as_slice()
}

/// Whether the instruction of this code, in a method of class `own`, can call the method, of which it
/// names the class.
fn can_call(
    tables: &ProgramTables,
    own: ClassId,
    code: u8,
    class: ClassId,
    callee: &MethodInfo,
) -> bool
    ensures { result ≡ can_call tables.now own code class callee.now }
{
    tables.is_interface(class) == (code == INVOKEINTERFACE)
        && has_flag(callee.flags, STATIC) == (code == INVOKESTATIC)
        && (!is_initialiser(callee) || code == INVOKESPECIAL)
        && (code != INVOKESPECIAL || is_initialiser(callee) || is_above(tables, own, class))
}

fn is_callable(
    tables: &ProgramTables,
    own: ClassId,
    code: u8,
    class: ClassId,
    method: MethodId,
) -> bool
    ensures { result ≡ option_map_or (can_call tables.now own code class) (method_at tables.now method) false }
{
    match tables.method_at(method) {
        Some(callee) => can_call(tables, own, code, class, callee),
        None => false,
    }
}

/// The method of the class or the array, with the class that has it. An array has no initialiser.
fn method_named(
    tables: &ProgramTables,
    lookup: &Lookup,
    sought: &Sought,
    kind: Kind,
) -> Option<(MethodId, ClassId)>
    requires indexed { IsIndexed tables.now lookup.now }
    requires sought { IsSought (texts lookup.now.texts) sought.now }
    ensures { (p : SpecPlace) (code : ℕ) → method_found tables.now p code sought.now.name.now sought.now.desc.now kind ≡ then_on (or_fault (no_method p) result) (λ m. callable tables.now p code m.1 m.0) }
{
    let class = class_with_members(tables, kind)?;
    if kind.dims > 0 && sought.name == b"<init>".as_slice() {
        return None;
    }
    let method = resolved_method(tables, lookup, sought, class)?;
    Some((method, class))
}

/// The method that a call with this code names, by its class and its member.
fn call_of_member(
    alloc: Global,
    tables: &ProgramTables,
    lookup: &Lookup,
    info: &MethodInfo,
    class: &Class,
    at: u16,
    code: u8,
    named: u16,
    member: u16,
) -> Result<Resolved, LinkFault>
    requires indexed { IsIndexed tables.now lookup.now }
    requires here { Some class.now ≡ read_class tables.now info.now.«class» }
    requires named { NamesAnyClass class.now.pool named }
    ensures { GivesWhole is_free result (on_member tables.now class.now.pool (method_found tables.now (place_in tables.now info.now at) code) named member) }
{
    let kind = kind_at(alloc, tables, lookup, info.class, class, named)?;
    let sought = sought_at(tables, lookup, info.class, class, member);
    match method_named(tables, lookup, &sought, kind) {
        Some((method, holder)) if is_callable(tables, info.class, code, holder, method) => {
            Ok(Resolved::Method(method, holder))
        }
        Some(_) => {
            let Place { class, method, at } = place_of(alloc, tables, info, at)?;
            Err(LinkFault::MemberKind(class, method, at))
        }
        None => {
            let Place { class, method, at } = place_of(alloc, tables, info, at)?;
            Err(LinkFault::NoMethod(class, method, at))
        }
    }
}

/// The method that the reference at the index names, for a call with this code.
pub fn find_call(
    alloc: Global,
    tables: &ProgramTables,
    lookup: &Lookup,
    info: &MethodInfo,
    class: &Class,
    at: u16,
    code: u8,
    index: u16,
) -> Result<Resolved, LinkFault>
    requires indexed { IsIndexed tables.now lookup.now }
    requires here { Some class.now ≡ read_class tables.now info.now.«class» }
    requires named { IfSome (entry_at class.now.pool index) (IsMemberNamed class.now.pool) }
    ensures { GivesWhole is_free result (on_entry (by_member tables.now class.now.pool (method_found tables.now (place_in tables.now info.now at) code)) class.now.pool index) }
{
    match member_at(class, index) {
        Some((named, member)) => {
            call_of_member(alloc, tables, lookup, info, class, at, code, named, member)
        }
        None => Ok(Resolved::Nothing),
    }
}
