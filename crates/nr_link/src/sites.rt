//! What linking finds for an instruction (JVM Specification 5.4.3 and 6.5).

ghost use Rattle.std.specs.Prelude.{◌≡◌, not, ◌&&◌, false, Ok, Some};
ghost use Rattle.std.specs.Option.{option_map_or};
ghost use Rattle.nr_base.specs.Clauses.{GivesWhole};
ghost use Rattle.nr_instrs.specs.Checks.{then_on};
ghost use Rattle.nr_prog.specs.BodyNames.{NamesAnyClass};
ghost use Rattle.nr_linked.specs.Kinds.{class_in, is_array};
ghost use Rattle.nr_linked.specs.TypingFacts.{is_makeable};
ghost use Rattle.nr_links.specs.Found.{index_in};
ghost use Rattle.nr_linkrules.specs.Faults.{is_free};
ghost use Rattle.nr_linkrules.specs.SiteRules.{constant_found, found_by, instr_found, kind_at, made_found, on_entry, place_in};
ghost use Rattle.nr_link.specs.Coded.{read_class};
ghost use Rattle.nr_link.specs.Lookups.{IsIndexed};
ghost use Rattle.nr_link.specs.Naming.{HasNames, IsNamedBy};

mod calls;
mod member;
mod place;
mod slots;

use crate::lookup::Lookup;
use crate::named::kind_at;
use crate::tables::{ABSTRACT, has_flag};
use calls::find_call;
use nr_linked::{Base, ClassId, Kind, MethodInfo, ProgramTables, Resolved};
use nr_linkrules::LinkFault;
use nr_optable::Family;
use nr_prog::{Args, Class, Instr, PoolEntry};
use place::{Place, place_of};
use slots::find_slot;
use std::alloc::Global;

/// The index of the constant pool among the operands.
fn index_in(args: &Args) -> Option<u16>
    ensures { result ≡ index_in args.now }
{
    match args {
        Args::Pool(index) | Args::Dims(index, _) => Some(*index),
        _ => None,
    }
}

fn constant(class: &Class, index: u16) -> Resolved
    ensures { on_entry constant_found class.now.pool index ≡ Ok result }
{
    match class.entry(index) {
        Some(PoolEntry::Integer(number)) => Resolved::Int(*number),
        Some(PoolEntry::Long(number)) => Resolved::Long(*number),
        _ => Resolved::Nothing,
    }
}

fn is_makeable(tables: &ProgramTables, class: ClassId) -> bool
    ensures { result ≡ is_makeable tables.now class }
{
    match tables.class_at(class) {
        Some(info) => !has_flag(info.flags, ABSTRACT) && !tables.is_interface(class),
        None => false,
    }
}

/// Whether `new` can make an object of the kind.
fn can_make(tables: &ProgramTables, kind: Kind) -> bool
    ensures { result ≡ (not (is_array kind) && option_map_or (is_makeable tables.now) (class_in kind.base) false) }
{
    match kind.base {
        Base::Object(class) => kind.dims == 0 && is_makeable(tables, class),
        _ => false,
    }
}

/// The class of which `new` makes an object.
fn find_made(
    alloc: Global,
    tables: &ProgramTables,
    lookup: &Lookup,
    info: &MethodInfo,
    class: &Class,
    at: u16,
    index: u16,
) -> Result<Resolved, LinkFault>
    requires indexed { IsIndexed tables.now lookup.now }
    requires here { Some class.now ≡ read_class tables.now info.now.«class» }
    requires named { NamesAnyClass class.now.pool index }
    ensures { GivesWhole is_free result (then_on (kind_at tables.now class.now.pool index) (made_found tables.now (place_in tables.now info.now at))) }
{
    let kind = kind_at(alloc, tables, lookup, info.class, class, index)?;
    if can_make(tables, kind) {
        return Ok(Resolved::Kind(kind));
    }
    let Place { class, method, at } = place_of(alloc, tables, info, at)?;
    Err(LinkFault::NotMakeable(class, method, at))
}

/// What the entry at the index is found to be, by the family of the instruction that names it.
fn find_by(
    alloc: Global,
    tables: &ProgramTables,
    lookup: &Lookup,
    info: &MethodInfo,
    class: &Class,
    instr: &Instr,
    index: u16,
) -> Result<Resolved, LinkFault>
    requires indexed { IsIndexed tables.now lookup.now }
    requires here { Some class.now ≡ read_class tables.now info.now.«class» }
    requires named { IsNamedBy class.now.pool index instr.now.row.family }
    ensures { GivesWhole is_free result (found_by tables.now (place_in tables.now info.now instr.now.at) class.now.pool instr.now.row.code index instr.now.row.family) }
{
    let at = instr.at;
    let code = instr.row.code;
    match instr.row.family {
        Family::F8 => Ok(constant(class, index)),
        Family::F30 | Family::F31 => find_slot(alloc, tables, lookup, info, class, at, index),
        Family::F32 => find_call(alloc, tables, lookup, info, class, at, code, index),
        Family::F33 => find_made(alloc, tables, lookup, info, class, at, index),
        Family::F34 | Family::F37 => {
            Ok(Resolved::Kind(kind_at(alloc, tables, lookup, info.class, class, index)?))
        }
        _ => Ok(Resolved::Nothing),
    }
}

/// What linking finds for an instruction of a method of the class.
///
/// # Errors
///
/// The first of these: `NoClass` where the program has no class that the instruction names; `NoField`
/// and `NoMethod` where the class has no such member; `MemberKind` where the instruction can't call the
/// method, `NotMakeable` where it can't make an object of the class; `NoMemory` for want of memory.
#[tactic(auto, unfolding(nr_linkrules::specs::SiteRules::instr_found))]
pub fn find(
    alloc: Global,
    tables: &ProgramTables,
    lookup: &Lookup,
    info: &MethodInfo,
    class: &Class,
    instr: &Instr,
) -> Result<Resolved, LinkFault>
    requires indexed { IsIndexed tables.now lookup.now }
    requires here { Some class.now ≡ read_class tables.now info.now.«class» }
    requires named { HasNames class.now.pool instr.now }
    ensures { GivesWhole is_free result (instr_found tables.now (place_in tables.now info.now) class.now.pool instr.now) }
{
    match index_in(&instr.args) {
        Some(index) => find_by(alloc, tables, lookup, info, class, instr, index),
        None => Ok(Resolved::Nothing),
    }
}
