//! Where an instruction stands, and what it names.

ghost use Rattle.std.specs.Prelude.{◌≡◌, IfOk, IfSome, IsOkUnless, Ok};
ghost use Rattle.std.specs.Option.{option_map_or};
ghost use Rattle.nr_prog.specs.BodyNames.{NamesAnyClass, desc_text_at};
ghost use Rattle.nr_prog.specs.Pool.{entry_at};
ghost use Rattle.nr_linked.specs.declared.program.tables.ProgramTables.{ProgramTables as Tables};
ghost use Rattle.nr_linked.specs.declared.program.tables.Resolved.TheVariants as resolved;
ghost use Rattle.nr_linked.specs.KindTexts.{class_name};
ghost use Rattle.nr_links.specs.Named.{name_text_at};
ghost use Rattle.nr_linkrules.specs.ClassRules.{method_name};
ghost use Rattle.nr_linkrules.specs.Outline.{some_text};
ghost use Rattle.nr_linkrules.specs.SiteRules.{Search, by_member, on_entry, on_member};
ghost use Rattle.nr_link.specs.Naming.{IsMemberNamed};

use crate::above::copied;
use crate::names::{name_of, text_bytes};
use nr_base::Name;
use nr_linked::{ClassId, MethodInfo, MethodName, ProgramTables};
use nr_linkrules::LinkFault;
use nr_prog::{Class, PoolEntry};
use std::alloc::Global;

/// A class, a method of it, and the offset of an instruction in the method's code.
pub struct Place {
    pub class: Name,
    pub method: MethodName,
    pub at: u32,
}

fn class_name(alloc: Global, tables: &ProgramTables, class: ClassId) -> Result<Name, LinkFault>
    ensures name { IfOk result (λ name. name ≡ class_name tables.now class) }
    ensures err { IsOkUnless result LinkFault.NoMemory }
{
    match tables.class_at(class) {
        Some(info) => copied(&info.name),
        None => name_of(alloc, &[]),
    }
}

/// The place of the instruction at an offset, for a fault. The error comes only for want of memory.
pub fn place_of(
    alloc: Global,
    tables: &ProgramTables,
    info: &MethodInfo,
    at: u16,
) -> Result<Place, LinkFault>
    ensures name { IfOk result (λ place. place.«class» ≡ class_name tables.now info.now.«class») }
    ensures method { IfOk result (λ place. place.method ≡ method_name info.now) }
    ensures at { IfOk result (λ place. place.at ≡ at) }
    ensures err { IsOkUnless result LinkFault.NoMemory }
{
    Ok(Place {
        class: class_name(alloc, tables, info.class)?,
        method: info.method_name()?,
        at: u32::from(at),
    })
}

/// The class and the member that the reference at the index names, by their indices.
pub fn member_at(class: &Class, index: u16) -> Option<(u16, u16)>
    ensures named { IfSome (entry_at class.now.pool index) (IsMemberNamed class.now.pool) → IfSome result (λ m. NamesAnyClass class.now.pool m.0) }
    ensures found { (P : Tables) (search_in : Search) → on_entry (by_member P class.now.pool search_in) class.now.pool index ≡ option_map_or (λ m. on_member P class.now.pool search_in m.0 m.1) result (Ok resolved.Nothing) }
{
    match class.entry(index)? {
        PoolEntry::FieldRef(named, member)
        | PoolEntry::MethodRef(named, member)
        | PoolEntry::InterfaceMethodRef(named, member) => Some((*named, *member)),
        _ => None,
    }
}

/// The name of a member; none where no name and descriptor stand at the index.
#[tactic(auto, unfolding(nr_prog::specs::BodyNames::desc_text_at))]
pub fn member_name(class: &Class, member: u16) -> &[u8]
    ensures { result.now ≡ some_text (name_text_at class.now.pool member) }
{
    match class.entry(member) {
        Some(PoolEntry::NameAndType(name, _)) => text_bytes(class, *name),
        _ => &[],
    }
}

/// The descriptor of a member, likewise.
#[tactic(auto, unfolding(nr_prog::specs::BodyNames::desc_text_at))]
pub fn member_desc(class: &Class, member: u16) -> &[u8]
    ensures { result.now ≡ some_text (desc_text_at class.now.pool member) }
{
    match class.entry(member) {
        Some(PoolEntry::NameAndType(_, desc)) => text_bytes(class, *desc),
        _ => &[],
    }
}
