//! Classes of the tables, by their numbers.

ghost use Rattle.std.specs.Prelude.{◌≡◌, ◌<◌, ◌&&◌, ◌||◌, ◌==◌, length, not, true, option_copied, IfSome};
ghost use Rattle.std.specs.List.{list_all};
ghost use Rattle.std.specs.Option.{option_map_or};
ghost use Rattle.nr_prog.specs.Members.{has_flag};
ghost use Rattle.nr_linked.specs.BuiltIns.{built_in};
ghost use Rattle.nr_linked.specs.Linked.{is_class_in, is_super_in};
ghost use Rattle.nr_linked.specs.Programs.{class_at, is_interface, super_of};
ghost use Rattle.nr_linked.specs.Slots.{slots_of};
ghost use Rattle.nr_linked.specs.Subtypes.{is_above};
ghost use Rattle.nr_links.specs.Rules.{is_final, is_final_class};
ghost use Rattle.nr_linked.specs.declared.program.built_in.BuiltIn.TheVariants as built_ins;
ghost use Rattle.nr_linkrules.specs.ClassRules.{has_final_above, has_kinds_above};

use nr_linked::{BuiltIn, ClassId, ClassInfo, ProgramTables, SlotInfo};

pub const ABSTRACT: u16 = 0x0400;

pub const PUBLIC: u16 = 0x0001;

pub const PRIVATE: u16 = 0x0002;

pub const STATIC: u16 = 0x0008;

pub const FINAL: u16 = 0x0010;

pub fn has_flag(flags: u16, flag: u16) -> bool
    ensures { result ≡ has_flag flag flags }
{
    flags & flag != 0
}

fn is_final_class(tables: &ProgramTables, class: ClassId) -> bool
    ensures { result ≡ is_final_class tables.now class }
{
    match tables.class_at(class) {
        Some(info) => has_flag(info.flags, FINAL),
        None => false,
    }
}

fn is_object(tables: &ProgramTables, class: ClassId) -> bool
    ensures { result ≡ (class == built_in tables.now built_ins.Object) }
{
    class as usize == tables.classes.len().saturating_sub(BuiltIn::COUNT)
}

fn is_super_in(tables: &ProgramTables, class: ClassId, above: ClassId) -> bool
    ensures { result ≡ is_super_in tables.now class above }
{
    (above as usize) < tables.classes.len()
        && !tables.is_interface(above)
        && (!tables.is_interface(class) || is_object(tables, above))
}

fn has_super_in(tables: &ProgramTables, class: ClassId, above: Option<ClassId>) -> bool
    ensures { result ≡ option_map_or (is_super_in tables.now class) above true }
{
    match above {
        Some(above) => is_super_in(tables, class, above),
        None => true,
    }
}

fn are_interfaces(tables: &ProgramTables, classes: &[ClassId]) -> bool
    ensures { result ≡ list_all (is_interface tables.now) classes.now }
{
    classes.iter().all(|class| tables.is_interface(*class))
}

/// Whether the class's superclass is a class, and that of an interface `java/lang/Object`, and its
/// superinterfaces are interfaces.
pub fn has_kinds_above(tables: &ProgramTables, class: ClassId, info: &ClassInfo) -> bool
    ensures { result ≡ has_kinds_above tables.now class info.now }
{
    has_super_in(tables, class, info.super_class)
        && are_interfaces(tables, info.interfaces.as_slice())
}

/// Whether the class's superclass is final.
pub fn has_final_above(tables: &ProgramTables, info: &ClassInfo) -> bool
    ensures { result ≡ has_final_above tables.now info.now }
{
    match info.super_class {
        Some(above) => is_final_class(tables, above),
        None => false,
    }
}

/// Whether the list of what stands above the class has this one.
pub fn is_above(tables: &ProgramTables, class: ClassId, above: ClassId) -> bool
    ensures { result ≡ is_above tables.now class above }
{
    match tables.class_at(class) {
        Some(info) => info.supers.as_slice().contains(&above),
        None => false,
    }
}

pub fn slots_of(tables: &ProgramTables, class: ClassId) -> &[SlotInfo]
    ensures { result.now ≡ slots_of tables.now class }
{
    match tables.class_at(class) {
        Some(info) => info.slots.as_slice(),
        None => &[],
    }
}
