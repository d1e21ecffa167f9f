//! To which field a reference resolves (JVM Specification 5.4.3.2).

ghost use Rattle.std.specs.Prelude.{◌≡◌, ◌<◌, ◌≤◌, ◌&&◌, ◌^◌, [], length, find, not, true, false, option_copied, IfSome, ℕ};
ghost use Rattle.std.specs.List.{list_any};
ghost use Rattle.std.specs.Option.{option_map_or};
ghost use Rattle.std.specs.Str.{bytes_eq};
ghost use Rattle.nr_prog.specs.Members.{is_in, is_spelled, spells};
ghost use Rattle.nr_linked.specs.Programs.{class_at, super_of};
ghost use Rattle.nr_linked.specs.Subtypes.{Above};
ghost use Rattle.nr_links.specs.Resolution.{declares_field, field_class, field_classes, has_field};
ghost use Rattle.nr_linkrules.specs.Reaches.{HasSteps, reaches, rows_of};
ghost use Rattle.nr_link.specs.Barren.{IsBarren};
ghost use Rattle.nr_link.specs.Coded.{read_class};
ghost use Rattle.nr_link.specs.Lookups.{IsIndexed, IsSought, field_keys};
ghost use Rattle.nr_names.specs.Numbers.{texts};
ghost use Rattle.nr_names.specs.Tables.{has_key};

use crate::closure::reaches;
use crate::lookup::{Lookup, Sought, kept_of, key_in};
use crate::superinterfaces::interfaces_of;
use nr_linked::{ClassId, ProgramTables};
use nr_names::Key;
use nr_prog::{Class, Field};

/// Whether the index names this text.
#[tactic(auto, unfolding(nr_prog::specs::Members::spells))]
fn spells(class: &Class, index: u16, text: &[u8]) -> bool
    ensures { result ≡ spells (bytes_eq text.now) class.now.pool index }
{
    match class.text(index) {
        Some(there) => text == there,
        None => false,
    }
}

#[tactic(auto, unfolding(nr_prog::specs::Members::is_spelled))]
fn is_called(class: &Class, field: &Field, name: &[u8], desc: &[u8]) -> bool
    ensures { result ≡ is_spelled class.now.pool name.now desc.now field.now.name field.now.desc }
{
    spells(class, field.name, name) && spells(class, field.desc, desc)
}

#[tactic(auto, unfolding(nr_prog::specs::Members::is_in))]
fn has_field(class: &Class, name: &[u8], desc: &[u8]) -> bool
    ensures { result ≡ has_field name.now desc.now class.now }
{
    class
        .parts()
        .fields
        .as_slice()
        .iter()
        .any(|field| is_called(class, field, name, desc))
}

/// Whether the class declares the field, by the texts.
fn declares_by_texts(tables: &ProgramTables, name: &[u8], desc: &[u8], class: ClassId) -> bool
    ensures { result ≡ declares_field tables.now name.now desc.now class }
{
    match tables.class_at(class) {
        Some(info) => match &info.read {
            Some(read) => has_field(read, name, desc),
            None => false,
        },
        None => false,
    }
}

/// Whether the class declares a field of the key.
#[tactic(auto, using(crate::proofs::Looked::any_listed, crate::proofs::Looked::no_read))]
fn declares_key(tables: &ProgramTables, lookup: &Lookup, class: ClassId, key: Key) -> bool
    requires indexed { IsIndexed tables.now lookup.now }
    ensures { result ≡ option_map_or (λ parts. list_any (has_key key) (field_keys (texts lookup.now.texts) class parts)) (read_class tables.now class) false }
{
    match kept_of(tables, lookup, class) {
        Some(kept) => kept.fields.get(key).is_some(),
        None => false,
    }
}

#[tactic(auto, using(crate::proofs::Looked::field_told))]
fn declares_field(tables: &ProgramTables, lookup: &Lookup, sought: &Sought, class: ClassId) -> bool
    requires indexed { IsIndexed tables.now lookup.now }
    requires sought { IsSought (texts lookup.now.texts) sought.now }
    ensures { result ≡ declares_field tables.now sought.now.name.now sought.now.desc.now class }
{
    match key_in(sought, class) {
        Some(key) => declares_key(tables, lookup, class, key),
        None => declares_by_texts(tables, sought.name, sought.desc, class),
    }
}

/// Whether a class at or above the class declares the field. It may also answer true elsewhere.
#[tactic(auto, using(crate::proofs::Resolving::barren))]
fn may_find(tables: &ProgramTables, lookup: &Lookup, sought: &Sought, class: ClassId) -> bool
    requires indexed { IsIndexed tables.now lookup.now }
    requires sought { IsSought (texts lookup.now.texts) sought.now }
    ensures { result ≡ false → IsBarren tables.now (declares_field tables.now sought.now.name.now sought.now.desc.now) class }
{
    if class as usize >= tables.classes.len() {
        return true;
    }
    for above in 0..tables.classes.len() as u32 {
        if reaches(tables, lookup.rows, class, above)
            && declares_field(tables, lookup, sought, above)
        {
            return true;
        }
    }
    false
}

/// The first class that declares the field, at most `left` steps up from the class.
fn find_field(
    tables: &ProgramTables,
    lookup: &Lookup,
    sought: &Sought,
    left: usize,
    class: ClassId,
) -> Option<ClassId>
    requires indexed { IsIndexed tables.now lookup.now }
    requires sought { IsSought (texts lookup.now.texts) sought.now }
    ensures { result ≡ find (declares_field tables.now sought.now.name.now sought.now.desc.now) (field_classes tables.now left class) }
{
    if left == 0 {
        return None;
    }
    if declares_field(tables, lookup, sought, class) {
        return Some(class);
    }
    for above in interfaces_of(tables, lookup.lists.as_slice(), class) {
        if may_find(tables, lookup, sought, *above) {
            if let Some(found) = find_field(tables, lookup, sought, left - 1, *above) {
                return Some(found);
            }
        }
    }
    match tables.super_of(class) {
        Some(above) => find_field(tables, lookup, sought, left - 1, above),
        None => None,
    }
}

/// The class that declares the field to which a reference to the class resolves.
pub fn field_class(
    tables: &ProgramTables,
    lookup: &Lookup,
    sought: &Sought,
    class: ClassId,
) -> Option<ClassId>
    requires indexed { IsIndexed tables.now lookup.now }
    requires sought { IsSought (texts lookup.now.texts) sought.now }
    ensures { result ≡ field_class tables.now class sought.now.name.now sought.now.desc.now }
{
    find_field(tables, lookup, sought, tables.classes.len(), class)
}
