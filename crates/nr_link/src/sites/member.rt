//! The members that instructions name, to be looked for.

ghost use Rattle.std.specs.Prelude.{◌≡◌, Some, IfSome};
ghost use Rattle.nr_prog.specs.BodyNames.{desc_text_at};
ghost use Rattle.nr_names.specs.Numbers.{number_in, texts};
ghost use Rattle.nr_links.specs.Named.{name_text_at};
ghost use Rattle.nr_linkrules.specs.Outline.{some_text};
ghost use Rattle.nr_link.specs.Coded.{read_class};
ghost use Rattle.nr_link.specs.Lookups.{IsIndexed, IsSought};

use super::place::{member_desc, member_name};
use crate::lookup::{Lookup, Sought, kept_of};
use nr_linked::{ClassId, ProgramTables};
use nr_names::number_at;
use nr_prog::{Class, PoolEntry};

/// The numbers of a member's name and its descriptor, where both have one.
#[tactic(auto, using(nr_names::proofs::Numbering::numbered_at, crate::proofs::Looked::numbers_here, crate::proofs::Looked::number_told), unfolding(nr_prog::specs::BodyNames::desc_text_at))]
fn numbers_of(
    tables: &ProgramTables,
    lookup: &Lookup,
    own: ClassId,
    class: &Class,
    member: u16,
) -> Option<(u32, u32)>
    requires indexed { IsIndexed tables.now lookup.now }
    requires here { Some class.now ≡ read_class tables.now own }
    ensures { IfSome result (λ p. (number_in (texts lookup.now.texts) (some_text (name_text_at class.now.pool member)) ≡ Some p.0) × (number_in (texts lookup.now.texts) (some_text (desc_text_at class.now.pool member)) ≡ Some p.1)) }
{
    let kept = kept_of(tables, lookup, own)?;
    let numbers = kept.numbers.as_slice();
    match class.entry(member) {
        Some(PoolEntry::NameAndType(name, desc)) => {
            Some((number_at(numbers, *name)?, number_at(numbers, *desc)?))
        }
        _ => None,
    }
}

/// The member that a reference names, where `own` is the number of the class.
pub fn sought_at<'a>(
    tables: &ProgramTables,
    lookup: &Lookup,
    own: ClassId,
    class: &'a Class,
    member: u16,
) -> Sought<'a>
    requires indexed { IsIndexed tables.now lookup.now }
    requires here { Some class.now ≡ read_class tables.now own }
    ensures name { result.name.now ≡ some_text (name_text_at class.now.pool member) }
    ensures desc { result.desc.now ≡ some_text (desc_text_at class.now.pool member) }
    ensures sought { IsSought (texts lookup.now.texts) result }
{
    Sought {
        name: member_name(class, member),
        desc: member_desc(class, member),
        numbers: numbers_of(tables, lookup, own, class, member),
    }
}
