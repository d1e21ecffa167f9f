//! The classes and arrays that a constant pool names.

ghost use Rattle.std.specs.Prelude.{◌≡◌, ◌<◌, ◌^◌, Some, length, option_copied};
ghost use Rattle.std.specs.Option.{option_and_then, option_map};
ghost use Rattle.nr_base.specs.Clauses.{GivesWhole};
ghost use Rattle.nr_base.specs.ModifiedUtf8.{IsModifiedUtf8};
ghost use Rattle.nr_prog.specs.BodyNames.{NamesAnyClass, class_text_at};
ghost use Rattle.nr_prog.specs.TextForms.{class_desc, form_of};
ghost use Rattle.nr_linkrules.specs.Faults.{is_free};
ghost use Rattle.nr_linkrules.specs.Layout.{kind_of};
ghost use Rattle.nr_linkrules.specs.SiteRules.{class_bytes, class_in_base, class_named_by, kind_at};
ghost use Rattle.nr_prog.specs.Pool.{text_at};
ghost use Rattle.nr_link.specs.Coded.{read_class};
ghost use Rattle.nr_link.specs.Lookups.{IsIndexed};
ghost use Rattle.nr_link.specs.Meanings.{meanings_of};

use crate::lookup::{Lookup, kept_of};
use crate::meanings::{Meaning, meaning_at};
use crate::names::{class_bytes, name_of};
use nr_base::{Desc, DescBase};
use nr_linked::{ClassId, Kind, ProgramTables};
use nr_linkrules::LinkFault;
use nr_prog::{Class, PoolEntry, TextForm};
use std::alloc::Global;

/// What the bytes spell that name the class at the index.
#[tactic(auto, unfolding(nr_prog::specs::BodyNames::class_text_at, nr_prog::specs::TextForms::form_at))]
fn class_form(class: &Class, index: u16) -> Option<&TextForm>
    ensures { option_copied result ≡ option_map form_of (class_text_at class.now.pool index) }
{
    match class.entry(index) {
        Some(PoolEntry::Class(name)) => class.form(*name),
        _ => None,
    }
}

/// The class or the array that the entry at the index names, where its bytes name one (JVM
/// Specification 4.4.1).
#[tactic(auto, using(crate::proofs::ClassTexts::none_told, crate::proofs::ClassTexts::class_told))]
fn class_desc(class: &Class, index: u16) -> Option<&Desc>
    requires { NamesAnyClass class.now.pool index }
    ensures { option_copied result ≡ class_desc (class_bytes class.now.pool index) }
{
    let form = class_form(class, index)?;
    Some(form.class.as_ref()?.get())
}

fn class_in_base<'a>(bytes: &'a [u8], base: &'a DescBase) -> &'a [u8]
    requires name { IsModifiedUtf8 bytes.now }
    requires short { length bytes.now < 2 ^ 16 }
    ensures value { result.now ≡ class_in_base bytes.now base.now }
    ensures name { IsModifiedUtf8 result.now }
    ensures short { length result.now < 2 ^ 16 }
{
    match base {
        DescBase::Object(name) => name.as_bytes(),
        _ => bytes,
    }
}

/// The name of the class that the entry at the index names, which for an array is that of its
/// elements; where its bytes name none, the bytes themselves.
#[tactic(auto, using(crate::proofs::ClassTexts::bytes_are_name, crate::proofs::ClassTexts::named_by), unfolding(nr_linkrules::specs::SiteRules::class_named_by))]
fn class_named(class: &Class, index: u16) -> &[u8]
    requires { NamesAnyClass class.now.pool index }
    ensures value { result.now ≡ class_named_by (class_bytes class.now.pool index) }
    ensures name { IsModifiedUtf8 result.now }
    ensures short { length result.now < 2 ^ 16 }
{
    let bytes = class_bytes(class, index);
    match class_desc(class, index) {
        Some(desc) => class_in_base(bytes, &desc.base),
        None => bytes,
    }
}

/// The kind that the text at an index names, by what the texts of the constant pool mean.
#[tactic(auto, using(crate::proofs::Meant::named_by, crate::proofs::Meant::named_by_none))]
fn named_at(
    tables: &ProgramTables,
    class: &Class,
    meanings: &[Option<Meaning>],
    text: u16,
) -> Option<Kind>
    requires { meanings.now ≡ meanings_of tables.now class.now.pool }
    ensures { result ≡ option_and_then (λ text. option_and_then (kind_of tables.now) (class_desc text)) (text_at class.now.pool text) }
{
    match meaning_at(tables, class, meanings, text) {
        Some(meaning) => meaning.named,
        None => None,
    }
}

/// The kind that the text at an index of the class's constant pool names.
#[tactic(auto, using(crate::proofs::Meant::meant_here, crate::proofs::Looked::read_within))]
fn kind_meant(
    tables: &ProgramTables,
    lookup: &Lookup,
    own: ClassId,
    class: &Class,
    text: u16,
) -> Option<Kind>
    requires indexed { IsIndexed tables.now lookup.now }
    requires here { Some class.now ≡ read_class tables.now own }
    ensures { result ≡ option_and_then (λ text. option_and_then (kind_of tables.now) (class_desc text)) (text_at class.now.pool text) }
{
    match kept_of(tables, lookup, own) {
        Some(kept) => named_at(tables, class, kept.meanings.as_slice(), text),
        None => None,
    }
}

#[tactic(auto, using(crate::proofs::ClassTexts::kind_of_text), unfolding(nr_prog::specs::BodyNames::class_text_at))]
fn class_kind(
    tables: &ProgramTables,
    lookup: &Lookup,
    own: ClassId,
    class: &Class,
    index: u16,
) -> Option<Kind>
    requires indexed { IsIndexed tables.now lookup.now }
    requires here { Some class.now ≡ read_class tables.now own }
    requires named { NamesAnyClass class.now.pool index }
    ensures { result ≡ option_and_then (kind_of tables.now) (class_desc (class_bytes class.now.pool index)) }
{
    match class.entry(index) {
        Some(PoolEntry::Class(name)) => kind_meant(tables, lookup, own, class, *name),
        _ => None,
    }
}

/// The kind that the entry at the index names. `own` is the class's number.
///
/// # Errors
///
/// `NoClass` where the program has no such class, or the bytes name none; `NoMemory` for want of
/// memory.
pub fn kind_at(
    alloc: Global,
    tables: &ProgramTables,
    lookup: &Lookup,
    own: ClassId,
    class: &Class,
    index: u16,
) -> Result<Kind, LinkFault>
    requires indexed { IsIndexed tables.now lookup.now }
    requires here { Some class.now ≡ read_class tables.now own }
    requires named { NamesAnyClass class.now.pool index }
    ensures { GivesWhole is_free result (kind_at tables.now class.now.pool index) }
{
    match class_kind(tables, lookup, own, class, index) {
        Some(kind) => Ok(kind),
        None => Err(LinkFault::NoClass(name_of(alloc, class_named(class, index))?)),
    }
}
