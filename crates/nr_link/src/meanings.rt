//! What the texts of a constant pool mean in the program.

ghost use Rattle.std.specs.Prelude.{◌≡◌, ◌<◌, ◌^◌, true, length, is_none, IfOk, IsOkUnless, option_copied};
ghost use Rattle.std.specs.List.{list_all};
ghost use Rattle.std.specs.Option.{option_and_then, option_map, option_map_or};
ghost use Rattle.nr_prog.specs.BodyNames.{class_text_at};
ghost use Rattle.nr_prog.specs.Pool.{text_at};
ghost use Rattle.nr_prog.specs.TextForms.{class_desc};
ghost use Rattle.nr_linkrules.specs.ClassRules.{desc_fault, types_in};
ghost use Rattle.nr_linkrules.specs.Faults.{first_of};
ghost use Rattle.nr_linkrules.specs.Layout.{kind_of};
ghost use Rattle.nr_link.specs.Meanings.{all_meanings, class_meanings, is_known, is_whole, meaning_of, meanings_of};
ghost use Rattle.nr_link.specs.Seen.{IsNamesOf};

use crate::code::read_class;
use crate::kinds::{kind_of, kind_said};
use indexmap::IndexSet;
use nr_base::{Desc, DescBase, DescFault, Items, MethodDesc};
use nr_linked::{ClassId, Kind, ProgramTables};
use nr_linkrules::LinkFault;
use nr_names::{listed, number};
use nr_prog::Class;
use std::alloc::Global;

/// What a text means in the program, whatever it is used for.
#[derive(Debug, Drop)]
pub struct Meaning {
    /// The class or the array that it names (JVM Specification 4.4.1), where the program has its class.
    pub named: Option<Kind>,
    /// The kind whose descriptor it is (4.3.2), where the program has its class.
    pub said: Option<Kind>,
    /// Whether the program has each class in it, where it is a descriptor of a method (4.3.3).
    pub whole: bool,
}

/// Whether the program has the class that the descriptor names, where it names one.
#[tactic(auto, using(crate::proofs::NamedClasses::known_by_number))]
fn is_known(tables: &ProgramTables, names: &IndexSet<&[u8]>, desc: &Desc) -> bool
    requires names { IsNamesOf tables.now names.now }
    ensures { result ≡ is_known tables.now desc.now }
{
    match &desc.base {
        DescBase::Object(name) => number(names, name.as_bytes()).is_some(),
        _ => true,
    }
}

fn are_known(tables: &ProgramTables, names: &IndexSet<&[u8]>, descs: &[Desc]) -> bool
    requires names { IsNamesOf tables.now names.now }
    ensures { result ≡ list_all (is_known tables.now) descs.now }
{
    descs.iter().all(|desc| is_known(tables, names, desc))
}

fn is_result_known(tables: &ProgramTables, names: &IndexSet<&[u8]>, returned: &Option<Desc>) -> bool
    requires names { IsNamesOf tables.now names.now }
    ensures { result ≡ option_map_or (is_known tables.now) returned.now true }
{
    match returned {
        Some(desc) => is_known(tables, names, desc),
        None => true,
    }
}

/// Whether the program has each class in a method's descriptor.
#[tactic(auto, using(crate::proofs::Meant::all_known))]
fn knows(tables: &ProgramTables, names: &IndexSet<&[u8]>, desc: &MethodDesc) -> bool
    requires names { IsNamesOf tables.now names.now }
    ensures { result ≡ is_none (first_of (desc_fault tables.now) (types_in (Ok desc.now))) }
{
    are_known(tables, names, desc.params.as_slice()) && is_result_known(tables, names, &desc.result)
}

/// The same of the text of a method's descriptor. The error is `NoMemory`.
#[tactic(auto, using(crate::proofs::Parts::first_of_none))]
fn is_whole(
    alloc: Global,
    tables: &ProgramTables,
    names: &IndexSet<&[u8]>,
    text: &[u8],
) -> Result<bool, LinkFault>
    requires names { IsNamesOf tables.now names.now }
    requires short { length text.now < 2 ^ 16 }
    ensures whole { IfOk result (λ whole. whole ≡ is_whole tables.now text.now) }
    ensures err { IsOkUnless result LinkFault.NoMemory }
{
    match MethodDesc::read(alloc, text) {
        Ok(desc) => Ok(knows(tables, names, &desc)),
        Err(DescFault::NoMemory) => Err(LinkFault::NoMemory),
        Err(_) => Ok(true),
    }
}

/// The class or the array that the text at an index names.
#[tactic(auto, unfolding(nr_prog::specs::TextForms::form_at, nr_prog::specs::TextForms::form_of))]
fn named(tables: &ProgramTables, names: &IndexSet<&[u8]>, class: &Class, index: u16) -> Option<Kind>
    requires names { IsNamesOf tables.now names.now }
    requires few { length tables.now.classes < 2 ^ 32 }
    ensures { result ≡ option_and_then (λ text. option_and_then (kind_of tables.now) (class_desc text)) (text_at class.now.pool index) }
{
    let desc = class.form(index)?.class.as_ref()?;
    kind_of(tables, names, desc.get())
}

/// What the text at an index means, where one stands there.
fn text_meaning(
    alloc: Global,
    tables: &ProgramTables,
    names: &IndexSet<&[u8]>,
    class: &Class,
    index: u16,
) -> Result<Option<Meaning>, LinkFault>
    requires names { IsNamesOf tables.now names.now }
    requires few { length tables.now.classes < 2 ^ 32 }
    ensures meaning { IfOk result (λ meaning. meaning ≡ option_map (meaning_of tables.now) (text_at class.now.pool index)) }
    ensures err { IsOkUnless result LinkFault.NoMemory }
{
    let Some(text) = class.text(index) else {
        return Ok(None);
    };
    Ok(Some(Meaning {
        named: named(tables, names, class, index),
        said: kind_said(alloc, tables, names, text)?,
        whole: is_whole(alloc, tables, names, text)?,
    }))
}

/// What the text of each entry of the constant pool means, by its place.
#[tactic(auto, using(crate::proofs::Meant::means_more, crate::proofs::Meant::all_meant))]
pub fn meanings_of(
    alloc: Global,
    tables: &ProgramTables,
    names: &IndexSet<&[u8]>,
    class: &Class,
) -> Result<Items<Option<Meaning>>, LinkFault>
    requires names { IsNamesOf tables.now names.now }
    requires few { length tables.now.classes < 2 ^ 32 }
    ensures meanings { IfOk result (λ meanings. meanings ≡ meanings_of tables.now class.now.pool) }
    ensures err { IsOkUnless result LinkFault.NoMemory }
{
    let mut meanings = Items::new(alloc);
    let count = class.parts().pool.len();
    for place in 0..count {
        meanings.push(text_meaning(alloc, tables, names, class, place as u16 + 1)?)?;
    }
    Ok(meanings)
}

/// What the text at an index means, by what all texts of the constant pool mean.
#[tactic(auto, using(crate::proofs::Meant::meant_at))]
pub fn meaning_at<'a>(
    tables: &ProgramTables,
    class: &Class,
    meanings: &'a [Option<Meaning>],
    index: u16,
) -> Option<&'a Meaning>
    requires { meanings.now ≡ meanings_of tables.now class.now.pool }
    ensures { option_copied result ≡ option_map (meaning_of tables.now) (text_at class.now.pool index) }
{
    listed(meanings, index)
}

fn class_meanings(
    alloc: Global,
    tables: &ProgramTables,
    names: &IndexSet<&[u8]>,
    class: ClassId,
) -> Result<Items<Option<Meaning>>, LinkFault>
    requires names { IsNamesOf tables.now names.now }
    requires few { length tables.now.classes < 2 ^ 32 }
    ensures meanings { IfOk result (λ meanings. meanings ≡ class_meanings tables.now class) }
    ensures err { IsOkUnless result LinkFault.NoMemory }
{
    match read_class(tables, class) {
        Some(class) => meanings_of(alloc, tables, names, class),
        None => Ok(Items::new(alloc)),
    }
}

/// What the texts of the constant pool of each class mean.
#[tactic(auto, using(crate::proofs::Loops::counts_on))]
pub fn all_meanings(
    alloc: Global,
    tables: &ProgramTables,
    names: &IndexSet<&[u8]>,
) -> Result<Items<Items<Option<Meaning>>>, LinkFault>
    requires names { IsNamesOf tables.now names.now }
    requires few { length tables.now.classes < 2 ^ 32 }
    ensures all { IfOk result (λ all. all ≡ all_meanings tables.now) }
    ensures err { IsOkUnless result LinkFault.NoMemory }
{
    let mut all = Items::new(alloc);
    for class in 0..tables.classes.len() as u32 {
        all.push(class_meanings(alloc, tables, names, class)?)?;
    }
    Ok(all)
}

/// Those of a class.
#[tactic(auto, using(crate::proofs::Meant::meant_in, crate::proofs::Meant::meant_past))]
pub fn meanings_in<'a>(
    tables: &ProgramTables,
    all: &'a [Items<Option<Meaning>>],
    class: ClassId,
) -> &'a [Option<Meaning>]
    requires all { all.now ≡ all_meanings tables.now }
    ensures { result.now ≡ class_meanings tables.now class }
{
    match all.get(class as usize) {
        Some(meanings) => meanings.as_slice(),
        None => &[],
    }
}
