//! Kinds of values, as descriptors say them.

ghost use Rattle.std.specs.Prelude.{◌≡◌, ◌<◌, ◌^◌, length, IfOk, IsOkUnless};
ghost use Rattle.nr_linked.specs.Programs.{class_named};
ghost use Rattle.nr_linkrules.specs.Layout.{base_of, kind_of, kind_said};
ghost use Rattle.nr_link.specs.Seen.{IsNamesOf};

use indexmap::IndexSet;
use nr_base::{Desc, DescBase, DescFault};
use nr_linked::{Base, ClassId, Kind, ProgramTables};
use nr_linkrules::LinkFault;
use nr_names::number;
use std::alloc::Global;

/// The number of the class of this name.
#[tactic(auto, using(crate::proofs::NamedClasses::named_by_texts, crate::proofs::NamedClasses::as_many))]
pub fn class_named(tables: &ProgramTables, names: &IndexSet<&[u8]>, name: &[u8]) -> Option<ClassId>
    requires names { IsNamesOf tables.now names.now }
    requires few { length tables.now.classes < 2 ^ 32 }
    ensures { result ≡ class_named tables.now name.now }
{
    let place = number(names, name)?;
    Some(place as u32)
}

fn base_of(tables: &ProgramTables, names: &IndexSet<&[u8]>, base: &DescBase) -> Option<Base>
    requires names { IsNamesOf tables.now names.now }
    requires few { length tables.now.classes < 2 ^ 32 }
    ensures { result ≡ base_of tables.now base.now }
{
    match base {
        DescBase::Bool => Some(Base::Bool),
        DescBase::Byte => Some(Base::Byte),
        DescBase::Char => Some(Base::Char),
        DescBase::Short => Some(Base::Short),
        DescBase::Int => Some(Base::Int),
        DescBase::Long => Some(Base::Long),
        DescBase::Object(name) => {
            let class = class_named(tables, names, name.as_bytes())?;
            Some(Base::Object(class))
        }
    }
}

/// The kind that the descriptor says; none where no class has its class's name.
pub fn kind_of(tables: &ProgramTables, names: &IndexSet<&[u8]>, desc: &Desc) -> Option<Kind>
    requires names { IsNamesOf tables.now names.now }
    requires few { length tables.now.classes < 2 ^ 32 }
    ensures { result ≡ kind_of tables.now desc.now }
{
    let base = base_of(tables, names, &desc.base)?;
    Some(Kind {
        dims: desc.dims,
        base,
    })
}

/// The kind that the text of a descriptor says.
#[tactic(auto, unfolding(nr_linkrules::specs::Layout::kind_said))]
pub fn kind_said(
    alloc: Global,
    tables: &ProgramTables,
    names: &IndexSet<&[u8]>,
    text: &[u8],
) -> Result<Option<Kind>, LinkFault>
    requires names { IsNamesOf tables.now names.now }
    requires few { length tables.now.classes < 2 ^ 32 }
    requires short { length text.now < 2 ^ 16 }
    ensures kind { IfOk result (λ kind. kind ≡ kind_said tables.now text.now) }
    ensures err { IsOkUnless result LinkFault.NoMemory }
{
    match Desc::read(alloc, text) {
        Ok(desc) => Ok(kind_of(tables, names, &desc)),
        Err(DescFault::NoMemory) => Err(LinkFault::NoMemory),
        Err(_) => Ok(None),
    }
}
