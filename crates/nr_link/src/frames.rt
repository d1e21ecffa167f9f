//! The frames that frame maps say (JVM Specification 4.7.4).

ghost use Rattle.std.specs.Prelude.{◌≡◌, ◌++◌, ◌<◌, ◌^◌, length, map, IfOk, OnOk, IsOkUnless};
ghost use Rattle.std.specs.List.{flat_map, list_any};
ghost use Rattle.std.specs.Option.{option_map};
ghost use Rattle.nr_linked.specs.declared.program.types.VType.TheVariants as types;
ghost use Rattle.nr_linked.specs.TypingCalls.{is_uninit_this};
ghost use Rattle.nr_linked.specs.TypingFrames.{in_places};
ghost use Rattle.nr_linkrules.specs.Completion.{frame_of, type_of, types_of};
ghost use Rattle.nr_linkrules.specs.ClassRules.{desc_fault};
ghost use Rattle.nr_linkrules.specs.Faults.{Finds, first_of};
ghost use Rattle.nr_linkrules.specs.Layout.{kind_of};
ghost use Rattle.nr_linkrules.specs.SiteRules.{map_fault, type_fault};
ghost use Rattle.nr_link.specs.Around.{places};
ghost use Rattle.nr_link.specs.Seen.{IsNamesOf};

use crate::gathering::push_some;
use crate::kinds::kind_of;
use crate::known::check_desc;
use indexmap::IndexSet;
use nr_base::{Desc, Items};
use nr_linked::{ProgramTables, VFrame, VType};
use nr_linkrules::LinkFault;
use nr_prog::{FrameMap, MapType};
use std::alloc::{AllocError, Global};

/// The type of a descriptor's kind.
fn desc_type(tables: &ProgramTables, names: &IndexSet<&[u8]>, desc: &Desc) -> Option<VType>
    requires names { IsNamesOf tables.now names.now }
    requires few { length tables.now.classes < 2 ^ 32 }
    ensures { result ≡ option_map (λ k. types.Class k) (kind_of tables.now desc.now) }
{
    let kind = kind_of(tables, names, desc)?;
    Some(VType::Class(kind))
}

/// The type of a class or an array. Its name is looked for twice only where it isn't known.
#[tactic(auto, using(crate::proofs::Meant::type_known))]
fn object_type(
    tables: &ProgramTables,
    names: &IndexSet<&[u8]>,
    desc: &Desc,
) -> Result<Option<VType>, LinkFault>
    requires names { IsNamesOf tables.now names.now }
    requires few { length tables.now.classes < 2 ^ 32 }
    ensures fault { Finds result (desc_fault tables.now desc.now) }
    ensures found { IfOk result (λ found. found ≡ option_map (λ k. types.Class k) (kind_of tables.now desc.now)) }
{
    match desc_type(tables, names, desc) {
        Some(found) => Ok(Some(found)),
        None => {
            check_desc(tables, names, desc)?;
            Ok(None)
        }
    }
}

/// The verifier's type of a type of a frame map; none where its class isn't known, which is a fault.
fn type_of(
    tables: &ProgramTables,
    names: &IndexSet<&[u8]>,
    map_type: &MapType,
) -> Result<Option<VType>, LinkFault>
    requires names { IsNamesOf tables.now names.now }
    requires few { length tables.now.classes < 2 ^ 32 }
    ensures fault { Finds result (type_fault tables.now map_type.now) }
    ensures found { IfOk result (λ found. found ≡ type_of tables.now map_type.now) }
{
    match map_type {
        MapType::Top => Ok(Some(VType::Top)),
        MapType::Int => Ok(Some(VType::Int)),
        MapType::Long => Ok(Some(VType::Long)),
        MapType::Null => Ok(Some(VType::Null)),
        MapType::UninitThis => Ok(Some(VType::UninitThis)),
        MapType::Uninit(at) => Ok(Some(VType::Uninit(*at))),
        MapType::Object(desc) => object_type(tables, names, desc.get()),
    }
}

#[tactic(auto, using(crate::proofs::Walks::goes_on_of, crate::proofs::Walks::ends_of, crate::proofs::Loops::gathers, crate::proofs::Loops::gathered))]
fn types_of(
    alloc: Global,
    tables: &ProgramTables,
    names: &IndexSet<&[u8]>,
    types: &[MapType],
) -> Result<Items<VType>, LinkFault>
    requires names { IsNamesOf tables.now names.now }
    requires few { length tables.now.classes < 2 ^ 32 }
    ensures fault { Finds result (first_of (type_fault tables.now) types.now) }
    ensures found { IfOk result (λ found. found ≡ types_of tables.now types.now) }
{
    let mut found = Items::new(alloc);
    for map_type in types {
        push_some(&mut found, type_of(tables, names, map_type)?)?;
    }
    Ok(found)
}

/// Puts the places of a value of the type at the end of the list.
fn push_places(local: VType, locals: &mut Items<VType>) -> Result<(), AllocError>
    ensures { OnOk result (locals.new ≡ locals.old ++ places local) }
{
    locals.push(local)?;
    if let VType::Long = local {
        locals.push(VType::Top)?;
    }
    Ok(())
}

/// The types in local variables, where a long takes two places.
#[tactic(auto, using(crate::proofs::Places::by_places, crate::proofs::Loops::adds, crate::proofs::Loops::gathered))]
fn in_places(alloc: Global, types: &[VType]) -> Result<Items<VType>, AllocError>
    ensures { IfOk result (λ locals. locals ≡ in_places types.now) }
{
    let mut locals = Items::new(alloc);
    for local in types {
        push_places(*local, &mut locals)?;
    }
    Ok(locals)
}

fn has_uninit_this(types: &[VType]) -> bool
    ensures { result ≡ list_any is_uninit_this types.now }
{
    types.iter().any(|local| matches!(local, VType::UninitThis))
}

#[tactic(auto, using(crate::proofs::Walks::fails_first, crate::proofs::Parts::first_of_both), unfolding(nr_linkrules::specs::SiteRules::map_fault))]
fn frame_of(
    alloc: Global,
    tables: &ProgramTables,
    names: &IndexSet<&[u8]>,
    frame: &FrameMap,
) -> Result<(u16, VFrame), LinkFault>
    requires names { IsNamesOf tables.now names.now }
    requires few { length tables.now.classes < 2 ^ 32 }
    ensures fault { Finds result (map_fault tables.now frame.now) }
    ensures found { IfOk result (λ found. found ≡ frame_of tables.now frame.now) }
{
    let types = types_of(alloc, tables, names, frame.locals.as_slice())?;
    let stack = types_of(alloc, tables, names, frame.stack.as_slice())?;
    let locals = in_places(alloc, types.as_slice())?;
    let this_uninit = has_uninit_this(locals.as_slice());
    let found = VFrame {
        locals,
        stack,
        this_uninit,
    };
    Ok((frame.at, found))
}

/// The frames of frame maps, each with the offset of its instruction.
///
/// # Errors
///
/// `NoClass` where the program has no class that a type names, in each map the local variables
/// before the operands; `NoMemory` for want of memory.
#[tactic(auto, using(crate::proofs::Walks::goes_on_of, crate::proofs::Walks::ends_of, crate::proofs::Loops::maps, crate::proofs::Loops::mapped))]
pub fn frames_of(
    alloc: Global,
    tables: &ProgramTables,
    names: &IndexSet<&[u8]>,
    frames: &[FrameMap],
) -> Result<Items<(u16, VFrame)>, LinkFault>
    requires names { IsNamesOf tables.now names.now }
    requires few { length tables.now.classes < 2 ^ 32 }
    ensures fault { Finds result (first_of (map_fault tables.now) frames.now) }
    ensures found { IfOk result (λ found. found ≡ map (frame_of tables.now) frames.now) }
{
    let mut found = Items::new(alloc);
    for frame in frames {
        found.push(frame_of(alloc, tables, names, frame)?)?;
    }
    Ok(found)
}
