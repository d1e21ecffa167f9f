//! What exception handlers and frame maps of a method name (JVM Specification 4.7.3, 4.7.4).

ghost use Rattle.std.specs.Prelude.{◌≡◌, Some, map, All, IfOk};
ghost use Rattle.nr_linked.specs.Linked.{frame_maps_of, handlers_of};
ghost use Rattle.nr_linkrules.specs.Completion.{caught, frame_of};
ghost use Rattle.nr_linkrules.specs.Faults.{Finds, first_of};
ghost use Rattle.nr_linkrules.specs.SiteRules.{around_fault, handler_fault, pool_of};
ghost use Rattle.nr_link.specs.Around.{IsCatchNamed};
ghost use Rattle.nr_link.specs.Coded.{read_class};
ghost use Rattle.nr_link.specs.Lookups.{IsIndexed};
ghost use Rattle.nr_link.specs.Seen.{IsNamesOf};

use crate::frames::frames_of;
use crate::lookup::Lookup;
use crate::named::kind_at;
use indexmap::IndexSet;
use nr_base::Items;
use nr_linked::{ClassId, Kind, MethodInfo, ProgramTables, VFrame};
use nr_linkrules::LinkFault;
use nr_prog::{Class, Handler};
use std::alloc::Global;

/// What linking finds for a method beside its instructions.
#[derive(Debug, Drop)]
pub struct Around {
    /// The class that each exception handler catches; none where it catches all.
    pub catches: Items<Option<Kind>>,
    /// The frames that the frame maps say, each with the offset of its instruction.
    pub maps: Items<(u16, VFrame)>,
}

/// What a handler catches; none where it catches all, which its catch type 0 says.
#[tactic(auto, unfolding(nr_linkrules::specs::SiteRules::handler_fault))]
fn caught(
    alloc: Global,
    tables: &ProgramTables,
    lookup: &Lookup,
    own: ClassId,
    class: &Class,
    handler: &Handler,
) -> Result<Option<Kind>, LinkFault>
    requires indexed { IsIndexed tables.now lookup.now }
    requires here { Some class.now ≡ read_class tables.now own }
    requires named { IsCatchNamed class.now.pool handler.now }
    ensures fault { Finds result (handler_fault tables.now class.now.pool handler.now) }
    ensures found { IfOk result (λ found. found ≡ caught tables.now class.now.pool handler.now) }
{
    if handler.catch_type == 0 {
        return Ok(None);
    }
    let kind = kind_at(alloc, tables, lookup, own, class, handler.catch_type)?;
    Ok(Some(kind))
}

#[tactic(auto, using(crate::proofs::Walks::goes_on_of, crate::proofs::Walks::ends_of, crate::proofs::Loops::maps, crate::proofs::Loops::mapped))]
fn catches_of(
    alloc: Global,
    tables: &ProgramTables,
    lookup: &Lookup,
    own: ClassId,
    class: &Class,
    handlers: &[Handler],
) -> Result<Items<Option<Kind>>, LinkFault>
    requires indexed { IsIndexed tables.now lookup.now }
    requires here { Some class.now ≡ read_class tables.now own }
    requires named { All (IsCatchNamed class.now.pool) handlers.now }
    ensures fault { Finds result (first_of (handler_fault tables.now class.now.pool) handlers.now) }
    ensures found { IfOk result (λ found. found ≡ map (caught tables.now class.now.pool) handlers.now) }
{
    let mut catches = Items::new(alloc);
    for handler in handlers {
        catches.push(caught(alloc, tables, lookup, own, class, handler)?)?;
    }
    Ok(catches)
}

/// What linking finds for the exception handlers and the frame maps of a method of the class.
///
/// # Errors
///
/// `NoClass` where the program has no class that a catch type or a type of a frame map names, the
/// catch types first; `NoMemory` for want of memory.
#[tactic(auto, using(crate::proofs::Walks::fails_first), unfolding(nr_linkrules::specs::SiteRules::around_fault))]
pub fn find_around(
    alloc: Global,
    tables: &ProgramTables,
    names: &IndexSet<&[u8]>,
    lookup: &Lookup,
    class: &Class,
    method: &MethodInfo,
) -> Result<Around, LinkFault>
    requires names { IsNamesOf tables.now names.now }
    requires indexed { IsIndexed tables.now lookup.now }
    requires here { Some class.now ≡ read_class tables.now method.now.«class» }
    requires class { pool_of tables.now method.now ≡ class.now.pool }
    requires named { All (IsCatchNamed class.now.pool) (handlers_of method.now) }
    ensures fault { Finds result (around_fault tables.now method.now) }
    ensures catches { IfOk result (λ found. found.catches ≡ map (caught tables.now (pool_of tables.now method.now)) (handlers_of method.now)) }
    ensures maps { IfOk result (λ found. found.maps ≡ map (frame_of tables.now) (frame_maps_of method.now)) }
{
    let Some(body) = &method.body else {
        return Ok(Around {
            catches: Items::new(alloc),
            maps: Items::new(alloc),
        });
    };
    Ok(Around {
        catches: catches_of(
            alloc,
            tables,
            lookup,
            method.class,
            class,
            body.handlers.as_slice(),
        )?,
        maps: frames_of(alloc, tables, names, body.maps.as_slice())?,
    })
}
