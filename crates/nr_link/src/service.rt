//! The class that is served.

ghost use Rattle.std.specs.Prelude.{◌≡◌, ◌<◌, ◌||◌, not, length, IfOk, Ok};
ghost use Rattle.nr_base.specs.Clauses.{GivesWhole};
ghost use Rattle.nr_linked.specs.Linked.{is_loaded};
ghost use Rattle.nr_linkrules.specs.Faults.{is_free};
ghost use Rattle.nr_linkrules.specs.Mains.{service_of};

use crate::above::copied;
use nr_base::Name;
use nr_linked::{BuiltIn, ClassId, Program};
use nr_linkrules::LinkFault;
use std::alloc::Global;

/// The class of that name, which a server can serve.
///
/// # Errors
///
/// `NoClass` where the program has no class of this name, `NoService` where it is an interface or
/// built in, `NoMemory` for want of memory.
#[tactic(auto, unfolding(nr_linkrules::specs::Mains::service_of))]
pub fn find_service(program: &Program, service: &Name) -> Result<ClassId, LinkFault>
    ensures { GivesWhole is_free result (service_of program.now service.now) }
{
    let Some(class) = program.class_id(service) else {
        return Err(LinkFault::NoClass(copied(service)?));
    };
    let tables = program.tables();
    let first_built_in = tables.classes.len().saturating_sub(BuiltIn::COUNT);
    if tables.is_interface(class) || class as usize >= first_built_in {
        return Err(LinkFault::NoService(copied(service)?));
    }
    Ok(class)
}
