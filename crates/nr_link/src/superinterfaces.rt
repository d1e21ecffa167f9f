//! The direct superinterfaces of each class, each of them once.

ghost use Rattle.std.specs.Prelude.{◌≡◌, ◌<◌, ◌^◌, length, false, slice_index_or, IfOk, IsOkUnless};
ghost use Rattle.nr_links.specs.Resolution.{interfaces_of};
ghost use Rattle.nr_link.specs.Leading.{LeadAlike, LeadAsInterfaces};

use crate::closure::mark;
use crate::gathering::push_if;
use nr_base::Items;
use nr_linked::{ClassId, ProgramTables};
use nr_linkrules::LinkFault;
use std::alloc::Global;

fn is_marked(row: &[bool], class: ClassId) -> bool
    ensures { result ≡ slice_index_or row.now class false }
{
    match row.get(class as usize) {
        Some(bit) => *bit,
        None => false,
    }
}

/// The classes, each once, in the order in which they first stand there. `count` is the number of all
/// classes.
#[tactic(auto, using(crate::proofs::Once::kept_all, crate::proofs::Once::begins))]
fn each_once(alloc: Global, count: usize, classes: &[ClassId]) -> Result<Items<ClassId>, LinkFault>
    ensures once { IfOk result (λ once. LeadAlike once classes.now) }
    ensures err { IsOkUnless result LinkFault.NoMemory }
{
    let mut seen = Items::from_vec(vec![in alloc; false; count]?);
    let mut once = Items::new(alloc);
    for class in classes {
        let new = !is_marked(seen.as_slice(), *class);
        push_if(&mut once, new, *class)?;
        mark(&mut seen, *class);
    }
    Ok(once)
}

/// What the class names as its direct superinterfaces.
fn named(tables: &ProgramTables, class: ClassId) -> &[ClassId]
    ensures { result.now ≡ interfaces_of tables.now class }
{
    match tables.class_at(class) {
        Some(info) => info.interfaces.as_slice(),
        None => &[],
    }
}

/// The direct superinterfaces of each class, each once. A class file may name one 65,535 times.
#[tactic(auto, using(crate::proofs::Once::none_built, crate::proofs::Once::builds, crate::proofs::Once::all_built))]
pub fn interface_lists(
    alloc: Global,
    tables: &ProgramTables,
) -> Result<Items<Items<ClassId>>, LinkFault>
    requires few { length tables.now.classes < 2 ^ 32 }
    ensures lists { IfOk result (λ lists. LeadAsInterfaces lists tables.now) }
    ensures err { IsOkUnless result LinkFault.NoMemory }
{
    let count = tables.classes.len();
    let mut lists = Items::new(alloc);
    for class in 0..count as u32 {
        lists.push(each_once(alloc, count, named(tables, class))?)?;
    }
    Ok(lists)
}

/// The direct superinterfaces of the class.
pub fn interfaces_of<'a>(
    tables: &ProgramTables,
    lists: &'a [Items<ClassId>],
    class: ClassId,
) -> &'a [ClassId]
    requires lists { LeadAsInterfaces lists.now tables.now }
    ensures { LeadAlike result.now (interfaces_of tables.now class) }
{
    match lists.get(class as usize) {
        Some(list) => list.as_slice(),
        None => &[],
    }
}
