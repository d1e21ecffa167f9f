//! The class, its superclass and its superinterfaces.

ghost use Rattle.std.specs.Prelude.{◌≡◌};
ghost use Rattle.nr_prog.specs.Faults.{Finds, first_fault};
ghost use Rattle.nr_prog.specs.Members.{is_class_named};
ghost use Rattle.nr_prog.specs.Rules.{class_fault, classes_fault, super_fault};

use super::spelled::is_class_name;
use crate::fault::FormFault;
use crate::pool::{Pool, PoolEntry};

/// Whether the index names a class with a legal name (JVM Specification 4.4.1).
#[tactic(auto, unfolding(crate::specs::Members::is_class_named))]
fn names_class(pool: &Pool, index: u16) -> bool
    ensures { result ≡ is_class_named pool.now index }
{
    match pool.entry(usize::from(index)) {
        Some(PoolEntry::Class(name)) => is_class_name(pool, *name),
        _ => false,
    }
}

#[tactic(auto, unfolding(crate::specs::Rules::class_fault))]
fn check_class(pool: &Pool, index: u16) -> Result<(), FormFault>
    ensures { Finds result (class_fault pool.now index) }
{
    if names_class(pool, index) {
        Ok(())
    } else {
        Err(FormFault::BadName(index))
    }
}

#[tactic(auto, unfolding(crate::specs::Rules::super_fault))]
fn check_super(pool: &Pool, index: u16) -> Result<(), FormFault>
    ensures { Finds result (super_fault pool.now index) }
{
    if index == 0 {
        return Err(FormFault::PoolKind(0));
    }
    check_class(pool, index)
}

#[tactic(auto, using(crate::proofs::Walks::goes_on, crate::proofs::Walks::fails_in, crate::proofs::Walks::ends))]
fn check_interfaces(pool: &Pool, interfaces: &[u16]) -> Result<(), FormFault>
    ensures { Finds result (first_fault (λ place. class_fault pool.now) 0 interfaces.now) }
{
    for interface in interfaces {
        check_class(pool, *interface)?;
    }
    Ok(())
}

/// Looks at the class, its superclass and its superinterfaces, in this order (JVM Specification 4.1).
#[tactic(auto, using(crate::proofs::Walks::fails_first), unfolding(crate::specs::Rules::classes_fault))]
pub fn check_classes(
    pool: &Pool,
    this: u16,
    above: u16,
    interfaces: &[u16],
) -> Result<(), FormFault>
    ensures { Finds result (classes_fault pool.now this above interfaces.now) }
{
    check_class(pool, this)?;
    check_super(pool, above)?;
    check_interfaces(pool, interfaces)
}
