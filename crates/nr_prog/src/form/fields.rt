//! Fields.

ghost use Rattle.std.specs.Prelude.{◌≡◌, ◌||◌, ℕ, List, Some, IfOk, OnOk};
ghost use Rattle.nr_prog.specs.Pool.{text_at};
ghost use Rattle.nr_prog.specs.Faults.{Finds};
ghost use Rattle.nr_prog.specs.LegalTests.{is_field_desc, is_field_text};
ghost use Rattle.nr_prog.specs.Members.{is_spelled};
ghost use Rattle.nr_prog.specs.Rules.{desc_fault, field_fault, fields_fault, name_fault};
ghost use Rattle.nr_prog.specs.Seen.{has};

use super::constant::check_constant;
use super::seen::add;
use super::spelled::{is_field_name, is_field_type};
use crate::fault::FormFault;
use crate::member::Field;
use crate::pool::Pool;
use std::alloc::Global;
use std::collections::BTreeSet;

#[tactic(auto, unfolding(crate::specs::Rules::name_fault, crate::specs::Members::spells))]
fn name<'a>(pool: &'a Pool, index: u16) -> Result<&'a [u8], FormFault>
    ensures fault { Finds result (name_fault is_field_text pool.now index) }
    ensures text { IfOk result (λ name. text_at pool.now index ≡ Some name.now) }
{
    match pool.text(index) {
        Some(name) if is_field_name(pool, index) => Ok(name),
        _ => Err(FormFault::BadName(index)),
    }
}

#[tactic(auto, unfolding(crate::specs::Rules::desc_fault, crate::specs::Members::spells))]
fn descriptor<'a>(pool: &'a Pool, index: u16) -> Result<&'a [u8], FormFault>
    ensures fault { Finds result (desc_fault is_field_desc pool.now index) }
    ensures text { IfOk result (λ desc. text_at pool.now index ≡ Some desc.now) }
{
    match pool.text(index) {
        Some(desc) if is_field_type(pool, index) => Ok(desc),
        _ => Err(FormFault::BadDesc(index)),
    }
}

#[tactic(auto, using(crate::proofs::Walks::fails_first, crate::proofs::Members::among_at, crate::proofs::Numbered::pair_at), unfolding(crate::specs::Rules::field_fault, crate::specs::Rules::doubled_fault))]
fn check_field(pool: &Pool, field: &Field, seen: &mut BTreeSet<(u16, u16)>) -> Result<(), FormFault>
    ensures fault { Finds result (field_fault pool.now (has pool.now seen.old) field.now) }
    ensures seen { OnOk result ((n d : List ℕ) → has pool.now seen.new n d
        ≡ (has pool.now seen.old n d || is_spelled pool.now n d field.now.name field.now.desc)) }
{
    let _name = name(pool, field.name)?;
    let desc = descriptor(pool, field.desc)?;
    if !add(seen, pool.number(field.name), pool.number(field.desc))? {
        return Err(FormFault::Doubled(field.name));
    }
    check_constant(pool, field, desc)
}

/// Looks at each field, in order (JVM Specification 4.5).
pub fn check_fields(alloc: Global, pool: &Pool, fields: &[Field]) -> Result<(), FormFault>
    ensures { Finds result (fields_fault pool.now fields.now) }
{
    let mut seen = BTreeSet::new(alloc);
    for field in fields {
        check_field(pool, field, &mut seen)?;
    }
    Ok(())
}
