//! Slots of one name in one class.

ghost use Rattle.std.specs.Prelude.{◌≡◌, not, ◌||◌, IfOk, OnOk};
ghost use Rattle.std.specs.List.{list_any};
ghost use Rattle.nr_linked.specs.declared.program.tables.SlotInfo.{SlotInfo as Slot};
ghost use Rattle.nr_linked.specs.SeenSlots.{has};
ghost use Rattle.nr_linked.specs.Sendable.{has_twins, is_twin};

use super::kind::ClassId;
use super::tables::SlotInfo;
use std::alloc::{AllocError, Global};
use std::collections::BTreeSet;

/// Adds a slot, and says whether no twin of it is there.
fn add<'a>(seen: &mut BTreeSet<(ClassId, &'a [u8])>, slot: &'a SlotInfo) -> Result<bool, AllocError>
    ensures new { IfOk result (λ new. new ≡ not (has seen.old slot.now)) }
    ensures kept { OnOk result ((t : Slot) → has seen.new t ≡ (is_twin slot.now t || has seen.old t)) }
{
    let new = seen.insert((slot.declared_in, slot.name.as_bytes()))?;
    Ok(new)
}

/// Whether a slot has a later twin, by a set of what was seen.
fn has_twins_by_set(alloc: Global, slots: &[SlotInfo]) -> Result<bool, AllocError>
    ensures { IfOk result (λ twins. twins ≡ has_twins slots.now) }
{
    let mut seen = BTreeSet::new(alloc);
    let mut left = slots;
    while let Some((first, others)) = left.split_first() {
        if !add(&mut seen, first)? {
            return Ok(true);
        }
        left = others;
    }
    Ok(false)
}

fn is_twin(slot: &SlotInfo, other: &SlotInfo) -> bool
    ensures { result ≡ is_twin slot.now other.now }
{
    slot.declared_in == other.declared_in && slot.name.as_bytes() == other.name.as_bytes()
}

fn has_twin(slot: &SlotInfo, others: &[SlotInfo]) -> bool
    ensures { result ≡ list_any (is_twin slot.now) others.now }
{
    others.iter().any(|other| is_twin(slot, other))
}

/// The same, by comparing each slot with each.
fn has_twins_by_pairs(slots: &[SlotInfo]) -> bool
    ensures { result ≡ has_twins slots.now }
{
    let mut left = slots;
    while let Some((first, others)) = left.split_first() {
        if has_twin(first, others) {
            return true;
        }
        left = others;
    }
    false
}

/// Whether a slot has a later twin: by a set where there is memory for one, and else by pairs.
pub fn has_twins(alloc: Global, slots: &[SlotInfo]) -> bool
    ensures { result ≡ has_twins slots.now }
{
    match has_twins_by_set(alloc, slots) {
        Ok(twins) => twins,
        Err(_) => has_twins_by_pairs(slots),
    }
}
