//! Slots of one name in a class with many fields.

use super::world::{kind, name};
use crate::program::SlotInfo;
use crate::program::twins::has_twins;
use nr_base::Items;
use std::alloc::Global;
use std::process::Abort;
use std::test::Fail;

fn slot(alloc: Global, number: u32) -> Result<SlotInfo, Fail> {
    let text = format!(in alloc; "field{number}")?;
    let field = name(alloc, text.as_str())?;
    let desc = name(alloc, "I")?;
    Ok(SlotInfo {
        declared_in: 0,
        name: field,
        desc,
        kind: kind("I"),
    })
}

#[test]
fn many_fields(rt: HostRuntime) -> Result<(), Fail> {
    let alloc = rt.alloc();
    let mut slots = Items::new(alloc);
    for number in 0..30_000 {
        slots.push(slot(alloc, number)?)?;
    }
    assert!(rt; !has_twins(alloc, slots.as_slice()));
    slots.push(slot(alloc, 29_998)?)?;
    assert!(rt; has_twins(alloc, slots.as_slice()));
    Ok(())
}
