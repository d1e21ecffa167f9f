//! The tables of switches (JVM Specification 6.5, tableswitch, lookupswitch).

ghost use Rattle.std.specs.Prelude.{◌≡◌, ◌<◌, ◌^◌, []};
ghost use Rattle.std.specs.Int.{w32};
ghost use Rattle.nr_base.specs.Clauses.{Gives, GivesBy};
ghost use Rattle.nr_base.specs.Reader.{onto, times};
ghost use Rattle.nr_prog.specs.BodyOperands.{padding as padding_of, rises};
ghost use Rattle.nr_instrs.specs.Faults.{is_free};
ghost use Rattle.nr_instrs.specs.Numbers.{branch_at};
ghost use Rattle.nr_instrs.specs.OperandReading.{lookup_at, pair_at, pairs_at, table_at};

use crate::fault::CodeFault;
use crate::number::{read_far_branch, read_i32, read_u32, skip};
use crate::raw::Operands;
use nr_base::{Cur, Items};
use std::alloc::Global;

// The most pairs of a lookupswitch.
const MAX_PAIRS: u32 = 0x7FFF_FFFF;

fn padding(at: u32) -> usize
    requires { at < 2 ^ 16 }
    ensures { result ≡ padding_of at }
{
    ((4 - (at + 1) % 4) % 4) as usize
}

#[tactic(auto, unfolding(nr_base::specs::Reader::onto, nr_base::specs::Reader::bind, nr_base::specs::Reader::pure, nr_base::specs::Reader::refuse, nr_base::specs::Reader::choose, nr_base::specs::Reader::from, nr_base::specs::Reader::with_fault))]
fn target_onto(at: u32, cur: &mut Cur, targets: &mut Items<i64>) -> Result<(), CodeFault>
    ensures { GivesBy is_free (λ _. targets.new) result cur.new (onto (branch_at w32 at) targets.old cur.old) }
{
    targets.push(read_far_branch(cur, at)?)?;
    Ok(())
}

#[tactic(auto, using(nr_base::proofs::Loops::goes_on, nr_base::proofs::Loops::is_done, crate::proofs::Exits::fails_in))]
fn read_targets(alloc: Global, at: u32, count: u64, cur: &mut Cur) -> Result<Items<i64>, CodeFault>
    ensures { Gives is_free result cur.new (times (onto (branch_at w32 at)) count [] cur.old) }
{
    let mut targets = Items::new(alloc);
    for _ in 0..count {
        target_onto(at, cur, &mut targets)?;
    }
    Ok(targets)
}

/// The operands of tableswitch.
#[tactic(auto, unfolding(crate::specs::OperandReading::table_at, nr_base::specs::Reader::bind, nr_base::specs::Reader::pure, nr_base::specs::Reader::refuse, nr_base::specs::Reader::choose, nr_base::specs::Reader::from, nr_base::specs::Reader::with_fault))]
pub fn read_table(alloc: Global, at: u32, cur: &mut Cur) -> Result<Operands, CodeFault>
    requires { at < 2 ^ 16 }
    ensures { Gives is_free result cur.new (table_at at cur.old) }
{
    skip(cur, padding(at), at)?;
    let other = read_far_branch(cur, at)?;
    let low = read_i32(cur, at)?;
    let high = read_i32(cur, at)?;
    if low > high {
        return Err(CodeFault::SwitchOrder(at));
    }
    let count = u64::from(high.abs_diff(low)) + 1;
    let targets = read_targets(alloc, at, count, cur)?;
    Ok(Operands::Switch {
        other,
        low,
        targets,
    })
}

#[tactic(auto, unfolding(crate::specs::OperandReading::pair_at, nr_base::specs::Reader::bind, nr_base::specs::Reader::pure, nr_base::specs::Reader::refuse, nr_base::specs::Reader::choose, nr_base::specs::Reader::from, nr_base::specs::Reader::with_fault))]
fn pair_onto(
    at: u32,
    cur: &mut Cur,
    keys: &mut Items<i32>,
    targets: &mut Items<i64>,
) -> Result<(), CodeFault>
    ensures { GivesBy is_free (λ _. (keys.new, targets.new)) result cur.new (pair_at at (keys.old, targets.old) cur.old) }
{
    let key = read_i32(cur, at)?;
    let target = read_far_branch(cur, at)?;
    keys.push(key)?;
    targets.push(target)?;
    Ok(())
}

#[tactic(auto, using(nr_base::proofs::Loops::goes_on, nr_base::proofs::Loops::is_done, crate::proofs::Exits::fails_in))]
fn read_items(
    alloc: Global,
    at: u32,
    count: u32,
    cur: &mut Cur,
) -> Result<(Items<i32>, Items<i64>), CodeFault>
    ensures { Gives is_free result cur.new (times (pair_at at) count ([], []) cur.old) }
{
    let mut keys = Items::new(alloc);
    let mut targets = Items::new(alloc);
    for _ in 0..count {
        pair_onto(at, cur, &mut keys, &mut targets)?;
    }
    Ok((keys, targets))
}

/// Whether each number is above the one before.
fn rise(keys: &[i32]) -> bool
    ensures { result ≡ rises keys.now }
{
    let mut rest = keys;
    while let [first, more @ ..] = rest {
        if let [second, ..] = more {
            if first >= second {
                return false;
            }
        }
        rest = more;
    }
    true
}

#[tactic(auto, unfolding(crate::specs::OperandReading::pairs_at, nr_base::specs::Reader::bind, nr_base::specs::Reader::pure, nr_base::specs::Reader::refuse, nr_base::specs::Reader::choose, nr_base::specs::Reader::from, nr_base::specs::Reader::with_fault))]
fn read_pairs(
    alloc: Global,
    at: u32,
    other: i64,
    count: u32,
    cur: &mut Cur,
) -> Result<Operands, CodeFault>
    ensures { Gives is_free result cur.new (pairs_at at other count cur.old) }
{
    let (keys, targets) = read_items(alloc, at, count, cur)?;
    if !rise(keys.as_slice()) {
        return Err(CodeFault::SwitchOrder(at));
    }
    Ok(Operands::Look {
        other,
        keys,
        targets,
    })
}

/// The operands of lookupswitch.
#[tactic(auto, unfolding(crate::specs::OperandReading::lookup_at, nr_base::specs::Reader::bind, nr_base::specs::Reader::pure, nr_base::specs::Reader::refuse, nr_base::specs::Reader::choose, nr_base::specs::Reader::from, nr_base::specs::Reader::with_fault))]
pub fn read_lookup(alloc: Global, at: u32, cur: &mut Cur) -> Result<Operands, CodeFault>
    requires { at < 2 ^ 16 }
    ensures { Gives is_free result cur.new (lookup_at at cur.old) }
{
    skip(cur, padding(at), at)?;
    let other = read_far_branch(cur, at)?;
    let count = read_u32(cur, at)?;
    if count > MAX_PAIRS {
        return Err(CodeFault::SwitchOrder(at));
    }
    read_pairs(alloc, at, other, count, cur)
}
