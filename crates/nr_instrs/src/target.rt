//! The targets of branches (JVM Specification 4.9.1).

ghost use Rattle.std.specs.Prelude.{◌≡◌, []};
ghost use Rattle.nr_base.specs.Clauses.{GivesWhole, GivesWholeBy};
ghost use Rattle.nr_instrs.specs.Faults.{is_free};
ghost use Rattle.nr_instrs.specs.Checks.{also, settled, settled_all, settled_args, settled_target, settled_targets, walk};
ghost use Rattle.nr_instrs.specs.Orders.{AreInOrder};

use crate::fault::CodeFault;
use crate::raw::{Operands, RawInstr};
use crate::start::Offsets;
use nr_base::Items;
use nr_prog::{Args, Instr};
use std::alloc::Global;

#[tactic(auto, unfolding(crate::specs::Checks::settled_target))]
fn settle(starts: &Offsets, at: u16, to: i64) -> Result<u16, CodeFault>
    ensures { GivesWhole is_free result (settled_target starts.now at to) }
{
    if to < 0 || to > 0xFFFF || !starts.contains(to as u16) {
        return Err(CodeFault::Target(u32::from(at), to));
    }
    Ok(to as u16)
}

#[tactic(auto, unfolding(crate::specs::Checks::also))]
fn target_onto(
    starts: &Offsets,
    at: u16,
    to: &i64,
    targets: &mut Items<u16>,
) -> Result<(), CodeFault>
    ensures { GivesWholeBy is_free (λ _. targets.new) result (also (settled_target starts.now at) targets.old to.now) }
{
    targets.push(settle(starts, at, *to)?)?;
    Ok(())
}

#[tactic(auto, using(crate::proofs::Walks::goes_on, crate::proofs::Walks::ends), unfolding(crate::specs::Checks::settled_targets))]
fn settle_targets(
    alloc: Global,
    starts: &Offsets,
    at: u16,
    all: &[i64],
) -> Result<Items<u16>, CodeFault>
    ensures { GivesWhole is_free result (settled_targets starts.now at all.now) }
{
    let mut targets = Items::new(alloc);
    for to in all {
        target_onto(starts, at, to, &mut targets)?;
    }
    Ok(targets)
}

#[tactic(auto, unfolding(crate::specs::Checks::settled_args))]
fn settle_args(
    alloc: Global,
    starts: &Offsets,
    at: u16,
    operands: Operands,
) -> Result<Args, CodeFault>
    ensures { GivesWhole is_free result (settled_args starts.now at operands) }
{
    match operands {
        Operands::Plain(args) => Ok(args),
        Operands::Branch(to) => Ok(Args::Branch(settle(starts, at, to)?)),
        Operands::Switch {
            other,
            low,
            targets,
        } => {
            let other = settle(starts, at, other)?;
            let targets = settle_targets(alloc, starts, at, targets.as_slice())?;
            Ok(Args::Switch {
                other,
                low,
                targets,
            })
        }
        Operands::Look {
            other,
            keys,
            targets,
        } => {
            let other = settle(starts, at, other)?;
            let targets = settle_targets(alloc, starts, at, targets.as_slice())?;
            Ok(Args::Look {
                other,
                keys,
                targets,
            })
        }
    }
}

#[tactic(auto, unfolding(crate::specs::Checks::settled))]
fn settle_instr(alloc: Global, starts: &Offsets, instr: RawInstr) -> Result<Instr, CodeFault>
    ensures { GivesWhole is_free result (settled starts.now instr) }
{
    let RawInstr { at, row, operands } = instr;
    let args = settle_args(alloc, starts, at, operands)?;
    Ok(Instr { at, row, args })
}

#[tactic(auto, unfolding(crate::specs::Checks::also))]
fn instr_onto(
    alloc: Global,
    starts: &Offsets,
    instr: RawInstr,
    instrs: &mut Items<Instr>,
) -> Result<(), CodeFault>
    ensures { GivesWholeBy is_free (λ _. instrs.new) result (also (settled starts.now) instrs.old instr) }
{
    instrs.push(settle_instr(alloc, starts, instr)?)?;
    Ok(())
}

#[tactic(auto, using(crate::proofs::Walks::goes_past, crate::proofs::Walks::fails_at, crate::proofs::Walks::is_past))]
fn settle_instrs(
    alloc: Global,
    starts: &Offsets,
    raws: Items<RawInstr>,
) -> Result<Items<Instr>, CodeFault>
    ensures { GivesWhole is_free result (walk (also (settled starts.now)) [] raws) }
{
    let mut instrs = Items::new(alloc);
    let mut rest = raws.into_vec().into_iter();
    while let Some(instr) = rest.next() {
        instr_onto(alloc, starts, instr, &mut instrs)?;
    }
    Ok(instrs)
}

/// The instructions with their targets, each of which is where an instruction starts.
#[tactic(auto, unfolding(crate::specs::Checks::settled_all))]
pub fn settle_all(alloc: Global, raws: Items<RawInstr>) -> Result<Items<Instr>, CodeFault>
    requires { AreInOrder raws }
    ensures { GivesWhole is_free result (settled_all raws) }
{
    let starts = Offsets::of(alloc, raws.as_slice())?;
    settle_instrs(alloc, &starts, raws)
}
