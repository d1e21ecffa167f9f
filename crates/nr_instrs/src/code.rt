//! The instructions of a method, from the bytes of its code.

ghost use Rattle.std.specs.Prelude.{◌≡◌, ◌<◌, ◌^◌, All, List, [], length, Ok, IfOk};
ghost use Rattle.nr_base.specs.Clauses.{GivesWhole};
ghost use Rattle.nr_base.specs.Grammar.{IsBytes};
ghost use Rattle.nr_prog.specs.Pool.{IsText};
ghost use Rattle.nr_prog.specs.BodyText.{HasTargets, instrs as spelled_by};
ghost use Rattle.nr_prog.specs.declared.body.instruction.Instr.{Instr as InstrView};
ghost use Rattle.nr_instrs.specs.Faults.{is_free};
ghost use Rattle.nr_instrs.specs.Decoding.{instrs_of, raws_of};
ghost use Rattle.nr_prog.specs.Offsets.{IsInOrder};

use crate::fault::CodeFault;
use crate::instruction::read_instrs;
use crate::raw::RawInstr;
use crate::target::settle_all;
use nr_base::{Cur, Items};
use nr_prog::{Class, Instr};
use std::alloc::Global;

#[tactic(auto, unfolding(crate::specs::Decoding::raws_of))]
fn raws(alloc: Global, class: &Class, bytes: &[u8]) -> Result<Items<RawInstr>, CodeFault>
    requires { length bytes.now < 2 ^ 16 }
    ensures { GivesWhole is_free result (raws_of class.now.pool bytes.now) }
{
    let mut cur = Cur::new(bytes);
    read_instrs(alloc, class, &mut cur)
}

#[tactic(auto, unfolding(crate::specs::Decoding::instrs_of))]
fn instrs(alloc: Global, class: &Class, bytes: &[u8]) -> Result<Items<Instr>, CodeFault>
    requires sized { length bytes.now < 2 ^ 16 }
    requires texts { All IsText class.now.pool }
    requires bytes { IsBytes bytes.now }
    ensures { GivesWhole is_free result (instrs_of class.now.pool bytes.now) }
{
    let raws = raws(alloc, class, bytes)?;
    settle_all(alloc, raws)
}

/// A class and bytes, of which contracts learn what their types keep.
fn know(class: &Class, bytes: &[u8])
    ensures texts { All IsText class.now.pool }
    ensures bytes { IsBytes bytes.now }
{
    let _parts = class.parts();
}

/// The instructions of a method, with their targets, from the bytes of its code (JVM Specification
/// 4.9.1, 6.5). They stand in the order of their offsets.
///
/// # Errors
///
/// The first fault of the instructions, in order, then of the targets of their branches. `NoMemory`
/// for want of memory.
pub fn decode_instrs(alloc: Global, class: &Class, bytes: &[u8]) -> Result<Items<Instr>, CodeFault>
    requires { length bytes.now < 2 ^ 16 }
    ensures found { IfOk result (λ is. spelled_by class.now.pool 0 is bytes.now × All (HasTargets is) is) }
    ensures only { (is : List InstrView) → spelled_by class.now.pool 0 is bytes.now → All (HasTargets is) is → GivesWhole is_free result (Ok is) }
    ensures order { IfOk result IsInOrder }
    ensures exact { GivesWhole is_free result (instrs_of class.now.pool bytes.now) }
{
    know(class, bytes);
    instrs(alloc, class, bytes)
}
