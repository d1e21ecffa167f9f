//! Where instructions start.

ghost use Rattle.std.specs.Prelude.{◌≡◌};
ghost use Rattle.nr_prog.specs.BodyStarts.{makes_object};

use crate::fault::CodeFault;
use crate::raw::RawInstr;
use nr_base::Items;
use nr_optable::Family;
use nr_prog::Instr;
use std::alloc::Global;
use std::marker::Model;

/// The offsets where instructions start, from low to high.
#[derive(Debug, Drop)]
pub struct Offsets {
    offsets: Items<u16>,
}

impl Model for Offsets {
    ghost use Rattle.std.specs.Prelude.{ℕ, List};
    ghost use Rattle.nr_prog.specs.Offsets.{IsAscendingBy};

    ghost Value = { List ℕ };

    ghost view = { λ o. o.offsets };

    ghost invariant = { λ o. IsAscendingBy (λ (n : ℕ). n) o.offsets };
}

impl Offsets {
    ghost use Rattle.std.specs.Prelude.{◌≡◌, IfOk, IsOkUnless};
    ghost use Rattle.nr_instrs.specs.Checks.{is_among, starts_of};
    ghost use Rattle.nr_instrs.specs.Orders.{AreInOrder};

    /// The offsets of instructions that stand in order.
    pub fn of(alloc: Global, instrs: &[RawInstr]) -> Result<Offsets, CodeFault>
        requires { AreInOrder instrs.now }
        ensures offsets { IfOk result (λ offsets. offsets ≡ starts_of instrs.now) }
        ensures err { IsOkUnless result CodeFault.NoMemory }
    {
        let mut offsets = Items::new(alloc);
        for instr in instrs {
            offsets.push(instr.at)?;
        }
        Ok(Offsets { offsets })
    }

    /// Whether an offset is one of them.
    pub fn contains(&self, at: u16) -> bool
        ensures { result ≡ is_among self.now at }
    {
        self.offsets.as_slice().binary_search(&at).is_ok()
    }
}

/// The instructions of a method, which stand in order. Contracts see their list.
#[derive(Debug, Drop)]
pub struct Starts<'a> {
    instrs: &'a [Instr],
}

impl<'a> Model for Starts<'a> {
    ghost use Rattle.std.specs.Prelude.{List};
    ghost use Rattle.nr_prog.specs.declared.body.instruction.Instr.{Instr as InstrView};
    ghost use Rattle.nr_prog.specs.Offsets.{IsInOrder};

    ghost Value = { List InstrView };

    ghost view = { λ s. s.instrs.now };

    ghost invariant = { λ s. IsInOrder s.instrs.now };
}

fn makes(family: Family) -> bool
    ensures { result ≡ makes_object family }
{
    matches!(family, Family::F33)
}

impl<'a> Starts<'a> {
    ghost use Rattle.std.specs.Prelude.{◌≡◌};
    ghost use Rattle.nr_prog.specs.BodyStarts.{is_new as makes_at, is_start as starts_at};
    ghost use Rattle.nr_prog.specs.Offsets.{IsInOrder};

    pub fn of(instrs: &'a [Instr]) -> Starts<'a>
        requires { IsInOrder instrs.now }
        ensures { result ≡ instrs.now }
    {
        Starts { instrs }
    }

    /// Whether an instruction starts at an offset.
    pub fn is_start(&self, at: u16) -> bool
        ensures { result ≡ starts_at self.now at }
    {
        let instrs = self.instrs;
        instrs.binary_search_by_key(&at, |instr| instr.at).is_ok()
    }

    /// Whether a `new` starts at an offset.
    pub fn is_new(&self, at: u16) -> bool
        ensures { result ≡ makes_at self.now at }
    {
        let instrs = self.instrs;
        match instrs.binary_search_by_key(&at, |instr| instr.at) {
            Ok(place) => makes(instrs[place].row.family),
            Err(_) => false,
        }
    }
}
