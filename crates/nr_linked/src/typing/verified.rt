//! Well-typed programs.

ghost use Rattle.std.specs.Prelude.{◌≡◌};
ghost use Rattle.nr_linked.specs.WellTyped.{WellTyped};

use crate::program::Program;
use std::marker::Model;

/// A linked program that is well typed (JVM Specification 4.10.1). Contracts see it as its tables, which
/// `specs/WellTyped.antt` says are well typed.
#[derive(Debug, Drop)]
pub struct Verified {
    program: Program,
}

impl Model for Verified {
    ghost use Rattle.nr_linked.specs.declared.program.tables.ProgramTables.{ProgramTables};
    ghost use Rattle.nr_linked.specs.WellTyped.{WellTyped};

    ghost Value = { ProgramTables };

    ghost view = { λ v. v.program };

    ghost invariant = { λ v. WellTyped v.program };
}

impl Verified {
    /// The program, which is well typed. It takes no memory.
    pub fn new(program: Program) -> Verified
        requires { WellTyped program }
        ensures { result ≡ program }
    {
        Verified { program }
    }

    /// The program. It is well typed.
    pub fn program(&self) -> &Program
        ensures program { result.now ≡ self.now }
        ensures typed { WellTyped self.now }
    {
        &self.program
    }
}
