//! Runs `main` of a program.
ghost use Rattle.std.specs.Prelude.{◌≡◌, IfOk};
ghost use Rattle.nr_linked.specs.KindTexts.{class_name};
ghost use Rattle.nr_run.specs.Runs.{IsMain};
ghost use Rattle.nr_cli.specs.Words.{told};
ghost use Rattle.nr_cli.specs.Dues.{Comes, MainRun, stop_of};

use crate::command::RunCommand;
use crate::ending::{End, Stop};
use nr_base::Items;
use nr_linked::{ClassId, MethodId, Program, Verified};
use nr_run::{RunEnd, run_main};
use std::alloc::{AllocError, Global};

// The name of a class, or nothing where there is no such class.
fn name_of(alloc: Global, program: &Program, class: ClassId) -> Result<Items<u8>, AllocError>
    ensures { IfOk result (λ name. name ≡ class_name program.now class) }
{
    match program.tables().class_at(class) {
        Some(info) => Items::of(alloc, info.name.as_bytes()),
        None => Ok(Items::new(alloc)),
    }
}

// How a run stopped that ended so.
fn stop_of(alloc: Global, program: &Program, budget: u32, end: RunEnd) -> Result<Stop, AllocError>
    ensures { IfOk result (λ stop. stop ≡ stop_of program.now budget end) }
{
    match end {
        RunEnd::Returned(value) => Ok(Stop::Returned(value)),
        RunEnd::Thrown(class) => Ok(Stop::Thrown(name_of(alloc, program, class)?)),
        RunEnd::Budget => Ok(Stop::Budget(budget)),
        RunEnd::Limit(limit) => Ok(Stop::Limit(limit)),
        RunEnd::NoMemory => Ok(Stop::Memory),
    }
}

/// Runs `main` of a program, and gives the end of this program.
pub fn end_of_main(
    alloc: Global,
    command: &RunCommand<'_>,
    program: &Verified,
    main: MethodId,
) -> End
    requires { IsMain program.now main }
    ensures end { Comes (MainRun program.now main (told command.now)) result }
    ensures words { result ≡ End.Words → ⊥ }
    ensures folder { result ≡ End.Folder → ⊥ }
{
    let ints = command.ints.as_slice();
    let ran = run_main(alloc, program, main, ints, command.budget);
    match stop_of(alloc, program.program(), command.budget, ran.end) {
        Ok(stop) => End::Run(ran.printed, stop),
        Err(_) => End::Run(ran.printed, Stop::Memory),
    }
}
