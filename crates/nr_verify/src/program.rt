//! The checks of a program.

ghost use Rattle.std.specs.Prelude.{◌≡◌, IfOk, MatchResult, None, Some};
ghost use Rattle.std.specs.Option.{option_map};
ghost use Rattle.nr_linked.specs.KindTexts.{class_name};
ghost use Rattle.nr_linked.specs.Programs.{method_at};
ghost use Rattle.nr_linked.specs.TypingFaults.{first_fault};
ghost use Rattle.nr_linked.specs.WellTyped.{WellTyped};
ghost use Rattle.nr_verify.specs.First.{IsRefusal, Tells, name_of, program_fault};

use crate::fault::{MethodFault, VerifyFault};
use crate::method::check_method;
use nr_base::Name;
use nr_linked::{MethodId, MethodInfo, MethodName, Program, Verified};
use std::alloc::{AllocError, Global};

/// The names of a method and its class. The error comes only for want of memory.
fn names(p: &Program, id: MethodId, method: &MethodInfo) -> Result<(Name, MethodName), AllocError>
    requires { method_at p.now id ≡ Some method.now }
    ensures { IfOk result (λ names. (names.0 ≡ class_name p.now method.now.«class») × (names.1 ≡ name_of method.now)) }
{
    let _tables = p.tables();
    let class = p.class_name(method.class).clone()?;
    Ok((class, method.method_name()?))
}

/// The first check of a method that fails, with the names of the method and its class.
fn check_named(
    alloc: Global,
    p: &Program,
    id: MethodId,
    method: &MethodInfo,
) -> Result<(), VerifyFault>
    requires { method_at p.now id ≡ Some method.now }
    ensures { MatchResult result (λ u. first_fault p.now method.now ≡ None)
        (λ e. Tells p.now e (option_map (λ f. (method.now, f)) (first_fault p.now method.now))) }
{
    let Err(fault) = check_method(alloc, p, id, method) else {
        return Ok(());
    };
    let Ok((class, name)) = names(p, id, method) else {
        return Err(VerifyFault::NoMemory);
    };
    Err(match fault {
        MethodFault::Op(at, fault) => VerifyFault::Op(class, name, u32::from(at), fault),
        MethodFault::NoMap(at) => VerifyFault::NoMap(class, name, u32::from(at)),
        MethodFault::MapMismatch(at) => VerifyFault::MapMismatch(class, name, u32::from(at)),
        MethodFault::FallsOff(at) => VerifyFault::FallsOff(class, name, u32::from(at)),
        MethodFault::HandlerMismatch(at, index) => {
            VerifyFault::HandlerMismatch(class, name, u32::from(at), index)
        }
        MethodFault::NoMemory => VerifyFault::NoMemory,
    })
}

/// The first check that fails, of the methods in their order.
fn check_methods(alloc: Global, p: &Program) -> Result<(), VerifyFault>
    ensures { MatchResult result (λ u. program_fault p.now ≡ None) (λ e. Tells p.now e (program_fault p.now)) }
{
    let mut id: MethodId = 0;
    let mut left = p.tables().methods.as_slice();
    while let Some((method, more)) = left.split_first() {
        check_named(alloc, p, id, method)?;
        id += 1;
        left = more;
    }
    Ok(())
}

/// The same program where it is well typed (JVM Specification 4.10.1, type checking, by the rules of the
/// text on typing).
///
/// # Errors
///
/// The program comes back, with the first check that fails: classes in the order of loading, the methods
/// of each in the order of its file, instructions by their offsets, and of each the frame map, the
/// handlers, its own rule, the branches and the end; or with `NoMemory`, for want of memory.
pub fn verify(alloc: Global, program: Program) -> Result<Verified, (Program, VerifyFault)>
    ensures same { MatchResult result (λ v. v ≡ program) (λ e. e.0 ≡ program) }
    ensures first { MatchResult result (λ v. program_fault program ≡ None) (λ e. Tells program e.1 (program_fault program)) }
    ensures exact { MatchResult result (λ v. WellTyped program) (λ e. IsRefusal program e.1) }
{
    let _tables = program.tables();
    match check_methods(alloc, &program) {
        Ok(()) => Ok(Verified::new(program)),
        Err(fault) => Err((program, fault)),
    }
}
