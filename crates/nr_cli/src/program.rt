//! A program of class files, linked and verified, with the method that is to run.
ghost use Rattle.std.specs.Prelude.{◌≡◌, ◌⊎◌, All, Err, IfOk};
ghost use Rattle.nr_linkrules.specs.Readable.{IsReadable};
ghost use Rattle.nr_run.specs.Runs.{IsMain};
ghost use Rattle.nr_cli.specs.Programs.{found_in, linked_of, prepared, verified_of};
ghost use Rattle.nr_cli.specs.Refusals.{spelled_verify};

use crate::ending::End;
use crate::spelling::spell_verify;
use nr_base::{Items, Name};
use nr_link::{find_main, link};
use nr_linked::{MethodId, Program, Verified};
use nr_linkrules::LinkFault;
use nr_prog::Loaded;
use nr_verify::{VerifyFault, verify};
use std::alloc::Global;

#[tactic(auto, using(crate::proofs::Prepared::linked_is))]
fn linked(alloc: Global, classes: Items<Loaded>) -> Result<Program, End>
    requires { All IsReadable classes }
    ensures program { (result ≡ Err End.Memory) ⊎ (result ≡ linked_of classes) }
    ensures words { result ≡ Err End.Words → ⊥ }
    ensures folder { result ≡ Err End.Folder → ⊥ }
{
    match link(alloc, classes) {
        Ok(program) => Ok(program),
        Err(LinkFault::NoMemory) => Err(End::Memory),
        Err(fault) => Err(End::Link(fault)),
    }
}

fn found(program: &Program, main: &Name) -> Result<MethodId, End>
    ensures main { (result ≡ Err End.Memory) ⊎ (result ≡ found_in program.now main.now) }
    ensures is_main { IfOk result (λ m. IsMain program.now m) }
    ensures words { result ≡ Err End.Words → ⊥ }
    ensures folder { result ≡ Err End.Folder → ⊥ }
{
    match find_main(program, main) {
        Ok(method) => Ok(method),
        Err(LinkFault::NoMemory) => Err(End::Memory),
        Err(fault) => Err(End::Link(fault)),
    }
}

// The end where a program isn't well typed.
fn refused(alloc: Global, program: &Program, fault: &VerifyFault) -> End
    ensures end { (result ≡ End.Memory) ⊎ (result ≡ End.Verify (spelled_verify program.now fault.now)) }
    ensures words { result ≡ End.Words → ⊥ }
    ensures folder { result ≡ End.Folder → ⊥ }
{
    match spell_verify(alloc, program, fault) {
        Ok(text) => End::Verify(Items::from_vec(text)),
        Err(_) => End::Memory,
    }
}

fn verified(alloc: Global, program: Program) -> Result<Verified, End>
    ensures program { (result ≡ Err End.Memory) ⊎ (result ≡ verified_of program) }
    ensures same { IfOk result (λ v. v ≡ program) }
    ensures words { result ≡ Err End.Words → ⊥ }
    ensures folder { result ≡ Err End.Folder → ⊥ }
{
    match verify(alloc, program) {
        Ok(verified) => Ok(verified),
        Err((_, VerifyFault::NoMemory)) => Err(End::Memory),
        Err((program, fault)) => Err(refused(alloc, &program, &fault)),
    }
}

/// Links the classes, looks up the `main` of the class of this name, and verifies the program. The
/// error is the end of the program: the first rule of linking that is broken, the look-up that is
/// refused, or the first check that fails.
pub fn prepare(
    alloc: Global,
    classes: Items<Loaded>,
    main: &Name,
) -> Result<(Verified, MethodId), End>
    requires { All IsReadable classes }
    ensures program { (result ≡ Err End.Memory) ⊎ (result ≡ prepared classes main.now) }
    ensures main { IfOk result (λ x. IsMain x.0 x.1) }
    ensures words { result ≡ Err End.Words → ⊥ }
    ensures folder { result ≡ Err End.Folder → ⊥ }
{
    let program = linked(alloc, classes)?;
    let method = found(&program, main)?;
    let verified = verified(alloc, program)?;
    Ok((verified, method))
}
