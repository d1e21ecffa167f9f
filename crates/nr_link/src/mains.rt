//! The method with which a program begins.

ghost use Rattle.std.specs.Prelude.{◌≡◌, codes};
ghost use Rattle.std.specs.Option.{option_and_then};
ghost use Rattle.nr_base.specs.Clauses.{GivesWhole};
ghost use Rattle.nr_linked.specs.Selection.{static_named, with_body};
ghost use Rattle.nr_linkrules.specs.Faults.{is_free};
ghost use Rattle.nr_linkrules.specs.Mains.{main_of};

use crate::above::copied;
use nr_base::Name;
use nr_linked::{ClassId, MethodId, Program};
use nr_linkrules::LinkFault;

/// The public static `main([I)I` with code that the class itself declares.
fn main_in(program: &Program, class: ClassId) -> Option<MethodId>
    ensures { result ≡ option_and_then (with_body program.now) (static_named program.now class (codes "main") (codes "([I)I")) }
{
    let method = program.find_static_text(class, b"main", b"([I)I")?;
    match program.method_at(method) {
        Some(info) if info.body.is_some() => Some(method),
        _ => None,
    }
}

/// The method with which a run of the class of that name begins: the public static `main([I)I` that
/// the class itself declares.
///
/// # Errors
///
/// `NoClass` where the program has no class of this name, `NoMain` where the class declares no such
/// method with code, `NoMemory` for want of memory.
#[tactic(auto, unfolding(nr_linkrules::specs::Mains::main_of))]
pub fn find_main(program: &Program, main: &Name) -> Result<MethodId, LinkFault>
    ensures exact { GivesWhole is_free result (main_of program.now main.now) }
{
    let Some(class) = program.class_id(main) else {
        return Err(LinkFault::NoClass(copied(main)?));
    };
    match main_in(program, class) {
        Some(method) => Ok(method),
        None => Err(LinkFault::NoMain(copied(main)?)),
    }
}
