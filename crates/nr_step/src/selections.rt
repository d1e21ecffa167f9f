//! A memory of the methods that calls run.

ghost use Rattle.std.specs.Prelude.{◌≡◌, ◌<◌, IfOk};
ghost use Rattle.nr_linked.specs.Selection.{selected};

use nr_linked::{ClassId, MethodId, Program};
use std::alloc::{AllocError, Global};
use std::marker::Model;

/// How many selections are kept.
const PLACES: usize = 1024;

/// The method that a call of `method` runs where the receiver is of the class.
#[derive(Clone, Copy, Debug, PartialEq, Eq)]
pub(crate) struct Selected {
    method: MethodId,
    class: ClassId,
    selected: Option<MethodId>,
}

/// Whose method no program has: so nothing is selected for it.
const NOTHING: Selected = Selected {
    method: u32::MAX,
    class: 0,
    selected: None,
};

/// A program's selections of methods (JVM Specification 5.4.6), of which it keeps those that were asked for
/// last. It answers what `Program::select` does. Contracts see the program alone. (The project's own.)
#[derive(Debug, Drop)]
pub struct Selections<'p> {
    program: &'p Program,
    kept: Vec<Selected>,
}

impl<'p> Model for Selections<'p> {
    ghost use Rattle.nr_linked.specs.declared.program.tables.ProgramTables.{ProgramTables};

    ghost Value = { ProgramTables };

    ghost use Rattle.nr_step.specs.Selecting.{program_of, AreSelections};

    ghost view = { program_of };

    ghost invariant = { AreSelections };
}

/// Where the selection for a method and a class is kept.
#[inline(always)]
fn place_for(method: MethodId, class: ClassId) -> usize
    ensures { result < 1024 }
{
    (method.wrapping_mul(61).wrapping_add(class) % 1024) as usize
}

impl<'p> Selections<'p> {
    /// With nothing kept yet, and all the room that it will have. `AllocError` for want of memory.
    pub fn new(alloc: Global, program: &'p Program) -> Result<Selections<'p>, AllocError>
        ensures { IfOk result (λ s. s ≡ program.now) }
    {
        let _facts = program.tables();
        Ok(Selections {
            program,
            kept: vec![in alloc; NOTHING; PLACES]?,
        })
    }

    /// The method that a call of `method` runs where the receiver is of the class, or `None` where no method
    /// with a body is selected. It takes no memory.
    #[inline(always)]
    pub fn select(&mut self, method: MethodId, class: ClassId) -> Option<MethodId>
        ensures selected { result ≡ selected self.old method class }
        ensures same { self.new ≡ self.old }
    {
        let place = place_for(method, class);
        let last = self.kept[place];
        if last.method == method && last.class == class {
            return last.selected;
        }
        let selected = self.program.select(method, class);
        self.kept[place] = Selected {
            method,
            class,
            selected,
        };
        selected
    }
}
