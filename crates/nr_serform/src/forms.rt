//! What is known of each class of a program.

ghost use Rattle.std.specs.Prelude.{◌≡◌, length, map, IfOk};
ghost use Rattle.nr_linked.specs.Kinds.{class_kind};
ghost use Rattle.nr_linked.specs.Sendable.{is_class_sendable, is_sendable};
ghost use Rattle.nr_graph.specs.StreamOrder.{declared_slots, stream_slots};
ghost use Rattle.nr_serform.specs.ClassNumbers.{class_number};
ghost use Rattle.nr_serform.specs.Descriptions.{super_but_object};
ghost use Rattle.nr_serform.specs.Forms.{IsFormOf};
ghost use Rattle.nr_serform.specs.StreamSlots.{placed_of};

use crate::form::Form;
use crate::number::number_of;
use crate::order::{StreamSlot, declared_slots, stream_slots};
use nr_linked::{Base, BuiltIn, ClassId, Kind, Program};
use std::alloc::{AllocError, Global};
use std::marker::Model;

/// What writers and readers of streams know of the classes of a program, made once for each class.
/// Contracts see it as the program's tables.
#[derive(Drop)]
pub struct Forms<'p> {
    program: &'p Program,
    forms: Vec<Form<'p>>,
}

impl<'p> Model for Forms<'p> {
    ghost use Rattle.nr_linked.specs.declared.program.tables.ProgramTables.{ProgramTables};
    ghost use Rattle.nr_serform.specs.Forms.{AreForms};

    ghost Value = { ProgramTables };

    ghost view = { λ f. f.program.now };

    ghost invariant = { λ f. AreForms f.program.now f.forms.items };
}

fn class_kind(class: ClassId) -> Kind
    ensures { result ≡ class_kind class }
{
    Kind {
        dims: 0,
        base: Base::Object(class),
    }
}

fn form_of(alloc: Global, program: &Program, class: ClassId) -> Result<Form<'_>, AllocError>
    ensures { IfOk result (λ form. IsFormOf program.now class form) }
{
    Ok(Form {
        slots: stream_slots(alloc, program, class)?,
        fields: declared_slots(alloc, program, class)?,
        number: number_of(alloc, program, class)?,
        sendable: program.sendable(class_kind(class)),
    })
}

/// How many classes the program has.
fn class_count(program: &Program) -> u32
    ensures { result ≡ length program.now.classes }
{
    program.tables().classes.len() as u32
}

impl<'p> Forms<'p> {
    /// What is known of the classes of a program. The error comes only for want of memory.
    pub fn new(alloc: Global, program: &'p Program) -> Result<Forms<'p>, AllocError>
        ensures { IfOk result (λ forms. forms ≡ program.now) }
    {
        let count = class_count(program);
        let mut forms = Vec::new(alloc);
        for class in 0..count {
            forms.push(form_of(alloc, program, class)?)?;
        }
        forms.push(form_of(alloc, program, count)?)?;
        Ok(Forms { program, forms })
    }

    pub fn program(&self) -> &'p Program
        ensures { result.now ≡ self.now }
    {
        self.program
    }

    /// What is known of a class, or of no class where the number names none.
    fn form(&self, class: ClassId) -> &Form<'p>
        ensures { IsFormOf self.now class result.now }
    {
        let last = self.forms.len() - 1;
        let place = (class as usize).min(last);
        &self.forms[place]
    }

    /// The slots of the class's objects in the order of a stream, and none where there is no such class.
    pub fn slots(&self, class: ClassId) -> &[StreamSlot<'p>]
        ensures { map placed_of result.now ≡ stream_slots self.now class }
    {
        self.form(class).slots.as_slice()
    }

    /// The slots of the fields that the class itself declares, in the order of a stream, as its
    /// description has them; none where there is no such class.
    pub fn fields(&self, class: ClassId) -> &[StreamSlot<'p>]
        ensures { map placed_of result.now ≡ declared_slots self.now class class }
    {
        self.form(class).fields.as_slice()
    }

    /// The class's number, and 0 for a built-in class.
    pub fn number(&self, class: ClassId) -> u64
        ensures { result ≡ class_number self.now class }
    {
        self.form(class).number
    }

    fn is_class_sendable(&self, class: ClassId) -> bool
        ensures { result ≡ is_class_sendable self.now class }
    {
        self.form(class).sendable
    }

    /// Whether a call carries objects or arrays of the kind. It is false for a primitive type.
    pub fn sendable(&self, kind: Kind) -> bool
        ensures { result ≡ is_sendable self.now kind }
    {
        match kind {
            Kind { dims: 0, base } => match base {
                Base::Object(class) => self.is_class_sendable(class),
                _ => false,
            },
            _ => self.program.sendable(kind),
        }
    }

    /// The superclass that stands in the class's description: none where that is `java/lang/Object`.
    pub fn super_class(&self, class: ClassId) -> Option<ClassId>
        ensures { result ≡ super_but_object self.now class }
    {
        let above = self.program.super_class(class)?;
        if above == self.program.built_in(BuiltIn::Object) {
            return None;
        }
        Some(above)
    }
}
