//! Linked programs.

ghost use Rattle.std.specs.Prelude.{◌≡◌, ◌<◌, length, option_copied, slice_get, Some};
ghost use Rattle.nr_linked.specs.BuiltIns.{built_in};
ghost use Rattle.nr_linked.specs.Facts.{ProgramFacts};
ghost use Rattle.nr_linked.specs.KindTexts.{class_name};
ghost use Rattle.nr_linked.specs.Programs.{class_at, class_named, method_at, params_of, result_of, super_of};
ghost use Rattle.nr_linked.specs.Restorable.{is_restorable};
ghost use Rattle.nr_linked.specs.Selection.{selected, static_named};
ghost use Rattle.nr_linked.specs.Sendable.{is_sendable};
ghost use Rattle.nr_linked.specs.Slots.{kind_of_slot, slot_named, slots_of};
ghost use Rattle.nr_linked.specs.Subtypes.{is_assignable, is_sub};

mod built_in;
mod classes;
mod flags;
mod kind;
mod law;
mod method_name;
mod selection;
mod sendable;
mod slots;
mod subtypes;
mod superclasses;
mod tables;
mod twins;
mod types;

pub use built_in::BuiltIn;
pub use kind::{Base, ClassId, Kind, MethodId};
pub use law::{built_in_classes_have_no_slot, built_ins_are_linked, static_methods_are_found};
pub use method_name::MethodName;
use nr_base::Name;
use std::marker::Model;
pub use superclasses::Superclasses;
pub use tables::{ClassInfo, MethodInfo, ProgramTables, Resolved, SlotInfo};
pub use types::{VFrame, VType};

/// A linked program. Contracts see it as its tables, which keep `ProgramFacts` of `specs/Facts.antt`.
#[derive(Debug, Drop)]
pub struct Program {
    tables: ProgramTables,
}

impl Model for Program {
    ghost use Rattle.nr_linked.specs.declared.program.tables.ProgramTables.{ProgramTables};
    ghost use Rattle.nr_linked.specs.Facts.{ProgramFacts};

    ghost Value = { ProgramTables };

    ghost view = { λ p. p.tables };

    ghost invariant = { λ p. ProgramFacts p.tables };
}

impl Program {
    /// The program of tables that linking gave. It takes no memory.
    pub fn new(tables: ProgramTables) -> Program
        requires { ProgramFacts tables }
        ensures { result ≡ tables }
    {
        Program { tables }
    }

    /// The tables. They have the facts that each program keeps.
    pub fn tables(&self) -> &ProgramTables
        ensures tables { result.now ≡ self.now }
        ensures facts { ProgramFacts self.now }
    {
        &self.tables
    }

    /// The entry of a class.
    pub fn class(&self, class: ClassId) -> &ClassInfo
        requires { class < length self.now.classes }
        ensures { class_at self.now class ≡ Some result.now }
    {
        &self.tables.classes.as_slice()[class as usize]
    }

    /// The entry of a method.
    pub fn method(&self, method: MethodId) -> &MethodInfo
        requires { method < length self.now.methods }
        ensures { method_at self.now method ≡ Some result.now }
    {
        &self.tables.methods.as_slice()[method as usize]
    }

    /// The entry of a method, or `None` where the program has none of this number.
    pub fn method_at(&self, method: MethodId) -> Option<&MethodInfo>
        ensures { option_copied result ≡ method_at self.now method }
    {
        self.tables.method_at(method)
    }

    /// The superclass of a class; none for `java/lang/Object` and where the program has no such class.
    pub fn super_class(&self, class: ClassId) -> Option<ClassId>
        ensures { result ≡ super_of self.now class }
    {
        self.tables.super_of(class)
    }

    /// The class of that name, or `None` where the program has none.
    pub fn class_id(&self, name: &Name) -> Option<ClassId>
        ensures { result ≡ class_named self.now name.now }
    {
        let place = self.tables.place_of(name)?;
        Some(place as u32)
    }

    /// The number of a built-in class.
    pub fn built_in(&self, class: BuiltIn) -> ClassId
        ensures { result ≡ built_in self.now class }
    {
        self.tables.built_in(class) as u32
    }

    /// The name of a class, in internal form.
    pub fn class_name(&self, class: ClassId) -> &Name
        requires { class < length self.now.classes }
        ensures { result.now ≡ class_name self.now class }
    {
        &self.class(class).name
    }

    /// Whether an object or an array of kind `a` is one of kind `b` (JVM Specification 6.5,
    /// checkcast).
    pub fn is_sub(&self, a: Kind, b: Kind) -> bool
        ensures { result ≡ is_sub self.now a b }
    {
        self.tables.is_sub(a, b)
    }

    /// Whether the verifier lets a reference of kind `a` go where one of kind `b` is wanted (JVM
    /// Specification 4.10.1.2). An interface admits any reference.
    pub fn is_assignable(&self, a: Kind, b: Kind) -> bool
        ensures { result ≡ is_assignable self.now a b }
    {
        self.tables.is_assignable(a, b)
    }

    /// How many slots the class's objects have.
    #[tactic(auto, using(crate::proofs::Places::few_slots))]
    pub fn slots(&self, class: ClassId) -> u32
        ensures { result ≡ length (slots_of self.now class) }
    {
        self.tables.slots_of(class).len() as u32
    }

    /// The entry of a slot of the class's objects, or `None` where they have none of this number.
    pub fn slot(&self, class: ClassId, slot: u32) -> Option<&SlotInfo>
        ensures { option_copied result ≡ slice_get (slots_of self.now class) slot }
    {
        self.tables.slots_of(class).get(slot as usize)
    }

    /// The kind of what a slot of the class's objects holds.
    pub fn slot_kind(&self, class: ClassId, slot: u32) -> Kind
        requires { slot < length (slots_of self.now class) }
        ensures { kind_of_slot self.now class slot ≡ Some result }
    {
        self.tables.slots_of(class)[slot as usize].kind
    }

    /// The slot, in the class's objects, of the first field of that name that `declared_in`
    /// declares, or `None` where it declares none.
    #[tactic(auto, using(crate::proofs::Places::few_slots))]
    pub fn slot_of(&self, class: ClassId, declared_in: ClassId, field: &Name) -> Option<u32>
        ensures { result ≡ slot_named self.now class declared_in field.now }
    {
        let place = self.tables.slot_named(class, declared_in, field)?;
        Some(place as u32)
    }

    /// The method that a call of `method` runs where the receiver is of the class (JVM
    /// Specification 5.4.6), or `None` where no method with a body is selected.
    pub fn select(&self, method: MethodId, class: ClassId) -> Option<MethodId>
        ensures { result ≡ selected self.now method class }
    {
        let place = self.tables.selected(method, class)?;
        Some(place as u32)
    }

    /// The public static method of that name and descriptor that the class itself declares, or
    /// `None` where it declares none.
    pub fn find_static(&self, class: ClassId, name: &Name, desc: &Name) -> Option<MethodId>
        ensures { result ≡ static_named self.now class name.now desc.now }
    {
        self.find_static_text(class, name.as_bytes(), desc.as_bytes())
    }

    /// The same as `find_static`, by the bytes of the name and of the descriptor.
    pub fn find_static_text(&self, class: ClassId, name: &[u8], desc: &[u8]) -> Option<MethodId>
        ensures { result ≡ static_named self.now class name.now desc.now }
    {
        let place = self.tables.static_named(class, name, desc)?;
        Some(place as u32)
    }

    /// The kinds of a method's parameters, without `this`.
    pub fn params(&self, method: MethodId) -> &[Kind]
        requires { method < length self.now.methods }
        ensures { result.now ≡ params_of self.now method }
    {
        self.method(method).params.as_slice()
    }

    /// The kind of a method's result, or `None` where it returns nothing.
    pub fn result(&self, method: MethodId) -> Option<Kind>
        requires { method < length self.now.methods }
        ensures { result ≡ result_of self.now method }
    {
        self.method(method).result
    }

    /// Whether a call carries objects or arrays of the kind. It is false for a primitive type.
    pub fn sendable(&self, kind: Kind) -> bool
        ensures { result ≡ is_sendable self.now kind }
    {
        self.tables.is_sendable(kind)
    }

    /// Whether a call restores objects or arrays of the kind. It is false for a primitive type.
    pub fn restorable(&self, kind: Kind) -> bool
        ensures { result ≡ is_restorable self.now kind }
    {
        self.tables.is_restorable(kind)
    }
}

#[cfg(test)]
mod tests;
