//! The tables of a linked program.

use super::kind::{ClassId, Kind, MethodId};
use super::types::VFrame;
use nr_base::{Items, Name};
use nr_prog::{Body, Class};

/// The classes and methods of a linked program.
#[derive(Debug, Drop)]
pub struct ProgramTables {
    /// The loaded classes in their order, then the built-in ones in the order of `BuiltIn`.
    pub classes: Items<ClassInfo>,
    /// The methods, class by class.
    pub methods: Items<MethodInfo>,
}

/// A class or an interface of a linked program.
#[derive(Debug, Drop)]
pub struct ClassInfo {
    /// Its name in internal form (JVM Specification 4.2.1).
    pub name: Name,
    /// Its access flags (JVM Specification 4.1, table 4.1-A).
    pub flags: u16,
    /// Its superclass; none for `java/lang/Object` alone.
    pub super_class: Option<ClassId>,
    /// Its direct superinterfaces, in their order.
    pub interfaces: Items<ClassId>,
    /// Itself, and each class and interface above it: its superclass and its direct
    /// superinterfaces, and what is above those.
    pub supers: Items<ClassId>,
    /// The slots of its objects: those of its superclass first, then its own in the order of its
    /// fields.
    pub slots: Items<SlotInfo>,
    /// The place of its first method in the table of methods.
    pub first_method: MethodId,
    /// How many methods it declares; they stand together, in their order.
    pub methods: u32,
    /// The class as it was read; none for a built-in class.
    pub read: Option<Class>,
}

/// A slot of a class's objects, which holds the value of an instance field.
#[derive(Debug, Drop, PartialEq, Eq)]
pub struct SlotInfo {
    /// The class that declares the field.
    pub declared_in: ClassId,
    /// The field's name.
    pub name: Name,
    /// The field's descriptor.
    pub desc: Name,
    /// What the descriptor says.
    pub kind: Kind,
}

/// A method of a linked program.
#[derive(Debug, Drop)]
pub struct MethodInfo {
    /// The class that declares it.
    pub class: ClassId,
    pub name: Name,
    /// Its descriptor.
    pub desc: Name,
    /// Its access flags (JVM Specification 4.6, table 4.6-A).
    pub flags: u16,
    /// The kinds of its parameters, without `this`.
    pub params: Items<Kind>,
    /// The kind of its result; none where it returns nothing.
    pub result: Option<Kind>,
    /// The places of its operand stack.
    pub max_stack: u16,
    /// The places of its local variables.
    pub max_locals: u16,
    /// Its code; none for an abstract method and for a built-in one.
    pub body: Option<Body>,
    /// What linking found for each instruction of the body.
    pub resolved: Items<Resolved>,
    /// The class that each exception handler of the body catches; none where it catches all.
    pub catches: Items<Option<Kind>>,
    /// The frames that the body's frame maps say, each with the offset of its instruction.
    pub maps: Items<(u16, VFrame)>,
}

/// What linking found for an instruction.
#[derive(Clone, Copy, Debug, PartialEq, Eq)]
pub enum Resolved {
    /// The instruction names nothing of the constant pool.
    Nothing,
    /// An int of the constant pool.
    Int(i32),
    /// A long of the constant pool.
    Long(i64),
    /// The class or the array that it names.
    Kind(Kind),
    /// A field: the class that the instruction names, and the field's slot.
    Slot(ClassId, u32),
    /// A method, and the class that the instruction names.
    Method(MethodId, ClassId),
}
