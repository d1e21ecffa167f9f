//! Which kinds a call carries, and which it restores.

ghost use Rattle.std.specs.Prelude.{◌≡◌, length};
ghost use Rattle.std.specs.List.{list_any};
ghost use Rattle.nr_linked.specs.Programs.{superclasses};
ghost use Rattle.nr_linked.specs.KindTexts.{kind_text};
ghost use Rattle.nr_linked.specs.Restorable.{is_restorable};
ghost use Rattle.nr_linked.specs.Sendable.{are_serializable, has_feature, has_twins, is_class_sendable, is_concrete, is_sendable, is_serial_class, is_serial_field, is_serial_method, is_serial_method_name, is_serializable, lists_fields};
ghost use Rattle.nr_linked.specs.Slots.{slots_of};

use super::built_in::BuiltIn;
use super::flags::{ABSTRACT, INTERFACE, STATIC, TRANSIENT, has_flag};
use super::kind::{Base, ClassId, Kind};
use super::tables::ProgramTables;
use super::twins::has_twins;
use nr_prog::{Class, Field, Method};

fn is_serial_method_name(name: &[u8]) -> bool
    ensures { result ≡ is_serial_method_name name.now }
{
    name == b"writeObject".as_slice()
        || name == b"readObject".as_slice()
        || name == b"readObjectNoData".as_slice()
        || name == b"readResolve".as_slice()
        || name == b"writeReplace".as_slice()
}

#[tactic(auto, unfolding(nr_prog::specs::Members::spells))]
fn is_serial_method(class: &Class, method: &Method) -> bool
    ensures { result ≡ is_serial_method class.now.pool method.now }
{
    match class.text(method.name) {
        Some(name) => is_serial_method_name(name),
        None => false,
    }
}

#[tactic(auto, unfolding(nr_prog::specs::Members::spells))]
fn lists_fields(class: &Class, field: &Field) -> bool
    ensures { result ≡ lists_fields class.now.pool field.now }
{
    match class.text(field.name) {
        Some(name) => name == b"serialPersistentFields".as_slice(),
        None => false,
    }
}

fn is_serial_field(class: &Class, field: &Field) -> bool
    ensures { result ≡ is_serial_field class.now.pool field.now }
{
    lists_fields(class, field) || has_flag(field.flags, TRANSIENT) && !has_flag(field.flags, STATIC)
}

fn has_serial_method(class: &Class) -> bool
    ensures { result ≡ list_any (is_serial_method class.now.pool) class.now.methods }
{
    let methods = class.parts().methods.as_slice();
    methods.iter().any(|method| is_serial_method(class, method))
}

fn has_serial_field(class: &Class) -> bool
    ensures { result ≡ list_any (is_serial_field class.now.pool) class.now.fields }
{
    let fields = class.parts().fields.as_slice();
    fields.iter().any(|field| is_serial_field(class, field))
}

/// Whether the class has a feature of serialization that is left out.
#[tactic(auto, unfolding(crate::specs::Sendable::has_feature))]
fn has_feature(class: &Class) -> bool
    ensures { result ≡ has_feature class.now }
{
    has_serial_method(class) || has_serial_field(class)
}

impl ProgramTables {
    fn is_serial_class(&self, class: ClassId) -> bool
        ensures { result ≡ is_serial_class self.now class }
    {
        match self.class_at(class) {
            Some(info) => match &info.read {
                Some(read) => has_feature(read),
                None => false,
            },
            None => false,
        }
    }

    fn is_serializable(&self, class: ClassId) -> bool
        ensures { result ≡ is_serializable self.now class }
    {
        self.is_above_built_in(class, BuiltIn::Serializable)
    }

    fn is_concrete(&self, class: ClassId) -> bool
        ensures { result ≡ is_concrete self.now class }
    {
        match self.class_at(class) {
            Some(info) => !has_flag(info.flags, INTERFACE) && !has_flag(info.flags, ABSTRACT),
            None => false,
        }
    }

    /// Whether the class and each superclass but `java/lang/Object` is serializable.
    fn are_serializable(&self, class: ClassId) -> bool
        ensures { result ≡ are_serializable self.now class }
    {
        self.superclasses(class).all(|class| {
            self.is_built_in(class, BuiltIn::Object) || self.is_serializable(class)
        })
    }

    fn has_serial_class(&self, class: ClassId) -> bool
        ensures { result ≡ list_any (is_serial_class self.now) (superclasses self.now class) }
    {
        self.superclasses(class)
            .any(|class| self.is_serial_class(class))
    }

    fn is_class_sendable(&self, class: ClassId) -> bool
        ensures { result ≡ is_class_sendable self.now class }
    {
        self.is_concrete(class)
            && self.is_serializable(class)
            && self.are_serializable(class)
            && !self.has_serial_class(class)
            && !self.has_twins(class)
    }

    /// Whether two slots of the class's objects have one name and one declaring class.
    fn has_twins(&self, class: ClassId) -> bool
        ensures { result ≡ has_twins (slots_of self.now class) }
    {
        match self.class_at(class) {
            Some(info) => has_twins(info.slots.allocator(), info.slots.as_slice()),
            None => false,
        }
    }

    /// How many bytes the kind's descriptor has.
    fn text_len(&self, kind: Kind) -> usize
        ensures { result ≡ length (kind_text self.now kind) }
    {
        let base = match kind.base {
            Base::Object(class) => match self.class_at(class) {
                Some(info) => info.name.as_bytes().len() + 2,
                None => 2,
            },
            _ => 1,
        };
        usize::from(kind.dims) + base
    }

    pub(super) fn is_sendable(&self, kind: Kind) -> bool
        ensures { result ≡ is_sendable self.now kind }
    {
        match kind {
            Kind { dims: 0, base } => match base {
                Base::Object(class) => self.is_class_sendable(class),
                _ => false,
            },
            _ => self.text_len(kind) <= 0xFFFF,
        }
    }

    pub(super) fn is_restorable(&self, kind: Kind) -> bool
        ensures { result ≡ is_restorable self.now kind }
    {
        match kind {
            Kind {
                dims: 0,
                base: Base::Object(class),
            } => self.is_above_built_in(class, BuiltIn::Restorable),
            _ => kind.dims > 0,
        }
    }
}
