//! Classes by their numbers and names.

ghost use Rattle.std.specs.Prelude.{◌≡◌, ◌<◌, length, IfSome, option_copied};
ghost use Rattle.nr_linked.specs.BuiltIns.{built_in};
ghost use Rattle.nr_linked.specs.KindTexts.{class_name};
ghost use Rattle.nr_linked.specs.Programs.{class_at, class_named, is_interface, method_at, super_of};

use super::built_in::BuiltIn;
use super::flags::{INTERFACE, has_flag};
use super::kind::{ClassId, MethodId};
use super::tables::{ClassInfo, MethodInfo, ProgramTables};
use nr_base::Name;

impl ProgramTables {
    /// The entry of a class, or `None` where the number names none.
    pub fn class_at(&self, class: ClassId) -> Option<&ClassInfo>
        ensures { option_copied result ≡ class_at self.now class }
    {
        self.classes.as_slice().get(class as usize)
    }

    /// The entry of a method, or `None` where the number names none.
    pub fn method_at(&self, method: MethodId) -> Option<&MethodInfo>
        ensures { option_copied result ≡ method_at self.now method }
    {
        self.methods.as_slice().get(method as usize)
    }

    /// The number of a built-in class.
    pub fn built_in(&self, class: BuiltIn) -> usize
        ensures { result ≡ built_in self.now class }
    {
        self.classes.len().saturating_sub(BuiltIn::COUNT) + class.number()
    }

    /// Whether the class is an interface (JVM Specification 4.1, table 4.1-A).
    pub fn is_interface(&self, class: ClassId) -> bool
        ensures { result ≡ is_interface self.now class }
    {
        match self.class_at(class) {
            Some(info) => has_flag(info.flags, INTERFACE),
            None => false,
        }
    }

    /// The superclass; none for `java/lang/Object` and where the number names no class.
    pub fn super_of(&self, class: ClassId) -> Option<ClassId>
        ensures { result ≡ super_of self.now class }
    {
        self.class_at(class)?.super_class
    }

    pub(super) fn place_of(&self, name: &Name) -> Option<usize>
        ensures named { result ≡ class_named self.now name.now }
        ensures within { IfSome result (λ c. c < length self.now.classes) }
    {
        self.classes
            .as_slice()
            .iter()
            .position(|info| info.name.as_bytes() == name.as_bytes())
    }
}
