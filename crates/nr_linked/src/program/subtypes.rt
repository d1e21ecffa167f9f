//! Which kinds stand below which.

ghost use Rattle.std.specs.Prelude.{◌≡◌, ◌==◌};
ghost use Rattle.std.specs.List.{list_any};
ghost use Rattle.nr_linked.specs.BuiltIns.{built_in};
ghost use Rattle.nr_linked.specs.Subtypes.{admits_any, admits_arrays, is_above, is_above_arrays, is_assignable, is_base_assignable, is_base_sub, is_sub};
ghost use Rattle.nr_linked.specs.Kinds.{is_same_primitive};

use super::built_in::BuiltIn;
use super::kind::{Base, ClassId, Kind};
use super::tables::ProgramTables;

fn is_same_primitive(a: Base, b: Base) -> bool
    ensures { result ≡ is_same_primitive a b }
{
    match (a, b) {
        (Base::Object(_), _) | (_, Base::Object(_)) => false,
        _ => a == b,
    }
}

impl ProgramTables {
    pub(super) fn is_above(&self, class: ClassId, above: ClassId) -> bool
        ensures { result ≡ is_above self.now class above }
    {
        match self.class_at(class) {
            Some(info) => info.supers.as_slice().contains(&above),
            None => false,
        }
    }

    pub(super) fn is_built_in(&self, class: ClassId, which: BuiltIn) -> bool
        ensures { result ≡ (class == built_in self.now which) }
    {
        class as usize == self.built_in(which)
    }

    fn has_built_in(&self, classes: &[ClassId], which: BuiltIn) -> bool
        ensures { result ≡ list_any (λ c. c == built_in self.now which) classes.now }
    {
        classes.iter().any(|class| self.is_built_in(*class, which))
    }

    /// The same as `is_above`, of a built-in class or interface.
    pub(super) fn is_above_built_in(&self, class: ClassId, above: BuiltIn) -> bool
        ensures { result ≡ is_above self.now class (built_in self.now above) }
    {
        match self.class_at(class) {
            Some(info) => self.has_built_in(info.supers.as_slice(), above),
            None => false,
        }
    }

    fn is_base_sub(&self, a: Base, b: Base) -> bool
        ensures { result ≡ is_base_sub self.now a b }
    {
        match (a, b) {
            (Base::Object(class), Base::Object(above)) => self.is_above(class, above),
            _ => is_same_primitive(a, b),
        }
    }

    fn is_above_arrays(&self, b: Base) -> bool
        ensures { result ≡ is_above_arrays self.now b }
    {
        match b {
            Base::Object(class) => {
                self.is_built_in(class, BuiltIn::Object)
                    || self.is_built_in(class, BuiltIn::Cloneable)
                    || self.is_built_in(class, BuiltIn::Serializable)
            }
            _ => false,
        }
    }

    /// Whether an object or an array of kind `a` is one of kind `b`.
    #[tactic(auto, using(crate::proofs::Components::components_more, crate::proofs::Components::components_same, crate::proofs::Components::components_less))]
    pub(super) fn is_sub(&self, a: Kind, b: Kind) -> bool
        ensures { result ≡ is_sub self.now a b }
    {
        if a.dims > b.dims {
            self.is_above_arrays(b.base)
        } else {
            a.dims == b.dims && self.is_base_sub(a.base, b.base)
        }
    }

    fn admits_any(&self, class: ClassId) -> bool
        ensures { result ≡ admits_any self.now class }
    {
        self.is_built_in(class, BuiltIn::Object) || self.is_interface(class)
    }

    fn is_base_assignable(&self, a: Base, b: Base) -> bool
        ensures { result ≡ is_base_assignable self.now a b }
    {
        match (a, b) {
            (Base::Object(class), Base::Object(above)) => {
                self.admits_any(above) || self.is_above(class, above)
            }
            _ => is_same_primitive(a, b),
        }
    }

    fn admits_arrays(&self, b: Base) -> bool
        ensures { result ≡ admits_arrays self.now b }
    {
        match b {
            Base::Object(class) => self.admits_any(class),
            _ => false,
        }
    }

    /// Whether a reference of kind `a` goes where one of kind `b` is wanted.
    #[tactic(auto, using(crate::proofs::Components::components_more, crate::proofs::Components::components_same, crate::proofs::Components::components_less))]
    pub(super) fn is_assignable(&self, a: Kind, b: Kind) -> bool
        ensures { result ≡ is_assignable self.now a b }
    {
        if a.dims > b.dims {
            self.admits_arrays(b.base)
        } else {
            a.dims == b.dims && self.is_base_assignable(a.base, b.base)
        }
    }
}
