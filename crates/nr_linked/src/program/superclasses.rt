//! A class and its superclasses.

ghost use Rattle.std.specs.Prelude.{◌≡◌};
ghost use Rattle.std.specs.Iterator.{YieldsFirst, item_count};
ghost use Rattle.nr_linked.specs.Programs.{superclasses, upward};

use super::kind::ClassId;
use super::tables::ProgramTables;

/// The classes from one upward, at most as many as are left.
#[derive(Drop)]
pub struct Superclasses<'a> {
    tables: &'a ProgramTables,
    next: Option<ClassId>,
    left: usize,
}

impl<'a> Iterator for Superclasses<'a> {
    type Item = ClassId;

    ghost next_gives = { YieldsFirst (λ s. upward s.tables.now s.left s.next) };

    ghost remaining = { item_count (λ s. upward s.tables.now s.left s.next) };

    fn next(&mut self) -> Option<ClassId> {
        let class = self.next?;
        if self.left == 0 {
            return None;
        }
        self.left -= 1;
        self.next = self.tables.super_of(class);
        Some(class)
    }
}

impl ProgramTables {
    /// The class, its superclass, and so on up to `java/lang/Object`.
    pub fn superclasses(&self, class: ClassId) -> Superclasses<'_>
        ensures tables { result.tables.now ≡ self.now }
        ensures classes { upward result.tables.now result.left result.next
            ≡ superclasses self.now class }
    {
        Superclasses {
            tables: self,
            next: Some(class),
            left: self.classes.len(),
        }
    }
}
