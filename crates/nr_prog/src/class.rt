//! Classes.

ghost use Rattle.std.specs.Prelude.{◌≡◌, ◌<◌, ◌^◌, length, All, IfOk, IfSome, Ok, option_copied};
ghost use Rattle.nr_base.specs.Clauses.{GivesWhole};
ghost use Rattle.nr_prog.specs.Faults.{is_free};
ghost use Rattle.nr_prog.specs.Form.{IsFormed, IsWithinBounds, class_of};
ghost use Rattle.nr_prog.specs.Pool.{IsText, entry_at, text_at};
ghost use Rattle.nr_prog.specs.TextForms.{form_at};

use crate::fault::FormFault;
use crate::form::check_form;
use crate::parts::ClassParts;
use crate::pool::{PoolEntry, entry, form, text};
use crate::text::TextForm;
use nr_base::Items;
use std::alloc::Global;
use std::marker::Model;

/// The parts of a class file that keep the form (JVM Specification 4, in the project's own profile).
/// Contracts see a class as its parts.
#[derive(Debug, Drop)]
pub struct Class {
    parts: ClassParts,
    forms: Items<Option<TextForm>>,
}

impl Model for Class {
    ghost use Rattle.std.specs.Prelude.{◌≡◌, All, None};
    ghost use Rattle.nr_prog.specs.declared.parts.ClassParts.{ClassParts};
    ghost use Rattle.nr_prog.specs.Form.{IsWithinBounds};
    ghost use Rattle.nr_prog.specs.Pool.{IsText};
    ghost use Rattle.nr_prog.specs.Rules.{form_fault};
    ghost use Rattle.nr_prog.specs.TextForms.{forms_of};

    ghost Value = { ClassParts };

    ghost view = { λ c. c.parts };

    ghost invariant = { λ c. (form_fault c.parts ≡ None) × IsWithinBounds c.parts × All IsText c.parts.pool × (c.forms ≡ forms_of c.parts.pool) };
}

impl Class {
    /// The class of the parts.
    ///
    /// # Errors
    ///
    /// The first fault of their form, in this order: of the entries of the constant pool, by index; of
    /// the class, its superclass and its superinterfaces; of each field, its name, its descriptor, that
    /// both stand at no earlier field, and its constant value; and of each method, its name, its
    /// descriptor, that both stand at no earlier method, the profile, and its code. `NoMemory` for want
    /// of memory.
    pub fn from_parts(alloc: Global, parts: ClassParts) -> Result<Class, FormFault>
        requires { IsWithinBounds parts }
        ensures formed { IfOk result (λ c. (c ≡ parts) × IsFormed parts) }
        ensures only { IsFormed parts → GivesWhole is_free result (Ok parts) }
        ensures exact { GivesWhole is_free result (class_of parts) }
    {
        let forms = check_form(alloc, &parts)?;
        Ok(Class { parts, forms })
    }

    /// The parts of the class.
    pub fn parts(&self) -> &ClassParts
        ensures parts { result.now ≡ self.now }
        ensures formed { IsFormed self.now }
        ensures bounds { IsWithinBounds self.now }
        ensures texts { All IsText self.now.pool }
    {
        &self.parts
    }

    /// The entry of the constant pool at an index, which counts from 1 (JVM Specification 4.4).
    pub fn entry(&self, index: u16) -> Option<&PoolEntry>
        ensures { option_copied result ≡ entry_at self.now.pool index }
    {
        entry(self.parts.pool.as_slice(), usize::from(index))
    }

    /// The bytes of the Utf8 entry at an index, where one stands there (JVM Specification 4.4.7).
    pub fn text(&self, index: u16) -> Option<&[u8]>
        ensures value { option_copied result ≡ text_at self.now.pool index }
        ensures short { IfSome result (λ bytes. length bytes.now < 2 ^ 16) }
    {
        text(self.parts.pool.as_slice(), index)
    }

    /// What the text at an index spells, where one stands there (JVM Specification 4.4.7).
    #[tactic(auto, using(crate::proofs::FormTests::listed_at))]
    pub fn form(&self, index: u16) -> Option<&TextForm>
        ensures { option_copied result ≡ form_at self.now.pool index }
    {
        form(self.forms.as_slice(), index)
    }
}
