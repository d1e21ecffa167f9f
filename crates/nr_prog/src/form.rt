//! The rules of a class file's form.

ghost use Rattle.std.specs.Prelude.{◌≡◌, All, IfOk, OnOk};
ghost use Rattle.nr_prog.specs.Faults.{Finds};
ghost use Rattle.nr_prog.specs.Form.{IsWithinBounds};
ghost use Rattle.nr_prog.specs.Pool.{IsText};
ghost use Rattle.nr_prog.specs.Rules.{form_fault};
ghost use Rattle.nr_prog.specs.TextForms.{forms_of};

mod classes;
mod constant;
mod descs;
mod fields;
mod legal;
mod methods;
mod pool;
mod seen;
mod spelled;
mod texts;

use crate::fault::FormFault;
use crate::parts::ClassParts;
use crate::pool::Pool;
use crate::text::TextForm;
use classes::check_classes;
use fields::check_fields;
use methods::check_methods;
use nr_base::Items;
use pool::check_pool;
use std::alloc::Global;
use texts::{numbers, text_forms};

/// Looks for the first rule that the parts break (JVM Specification 4; their order is the project's
/// own), and gives what each text of the constant pool spells.
#[tactic(auto, using(crate::proofs::Walks::fails_first), unfolding(crate::specs::Rules::form_fault))]
pub fn check_form(alloc: Global, parts: &ClassParts) -> Result<Items<Option<TextForm>>, FormFault>
    requires { IsWithinBounds parts.now }
    ensures fault { Finds result (form_fault parts.now) }
    ensures texts { OnOk result (All IsText parts.now.pool) }
    ensures forms { IfOk result (λ forms. forms ≡ forms_of parts.now.pool) }
{
    let entries = parts.pool.as_slice();
    check_pool(entries)?;
    let forms = text_forms(alloc, entries)?;
    let numbers = numbers(alloc, entries)?;
    let pool = Pool::new(entries, forms.as_slice(), numbers.as_slice());
    check_classes(
        &pool,
        parts.this_class,
        parts.super_class,
        parts.interfaces.as_slice(),
    )?;
    check_fields(alloc, &pool, parts.fields.as_slice())?;
    check_methods(alloc, &pool, parts.methods.as_slice())?;
    Ok(forms)
}
