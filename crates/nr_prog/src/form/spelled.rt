//! Whether an index names a text that is a legal name or a descriptor.

ghost use Rattle.std.specs.Prelude.{◌≡◌, Some, None};
ghost use Rattle.std.specs.Option.{option_map_or};
ghost use Rattle.nr_prog.specs.LegalTests.{is_class_text, is_field_desc, is_field_text, is_method_text};
ghost use Rattle.nr_prog.specs.Members.{spells};
ghost use Rattle.nr_prog.specs.Pool.{text_at};
ghost use Rattle.nr_prog.specs.TextForms.{void_of};

use crate::pool::Pool;

/// A legal name of a class (JVM Specification 4.2.1).
#[tactic(auto, using(crate::proofs::FormTests::class_told, crate::proofs::FormTests::class_untold))]
pub fn is_class_name(pool: &Pool, index: u16) -> bool
    ensures { result ≡ spells is_class_text pool.now index }
{
    match pool.form(index) {
        Some(form) => form.class_name,
        None => false,
    }
}

/// A legal name of a field (JVM Specification 4.2.2).
#[tactic(auto, using(crate::proofs::FormTests::field_told, crate::proofs::FormTests::field_untold))]
pub fn is_field_name(pool: &Pool, index: u16) -> bool
    ensures { result ≡ spells is_field_text pool.now index }
{
    match pool.form(index) {
        Some(form) => form.field_name,
        None => false,
    }
}

/// A legal name of a method (JVM Specification 4.2.2).
#[tactic(auto, using(crate::proofs::FormTests::method_told, crate::proofs::FormTests::method_untold))]
pub fn is_method_name(pool: &Pool, index: u16) -> bool
    ensures { result ≡ spells is_method_text pool.now index }
{
    match pool.form(index) {
        Some(form) => form.method_name,
        None => false,
    }
}

/// A field's descriptor (JVM Specification 4.3.2).
#[tactic(auto, using(crate::proofs::FormTests::desc_told, crate::proofs::FormTests::desc_untold))]
pub fn is_field_type(pool: &Pool, index: u16) -> bool
    ensures { result ≡ spells is_field_desc pool.now index }
{
    match pool.form(index) {
        Some(form) => form.dims.is_some(),
        None => false,
    }
}

/// Whether a method of the descriptor at an index returns nothing, or `None` where no method's
/// descriptor stands there (JVM Specification 4.3.3).
#[tactic(auto, using(crate::proofs::FormTests::void_told, crate::proofs::FormTests::void_missed, crate::proofs::FormTests::void_untold))]
pub fn is_void_method(pool: &Pool, index: u16) -> Option<bool>
    ensures { result ≡ option_map_or void_of (text_at pool.now index) None }
{
    match &pool.form(index)?.method {
        Some(method) => Some(method.void),
        None => None,
    }
}
