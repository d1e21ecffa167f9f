//! What instructions, exception handlers and frame maps name in the constant pool (JVM
//! Specification 4.4).

ghost use Rattle.std.specs.Prelude.{◌≡◌, ◌&&◌, false, not, option_copied};
ghost use Rattle.std.specs.Option.{option_map_or};
ghost use Rattle.nr_base.specs.Names.{is_name};
ghost use Rattle.nr_prog.specs.Members.{spells};
ghost use Rattle.nr_prog.specs.Pool.{names};
ghost use Rattle.nr_prog.specs.BodyNames.{desc_text_at};
ghost use Rattle.nr_instrs.specs.NameForms.{class_form_at, counts, desc_form_at, full_in, reaches as reached_by};
ghost use Rattle.nr_instrs.specs.NameTests.{class_desc_at, is_array, is_component, is_counted, is_field_ref, is_interface_ref, is_method_ref, is_single, names_class, names_class_by};

use nr_base::{Desc, Shared};
use nr_prog::{Class, MethodForm, PoolEntry, TextForm};

// ---- what texts spell

/// What the bytes spell that name the class at an index, where one stands there.
#[tactic(auto, unfolding(crate::specs::NameForms::class_form_at))]
fn class_form(class: &Class, index: u16) -> Option<&TextForm>
    ensures { option_copied result ≡ class_form_at class.now.pool index }
{
    match class.entry(index)? {
        PoolEntry::Class(name) => class.form(*name),
        _ => None,
    }
}

/// What the descriptor spells that a NameAndType names.
#[tactic(auto, unfolding(crate::specs::NameForms::desc_form_at))]
fn desc_form(class: &Class, index: u16) -> Option<&TextForm>
    ensures { option_copied result ≡ desc_form_at class.now.pool index }
{
    match class.entry(index)? {
        PoolEntry::NameAndType(_, desc) => class.form(*desc),
        _ => None,
    }
}

fn has_arrays(form: &TextForm) -> bool
    ensures { result ≡ (form.now.name && not (full_in form.now.dims)) }
{
    form.name && !is_full(form.dims)
}

fn is_full(dims: Option<u8>) -> bool
    ensures { result ≡ full_in dims }
{
    match dims {
        Some(dims) => dims == 255,
        None => false,
    }
}

fn reaches(n: u8, dims: Option<u8>) -> bool
    ensures { result ≡ reached_by n dims }
{
    match dims {
        Some(dims) => 1 <= n && n <= dims,
        None => false,
    }
}

fn takes_slots(count: u8, method: &Option<MethodForm>) -> bool
    ensures { result ≡ counts count method.now }
{
    match method {
        Some(method) => count != 0 && usize::from(count) - 1 == method.slots,
        None => false,
    }
}

// ---- classes

/// Whether an index names a class whose bytes are a name.
#[tactic(auto, using(crate::proofs::Forms::name_told, crate::proofs::Forms::name_untold))]
pub fn is_class(class: &Class, index: u16) -> bool
    ensures { result ≡ names_class class.now.pool index }
{
    match class_form(class, index) {
        Some(form) => form.name,
        None => false,
    }
}

/// Whether an index names a class of which there are arrays.
#[tactic(auto, using(crate::proofs::Forms::component_told, crate::proofs::Forms::component_untold))]
pub fn is_element_class(class: &Class, index: u16) -> bool
    ensures { result ≡ names_class_by is_component class.now.pool index }
{
    match class_form(class, index) {
        Some(form) => has_arrays(form),
        None => false,
    }
}

/// Whether an index names the class of an array with so many dimensions or more, of which there is
/// at least one.
#[tactic(auto, using(crate::proofs::Forms::array_told, crate::proofs::Forms::array_untold))]
pub fn is_array_class(class: &Class, index: u16, n: u8) -> bool
    ensures { result ≡ names_class_by (is_array n) class.now.pool index }
{
    match class_form(class, index) {
        Some(form) => reaches(n, form.dims),
        None => false,
    }
}

/// The class or the array that an index names, as a type.
#[tactic(auto, using(crate::proofs::Forms::class_told, crate::proofs::Forms::class_untold))]
pub fn class_type(class: &Class, index: u16) -> Option<&Shared<Desc>>
    ensures { option_copied result ≡ class_desc_at class.now.pool index }
{
    match class_form(class, index) {
        Some(form) => form.class.as_ref(),
        None => None,
    }
}

// ---- members

/// Whether an index names a field of a class whose bytes are a name.
pub fn is_field(class: &Class, index: u16) -> bool
    ensures { result ≡ names (is_field_ref class.now.pool) class.now.pool index }
{
    match class.entry(index) {
        Some(PoolEntry::FieldRef(owner, _)) => is_class(class, *owner),
        _ => false,
    }
}

/// Whether an index names a method of a class whose bytes are a name.
pub fn is_method(class: &Class, index: u16) -> bool
    ensures { result ≡ names (is_method_ref class.now.pool) class.now.pool index }
{
    match class.entry(index) {
        Some(PoolEntry::MethodRef(owner, _)) => is_class(class, *owner),
        _ => false,
    }
}

/// Whether the arguments of a method with the descriptor that a NameAndType names take so many
/// slots.
#[tactic(auto, using(crate::proofs::Forms::counted_told, crate::proofs::Forms::counted_untold))]
fn is_counted_member(class: &Class, count: u8, index: u16) -> bool
    ensures { result ≡ option_map_or (is_counted count) (desc_text_at class.now.pool index) false }
{
    match desc_form(class, index) {
        Some(form) => takes_slots(count, &form.method),
        None => false,
    }
}

/// Whether an index names a method of an interface whose bytes are a name, and the arguments take
/// so many slots.
pub fn is_interface_method(class: &Class, count: u8, index: u16) -> bool
    ensures { result ≡ names (is_interface_ref class.now.pool count) class.now.pool index }
{
    match class.entry(index) {
        Some(PoolEntry::InterfaceMethodRef(owner, member)) => {
            is_class(class, *owner) && is_counted_member(class, count, *member)
        }
        _ => false,
    }
}

// ---- constants

/// Whether the text at an index is a name.
#[tactic(auto, using(crate::proofs::Forms::text_told, crate::proofs::Forms::text_untold))]
fn is_text_name(class: &Class, index: u16) -> bool
    ensures { result ≡ spells is_name class.now.pool index }
{
    match class.form(index) {
        Some(form) => form.name,
        None => false,
    }
}

/// Whether ldc and ldc_w can name the entry at an index.
pub fn is_single_constant(class: &Class, index: u16) -> bool
    ensures { result ≡ names (is_single class.now.pool) class.now.pool index }
{
    match class.entry(index) {
        Some(PoolEntry::Integer(_) | PoolEntry::Float(_) | PoolEntry::Str(_)) => true,
        Some(PoolEntry::Class(name)) => is_text_name(class, *name),
        _ => false,
    }
}
