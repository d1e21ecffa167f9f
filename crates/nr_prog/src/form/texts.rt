//! What each text of a constant pool spells, and its number.

ghost use Rattle.std.specs.Prelude.{◌≡◌, ◌<◌, ◌^◌, List, ℕ, length, All, IfOk, IsOkUnless, OnOk, Some, None, if◌then◌else◌};
ghost use Rattle.std.specs.Option.{option_or};
ghost use Rattle.nr_prog.specs.Pool.{text_len};
ghost use Rattle.nr_prog.specs.TextForms.{form_in, form_of, forms_of};
ghost use Rattle.nr_prog.specs.TextNumbers.{has_text, numbers_of};
ghost use Rattle.nr_prog.specs.Told.{found_in, told};

use super::descs::{class, dimensions, method};
use super::legal::{is_any_name, is_class_name, is_field_name, is_method_name};
use crate::fault::FormFault;
use crate::pool::PoolEntry;
use crate::text::TextForm;
use nr_base::Items;
use std::alloc::{AllocError, Global};
use std::collections::BTreeMap;

#[tactic(auto, unfolding(crate::specs::TextForms::form_of))]
fn text_form(alloc: Global, bytes: &[u8]) -> Result<TextForm, FormFault>
    requires { length bytes.now < 2 ^ 16 }
    ensures form { IfOk result (λ form. form ≡ form_of bytes.now) }
    ensures err { IsOkUnless result FormFault.NoMemory }
{
    Ok(TextForm {
        name: is_any_name(alloc, bytes)?,
        class_name: is_class_name(alloc, bytes)?,
        field_name: is_field_name(alloc, bytes)?,
        method_name: is_method_name(alloc, bytes)?,
        dims: dimensions(alloc, bytes)?,
        class: class(alloc, bytes)?,
        method: method(alloc, bytes)?,
    })
}

fn entry_form(alloc: Global, entry: &PoolEntry) -> Result<Option<TextForm>, FormFault>
    requires { text_len entry.now < 2 ^ 16 }
    ensures form { IfOk result (λ form. form ≡ form_in entry.now) }
    ensures err { IsOkUnless result FormFault.NoMemory }
{
    match entry {
        PoolEntry::Utf8(bytes) => Ok(Some(text_form(alloc, bytes.as_slice())?)),
        _ => Ok(None),
    }
}

/// What the text of each entry spells, by its place. The error is `NoMemory`.
pub fn text_forms(alloc: Global, pool: &[PoolEntry]) -> Result<Items<Option<TextForm>>, FormFault>
    requires { All (λ e. text_len e < 2 ^ 16) pool.now }
    ensures forms { IfOk result (λ forms. forms ≡ forms_of pool.now) }
    ensures err { IsOkUnless result FormFault.NoMemory }
{
    let mut forms = Items::new(alloc);
    for entry in pool {
        forms.push(entry_form(alloc, entry)?)?;
    }
    Ok(forms)
}

/// The number of an entry's text, which is told from now on: the index of this entry where the text
/// wasn't told.
fn number<'a>(
    firsts: &mut BTreeMap<&'a [u8], u16>,
    index: u16,
    entry: &'a PoolEntry,
) -> Result<u16, AllocError>
    ensures found { IfOk result (λ number. number ≡ found_in firsts.old index entry.now) }
    ensures told { OnOk result ((text : List ℕ) → told firsts.new text ≡ option_or (told firsts.old text) (if has_text text entry.now then Some index else None)) }
{
    let PoolEntry::Utf8(bytes) = entry else {
        return Ok(0);
    };
    match firsts.get(&bytes.as_slice()) {
        Some(first) => Ok(*first),
        None => {
            firsts.insert(bytes.as_slice(), index)?;
            Ok(index)
        }
    }
}

/// The number of each entry's text, by its place: the index of the first entry with this text.
pub fn numbers(alloc: Global, pool: &[PoolEntry]) -> Result<Items<u16>, AllocError>
    requires { length pool.now < 2 ^ 16 }
    ensures { IfOk result (λ numbers. numbers ≡ numbers_of pool.now) }
{
    let mut firsts = BTreeMap::new(alloc);
    let mut numbers = Items::new(alloc);
    for (place, entry) in pool.iter().enumerate() {
        let index = place as u16 + 1;
        numbers.push(number(&mut firsts, index, entry)?)?;
    }
    Ok(numbers)
}
