//! The texts that are printed (the project's own): chars as UTF-8, where the two halves of a surrogate pair
//! are one character, and a half alone is a question mark.

ghost use Rattle.std.specs.Prelude.{◌≡◌, ◌++◌, ◌∷◌, ◌<◌, ℤ, IfOk, IfSome, OnErr, OnOk, IsSomeAnd, IsTrue, length, string_bytes, true, []};
ghost use Rattle.std.specs.Fmt.{signed_decimal};
ghost use Rattle.std.specs.Str.{encode_utf8_all};
ghost use Rattle.std.specs.FinMap.{get};
ghost use Rattle.nr_linked.specs.Kinds.{is_array};
ghost use Rattle.nr_model.specs.Printing.{alone, bytes_of_units, characters_after, completed, high_half, is_high_half, is_low_half, joined};
ghost use Rattle.nr_model.specs.declared.value.Value.TheVariants as Held;
ghost use Rattle.nr_machine.specs.Prints.{AreInts, IsPrinted, text_of, unit_of, units_of};

use crate::stack::Printing;
use nr_heap::Heap;
use nr_model::{Ref, Value};
use nr_optable::int_to_char;
use std::alloc::{AllocError, Global};

/// Whether the unit is the first half of a surrogate pair.
fn is_high_half(unit: u16) -> bool
    ensures { result ≡ is_high_half unit }
{
    0xD800 <= unit && unit < 0xDC00
}

/// Whether the unit is the second half of a surrogate pair.
fn is_low_half(unit: u16) -> bool
    ensures { result ≡ is_low_half unit }
{
    0xDC00 <= unit && unit < 0xE000
}

/// The first half of a surrogate pair, if the unit is one.
fn high_half(unit: u16) -> Option<u16>
    ensures half { result ≡ high_half unit }
    ensures is { IfSome result (λ h. is_high_half h ≡ true) }
{
    if is_high_half(unit) { Some(unit) } else { None }
}

/// The character of a surrogate pair.
fn joined(high: u16, low: u16) -> Option<char>
    requires high { is_high_half high ≡ true }
    requires low { is_low_half low ≡ true }
    ensures { result ≡ Some (joined high low) }
{
    char::from_u32(0x1_0000 + (u32::from(high) - 0xD800) * 0x400 + (u32::from(low) - 0xDC00))
}

/// Adds the character that the unit is by itself, if it is no first half.
fn push_alone(text: &mut String, unit: u16) -> Result<(), AllocError>
    ensures ok { OnOk result (string_bytes text.new ≡ string_bytes text.old ++ encode_utf8_all (alone unit)) }
    ensures err { OnErr result (0 < length (encode_utf8_all (alone unit))) }
{
    if is_high_half(unit) {
        return Ok(());
    }
    match char::from_u32(u32::from(unit)) {
        Some(c) => text.push(c),
        None => text.push('?'),
    }
}

/// Adds the characters that are complete with the unit, where this half stands before it.
fn push_unit(text: &mut String, high: Option<u16>, unit: u16) -> Result<(), AllocError>
    requires { IfSome high (λ h. is_high_half h ≡ true) }
    ensures ok { OnOk result (string_bytes text.new ≡ string_bytes text.old ++ encode_utf8_all (completed high unit)) }
    ensures err { OnErr result (0 < length (encode_utf8_all (completed high unit))) }
{
    let Some(high) = high else {
        return push_alone(text, unit);
    };
    if !is_low_half(unit) {
        text.push('?')?;
        return push_alone(text, unit);
    }
    match joined(high, unit) {
        Some(c) => text.push(c),
        None => unreachable!(),
    }
}

/// Adds what is left where no unit follows this half.
fn push_last(text: &mut String, high: Option<u16>) -> Result<(), AllocError>
    ensures ok { OnOk result (string_bytes text.new ≡ string_bytes text.old ++ encode_utf8_all (characters_after high [])) }
    ensures err { OnErr result (0 < length (encode_utf8_all (characters_after high []))) }
{
    match high {
        Some(_) => text.push('?'),
        None => Ok(()),
    }
}

/// The text of one unit. The error comes only for want of memory.
fn text_of_unit(alloc: Global, unit: u16) -> Result<String, AllocError>
    ensures ok { IfOk result (λ s. string_bytes s ≡ bytes_of_units (unit ∷ [])) }
    ensures err { OnErr result (0 < length (bytes_of_units (unit ∷ []))) }
{
    let mut text = String::new(alloc);
    push_unit(&mut text, None, unit)?;
    push_last(&mut text, high_half(unit))?;
    Ok(text)
}

/// The decimal text of a number. The error comes only for want of memory.
fn text_of_int(alloc: Global, n: i32) -> Result<String, AllocError>
    ensures ok { IfOk result (λ s. string_bytes s ≡ signed_decimal n) }
    ensures err { 0 < length (signed_decimal n) }
{
    format!(in alloc; "{n}")
}

/// The same of a long.
fn text_of_long(alloc: Global, n: i64) -> Result<String, AllocError>
    ensures ok { IfOk result (λ s. string_bytes s ≡ signed_decimal n) }
    ensures err { 0 < length (signed_decimal n) }
{
    format!(in alloc; "{n}")
}

/// What print(C)V, print(I)V or print(J)V prints of the value. The error comes only for want of memory.
pub fn text_of(alloc: Global, printing: Printing, value: Value) -> Result<String, AllocError>
    requires { IsPrinted printing value }
    ensures ok { IfOk result (λ s. string_bytes s ≡ text_of printing value) }
    ensures err { OnErr result (0 < length (text_of printing value)) }
{
    match (printing, value) {
        (Printing::Char, Value::Int(n)) => text_of_unit(alloc, int_to_char(n)),
        (Printing::Int, Value::Int(n)) => text_of_int(alloc, n),
        (Printing::Long, Value::Long(n)) => text_of_long(alloc, n),
        _ => unreachable!(),
    }
}

/// The unit that an int is.
fn unit_of(value: Value) -> u16
    requires { (n : ℤ) × (value ≡ Held.Int n) }
    ensures { result ≡ unit_of value }
{
    match value {
        Value::Int(n) => int_to_char(n),
        _ => unreachable!(),
    }
}

/// What print([C)V prints of an array. The error comes only for want of memory.
pub fn text_of_chars(alloc: Global, heap: &Heap, name: Ref) -> Result<String, AllocError>
    requires { IsSomeAnd (get heap.now.objects name) (λ o. IsTrue (is_array o.kind) × AreInts o.slots) }
    ensures ok { IfOk result (λ s. IsSomeAnd (get heap.now.objects name) (λ o. string_bytes s ≡ bytes_of_units (units_of o.slots))) }
    ensures err { OnErr result (IsSomeAnd (get heap.now.objects name) (λ o. 0 < length (bytes_of_units (units_of o.slots)))) }
{
    let Some(count) = heap.len_of(name) else {
        unreachable!()
    };
    let mut text = String::new(alloc);
    let mut high = None;
    for at in 0..count {
        let unit = unit_of(heap.get_slot(name, at));
        push_unit(&mut text, high, unit)?;
        high = high_half(unit);
    }
    push_last(&mut text, high)?;
    Ok(text)
}
