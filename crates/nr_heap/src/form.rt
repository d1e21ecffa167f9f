//! How slots stand in words of 64 bits.

ghost use Rattle.std.specs.Prelude.{◌≡◌, ◌+◌, ◌*◌, ◌^◌, ◌/◌, ◌%◌, ◌<◌, slice_get, slice_set, Some};
ghost use Rattle.nr_heap.specs.Forms.{bits, bits_of, elements_form, form_of, form_of_value, per_word, value_in, values_in, words_for, Holds, IsSized};

use nr_linked::{Base, Kind};
use nr_model::Value;

/// What stands in a word, or in each of its parts.
#[derive(Clone, Copy, Debug, PartialEq, Eq)]
pub(crate) enum Form {
    Bool,
    Byte,
    Char,
    Short,
    Int,
    Long,
    /// 0 for null, and else the name and 1.
    Reference,
}

impl Form {
    /// The form of a slot of the kind.
    pub fn of(kind: Kind) -> Form
        ensures { result ≡ form_of kind }
    {
        if kind.dims > 0 {
            return Form::Reference;
        }
        match kind.base {
            Base::Bool => Form::Bool,
            Base::Byte => Form::Byte,
            Base::Char => Form::Char,
            Base::Short => Form::Short,
            Base::Int => Form::Int,
            Base::Long => Form::Long,
            Base::Object(_) => Form::Reference,
        }
    }

    /// The form of an array's elements, or `None` for an object.
    #[inline(always)]
    pub fn of_elements(kind: Kind) -> Option<Form>
        ensures { result ≡ elements_form kind }
    {
        if kind.dims == 0 {
            return None;
        }
        Some(Form::of(Kind {
            dims: kind.dims - 1,
            base: kind.base,
        }))
    }

    /// The form in which a word holds the value alone.
    #[inline(always)]
    pub fn of_value(value: Value) -> Form
        ensures { result ≡ form_of_value value }
    {
        match value {
            Value::Int(_) => Form::Int,
            Value::Long(_) => Form::Long,
            Value::Null | Value::Ref(_) => Form::Reference,
        }
    }

    /// How many bits a slot takes.
    pub fn bits(self) -> u32
        ensures { result ≡ bits self }
    {
        match self {
            Form::Bool | Form::Byte => 8,
            Form::Char | Form::Short => 16,
            Form::Int => 32,
            Form::Long | Form::Reference => 64,
        }
    }

    /// How many slots a word holds.
    pub fn per_word(self) -> u32
        ensures { result ≡ per_word self }
    {
        match self {
            Form::Bool | Form::Byte => 8,
            Form::Char | Form::Short => 4,
            Form::Int => 2,
            Form::Long | Form::Reference => 1,
        }
    }

    /// How many words so many slots take.
    pub fn words(self, slots: u32) -> u32
        ensures { result ≡ words_for self slots }
    {
        slots.div_ceil(self.per_word())
    }

    /// The word in which a slot stands, and its place in it.
    pub fn place(self, slot: u32) -> (u32, u32)
        ensures word { result.0 ≡ slot / per_word self }
        ensures place { result.1 ≡ slot % per_word self }
    {
        match self {
            Form::Bool | Form::Byte => (slot / 8, slot % 8),
            Form::Char | Form::Short => (slot / 4, slot % 4),
            Form::Int => (slot / 2, slot % 2),
            Form::Long | Form::Reference => (slot, 0),
        }
    }

    /// The value that the lowest bits stand for.
    #[inline(always)]
    pub fn value(self, word: u64) -> Value
        ensures { result ≡ value_in self word }
    {
        match self {
            Form::Bool => Value::Int((word % 0x100) as i32),
            Form::Byte => Value::Int(i32::from(((word % 0x100) as u8).cast_signed())),
            Form::Char => Value::Int((word % 0x1_0000) as i32),
            Form::Short => Value::Int(i32::from(((word % 0x1_0000) as u16).cast_signed())),
            Form::Int => Value::Int(((word % 0x1_0000_0000) as u32).cast_signed()),
            Form::Long => Value::Long(word.cast_signed()),
            Form::Reference => match word {
                0 => Value::Null,
                _ => Value::Ref(((word - 1) % 0x1_0000_0000) as u32),
            },
        }
    }

    /// The bits of a slot alone, which are the lowest.
    fn lowest(self, word: u64) -> u64
        ensures { result ≡ word % 2 ^ bits self }
    {
        match self {
            Form::Bool | Form::Byte => word % 0x100,
            Form::Char | Form::Short => word % 0x1_0000,
            Form::Int => word % 0x1_0000_0000,
            Form::Long | Form::Reference => word,
        }
    }

    /// The value at a place of the word.
    pub fn load(self, word: u64, place: u32) -> Value
        requires { place < per_word self }
        ensures { slice_get (values_in self word) place ≡ Some result }
    {
        self.value(word >> (self.bits() * place))
    }

    /// The word with a value at a place of it.
    pub fn store(self, word: u64, place: u32, value: Value) -> u64
        requires place { place < per_word self }
        requires holds { Holds self value }
        ensures { values_in self result ≡ slice_set (values_in self word) place value }
    {
        let shift = self.bits() * place;
        let old = self.lowest(word >> shift);
        let new = self.lowest(bits_of_value(value));
        word - (old << shift) + (new << shift)
    }
}

/// The bits that stand for a value.
#[inline(always)]
pub(crate) fn bits_of_value(value: Value) -> u64
    ensures bits { result ≡ bits_of value }
    ensures sized { IsSized value }
{
    match value {
        Value::Int(n) => u64::from(n.cast_unsigned()),
        Value::Long(n) => n.cast_unsigned(),
        Value::Null => 0,
        Value::Ref(name) => u64::from(name) + 1,
    }
}
