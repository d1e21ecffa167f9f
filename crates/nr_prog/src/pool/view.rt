//! A constant pool whose texts were read.

ghost use Rattle.std.specs.Prelude.{◌≡◌, ◌<◌, ◌^◌, ℕ, List, Some, All, option_copied};
ghost use Rattle.nr_prog.specs.Pool.{entry_at, text_at, text_len};
ghost use Rattle.nr_prog.specs.TextForms.{form_at, forms_of};
ghost use Rattle.nr_prog.specs.TextNumbers.{number as number_of, numbers_of};

use super::{PoolEntry, entry, form, number, text};
use crate::text::TextForm;
use std::marker::Model;

/// The entries of a constant pool, with what each text spells and its number. Contracts see the
/// entries.
#[derive(Debug, Drop)]
pub struct Pool<'a> {
    entries: &'a [PoolEntry],
    forms: &'a [Option<TextForm>],
    numbers: &'a [u16],
}

impl<'a> Model for Pool<'a> {
    ghost use Rattle.std.specs.Prelude.{◌≡◌, ◌<◌, ◌^◌, List, All};
    ghost use Rattle.nr_prog.specs.declared.pool.PoolEntry.{PoolEntry as EntryView};
    ghost use Rattle.nr_prog.specs.Pool.{text_len};
    ghost use Rattle.nr_prog.specs.TextForms.{forms_of};
    ghost use Rattle.nr_prog.specs.TextNumbers.{numbers_of};

    ghost Value = { List EntryView };

    ghost view = { λ p. p.entries.now };

    ghost invariant = { λ p. (p.forms.now ≡ forms_of p.entries.now) × (p.numbers.now ≡ numbers_of p.entries.now) × All (λ e. text_len e < 2 ^ 16) p.entries.now };
}

impl<'a> Pool<'a> {
    pub fn new(
        entries: &'a [PoolEntry],
        forms: &'a [Option<TextForm>],
        numbers: &'a [u16],
    ) -> Pool<'a>
        requires short { All (λ e. text_len e < 2 ^ 16) entries.now }
        requires forms { forms.now ≡ forms_of entries.now }
        requires numbers { numbers.now ≡ numbers_of entries.now }
        ensures { result ≡ entries.now }
    {
        Pool {
            entries,
            forms,
            numbers,
        }
    }

    /// The entry at an index, which counts from 1.
    pub fn entry(&self, index: usize) -> Option<&PoolEntry>
        ensures { option_copied result ≡ entry_at self.now index }
    {
        entry(self.entries, index)
    }

    /// The bytes of the Utf8 entry at an index, where one stands there.
    pub fn text(&self, index: u16) -> Option<&[u8]>
        ensures { option_copied result ≡ text_at self.now index }
    {
        text(self.entries, index)
    }

    /// What the text at an index spells, where one stands there.
    pub fn form(&self, index: u16) -> Option<&TextForm>
        ensures { option_copied result ≡ form_at self.now index }
    {
        form(self.forms, index)
    }

    /// The number of the text at an index: two texts have one number where they are the same.
    pub fn number(&self, index: u16) -> u16
        ensures { (text : List ℕ) → text_at self.now index ≡ Some text → result ≡ number_of self.now text }
    {
        number(self.numbers, index)
    }
}
