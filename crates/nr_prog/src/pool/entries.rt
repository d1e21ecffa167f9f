//! Entries, texts and what they spell, by index.

ghost use Rattle.std.specs.Prelude.{◌≡◌, ◌<◌, ◌^◌, length, All, Contains, IfSome, option_copied};
ghost use Rattle.nr_prog.specs.Pool.{entry_at, text_at, text_len};
ghost use Rattle.nr_prog.specs.TextForms.{listed_form};
ghost use Rattle.nr_prog.specs.TextNumbers.{listed_number};

use crate::pool::PoolEntry;
use crate::text::TextForm;

/// The entry at an index, which counts from 1.
pub fn entry(pool: &[PoolEntry], index: usize) -> Option<&PoolEntry>
    ensures value { option_copied result ≡ entry_at pool.now index }
    ensures listed { IfSome result (λ e. Contains pool.now e.now) }
{
    let place = index.checked_sub(1)?;
    pool.get(place)
}

/// The bytes of the Utf8 entry at an index, where one stands there.
#[tactic(auto, using(crate::proofs::Texts::fits), unfolding(crate::specs::Pool::text_at))]
pub fn text(pool: &[PoolEntry], index: u16) -> Option<&[u8]>
    requires { All (λ e. text_len e < 2 ^ 16) pool.now }
    ensures value { option_copied result ≡ text_at pool.now index }
    ensures short { IfSome result (λ bytes. length bytes.now < 2 ^ 16) }
{
    match entry(pool, usize::from(index))? {
        PoolEntry::Utf8(bytes) => Some(bytes.as_slice()),
        _ => None,
    }
}

/// What the text at an index spells, by the list for all entries.
pub fn form(forms: &[Option<TextForm>], index: u16) -> Option<&TextForm>
    ensures { option_copied result ≡ listed_form forms.now index }
{
    let place = usize::from(index).checked_sub(1)?;
    forms.get(place)?.as_ref()
}

/// The number of the text at an index, by the list for all entries.
pub fn number(numbers: &[u16], index: u16) -> u16
    ensures { result ≡ listed_number numbers.now index }
{
    match usize::from(index).checked_sub(1) {
        Some(place) => numbers.get(place).copied().unwrap_or(0),
        None => 0,
    }
}
