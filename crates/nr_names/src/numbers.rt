//! Numbers of texts.

ghost use Rattle.std.specs.Prelude.{◌≡◌, ◌<◌, ◌^◌, length, IfOk, IfSome, option_copied};
ghost use Rattle.nr_names.specs.Numbers.{listed, number_in, number_of, numbers_of, texts};

use indexmap::IndexSet;
use nr_base::Items;
use nr_prog::PoolEntry;
use std::alloc::{AllocError, Global};

/// The number of the text: its place among the texts, where it is one of them.
#[tactic(auto, unfolding(crate::specs::Numbers::texts))]
pub fn number(known: &IndexSet<&[u8]>, text: &[u8]) -> Option<usize>
    ensures number { result ≡ number_in (texts known.now) text.now }
    ensures within { IfSome result (λ n. n < length (texts known.now)) }
{
    known.get_index_of(&text)
}

/// The same in 32 bits.
pub fn small_number(known: &IndexSet<&[u8]>, text: &[u8]) -> Option<u32>
    requires few { length (texts known.now) < 2 ^ 32 }
    ensures { result ≡ number_in (texts known.now) text.now }
{
    let number = number(known, text)?;
    Some(number as u32)
}

fn number_of(known: &IndexSet<&[u8]>, entry: &PoolEntry) -> Option<u32>
    requires few { length (texts known.now) < 2 ^ 32 }
    ensures { result ≡ number_of (texts known.now) entry.now }
{
    match entry {
        PoolEntry::Utf8(bytes) => small_number(known, bytes.as_slice()),
        _ => None,
    }
}

/// The number of the text of each entry of a constant pool, by its place.
pub fn numbers_of(
    alloc: Global,
    known: &IndexSet<&[u8]>,
    pool: &[PoolEntry],
) -> Result<Items<Option<u32>>, AllocError>
    requires few { length (texts known.now) < 2 ^ 32 }
    ensures { IfOk result (λ numbers. numbers ≡ numbers_of (texts known.now) pool.now) }
{
    let mut numbers = Items::new(alloc);
    for entry in pool {
        numbers.push(number_of(known, entry))?;
    }
    Ok(numbers)
}

/// What is listed for the entry at an index of a constant pool, in a list by the places of the entries.
pub fn listed<T>(items: &[Option<T>], index: u16) -> Option<&T>
    ensures { option_copied result ≡ listed items.now index }
{
    let place = usize::from(index).checked_sub(1)?;
    items.get(place)?.as_ref()
}

/// The number of the text at an index, by the numbers of the pool's entries.
pub fn number_at(numbers: &[Option<u32>], index: u16) -> Option<u32>
    ensures { result ≡ listed numbers.now index }
{
    listed(numbers, index).copied()
}
