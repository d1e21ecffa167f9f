//! Where an object or an array stands in the arena.

ghost use Rattle.std.specs.Prelude.{◌≡◌, ◌+◌, ◌<◌, ◌≤◌, length, slice_get, Some, IfSome};
ghost use Rattle.std.specs.List.{zip};
ghost use Rattle.nr_heap.specs.Arenas.{obj_at, width, IsWritten};
ghost use Rattle.nr_heap.specs.Forms.{elements_form, Holds};

use super::form::{Form, bits_of_value};
use nr_linked::Kind;
use nr_model::Value;

/// An object or an array, and its words. Those of an array hold as many of its elements as fit into
/// 64 bits, the first in the lowest bits. An object has a word for each slot.
#[derive(Clone, Copy, Debug, PartialEq, Eq)]
pub(crate) struct Place {
    pub kind: Kind,
    /// The first word.
    pub start: u32,
    /// How many slots it has.
    pub len: u32,
}

impl Place {
    /// How many words it takes.
    pub fn width(self) -> u32
        ensures { result ≡ width self.kind self.len }
    {
        match Form::of_elements(self.kind) {
            Some(form) => form.words(self.len),
            None => self.len,
        }
    }

    /// What a slot holds.
    #[inline(always)]
    pub fn load(self, forms: &[Form], words: &[u64], slot: u32) -> Value
        requires slot { slot < self.len }
        requires within { self.start + width self.kind self.len ≤ length words.now }
        requires formed { length forms.now ≡ length words.now }
        ensures { slice_get (obj_at (zip forms.now words.now) self).slots slot ≡ Some result }
    {
        let start = self.start as usize;
        match Form::of_elements(self.kind) {
            Some(form) => {
                let (word, place) = form.place(slot);
                form.load(words[start + word as usize], place)
            }
            None => {
                let word = start + slot as usize;
                forms[word].value(words[word])
            }
        }
    }

    /// Puts a value into a slot.
    #[inline(always)]
    pub fn store(self, forms: &mut [Form], words: &mut [u64], slot: u32, value: Value)
        requires slot { slot < self.len }
        requires within { self.start + width self.kind self.len ≤ length words.old }
        requires formed { length forms.old ≡ length words.old }
        requires holds { IfSome (elements_form self.kind) (λ f. Holds f value) }
        ensures { IsWritten self slot value (zip forms.old words.old) (zip forms.new words.new) }
    {
        let start = self.start as usize;
        match Form::of_elements(self.kind) {
            Some(form) => {
                let (word, place) = form.place(slot);
                let word = &mut words[start + word as usize];
                *word = form.store(*word, place, value);
            }
            None => {
                let word = start + slot as usize;
                forms[word] = Form::of_value(value);
                words[word] = bits_of_value(value);
            }
        }
    }
}
