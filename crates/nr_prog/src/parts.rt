//! The parts of a class file.

ghost use Rattle.std.specs.Prelude.{◌≡◌, ◌<◌, ◌≤◌, ◌^◌, ◌↔◌, All, IsTrue};
ghost use Rattle.nr_prog.specs.Form.{IsWithinBounds, handler_count};
ghost use Rattle.nr_prog.specs.Pool.{text_len};

use crate::member::{Field, Method};
use crate::pool::PoolEntry;
use nr_base::Items;

/// The parts of a class file (JVM Specification 4.1).
#[derive(Debug, Drop, PartialEq, Eq)]
pub struct ClassParts {
    /// The entries of the constant pool, that of index 1 first.
    pub pool: Items<PoolEntry>,
    /// The access flags.
    pub flags: u16,
    /// The index of this class.
    pub this_class: u16,
    /// The index of the superclass.
    pub super_class: u16,
    /// The indices of the direct superinterfaces.
    pub interfaces: Items<u16>,
    pub fields: Items<Field>,
    pub methods: Items<Method>,
}

impl PoolEntry {
    fn text_len(&self) -> usize
        ensures { result ≡ text_len self.now }
    {
        match self {
            PoolEntry::Utf8(bytes) => bytes.len(),
            _ => 0,
        }
    }
}

fn are_texts_short(pool: &[PoolEntry]) -> bool
    ensures { IsTrue result ↔ All (λ e. text_len e < 2 ^ 16) pool.now }
{
    pool.iter().all(|entry| entry.text_len() <= 0xFFFF)
}

impl Method {
    fn handler_count(&self) -> usize
        ensures { result ≡ handler_count self.now.code }
    {
        match &self.code {
            None => 0,
            Some(code) => code.handlers.len(),
        }
    }
}

fn are_handlers_few(methods: &[Method]) -> bool
    ensures { IsTrue result ↔ All (λ m. handler_count m.code ≤ 2 ^ 16) methods.now }
{
    methods
        .iter()
        .all(|method| method.handler_count() <= 0x1_0000)
}

impl ClassParts {
    /// Whether there are 65,535 entries in the pool, 65,535 bytes in each text, 65,536 methods and
    /// 65,536 handlers in each method, at most. A file can't say more of the first two (JVM
    /// Specification 4.1, 4.4.7); the other two are the project's own bounds.
    pub fn is_within_bounds(&self) -> bool
        ensures { IsTrue result ↔ IsWithinBounds self.now }
    {
        self.pool.len() <= 0xFFFF
            && are_texts_short(self.pool.as_slice())
            && self.methods.len() <= 0x1_0000
            && are_handlers_few(self.methods.as_slice())
    }
}
