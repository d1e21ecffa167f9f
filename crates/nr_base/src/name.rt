//! Names.

ghost use Rattle.std.specs.Prelude.{◌≡◌, ◌<◌, ◌^◌, length, IsTrue, IfOk};
ghost use Rattle.nr_base.specs.Clauses.{GivesWhole, GivesWholeBy, none_free};
ghost use Rattle.nr_base.specs.ModifiedUtf8.{IsModifiedUtf8};
ghost use Rattle.nr_base.specs.Names.{is_free, is_name, name_of};

mod fault;
mod legal;
mod unit;

use crate::cur::Cur;
use crate::items::Items;
pub use fault::NameFault;
use std::alloc::{AllocError, Global};
use std::marker::Model;
pub use unit::read_unit;

/// At most 65,535 bytes in modified UTF-8 without U+0000 (JVM Specification 4.4.7). Contracts see a name
/// as its bytes. Names are compared byte by byte.
#[derive(Debug, Drop, PartialEq, Eq, PartialOrd, Ord, Hash)]
pub struct Name {
    bytes: Items<u8>,
}

impl Model for Name {
    ghost use Rattle.std.specs.Prelude.{ℕ, ◌<◌, ◌^◌, List, length, IsTrue};
    ghost use Rattle.nr_base.specs.Grammar.{IsBytes};
    ghost use Rattle.nr_base.specs.Names.{is_name};

    ghost Value = { List ℕ };

    ghost view = { λ n. n.bytes };

    ghost invariant = { λ n. IsTrue (is_name n.bytes) × IsBytes n.bytes × (length n.bytes < 2 ^ 16) };

    ghost inverse = { λ bytes. record { bytes = bytes } };
}

/// Whether bytes are a name, or the fault of their first character that isn't one.
#[tactic(auto, using(crate::proofs::NameLaws::scans_on, crate::proofs::NameLaws::scan_stops, crate::proofs::NameLaws::scan_ends, crate::proofs::NameLaws::unit_smaller))]
fn check(bytes: &[u8]) -> Result<(), NameFault>
    requires { length bytes.now < 2 ^ 16 }
    ensures { GivesWholeBy none_free (λ _. bytes.now) result (name_of bytes.now) }
{
    let mut cur = Cur::new(bytes);
    while !cur.is_empty() {
        read_unit(&mut cur)?;
    }
    Ok(())
}

fn checked(alloc: Global, bytes: &[u8]) -> Result<Name, NameFault>
    requires { length bytes.now < 2 ^ 16 }
    ensures { GivesWhole is_free result (name_of bytes.now) }
{
    check(bytes)?;
    Ok(Name::copy_of(alloc, bytes)?)
}

impl Name {
    /// The name that the bytes spell.
    ///
    /// # Errors
    ///
    /// `BadUtf` or `ZeroChar`, with the offset where the first character begins that isn't modified
    /// UTF-8 other than U+0000; `NoMemory` for want of memory.
    pub fn read(alloc: Global, bytes: &[u8]) -> Result<Name, NameFault>
        requires { length bytes.now < 2 ^ 16 }
        ensures found { IfOk result (λ name. (name ≡ bytes.now) × IsModifiedUtf8 bytes.now) }
        ensures only { IsModifiedUtf8 bytes.now → GivesWhole is_free result (Ok bytes.now) }
        ensures exact { GivesWhole is_free result (name_of bytes.now) }
    {
        checked(alloc, bytes)
    }

    /// The name of bytes that are known to be one. The error comes only for want of memory.
    pub(crate) fn copy_of(alloc: Global, bytes: &[u8]) -> Result<Name, AllocError>
        requires short { length bytes.now < 2 ^ 16 }
        requires legal { IsTrue (is_name bytes.now) }
        ensures { IfOk result (λ name. name ≡ bytes.now) }
    {
        Ok(Name {
            bytes: Items::of(alloc, bytes)?,
        })
    }

    /// The bytes of the name, in modified UTF-8.
    pub fn as_bytes(&self) -> &[u8]
        ensures bytes { result.now ≡ self.now }
        ensures legal { IsModifiedUtf8 self.now }
        ensures short { length self.now < 2 ^ 16 }
    {
        self.bytes.as_slice()
    }
}

impl Clone for Name {
    ghost is_clone = { λ name copy. copy ≡ name };

    fn clone(&self) -> Result<Name, AllocError> {
        Ok(Name {
            bytes: self.bytes.clone()?,
        })
    }
}
