//! Descriptors of fields and methods.

ghost use Rattle.std.specs.Prelude.{◌≡◌, ◌<◌, ◌^◌, length, IfOk, Ok};
ghost use Rattle.nr_base.specs.Clauses.{GivesWhole};
ghost use Rattle.nr_base.specs.DescReading.{is_free, desc_of, method_of};
ghost use Rattle.nr_base.specs.Descs.{desc, method_desc, slots, slots_of};
ghost use Rattle.nr_base.specs.declared.desc.types.Desc.{Desc as DescView};
ghost use Rattle.nr_base.specs.declared.desc.types.MethodDesc.{MethodDesc as MethodView};

mod class;
mod fault;
mod field;
mod method;
mod types;

use crate::cur::Cur;
pub use fault::DescFault;
use field::read_desc;
use method::read_method;
use std::alloc::Global;
pub use types::{Desc, DescBase, MethodDesc};

#[tactic(auto, unfolding(crate::specs::Reader::whole))]
fn whole_desc(alloc: Global, bytes: &[u8]) -> Result<Desc, DescFault>
    requires { length bytes.now < 2 ^ 16 }
    ensures { GivesWhole is_free result (desc_of bytes.now) }
{
    let mut cur = Cur::new(bytes);
    let desc = read_desc(alloc, &mut cur)?;
    if !cur.is_empty() {
        return Err(DescFault::BadDesc(cur.at()));
    }
    Ok(desc)
}

impl Desc {
    /// The descriptor that the bytes spell (JVM Specification 4.3.2), without the types float and double.
    ///
    /// # Errors
    ///
    /// `FloatDesc` where the letter of float or double stands in a type's place, and `BadDesc` at the
    /// first byte or character with which no descriptor goes on, or at the length where the bytes end
    /// too early; `NoMemory` for want of memory.
    pub fn read(alloc: Global, bytes: &[u8]) -> Result<Desc, DescFault>
        requires { length bytes.now < 2 ^ 16 }
        ensures found { IfOk result (λ d. desc d bytes.now) }
        ensures only { (d : DescView) → desc d bytes.now → GivesWhole is_free result (Ok d) }
        ensures exact { GivesWhole is_free result (desc_of bytes.now) }
    {
        whole_desc(alloc, bytes)
    }

    /// How many slots a value of the type takes: two for a long, else one.
    pub fn slots(&self) -> usize
        ensures { result ≡ slots_of self.now }
    {
        match self {
            Desc {
                dims: 0,
                base: DescBase::Long,
            } => 2,
            _ => 1,
        }
    }
}

#[tactic(auto, unfolding(crate::specs::Reader::whole))]
fn whole_method(alloc: Global, bytes: &[u8]) -> Result<MethodDesc, DescFault>
    requires { length bytes.now < 2 ^ 16 }
    ensures { GivesWhole is_free result (method_of bytes.now) }
{
    let mut cur = Cur::new(bytes);
    let desc = read_method(alloc, &mut cur)?;
    if !cur.is_empty() {
        return Err(DescFault::BadDesc(cur.at()));
    }
    let count = desc.slots();
    if count > MethodDesc::MAX_SLOTS {
        return Err(DescFault::TooManyArgs(count as u64));
    }
    Ok(desc)
}

impl MethodDesc {
    /// How many slots the parameters of a method may take, `this` left out.
    pub const MAX_SLOTS: usize = 254;

    /// The method descriptor that the bytes spell (JVM Specification 4.3.3), without the types float
    /// and double, and with parameters that take 254 slots at most.
    ///
    /// # Errors
    ///
    /// As those of `Desc::read`, and `TooManyArgs`, with the number of slots, where the bytes are such
    /// a descriptor but for this number.
    pub fn read(alloc: Global, bytes: &[u8]) -> Result<MethodDesc, DescFault>
        requires { length bytes.now < 2 ^ 16 }
        ensures found { IfOk result (λ m. method_desc m bytes.now) }
        ensures only { (m : MethodView) → method_desc m bytes.now → GivesWhole is_free result (Ok m) }
        ensures exact { GivesWhole is_free result (method_of bytes.now) }
    {
        whole_method(alloc, bytes)
    }

    /// How many slots the parameters take: two for a long, else one.
    pub fn slots(&self) -> usize
        ensures { result ≡ slots self.now.params }
    {
        let mut count = 0;
        for param in self.params.as_slice() {
            count += param.slots();
        }
        count
    }
}
