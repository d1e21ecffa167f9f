//! Entries that fields and methods name. A call of the first kind that fails may leave a part of them.

ghost use Rattle.std.specs.Prelude.{◌≡◌, ◌<◌, ◌^◌, false, IsTrue, length};
ghost use Rattle.std.specs.Int.{w32};
ghost use Rattle.std.specs.Int.RustNames.{FitsSigned};
ghost use Rattle.nr_prog.specs.Pool.{text_len};
ghost use Rattle.nr_classmake.specs.Keys.{is_kept};
ghost use Rattle.nr_classmake.specs.Making.{ConstantFits, NumberFits, body_names, code_names, constant, field, is_long_desc, maps_name, method, number, number_entry};
ghost use Rattle.nr_classmake.specs.Words.{Makes, Tries};

use super::Pool;
use crate::fault::MakeFault;
use nr_base::{Items, Name};
use nr_prog::{Code, Field, PoolEntry};
use std::alloc::Global;

/// The entry of a constant value.
fn number_entry(long: bool, value: i64) -> PoolEntry
    requires { NumberFits long value }
    ensures entry { result ≡ number_entry long value }
    ensures kept { IsTrue (is_kept result) }
    ensures short { text_len result < 2 ^ 16 }
{
    if long {
        PoolEntry::Long(value)
    } else {
        PoolEntry::Integer(value as i32)
    }
}

fn is_long_desc(desc: &Name) -> bool
    ensures { result ≡ is_long_desc desc.now }
{
    desc.as_bytes() == b"J".as_slice()
}

impl Pool {
    fn try_number(&mut self, alloc: Global, long: bool, value: i64) -> Result<u16, MakeFault>
        requires { NumberFits long value }
        ensures { Tries result self.old self.new (number long value self.old) }
    {
        let attribute = self.try_text(alloc, b"ConstantValue")?;
        let _ = attribute;
        self.place(alloc, number_entry(long, value))
    }

    #[tactic(auto, unfolding(crate::specs::Making::constant))]
    fn try_constant(
        &mut self,
        alloc: Global,
        long: bool,
        value: Option<i64>,
    ) -> Result<u16, MakeFault>
        requires { ConstantFits long value }
        ensures { Tries result self.old self.new (constant long value self.old) }
    {
        match value {
            None => Ok(0),
            Some(value) => self.try_number(alloc, long, value),
        }
    }

    fn try_field(
        &mut self,
        alloc: Global,
        flags: u16,
        name: &Name,
        desc: &Name,
        value: Option<i64>,
    ) -> Result<Field, MakeFault>
        requires { ConstantFits (is_long_desc desc.now) value }
        ensures { Tries result self.old self.new (field flags name.now desc.now value self.old) }
    {
        let long = is_long_desc(desc);
        let (name, desc) = self.try_names(alloc, name, desc)?;
        let constant = self.try_constant(alloc, long, value)?;
        Ok(Field {
            flags,
            name,
            desc,
            constant,
        })
    }

    #[tactic(auto, unfolding(crate::specs::Making::maps_name))]
    fn try_maps_name(&mut self, alloc: Global, maps: &Option<Items<u8>>) -> Result<u16, MakeFault>
        ensures { Tries result self.old self.new (maps_name maps.now self.old) }
    {
        match maps {
            None => Ok(0),
            Some(_) => self.try_text(alloc, b"StackMapTable"),
        }
    }

    fn try_code(&mut self, alloc: Global, code: &Code) -> Result<u16, MakeFault>
        ensures { Tries result self.old self.new (code_names code.now self.old) }
    {
        let attribute = self.try_text(alloc, b"Code")?;
        let _ = attribute;
        self.try_maps_name(alloc, &code.maps)
    }

    #[tactic(auto, unfolding(crate::specs::Making::body_names))]
    fn try_body(&mut self, alloc: Global, code: &Option<Code>) -> Result<u16, MakeFault>
        ensures { Tries result self.old self.new (body_names code.now self.old) }
    {
        match code {
            None => Ok(0),
            Some(code) => self.try_code(alloc, code),
        }
    }

    fn try_method(
        &mut self,
        alloc: Global,
        name: &Name,
        desc: &Name,
        code: &Option<Code>,
    ) -> Result<(u16, u16), MakeFault>
        ensures { Tries result self.old self.new (method name.now desc.now code.now self.old) }
    {
        let (name, desc) = self.try_names(alloc, name, desc)?;
        let body = self.try_body(alloc, code)?;
        let _ = body;
        Ok((name, desc))
    }

    /// The field, with the places that it names.
    pub fn field(
        &mut self,
        alloc: Global,
        flags: u16,
        name: &Name,
        desc: &Name,
        value: Option<i64>,
    ) -> Result<Field, MakeFault>
        requires { ConstantFits (is_long_desc desc.now) value }
        ensures { Makes result self.old self.new (field flags name.now desc.now value self.old) }
    {
        let mark = self.len();
        let made = self.try_field(alloc, flags, name, desc, value);
        self.settled(mark, made)
    }

    /// The places of a method's name and descriptor.
    pub fn method(
        &mut self,
        alloc: Global,
        name: &Name,
        desc: &Name,
        code: &Option<Code>,
    ) -> Result<(u16, u16), MakeFault>
        ensures { Makes result self.old self.new (method name.now desc.now code.now self.old) }
    {
        let mark = self.len();
        let made = self.try_method(alloc, name, desc, code);
        self.settled(mark, made)
    }
}
