//! One unit of UTF-16 in modified UTF-8.

ghost use Rattle.std.specs.Prelude.{◌≡◌, ◌<◌, IfOk};
ghost use Rattle.nr_base.specs.Clauses.{Gives, none_free};
ghost use Rattle.nr_base.specs.Names.{byte_at, six_bits_at, two_at, three_at, unit_at};

use crate::cur::Cur;
use crate::name::fault::NameFault;

#[tactic(auto, unfolding(crate::specs::Names::byte_at, crate::specs::Reader::with_fault))]
fn read_byte(cur: &mut Cur, at: u32) -> Result<u8, NameFault>
    ensures { Gives none_free result cur.new (byte_at at cur.old) }
{
    cur.u8().map_err(|_| NameFault::BadUtf(at))
}

/// The six bits of a byte that isn't a character's first.
#[tactic(auto, unfolding(crate::specs::Names::six_bits_at, crate::specs::Reader::bind, crate::specs::Reader::pure, crate::specs::Reader::refuse, crate::specs::Reader::choose))]
fn read_six_bits(cur: &mut Cur, at: u32) -> Result<u8, NameFault>
    ensures bits { Gives none_free result cur.new (six_bits_at at cur.old) }
    ensures low { IfOk result (λ bits. bits < 64) }
{
    match read_byte(cur, at)? {
        byte @ 0x80..=0xBF => Ok(byte - 0x80),
        _ => Err(NameFault::BadUtf(at)),
    }
}

/// A character of two bytes, after its first, which holds five bits.
#[tactic(auto, unfolding(crate::specs::Names::two_at, crate::specs::Reader::bind, crate::specs::Reader::pure, crate::specs::Reader::refuse, crate::specs::Reader::choose))]
fn read_two(cur: &mut Cur, at: u32, high: u8) -> Result<u16, NameFault>
    requires { high < 32 }
    ensures { Gives none_free result cur.new (two_at at high cur.old) }
{
    let low = read_six_bits(cur, at)?;
    match u16::from(high) * 64 + u16::from(low) {
        0 => Err(NameFault::ZeroChar(at)),
        unit @ 0x80.. => Ok(unit),
        _ => Err(NameFault::BadUtf(at)),
    }
}

/// A character of three bytes, after its first, which holds four bits.
#[tactic(auto, unfolding(crate::specs::Names::three_at, crate::specs::Reader::bind, crate::specs::Reader::pure, crate::specs::Reader::refuse, crate::specs::Reader::choose))]
fn read_three(cur: &mut Cur, at: u32, high: u8) -> Result<u16, NameFault>
    requires { high < 16 }
    ensures { Gives none_free result cur.new (three_at at high cur.old) }
{
    let middle = read_six_bits(cur, at)?;
    let low = read_six_bits(cur, at)?;
    let unit = (u16::from(high) * 64 + u16::from(middle)) * 64 + u16::from(low);
    if unit < 0x800 {
        return Err(NameFault::BadUtf(at));
    }
    Ok(unit)
}

/// The next unit of a name.
#[tactic(auto, unfolding(crate::specs::Names::unit_at, crate::specs::Reader::bind, crate::specs::Reader::pure, crate::specs::Reader::refuse, crate::specs::Reader::choose, crate::specs::Reader::from))]
pub fn read_unit(cur: &mut Cur) -> Result<u16, NameFault>
    ensures { Gives none_free result cur.new (unit_at cur.old) }
{
    let at = cur.at();
    match read_byte(cur, at)? {
        first @ 0x01..=0x7F => Ok(u16::from(first)),
        first @ 0xC0..=0xDF => read_two(cur, at, first - 0xC0),
        first @ 0xE0..=0xEF => read_three(cur, at, first - 0xE0),
        _ => Err(NameFault::BadUtf(at)),
    }
}
