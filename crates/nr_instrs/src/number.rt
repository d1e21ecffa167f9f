//! The numbers of an instruction (JVM Specification 6.5). `at` is the instruction's offset.

ghost use Rattle.std.specs.Prelude.{◌≡◌, ◌<◌, ◌^◌};
ghost use Rattle.std.specs.Int.{w8, w16, w32};
ghost use Rattle.nr_base.specs.Clauses.{Gives, GivesBy};
ghost use Rattle.nr_instrs.specs.Faults.{is_free};
ghost use Rattle.nr_instrs.specs.Numbers.{unsigned_at, signed_at, branch_at, skipped_at};

use crate::fault::CodeFault;
use nr_base::Cur;

#[tactic(auto, unfolding(crate::specs::Numbers::unsigned_at, nr_base::specs::Reader::bind, nr_base::specs::Reader::pure, nr_base::specs::Reader::refuse, nr_base::specs::Reader::choose, nr_base::specs::Reader::from, nr_base::specs::Reader::with_fault))]
pub fn read_u8(cur: &mut Cur, at: u32) -> Result<u8, CodeFault>
    ensures { Gives is_free result cur.new (unsigned_at w8 at cur.old) }
{
    match cur.u8() {
        Ok(number) => Ok(number),
        Err(_) => Err(CodeFault::Short(at)),
    }
}

#[tactic(auto, unfolding(crate::specs::Numbers::unsigned_at, nr_base::specs::Reader::bind, nr_base::specs::Reader::pure, nr_base::specs::Reader::refuse, nr_base::specs::Reader::choose, nr_base::specs::Reader::from, nr_base::specs::Reader::with_fault))]
pub fn read_u16(cur: &mut Cur, at: u32) -> Result<u16, CodeFault>
    ensures { Gives is_free result cur.new (unsigned_at w16 at cur.old) }
{
    match cur.u16() {
        Ok(number) => Ok(number),
        Err(_) => Err(CodeFault::Short(at)),
    }
}

#[tactic(auto, unfolding(crate::specs::Numbers::unsigned_at, nr_base::specs::Reader::bind, nr_base::specs::Reader::pure, nr_base::specs::Reader::refuse, nr_base::specs::Reader::choose, nr_base::specs::Reader::from, nr_base::specs::Reader::with_fault))]
pub fn read_u32(cur: &mut Cur, at: u32) -> Result<u32, CodeFault>
    ensures { Gives is_free result cur.new (unsigned_at w32 at cur.old) }
{
    match cur.u32() {
        Ok(number) => Ok(number),
        Err(_) => Err(CodeFault::Short(at)),
    }
}

#[tactic(auto, unfolding(crate::specs::Numbers::signed_at, nr_base::specs::Reader::bind, nr_base::specs::Reader::pure, nr_base::specs::Reader::refuse, nr_base::specs::Reader::choose, nr_base::specs::Reader::from, nr_base::specs::Reader::with_fault))]
pub fn read_i8(cur: &mut Cur, at: u32) -> Result<i8, CodeFault>
    ensures { Gives is_free result cur.new (signed_at w8 at cur.old) }
{
    Ok(read_u8(cur, at)?.cast_signed())
}

#[tactic(auto, unfolding(crate::specs::Numbers::signed_at, nr_base::specs::Reader::bind, nr_base::specs::Reader::pure, nr_base::specs::Reader::refuse, nr_base::specs::Reader::choose, nr_base::specs::Reader::from, nr_base::specs::Reader::with_fault))]
pub fn read_i16(cur: &mut Cur, at: u32) -> Result<i16, CodeFault>
    ensures { Gives is_free result cur.new (signed_at w16 at cur.old) }
{
    Ok(read_u16(cur, at)?.cast_signed())
}

#[tactic(auto, unfolding(crate::specs::Numbers::signed_at, nr_base::specs::Reader::bind, nr_base::specs::Reader::pure, nr_base::specs::Reader::refuse, nr_base::specs::Reader::choose, nr_base::specs::Reader::from, nr_base::specs::Reader::with_fault))]
pub fn read_i32(cur: &mut Cur, at: u32) -> Result<i32, CodeFault>
    ensures { Gives is_free result cur.new (signed_at w32 at cur.old) }
{
    Ok(read_u32(cur, at)?.cast_signed())
}

/// The target of a branch, by an offset of two bytes.
#[tactic(auto, unfolding(crate::specs::Numbers::branch_at, nr_base::specs::Reader::bind, nr_base::specs::Reader::pure, nr_base::specs::Reader::refuse, nr_base::specs::Reader::choose, nr_base::specs::Reader::from, nr_base::specs::Reader::with_fault))]
pub fn read_branch(cur: &mut Cur, at: u32) -> Result<i64, CodeFault>
    ensures { Gives is_free result cur.new (branch_at w16 at cur.old) }
{
    Ok(i64::from(at) + i64::from(read_i16(cur, at)?))
}

/// The target of a branch, by an offset of four bytes.
#[tactic(auto, unfolding(crate::specs::Numbers::branch_at, nr_base::specs::Reader::bind, nr_base::specs::Reader::pure, nr_base::specs::Reader::refuse, nr_base::specs::Reader::choose, nr_base::specs::Reader::from, nr_base::specs::Reader::with_fault))]
pub fn read_far_branch(cur: &mut Cur, at: u32) -> Result<i64, CodeFault>
    ensures { Gives is_free result cur.new (branch_at w32 at cur.old) }
{
    Ok(i64::from(at) + i64::from(read_i32(cur, at)?))
}

/// Bytes that aren't looked at.
#[tactic(auto, unfolding(crate::specs::Numbers::skipped_at, nr_base::specs::Reader::bind, nr_base::specs::Reader::pure, nr_base::specs::Reader::refuse, nr_base::specs::Reader::choose, nr_base::specs::Reader::from, nr_base::specs::Reader::with_fault))]
pub fn skip(cur: &mut Cur, n: usize, at: u32) -> Result<(), CodeFault>
    ensures { GivesBy is_free (λ _. tt) result cur.new (skipped_at n at cur.old) }
{
    match cur.take(n) {
        Ok(_) => Ok(()),
        Err(_) => Err(CodeFault::Short(at)),
    }
}
