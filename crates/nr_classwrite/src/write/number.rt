//! Numbers, the most significant byte first.

ghost use Rattle.std.specs.Prelude.{◌≡◌, ◌++◌, OnOk};
ghost use Rattle.nr_classwrite.specs.Text.{one, two, four, eight};

use nr_base::Put;
use std::alloc::AllocError;

#[tactic(auto, unfolding(crate::specs::Text::one))]
pub fn put_one(put: &mut Put, n: u8) -> Result<(), AllocError>
    ensures { OnOk result (put.new ≡ put.old ++ one n) }
{
    put.u8(n)
}

#[tactic(auto, unfolding(crate::specs::Text::two))]
pub fn put_two(put: &mut Put, n: u16) -> Result<(), AllocError>
    ensures { OnOk result (put.new ≡ put.old ++ two n) }
{
    put.u16(n)
}

#[tactic(auto, unfolding(crate::specs::Text::four))]
pub fn put_four(put: &mut Put, n: u32) -> Result<(), AllocError>
    ensures { OnOk result (put.new ≡ put.old ++ four n) }
{
    put.u32(n)
}

#[tactic(auto, unfolding(crate::specs::Text::eight))]
pub fn put_eight(put: &mut Put, n: u64) -> Result<(), AllocError>
    ensures { OnOk result (put.new ≡ put.old ++ eight n) }
{
    put.u64(n)
}
