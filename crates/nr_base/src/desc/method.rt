//! The descriptor of a method.

ghost use Rattle.std.specs.Prelude.{◌≡◌, ◌<◌, ◌^◌, length};
ghost use Rattle.nr_base.specs.Clauses.{Gives, GivesBy};
ghost use Rattle.nr_base.specs.DescReading.{is_free, param_at, params_at, result_at, method_at};

use crate::cur::Cur;
use crate::desc::fault::DescFault;
use crate::desc::field::{read_byte, read_type};
use crate::desc::types::{Desc, MethodDesc};
use crate::items::Items;
use std::alloc::Global;

/// A parameter, or the `)` behind the last. The answer is whether it was a parameter.
#[tactic(auto, unfolding(crate::specs::DescReading::param_at, crate::specs::Reader::bind, crate::specs::Reader::pure, crate::specs::Reader::choose, crate::specs::Reader::from), using(crate::proofs::DescTakes::byte_shorter))]
fn read_param(alloc: Global, cur: &mut Cur, params: &mut Items<Desc>) -> Result<bool, DescFault>
    requires { length cur.old.rest < 2 ^ 16 }
    ensures { GivesBy is_free (λ more. (more, params.new)) result cur.new (param_at params.old cur.old) }
{
    let at = cur.at();
    let letter = read_byte(cur)?;
    if letter == b')' {
        return Ok(false);
    }
    params.push(read_type(alloc, cur, at, letter)?)?;
    Ok(true)
}

#[tactic(auto, unfolding(crate::specs::DescReading::params_at), using(crate::proofs::DescLoops::params_go_on, crate::proofs::DescLoops::params_end, crate::proofs::DescLoops::params_fail, crate::proofs::DescTakes::param_shorter))]
fn read_params(alloc: Global, cur: &mut Cur) -> Result<Items<Desc>, DescFault>
    requires { length cur.old.rest < 2 ^ 16 }
    ensures { Gives is_free result cur.new (params_at cur.old) }
{
    let mut params = Items::new(alloc);
    while read_param(alloc, cur, &mut params)? {}
    Ok(params)
}

#[tactic(auto, unfolding(crate::specs::DescReading::result_at, crate::specs::Reader::bind, crate::specs::Reader::pure, crate::specs::Reader::choose, crate::specs::Reader::from), using(crate::proofs::DescTakes::byte_shorter))]
fn read_result(alloc: Global, cur: &mut Cur) -> Result<Option<Desc>, DescFault>
    requires { length cur.old.rest < 2 ^ 16 }
    ensures { Gives is_free result cur.new (result_at cur.old) }
{
    let at = cur.at();
    match read_byte(cur)? {
        b'V' => Ok(None),
        letter => Ok(Some(read_type(alloc, cur, at, letter)?)),
    }
}

#[tactic(auto, unfolding(crate::specs::DescReading::method_at, crate::specs::Reader::bind, crate::specs::Reader::pure, crate::specs::Reader::refuse, crate::specs::Reader::choose, crate::specs::Reader::from), using(crate::proofs::DescTakes::byte_shorter, crate::proofs::DescTakes::params_shorter))]
pub fn read_method(alloc: Global, cur: &mut Cur) -> Result<MethodDesc, DescFault>
    requires { length cur.old.rest < 2 ^ 16 }
    ensures { Gives is_free result cur.new (method_at cur.old) }
{
    let at = cur.at();
    if read_byte(cur)? != b'(' {
        return Err(DescFault::BadDesc(at));
    }
    let params = read_params(alloc, cur)?;
    let result = read_result(alloc, cur)?;
    Ok(MethodDesc { params, result })
}
