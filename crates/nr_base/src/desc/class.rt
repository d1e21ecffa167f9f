//! The class name of a descriptor.

ghost use Rattle.std.specs.Prelude.{◌≡◌, ◌<◌, ◌^◌, length, false};
ghost use Rattle.nr_base.specs.Clauses.{Gives, GivesBy, none_free};
ghost use Rattle.nr_base.specs.Reader.{while_more};
ghost use Rattle.nr_base.specs.DescReading.{is_free, byte_at, letter_at, class_letter_at, class_at};

use crate::cur::Cur;
use crate::desc::fault::DescFault;
use crate::name::{Name, read_unit};
use std::alloc::Global;

const DOT: u16 = 0x2E;

const SLASH: u16 = 0x2F;

const SEMICOLON: u16 = 0x3B;

const BRACKET: u16 = 0x5B;

#[tactic(auto, unfolding(crate::specs::DescReading::letter_at, crate::specs::Reader::with_fault))]
fn read_letter(cur: &mut Cur) -> Result<u16, DescFault>
    ensures { Gives none_free result cur.new (letter_at cur.old) }
{
    Ok(read_unit(cur)?)
}

/// A character of the name, or the `;` behind it; `begun` says whether a part of the name has begun.
/// The answer is whether the name goes on.
#[tactic(auto, unfolding(crate::specs::DescReading::class_letter_at, crate::specs::Reader::bind, crate::specs::Reader::pure, crate::specs::Reader::refuse, crate::specs::Reader::choose, crate::specs::Reader::from))]
fn read_class_letter(cur: &mut Cur, begun: &mut bool) -> Result<bool, DescFault>
    ensures { GivesBy none_free (λ more. (more, begun.new)) result cur.new (class_letter_at begun.old cur.old) }
{
    let at = cur.at();
    match read_letter(cur)? {
        SEMICOLON if *begun => Ok(false),
        SLASH if *begun => {
            *begun = false;
            Ok(true)
        }
        DOT | SLASH | SEMICOLON | BRACKET => Err(DescFault::BadDesc(at)),
        _ => {
            *begun = true;
            Ok(true)
        }
    }
}

/// Moves behind the name and its `;`.
#[tactic(auto, using(crate::proofs::DescLoops::class_goes_on, crate::proofs::DescLoops::class_ends, crate::proofs::DescLoops::class_stops, crate::proofs::DescTakes::letter_shorter))]
fn skip_class(cur: &mut Cur) -> Result<bool, DescFault>
    ensures { Gives none_free result cur.new (while_more class_letter_at false cur.old) }
{
    let mut begun = false;
    while read_class_letter(cur, &mut begun)? {}
    Ok(begun)
}

/// The name and its `;`.
#[tactic(auto, unfolding(crate::specs::DescReading::class_at, crate::specs::Reader::bind, crate::specs::Reader::pure, crate::specs::Reader::spanned), using(crate::proofs::ClassLaw::class_span))]
pub fn read_class(alloc: Global, cur: &mut Cur) -> Result<Name, DescFault>
    requires { length cur.old.rest < 2 ^ 16 }
    ensures { Gives is_free result cur.new (class_at cur.old) }
{
    let text = cur.rest();
    skip_class(cur)?;
    let len = text.len() - cur.left() as usize;
    Ok(Name::copy_of(alloc, &text[..len - 1])?)
}
