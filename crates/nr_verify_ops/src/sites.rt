//! The instruction at an offset of a method, by search.

ghost use Rattle.std.specs.Prelude.{◌≡◌, slice_get};
ghost use Rattle.std.specs.Option.{option_map};
ghost use Rattle.nr_prog.specs.Offsets.{IsInOrder};
ghost use Rattle.nr_linked.specs.Sites.{site_among, site_at};
ghost use Rattle.nr_linked.specs.TypingCalls.{class_made, class_made_at};
ghost use Rattle.nr_verify_ops.specs.Sites.{HasCodeInOrder, family_and_found};

use nr_linked::{Base, ClassId, Kind, MethodInfo, Resolved};
use nr_optable::Family;
use nr_prog::Instr;

/// What linking found for the instruction at a place.
fn found_at(resolved: &[Resolved], place: usize) -> Option<Resolved>
    ensures { result ≡ slice_get resolved.now place }
{
    match resolved.get(place) {
        Some(found) => Some(*found),
        None => None,
    }
}

/// The family of an instruction, beside what was found for it.
fn beside(family: Family, found: Option<Resolved>) -> Option<(Family, Resolved)>
    ensures { result ≡ option_map (λ r. (family, r)) found }
{
    match found {
        Some(found) => Some((family, found)),
        None => None,
    }
}

/// The family of the instruction at the offset, and what linking found for it.
fn site_among(instrs: &[Instr], resolved: &[Resolved], at: u16) -> Option<(Family, Resolved)>
    requires { IsInOrder instrs.now }
    ensures { result ≡ option_map family_and_found (site_among instrs.now resolved.now at) }
{
    match instrs.binary_search_by_key(&at, |instr| instr.at) {
        Ok(place) => beside(instrs[place].row.family, found_at(resolved, place)),
        Err(_) => None,
    }
}

/// The same in a method's code.
pub(crate) fn site_at(method: &MethodInfo, at: u16) -> Option<(Family, Resolved)>
    requires { HasCodeInOrder method.now }
    ensures { result ≡ option_map family_and_found (site_at method.now at) }
{
    let body = method.body.as_ref()?;
    site_among(body.instrs.as_slice(), method.resolved.as_slice(), at)
}

fn class_made(family: Family, found: Resolved) -> Option<ClassId>
    ensures { result ≡ class_made family found }
{
    match (family, found) {
        (
            Family::F33,
            Resolved::Kind(
                Kind {
                    dims: 0,
                    base: Base::Object(class),
                },
            ),
        ) => Some(class),
        _ => None,
    }
}

/// The class that the `new` at the offset names.
pub(crate) fn class_made_at(method: &MethodInfo, at: u16) -> Option<ClassId>
    requires { HasCodeInOrder method.now }
    ensures { result ≡ class_made_at method.now at }
{
    let (family, found) = site_at(method, at)?;
    class_made(family, found)
}
