//! The frame map at an offset of a method, by search (JVM Specification 4.7.4).

ghost use Rattle.std.specs.Prelude.{◌≡◌};
ghost use Rattle.std.specs.Option.{option_map};
ghost use Rattle.nr_linked.specs.WellTyped.{map_at, mapped_frame};
ghost use Rattle.nr_verify.specs.Walking.{HasMapsInOrder};

use nr_linked::{MethodInfo, VFrame};

/// The frame of the frame map at the offset.
pub(crate) fn map_at<'a>(method: &'a MethodInfo, at: u16) -> Option<&'a VFrame>
    requires { HasMapsInOrder method.now }
    ensures { option_map (λ v. mapped_frame method.now v.now) result ≡ map_at method.now at }
{
    let maps = method.maps.as_slice();
    match maps.binary_search_by_key(&at, |entry| entry.0) {
        Ok(place) => Some(&maps[place].1),
        Err(_) => None,
    }
}
