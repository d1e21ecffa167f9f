//! The places of names.

ghost use Rattle.std.specs.Prelude.{◌≡◌};

use crate::linear_map::LinearMap;
use std::test::Fail;

/// A name keeps its place, and is listed once.
#[test]
fn names_keep_their_places(rt: HostRuntime) -> Result<(), Fail> {
    let mut map = LinearMap::new(rt.alloc());
    assert!(rt; map.len() == 0 && map.get(0) == None && map.find(7) == None);
    for (name, place) in [(7, 0), (0, 1), (4_294_967_295, 2), (0, 1), (7, 0), (3, 3)] {
        assert!(rt; map.add(name)? == place);
        assert!(rt; map.find(name) == Some(place) && map.get(place) == Some(name));
    }
    assert!(rt; map.len() == 4 && map.get(4) == None && map.find(1) == None);

    let none = map.pick(&[])?;
    assert!(rt; none.len() == 0);
    Ok(())
}
