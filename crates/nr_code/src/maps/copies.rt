//! Copies of types, which share their names.

ghost use Rattle.std.specs.Prelude.{◌≡◌, IfOk, IsOkUnless};

use nr_base::Items;
use nr_instrs::CodeFault;
use nr_prog::MapType;
use std::alloc::Global;

fn copied_type(map_type: &MapType) -> Result<MapType, CodeFault>
    ensures copy { IfOk result (λ copy. copy ≡ map_type.now) }
    ensures err { IsOkUnless result CodeFault.NoMemory }
{
    Ok(match map_type {
        MapType::Top => MapType::Top,
        MapType::Int => MapType::Int,
        MapType::Long => MapType::Long,
        MapType::Null => MapType::Null,
        MapType::UninitThis => MapType::UninitThis,
        MapType::Uninit(at) => MapType::Uninit(*at),
        MapType::Object(desc) => MapType::Object(desc.share()?),
    })
}

/// A copy of the types.
pub fn copied(alloc: Global, types: &[MapType]) -> Result<Items<MapType>, CodeFault>
    ensures copy { IfOk result (λ copy. copy ≡ types.now) }
    ensures err { IsOkUnless result CodeFault.NoMemory }
{
    let mut copies = Items::from_vec(Vec::with_capacity(alloc, types.len())?);
    for map_type in types {
        copies.push(copied_type(map_type)?)?;
    }
    Ok(copies)
}
