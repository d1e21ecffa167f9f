//! Fields and methods in order.

ghost use Rattle.std.specs.Prelude.{◌≡◌, map, All, OnOk};
ghost use Rattle.nr_graph.specs.Sorted.{sorted};
ghost use Rattle.nr_serform.specs.ClassNumbers.{is_sooner};
ghost use Rattle.nr_serform.specs.Members.{IsShort, part_of};

use std::alloc::AllocError;

/// A field or a method by its name and its descriptor.
#[derive(Clone, Copy)]
pub struct Member<'a> {
    pub name: &'a [u8],
    pub desc: &'a [u8],
    /// Its access flags, or its place.
    pub number: u32,
}

/// Sorts members by the bytes of their names, and those of one name by those of their descriptors. The
/// error comes only for want of memory.
pub fn sort(members: &mut Vec<Member>) -> Result<(), AllocError>
    requires { All IsShort members.old.items }
    ensures sorted { OnOk result
        (map part_of members.new.items ≡ sorted is_sooner (map part_of members.old.items)) }
    ensures short { OnOk result (All IsShort members.new.items) }
{
    members.sort_by_key(|member| (member.name, member.desc))?;
    Ok(())
}
