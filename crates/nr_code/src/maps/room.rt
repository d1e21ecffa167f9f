//! How many types the frame maps of a class file may have.

ghost use Rattle.std.specs.Prelude.{◌≡◌, ◌+◌, ◌<◌, OnOk, OnErr};
ghost use Rattle.nr_code.specs.Rooms.{all_types};

use std::alloc::AllocError;

// Each frame map is a whole frame, so few bytes of a class file can say very many types: a frame of
// 60,000 local variables, and 60,000 more frames of them. No compiler comes near this number.
const TYPES: u32 = 0x100_0000;

/// How many more types the frame maps of a class file may have, in all their locals and operands.
#[derive(Debug, Drop)]
pub struct Room {
    pub left: u32,
}

impl Room {
    /// The room of a class file.
    pub fn new() -> Room
        ensures { result.left ≡ all_types }
    {
        Room { left: TYPES }
    }

    /// Takes room for so many types. The error comes exactly where it isn't there, and leaves the room
    /// as it was.
    pub fn take(&mut self, count: usize) -> Result<(), AllocError>
        ensures ok { OnOk result (self.new.left + count ≡ self.old.left) }
        ensures err { OnErr result ((self.new.left ≡ self.old.left) × (self.old.left < count)) }
    {
        if count > self.left as usize {
            return Err(AllocError);
        }
        self.left -= count as u32;
        Ok(())
    }
}
