//! Local variables past the listed ones, which are `Top`.

ghost use Rattle.std.specs.Prelude.{◌≡◌, OnOk};
ghost use Rattle.nr_linked.specs.TypingFrames.{padded};

use nr_linked::VType;
use std::alloc::AllocError;

/// Lists at least so many places. The error comes only for want of memory.
pub(crate) fn pad(listed: &mut Vec<VType>, places: usize) -> Result<(), AllocError>
    ensures { OnOk result (listed.new.items ≡ padded places listed.old.items) }
{
    while listed.len() < places {
        listed.push(VType::Top)?;
    }
    Ok(())
}
