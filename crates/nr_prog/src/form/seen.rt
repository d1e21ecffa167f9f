//! Pairs of a name and a descriptor that were seen already, by the numbers of the texts.

ghost use Rattle.std.specs.Prelude.{◌≡◌, ℕ, not, ◌||◌, IfOk, OnOk};
ghost use Rattle.nr_prog.specs.Seen.{has_pair, is_pair};

use std::alloc::AllocError;
use std::collections::BTreeSet;

/// Adds a pair, and says whether it is new.
#[tactic(auto, unfolding(crate::specs::Seen::has_pair))]
pub fn add(seen: &mut BTreeSet<(u16, u16)>, name: u16, desc: u16) -> Result<bool, AllocError>
    ensures new { IfOk result (λ new. new ≡ not (has_pair seen.old name desc)) }
    ensures kept { OnOk result
        ((n d : ℕ) → has_pair seen.new n d ≡ (has_pair seen.old n d || is_pair n d name desc)) }
{
    let new = seen.insert((name, desc))?;
    Ok(new)
}
