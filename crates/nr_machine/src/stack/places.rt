//! The places of instructions among those of a method's code.

ghost use Rattle.std.specs.Prelude.{◌≡◌, ℕ, IsSomeAnd, slice_get};
ghost use Rattle.nr_prog.specs.Offsets.{StandInOrder};

use nr_prog::Instr;

/// The place of the instruction at an offset, in code whose offsets rise.
pub fn place_at(code: &[Instr], offset: u32) -> usize
    requires order { StandInOrder code.now }
    requires there { (k : ℕ) × IsSomeAnd (slice_get code.now k) (λ i. i.at ≡ offset) }
    ensures { IsSomeAnd (slice_get code.now result) (λ i. i.at ≡ offset) }
{
    let mut low = 0;
    let mut high = code.len();
    while low < high {
        let middle = low + (high - low) / 2;
        let at = u32::from(code[middle].at);
        if at == offset {
            return middle;
        }
        if at < offset {
            low = middle + 1;
        } else {
            high = middle;
        }
    }
    unreachable!()
}
