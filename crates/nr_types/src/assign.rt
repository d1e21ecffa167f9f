//! What goes where another type is wanted (JVM Specification 4.10.1.2).

ghost use Rattle.std.specs.Prelude.{◌≡◌, reverse};
ghost use Rattle.nr_linked.specs.TypingFrames.{is_operand_assignable, is_type_assignable, locals_fit, operands_fit};

use crate::frames::local_type;
use nr_linked::{Program, VType};

/// Whether type `a` goes where type `b` is wanted: each type where it is wanted itself, anything where
/// `Top` is, null where a class or an array is, and a class or an array where one that it can be assigned
/// to is. The classes of `a` and `b` are of the program.
pub fn assignable(p: &Program, a: &VType, b: &VType) -> bool
    ensures { result ≡ is_type_assignable p.now a.now b.now }
{
    match (*a, *b) {
        (_, VType::Top)
        | (VType::Int, VType::Int)
        | (VType::Long, VType::Long)
        | (VType::Null, VType::Null | VType::Class(_))
        | (VType::UninitThis, VType::UninitThis) => true,
        (VType::Uninit(n), VType::Uninit(m)) => n == m,
        (VType::Class(j), VType::Class(k)) => p.is_assignable(j, k),
        _ => false,
    }
}

/// The same for operands, where a long goes for a long alone (the project's own rule: an operand of type
/// `Top` takes one place).
pub fn operand_assignable(p: &Program, a: &VType, b: &VType) -> bool
    ensures { result ≡ is_operand_assignable p.now a.now b.now }
{
    match (*a, *b) {
        (VType::Long, VType::Top) => false,
        _ => assignable(p, a, b),
    }
}

/// Whether each local variable of `ts` goes for the one of `us` at its place; places of `ts` past the
/// listed ones are `Top`.
pub fn locals_fit(p: &Program, ts: &[VType], us: &[VType]) -> bool
    ensures { result ≡ locals_fit p.now ts.now us.now }
{
    for (i, u) in us.iter().enumerate() {
        if !assignable(p, &local_type(ts, i), u) {
            return false;
        }
    }
    true
}

/// Whether the stacks, whose tops stand last, are of one length and each operand of `a` goes for the one
/// of `b`.
pub fn operands_fit(p: &Program, a: &[VType], b: &[VType]) -> bool
    ensures { result ≡ operands_fit p.now (reverse a.now) (reverse b.now) }
{
    let mut ts = a;
    let mut us = b;
    while let Some((t, more_ts)) = ts.split_last() {
        let Some((u, more_us)) = us.split_last() else {
            return false;
        };
        if !operand_assignable(p, t, u) {
            return false;
        }
        ts = more_ts;
        us = more_us;
    }
    us.is_empty()
}
