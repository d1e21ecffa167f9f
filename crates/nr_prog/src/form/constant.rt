//! Constant values of fields.

ghost use Rattle.std.specs.Prelude.{◌≡◌, Some};
ghost use Rattle.nr_prog.specs.Pool.{names, text_at};
ghost use Rattle.nr_prog.specs.Faults.{Finds};
ghost use Rattle.nr_prog.specs.Members.{constant_kind, is_of_kind};
ghost use Rattle.nr_prog.specs.Rules.{constant_fault};

use crate::fault::FormFault;
use crate::member::Field;
use crate::pool::{Pool, PoolEntry};

/// The kind of a constant value (JVM Specification 4.7.2).
#[derive(Clone, Copy, Debug, PartialEq, Eq)]
pub enum ConstantKind {
    Integer,
    Long,
    Str,
}

/// The kind of constant value that a field of this descriptor takes, if it takes any (JVM
/// Specification, table 4.7.2-A).
fn kind_of(desc: &[u8]) -> Option<ConstantKind>
    ensures { result ≡ constant_kind desc.now }
{
    match desc {
        [b'I' | b'S' | b'C' | b'B' | b'Z'] => Some(ConstantKind::Integer),
        [b'J'] => Some(ConstantKind::Long),
        _ if desc == b"Ljava/lang/String;".as_slice() => Some(ConstantKind::Str),
        _ => None,
    }
}

fn names_constant(pool: &Pool, index: u16, kind: ConstantKind) -> bool
    ensures { result ≡ names (is_of_kind kind) pool.now index }
{
    match pool.entry(usize::from(index)) {
        Some(PoolEntry::Integer(_)) => kind == ConstantKind::Integer,
        Some(PoolEntry::Long(_)) => kind == ConstantKind::Long,
        Some(PoolEntry::Str(_)) => kind == ConstantKind::Str,
        _ => false,
    }
}

/// Whether the index of a constant value, if there is one, names an entry of the kind that a field of
/// this descriptor takes (JVM Specification 4.7.2).
#[tactic(auto, unfolding(crate::specs::Rules::constant_fault, crate::specs::Members::is_constant_formed, crate::specs::Members::spells))]
pub fn check_constant(pool: &Pool, field: &Field, desc: &[u8]) -> Result<(), FormFault>
    requires { text_at pool.now field.now.desc ≡ Some desc.now }
    ensures { Finds result (constant_fault pool.now field.now.desc field.now.constant) }
{
    if field.constant == 0 {
        return Ok(());
    }
    match kind_of(desc) {
        Some(kind) if names_constant(pool, field.constant, kind) => Ok(()),
        _ => Err(FormFault::PoolKind(field.constant)),
    }
}
