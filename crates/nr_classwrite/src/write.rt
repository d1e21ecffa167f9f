//! Class files, written.

ghost use Rattle.std.specs.Prelude.{◌≡◌, IfOk, Ok};
ghost use Rattle.nr_classread.specs.ClassReading.{class_of};
ghost use Rattle.nr_classread.specs.ClassText.{ReadsAs};
ghost use Rattle.nr_classwrite.specs.Faults.{IsAnswer, class_fault};
ghost use Rattle.nr_classwrite.specs.Text.{class_text};

mod attribute;
mod class;
mod code;
mod field;
mod method;
mod number;
mod pool;

use crate::check::class_fault;
use crate::fault::WriteFault;
use crate::names::AttrNames;
use crate::write::class::written;
use nr_prog::Class;
use std::alloc::Global;

/// The bytes of the file of a class, which are read as the class again (JVM Specification 4, version
/// 50.0). Its attributes are `Code`, `StackMapTable` and `ConstantValue`, where the class has them, and
/// no other.
///
/// # Errors
///
/// The first thing, in the order of the file, for which it has no room or no name: `TooLong` where a part
/// has more items than its count can say; `NoAttrName` where an attribute is needed and no Utf8 entry of
/// the constant pool spells its name. `NoMemory` for want of memory.
pub fn write_class(alloc: Global, class: &Class) -> Result<Vec<u8>, WriteFault>
    ensures text { IfOk result (λ bytes. bytes.items ≡ class_text class.now) }
    ensures spelled { IfOk result (λ bytes. ReadsAs bytes.items class.now) }
    ensures back { IfOk result (λ bytes. class_of bytes.items ≡ Ok class.now) }
    ensures exact { IsAnswer result (class_fault class.now) }
{
    let parts = class.parts();
    let names = AttrNames::of(parts.pool.as_slice());
    if let Some(fault) = class_fault(parts, names) {
        return Err(fault);
    }
    Ok(written(alloc, parts, names)?)
}
