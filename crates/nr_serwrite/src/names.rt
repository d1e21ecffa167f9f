//! The names of classes in streams.

ghost use Rattle.std.specs.Prelude.{◌≡◌, ◌++◌, ◌<◌, ◌^◌, length, IfOk, OnOk};
ghost use Rattle.nr_linked.specs.KindTexts.{base_desc, class_name, kind_text};
ghost use Rattle.nr_base.specs.Descs.{base_text};
ghost use Rattle.nr_serform.specs.ClassNumbers.{dotted, utf};
ghost use Rattle.nr_serform.specs.Descriptions.{stream_name};
ghost use Rattle.nr_serwrite.specs.Texts.{HasShortName};

use crate::texts::put_dotted;
use nr_base::Put;
use nr_linked::{Base, ClassId, Kind, ProgramTables};
use std::alloc::{AllocError, Global};

/// The class's name, and no bytes where there is no such class.
fn class_name(tables: &ProgramTables, class: ClassId) -> &[u8]
    ensures name { result.now ≡ class_name tables.now class }
    ensures short { length result.now < 2 ^ 16 }
{
    match tables.class_at(class) {
        Some(info) => info.name.as_bytes(),
        None => &[],
    }
}

/// Adds the text of a type without dimensions (JVM Specification 4.3.2).
fn push_base(text: &mut Vec<u8>, tables: &ProgramTables, base: Base) -> Result<(), AllocError>
    ensures { OnOk result (text.new.items ≡ text.old.items ++ base_text (base_desc tables.now base)) }
{
    match base {
        Base::Bool => text.push(b'Z')?,
        Base::Byte => text.push(b'B')?,
        Base::Char => text.push(b'C')?,
        Base::Short => text.push(b'S')?,
        Base::Int => text.push(b'I')?,
        Base::Long => text.push(b'J')?,
        Base::Object(class) => {
            text.push(b'L')?;
            text.extend_from_slice(class_name(tables, class))?;
            text.push(b';')?;
        }
    }
    Ok(())
}

/// The descriptor that says the kind.
fn kind_text(alloc: Global, tables: &ProgramTables, kind: Kind) -> Result<Vec<u8>, AllocError>
    ensures { IfOk result (λ v. v.items ≡ kind_text tables.now kind) }
{
    let mut text = Vec::new(alloc);
    for _dim in 0..kind.dims {
        text.push(b'[')?;
    }
    push_base(&mut text, tables, kind.base)?;
    Ok(text)
}

/// Writes the class's name, or the array's descriptor, with dots.
#[tactic(auto, unfolding(nr_serform::specs::Descriptions::stream_name))]
pub fn put_name(
    alloc: Global,
    tables: &ProgramTables,
    out: &mut Put,
    kind: Kind,
) -> Result<(), AllocError>
    requires { HasShortName tables.now kind }
    ensures { OnOk result (out.new ≡ out.old ++ utf (stream_name tables.now kind)) }
{
    match kind {
        Kind {
            dims: 0,
            base: Base::Object(class),
        } => put_dotted(out, class_name(tables, class)),
        Kind { dims: 0, base: _ } => out.u16(0),
        _ => {
            let text = kind_text(alloc, tables, kind)?;
            put_dotted(out, text.as_slice())
        }
    }
}
