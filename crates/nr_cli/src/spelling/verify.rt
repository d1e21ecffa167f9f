//! Why a program isn't well typed.
ghost use Rattle.std.specs.Prelude.{◌≡◌, ◌++◌, codes, IfOk, OnOk};
ghost use Rattle.std.specs.Fmt.{decimal};
ghost use Rattle.nr_base.specs.Descs.{base_text};
ghost use Rattle.nr_linked.specs.KindTexts.{base_desc, class_name, kind_text};
ghost use Rattle.nr_cli.specs.Spelling.{spelled};
ghost use Rattle.nr_cli.specs.Refusals.{kind_name, spelled_at, spelled_op, spelled_type, spelled_verify, spelled_wanted};

use super::link::put_at;
use super::parts::put_name;
use nr_base::{Name, Put};
use nr_linked::{Base, ClassId, Kind, MethodName, OpFault, Program, VType, Wanted};
use nr_verify::VerifyFault;
use std::alloc::{AllocError, Global};

// The name of a class, or nothing where there is no such class.
fn put_class(text: &mut Put, p: &Program, class: ClassId) -> Result<(), AllocError>
    ensures { OnOk result (text.new ≡ text.old ++ class_name p.now class) }
{
    match p.tables().class_at(class) {
        Some(info) => text.bytes(info.name.as_bytes()),
        None => Ok(()),
    }
}

// The base of a descriptor.
fn put_base(text: &mut Put, p: &Program, base: Base) -> Result<(), AllocError>
    ensures { OnOk result (text.new ≡ text.old ++ base_text (base_desc p.now base)) }
{
    match base {
        Base::Bool => text.bytes(b"Z"),
        Base::Byte => text.bytes(b"B"),
        Base::Char => text.bytes(b"C"),
        Base::Short => text.bytes(b"S"),
        Base::Int => text.bytes(b"I"),
        Base::Long => text.bytes(b"J"),
        Base::Object(class) => {
            text.bytes(b"L")?;
            put_class(text, p, class)?;
            text.bytes(b";")
        }
    }
}

// The descriptor of an array.
#[tactic(auto, using(crate::proofs::Dimensions::none_yet, crate::proofs::Dimensions::one_more))]
fn put_array(text: &mut Put, p: &Program, kind: Kind) -> Result<(), AllocError>
    ensures { OnOk result (text.new ≡ text.old ++ kind_text p.now kind) }
{
    for dim in 0..kind.dims {
        text.bytes(b"[")?;
    }
    put_base(text, p, kind.base)
}

// The name of a class, or the descriptor of an array.
fn put_kind(text: &mut Put, p: &Program, kind: Kind) -> Result<(), AllocError>
    ensures { OnOk result (text.new ≡ text.old ++ kind_name p.now kind) }
{
    if kind.dims > 0 {
        return put_array(text, p, kind);
    }
    match kind.base {
        Base::Object(class) => put_class(text, p, class),
        _ => Ok(()),
    }
}

fn put_spelled_kind(
    alloc: Global,
    text: &mut Put,
    p: &Program,
    kind: Kind,
) -> Result<(), AllocError>
    ensures { OnOk result (text.new ≡ text.old ++ spelled (kind_name p.now kind)) }
{
    let mut name = Put::new(alloc);
    put_kind(&mut name, p, kind)?;
    put_name(text, &name.done())
}

fn put_type(alloc: Global, text: &mut Put, p: &Program, vtype: VType) -> Result<(), AllocError>
    ensures { OnOk result (text.new ≡ text.old ++ spelled_type p.now vtype) }
{
    match vtype {
        VType::Top => text.bytes(b"top"),
        VType::Int => text.bytes(b"int"),
        VType::Long => text.bytes(b"long"),
        VType::Null => text.bytes(b"null"),
        VType::UninitThis => text.bytes(b"uninit-this"),
        VType::Uninit(at) => text.bytes(format!(in alloc; "uninit-{at}")?.as_bytes()),
        VType::Class(kind) => put_spelled_kind(alloc, text, p, kind),
    }
}

fn put_wanted(alloc: Global, text: &mut Put, p: &Program, wanted: Wanted) -> Result<(), AllocError>
    ensures { OnOk result (text.new ≡ text.old ++ spelled_wanted p.now wanted) }
{
    match wanted {
        Wanted::Type(vtype) => put_type(alloc, text, p, vtype),
        Wanted::AnyReference => text.bytes(b"reference"),
    }
}

fn put_kinds(
    alloc: Global,
    text: &mut Put,
    p: &Program,
    depth: u32,
    expected: Wanted,
    found: VType,
) -> Result<(), AllocError>
    ensures { OnOk result (text.new ≡ text.old ++ (codes "NeedsKind " ++ decimal depth ++ codes " "
        ++ spelled_wanted p.now expected ++ codes " " ++ spelled_type p.now found)) }
{
    text.bytes(format!(in alloc; "NeedsKind {depth} ")?.as_bytes())?;
    put_wanted(alloc, text, p, expected)?;
    text.bytes(b" ")?;
    put_type(alloc, text, p, found)
}

fn put_op(alloc: Global, text: &mut Put, p: &Program, fault: OpFault) -> Result<(), AllocError>
    ensures { OnOk result (text.new ≡ text.old ++ spelled_op p.now fault) }
{
    match fault {
        OpFault::NeedsKind {
            depth,
            expected,
            found,
        } => put_kinds(alloc, text, p, depth, expected, found),
        OpFault::StackShort(depth) => {
            text.bytes(format!(in alloc; "StackShort {depth}")?.as_bytes())
        }
        OpFault::StackOver => text.bytes(b"StackOver"),
        OpFault::LocalRange(n) => text.bytes(format!(in alloc; "LocalRange {n}")?.as_bytes()),
        OpFault::NeedsInit => text.bytes(b"NeedsInit"),
        OpFault::ReturnKind => text.bytes(b"ReturnKind"),
    }
}

// A check and the place in whose code it fails.
fn put_check(
    alloc: Global,
    text: &mut Put,
    check: &[u8],
    class: &Name,
    method: &MethodName,
    at: u32,
) -> Result<(), AllocError>
    ensures { OnOk result
        (text.new ≡ text.old ++ (check.now ++ spelled_at class.now method.now at)) }
{
    text.bytes(check)?;
    put_at(alloc, text, class, method, at)
}

fn put_mismatch(
    alloc: Global,
    text: &mut Put,
    class: &Name,
    method: &MethodName,
    at: u32,
) -> Result<(), AllocError>
    ensures { OnOk result
        (text.new ≡ text.old ++ (codes "MapMismatch " ++ spelled_at class.now method.now at)) }
{
    put_check(alloc, text, b"MapMismatch ", class, method, at)
}

fn put_number(alloc: Global, text: &mut Put, number: u16) -> Result<(), AllocError>
    ensures { OnOk result (text.new ≡ text.old ++ decimal number) }
{
    text.bytes(format!(in alloc; "{number}")?.as_bytes())
}

// A check, the place in whose code it fails, and a number.
fn put_numbered_check(
    alloc: Global,
    text: &mut Put,
    check: &[u8],
    class: &Name,
    method: &MethodName,
    at: u32,
    number: u16,
) -> Result<(), AllocError>
    ensures { OnOk result (text.new ≡ text.old
        ++ (check.now ++ spelled_at class.now method.now at ++ codes " " ++ decimal number)) }
{
    put_check(alloc, text, check, class, method, at)?;
    text.bytes(b" ")?;
    put_number(alloc, text, number)
}

fn put_handler(
    alloc: Global,
    text: &mut Put,
    class: &Name,
    method: &MethodName,
    at: u32,
    index: u16,
) -> Result<(), AllocError>
    ensures { OnOk result (text.new ≡ text.old
        ++ (codes "HandlerMismatch " ++ spelled_at class.now method.now at ++ codes " " ++ decimal index)) }
{
    put_numbered_check(alloc, text, b"HandlerMismatch ", class, method, at, index)
}

fn put_verify(
    alloc: Global,
    text: &mut Put,
    p: &Program,
    fault: &VerifyFault,
) -> Result<(), AllocError>
    ensures { OnOk result (text.new ≡ text.old ++ spelled_verify p.now fault.now) }
{
    match fault {
        VerifyFault::Op(class, method, at, op) => {
            put_check(alloc, text, b"Op ", class, method, *at)?;
            text.bytes(b" ")?;
            put_op(alloc, text, p, *op)
        }
        VerifyFault::NoMap(class, m, at) => put_check(alloc, text, b"NoMap ", class, m, *at),
        VerifyFault::MapMismatch(class, m, at) => put_mismatch(alloc, text, class, m, *at),
        VerifyFault::FallsOff(class, m, at) => {
            put_check(alloc, text, b"FallsOff ", class, m, *at)
        }
        VerifyFault::HandlerMismatch(class, m, at, index) => {
            put_handler(alloc, text, class, m, *at, *index)
        }
        VerifyFault::NoMemory => text.bytes(b"NoMemory"),
    }
}

/// Why the program isn't well typed, as it is spelled.
pub fn spell_verify(alloc: Global, p: &Program, fault: &VerifyFault) -> Result<Vec<u8>, AllocError>
    ensures { IfOk result (λ text. text.items ≡ spelled_verify p.now fault.now) }
{
    let mut text = Put::new(alloc);
    put_verify(alloc, &mut text, p, fault)?;
    Ok(text.done())
}
