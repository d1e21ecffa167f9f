//! Why a class file is refused.
ghost use Rattle.std.specs.Prelude.{◌≡◌, ◌++◌, codes, OnOk};
ghost use Rattle.std.specs.Fmt.{decimal};
ghost use Rattle.nr_cli.specs.Spelling.{spelled_class, spelled_code, spelled_fault, spelled_form};

use super::parts::{put_numbered, put_pair};
use crate::ending::LoadFault;
use nr_base::Put;
use nr_classread::ClassFault;
use nr_code::CodeFault;
use nr_prog::FormFault;
use std::alloc::{AllocError, Global};

fn put_form(alloc: Global, text: &mut Put, fault: FormFault) -> Result<(), AllocError>
    ensures { OnOk result (text.new ≡ text.old ++ spelled_form fault) }
{
    match fault {
        FormFault::PoolKind(index) => put_numbered(alloc, text, "PoolKind ", u32::from(index)),
        FormFault::BadName(index) => put_numbered(alloc, text, "BadName ", u32::from(index)),
        FormFault::BadDesc(index) => put_numbered(alloc, text, "BadDesc ", u32::from(index)),
        FormFault::Doubled(index) => put_numbered(alloc, text, "Doubled ", u32::from(index)),
        FormFault::CodePresence(method) => {
            text.bytes(format!(in alloc; "CodePresence {method}")?.as_bytes())
        }
        FormFault::OutOfProfile(method) => {
            text.bytes(format!(in alloc; "OutOfProfile {method}")?.as_bytes())
        }
        FormFault::NoMemory => text.bytes(b"NoMemory"),
    }
}

fn put_class(alloc: Global, text: &mut Put, fault: ClassFault) -> Result<(), AllocError>
    ensures { OnOk result (text.new ≡ text.old ++ spelled_class fault) }
{
    match fault {
        ClassFault::Short(at) => put_numbered(alloc, text, "Short ", at),
        ClassFault::BadMagic => text.bytes(b"BadMagic"),
        ClassFault::Version(minor, major) => {
            put_pair(alloc, text, "Version ", u32::from(minor), u32::from(major))
        }
        ClassFault::PoolTag(at, tag) => put_pair(alloc, text, "PoolTag ", at, u32::from(tag)),
        ClassFault::AttrLength(at) => put_numbered(alloc, text, "AttrLength ", at),
        ClassFault::DoubledAttr(at) => put_numbered(alloc, text, "DoubledAttr ", at),
        ClassFault::Trailing(at) => put_numbered(alloc, text, "Trailing ", at),
        ClassFault::Form(fault) => put_form(alloc, text, fault),
        ClassFault::NoMemory => text.bytes(b"NoMemory"),
    }
}

// A fault of the profile, at an offset, with a code.
fn put_profile(alloc: Global, text: &mut Put, at: u32, code: u8) -> Result<(), AllocError>
    ensures { OnOk result
        (text.new ≡ text.old
        ++ (codes "OutOfProfile " ++ decimal at ++ codes " " ++ decimal code)) }
{
    text.bytes(format!(in alloc; "OutOfProfile {at} {code}")?.as_bytes())
}

// A fault of an exception handler.
fn put_range(alloc: Global, text: &mut Put, index: u16) -> Result<(), AllocError>
    ensures { OnOk result (text.new ≡ text.old ++ (codes "HandlerRange " ++ decimal index)) }
{
    text.bytes(format!(in alloc; "HandlerRange {index}")?.as_bytes())
}

fn put_code(alloc: Global, text: &mut Put, fault: CodeFault) -> Result<(), AllocError>
    ensures { OnOk result (text.new ≡ text.old ++ spelled_code fault) }
{
    match fault {
        CodeFault::UnknownOp(at) => put_numbered(alloc, text, "UnknownOp ", at),
        CodeFault::OutOfProfile(at, code) => put_profile(alloc, text, at, code),
        CodeFault::Short(at) => put_numbered(alloc, text, "Short ", at),
        CodeFault::Target(at, to) => {
            text.bytes(format!(in alloc; "Target {at} {to}")?.as_bytes())
        }
        CodeFault::PoolUse(at) => put_numbered(alloc, text, "PoolUse ", at),
        CodeFault::SwitchOrder(at) => put_numbered(alloc, text, "SwitchOrder ", at),
        CodeFault::HandlerRange(index) => put_range(alloc, text, index),
        CodeFault::MapTag(at) => put_numbered(alloc, text, "MapTag ", at),
        CodeFault::MapOrder(at) => put_numbered(alloc, text, "MapOrder ", at),
        CodeFault::NoMemory => text.bytes(b"NoMemory"),
    }
}

// A fault of the code of a method.
fn put_method(
    alloc: Global,
    text: &mut Put,
    method: u16,
    fault: CodeFault,
) -> Result<(), AllocError>
    ensures { OnOk result
        (text.new ≡ text.old
        ++ (codes "Code " ++ decimal method ++ codes " " ++ spelled_code fault)) }
{
    text.bytes(format!(in alloc; "Code {method} ")?.as_bytes())?;
    put_code(alloc, text, fault)
}

/// Why a class file is refused.
pub fn put_load(alloc: Global, text: &mut Put, fault: LoadFault) -> Result<(), AllocError>
    ensures { OnOk result (text.new ≡ text.old ++ spelled_fault fault) }
{
    match fault {
        LoadFault::Read(fault) => put_class(alloc, text, fault),
        LoadFault::Code(method, fault) => put_method(alloc, text, method, fault),
        LoadFault::FileTooLong => text.bytes(b"FileTooLong"),
        LoadFault::FolderTooLong => text.bytes(b"FolderTooLong"),
    }
}
