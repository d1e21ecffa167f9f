//! Why classes don't link.
ghost use Rattle.std.specs.Prelude.{◌≡◌, ◌++◌, codes, OnOk};
ghost use Rattle.std.specs.Fmt.{decimal};
ghost use Rattle.nr_cli.specs.Spelling.{spelled};
ghost use Rattle.nr_cli.specs.Refusals.{spelled_at, spelled_link, spelled_method};

use super::parts::put_name;
use nr_base::{Name, Put};
use nr_linked::MethodName;
use nr_linkrules::LinkFault;
use std::alloc::{AllocError, Global};

// A fault of one name.
fn put_named(text: &mut Put, fault: &[u8], name: &Name) -> Result<(), AllocError>
    ensures { OnOk result (text.new ≡ text.old ++ (fault.now ++ spelled name.now)) }
{
    text.bytes(fault)?;
    put_name(text, name.as_bytes())
}

fn put_method(text: &mut Put, method: &MethodName) -> Result<(), AllocError>
    ensures { OnOk result (text.new ≡ text.old ++ spelled_method method.now) }
{
    put_name(text, method.name.as_bytes())?;
    put_name(text, method.desc.as_bytes())
}

fn put_offset(alloc: Global, text: &mut Put, at: u32) -> Result<(), AllocError>
    ensures { OnOk result (text.new ≡ text.old ++ (codes " " ++ decimal at)) }
{
    text.bytes(format!(in alloc; " {at}")?.as_bytes())
}

/// A method of a class, and an offset in its code.
pub fn put_at(
    alloc: Global,
    text: &mut Put,
    class: &Name,
    method: &MethodName,
    at: u32,
) -> Result<(), AllocError>
    ensures { OnOk result (text.new ≡ text.old ++ spelled_at class.now method.now at) }
{
    put_name(text, class.as_bytes())?;
    text.bytes(b" ")?;
    put_method(text, method)?;
    put_offset(alloc, text, at)
}

// A fault of an instruction.
fn put_site(
    alloc: Global,
    text: &mut Put,
    fault: &[u8],
    class: &Name,
    method: &MethodName,
    at: u32,
) -> Result<(), AllocError>
    ensures { OnOk result
        (text.new ≡ text.old ++ (fault.now ++ spelled_at class.now method.now at)) }
{
    text.bytes(fault)?;
    put_at(alloc, text, class, method, at)
}

fn put_override(text: &mut Put, class: &Name, method: &MethodName) -> Result<(), AllocError>
    ensures { OnOk result (text.new ≡ text.old
        ++ (codes "FinalOverride " ++ spelled class.now ++ codes " " ++ spelled_method method.now)) }
{
    put_named(text, b"FinalOverride ", class)?;
    text.bytes(b" ")?;
    put_method(text, method)
}

/// Why classes don't link.
pub fn put_link(alloc: Global, text: &mut Put, fault: &LinkFault) -> Result<(), AllocError>
    ensures { OnOk result (text.new ≡ text.old ++ spelled_link fault.now) }
{
    match fault {
        LinkFault::LimitClasses(count) => {
            text.bytes(format!(in alloc; "LimitClasses {count}")?.as_bytes())
        }
        LinkFault::ReservedName(name) => put_named(text, b"ReservedName ", name),
        LinkFault::DoubledClass(name) => put_named(text, b"DoubledClass ", name),
        LinkFault::NoClass(name) => put_named(text, b"NoClass ", name),
        LinkFault::SuperKind(name) => put_named(text, b"SuperKind ", name),
        LinkFault::FinalSuper(name) => put_named(text, b"FinalSuper ", name),
        LinkFault::Cycle(name) => put_named(text, b"Cycle ", name),
        LinkFault::Initialiser(name) => put_named(text, b"Initialiser ", name),
        LinkFault::InterfaceMember(name) => put_named(text, b"InterfaceMember ", name),
        LinkFault::FinalOverride(name, method) => put_override(text, name, method),
        LinkFault::NoField(name, m, at) => put_site(alloc, text, b"NoField ", name, m, *at),
        LinkFault::NoMethod(name, m, at) => put_site(alloc, text, b"NoMethod ", name, m, *at),
        LinkFault::MemberKind(name, m, at) => put_site(alloc, text, b"MemberKind ", name, m, *at),
        LinkFault::NotMakeable(name, m, at) => {
            put_site(alloc, text, b"NotMakeable ", name, m, *at)
        }
        LinkFault::NoMain(name) => put_named(text, b"NoMain ", name),
        LinkFault::NoService(name) => put_named(text, b"NoService ", name),
        LinkFault::NoMemory => text.bytes(b"NoMemory"),
    }
}
