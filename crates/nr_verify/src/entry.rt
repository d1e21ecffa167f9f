//! The frame at a method's entry (JVM Specification 4.10.1.6, methodInitialStackFrame).

ghost use Rattle.std.specs.Prelude.{◌≡◌, ◌++◌, IfOk, OnOk};
ghost use Rattle.nr_prog.specs.Members.{is_static};
ghost use Rattle.nr_linked.specs.TypingFrames.{argument_types, comes_uninit, entry_frame, in_places, of_kinds, this_type};

use nr_linked::{BuiltIn, Kind, MethodInfo, Program, VType};
use nr_types::{is_long, of_class, of_kind};
use nr_verify_ops::{Frame, is_initialiser};
use std::alloc::{AllocError, Global};

fn is_static(method: &MethodInfo) -> bool
    ensures { result ≡ is_static method.now.flags }
{
    method.flags & 0x0008 != 0
}

/// Whether `this` comes uninitialised: in an initialiser of a class other than java/lang/Object.
fn comes_uninit(p: &Program, method: &MethodInfo) -> bool
    ensures { result ≡ comes_uninit p.now method.now }
{
    is_initialiser(method) && !(method.class == p.built_in(BuiltIn::Object))
}

fn this_type(p: &Program, method: &MethodInfo) -> VType
    ensures { result ≡ this_type p.now method.now }
{
    if comes_uninit(p, method) {
        VType::UninitThis
    } else {
        of_class(method.class)
    }
}

/// The types of values of the kinds, at the end.
fn push_kinds(types: &mut Vec<VType>, kinds: &[Kind]) -> Result<(), AllocError>
    ensures { OnOk result (types.new.items ≡ types.old.items ++ of_kinds kinds.now) }
{
    let mut left = kinds;
    while let Some((kind, more)) = left.split_first() {
        types.push(of_kind(*kind))?;
        left = more;
    }
    Ok(())
}

/// `this`, if there is one, and the parameters. The error comes only for want of memory.
pub(crate) fn argument_types(
    alloc: Global,
    p: &Program,
    method: &MethodInfo,
) -> Result<Vec<VType>, AllocError>
    ensures { IfOk result (λ types. types.items ≡ argument_types p.now method.now) }
{
    let mut types = Vec::new(alloc);
    if !is_static(method) {
        types.push(this_type(p, method))?;
    }
    push_kinds(&mut types, method.params.as_slice())?;
    Ok(types)
}

/// As local variables, of which a long takes two.
fn in_places(alloc: Global, types: &[VType]) -> Result<Vec<VType>, AllocError>
    ensures { IfOk result (λ places. places.items ≡ in_places types.now) }
{
    let mut places = Vec::new(alloc);
    let mut left = types;
    while let Some((t, more)) = left.split_first() {
        places.push(*t)?;
        if is_long(*t) {
            places.push(VType::Top)?;
        }
        left = more;
    }
    Ok(places)
}

/// The frame of a method with these arguments. The error comes only for want of memory.
pub(crate) fn entry_frame(
    alloc: Global,
    p: &Program,
    method: &MethodInfo,
    types: &[VType],
) -> Result<Frame, AllocError>
    requires { types.now ≡ argument_types p.now method.now }
    ensures { IfOk result (λ frame. frame ≡ entry_frame p.now method.now) }
{
    let locals = in_places(alloc, types)?;
    let this_uninit = !is_static(method) && comes_uninit(p, method);
    Ok(Frame::of_locals(alloc, method, locals, this_uninit))
}
