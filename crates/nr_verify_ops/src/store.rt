//! What a store leaves in the local variables (JVM Specification 4.10.1.7).

ghost use Rattle.std.specs.Prelude.{◌≡◌, ◌<◌, OnOk, length, slice_set};
ghost use Rattle.nr_linked.specs.TypingLocals.{put, put_word};
ghost use Rattle.nr_verify_ops.specs.Halves.{without_half, without_long, without_long_before};

use crate::padding::pad;
use nr_linked::VType;
use nr_types::{is_long, local_type};
use std::alloc::AllocError;

/// A type in the place, where there is one.
fn set(locals: &mut [VType], i: usize, t: VType)
    ensures { locals.new ≡ slice_set locals.old i t }
{
    if i < locals.len() {
        locals[i] = t;
    }
}

/// Where the place holds a long, it holds `Top`.
fn end_long(locals: &mut [VType], i: usize)
    ensures { locals.new ≡ without_long i locals.old }
{
    if is_long(local_type(locals, i)) {
        set(locals, i, VType::Top);
    }
}

/// The same of the place before.
fn end_long_before(locals: &mut [VType], i: usize)
    ensures { locals.new ≡ without_long_before i locals.old }
{
    if i > 0 {
        end_long(locals, i - 1);
    }
}

/// Where the place holds a long, its second place holds `Top`.
fn end_half(locals: &mut [VType], i: usize)
    requires { i < length locals.old }
    ensures { locals.new ≡ without_half i locals.old }
{
    if is_long(local_type(locals, i)) {
        set(locals, i + 1, VType::Top);
    }
}

/// A type in one of the places; of a long that it breaks up the other half becomes `Top`.
fn put_within(locals: &mut [VType], i: usize, t: VType)
    requires { i < length locals.old }
    ensures { locals.new ≡ put_word i t locals.old }
{
    end_long_before(locals, i);
    end_half(locals, i);
    set(locals, i, t);
}

fn put_listed(locals: &mut Vec<VType>, i: usize, t: VType)
    requires { i < length locals.old.items }
    ensures { locals.new.items ≡ put_word i t locals.old.items }
{
    put_within(locals.as_mut_slice(), i, t);
}

/// A type in one place, with the places up to it listed.
fn put_word(locals: &mut Vec<VType>, i: usize, t: VType) -> Result<(), AllocError>
    requires { i < 65537 }
    ensures { OnOk result (locals.new.items ≡ put_word i t locals.old.items) }
{
    pad(locals, i + 1)?;
    put_listed(locals, i, t);
    Ok(())
}

/// A type in its place, or a long in its two. The error comes only for want of memory.
pub(crate) fn put(locals: &mut Vec<VType>, i: usize, t: VType) -> Result<(), AllocError>
    requires { i < 65536 }
    ensures { OnOk result (locals.new.items ≡ put i t locals.old.items) }
{
    if is_long(t) {
        put_word(locals, i + 1, VType::Top)?;
    }
    put_word(locals, i, t)?;
    Ok(())
}
