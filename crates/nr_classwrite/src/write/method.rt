//! Methods, written (JVM Specification 4.6).

ghost use Rattle.std.specs.Prelude.{◌≡◌, ◌<◌, ◌^◌, ◌++◌, length, All, OnOk};
ghost use Rattle.std.specs.List.{AllByRecursion};
ghost use Rattle.nr_classwrite.specs.Fits.{IsRoomy, MethodFits};
ghost use Rattle.nr_classwrite.specs.Text.{list_text, method_text};

use crate::names::AttrNames;
use crate::write::code::put_code;
use crate::write::number::put_two;
use nr_base::Put;
use nr_prog::Method;
use std::alloc::AllocError;

fn put_method(put: &mut Put, names: AttrNames, method: &Method) -> Result<(), AllocError>
    requires { IsRoomy method.now.code }
    ensures text { OnOk result (put.new ≡ put.old ++ method_text names method.now) }
    ensures fits { OnOk result (MethodFits method.now) }
{
    put_two(put, method.flags)?;
    put_two(put, method.name)?;
    put_two(put, method.desc)?;
    put_code(put, names, &method.code)
}

/// Writes a count and so many methods.
pub fn put_methods(put: &mut Put, names: AttrNames, methods: &[Method]) -> Result<(), AllocError>
    requires few { length methods.now < 2 ^ 16 }
    requires room { All (λ m. IsRoomy m.code) methods.now }
    ensures text { OnOk result (put.new ≡ put.old ++ list_text (method_text names) methods.now) }
    ensures fits { OnOk result (AllByRecursion MethodFits methods.now) }
{
    put_two(put, methods.len() as u16)?;
    for method in methods {
        put_method(put, names, method)?;
    }
    Ok(())
}
