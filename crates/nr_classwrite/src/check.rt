//! What a class file has no room or no name for.

ghost use Rattle.std.specs.Prelude.{◌≡◌, ◌≤◌, ◌<◌, ◌^◌, ◌+◌, length, All};
ghost use Rattle.nr_prog.specs.Form.{IsWithinBounds};
ghost use Rattle.nr_classwrite.specs.Faults.{no_name, too_long, first_fault, field_fault, maps_len, contents_len, maps_fault, code_fault, attribute_fault, method_fault, class_fault};
ghost use Rattle.nr_classwrite.specs.Fits.{IsSmall, HasSmall};
ghost use Rattle.nr_classwrite.specs.Names.{names_of};

use crate::fault::{AttrName, Part, WriteFault};
use crate::names::AttrNames;
use nr_base::Items;
use nr_prog::{ClassParts, Code, Field, Method};

const U2_MAX: usize = 0xFFFF;

const U4_MAX: usize = 0xFFFF_FFFF;

fn no_name(name: AttrName, index: Option<u16>) -> Option<WriteFault>
    ensures { result ≡ no_name name index }
{
    match index {
        None => Some(WriteFault::NoAttrName(name)),
        Some(_) => None,
    }
}

fn too_long(part: Part, most: usize, count: usize) -> Option<WriteFault>
    ensures { result ≡ too_long part most count }
{
    if count > most {
        Some(WriteFault::TooLong(part, count as u64))
    } else {
        None
    }
}

fn field_fault(names: AttrNames, field: &Field) -> Option<WriteFault>
    ensures { result ≡ field_fault names field.now }
{
    if field.constant == 0 {
        None
    } else {
        no_name(AttrName::ConstantValue, names.constant)
    }
}

#[tactic(auto, using(crate::proofs::Walks::goes_on, crate::proofs::Walks::stops, crate::proofs::Walks::ends))]
fn fields_fault(names: AttrNames, fields: &[Field]) -> Option<WriteFault>
    ensures { result ≡ first_fault (field_fault names) fields.now }
{
    for field in fields {
        if let Some(fault) = field_fault(names, field) {
            return Some(fault);
        }
    }
    None
}

fn maps_len(maps: &Option<Items<u8>>) -> usize
    ensures len { result ≡ maps_len maps.now }
    ensures bound { result ≤ 2 ^ 63 + 6 }
{
    match maps {
        None => 0,
        Some(maps) => 6 + maps.as_slice().len(),
    }
}

/// How many bytes the contents of a `Code` attribute have.
pub fn contents_len(code: &Code) -> usize
    requires { IsSmall code.now }
    ensures { result ≡ contents_len code.now }
{
    let fixed = 2 + 2 + 4 + code.bytes.len() + 2 + 8 * code.handlers.len() + 2;
    fixed + maps_len(&code.maps)
}

fn maps_fault(names: AttrNames, maps: &Option<Items<u8>>) -> Option<WriteFault>
    ensures { result ≡ maps_fault names maps.now }
{
    match maps {
        None => None,
        Some(_) => no_name(AttrName::StackMapTable, names.maps),
    }
}

#[tactic(auto, unfolding(crate::specs::Faults::code_fault))]
fn code_fault(names: AttrNames, code: &Code) -> Option<WriteFault>
    requires { IsSmall code.now }
    ensures { result ≡ code_fault names code.now }
{
    no_name(AttrName::Code, names.code)
        .or(too_long(Part::Attributes, U4_MAX, contents_len(code)))
        .or(too_long(Part::Code, U4_MAX, code.bytes.len()))
        .or(too_long(Part::Handlers, U2_MAX, code.handlers.len()))
        .or(maps_fault(names, &code.maps))
}

fn method_fault(names: AttrNames, method: &Method) -> Option<WriteFault>
    requires { HasSmall method.now.code }
    ensures { result ≡ method_fault names method.now }
{
    match &method.code {
        None => None,
        Some(code) => code_fault(names, code),
    }
}

#[tactic(auto, using(crate::proofs::Walks::goes_on, crate::proofs::Walks::stops, crate::proofs::Walks::ends))]
fn methods_fault(names: AttrNames, methods: &[Method]) -> Option<WriteFault>
    requires { All (λ m. HasSmall m.code) methods.now }
    ensures { result ≡ first_fault (method_fault names) methods.now }
{
    for method in methods {
        if let Some(fault) = method_fault(names, method) {
            return Some(fault);
        }
    }
    None
}

/// The first thing, in the order of the file, for which a file of the class has no room or no name.
#[tactic(auto, unfolding(crate::specs::Faults::class_fault))]
pub fn class_fault(class: &ClassParts, names: AttrNames) -> Option<WriteFault>
    requires small { All (λ m. HasSmall m.code) class.now.methods }
    requires names { names ≡ names_of class.now.pool }
    ensures { result ≡ class_fault class.now }
{
    let fields = class.fields.as_slice();
    let methods = class.methods.as_slice();
    too_long(Part::Pool, U2_MAX - 1, class.pool.len())
        .or(too_long(Part::Interfaces, U2_MAX, class.interfaces.len()))
        .or(too_long(Part::Fields, U2_MAX, fields.len()))
        .or(fields_fault(names, fields))
        .or(too_long(Part::Methods, U2_MAX, methods.len()))
        .or(methods_fault(names, methods))
}
