//! Calls, with their whole rules.

ghost use Rattle.std.specs.Prelude.{◌≡◌, ◌≤◌, length};
ghost use Rattle.nr_model.specs.CallRules.{class_of, selected_for as selected_by};
ghost use Rattle.nr_step.specs.Instructions.{CanFind, Finds, IsRowOf};

use crate::flow::{Flow, Told};
use crate::operands::reference_at;
use crate::selections::Selections;
use crate::throws::throw_object;
use nr_heap::Heap;
use nr_linked::{Base, BuiltIn, ClassId, Kind, MethodId, Program, Resolved};
use nr_model::Value;
use nr_prog::Instr;

/// The class of which an object or an array has the methods.
#[inline(always)]
fn receiver_class(p: &Program, kind: Kind) -> Option<ClassId>
    ensures { result ≡ class_of p.now kind }
{
    if kind.dims > 0 {
        return Some(p.built_in(BuiltIn::Object));
    }
    match kind.base {
        Base::Object(class) => Some(class),
        _ => None,
    }
}

/// The method that a call runs where the receiver is of the kind.
#[inline(always)]
fn selected_for(
    p: &Program,
    selections: &mut Selections<'_>,
    method: MethodId,
    kind: Kind,
) -> Option<MethodId>
    requires same { selections.old ≡ p.now }
    ensures selected { result ≡ selected_by p.now method kind }
    ensures same { selections.new ≡ selections.old }
{
    let class = receiver_class(p, kind)?;
    selections.select(method, class)
}

/// invokevirtual.
#[inline(always)]
pub fn invokevirtual(
    p: &Program,
    selections: &mut Selections<'_>,
    i: &Instr,
    found: &Resolved,
    heap: &mut Heap,
    stack: &[Value],
    depth: usize,
    told: &mut Told,
) -> Flow
    requires row { IsRowOf 182 i.now.row }
    requires room { depth ≤ length stack.now }
    requires same { selections.old ≡ p.now }
    requires can { CanFind p.now i.now found.now heap.old.objects stack.now depth }
    ensures went { Finds result p.now i.now found.now heap.old.objects stack.now depth told.new heap.new.objects stack.now depth }
    ensures same { selections.new ≡ selections.old }
{
    let Resolved::Method(method, _) = found else {
        unreachable!()
    };
    let Some(info) = p.method_at(*method) else {
        unreachable!()
    };
    let Some(name) = reference_at(info.params.len(), stack, depth) else {
        return throw_object(p, heap, BuiltIn::NullPointerException, told);
    };
    let Some(selected) = selected_for(p, selections, *method, heap.kind_of(name)) else {
        return throw_object(p, heap, BuiltIn::AbstractMethodError, told);
    };
    told.number = selected;
    Flow::Invoke
}

/// invokeinterface.
#[inline(always)]
pub fn invokeinterface(
    p: &Program,
    selections: &mut Selections<'_>,
    i: &Instr,
    found: &Resolved,
    heap: &mut Heap,
    stack: &[Value],
    depth: usize,
    told: &mut Told,
) -> Flow
    requires row { IsRowOf 185 i.now.row }
    requires room { depth ≤ length stack.now }
    requires same { selections.old ≡ p.now }
    requires can { CanFind p.now i.now found.now heap.old.objects stack.now depth }
    ensures went { Finds result p.now i.now found.now heap.old.objects stack.now depth told.new heap.new.objects stack.now depth }
    ensures same { selections.new ≡ selections.old }
{
    let Resolved::Method(method, named) = found else {
        unreachable!()
    };
    let Some(info) = p.method_at(*method) else {
        unreachable!()
    };
    let Some(name) = reference_at(info.params.len(), stack, depth) else {
        return throw_object(p, heap, BuiltIn::NullPointerException, told);
    };
    let kind = heap.kind_of(name);
    let interface = Kind {
        dims: 0,
        base: Base::Object(*named),
    };
    if !p.is_sub(kind, interface) {
        return throw_object(p, heap, BuiltIn::IncompatibleClassChangeError, told);
    }
    let Some(selected) = selected_for(p, selections, *method, kind) else {
        return throw_object(p, heap, BuiltIn::AbstractMethodError, told);
    };
    told.number = selected;
    Flow::Invoke
}
