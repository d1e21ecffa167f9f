//! The order of first visit.

ghost use Rattle.std.specs.Prelude.{◌≡◌, ◌++◌, false, true, reverse, IfErr, IfOk, IsSomeAnd, OnOk, Some};
ghost use Rattle.std.specs.FinMap.{get};
ghost use Rattle.nr_linked.specs.Kinds.{class_in};
ghost use Rattle.nr_model.specs.TypedHeaps.{TypedHeap};
ghost use Rattle.nr_graph.specs.Pictures.{is_unsendable, names_in};
ghost use Rattle.nr_graph.specs.Walks.{is_met};
ghost use Rattle.nr_capture.specs.Drawing.{IsWalked};
ghost use Rattle.nr_capture.specs.Refusals.{IsOfClass, OnNotSendable, RefusesClass};
ghost use Rattle.nr_capture.specs.Roots.{AreIn, IsIn, root_values};

use crate::fault::CaptureFault;
use crate::values::values_of;
use nr_graph::LinearMap;
use nr_heap::Heap;
use nr_linked::Base;
use nr_model::{Ref, Value};
use nr_serform::Forms;
use std::alloc::{AllocError, Global};

/// Puts the objects that values name on the stack, the first on top.
fn push_names(stack: &mut Vec<Ref>, values: &[Value]) -> Result<(), AllocError>
    ensures { OnOk result (stack.new.items ≡ stack.old.items ++ reverse (names_in values.now)) }
{
    for value in values.iter().rev().copied() {
        if let Value::Ref(name) = value {
            stack.push(name)?;
        }
    }
    Ok(())
}

/// Puts the objects where a walk begins on the stack, the first on top.
fn push_roots(stack: &mut Vec<Ref>, roots: &[Option<Ref>]) -> Result<(), AllocError>
    ensures { OnOk result (stack.new.items ≡ stack.old.items ++ reverse (names_in (root_values roots.now))) }
{
    for root in roots.iter().rev().copied() {
        if let Some(name) = root {
            stack.push(name)?;
        }
    }
    Ok(())
}

/// Refuses an object or an array that no call carries.
fn check_sendable(forms: &Forms, heap: &Heap, name: Ref) -> Result<(), CaptureFault>
    requires typed { TypedHeap forms.now heap.now.objects }
    requires inside { IsIn heap.now.objects name }
    ensures ok { OnOk result (is_unsendable forms.now heap.now.objects name ≡ false) }
    ensures refused { IfErr result (λ e. OnNotSendable e (λ c. IsOfClass heap.now.objects name c)) }
    ensures err { IfErr result (λ e. OnNotSendable e (λ c. is_unsendable forms.now heap.now.objects name ≡ true)) }
{
    let kind = heap.kind_of(name);
    if forms.sendable(kind) {
        return Ok(());
    }
    match kind.base {
        Base::Object(class) => Err(CaptureFault::NotSendable(class)),
        _ => unreachable!(),
    }
}

fn is_listed(names: &LinearMap, name: Ref) -> bool
    ensures { result ≡ is_met names.now name }
{
    match names.find(name) {
        Some(_place) => true,
        None => false,
    }
}

/// The objects and arrays that the roots reach, in the order of first visit.
pub fn walk(
    alloc: Global,
    forms: &Forms,
    heap: &Heap,
    roots: &[Option<Ref>],
) -> Result<LinearMap, CaptureFault>
    requires typed { TypedHeap forms.now heap.now.objects }
    requires roots { AreIn heap.now.objects roots.now }
    ensures walked { IfOk result (λ names. IsWalked forms.now heap.now.objects (root_values roots.now) names) }
    ensures refused { IfErr result (λ e. OnNotSendable e
        (λ c. RefusesClass forms.now heap.now.objects (root_values roots.now) c)) }
{
    let mut names = LinearMap::new(alloc);
    let mut stack = Vec::new(alloc);
    push_roots(&mut stack, roots)?;
    while let Some(name) = stack.pop() {
        if is_listed(&names, name) {
            continue;
        }
        match check_sendable(forms, heap, name) {
            Ok(()) => {}
            Err(fault) => return Err(fault),
        }
        names.add(name)?;
        let values = values_of(alloc, forms, heap, name)?;
        push_names(&mut stack, values.as_slice())?;
    }
    Ok(names)
}
