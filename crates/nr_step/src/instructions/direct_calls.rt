//! Calls of a method itself, with their whole rules.

ghost use Rattle.std.specs.Prelude.{◌≡◌, ◌≤◌, ◌<◌, ◌==◌, ◌||◌, ◌&&◌, ℕ, length, not, is_some, false, List, Option, Some};
ghost use Rattle.std.specs.Option.{option_and_then};
ghost use Rattle.nr_linked.specs.declared.program.built_in.BuiltIn.TheVariants.{Out};
ghost use Rattle.nr_linked.specs.declared.program.tables.MethodInfo.{MethodInfo};
ghost use Rattle.nr_linked.specs.BuiltIns.{built_in};
ghost use Rattle.nr_linked.specs.Initialisers.{is_initialiser};
ghost use Rattle.nr_linked.specs.Linked.{is_loaded};
ghost use Rattle.nr_linked.specs.Programs.{method_at, super_of};
ghost use Rattle.nr_linked.specs.Selection.{is_private, selected};
ghost use Rattle.nr_linked.specs.TypingFacts.{SiteFacts};
ghost use Rattle.nr_model.specs.declared.value.Value.{Value};
ghost use Rattle.nr_model.specs.CallRules.{call};
ghost use Rattle.nr_model.specs.Scripts.{Ending, Runs, Within};
ghost use Rattle.nr_model.specs.Throws.{onward};
ghost use Rattle.nr_step.specs.Flows.{Doing, Went};
ghost use Rattle.nr_step.specs.Instructions.{CanDo, CanFind, Finds, IsRowOf, doing, site_of};
ghost use Rattle.nr_step.specs.Windows.{window};

use crate::flow::{Flow, Told};
use crate::operands::{pop, reference_at};
use crate::selections::Selections;
use crate::throws::throw_object;
use nr_heap::Heap;
use nr_linked::{BuiltIn, MethodId, MethodInfo, Program, Resolved};
use nr_model::Value;
use nr_prog::Instr;

/// ACC_PRIVATE (JVM Specification 4.6, table 4.6-A).
const PRIVATE: u16 = 0x0002;

/// Whether the method is an instance initialiser (JVM Specification 2.9.1).
#[inline(always)]
fn is_init(info: &MethodInfo) -> bool
    ensures { result ≡ is_initialiser info.now }
{
    info.name.as_bytes() == b"<init>".as_slice()
}

/// Whether invokespecial, in a method of the class of `own`, calls just this method: an initialiser, a private
/// method, or one of that class.
#[inline(always)]
fn is_called_itself(info: &MethodInfo, own: &MethodInfo) -> bool
    ensures { result ≡ (is_initialiser info.now || is_private info.now.flags || info.now.«class» == own.now.«class») }
{
    is_init(info) || info.flags & PRIVATE != 0 || info.class == own.class
}

/// Whether the method is an initialiser of a built-in class.
#[inline(always)]
fn is_built_in_init(p: &Program, info: &MethodInfo) -> bool
    ensures { result ≡ (not (is_loaded p.now info.now.«class») && is_initialiser info.now) }
{
    info.class >= p.built_in(BuiltIn::Object) && is_init(info)
}

/// The method that a call runs where selection begins at the superclass of the class of `own`.
#[inline(always)]
fn selected_above(
    p: &Program,
    selections: &mut Selections<'_>,
    method: MethodId,
    own: &MethodInfo,
) -> Option<MethodId>
    requires same { selections.old ≡ p.now }
    ensures selected { result ≡ option_and_then (selected p.now method) (super_of p.now own.now.«class») }
    ensures same { selections.new ≡ selections.old }
{
    let above = p.super_class(own.class)?;
    selections.select(method, above)
}

/// invokestatic.
#[inline(always)]
pub fn invokestatic(
    p: &Program,
    i: &Instr,
    found: &Resolved,
    heap: &mut Heap,
    stack: &[Value],
    depth: usize,
    told: &mut Told,
) -> Flow
    requires row { IsRowOf 184 i.now.row }
    requires site { (own : MethodInfo) × (n : Option ℕ) × SiteFacts p.now own.«class» (site_of i.now found.now n) }
    requires can { CanFind p.now i.now found.now heap.old.objects stack.now depth }
    ensures { Finds result p.now i.now found.now heap.old.objects stack.now depth told.new heap.new.objects stack.now depth }
{
    let _facts = p.tables();
    let _ = (stack.len(), depth);
    let Resolved::Method(method, _) = found else {
        unreachable!()
    };
    let Some(info) = p.method_at(*method) else {
        unreachable!()
    };
    if info.body.is_some() {
        told.number = *method;
        return Flow::Invoke;
    }
    if info.class == p.built_in(BuiltIn::Out) {
        told.number = *method;
        return Flow::Print;
    }
    throw_object(p, heap, BuiltIn::AbstractMethodError, told)
}

/// A call of just this method, of a receiver that isn't null.
#[inline(always)]
fn call_itself(
    p: &Program,
    method: MethodId,
    info: &MethodInfo,
    heap: &mut Heap,
    stack: &[Value],
    depth: &mut usize,
    told: &mut Told,
) -> Flow
    requires info { method_at p.now method ≡ Some info.now }
    requires not_out { is_some info.now.body ≡ false → (info.now.«class» == built_in p.now Out) ≡ false }
    requires some { 0 < depth.old }
    requires room { depth.old ≤ length stack.now }
    ensures went { (ls : List Value) (S : Doing) → ((n : Option ℕ) (e : Ending) (u : Within)
        → (Runs (call p.now method (onward n)) (window heap.old.objects ls stack.now depth.old) e u → Runs (S n) (window heap.old.objects ls stack.now depth.old) e u)
        × (Runs (S n) (window heap.old.objects ls stack.now depth.old) e u → Runs (call p.now method (onward n)) (window heap.old.objects ls stack.now depth.old) e u))
        → Went result p.now S (window heap.old.objects ls stack.now depth.old) told.new (window heap.new.objects ls stack.now depth.new) }
    ensures room { depth.new ≤ length stack.now }
{
    if info.body.is_some() {
        told.number = method;
        return Flow::Invoke;
    }
    if is_built_in_init(p, info) {
        let _ = pop(stack, depth);
        return Flow::Next;
    }
    throw_object(p, heap, BuiltIn::AbstractMethodError, told)
}

/// invokespecial.
#[inline(always)]
pub fn invokespecial(
    p: &Program,
    selections: &mut Selections<'_>,
    own: &MethodInfo,
    i: &Instr,
    found: &Resolved,
    heap: &mut Heap,
    stack: &[Value],
    depth: &mut usize,
    told: &mut Told,
) -> Flow
    requires row { IsRowOf 183 i.now.row }
    requires same { selections.old ≡ p.now }
    requires site { (n : Option ℕ) × SiteFacts p.now own.now.«class» (site_of i.now found.now n) }
    requires room { depth.old ≤ length stack.now }
    requires can { (ls : List Value) × CanDo p.now own.now i.now found.now (window heap.old.objects ls stack.now depth.old) (length stack.now) }
    ensures went { (ls : List Value) → Went result p.now (doing p.now own.now i.now found.now) (window heap.old.objects ls stack.now depth.old) told.new
        (window heap.new.objects ls stack.now depth.new) }
    ensures same { selections.new ≡ selections.old }
    ensures room { depth.new ≤ length stack.now }
{
    let _facts = p.tables();
    let Resolved::Method(method, _) = found else {
        unreachable!()
    };
    let Some(info) = p.method_at(*method) else {
        unreachable!()
    };
    let Some(_receiver) = reference_at(info.params.len(), stack, *depth) else {
        return throw_object(p, heap, BuiltIn::NullPointerException, told);
    };
    if is_called_itself(info, own) {
        return call_itself(p, *method, info, heap, stack, depth, told);
    }
    let Some(selected) = selected_above(p, selections, *method, own) else {
        return throw_object(p, heap, BuiltIn::AbstractMethodError, told);
    };
    told.number = selected;
    Flow::Invoke
}
