//! Switches, with their whole rules.

ghost use Rattle.std.specs.Prelude.{◌≡◌, ◌≤◌, ◌-ℤ◌, length, position, slice_get, IsTrue};
ghost use Rattle.std.specs.Ordering.{int_eq};
ghost use Rattle.nr_linked.specs.TypingFacts.{is_shaped};
ghost use Rattle.nr_model.specs.Heaps.{on_some};
ghost use Rattle.nr_step.specs.Elements.{count_of};
ghost use Rattle.nr_step.specs.Instructions.{CanOperate, IsRowOf, Operates};

use crate::flow::{Flow, Told};
use crate::operands::pop_int;
use nr_model::Value;
use nr_prog::{Args, Instr};

/// The place of a number in a table that begins at `low`, or `None` where it is less.
#[inline(always)]
fn place_from(n: i32, low: i32) -> Option<usize>
    ensures { result ≡ count_of (n -ℤ low) }
{
    let place = i64::from(n) - i64::from(low);
    if place < 0 {
        return None;
    }
    Some(place as usize)
}

/// The place of the first key that is the number, or `None` where none is.
#[inline(always)]
fn place_of(n: i32, keys: &[i32]) -> Option<usize>
    ensures { result ≡ position (λ key. int_eq key n) keys.now }
{
    keys.iter().position(|key| *key == n)
}

/// The target at a place, or the other one.
#[inline(always)]
fn target_or(targets: &[u16], place: Option<usize>, other: u16) -> u16
    ensures { result ≡ on_some place other (λ p. on_some (slice_get targets.now p) other (λ t. t)) }
{
    let Some(place) = place else {
        return other;
    };
    match targets.get(place) {
        Some(target) => *target,
        None => other,
    }
}

/// tableswitch.
#[inline(always)]
pub fn tableswitch(i: &Instr, stack: &[Value], depth: &mut usize, told: &mut Told) -> Flow
    requires row { IsRowOf 170 i.now.row }
    requires shaped { IsTrue (is_shaped i.now.row.shape i.now.args) }
    requires room { depth.old ≤ length stack.now }
    requires can { CanOperate i.now stack.now depth.old }
    ensures went { Operates result i.now stack.now depth.old told.new stack.now depth.new }
    ensures room { depth.new ≤ length stack.now }
{
    let Args::Switch {
        other,
        low,
        targets,
    } = &i.args
    else {
        unreachable!()
    };
    let n = pop_int(stack, depth);
    let target = target_or(targets.as_slice(), place_from(n, *low), *other);
    told.number = u32::from(target);
    Flow::Branch
}

/// lookupswitch.
#[inline(always)]
pub fn lookupswitch(i: &Instr, stack: &[Value], depth: &mut usize, told: &mut Told) -> Flow
    requires row { IsRowOf 171 i.now.row }
    requires shaped { IsTrue (is_shaped i.now.row.shape i.now.args) }
    requires room { depth.old ≤ length stack.now }
    requires can { CanOperate i.now stack.now depth.old }
    ensures went { Operates result i.now stack.now depth.old told.new stack.now depth.new }
    ensures room { depth.new ≤ length stack.now }
{
    let Args::Look {
        other,
        keys,
        targets,
    } = &i.args
    else {
        unreachable!()
    };
    let n = pop_int(stack, depth);
    let target = target_or(targets.as_slice(), place_of(n, keys.as_slice()), *other);
    told.number = u32::from(target);
    Flow::Branch
}
