//! Branches and switches, with their whole rules.

ghost use Rattle.std.specs.Prelude.{◌≡◌, ◌≤◌, length, IsSome, IsTrue, if◌then◌else◌};
ghost use Rattle.nr_optable.specs.Operations.{pair_condition, zero_condition};
ghost use Rattle.nr_prog.specs.declared.body.instruction.Args.TheVariants as args;
ghost use Rattle.nr_step.specs.Instructions.{CanOperate, IsBranch, IsRowOf, Operates, is_goto};

use crate::branches::{branches_on_int, branches_on_ints};
use crate::flow::{Flow, Told};
use crate::references::{are_same, is_null};
use nr_model::Value;
use nr_prog::{Args, Instr};

/// The target of a branch.
#[inline(always)]
fn target(i: &Instr) -> u16
    requires { IsBranch i.now.args }
    ensures { i.now.args ≡ args.Branch result }
{
    match &i.args {
        Args::Branch(target) => *target,
        _ => unreachable!(),
    }
}

/// On at the target where the branch is taken, and else at the next instruction.
#[inline(always)]
fn branch_if(taken: bool, i: &Instr, told: &mut Told) -> Flow
    requires { IsBranch i.now.args }
    ensures flow { result ≡ (if taken then Flow.Branch else Flow.Next) }
    ensures told { IsTrue taken → i.now.args ≡ args.Branch told.new.number }
{
    if taken {
        told.number = u32::from(target(i));
        return Flow::Branch;
    }
    Flow::Next
}

/// ifeq, ifne, iflt, ifge, ifgt, ifle.
#[inline(always)]
pub fn if_zero(i: &Instr, code: u8, stack: &[Value], depth: &mut usize, told: &mut Told) -> Flow
    requires row { IsRowOf code i.now.row }
    requires code { IsSome (zero_condition code) }
    requires room { depth.old ≤ length stack.now }
    requires can { CanOperate i.now stack.now depth.old }
    ensures went { Operates result i.now stack.now depth.old told.new stack.now depth.new }
    ensures room { depth.new ≤ length stack.now }
{
    let taken = branches_on_int(code, stack, depth);
    branch_if(taken, i, told)
}

/// if_icmpeq, if_icmpne, if_icmplt, if_icmpge, if_icmpgt, if_icmple.
#[inline(always)]
pub fn if_icmp(i: &Instr, code: u8, stack: &[Value], depth: &mut usize, told: &mut Told) -> Flow
    requires row { IsRowOf code i.now.row }
    requires code { IsSome (pair_condition code) }
    requires room { depth.old ≤ length stack.now }
    requires can { CanOperate i.now stack.now depth.old }
    ensures went { Operates result i.now stack.now depth.old told.new stack.now depth.new }
    ensures room { depth.new ≤ length stack.now }
{
    let taken = branches_on_ints(code, stack, depth);
    branch_if(taken, i, told)
}

/// if_acmpeq.
#[inline(always)]
pub fn if_acmpeq(i: &Instr, stack: &[Value], depth: &mut usize, told: &mut Told) -> Flow
    requires row { IsRowOf 165 i.now.row }
    requires room { depth.old ≤ length stack.now }
    requires can { CanOperate i.now stack.now depth.old }
    ensures went { Operates result i.now stack.now depth.old told.new stack.now depth.new }
    ensures room { depth.new ≤ length stack.now }
{
    let same = are_same(stack, depth);
    branch_if(same, i, told)
}

/// if_acmpne.
#[inline(always)]
pub fn if_acmpne(i: &Instr, stack: &[Value], depth: &mut usize, told: &mut Told) -> Flow
    requires row { IsRowOf 166 i.now.row }
    requires room { depth.old ≤ length stack.now }
    requires can { CanOperate i.now stack.now depth.old }
    ensures went { Operates result i.now stack.now depth.old told.new stack.now depth.new }
    ensures room { depth.new ≤ length stack.now }
{
    let same = are_same(stack, depth);
    branch_if(!same, i, told)
}

/// ifnull.
#[inline(always)]
pub fn ifnull(i: &Instr, stack: &[Value], depth: &mut usize, told: &mut Told) -> Flow
    requires row { IsRowOf 198 i.now.row }
    requires room { depth.old ≤ length stack.now }
    requires can { CanOperate i.now stack.now depth.old }
    ensures went { Operates result i.now stack.now depth.old told.new stack.now depth.new }
    ensures room { depth.new ≤ length stack.now }
{
    let null = is_null(stack, depth);
    branch_if(null, i, told)
}

/// ifnonnull.
#[inline(always)]
pub fn ifnonnull(i: &Instr, stack: &[Value], depth: &mut usize, told: &mut Told) -> Flow
    requires row { IsRowOf 199 i.now.row }
    requires room { depth.old ≤ length stack.now }
    requires can { CanOperate i.now stack.now depth.old }
    ensures went { Operates result i.now stack.now depth.old told.new stack.now depth.new }
    ensures room { depth.new ≤ length stack.now }
{
    let null = is_null(stack, depth);
    branch_if(!null, i, told)
}

/// goto, goto_w.
#[inline(always)]
pub fn goto(i: &Instr, code: u8, stack: &[Value], depth: usize, told: &mut Told) -> Flow
    requires row { IsRowOf code i.now.row }
    requires code { IsTrue (is_goto code) }
    requires can { CanOperate i.now stack.now depth }
    ensures { Operates result i.now stack.now depth told.new stack.now depth }
{
    let _ = code;
    let _ = stack.len();
    told.number = u32::from(target(i));
    Flow::Branch
}
