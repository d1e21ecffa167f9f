//! Methods.

ghost use Rattle.std.specs.Prelude.{◌≡◌, ◌≤◌, ◌^◌, ◌||◌, ◌+◌, ℕ, List, Some, IfOk, OnOk, length};
ghost use Rattle.nr_prog.specs.Pool.{text_at};
ghost use Rattle.nr_prog.specs.Faults.{Finds};
ghost use Rattle.nr_prog.specs.LegalTests.{is_method_desc, is_method_text, is_void_desc};
ghost use Rattle.nr_prog.specs.Members.{has_flag, has_its_code, is_code_sized, is_in_profile, is_spelled};
ghost use Rattle.nr_prog.specs.Rules.{body_fault, desc_fault, method_fault, methods_fault, name_fault};
ghost use Rattle.nr_prog.specs.Seen.{has};

use super::seen::add;
use super::spelled::{is_method_name, is_void_method};
use crate::fault::FormFault;
use crate::member::{Code, Method};
use crate::pool::Pool;
use std::alloc::Global;
use std::collections::BTreeSet;

// Access flags of methods (JVM Specification, table 4.6-A).
const STATIC: u16 = 0x0008;

const SYNCHRONIZED: u16 = 0x0020;

const NATIVE: u16 = 0x0100;

const ABSTRACT: u16 = 0x0400;

impl Method {
    fn has(&self, flag: u16) -> bool
        ensures { result ≡ has_flag flag self.now.flags }
    {
        self.flags & flag != 0
    }
}

#[tactic(auto, unfolding(crate::specs::Rules::name_fault, crate::specs::Members::spells))]
fn name<'a>(pool: &'a Pool, index: u16) -> Result<&'a [u8], FormFault>
    ensures fault { Finds result (name_fault is_method_text pool.now index) }
    ensures text { IfOk result (λ name. text_at pool.now index ≡ Some name.now) }
{
    match pool.text(index) {
        Some(name) if is_method_name(pool, index) => Ok(name),
        _ => Err(FormFault::BadName(index)),
    }
}

/// The descriptor at an index, and whether a method of it returns nothing.
#[tactic(auto, unfolding(crate::specs::Rules::desc_fault, crate::specs::Members::spells))]
fn descriptor<'a>(pool: &'a Pool, index: u16) -> Result<(&'a [u8], bool), FormFault>
    ensures fault { Finds result (desc_fault is_method_desc pool.now index) }
    ensures text { IfOk result (λ found. text_at pool.now index ≡ Some found.0.now) }
    ensures void { IfOk result (λ found. found.1 ≡ is_void_desc found.0.now) }
{
    let Some(desc) = pool.text(index) else {
        return Err(FormFault::BadDesc(index));
    };
    match is_void_method(pool, index) {
        Some(void) => Ok((desc, void)),
        None => Err(FormFault::BadDesc(index)),
    }
}

fn is_sized(code: &Option<Code>) -> bool
    ensures { result ≡ is_code_sized code.now }
{
    match code {
        None => true,
        Some(code) => !code.bytes.is_empty() && code.bytes.len() <= 0xFFFF,
    }
}

#[tactic(auto, unfolding(crate::specs::Members::is_in_profile, crate::specs::Members::is_plain))]
fn is_of_profile(method: &Method, name: &[u8], void: bool) -> bool
    ensures { result ≡ is_in_profile name.now void method.now }
{
    if method.has(NATIVE) || method.has(SYNCHRONIZED) {
        return false;
    }
    if method.has(STATIC) && method.has(ABSTRACT) {
        return false;
    }
    if name == b"<init>".as_slice() && (method.has(STATIC) || method.has(ABSTRACT) || !void) {
        return false;
    }
    is_sized(&method.code)
}

#[tactic(auto, unfolding(crate::specs::Members::has_its_code))]
fn has_due_code(method: &Method) -> bool
    ensures { result ≡ has_its_code method.now }
{
    method.has(ABSTRACT) == method.code.is_none()
}

#[tactic(auto, using(crate::proofs::Walks::fails_first, crate::proofs::Members::among_at, crate::proofs::Numbered::pair_at, crate::proofs::Members::profile_at), unfolding(crate::specs::Rules::method_fault, crate::specs::Rules::doubled_fault, crate::specs::Rules::body_fault))]
fn check_method(
    pool: &Pool,
    place: u16,
    method: &Method,
    seen: &mut BTreeSet<(u16, u16)>,
) -> Result<(), FormFault>
    ensures fault { Finds result (method_fault pool.now (has pool.now seen.old) place method.now) }
    ensures seen { OnOk result ((n d : List ℕ) → has pool.now seen.new n d
        ≡ (has pool.now seen.old n d || is_spelled pool.now n d method.now.name method.now.desc)) }
{
    let name = name(pool, method.name)?;
    let (_desc, void) = descriptor(pool, method.desc)?;
    if !add(seen, pool.number(method.name), pool.number(method.desc))? {
        return Err(FormFault::Doubled(method.name));
    }
    if !is_of_profile(method, name, void) {
        return Err(FormFault::OutOfProfile(place));
    }
    if !has_due_code(method) {
        return Err(FormFault::CodePresence(place));
    }
    Ok(())
}

/// Looks at each method, in order (JVM Specification 4.6).
pub fn check_methods(alloc: Global, pool: &Pool, methods: &[Method]) -> Result<(), FormFault>
    requires { length methods.now ≤ 2 ^ 16 }
    ensures { Finds result (methods_fault pool.now methods.now) }
{
    let mut seen = BTreeSet::new(alloc);
    for (place, method) in methods.iter().enumerate() {
        check_method(pool, place as u16, method, &mut seen)?;
    }
    Ok(())
}
