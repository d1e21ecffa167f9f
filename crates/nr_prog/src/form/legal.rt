//! Legal names.

ghost use Rattle.std.specs.Prelude.{◌≡◌, ◌<◌, ◌^◌, length, IfOk, IsOkUnless, Some, None, if◌then◌else◌};
ghost use Rattle.nr_base.specs.Names.{is_name};
ghost use Rattle.nr_prog.specs.LegalTests.{is_class_text, is_field_text, is_method_text};

use crate::fault::FormFault;
use nr_base::{Name, NameFault};
use std::alloc::Global;

/// The name that the bytes spell, or `None` where they spell none. The error is `NoMemory`.
fn name(alloc: Global, bytes: &[u8]) -> Result<Option<Name>, FormFault>
    requires { length bytes.now < 2 ^ 16 }
    ensures name { IfOk result
        (λ name. name ≡ (if is_name bytes.now then Some bytes.now else None)) }
    ensures err { IsOkUnless result FormFault.NoMemory }
{
    match Name::read(alloc, bytes) {
        Ok(name) => Ok(Some(name)),
        Err(NameFault::NoMemory) => Err(FormFault::NoMemory),
        Err(_) => Ok(None),
    }
}

/// Whether the bytes are a name. The error is `NoMemory`.
pub fn is_any_name(alloc: Global, bytes: &[u8]) -> Result<bool, FormFault>
    requires { length bytes.now < 2 ^ 16 }
    ensures legal { IfOk result (λ legal. legal ≡ is_name bytes.now) }
    ensures err { IsOkUnless result FormFault.NoMemory }
{
    match name(alloc, bytes)? {
        Some(_) => Ok(true),
        None => Ok(false),
    }
}

/// Whether the bytes are a legal name of a class (JVM Specification 4.2.1). The error is `NoMemory`.
#[tactic(auto, unfolding(crate::specs::LegalTests::is_class_text))]
pub fn is_class_name(alloc: Global, bytes: &[u8]) -> Result<bool, FormFault>
    requires { length bytes.now < 2 ^ 16 }
    ensures legal { IfOk result (λ legal. legal ≡ is_class_text bytes.now) }
    ensures err { IsOkUnless result FormFault.NoMemory }
{
    match name(alloc, bytes)? {
        Some(name) => Ok(name.is_class_name()),
        None => Ok(false),
    }
}

/// Whether the bytes are a legal name of a field (JVM Specification 4.2.2). The error is `NoMemory`.
#[tactic(auto, unfolding(crate::specs::LegalTests::is_field_text))]
pub fn is_field_name(alloc: Global, bytes: &[u8]) -> Result<bool, FormFault>
    requires { length bytes.now < 2 ^ 16 }
    ensures legal { IfOk result (λ legal. legal ≡ is_field_text bytes.now) }
    ensures err { IsOkUnless result FormFault.NoMemory }
{
    match name(alloc, bytes)? {
        Some(name) => Ok(name.is_field_name()),
        None => Ok(false),
    }
}

/// Whether the bytes are a legal name of a method (JVM Specification 4.2.2). The error is `NoMemory`.
#[tactic(auto, unfolding(crate::specs::LegalTests::is_method_text))]
pub fn is_method_name(alloc: Global, bytes: &[u8]) -> Result<bool, FormFault>
    requires { length bytes.now < 2 ^ 16 }
    ensures legal { IfOk result (λ legal. legal ≡ is_method_text bytes.now) }
    ensures err { IsOkUnless result FormFault.NoMemory }
{
    match name(alloc, bytes)? {
        Some(name) => Ok(name.is_method_name()),
        None => Ok(false),
    }
}

/// The bytes as a legal name of a class (JVM Specification 4.2.1). The error is `NoMemory`.
pub fn class_name(alloc: Global, bytes: &[u8]) -> Result<Option<Name>, FormFault>
    requires { length bytes.now < 2 ^ 16 }
    ensures name { IfOk result (λ name. name ≡ (if is_class_text bytes.now then Some bytes.now else None)) }
    ensures err { IsOkUnless result FormFault.NoMemory }
{
    let Some(name) = name(alloc, bytes)? else {
        return Ok(None);
    };
    if name.is_class_name() {
        Ok(Some(name))
    } else {
        Ok(None)
    }
}
