//! What tells a method within its class.

ghost use Rattle.std.specs.Prelude.{◌≡◌, IfOk};

use super::tables::MethodInfo;
use nr_base::Name;
use std::alloc::AllocError;

/// The name and the descriptor of a method, which no other of its class has (JVM Specification 4.6).
#[derive(Debug, Drop, PartialEq, Eq)]
pub struct MethodName {
    pub name: Name,
    pub desc: Name,
}

impl MethodInfo {
    /// Its name and its descriptor, or want of memory.
    pub fn method_name(&self) -> Result<MethodName, AllocError>
        ensures name { IfOk result (λ m. m.name ≡ self.now.name) }
        ensures desc { IfOk result (λ m. m.desc ≡ self.now.desc) }
    {
        let name = self.name.clone()?;
        let desc = self.desc.clone()?;
        Ok(MethodName { name, desc })
    }
}
