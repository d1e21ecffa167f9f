//! The method that a call runs.

ghost use Rattle.std.specs.Prelude.{◌≡◌, ◌-◌, ◌<◌, length, find, IfSome};
ghost use Rattle.std.specs.List.{range_with_len};
ghost use Rattle.nr_linked.specs.Programs.{methods_of};
ghost use Rattle.nr_linked.specs.Selection.{can_select, is_called, is_selectable, is_static_at, is_static_called, methods_upward, selected, static_named};

use super::flags::{PRIVATE, PUBLIC, STATIC, has_flag};
use super::kind::{ClassId, MethodId};
use super::tables::{MethodInfo, ProgramTables};
use std::ops::Range;

impl MethodInfo {
    fn is_called(&self, name: &[u8], desc: &[u8]) -> bool
        ensures { result ≡ is_called name.now desc.now self.now }
    {
        self.name.as_bytes() == name && self.desc.as_bytes() == desc
    }

    fn is_selectable(&self, name: &[u8], desc: &[u8]) -> bool
        ensures { result ≡ is_selectable name.now desc.now self.now }
    {
        !has_flag(self.flags, STATIC)
            && !has_flag(self.flags, PRIVATE)
            && self.is_called(name, desc)
    }

    fn is_static_called(&self, name: &[u8], desc: &[u8]) -> bool
        ensures { result ≡ is_static_called name.now desc.now self.now }
    {
        has_flag(self.flags, PUBLIC) && has_flag(self.flags, STATIC) && self.is_called(name, desc)
    }
}

impl ProgramTables {
    /// The places of the methods that the class declares, in their order.
    pub fn methods_of(&self, class: ClassId) -> Range<usize>
        ensures { range_with_len result.start (result.end - result.start)
            ≡ methods_of self.now class }
    {
        match self.class_at(class) {
            Some(info) => {
                let first = info.first_method as usize;
                first..first + info.methods as usize
            }
            None => 0..0,
        }
    }

    fn can_select(&self, method: usize, name: &[u8], desc: &[u8]) -> bool
        ensures { result ≡ can_select self.now name.now desc.now method }
    {
        match self.methods.as_slice().get(method) {
            Some(info) => info.is_selectable(name, desc),
            None => false,
        }
    }

    fn is_static_at(&self, method: usize, name: &[u8], desc: &[u8]) -> bool
        ensures { result ≡ is_static_at self.now name.now desc.now method }
    {
        match self.methods.as_slice().get(method) {
            Some(info) => info.is_static_called(name, desc),
            None => false,
        }
    }

    fn selectable_in(&self, class: ClassId, name: &[u8], desc: &[u8]) -> Option<usize>
        ensures { result
            ≡ find (can_select self.now name.now desc.now) (methods_of self.now class) }
    {
        let Range { start, end } = self.methods_of(class);
        (start..end).find(|method| self.can_select(*method, name, desc))
    }

    fn selectable_upward(&self, class: ClassId, name: &[u8], desc: &[u8]) -> Option<usize>
        ensures { result
            ≡ find (can_select self.now name.now desc.now) (methods_upward self.now class) }
    {
        for class in self.superclasses(class) {
            if let Some(method) = self.selectable_in(class, name, desc) {
                return Some(method);
            }
        }
        None
    }

    pub(super) fn static_named(&self, class: ClassId, name: &[u8], desc: &[u8]) -> Option<usize>
        ensures named { result ≡ static_named self.now class name.now desc.now }
        ensures within { IfSome result (λ m. m < length self.now.methods) }
    {
        let Range { start, end } = self.methods_of(class);
        (start..end).find(|method| self.is_static_at(*method, name, desc))
    }

    pub(super) fn selected(&self, method: MethodId, class: ClassId) -> Option<usize>
        ensures selected { result ≡ selected self.now method class }
        ensures within { IfSome result (λ m. m < length self.now.methods) }
    {
        let info = self.method_at(method)?;
        let found = if has_flag(info.flags, PRIVATE) {
            method as usize
        } else {
            self.selectable_upward(class, info.name.as_bytes(), info.desc.as_bytes())?
        };
        let body = &self.methods.as_slice().get(found)?.body;
        if body.is_some() { Some(found) } else { None }
    }
}
