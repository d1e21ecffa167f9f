//! Which names are legal (JVM Specification 4.2.1 and 4.2.2).

ghost use Rattle.std.specs.Prelude.{◌≡◌, ◌↔◌, IsTrue, not, false};
ghost use Rattle.std.specs.List.{list_all};
ghost use Rattle.nr_base.specs.LegalNames.{is_reserved, is_angle, is_unqualified, is_method_name, IsClassName, class_from};

use crate::name::Name;

/// Whether no part of a name has the byte.
fn is_reserved(byte: u8) -> bool
    ensures { result ≡ is_reserved byte }
{
    matches!(byte, b'.' | b';' | b'[' | b'/')
}

fn has_no_reserved(name: &[u8]) -> bool
    ensures { result ≡ list_all (λ b. not (is_reserved b)) name.now }
{
    name.iter().all(|byte| !is_reserved(*byte))
}

fn is_unqualified(name: &[u8]) -> bool
    ensures { result ≡ is_unqualified name.now }
{
    !name.is_empty() && has_no_reserved(name)
}

fn has_no_angle(name: &[u8]) -> bool
    ensures { result ≡ list_all (λ b. not (is_angle b)) name.now }
{
    name.iter().all(|byte| !matches!(byte, b'<' | b'>'))
}

/// Whether the bytes are unqualified names with `/` between.
fn is_class(name: &[u8]) -> bool
    ensures { result ≡ class_from false name.now }
{
    let mut begun = false;
    for byte in name {
        match *byte {
            b'/' if begun => begun = false,
            byte if is_reserved(byte) => return false,
            _ => begun = true,
        }
    }
    begun
}

impl Name {
    /// Whether it is a legal name of a field: an unqualified name (JVM Specification 4.2.2).
    pub fn is_field_name(&self) -> bool
        ensures { result ≡ is_unqualified self.now }
    {
        is_unqualified(self.as_bytes())
    }

    /// Whether it is a legal name of a method: an unqualified name without `<` and `>`, or `<init>` or
    /// `<clinit>` (JVM Specification 4.2.2).
    pub fn is_method_name(&self) -> bool
        ensures { result ≡ is_method_name self.now }
    {
        let name = self.as_bytes();
        is_unqualified(name)
            && (name == b"<init>".as_slice()
                || name == b"<clinit>".as_slice()
                || has_no_angle(name))
    }

    /// Whether it is a legal name of a class in internal form: unqualified names with `/` between (JVM
    /// Specification 4.2.1).
    pub fn is_class_name(&self) -> bool
        ensures { IsTrue result ↔ IsClassName self.now }
    {
        is_class(self.as_bytes())
    }
}
