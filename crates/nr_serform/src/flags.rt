//! Access flags of classes, fields and methods (JVM Specification, tables 4.1-A, 4.5-A and 4.6-A).

ghost use Rattle.std.specs.Prelude.{◌≡◌};
ghost use Rattle.nr_prog.specs.Members.{has_flag};

pub const PRIVATE: u16 = 0x0002;

pub const STATIC: u16 = 0x0008;

pub const FINAL: u16 = 0x0010;

pub const TRANSIENT: u16 = 0x0080;

pub fn has_flag(flags: u16, flag: u16) -> bool
    ensures { result ≡ has_flag flag flags }
{
    flags & flag != 0
}
