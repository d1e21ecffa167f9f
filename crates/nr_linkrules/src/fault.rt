//! Why classes don't link.

use nr_base::Name;
use nr_linked::MethodName;
use std::alloc::{AllocError, AllocFailed};

/// The first rule of linking that some classes break (JVM Specification 5.3.5, 5.4.2 and 5.4.3, and
/// the project's own profile), in the order of `link_fault` in `specs/`; or why a class can't be run
/// or served. The class and the method of a fault of an instruction are those that hold it, and its
/// offset is that in the method's code.
#[derive(Debug, Drop, PartialEq, Eq)]
pub enum LinkFault {
    /// There are so many classes, more than 1,024.
    LimitClasses(u64),
    /// The class has a name that is kept for the built-in ones.
    ReservedName(Name),
    /// An earlier class has the same name.
    DoubledClass(Name),
    /// No class has this name, or these bytes name no class. A class names it as its superclass or as
    /// an interface, or a descriptor, an instruction, a catch type or a frame map names it; an array
    /// stands for the class of its elements.
    NoClass(Name),
    /// The class's superclass is an interface, or one of its superinterfaces a class; or it is an
    /// interface, and its superclass isn't `java/lang/Object`.
    SuperKind(Name),
    /// The class's superclass is final (4.1).
    FinalSuper(Name),
    /// The class stands above itself (5.3.5).
    Cycle(Name),
    /// The class has a class initialiser, `<clinit>`.
    Initialiser(Name),
    /// The interface has a field that isn't static, or a method that isn't public and abstract (4.5,
    /// 4.6).
    InterfaceMember(Name),
    /// The method of the class hides a final one of a class or an interface above (5.4.2, 4.6).
    FinalOverride(Name, MethodName),
    /// The instruction names no field, or a static one (5.4.3.2).
    NoField(Name, MethodName, u32),
    /// The instruction names no method (5.4.3.3, 5.4.3.4).
    NoMethod(Name, MethodName, u32),
    /// The instruction can't call the method that it names (6.5): it names an interface and isn't
    /// invokeinterface, or a class and is; the method is static and it isn't invokestatic, or the
    /// other way round; it names an initialiser and isn't invokespecial; or it is invokespecial of
    /// another method, of a class that is neither the instruction's own nor above it.
    MemberKind(Name, MethodName, u32),
    /// The instruction makes an object of an interface, an abstract class or an array (6.5, new).
    NotMakeable(Name, MethodName, u32),
    /// The class declares no public static `main([I)I` with code.
    NoMain(Name),
    /// The class can't be served: it is an interface, or built in.
    NoService(Name),
    /// There was no memory to link.
    NoMemory,
}

impl From<AllocError> for LinkFault {
    ghost use Rattle.std.specs.Prelude.{◌≡◌};
    ghost use Rattle.nr_linkrules.specs.declared.fault.LinkFault.TheVariants.{NoMemory};

    ghost from_gives = { λ _ e. e ≡ NoMemory };

    fn from(_e: AllocError) -> LinkFault {
        LinkFault::NoMemory
    }
}

impl<T: Drop> From<AllocFailed<T>> for LinkFault {
    ghost use Rattle.std.specs.Prelude.{◌≡◌};
    ghost use Rattle.nr_linkrules.specs.declared.fault.LinkFault.TheVariants.{NoMemory};

    ghost from_gives = { λ _ e. e ≡ NoMemory };

    fn from(_e: AllocFailed<T>) -> LinkFault {
        LinkFault::NoMemory
    }
}
