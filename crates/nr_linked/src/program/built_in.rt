//! Built-in classes.

ghost use Rattle.std.specs.Prelude.{◌≡◌};
ghost use Rattle.nr_linked.specs.BuiltIns.{built_in_class, number};

/// The classes that each program has without loading them. The choice is the project's own; what
/// they are is in the Java API. The members that they have here are in `specs/BuiltIns.antt`.
#[derive(Clone, Copy, Debug, PartialEq, Eq)]
pub enum BuiltIn {
    Object,
    Cloneable,
    Throwable,
    Exception,
    Error,
    RuntimeException,
    ArithmeticException,
    ArrayStoreException,
    ClassCastException,
    IllegalArgumentException,
    IllegalStateException,
    IndexOutOfBoundsException,
    NegativeArraySizeException,
    NullPointerException,
    ArrayIndexOutOfBoundsException,
    LinkageError,
    IncompatibleClassChangeError,
    AbstractMethodError,
    Serializable,
    /// `nrmi/Restorable`, which marks the classes whose objects a remote call restores.
    Restorable,
    /// `nrmi/Out`, which prints.
    Out,
    /// `nrmi/RemoteFault`, which a remote call throws where it answers a fault.
    RemoteFault,
}

impl BuiltIn {
    /// How many there are.
    pub const COUNT: usize = 22;

    /// Its place among the built-in classes.
    pub fn number(self) -> usize
        ensures { result ≡ number self }
    {
        self as usize
    }

    /// Its name in internal form (JVM Specification 4.2.1).
    #[tactic(auto, unfolding(crate::specs::BuiltIns::built_in_class))]
    pub fn name(self) -> &'static [u8]
        ensures { result.now ≡ (built_in_class self).name }
    {
        match self {
            BuiltIn::Object => b"java/lang/Object",
            BuiltIn::Cloneable => b"java/lang/Cloneable",
            BuiltIn::Throwable => b"java/lang/Throwable",
            BuiltIn::Exception => b"java/lang/Exception",
            BuiltIn::Error => b"java/lang/Error",
            BuiltIn::RuntimeException => b"java/lang/RuntimeException",
            BuiltIn::ArithmeticException => b"java/lang/ArithmeticException",
            BuiltIn::ArrayStoreException => b"java/lang/ArrayStoreException",
            BuiltIn::ClassCastException => b"java/lang/ClassCastException",
            BuiltIn::IllegalArgumentException => b"java/lang/IllegalArgumentException",
            BuiltIn::IllegalStateException => b"java/lang/IllegalStateException",
            BuiltIn::IndexOutOfBoundsException => b"java/lang/IndexOutOfBoundsException",
            BuiltIn::NegativeArraySizeException => b"java/lang/NegativeArraySizeException",
            BuiltIn::NullPointerException => b"java/lang/NullPointerException",
            BuiltIn::ArrayIndexOutOfBoundsException => b"java/lang/ArrayIndexOutOfBoundsException",
            BuiltIn::LinkageError => b"java/lang/LinkageError",
            BuiltIn::IncompatibleClassChangeError => b"java/lang/IncompatibleClassChangeError",
            BuiltIn::AbstractMethodError => b"java/lang/AbstractMethodError",
            BuiltIn::Serializable => b"java/io/Serializable",
            BuiltIn::Restorable => b"nrmi/Restorable",
            BuiltIn::Out => b"nrmi/Out",
            BuiltIn::RemoteFault => b"nrmi/RemoteFault",
        }
    }

    /// Its superclass; none for `java/lang/Object` alone.
    #[tactic(auto, unfolding(crate::specs::BuiltIns::built_in_class))]
    pub fn super_class(self) -> Option<BuiltIn>
        ensures { result ≡ (built_in_class self).super_class }
    {
        match self {
            BuiltIn::Object => None,
            BuiltIn::Exception | BuiltIn::Error => Some(BuiltIn::Throwable),
            BuiltIn::RuntimeException => Some(BuiltIn::Exception),
            BuiltIn::ArithmeticException
            | BuiltIn::ArrayStoreException
            | BuiltIn::ClassCastException
            | BuiltIn::IllegalArgumentException
            | BuiltIn::IllegalStateException
            | BuiltIn::IndexOutOfBoundsException
            | BuiltIn::NegativeArraySizeException
            | BuiltIn::NullPointerException => Some(BuiltIn::RuntimeException),
            BuiltIn::ArrayIndexOutOfBoundsException => Some(BuiltIn::IndexOutOfBoundsException),
            BuiltIn::LinkageError => Some(BuiltIn::Error),
            BuiltIn::IncompatibleClassChangeError => Some(BuiltIn::LinkageError),
            BuiltIn::AbstractMethodError => Some(BuiltIn::IncompatibleClassChangeError),
            BuiltIn::RemoteFault => Some(BuiltIn::RuntimeException),
            BuiltIn::Cloneable
            | BuiltIn::Throwable
            | BuiltIn::Serializable
            | BuiltIn::Restorable
            | BuiltIn::Out => Some(BuiltIn::Object),
        }
    }
}
