//! What client and server say to each other.

ghost use Rattle.std.specs.Prelude.{◌≤◌, ◌↔◌, IsTrue, length};
ghost use Rattle.nr_message.specs.Whole.{IsWritable};

use crate::serve_fault::ServeFault;
use nr_base::{Items, Name, ResultWord};

/// The greatest budget of a call, in steps (the project's own rule).
pub const MAX_BUDGET: u64 = 1_000_000_000;

/// How each side begins: which classes it has, and which of them it serves or calls.
#[derive(Debug, Drop, PartialEq, Eq)]
pub struct Hello {
    /// The version of the messages.
    pub version: u16,
    /// The digest of the classes.
    pub digest: [u8; 20],
    /// The class whose methods are called.
    pub service: Name,
}

/// An argument of a call.
#[derive(Clone, Copy, Debug, PartialEq, Eq)]
pub enum Arg {
    /// A value of the type int, or of a type that is an int on the operand stack.
    Int(i32),
    Long(i64),
    /// A reference. The call's stream has what it names.
    Reference,
}

/// A call of a method.
#[derive(Debug, Drop, PartialEq, Eq)]
pub struct Call {
    /// The number of the call, which the reply repeats.
    pub number: u32,
    /// How many steps the method may take, from 1 to `MAX_BUDGET`.
    pub budget: u64,
    /// The name of the method.
    pub name: Name,
    /// The descriptor of the method.
    pub desc: Name,
    /// The arguments, in order.
    pub args: Items<Arg>,
    /// The stream of the objects that the reference arguments reach.
    pub stream: Items<u8>,
}

impl Call {
    /// Whether it has a text: its budget is from 1 to `MAX_BUDGET`, and it has at most 255 arguments.
    pub fn is_writable(&self) -> bool
        ensures { IsTrue result ↔ ((1 ≤ self.now.budget) × (self.now.budget ≤ MAX_BUDGET) × (length self.now.args ≤ 255)) }
    {
        1 <= self.budget && self.budget <= MAX_BUDGET && self.args.len() <= 255
    }
}

/// The answer to a call.
#[derive(Debug, Drop, PartialEq, Eq)]
pub struct Reply {
    /// The number of the call.
    pub number: u32,
    pub body: ReplyBody,
}

/// How a call ended.
#[derive(Debug, Drop, PartialEq, Eq)]
pub enum ReplyBody {
    /// The method returned.
    Returned {
        /// What it printed.
        printed: Items<u8>,
        /// What it gave back.
        result: ResultWord,
        /// How many objects of the call are sent back.
        count: u32,
        /// The stream of these objects, and of the result where it is a reference.
        stream: Items<u8>,
    },
    /// The call was refused, or its run ended otherwise.
    Refused(ServeFault),
}

impl ReplyBody {
    /// Whether it has a text: less than 4 GiB was printed.
    pub fn is_writable(&self) -> bool
        ensures { IsTrue result ↔ IsWritable self.now }
    {
        match self {
            ReplyBody::Returned { printed, .. } => printed.len() <= 0xFFFF_FFFF,
            ReplyBody::Refused(_) => true,
        }
    }
}
