//! Why a call gives no result.

ghost use Rattle.std.specs.Prelude.{◌≡◌};
ghost use Rattle.nr_message.specs.ServeFaults.{number_of};

use nr_base::Name;

/// Why a server doesn't answer a call with a result.
#[derive(Debug, Drop, PartialEq, Eq)]
pub enum ServeFault {
    /// The service has no such method.
    NoSuchMethod,
    /// The run threw an object of this class, and nothing caught it.
    Thrown(Name),
    /// The run made as many steps as the budget has, and didn't end.
    BudgetSpent,
    /// The run's frames would pass the bound of their number, 1,024, or that of their value slots.
    TooDeep,
    /// The run's heap would pass the bound of its cells.
    HeapFull,
    /// What is to be sent back reaches an object of this class, which can't be sent.
    NotSendable(Name),
    /// The reply would be longer than a body may be.
    ReplyTooLong,
    /// The run's output would pass its bound.
    OutputTooLong,
    /// The request breaks a rule, which has this code.
    BadRequest(u8),
    /// Memory ran out.
    NoMemory,
}

impl ServeFault {
    /// The number by which messages tell it, from 1 to 10.
    pub fn number(&self) -> u8
        ensures { result ≡ number_of self.now }
    {
        match self {
            ServeFault::NoSuchMethod => 1,
            ServeFault::Thrown(_) => 2,
            ServeFault::BudgetSpent => 3,
            ServeFault::TooDeep => 4,
            ServeFault::HeapFull => 5,
            ServeFault::NotSendable(_) => 6,
            ServeFault::ReplyTooLong => 7,
            ServeFault::OutputTooLong => 8,
            ServeFault::BadRequest(_) => 9,
            ServeFault::NoMemory => 10,
        }
    }
}
