//! A wire: a way to peers, with at most one open connection.
ghost use Rattle.std.specs.Prelude.{◌≡◌, ◌≢◌, ◌⊎◌, ◌++◌, ◌∷◌, [], ◌≤◌, ◌<◌, Bool, true, false, is_ok, List, ℕ, length, Ok, IfOk, OnOk, OnErr};
ghost use Rattle.nr_outside.specs.Causes.{HasCause, Rose};
ghost use Rattle.nr_outside.specs.Bytes.{AddsPart};
ghost use Rattle.nr_outside.specs.Wire.{Connection, AddressesGrow, Gives, OpenIsTold, SendIsTold, ReceiveIsTold, IsAnswered};
ghost use Rattle.nr_outside.specs.declared.wire.event.Event.{Event};

use crate::fault::Fault;

pub mod event;
mod link;
mod mem;
mod tcp;

pub use mem::MemWire;
pub use tcp::TcpWire;

/// A way to peers.
///
/// A wire may tell its addresses, its connections and the order of its events. It counts its
/// faults, those of `listen`, `accept` and `open` apart from those of `send` and `receive`, and the
/// ends that came. A count rises where a call fails or an end comes, and stands still otherwise;
/// one that is 2^64 - 1 stays there and counts as risen.
pub trait Wire {
    /// It tells its addresses and its connections.
    ghost Tells: { Type 0 };

    /// It tells the order of its events.
    ghost TellsOrder: { Type 0 };

    /// Its peers keep to `says`: until a call on the open connection is refused, what was given and
    /// is to come on it is a text that may be said to what was sent, and a receive gives a byte
    /// where bytes are to come.
    ghost Honest: { Type 0 };

    /// What may be said to what was sent.
    ghost says: { Self → List ℕ → List ℕ → Type 0 };

    /// Whether a connection is open.
    ghost opened: { Self → Bool };

    /// The addresses at which it listened or to which it opened, or failed to.
    ghost addresses: { Self → List (List ℕ) };

    /// The connections that were closed, the first first.
    ghost past: { Self → List Connection };

    /// What was sent on the open connection.
    ghost sent: { Self → List ℕ };

    /// What the open connection gave.
    ghost given: { Self → List ℕ };

    /// What the open connection is still to give.
    ghost to_come: { Self → List ℕ };

    /// The events, the first first.
    ghost order: { Self → List Event };

    /// How often listening, accepting or opening failed.
    ghost open_faults: { Self → ℕ };

    /// How often sending or receiving failed.
    ghost stream_faults: { Self → ℕ };

    /// How often a connection was found at its end.
    ghost ends: { Self → ℕ };

    /// Whether a connection is open.
    fn is_open(&self) -> bool
        ensures { result ≡ opened self.now };

    /// Listens at an address, for `accept`. It is no call on the open connection.
    fn listen(&mut self, addr: &str) -> Result<(), Fault>
        ensures opened { opened self.new ≡ opened self.old }
        ensures addresses { Tells
            → AddressesGrow (addresses self.old) (addresses self.new) addr.now result }
        ensures past { Tells → past self.new ≡ past self.old }
        ensures sent { Tells → sent self.new ≡ sent self.old }
        ensures given { Tells → given self.new ≡ given self.old }
        ensures to_come { Tells → to_come self.new ≡ to_come self.old }
        ensures order { TellsOrder → order self.new ≡ order self.old }
        ensures rule { (a b : List ℕ) → says self.new a b → says self.old a b }
        ensures honest { Honest → opened self.old ≡ true
            → IsAnswered (says self.old) (sent self.old) (given self.old) (to_come self.old)
            → IsAnswered (says self.new) (sent self.new) (given self.new) (to_come self.new) }
        ensures cause { HasCause (open_faults self.old) (open_faults self.new) result }
        ensures stream_faults { stream_faults self.new ≡ stream_faults self.old }
        ensures ends { ends self.new ≡ ends self.old };

    /// Takes the next connection that comes to where it listens.
    fn accept(&mut self) -> Result<(), Fault>
        requires { opened self.old ≡ false }
        ensures opened { opened self.new ≡ is_ok result }
        ensures addresses { Tells → addresses self.new ≡ addresses self.old }
        ensures past { Tells → past self.new ≡ past self.old }
        ensures sent { Tells → OnOk result (sent self.new ≡ []) }
        ensures given { Tells → OnOk result (given self.new ≡ []) }
        ensures order { TellsOrder → OpenIsTold (order self.old) (order self.new) result }
        ensures rule { (a b : List ℕ) → says self.new a b → says self.old a b }
        ensures honest { Honest → OnOk result
            (IsAnswered (says self.new) (sent self.new) (given self.new) (to_come self.new)) }
        ensures cause { HasCause (open_faults self.old) (open_faults self.new) result }
        ensures stream_faults { stream_faults self.new ≡ stream_faults self.old }
        ensures ends { ends self.new ≡ ends self.old };

    /// Opens a connection to an address.
    fn open(&mut self, addr: &str) -> Result<(), Fault>
        requires { opened self.old ≡ false }
        ensures opened { opened self.new ≡ is_ok result }
        ensures addresses { Tells
            → AddressesGrow (addresses self.old) (addresses self.new) addr.now result }
        ensures past { Tells → past self.new ≡ past self.old }
        ensures sent { Tells → OnOk result (sent self.new ≡ []) }
        ensures given { Tells → OnOk result (given self.new ≡ []) }
        ensures order { TellsOrder → OpenIsTold (order self.old) (order self.new) result }
        ensures rule { (a b : List ℕ) → says self.new a b → says self.old a b }
        ensures honest { Honest → OnOk result
            (IsAnswered (says self.new) (sent self.new) (given self.new) (to_come self.new)) }
        ensures cause { HasCause (open_faults self.old) (open_faults self.new) result }
        ensures stream_faults { stream_faults self.new ≡ stream_faults self.old }
        ensures ends { ends self.new ≡ ends self.old };

    /// Sends the piece, or where it is refused some first bytes of it. What is to come may change.
    fn send(&mut self, piece: &[u8]) -> Result<(), Fault>
        requires { opened self.old ≡ true }
        ensures opened { opened self.new ≡ true }
        ensures sent { Tells → OnOk result (sent self.new ≡ sent self.old ++ piece.now) }
        ensures part { Tells → AddsPart (sent self.old) (sent self.new) piece.now }
        ensures addresses { Tells → addresses self.new ≡ addresses self.old }
        ensures past { Tells → past self.new ≡ past self.old }
        ensures given { Tells → given self.new ≡ given self.old }
        ensures order { TellsOrder → SendIsTold (order self.old) (order self.new) (sent self.old)
            (sent self.new) piece.now result }
        ensures rule { (a b : List ℕ) → says self.new a b → says self.old a b }
        ensures honest { Honest
            → IsAnswered (says self.old) (sent self.old) (given self.old) (to_come self.old)
            → OnOk result
            (IsAnswered (says self.new) (sent self.new) (given self.new) (to_come self.new)) }
        ensures cause { HasCause (stream_faults self.old) (stream_faults self.new) result }
        ensures open_faults { open_faults self.new ≡ open_faults self.old }
        ensures ends { ends self.new ≡ ends self.old };

    /// Receives some bytes to the front of `into`, and says how many; 0 is the end of the
    /// connection. Where it is refused, `into` is as before.
    fn receive(&mut self, into: &mut [u8]) -> Result<usize, Fault>
        requires open { opened self.old ≡ true }
        requires room { 0 < length into.old }
        ensures opened { opened self.new ≡ true }
        ensures bound { IfOk result (λ n. n ≤ length into.new) }
        ensures gives { Tells → Gives (given self.old) (to_come self.old) (given self.new)
            (to_come self.new) result into.new }
        ensures into { Tells → OnErr result (into.new ≡ into.old) }
        ensures addresses { Tells → addresses self.new ≡ addresses self.old }
        ensures past { Tells → past self.new ≡ past self.old }
        ensures sent { Tells → sent self.new ≡ sent self.old }
        ensures order { TellsOrder → ReceiveIsTold (order self.old) (order self.new) result }
        ensures rule { (a b : List ℕ) → says self.new a b → says self.old a b }
        ensures honest { Honest
            → IsAnswered (says self.old) (sent self.old) (given self.old) (to_come self.old)
            → OnOk result
            (IsAnswered (says self.new) (sent self.new) (given self.new) (to_come self.new)) }
        ensures some { Honest
            → IsAnswered (says self.old) (sent self.old) (given self.old) (to_come self.old)
            → to_come self.old ≢ [] → IfOk result (λ n. 0 < n) }
        ensures cause { HasCause (stream_faults self.old) (stream_faults self.new) result }
        ensures open_faults { open_faults self.new ≡ open_faults self.old }
        ensures end { IfOk result (λ n. n ≡ 0 → Rose (ends self.old) (ends self.new)) }
        ensures ends { ends self.old ≤ ends self.new }
        ensures still { (result ≡ Ok 0) ⊎ (ends self.new ≡ ends self.old) };

    /// Closes the open connection, if there is one.
    fn close(&mut self)
        ensures opened { opened self.new ≡ false }
        ensures addresses { Tells → addresses self.new ≡ addresses self.old }
        ensures none { Tells → opened self.old ≡ false → past self.new ≡ past self.old }
        ensures past { Tells → opened self.old ≡ true → past self.new ≡ past self.old
            ++ (record { sent = sent self.old; given = given self.old; to_come = to_come self.old })
            ∷ [] }
        ensures order { TellsOrder → order self.new ≡ order self.old }
        ensures rule { (a b : List ℕ) → says self.new a b → says self.old a b }
        ensures open_faults { open_faults self.new ≡ open_faults self.old }
        ensures stream_faults { stream_faults self.new ≡ stream_faults self.old }
        ensures ends { ends self.new ≡ ends self.old };
}
