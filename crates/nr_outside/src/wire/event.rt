//! What happens on a wire.

/// An event on a wire. Calls that want memory are no events.
#[derive(Clone, Copy, Debug, PartialEq, Eq)]
pub enum Event {
    /// A connection was opened or accepted.
    Opened,
    /// A whole piece of so many bytes was sent.
    Sent(usize),
    /// Sending failed after so many bytes of the piece.
    SendFailed(usize),
    /// So many bytes were received; 0 at the end of the connection.
    Received(usize),
    /// Receiving failed.
    ReceiveFailed,
}
