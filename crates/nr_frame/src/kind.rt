//! The kinds of frames, and who reads which.

ghost use Rattle.std.specs.Prelude.{◌≡◌, ◌≤◌};
ghost use Rattle.nr_frame.specs.Kinds.{code_of, reads_code};

/// Who reads.
#[derive(Clone, Copy, Debug, PartialEq, Eq)]
pub enum Side {
    Client,
    Server,
}

/// What a frame's body is.
#[derive(Clone, Copy, Debug, PartialEq, Eq)]
pub enum FrameKind {
    Hello,
    Call,
    /// The end of a batch of calls.
    Go,
    Reply,
}

impl FrameKind {
    /// The byte that a frame has for its kind.
    pub fn code(self) -> u8
        ensures { result ≡ code_of self }
    {
        match self {
            FrameKind::Hello => 1,
            FrameKind::Call => 2,
            FrameKind::Go => 3,
            FrameKind::Reply => 4,
        }
    }

    /// The kind whose code is given.
    pub(crate) fn of_code(code: u8) -> FrameKind
        requires least { 1 ≤ code }
        requires most { code ≤ 4 }
        ensures { code_of result ≡ code }
    {
        match code {
            1 => FrameKind::Hello,
            2 => FrameKind::Call,
            3 => FrameKind::Go,
            _ => FrameKind::Reply,
        }
    }
}

impl Side {
    /// Whether this side reads frames whose kind has this code.
    pub(crate) fn reads(self, code: u8) -> bool
        ensures { result ≡ reads_code self code }
    {
        match self {
            Side::Server => code == 1 || code == 2 || code == 3,
            Side::Client => code == 1 || code == 4,
        }
    }
}
