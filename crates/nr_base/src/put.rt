//! A writer of bytes.

ghost use Rattle.std.specs.Prelude.{◌≡◌, [], ◌++◌, OnOk, OnErr};
ghost use Rattle.std.specs.Int.{w8, w16, w32, w64, to_be_bytes};

use byteorder::{BigEndian, ByteOrder};
use std::alloc::{AllocError, Global};
use std::marker::Model;

/// Bytes that are written one behind the other. Contracts see it as their list.
#[derive(Debug, Drop)]
pub struct Put {
    bytes: Vec<u8>,
}

impl Model for Put {
    ghost use Rattle.std.specs.Prelude.{ℕ, List};

    ghost Value = { List ℕ };

    ghost view = { λ p. p.bytes.items };
}

impl Put {
    /// A writer that has written nothing. It takes no memory.
    pub fn new(alloc: Global) -> Put
        ensures { result ≡ [] }
    {
        Put {
            bytes: Vec::new(alloc),
        }
    }

    /// Writes a byte. The error comes only for want of memory, as in the calls below, and leaves what
    /// was written as it was.
    pub fn u8(&mut self, v: u8) -> Result<(), AllocError>
        ensures ok { OnOk result (self.new ≡ self.old ++ to_be_bytes w8 v) }
        ensures err { OnErr result (self.new ≡ self.old) }
    {
        self.bytes(&[v])
    }

    /// Writes a number in 2 bytes, the most significant first.
    pub fn u16(&mut self, v: u16) -> Result<(), AllocError>
        ensures ok { OnOk result (self.new ≡ self.old ++ to_be_bytes w16 v) }
        ensures err { OnErr result (self.new ≡ self.old) }
    {
        let mut bytes = [0; 2];
        BigEndian::write_u16(&mut bytes, v);
        self.bytes(&bytes)
    }

    /// Writes a number in 4 bytes, the most significant first.
    pub fn u32(&mut self, v: u32) -> Result<(), AllocError>
        ensures ok { OnOk result (self.new ≡ self.old ++ to_be_bytes w32 v) }
        ensures err { OnErr result (self.new ≡ self.old) }
    {
        let mut bytes = [0; 4];
        BigEndian::write_u32(&mut bytes, v);
        self.bytes(&bytes)
    }

    /// Writes a number in 8 bytes, the most significant first.
    pub fn u64(&mut self, v: u64) -> Result<(), AllocError>
        ensures ok { OnOk result (self.new ≡ self.old ++ to_be_bytes w64 v) }
        ensures err { OnErr result (self.new ≡ self.old) }
    {
        let mut bytes = [0; 8];
        BigEndian::write_u64(&mut bytes, v);
        self.bytes(&bytes)
    }

    /// Writes some bytes.
    pub fn bytes(&mut self, v: &[u8]) -> Result<(), AllocError>
        ensures ok { OnOk result (self.new ≡ self.old ++ v.now) }
        ensures err { OnErr result (self.new ≡ self.old) }
    {
        self.bytes.extend_from_slice(v)
    }

    /// The bytes that were written.
    pub fn done(self) -> Vec<u8>
        ensures { result.items ≡ self }
    {
        let Put { bytes } = self;
        bytes
    }
}
