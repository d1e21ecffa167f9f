// A connection of a wire in memory.
ghost use Rattle.std.specs.Prelude.{◌≤◌, vec_len};

use crate::fault::Fault;
use std::alloc::Global;
use std::collections::VecDeque;

#[derive(Drop)]
pub struct Link {
    pub sent: Vec<u8>,
    pub given: Vec<u8>,
    // the piece that is being given, how much of it was, and the pieces after it
    piece: Vec<u8>,
    from: usize,
    later: VecDeque<Vec<u8>>,
    ghost in_piece: { from ≤ vec_len piece },
}

impl Link {
    ghost use Rattle.std.specs.Prelude.{◌≡◌, ◌≢◌, ◌≤◌, ◌<◌, true, false, [], length, vec_len, IfOk, OnErr, IsErrOf};
    ghost use Rattle.nr_outside.specs.Wire.{Gives};
    ghost use Rattle.nr_outside.specs.Link.{pieces_of, link_pieces, link_to_come, GivesOfOne};

    // A connection that is to give these pieces.
    pub fn new(alloc: Global, pieces: VecDeque<Vec<u8>>) -> Self
        ensures sent { result.sent.items ≡ [] }
        ensures given { result.given.items ≡ [] }
        ensures pieces { link_pieces result ≡ pieces_of pieces.items }
    {
        Link {
            sent: Vec::new(alloc),
            given: Vec::new(alloc),
            piece: Vec::new(alloc),
            from: 0,
            later: pieces,
        }
    }

    // Goes on to the next piece that has bytes, where all of this one was given. False where none
    // has.
    fn advance(&mut self) -> bool
        ensures some { result ≡ true → self.new.from < vec_len self.new.piece }
        ensures none { result ≡ false → link_pieces self.new ≡ [] }
        ensures pieces { link_pieces self.new ≡ link_pieces self.old }
        ensures sent { self.new.sent ≡ self.old.sent }
        ensures given { self.new.given ≡ self.old.given }
    {
        'pieces: while self.from == self.piece.len() {
            match self.later.pop_front() {
                Some(piece) => {
                    self.from = 0;
                    self.piece = piece;
                }
                None => return false,
            }
        }
        true
    }

    // Gives some of the piece.
    fn give(&mut self, into: &mut [u8]) -> Result<usize, Fault>
        requires room { 0 < length into.old }
        requires rest { self.old.from < vec_len self.old.piece }
        ensures some { IfOk result (λ n. 0 < n) }
        ensures bound { IfOk result (λ n. n ≤ length into.new) }
        ensures gives { Gives self.old.given.items (link_to_come self.old) self.new.given.items
            (link_to_come self.new) result into.new }
        ensures into { OnErr result (into.new ≡ into.old) }
        ensures piece { IfOk result
            (λ n. GivesOfOne (length into.old) n (link_pieces self.old) (link_pieces self.new)) }
        ensures kept { OnErr result (link_pieces self.new ≡ link_pieces self.old) }
        ensures sent { self.new.sent ≡ self.old.sent }
        ensures memory { IsErrOf result Fault.Failed → ⊥ }
    {
        let rest = &self.piece[self.from..];
        let count = rest.len().min(into.len());
        let part = &rest[..count];
        self.given.extend_from_slice(part)?;
        into[..count].copy_from_slice(part);
        self.from += count;
        Ok(count)
    }

    // Gives some of a piece, or nothing where nothing is to come.
    pub fn receive(&mut self, into: &mut [u8]) -> Result<usize, Fault>
        requires { 0 < length into.old }
        ensures some { link_to_come self.old ≢ [] → IfOk result (λ n. 0 < n) }
        ensures bound { IfOk result (λ n. n ≤ length into.new) }
        ensures gives { Gives self.old.given.items (link_to_come self.old) self.new.given.items
            (link_to_come self.new) result into.new }
        ensures into { OnErr result (into.new ≡ into.old) }
        ensures piece { IfOk result
            (λ n. GivesOfOne (length into.old) n (link_pieces self.old) (link_pieces self.new)) }
        ensures kept { OnErr result (link_pieces self.new ≡ link_pieces self.old) }
        ensures sent { self.new.sent ≡ self.old.sent }
        ensures memory { IsErrOf result Fault.Failed → ⊥ }
    {
        if !self.advance() {
            return Ok(0);
        }
        self.give(into)
    }
}
