//! The bytes that were taken from a source and stand in no line yet.

ghost use Rattle.std.specs.Prelude.{◌≡◌, ◌<◌, ◌≤◌, [], drop, length, nat_eq};
ghost use Rattle.dr_io.specs.Reading.{FillsBy};

use crate::streams::{Failed, Source};
use std::marker::Model;

/// The most bytes of a piece that is taken at once.
pub const MOST_PIECE: usize = 4096;

/// The rest of a piece.
#[derive(Drop)]
pub struct Ahead {
    bytes: [u8; MOST_PIECE],
    start: usize,
    end: usize,
}

impl Model for Ahead {
    ghost use Rattle.std.specs.Prelude.{ℕ, List, ◌≤◌, ◌-◌, take, drop};

    ghost Value = { List ℕ };

    ghost view = { λ a. take (a.end - a.start) (drop a.start a.bytes) };

    ghost invariant = { λ a. (a.start ≤ a.end) × (a.end ≤ 4096) };
}

impl Ahead {
    /// No bytes.
    pub fn new() -> Ahead
        ensures { result ≡ [] }
    {
        Ahead {
            bytes: [0; MOST_PIECE],
            start: 0,
            end: 0,
        }
    }

    /// Whether no bytes are ahead.
    pub fn is_empty(&self) -> bool
        ensures { result ≡ nat_eq (length self.now) 0 }
    {
        self.start == self.end
    }

    /// The bytes that are ahead.
    pub fn bytes(&self) -> &[u8]
        ensures { result.now ≡ self.now }
    {
        &self.bytes[self.start..self.end]
    }

    /// Drops the first `n` bytes.
    pub fn skip(&mut self, n: usize)
        requires { n ≤ length self.old }
        ensures { self.new ≡ drop n self.old }
    {
        self.start += n;
    }

    /// Drops all bytes.
    pub fn clear(&mut self)
        ensures { self.new ≡ [] }
    {
        self.start = self.end;
    }

    /// Takes the next piece, of at most `room` bytes, in place of what is ahead; 0 is the end of the input.
    pub fn fill<S: Source>(&mut self, source: &mut S, room: usize) -> Result<usize, Failed>
        requires some { 0 < room }
        requires piece { room ≤ 4096 }
        ensures { FillsBy S.left S.faults source.old source.new self.new room result }
    {
        self.start = 0;
        self.end = 0;
        let taken = source.take(&mut self.bytes[..room])?;
        self.end = taken;
        Ok(taken)
    }
}
