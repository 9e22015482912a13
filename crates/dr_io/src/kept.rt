//! The bytes of a line that are kept while it is read.

ghost use Rattle.std.specs.Prelude.{◌≡◌, ◌≤◌, ◌++◌, [], length, take, nat_eq};
ghost use Rattle.dr_io.specs.Lines.{most_told};
ghost use Rattle.dr_io.specs.Reading.{most_kept, told_of};

use crate::copies::copy_at;
use std::marker::Model;

/// The most bytes of a line that are kept.
const MOST_KEPT: usize = 1026;

/// The most bytes of a line that are told.
const MOST_TOLD: usize = 1025;

/// The front of a line.
#[derive(Drop)]
pub struct Front {
    bytes: [u8; MOST_KEPT],
    len: usize,
}

impl Model for Front {
    ghost use Rattle.std.specs.Prelude.{ℕ, List, ◌≤◌, take};

    ghost Value = { List ℕ };

    ghost view = { λ k. take k.len k.bytes };

    ghost invariant = { λ k. k.len ≤ 1026 };
}

impl Front {
    /// No bytes.
    pub fn new() -> Front
        ensures { result ≡ [] }
    {
        Front {
            bytes: [0; MOST_KEPT],
            len: 0,
        }
    }

    /// Whether no bytes are kept.
    pub fn is_empty(&self) -> bool
        ensures { result ≡ nat_eq (length self.now) 0 }
    {
        self.len == 0
    }

    /// The bytes that are kept.
    pub fn bytes(&self) -> &[u8]
        ensures { result.now ≡ self.now }
    {
        &self.bytes[..self.len]
    }

    /// Begins a line.
    pub fn clear(&mut self)
        ensures { self.new ≡ [] }
    {
        self.len = 0;
    }

    /// Keeps the next bytes of the line, as far as there is room.
    pub fn keep(&mut self, piece: &[u8])
        ensures { self.new ≡ take most_kept (self.old ++ piece.now) }
    {
        let n = piece.len().min(MOST_KEPT - self.len);
        copy_at(&mut self.bytes, self.len, &piece[..n]);
        self.len += n;
    }

    /// Leaves what is told of a line that ended.
    pub fn end_line(&mut self)
        ensures { self.new ≡ told_of self.old }
    {
        self.len = told_length(&self.bytes[..self.len]);
    }

    /// Leaves what is told of a line that has no end.
    pub fn cut(&mut self)
        ensures { self.new ≡ take most_told self.old }
    {
        self.len = self.len.min(MOST_TOLD);
    }
}

/// How many of the kept bytes are told of a line that ended.
fn told_length(kept: &[u8]) -> usize
    ensures told { take result kept.now ≡ told_of kept.now }
    ensures within { result ≤ length kept.now }
{
    if kept.len() > MOST_TOLD {
        return MOST_TOLD;
    }
    match kept {
        [front @ .., b'\r'] => front.len(),
        _ => kept.len(),
    }
}
