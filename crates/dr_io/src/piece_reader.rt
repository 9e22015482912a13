//! Takes a text from a source piece by piece.

ghost use Rattle.std.specs.Prelude.{◌≡◌, ◌≤◌, ◌++◌, List, ℕ, None, IfSome, length};
ghost use Rattle.dr_io.specs.Given.{Took};
ghost use Rattle.dr_io.specs.Pieces.{IsPiece, Takes, HasTaken, StaysOver, nothing_taken, piece_answer};

use crate::ahead::Ahead;
use crate::amount::Amount;
use crate::limits::{Limits, room_after};
use crate::line_reader::ReadingEnd;
use crate::streams::{Failed, Source};
use std::marker::Model;

/// What was taken from a source.
#[derive(Clone, Copy)]
pub enum TakenPiece {
    /// At least one byte.
    Piece,
    /// The end of the input.
    End,
    /// More bytes or lines than may be taken.
    TooLong,
}

/// Takes a text from a source piece by piece, within limits, and takes no memory.
#[derive(Drop)]
pub struct PieceReader {
    piece: Ahead,
    amount: Amount,
    limits: Limits,
    over: Option<ReadingEnd>,
}

impl Model for PieceReader {
    ghost use Rattle.std.specs.Prelude.{◌≡◌, false, ◌≤◌, ◌+◌, None, length};
    ghost use Rattle.dr_io.specs.Pieces.{PieceProgress, exceeds};

    ghost Value = { PieceProgress };

    ghost view = { λ r. record { piece = r.piece; amount = r.amount; limits = r.limits; over = r.over } };

    ghost invariant = { λ r. (r.amount.ended ≤ r.amount.bytes) × (r.amount.bytes ≤ r.limits.bytes + 1) × (r.over ≡ None → exceeds r.limits r.amount ≡ false) };
}

impl PieceReader {
    /// A reader that has taken nothing, and takes a text within these limits.
    pub fn new(limits: Limits) -> PieceReader
        ensures { result ≡ nothing_taken limits }
    {
        PieceReader {
            piece: Ahead::new(),
            amount: Amount::none(),
            limits,
            over: None,
        }
    }

    /// What the last call took from the source, 1 to 4,096 bytes behind `Piece` and `TooLong`; nothing before the first
    /// call, behind the end and a fault, and once the reading was over before.
    pub fn piece(&self) -> &[u8]
        ensures { result.now ≡ self.now.piece }
    {
        self.piece.bytes()
    }

    /// Takes the next piece, of at most 4,096 bytes and at most one byte past the limit of bytes. `TooLong` comes with the
    /// piece that passes a limit. Fails where the source does. Behind each answer but `Piece` the reading is over: later
    /// calls leave the source alone, and answer the same.
    pub fn next_piece<S: Source>(&mut self, source: &mut S) -> Result<TakenPiece, Failed>
        ensures took { Took S.left source.old source.new self.new.piece }
        ensures near { length self.new.piece ≤ 4096 }
        ensures counts { (text : List ℕ) → HasTaken text self.old → HasTaken (text ++ self.new.piece) self.new }
        ensures limits { self.new.limits ≡ self.old.limits }
        ensures next { (text : List ℕ) → HasTaken text self.old → IsPiece S.left S.faults source.old source.new text self.old self.new result }
    {
        if let Some(over) = self.over {
            self.piece.clear();
            return answer(over);
        }
        self.take_piece(source)
    }

    /// Takes a piece, where the reading isn't over.
    fn take_piece<S: Source>(&mut self, source: &mut S) -> Result<TakenPiece, Failed>
        requires { self.old.over ≡ None }
        ensures took { Took S.left source.old source.new self.new.piece }
        ensures near { length self.new.piece ≤ 4096 }
        ensures counts { (text : List ℕ) → HasTaken text self.old → HasTaken (text ++ self.new.piece) self.new }
        ensures limits { self.new.limits ≡ self.old.limits }
        ensures takes { (text : List ℕ) → HasTaken text self.old → Takes S.left S.faults source.old source.new text self.new result }
    {
        let room = room_after(self.limits.bytes as usize, self.amount.bytes);
        let Ok(n) = self.piece.fill(source, room) else {
            self.over = Some(ReadingEnd::ByFault);
            return Err(Failed);
        };
        if n == 0 {
            self.over = Some(ReadingEnd::AtEnd);
            return Ok(TakenPiece::End);
        }
        self.amount.add(self.piece.bytes());
        if self.amount.exceeds(self.limits) {
            self.over = Some(ReadingEnd::PastLimit);
            return Ok(TakenPiece::TooLong);
        }
        Ok(TakenPiece::Piece)
    }
}

/// What is answered once the reading is over.
fn answer(over: ReadingEnd) -> Result<TakenPiece, Failed>
    ensures { result ≡ piece_answer over }
{
    match over {
        ReadingEnd::AtEnd => Ok(TakenPiece::End),
        ReadingEnd::PastLimit => Ok(TakenPiece::TooLong),
        ReadingEnd::ByFault => Err(Failed),
    }
}
