//! How much of a text was taken.

ghost use Rattle.std.specs.Prelude.{◌≡◌, ◌+◌, ◌<◌, ◌≤◌, ◌^◌, [], length};
ghost use Rattle.std.specs.List.{count_by};
ghost use Rattle.std.specs.Option.{option_copied};
ghost use Rattle.std.specs.Str.Lines.{lines};
ghost use Rattle.dr_io.specs.Lines.{is_line_end};
ghost use Rattle.dr_io.specs.Pieces.{amount_of, lines_of, more, opened, exceeds};

use crate::limits::Limits;

/// How much of a text was taken.
#[derive(Clone, Copy)]
pub struct Amount {
    /// How many bytes.
    pub bytes: usize,
    /// How many lines ended in them.
    pub ended: usize,
    /// Whether a line is begun behind them.
    pub begun: bool,
}

impl Amount {
    /// Nothing.
    pub fn none() -> Amount
        ensures { result ≡ amount_of [] }
    {
        Amount {
            bytes: 0,
            ended: 0,
            begun: false,
        }
    }

    /// Counts a piece more.
    pub fn add(&mut self, piece: &[u8])
        requires room { self.old.bytes + length piece.now < 2 ^ 64 }
        requires ended { self.old.ended ≤ self.old.bytes }
        ensures { self.new ≡ more self.old piece.now }
    {
        self.bytes += piece.len();
        self.ended += line_ends(piece);
        self.begun = opened(piece.last(), self.begun);
    }

    /// Whether this is more than may be taken.
    pub fn exceeds(&self, limits: Limits) -> bool
        requires { self.now.ended + 1 < 2 ^ 64 }
        ensures { result ≡ exceeds limits self.now }
    {
        self.bytes > limits.bytes as usize || self.lines() > limits.lines as usize
    }

    /// How many lines: those that ended, and the one that is begun.
    fn lines(&self) -> usize
        requires { self.now.ended + 1 < 2 ^ 64 }
        ensures { result ≡ lines_of self.now }
    {
        self.ended + usize::from(self.begun)
    }
}

/// How many lines end in a piece.
fn line_ends(piece: &[u8]) -> usize
    ensures value { result ≡ count_by is_line_end piece.now }
    ensures within { result ≤ length piece.now }
{
    piece.iter().filter(|byte| **byte == b'\n').count()
}

/// Whether a line is begun behind a piece with this last byte.
fn opened(last: Option<&u8>, before: bool) -> bool
    ensures { result ≡ opened (option_copied last.entry) before }
{
    match last {
        Some(byte) => *byte != b'\n',
        None => before,
    }
}

/// How many lines a text has. A last one without a line feed counts, too.
pub fn line_count(text: &[u8]) -> usize
    ensures { result ≡ length (lines text.now) }
{
    let mut amount = Amount::none();
    amount.add(text);
    amount.lines()
}
