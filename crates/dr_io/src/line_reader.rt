//! Reads a script line by line.

ghost use Rattle.std.specs.Prelude.{◌≡◌, ℕ, ◌+◌, ◌<◌, ◌≤◌, None, length};
ghost use Rattle.std.specs.List.{position};
ghost use Rattle.dr_io.specs.Lines.{IsNext, Reads, end_answer, begun, is_line_end, most_bytes, most_lines};
ghost use Rattle.dr_io.specs.Reading.{CutsLine};

use crate::ahead::Ahead;
use crate::kept::Front;
use crate::limits::{SCRIPT_LIMITS, room_after};
use crate::streams::{Failed, Source};
use memchr::memchr;
use std::marker::Model;

/// The most bytes that a script may have.
const MOST_BYTES: usize = SCRIPT_LIMITS.bytes as usize;

/// The most lines that a script may have.
const MOST_LINES: u32 = SCRIPT_LIMITS.lines;

/// What was taken from a source.
#[derive(Clone, Copy)]
pub enum Taken {
    /// A line.
    Line,
    /// The end of the input, with no line begun.
    End,
    /// More bytes or lines than a script may have.
    TooLong,
}

/// How a reading ended.
#[derive(Clone, Copy)]
pub enum ReadingEnd {
    AtEnd,
    PastLimit,
    ByFault,
}

/// Reads a script line by line, and takes no memory.
#[derive(Drop)]
pub struct LineReader {
    ahead: Ahead,
    kept: Front,
    taken: usize,
    given: u32,
    over: Option<ReadingEnd>,
}

impl Model for LineReader {
    ghost use Rattle.std.specs.Prelude.{◌≡◌, ◌≤◌, ◌+◌, None, length};
    ghost use Rattle.dr_io.specs.Lines.{Progress, most_bytes, most_lines, most_piece};

    ghost Value = { Progress };

    ghost view = { λ r. record { ahead = r.ahead; taken = r.taken; given = r.given; line = r.kept; over = r.over } };

    ghost invariant = { λ r. (length r.ahead ≤ most_piece) × (r.taken ≤ most_bytes + 1) × (r.given ≤ most_lines) × (r.over ≡ None → r.taken ≤ most_bytes) };
}

impl LineReader {
    /// A reader that has taken nothing.
    pub fn new() -> LineReader
        ensures { result ≡ begun }
    {
        LineReader {
            ahead: Ahead::new(),
            kept: Front::new(),
            taken: 0,
            given: 0,
            over: None,
        }
    }

    /// The line that was given last, without its line end; of a longer one the first 1,025 bytes.
    pub fn line(&self) -> &[u8]
        ensures { result.now ≡ self.now.line }
    {
        self.kept.bytes()
    }

    /// Takes the next line.
    pub fn next<S: Source>(&mut self, source: &mut S) -> Result<Taken, Failed>
        ensures next { IsNext S.left S.faults source.old source.new self.old self.new result }
        ensures near { length self.new.ahead ≤ 4096 }
    {
        if let Some(over) = self.over {
            return answer(over);
        }
        if self.given == MOST_LINES {
            self.look_past(source)
        } else {
            self.read_line(source)
        }
    }

    /// Sees whether anything follows the last line that may be given.
    fn look_past<S: Source>(&mut self, source: &mut S) -> Result<Taken, Failed>
        requires going { self.old.over ≡ None }
        requires full { self.old.given ≡ most_lines }
        ensures reads { Reads S.left S.faults source.old source.new self.old self.new result }
        ensures near { length self.new.ahead ≤ 4096 }
    {
        if !self.ahead.is_empty() {
            self.over = Some(ReadingEnd::PastLimit);
            return Ok(Taken::TooLong);
        }
        let Ok(n) = self.ahead.fill(source, room_after(MOST_BYTES, self.taken)) else {
            self.over = Some(ReadingEnd::ByFault);
            return Err(Failed);
        };
        self.taken += n;
        if n == 0 {
            self.over = Some(ReadingEnd::AtEnd);
            return Ok(Taken::End);
        }
        self.over = Some(ReadingEnd::PastLimit);
        Ok(Taken::TooLong)
    }

    /// Takes pieces until a line ends in them.
    fn read_line<S: Source>(&mut self, source: &mut S) -> Result<Taken, Failed>
        requires going { self.old.over ≡ None }
        requires few { self.old.given < most_lines }
        ensures reads { Reads S.left S.faults source.old source.new self.old self.new result }
        ensures near { length self.new.ahead ≤ 4096 }
    {
        self.kept.clear();
        while !cut_line(&mut self.ahead, &mut self.kept) {
            let Ok(n) = self.ahead.fill(source, room_after(MOST_BYTES, self.taken)) else {
                self.over = Some(ReadingEnd::ByFault);
                return Err(Failed);
            };
            self.taken += n;
            if n == 0 {
                self.over = Some(ReadingEnd::AtEnd);
                if self.kept.is_empty() {
                    return Ok(Taken::End);
                }
                self.kept.cut();
                self.given += 1;
                return Ok(Taken::Line);
            }
            if self.taken > MOST_BYTES {
                self.over = Some(ReadingEnd::PastLimit);
                return Ok(Taken::TooLong);
            }
        }
        self.given += 1;
        Ok(Taken::Line)
    }
}

/// What is answered once the reading is over.
fn answer(over: ReadingEnd) -> Result<Taken, Failed>
    ensures { result ≡ end_answer over }
{
    match over {
        ReadingEnd::AtEnd => Ok(Taken::End),
        ReadingEnd::PastLimit => Ok(Taken::TooLong),
        ReadingEnd::ByFault => Err(Failed),
    }
}

/// Where the first line feed is.
fn line_end_at(bytes: &[u8]) -> Option<usize>
    ensures { result ≡ position is_line_end bytes.now }
{
    memchr(b'\n', bytes)
}

/// Keeps the bytes ahead up to the end of the line, which is dropped; whether there is one.
fn cut_line(ahead: &mut Ahead, kept: &mut Front) -> bool
    ensures { CutsLine ahead.old kept.old ahead.new kept.new result }
{
    let bytes = ahead.bytes();
    match line_end_at(bytes) {
        Some(at) => {
            kept.keep(&bytes[..at]);
            kept.end_line();
            ahead.skip(at + 1);
            true
        }
        None => {
            kept.keep(bytes);
            let all = bytes.len();
            ahead.skip(all);
            false
        }
    }
}
