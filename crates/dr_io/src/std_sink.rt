ghost use Rattle.std.specs.Prelude.{◌≡◌, false, ◌<◌, ◌≤◌, length, take, None, IfOk, OnErr, if◌then◌else◌};
ghost use Rattle.std.specs.Io.KnownBytes.{Appends};
ghost use Rattle.dr_logic.specs.Counts.{Rose, risen};
ghost use Rattle.dr_io.specs.Given.{AppendsFront};
ghost use Rattle.dr_io.specs.Faults.{is_fault, takes_none};

use crate::counts::{count_if_none, one_fault_more};
use crate::streams::{Failed, Sink};
use std::io;
use std::io::Write;

/// A writer, as standard output, with its errors counted. It tells nothing of the bytes it took.
#[derive(Drop)]
pub struct StdSink<W: Write + Drop> {
    writer: W,
    faults: u64,
}

impl<W: Write + Drop> StdSink<W> {
    /// A sink that writes to `writer`, with no fault counted.
    pub fn new(writer: W) -> StdSink<W>
        ensures writer { result.writer ≡ writer }
        ensures faults { result.faults ≡ 0 }
    {
        StdSink { writer, faults: 0 }
    }
}

impl<W: Write + Drop> Sink for StdSink<W> {
    ghost written = { λ _. None };

    ghost faults = { λ s. s.faults };

    /// What was taken is flushed before the call ends; a flush that fails is a fault too. Where it fails, the
    /// writer has a front of the piece more: none of it if it wouldn't write, and what it took if it wouldn't flush.
    fn put(&mut self, piece: &[u8]) -> Result<usize, Failed>
        ensures count { IfOk result (λ n. n ≤ length piece.now) }
        ensures never_falls { self.old.faults ≤ self.new.faults }
        ensures rose { OnErr result (Rose self.old.faults self.new.faults) }
        ensures stuck { IfOk result (λ n. n ≡ 0 → 0 < length piece.now → Rose self.old.faults self.new.faults) }
        ensures steady { IfOk result (λ n. takes_none (length piece.now) n ≡ false → self.new.faults ≡ self.old.faults) }
        ensures counted { self.new.faults ≡ (if is_fault result (length piece.now) then risen self.old.faults else self.old.faults) }
        ensures appended { IfOk result (λ n. Appends (W.contents self.old.writer) (W.contents self.new.writer) (take n piece.now)) }
        ensures part { OnErr result (AppendsFront (W.contents self.old.writer) (W.contents self.new.writer) piece.now) }
    {
        match write_out(&mut self.writer, piece) {
            Ok(n) => {
                self.faults = count_if_none(self.faults, piece.len(), n);
                Ok(n)
            }
            Err(_) => {
                self.faults = one_fault_more(self.faults);
                Err(Failed)
            }
        }
    }
}

/// Writes from the front of the piece, and flushes what was taken.
fn write_out<W: Write>(writer: &mut W, piece: &[u8]) -> io::Result<usize>
    ensures count { IfOk result (λ n. n ≤ length piece.now) }
    ensures appended { IfOk result (λ n. Appends (W.contents writer.old) (W.contents writer.new) (take n piece.now)) }
    ensures part { OnErr result (AppendsFront (W.contents writer.old) (W.contents writer.new) piece.now) }
{
    let n = writer.write(piece)?;
    writer.flush()?;
    Ok(n)
}
