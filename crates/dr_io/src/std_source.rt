ghost use Rattle.std.specs.Prelude.{◌≡◌, ◌<◌, ◌≤◌, length, None, IfOk, OnErr, is_err, if◌then◌else◌};
ghost use Rattle.std.specs.Io.KnownBytes.{ReadConsumes};
ghost use Rattle.dr_logic.specs.Counts.{Rose, risen};

use crate::ahead::MOST_PIECE;
use crate::copies::copy_at;
use crate::counts::one_fault_more;
use crate::streams::{Failed, Source};
use std::io;
use std::io::Read;

/// A reader, as standard input, with its errors counted. It tells nothing of the bytes to come.
#[derive(Drop)]
pub struct StdSource<R: Read + Drop> {
    reader: R,
    faults: u64,
}

impl<R: Read + Drop> StdSource<R> {
    /// A source that reads from `reader`, with no fault counted.
    pub fn new(reader: R) -> StdSource<R>
        ensures reader { result.reader ≡ reader }
        ensures faults { result.faults ≡ 0 }
    {
        StdSource { reader, faults: 0 }
    }
}

impl<R: Read + Drop> Source for StdSource<R> {
    ghost left = { λ _. None };

    ghost faults = { λ s. s.faults };

    fn take(&mut self, into: &mut [u8]) -> Result<usize, Failed>
        ensures count { IfOk result (λ n. n ≤ length into.old) }
        ensures never_falls { self.old.faults ≤ self.new.faults }
        ensures rose { OnErr result (Rose self.old.faults self.new.faults) }
        ensures steady { IfOk result (λ n. self.new.faults ≡ self.old.faults) }
        ensures counted { self.new.faults ≡ (if is_err result then risen self.old.faults else self.old.faults) }
        ensures untouched { OnErr result (into.new ≡ into.old) }
        ensures read { ReadConsumes (R.remaining self.old.reader) (R.remaining self.new.reader) result into.new }
    {
        let mut piece = [0; MOST_PIECE];
        match read_into(&mut self.reader, &mut piece, into) {
            Ok(n) => Ok(n),
            Err(_) => {
                self.faults = one_fault_more(self.faults);
                Err(Failed)
            }
        }
    }
}

/// Reads through a buffer, since a reader that fails may leave anything in the bytes that it was given.
fn read_into<R: Read>(reader: &mut R, buffer: &mut [u8], into: &mut [u8]) -> io::Result<usize>
    requires { 0 < length buffer.old }
    ensures count { IfOk result (λ n. n ≤ length into.old) }
    ensures untouched { OnErr result (into.new ≡ into.old) }
    ensures read { ReadConsumes (R.remaining reader.old) (R.remaining reader.new) result into.new }
{
    let wanted = into.len().min(buffer.len());
    let n = reader.read(&mut buffer[..wanted])?;
    copy_at(into, 0, &buffer[..n]);
    Ok(n)
}
