ghost use Rattle.std.specs.Prelude.{◌≡◌, ℕ, ◌≤◌, ◌++◌, List, Some, OnOk, OnErr, is_err};
ghost use Rattle.dr_logic.specs.Counts.{Counted};
ghost use Rattle.dr_io.specs.Given.{Gave, GavePart};

use dr_io::{Failed, Sink};

/// Puts a whole piece, in as many calls as the sink wants. Fails only where the sink counted a fault, and has
/// then put a front of the piece.
pub fn put_all<K: Sink>(sink: &mut K, piece: &[u8]) -> Result<(), Failed>
    ensures whole { OnOk result (Gave K.written sink.old sink.new piece.now) }
    ensures part { OnErr result (GavePart K.written sink.old sink.new piece.now) }
    ensures faults { Counted (is_err result) (K.faults sink.old) (K.faults sink.new) }
{
    let mut done = 0;
    while done < piece.len() {
        let taken = sink.put(&piece[done..])?;
        if taken == 0 {
            return Err(Failed);
        }
        done += taken;
    }
    Ok(())
}
