ghost use Rattle.std.specs.Prelude.{◌≡◌, ℕ, ◌<◌, ◌≤◌, ◌↔◌, false, List, [], ◌++◌, length, take, drop, Option, None, Some, IfOk, OnErr};
ghost use Rattle.dr_logic.specs.Counts.{Rose};
ghost use Rattle.dr_io.specs.Faults.{takes_none};

/// A call that failed; the stream has counted a fault.
#[derive(Clone, Copy)]
pub struct Failed;

/// Bytes that are read from front to end.
pub trait Source {
    // The bytes that are left, where the source tells them.
    ghost left: { Self → Option (List ℕ) };

    // How often a call went wrong; the count stands still at 2^64 - 1.
    ghost faults: { Self → ℕ };

    /// Puts the next bytes at the front of `into` and says how many; 0 for an `into` that has room
    /// is the end of the input. Fails where the input can't be read, gives nothing then, and leaves
    /// `into` as it was. The count of faults changes in these calls alone.
    fn take(&mut self, into: &mut [u8]) -> Result<usize, Failed>
        ensures count { IfOk result (λ n. n ≤ length into.old) }
        ensures within { IfOk result (λ n. (bytes : List ℕ) → left self.old ≡ Some bytes → n ≤ length bytes) }
        ensures given { IfOk result (λ n. (bytes : List ℕ) → left self.old ≡ Some bytes → take n into.new ≡ take n bytes) }
        ensures rest { IfOk result (λ n. (bytes : List ℕ) → left self.old ≡ Some bytes → left self.new ≡ Some (drop n bytes)) }
        ensures end { IfOk result (λ n. (bytes : List ℕ) → left self.old ≡ Some bytes → 0 < length into.old → n ≡ 0 ↔ bytes ≡ []) }
        ensures failed { OnErr result (left self.new ≡ left self.old) }
        ensures silent { left self.old ≡ None → left self.new ≡ None }
        ensures never_falls { faults self.old ≤ faults self.new }
        ensures rose { OnErr result (Rose (faults self.old) (faults self.new)) }
        ensures steady { IfOk result (λ n. faults self.new ≡ faults self.old) }
        ensures untouched { OnErr result (into.new ≡ into.old) };
}

/// A place that bytes are written to, one after the other.
pub trait Sink {
    // The bytes that were taken, where the sink tells them.
    ghost written: { Self → Option (List ℕ) };

    // How often a call went wrong; the count stands still at 2^64 - 1.
    ghost faults: { Self → ℕ };

    /// Takes bytes from the front of `piece` and says how many. Fails where they can't be written;
    /// a sink that tells its bytes has taken none then, and another may have taken a front of the
    /// piece. Taking none of a piece that isn't empty counts as a fault too, and nothing else does.
    fn put(&mut self, piece: &[u8]) -> Result<usize, Failed>
        ensures count { IfOk result (λ n. n ≤ length piece.now) }
        ensures taken { IfOk result (λ n. (out : List ℕ) → written self.old ≡ Some out → written self.new ≡ Some (out ++ take n piece.now)) }
        ensures failed { OnErr result (written self.new ≡ written self.old) }
        ensures silent { written self.old ≡ None → written self.new ≡ None }
        ensures never_falls { faults self.old ≤ faults self.new }
        ensures rose { OnErr result (Rose (faults self.old) (faults self.new)) }
        ensures stuck { IfOk result (λ n. n ≡ 0 → 0 < length piece.now → Rose (faults self.old) (faults self.new)) }
        ensures steady { IfOk result (λ n. takes_none (length piece.now) n ≡ false → faults self.new ≡ faults self.old) };
}
