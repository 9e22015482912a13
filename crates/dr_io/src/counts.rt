ghost use Rattle.std.specs.Prelude.{◌≡◌, if◌then◌else◌};
ghost use Rattle.dr_io.specs.Faults.{takes_none};
ghost use Rattle.dr_io.specs.Memory.{listed as listed_in};
ghost use Rattle.dr_logic.specs.Counts.{risen};

/// The count of faults after one more; it stands still at its end.
pub fn one_fault_more(faults: u64) -> u64
    ensures { result ≡ risen faults }
{
    faults.saturating_add(1)
}

/// The count of faults after a call that took `taken` of the `wanted` bytes: taking none is a fault
/// where some were wanted.
pub fn count_if_none(faults: u64, wanted: usize, taken: usize) -> u64
    ensures { result ≡ (if takes_none wanted taken then risen faults else faults) }
{
    if 0 < wanted && taken == 0 {
        one_fault_more(faults)
    } else {
        faults
    }
}

/// Whether the number stands in the list.
pub fn listed(numbers: &[u32], number: u64) -> bool
    ensures { result ≡ listed_in numbers.now number }
{
    numbers.iter().any(|x| u64::from(*x) == number)
}
