//! Why a point has no row.

ghost use Rattle.std.specs.Prelude.{◌≡◌};
ghost use Rattle.dr_sweep.specs.declared.fault.PointFault.TheVariants.{NoMemory};

use std::alloc::AllocError;

/// Why a point has no row, or the calm run comes to nothing.
#[derive(Clone, Copy)]
pub enum PointFault {
    /// There is no memory.
    NoMemory,
    /// Its script is past a script's limits, or a step of it found the journal full.
    TooLong,
}

impl From<AllocError> for PointFault {
    ghost from_gives = { λ _ fault. fault ≡ NoMemory };

    fn from(_: AllocError) -> PointFault
        ensures { result ≡ NoMemory }
    {
        PointFault::NoMemory
    }
}
