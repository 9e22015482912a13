//! How the program ends.

ghost use Rattle.std.specs.Prelude.{◌≡◌};
ghost use Rattle.dr_sweep.specs.Ending.{code_of, ending_of, fault_ending, finding_ending};

use crate::fault::PointFault;
use dr_top::NotRead;

/// How a call of the program ends.
#[derive(Clone, Copy)]
pub enum Ending {
    /// What was asked for was printed, and nothing is a finding.
    Done,
    /// The sweep was printed, and the calm run, a line of the recovery or a row is a finding.
    Finding,
    /// The words are no command, or name a point that the plan doesn't have.
    Usage,
    /// The source failed.
    ReadFault,
    /// The sink failed.
    WriteFault,
    /// There is no memory.
    NoMemory,
    /// The plan, or a script of the sweep, has more bytes or lines than a script may have, or a step found the journal full.
    TooLong,
    /// The input is no plan.
    BadPlan,
}

impl Ending {
    /// The number that the process ends with.
    pub fn code(self) -> u8
        ensures { result ≡ code_of self }
    {
        match self {
            Ending::Done => 0,
            Ending::Finding => 1,
            Ending::Usage => 2,
            Ending::ReadFault => 3,
            Ending::WriteFault => 4,
            Ending::NoMemory => 5,
            Ending::TooLong => 6,
            Ending::BadPlan => 7,
        }
    }
}

/// How a call ends whose input wasn't read to its end.
pub(crate) fn ending_of(fault: NotRead) -> Ending
    ensures { result ≡ ending_of fault }
{
    match fault {
        NotRead::ReadFault => Ending::ReadFault,
        NotRead::TooLong => Ending::TooLong,
        NotRead::NoMemory => Ending::NoMemory,
    }
}

/// How a call ends if a script of the sweep wasn't carried out.
pub(crate) fn fault_ending(fault: PointFault) -> Ending
    ensures { result ≡ fault_ending fault }
{
    match fault {
        PointFault::NoMemory => Ending::NoMemory,
        PointFault::TooLong => Ending::TooLong,
    }
}

/// How a call ends that printed a sweep, by whether there is a finding.
pub(crate) fn finding_ending(found: bool) -> Ending
    ensures { result ≡ finding_ending found }
{
    if found { Ending::Finding } else { Ending::Done }
}
