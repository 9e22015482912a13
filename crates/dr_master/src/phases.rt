ghost use Rattle.std.specs.Prelude.{◌≡◌};
ghost use Rattle.dr_model.specs.Phases as model;

use dr_ids::{Decision, PhaseName};

// The phase that follows where each server has done its order.
pub(crate) fn next_phase(phase: PhaseName) -> PhaseName
    ensures { result ≡ model.next_phase phase }
{
    match phase {
        PhaseName::Coordinating => PhaseName::Releasing,
        PhaseName::Releasing => PhaseName::Draining,
        PhaseName::Draining => PhaseName::Flashing,
        PhaseName::Flashing => PhaseName::Committing,
        PhaseName::Committing | PhaseName::Reverting => PhaseName::Finishing,
        PhaseName::Finishing => PhaseName::Idle,
        PhaseName::Idle | PhaseName::Lost | PhaseName::None => phase,
    }
}

// The phase after an abort, where the phase can be aborted.
pub(crate) fn aborted_phase(phase: PhaseName) -> Option<PhaseName>
    ensures { result ≡ model.aborted_phase phase }
{
    match phase {
        PhaseName::Coordinating | PhaseName::Releasing | PhaseName::Draining => {
            Some(PhaseName::Finishing)
        }
        PhaseName::Flashing => Some(PhaseName::Reverting),
        PhaseName::Committing => Some(PhaseName::Lost),
        PhaseName::Idle
        | PhaseName::Reverting
        | PhaseName::Finishing
        | PhaseName::Lost
        | PhaseName::None => None,
    }
}

// The phase after all reports.
pub(crate) fn phase_by(decision: Decision) -> PhaseName
    ensures { result ≡ model.phase_by decision }
{
    match decision {
        Decision::CommitRest(_) => PhaseName::Committing,
        Decision::NoMember
        | Decision::Nothing(_)
        | Decision::RevertAll(_)
        | Decision::RevertSome(..)
        | Decision::Impossible(..) => PhaseName::Reverting,
    }
}
