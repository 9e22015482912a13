//! Runs a script that stands in memory. Nobody hears its answers.

ghost use Rattle.std.specs.Prelude.{◌≡◌, []};
ghost use Rattle.dr_plant.specs.State.{IsFresh};
ghost use Rattle.dr_top.specs.Tried.{IsTried};

use crate::open_run::OpenRun;
use crate::status::Status;
use dr_model::Journal;
use dr_plant::Plant;
use std::alloc::Global;

/// Carries out the steps of a script on the plant, and keeps what happens in the journal: the only text of a run. Ends with `Done` or
/// `DoneRefused` where all of them were carried out; with `NoMemory`; or with `TooLong`, where a step found the journal full or the script
/// is past a script's limits.
pub fn try_script<P: Plant>(
    alloc: Global,
    script: &[u8],
    plant: &mut P,
    journal: &mut Journal,
) -> Status
    requires fresh { IsFresh (P.state plant.old) }
    requires empty { journal.old.events ≡ [] }
    ensures { IsTried script.now result journal.new.events (P.state plant.old) (P.state plant.new) }
{
    let mut run = OpenRun::new(alloc);
    run.carry_out(alloc, script, plant, journal)
}
