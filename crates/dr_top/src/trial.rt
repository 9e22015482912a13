//! The command `trial`: runs a script that a number decides, and puts what it came to.

ghost use Rattle.std.specs.Prelude.{◌≡◌, []};
ghost use Rattle.dr_plant.specs.State.{IsFresh};
ghost use Rattle.dr_top.specs.Trials.{IsTrial};

use crate::report::put_report;
use crate::status::Status;
use crate::summary::summary;
use crate::tried::try_script;
use dr_gen::script;
use dr_io::{Sink, line_count};
use dr_model::Journal;
use dr_plant::Plant;
use std::alloc::Global;

/// Runs the script of the trial with that number on the plant, and puts three lines on what it came to: how many lines the script has,
/// how many answers were refusals, and which group the last recovery found.
pub fn trial<P: Plant, K: Sink>(
    alloc: Global,
    number: u32,
    plant: &mut P,
    sink: &mut K,
    journal: &mut Journal,
) -> Status
    requires fresh { IsFresh (P.state plant.old) }
    requires empty { journal.old.events ≡ [] }
    ensures { IsTrial number K.written sink.old sink.new K.faults result journal.new.events (P.state plant.old) (P.state plant.new) }
{
    let Ok(script) = script(alloc, number) else {
        return Status::NoMemory;
    };
    match try_script(alloc, script.bytes(), plant, journal) {
        Status::Done | Status::DoneRefused => {
            match summary(alloc, line_count(script.bytes()), journal) {
                Ok(report) => put_report(sink, &report),
                Err(_) => Status::NoMemory,
            }
        }
        status => status,
    }
}
