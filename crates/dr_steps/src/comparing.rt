//! The step that compares two volumes.

ghost use Rattle.std.specs.Prelude.{◌≡◌, ℕ, ◌+◌, ◌<◌, ◌≤◌, true, [], length, Ok, OnOk, OnErr};
ghost use Rattle.dr_logic.specs.Counts.{Counted};
ghost use Rattle.dr_model.specs.Laws.{FlightCounted, Sound};
ghost use Rattle.dr_model.specs.Limits.{most_events, step_events};
ghost use Rattle.dr_model.specs.Plans.{has_room};
ghost use Rattle.dr_model.specs.Runs.{after_task};
ghost use Rattle.dr_model.specs.declared.step.Step.TheVariants as step;
ghost use Rattle.dr_steps.specs.Faults.{told_stop};
ghost use Rattle.dr_steps.specs.Here.{said_of, here, IsReady};
ghost use Rattle.dr_steps.specs.Wants.{WantsMemory};

use crate::answers::{STEP_EVENTS, has_room, refuse, say};
use crate::masters::{lose_masters, servers_on};
use crate::returning::compare;
use crate::tables::Tables;
use dr_config::Config;
use dr_ids::{Refusal, VolumeId};
use dr_model::{Addition, Journal, Said};
use dr_plant::Plant;
use std::alloc::AllocError;

/// How a call is answered.
fn answer_by(outcome: Result<Addition, Refusal>) -> Said
    ensures { result ≡ said_of outcome }
{
    match outcome {
        Ok(addition) => Said::Done(addition),
        Err(refusal) => Said::Refused(refusal),
    }
}

/// Compares two volumes, where the journal has room, and answers; each master whose server went off is lost.
fn compare_answered<P: Plant>(
    plant: &mut P,
    config: &Config,
    tables: &mut Tables,
    journal: &mut Journal,
    number: u32,
    v: VolumeId,
    u: VolumeId,
)
    requires ready { IsReady (P.state plant.old) config.now tables.old journal.old.events }
    requires sound { Sound (here (P.state plant.old) config.now tables.old journal.old.events) }
    requires counted { FlightCounted (here (P.state plant.old) config.now tables.old journal.old.events) }
    requires room { step_events ≤ journal.old.spare }
    requires has_room { has_room journal.old.events ≡ true }
    ensures task { after_task (here (P.state plant.old) config.now tables.old journal.old.events) (record { line = number; asked = Ok (step.Compare v.0 u.0); listed = [] })
        ≡ here (P.state plant.new) config.now tables.new journal.new.events }
    ensures ready { IsReady (P.state plant.new) config.now tables.new journal.new.events }
    ensures faults { (f : ℕ) → Counted (told_stop journal.old.events) f (P.state plant.old).faults → Counted (told_stop journal.new.events) f (P.state plant.new).faults }
    ensures host { tables.new.host ≡ tables.old.host }
{
    let before = servers_on(plant);
    let compared = compare(plant, config, tables, journal, v, u);
    lose_masters(plant, &before, &mut tables.sessions, &mut tables.flight);
    say(journal, number, answer_by(compared));
}

/// Carries out a comparison, and answers it. It is refused where the journal has no room. Where there is no memory nothing has
/// changed.
pub fn carry_compare<P: Plant>(
    plant: &mut P,
    config: &Config,
    tables: &mut Tables,
    journal: &mut Journal,
    number: u32,
    v: VolumeId,
    u: VolumeId,
) -> Result<(), AllocError>
    requires ready { IsReady (P.state plant.old) config.now tables.old journal.old.events }
    requires sound { Sound (here (P.state plant.old) config.now tables.old journal.old.events) }
    requires counted { FlightCounted (here (P.state plant.old) config.now tables.old journal.old.events) }
    requires below { length journal.old.events < most_events }
    ensures task { OnOk result (after_task (here (P.state plant.old) config.now tables.old journal.old.events) (record { line = number; asked = Ok (step.Compare v.0 u.0); listed = [] })
        ≡ here (P.state plant.new) config.now tables.new journal.new.events) }
    ensures wanted { OnErr result (WantsMemory (here (P.state plant.old) config.now tables.old journal.old.events) (Ok (step.Compare v.0 u.0)) (length journal.old.events + journal.old.spare)) }
    ensures same { OnErr result (here (P.state plant.new) config.now tables.new journal.new.events ≡ here (P.state plant.old) config.now tables.old journal.old.events) }
    ensures same_plant { OnErr result (P.state plant.new ≡ P.state plant.old) }
    ensures ready { IsReady (P.state plant.new) config.now tables.new journal.new.events }
    ensures faults { (f : ℕ) → Counted (told_stop journal.old.events) f (P.state plant.old).faults → Counted (told_stop journal.new.events) f (P.state plant.new).faults }
    ensures host { tables.new.host ≡ tables.old.host }
{
    if !has_room(journal) {
        return refuse(journal, number, Refusal::JournalFull);
    }
    journal.reserve(STEP_EVENTS)?;
    compare_answered(plant, config, tables, journal, number, v, u);
    Ok(())
}
