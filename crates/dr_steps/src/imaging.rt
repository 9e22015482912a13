//! The step that lists all devices.

ghost use Rattle.std.specs.Prelude.{◌≡◌, ℕ, ◌+◌, ◌<◌, length, Ok, OnOk, OnErr};
ghost use Rattle.dr_logic.specs.Counts.{Counted};
ghost use Rattle.dr_model.specs.Listed.{Lists, task_on};
ghost use Rattle.dr_model.specs.Limits.{most_events};
ghost use Rattle.dr_model.specs.Runs.{after_task};
ghost use Rattle.dr_model.specs.declared.step.Step.TheVariants as step;
ghost use Rattle.dr_steps.specs.Faults.{told_stop};
ghost use Rattle.dr_steps.specs.Here.{here, IsReady};
ghost use Rattle.dr_steps.specs.Wants.{WantsMemory};

use crate::answers::{IMAGE_EVENTS, has_room_for, refuse, say};
use crate::tables::Tables;
use dr_config::Config;
use dr_ids::Refusal;
use dr_listing::image;
use dr_model::{Addition, Journal, Said};
use dr_plant::Plant;
use std::alloc::AllocError;

/// Lists the devices of all volumes, and answers. It is refused where the journal has no room. The plant isn't written, so no master
/// is lost. Where there is no memory nothing has changed.
pub fn carry_image<P: Plant>(
    plant: &P,
    config: &Config,
    tables: &Tables,
    journal: &mut Journal,
    number: u32,
) -> Result<(), AllocError>
    requires ready { IsReady (P.state plant.now) config.now tables.now journal.old.events }
    ensures task { OnOk result (after_task (here (P.state plant.now) config.now tables.now journal.old.events) (task_on (here (P.state plant.now) config.now tables.now journal.old.events) (P.state plant.now).block number (Ok step.Image))
        ≡ here (P.state plant.now) config.now tables.now journal.new.events) }
    ensures lists { OnOk result (Lists (here (P.state plant.now) config.now tables.now journal.old.events) (task_on (here (P.state plant.now) config.now tables.now journal.old.events) (P.state plant.now).block number (Ok step.Image))) }
    ensures wanted { length journal.old.events < most_events → OnErr result (WantsMemory (here (P.state plant.now) config.now tables.now journal.old.events) (Ok step.Image) (length journal.old.events + journal.old.spare)) }
    ensures same { OnErr result (here (P.state plant.now) config.now tables.now journal.new.events ≡ here (P.state plant.now) config.now tables.now journal.old.events) }
    ensures ready { IsReady (P.state plant.now) config.now tables.now journal.new.events }
    ensures faults { (f : ℕ) → Counted (told_stop journal.old.events) f (P.state plant.now).faults → Counted (told_stop journal.new.events) f (P.state plant.now).faults }
{
    if !has_room_for(journal, IMAGE_EVENTS) {
        return refuse(journal, number, Refusal::JournalFull);
    }
    journal.reserve(IMAGE_EVENTS)?;
    image(plant, config, journal);
    say(journal, number, Said::Done(Addition::Alone));
    Ok(())
}
