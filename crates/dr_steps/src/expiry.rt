//! The step that ends the holds of a server's volumes.

ghost use Rattle.std.specs.Prelude.{◌≡◌, ℕ, ◌≤◌};
ghost use Rattle.dr_model.specs.Laws.{Sound};
ghost use Rattle.dr_model.specs.declared.step.Step.{Step};
ghost use Rattle.dr_steps.specs.Faults.{CountsStop};
ghost use Rattle.dr_steps.specs.Here.{said_of, StepLeads, here, IsReady};

use crate::locate::{bytes_of, unknown_server};
use crate::tables::Tables;
use dr_admin::lift;
use dr_config::Config;
use dr_ids::Refusal;
use dr_model::{Addition, Journal, Name};
use dr_plant::Plant;

/// Ends the holds of a server's volumes: no host write on them waits any more. Refused where no server has the name, or
/// it is off.
pub fn expire<P: Plant>(
    plant: &mut P,
    config: &Config,
    tables: &Tables,
    journal: &mut Journal,
    name: &Name,
) -> Result<Addition, Refusal>
    requires ready { IsReady (P.state plant.old) config.now tables.now journal.old.events }
    requires sound { Sound (here (P.state plant.old) config.now tables.now journal.old.events) }
    requires short { name.now.len ≤ 24 }
    requires room { 130 ≤ journal.old.spare }
    ensures step { (line : ℕ) → StepLeads (here (P.state plant.old) config.now tables.now journal.old.events) line (Step.Expire name.now)
        (here (P.state plant.new) config.now tables.now journal.new.events) (said_of result) }
    ensures faults { CountsStop (said_of result) (P.state plant.old) (P.state plant.new) }
    ensures ready { IsReady (P.state plant.new) config.now tables.now journal.new.events }
    ensures room { 1 ≤ journal.new.spare }
{
    let Some(server) = config.server_named(bytes_of(name)) else {
        return Err(unknown_server());
    };
    match lift(plant, config, journal, server) {
        Ok(()) => Ok(Addition::Alone),
        Err(refusal) => Err(refusal),
    }
}
