//! The steps on control messages.

ghost use Rattle.std.specs.Prelude.{◌≡◌, ℕ, ◌<◌, if◌then◌else◌};
ghost use Rattle.dr_ctl.specs.Kept.{flight_in};
ghost use Rattle.dr_master.specs.Seen.{work_of};
ghost use Rattle.dr_model.specs.MessagePlans as plans;
ghost use Rattle.dr_model.specs.Messages as model;
ghost use Rattle.dr_model.specs.Runs.{after_plan, said};
ghost use Rattle.dr_steps.specs.Faults.{CountsStop};
ghost use Rattle.dr_steps.specs.Here.{here, said_of, IsReady};

use crate::tables::Tables;
use dr_config::Config;
use dr_ctl::Flight;
use dr_ids::{Refusal, ServerId, SessionId};
use dr_master::OrderKind;
use dr_model::{Addition, Journal};
use dr_plant::Plant;

/// An epoch begins for the session, where its master is lost.
pub fn raise_if(flight: &mut Flight, s: SessionId, lost: bool)
    requires count { (flight_in flight.old).epoch s.0 < 4294967295 }
    ensures { flight_in flight.new ≡ (if lost then model.raised s.0 (flight_in flight.old) else flight_in flight.old) }
{
    if lost {
        flight.raise(s);
    }
}

/// A server has carried out an order of that kind, which a master of the session gave in that epoch: a report raises the
/// server's fence to the epoch.
pub fn hear(flight: &mut Flight, s: SessionId, server: ServerId, epoch: u32, kind: OrderKind)
    requires server { server.0 < 8 }
    ensures room { flight.new.room ≡ flight.old.room }
    ensures heard { flight_in flight.new ≡ model.heard s.0 server.0 epoch (work_of kind) (flight_in flight.old) }
{
    if matches!(kind, OrderKind::Report) {
        flight.raise_fence(s, server, epoch);
    }
}

/// A message is gone. Refused where no message in flight has the number.
pub fn lose<P: Plant>(
    plant: &P,
    config: &Config,
    tables: &mut Tables,
    journal: &Journal,
    message: u32,
) -> Result<Addition, Refusal>
    requires ready { IsReady (P.state plant.now) config.now tables.old journal.now.events }
    ensures step { (line : ℕ) → after_plan (here (P.state plant.now) config.now tables.old journal.now.events) line
        (plans.lose_plan (here (P.state plant.now) config.now tables.old journal.now.events).control message)
        ≡ said (here (P.state plant.now) config.now tables.new journal.now.events) line (said_of result) }
    ensures faults { CountsStop (said_of result) (P.state plant.now) (P.state plant.now) }
    ensures host { tables.new.host ≡ tables.old.host }
{
    match tables.flight.lose(message) {
        Ok(()) => Ok(Addition::Alone),
        Err(why) => Err(why),
    }
}
