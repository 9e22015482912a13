//! The step in which a server carries out what the master of a session asks of it.

ghost use Rattle.std.specs.Prelude.{◌≡◌, ℕ, ◌+◌, ◌<◌, ◌≤◌, false, length, IfSome};
ghost use Rattle.dr_ctl.specs.Kept.{flight_in};
ghost use Rattle.dr_model.specs.Laws.{Sound};
ghost use Rattle.dr_model.specs.Limits.{step_events};
ghost use Rattle.dr_model.specs.Runs.{after_plan, said};
ghost use Rattle.dr_model.specs.SessionPlans as plans;
ghost use Rattle.dr_model.specs.Sessions as model;
ghost use Rattle.dr_steps.specs.Faults.{CountsStop};
ghost use Rattle.dr_steps.specs.Here.{here, said_of, IsReady, Carries};

use crate::locate::{bytes_of, unknown_server, unknown_session};
use crate::messages::hear;
use crate::sessions::phase_of;
use crate::tables::Tables;
use dr_config::Config;
use dr_gmirror::exchange as exchange_order;
use dr_ids::{Refusal, ServerId, SessionId};
use dr_model::{Addition, Journal, Name};
use dr_plant::Plant;
use dr_session::Sessions;

/// The reports to the session's master speak of at most 64 members. Does nothing but state it.
pub fn tell_few(sessions: &Sessions, s: SessionId)
    ensures { IfSome (model.mirror_in (model.session_in sessions.now.sessions s.0)) (λ r. length r.master.reports ≤ 64) }
{
    let _ = sessions.master(s);
}

/// A server carries out the order that it is owed over its members, and the master may learn of it; the answer says the phase
/// that the master is in then. A report raises the server's fence to the session's epoch. Refused where the session has no
/// master, or where the master and the server have no exchange.
pub fn ask_server<P: Plant>(
    plant: &mut P,
    config: &Config,
    tables: &mut Tables,
    journal: &mut Journal,
    s: SessionId,
    server: ServerId,
    reply: bool,
) -> Result<Addition, Refusal>
    requires ready { IsReady (P.state plant.old) config.now tables.old journal.old.events }
    requires sound { Sound (here (P.state plant.old) config.now tables.old journal.old.events) }
    requires low { server.0 < 8 }
    requires known { server.0 < length config.now.names }
    requires few { length config.now.volumes ≤ 64 }
    requires room { step_events ≤ journal.old.spare }
    ensures step { Carries (here (P.state plant.old) config.now tables.old journal.old.events)
        (plans.asking (here (P.state plant.old) config.now tables.old journal.old.events).control s.0 server.0 reply)
        (here (P.state plant.new) config.now tables.new journal.new.events) (said_of result) }
    ensures faults { CountsStop (said_of result) (P.state plant.old) (P.state plant.new) }
    ensures ready { IsReady (P.state plant.new) config.now tables.new journal.new.events }
    ensures host { tables.new.host ≡ tables.old.host }
    ensures epochs { (flight_in tables.new.flight).epoch ≡ (flight_in tables.old.flight).epoch }
    ensures room { 1 ≤ journal.new.spare }
    ensures spare { length journal.new.events + journal.new.spare ≡ length journal.old.events + journal.old.spare }
{
    tell_few(&tables.sessions, s);
    match exchange_order(
        plant,
        config,
        journal,
        &mut tables.sessions,
        s,
        server,
        reply,
    ) {
        Ok(kind) => {
            let epoch = tables.flight.epoch(s);
            hear(&mut tables.flight, s, server, epoch, kind);
            Ok(phase_of(&tables.sessions, s))
        }
        Err(refusal) => Err(refusal),
    }
}

/// The same of a server that a line names. Refused where the session isn't defined or no server has the name, too.
pub fn exchange<P: Plant>(
    plant: &mut P,
    config: &Config,
    tables: &mut Tables,
    journal: &mut Journal,
    s: SessionId,
    name: &Name,
    reply: bool,
) -> Result<Addition, Refusal>
    requires ready { IsReady (P.state plant.old) config.now tables.old journal.old.events }
    requires sound { Sound (here (P.state plant.old) config.now tables.old journal.old.events) }
    requires short { name.now.len ≤ 24 }
    requires few { length config.now.volumes ≤ 64 }
    requires room { step_events ≤ journal.old.spare }
    ensures step { (line : ℕ) → after_plan (here (P.state plant.old) config.now tables.old journal.old.events) line
        (plans.exchange_plan (here (P.state plant.old) config.now tables.old journal.old.events).control s.0 name.now reply)
        ≡ said (here (P.state plant.new) config.now tables.new journal.new.events) line (said_of result) }
    ensures faults { CountsStop (said_of result) (P.state plant.old) (P.state plant.new) }
    ensures ready { IsReady (P.state plant.new) config.now tables.new journal.new.events }
    ensures host { tables.new.host ≡ tables.old.host }
    ensures room { 1 ≤ journal.new.spare }
{
    if !tables.sessions.is_defined(s) {
        return Err(unknown_session());
    }
    let Some(server) = config.server_named(bytes_of(name)) else {
        return Err(unknown_server());
    };
    ask_server(plant, config, tables, journal, s, server, reply)
}
