//! The step that sends an order of a session's master on its way to a server.

ghost use Rattle.std.specs.Prelude.{◌≡◌, ℕ, ◌+◌, ◌<◌, ◌≤◌, ◌++◌, true, false, None, length, OnErr, if◌then◌else◌};
ghost use Rattle.dr_ctl.specs.Kept.{flight_in};
ghost use Rattle.dr_model.specs.Forming.{refusal_said};
ghost use Rattle.dr_model.specs.Laws.{Sound};
ghost use Rattle.dr_model.specs.MessagePlans as plans;
ghost use Rattle.dr_model.specs.Runs.{after_plan, said};
ghost use Rattle.dr_model.specs.Sessions as model;
ghost use Rattle.dr_model.specs.declared.step.Step.{Step};
ghost use Rattle.dr_moves.specs.Checks.{is_stop};
ghost use Rattle.dr_steps.specs.Faults.{CountsStop};
ghost use Rattle.dr_steps.specs.Here.{here, OnAnswer, OnNoMemory, IsReady};
ghost use Rattle.dr_steps.specs.Wants.{WantsRow};

use crate::forming::{is_idle, phase_in};
use crate::locate::{bytes_of, unknown_server, unknown_session};
use crate::tables::Tables;
use dr_config::Config;
use dr_ctl::Flight;
use dr_gmirror::asked_order;
use dr_ids::{Fault, Refusal, ServerId, SessionId, Which};
use dr_model::{Addition, Event, Journal, Name};
use dr_plant::Plant;
use dr_session::Sessions;

/// Why no message is made: as many are in flight as may be.
pub fn full_refusal(flight: &Flight) -> Option<Refusal>
    ensures refusal { result ≡ plans.full_refusal (flight_in flight.now) }
    ensures calm { is_stop result ≡ false }
{
    if flight.is_full() {
        return Some(Refusal::Limit {
            which: Which::Messages,
        });
    }
    None
}

/// Attempt n of the session begins, where it does, and the journal is told so.
fn begin_if(sessions: &mut Sessions, journal: &mut Journal, s: SessionId, n: u32, begins: bool)
    requires may { begins ≡ true → model.begin_refusal (model.mirror_in (model.session_in sessions.old.sessions s.0)) ≡ None }
    requires room { 1 ≤ journal.old.spare }
    ensures begun { sessions.new.sessions ≡ (if begins then model.changed s.0 model.begun sessions.old.sessions else sessions.old.sessions) }
    ensures told { journal.new.events ≡ journal.old.events ++ plans.told_begun begins s.0 n }
    ensures spare { length journal.new.events + journal.new.spare ≡ length journal.old.events + journal.old.spare }
{
    if begins {
        let _ = sessions.begin(s);
        journal.push(Event::Begin { session: s.0, n });
    }
}

/// Sends a server the order that the session's master has for it. The answer is the message's number. Where there is no memory
/// nothing has changed.
fn send_to<P: Plant>(
    plant: &P,
    config: &Config,
    tables: &mut Tables,
    journal: &mut Journal,
    s: SessionId,
    server: ServerId,
) -> Result<Addition, Fault>
    requires ready { IsReady (P.state plant.now) config.now tables.old journal.old.events }
    requires sound { Sound (here (P.state plant.now) config.now tables.old journal.old.events) }
    requires low { server.0 < 8 }
    requires known { server.0 < length config.now.names }
    requires numbers { (flight_in tables.old.flight).made < 4294967295 }
    requires room { 2 ≤ journal.old.spare }
    ensures step { OnAnswer result (λ a. (line : ℕ) → after_plan (here (P.state plant.now) config.now tables.old journal.old.events) line
        (plans.send_on (here (P.state plant.now) config.now tables.old journal.old.events).control s.0 (model.mirror_in (model.session_in tables.old.sessions.sessions s.0)) server.0 (model.members_in (model.session_in tables.old.sessions.sessions s.0)))
        ≡ said (here (P.state plant.now) config.now tables.new journal.new.events) line a) }
    ensures faults { OnAnswer result (λ a. CountsStop a (P.state plant.now) (P.state plant.now)) }
    ensures wanted { OnNoMemory result (refusal_said ((plans.send_on (here (P.state plant.now) config.now tables.old journal.old.events).control s.0 (model.mirror_in (model.session_in tables.old.sessions.sessions s.0)) server.0 (model.members_in (model.session_in tables.old.sessions.sessions s.0))).says
        (here (P.state plant.now) config.now tables.old journal.old.events).control) ≡ None) }
    ensures same { OnErr result (here (P.state plant.now) config.now tables.new journal.new.events ≡ here (P.state plant.now) config.now tables.old journal.old.events) }
    ensures ready { IsReady (P.state plant.now) config.now tables.new journal.new.events }
    ensures host { tables.new.host ≡ tables.old.host }
    ensures room { 1 ≤ journal.new.spare }
{
    let order = match asked_order(plant, config, &tables.sessions, s, server) {
        Ok(order) => order,
        Err(why) => return Err(Fault::Refused(why)),
    };
    if let Some(why) = full_refusal(&tables.flight) {
        return Err(Fault::Refused(why));
    }
    let Ok(()) = tables.flight.reserve() else {
        return Err(Fault::NoMemory);
    };
    let begins = is_idle(phase_in(&tables.sessions, s));
    begin_if(&mut tables.sessions, journal, s, order.n, begins);
    let Ok(m) = tables.flight.send(s, server, order) else {
        unreachable!()
    };
    Ok(Addition::Posted { m })
}

/// Sends the server of that name the order that the session's master has for it: the one that it is owed, or where no attempt
/// goes on the first one of the next attempt, which begins with it. The answer is the message's number. Refused where the
/// session isn't defined or no server has the name; where the session has no master, its master's server is off, or its phase
/// has no order for the server; or where 256 messages are in flight. Where there is no memory nothing has changed.
pub fn send<P: Plant>(
    plant: &P,
    config: &Config,
    tables: &mut Tables,
    journal: &mut Journal,
    s: SessionId,
    name: &Name,
) -> Result<Addition, Fault>
    requires ready { IsReady (P.state plant.now) config.now tables.old journal.old.events }
    requires sound { Sound (here (P.state plant.now) config.now tables.old journal.old.events) }
    requires short { name.now.len ≤ 24 }
    requires numbers { (flight_in tables.old.flight).made < 4294967295 }
    requires room { 2 ≤ journal.old.spare }
    ensures step { OnAnswer result (λ a. (line : ℕ) → after_plan (here (P.state plant.now) config.now tables.old journal.old.events) line
        (plans.send_plan (here (P.state plant.now) config.now tables.old journal.old.events).control s.0 name.now)
        ≡ said (here (P.state plant.now) config.now tables.new journal.new.events) line a) }
    ensures faults { OnAnswer result (λ a. CountsStop a (P.state plant.now) (P.state plant.now)) }
    ensures wanted { OnNoMemory result (WantsRow (here (P.state plant.now) config.now tables.old journal.old.events) (Step.Send s.0 name.now)) }
    ensures same { OnNoMemory result (here (P.state plant.now) config.now tables.new journal.new.events ≡ here (P.state plant.now) config.now tables.old journal.old.events) }
    ensures ready { IsReady (P.state plant.now) config.now tables.new journal.new.events }
    ensures host { tables.new.host ≡ tables.old.host }
    ensures room { 1 ≤ journal.new.spare }
{
    if !tables.sessions.is_defined(s) {
        return Err(Fault::Refused(unknown_session()));
    }
    let Some(server) = config.server_named(bytes_of(name)) else {
        return Err(Fault::Refused(unknown_server()));
    };
    send_to(plant, config, tables, journal, s, server)
}
