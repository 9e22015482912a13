//! The steps on sessions and their masters.

ghost use Rattle.std.specs.Prelude.{◌≡◌, ℕ, ◌<◌, false, List, Option, Some, IfSome, IfOk, IfErr, is_some, option_map, length, if◌then◌else◌};
ghost use Rattle.dr_ids.specs.declared.refusal.Refusal.{Refusal};
ghost use Rattle.dr_plant.specs.State.{PlantState};
ghost use Rattle.dr_config.specs.Table.{ConfigTable};
ghost use Rattle.dr_ctl.specs.Kept.{flight_in};
ghost use Rattle.dr_model.specs.declared.event.Event.{Event};
ghost use Rattle.dr_model.specs.declared.said.Said.TheVariants.{Done, Refused};
ghost use Rattle.dr_model.specs.Control.{Control};
ghost use Rattle.dr_model.specs.Laws.{Sound};
ghost use Rattle.dr_model.specs.Messages as messages;
ghost use Rattle.dr_model.specs.Phases.{aborted_phase};
ghost use Rattle.dr_model.specs.Runs.{after_plan, said};
ghost use Rattle.dr_model.specs.SessionPlans as plans;
ghost use Rattle.dr_model.specs.Sessions as model;
ghost use Rattle.dr_moves.specs.Checks.{is_stop};
ghost use Rattle.dr_steps.specs.Faults.{CountsStop};
ghost use Rattle.dr_steps.specs.Found.{IsFound, found_plan};
ghost use Rattle.dr_steps.specs.Here.{here, said_of, OnAnswer, OnNoMemory, IsReady};
ghost use Rattle.dr_steps.specs.Wants.{WantsRow};
ghost use Rattle.dr_steps.specs.WellFormed.{FitsOwner};
ghost use Rattle.dr_model.specs.declared.step.Step.{Step};
ghost use Rattle.dr_steps.specs.Counts.{HasCounts};
ghost use Rattle.dr_steps.specs.declared.tables.Tables.{Tables};

use crate::locate::{is_named, off_refusal, unknown_lss, unknown_server, unknown_session};
use crate::messages::raise_if;
use crate::tables::Tables;
use dr_config::Config;
use dr_ctl::Flight;
use dr_ids::{Fault, Lss, PhaseName, Refusal, ServerId, SessionId};
use dr_model::{Addition, Devs, Journal, Name};
use dr_plant::Plant;
use dr_session::Sessions;

/// The server of a logical subsystem, for a line on a session that is defined. Refused where no volume lies in it, where the
/// session isn't defined, or where its server isn't the one that is named.
fn found(
    config: &Config,
    tables: &Tables,
    dev: &Option<Name>,
    l: Lss,
    s: SessionId,
) -> Result<ServerId, Refusal>
    requires short { FitsOwner dev.now }
    ensures found { IfOk result (λ o. IsFound config.now tables.now dev.now l.0 s.0 o.0) }
    ensures refused { IfErr result (λ r. (x : PlantState) (events : List Event) (line : ℕ) (why : ℕ → model.Session → Option Refusal) (f : ℕ → model.Session → Control → Control)
        → after_plan (here x config.now tables.now events) line (found_plan (here x config.now tables.now events).control dev.now l.0 s.0 why f) ≡ said (here x config.now tables.now events) line (Refused r)) }
    ensures calm { IfErr result (λ r. is_stop (Some r) ≡ false) }
{
    let Some(owner) = config.lss_owner(l) else {
        return Err(unknown_lss());
    };
    if !tables.sessions.is_defined(s) {
        return Err(unknown_session());
    }
    if !is_named(config, dev, owner) {
        return Err(unknown_server());
    }
    Ok(owner)
}

/// A logical subsystem that isn't one of the session's.
fn outside_refusal(sessions: &Sessions, l: Lss, s: SessionId) -> Option<Refusal>
    ensures refusal { (x : model.Session) → model.session_in sessions.now.sessions s.0 ≡ Some x → result ≡ plans.outside_refusal x l.0 }
    ensures calm { is_stop result ≡ false }
{
    if !sessions.has_lss(s, l) {
        return Some(Refusal::NotInSession { session: s });
    }
    None
}

/// The session has no master, or its master's server is off.
fn master_refusal<P: Plant>(plant: &P, sessions: &Sessions, s: SessionId) -> Option<Refusal>
    requires known { IfSome (model.mirror_in (model.session_in sessions.now.sessions s.0)) (λ r. r.server < 8) }
    ensures refusal { (t : ConfigTable) (h : Tables) (events : List Event) → result ≡ plans.master_refusal (here (P.state plant.now) t h events).control (model.mirror_in (model.session_in sessions.now.sessions s.0)) }
    ensures calm { is_stop result ≡ false }
{
    match sessions.master_server(s) {
        Some(server) => off_refusal(plant, server),
        None => Some(Refusal::OutOfOrder {
            phase: PhaseName::None,
        }),
    }
}

/// Whether an attempt may be aborted in that phase.
fn is_abortable(phase: PhaseName) -> bool
    ensures { result ≡ is_some (aborted_phase phase) }
{
    match phase {
        PhaseName::Coordinating | PhaseName::Releasing | PhaseName::Draining => true,
        PhaseName::Flashing | PhaseName::Committing => true,
        _ => false,
    }
}

/// The session has no master, or its phase can't be aborted.
fn abort_refusal(sessions: &Sessions, s: SessionId) -> Option<Refusal>
    ensures refusal { result ≡ model.abort_refusal (model.mirror_in (model.session_in sessions.now.sessions s.0)) }
    ensures calm { is_stop result ≡ false }
{
    match sessions.master(s) {
        Some(master) => {
            if is_abortable(master.phase()) {
                return None;
            }
            Some(Refusal::OutOfOrder {
                phase: master.phase(),
            })
        }
        None => Some(Refusal::OutOfOrder {
            phase: PhaseName::None,
        }),
    }
}

/// The phase of the session's master with its number; no phase where there is none.
pub fn phase_of(sessions: &Sessions, s: SessionId) -> Addition
    ensures { Done result ≡ plans.session_phase (model.session_in sessions.now.sessions s.0) }
{
    match sessions.master(s) {
        Some(master) => Addition::InPhase {
            phase: master.phase(),
            n: master.number(),
        },
        None => Addition::InPhase {
            phase: PhaseName::None,
            n: 0,
        },
    }
}

/// A logical subsystem joins a session, which is made where it is new. Refused where no volume lies in it, where its server
/// isn't the one that is named or is off, where it is one of the session's already, or where there are four sessions and
/// this is a new one. Where there is no memory nothing has changed.
pub fn make_session<P: Plant>(
    plant: &P,
    config: &Config,
    tables: &mut Tables,
    journal: &Journal,
    devs: &Devs,
    l: Lss,
    s: SessionId,
) -> Result<Addition, Fault>
    requires ready { IsReady (P.state plant.now) config.now tables.old journal.now.events }
    requires short { FitsOwner devs.now.dev }
    ensures step { OnAnswer result (λ a. (line : ℕ) → after_plan (here (P.state plant.now) config.now tables.old journal.now.events) line
        (plans.join_plan (here (P.state plant.now) config.now tables.old journal.now.events).control devs.now.dev l.0 s.0)
        ≡ said (here (P.state plant.now) config.now tables.new journal.now.events) line a) }
    ensures faults { OnAnswer result (λ a. CountsStop a (P.state plant.now) (P.state plant.now)) }
    ensures wanted { OnNoMemory result (WantsRow (here (P.state plant.now) config.now tables.old journal.now.events) (Step.MakeSession devs.now l.0 s.0)) }
    ensures same { OnNoMemory result (here (P.state plant.now) config.now tables.new journal.now.events ≡ here (P.state plant.now) config.now tables.old journal.now.events) }
    ensures host { tables.new.host ≡ tables.old.host }
{
    let Some(owner) = config.lss_owner(l) else {
        return Err(Fault::Refused(unknown_lss()));
    };
    if !is_named(config, &devs.dev, owner) {
        return Err(Fault::Refused(unknown_server()));
    }
    if let Some(why) = off_refusal(plant, owner) {
        return Err(Fault::Refused(why));
    }
    match tables.sessions.join_lss(s, l) {
        Ok(()) => Ok(Addition::Alone),
        Err(fault) => Err(fault),
    }
}

/// The session's messages are gone where it is gone.
fn forget_if(flight: &mut Flight, s: SessionId, gone: bool)
    ensures { flight_in flight.new ≡ (if gone then messages.forgotten s.0 (flight_in flight.old) else flight_in flight.old) }
{
    if gone {
        flight.forget(s);
    }
}

/// A logical subsystem leaves a session, which is gone where it was its only one, and with it its messages. Refused where no
/// volume lies in it, where the session isn't defined, where its server isn't the one that is named, where it isn't one of the
/// session's, where a member lies in it, or where it is the last one and the session has a master.
pub fn remove_session<P: Plant>(
    plant: &P,
    config: &Config,
    tables: &mut Tables,
    journal: &Journal,
    devs: &Devs,
    l: Lss,
    s: SessionId,
) -> Result<Addition, Refusal>
    requires ready { IsReady (P.state plant.now) config.now tables.old journal.now.events }
    requires short { FitsOwner devs.now.dev }
    ensures step { (line : ℕ) → after_plan (here (P.state plant.now) config.now tables.old journal.now.events) line
        (plans.leave_plan (here (P.state plant.now) config.now tables.old journal.now.events).control devs.now.dev l.0 s.0)
        ≡ said (here (P.state plant.now) config.now tables.new journal.now.events) line (said_of result) }
    ensures faults { CountsStop (said_of result) (P.state plant.now) (P.state plant.now) }
    ensures host { tables.new.host ≡ tables.old.host }
{
    if let Err(why) = found(config, tables, &devs.dev, l, s) {
        return Err(why);
    }
    match tables.sessions.leave_lss(s, l) {
        Ok(gone) => {
            forget_if(&mut tables.flight, s, gone);
            Ok(Addition::Alone)
        }
        Err(why) => Err(why),
    }
}

/// The server of a logical subsystem appoints an Idle master of the session, which isn't paused, and an epoch begins. Refused
/// where no volume lies in the subsystem, where the session isn't defined, where the server isn't the one that is named, where
/// the subsystem isn't one of the session's, where the server is off, or where the session has a master.
pub fn make_mirror<P: Plant>(
    plant: &P,
    config: &Config,
    tables: &mut Tables,
    journal: &Journal,
    devs: &Devs,
    l: Lss,
    s: SessionId,
) -> Result<Addition, Refusal>
    requires ready { IsReady (P.state plant.now) config.now tables.old journal.now.events }
    requires short { FitsOwner devs.now.dev }
    requires counts { HasCounts (length config.now.names) (flight_in tables.old.flight) }
    ensures step { (line : ℕ) → after_plan (here (P.state plant.now) config.now tables.old journal.now.events) line
        (plans.mirror_plan (here (P.state plant.now) config.now tables.old journal.now.events).control devs.now.dev l.0 s.0)
        ≡ said (here (P.state plant.now) config.now tables.new journal.now.events) line (said_of result) }
    ensures faults { CountsStop (said_of result) (P.state plant.now) (P.state plant.now) }
    ensures host { tables.new.host ≡ tables.old.host }
{
    let owner = match found(config, tables, &devs.dev, l, s) {
        Ok(owner) => owner,
        Err(why) => return Err(why),
    };
    if let Some(why) = outside_refusal(&tables.sessions, l, s) {
        return Err(why);
    }
    if let Some(why) = off_refusal(plant, owner) {
        return Err(why);
    }
    match tables.sessions.make_master(s, owner) {
        Ok(()) => {
            tables.flight.raise(s);
            Ok(Addition::Alone)
        }
        Err(why) => Err(why),
    }
}

/// The session's master is paused, or runs again. Refused where no volume lies in the logical subsystem, where the session
/// isn't defined, where the subsystem's server isn't the one that is named, where it isn't one of the session's, where the
/// session has no master, or where the master's server is off.
pub fn pause_mirror<P: Plant>(
    plant: &P,
    config: &Config,
    tables: &mut Tables,
    journal: &Journal,
    devs: &Devs,
    l: Lss,
    s: SessionId,
    on: bool,
) -> Result<Addition, Refusal>
    requires ready { IsReady (P.state plant.now) config.now tables.old journal.now.events }
    requires sound { Sound (here (P.state plant.now) config.now tables.old journal.now.events) }
    requires short { FitsOwner devs.now.dev }
    ensures step { (line : ℕ) → after_plan (here (P.state plant.now) config.now tables.old journal.now.events) line
        (plans.pause_mirror_plan (here (P.state plant.now) config.now tables.old journal.now.events).control devs.now.dev l.0 s.0 on)
        ≡ said (here (P.state plant.now) config.now tables.new journal.now.events) line (said_of result) }
    ensures faults { CountsStop (said_of result) (P.state plant.now) (P.state plant.now) }
    ensures host { tables.new.host ≡ tables.old.host }
{
    if let Err(why) = found(config, tables, &devs.dev, l, s) {
        return Err(why);
    }
    if let Some(why) = outside_refusal(&tables.sessions, l, s) {
        return Err(why);
    }
    if let Some(why) = master_refusal(plant, &tables.sessions, s) {
        return Err(why);
    }
    match tables.sessions.set_paused(s, on) {
        Ok(()) => Ok(Addition::Alone),
        Err(why) => Err(why),
    }
}

/// The session's Idle master is dismissed. Refused where no volume lies in the logical subsystem, where the session isn't
/// defined, where the subsystem's server isn't the one that is named, where it isn't one of the session's, where the session
/// has no master, where the master's server is off, or where the master isn't Idle.
pub fn remove_mirror<P: Plant>(
    plant: &P,
    config: &Config,
    tables: &mut Tables,
    journal: &Journal,
    devs: &Devs,
    l: Lss,
    s: SessionId,
) -> Result<Addition, Refusal>
    requires ready { IsReady (P.state plant.now) config.now tables.old journal.now.events }
    requires sound { Sound (here (P.state plant.now) config.now tables.old journal.now.events) }
    requires short { FitsOwner devs.now.dev }
    ensures step { (line : ℕ) → after_plan (here (P.state plant.now) config.now tables.old journal.now.events) line
        (plans.unmirror_plan (here (P.state plant.now) config.now tables.old journal.now.events).control devs.now.dev l.0 s.0)
        ≡ said (here (P.state plant.now) config.now tables.new journal.now.events) line (said_of result) }
    ensures faults { CountsStop (said_of result) (P.state plant.now) (P.state plant.now) }
    ensures host { tables.new.host ≡ tables.old.host }
{
    if let Err(why) = found(config, tables, &devs.dev, l, s) {
        return Err(why);
    }
    if let Some(why) = outside_refusal(&tables.sessions, l, s) {
        return Err(why);
    }
    if let Some(why) = master_refusal(plant, &tables.sessions, s) {
        return Err(why);
    }
    match tables.sessions.drop_master(s) {
        Ok(()) => Ok(Addition::Alone),
        Err(why) => Err(why),
    }
}

/// Whether the session's master is Lost.
fn is_lost(sessions: &Sessions, s: SessionId) -> bool
    ensures { result ≡ messages.is_lost (option_map (λ r. r.master.phase) (model.mirror_in (model.session_in sessions.now.sessions s.0))) }
{
    match sessions.master(s) {
        Some(master) => matches!(master.phase(), PhaseName::Lost),
        None => false,
    }
}

/// The session's attempt is given up, and the answer says the phase that its master is in then: where that is Lost, an epoch
/// begins. Refused where the session isn't defined, where it has no master, where the phase can't be aborted, or where the
/// master's server is off.
pub fn abort_attempt<P: Plant>(
    plant: &P,
    config: &Config,
    tables: &mut Tables,
    journal: &Journal,
    s: SessionId,
) -> Result<Addition, Refusal>
    requires ready { IsReady (P.state plant.now) config.now tables.old journal.now.events }
    requires sound { Sound (here (P.state plant.now) config.now tables.old journal.now.events) }
    requires counts { HasCounts (length config.now.names) (flight_in tables.old.flight) }
    ensures step { (line : ℕ) → after_plan (here (P.state plant.now) config.now tables.old journal.now.events) line
        (plans.abort_plan (here (P.state plant.now) config.now tables.old journal.now.events).control s.0)
        ≡ said (here (P.state plant.now) config.now tables.new journal.now.events) line (said_of result) }
    ensures faults { CountsStop (said_of result) (P.state plant.now) (P.state plant.now) }
    ensures host { tables.new.host ≡ tables.old.host }
{
    if !tables.sessions.is_defined(s) {
        return Err(unknown_session());
    }
    if let Some(why) = abort_refusal(&tables.sessions, s) {
        return Err(why);
    }
    if let Some(why) = master_refusal(plant, &tables.sessions, s) {
        return Err(why);
    }
    match tables.sessions.abort(s) {
        Ok(()) => {
            let lost = is_lost(&tables.sessions, s);
            raise_if(&mut tables.flight, s, lost);
            Ok(phase_of(&tables.sessions, s))
        }
        Err(why) => Err(why),
    }
}
