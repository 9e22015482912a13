//! The steps on the members of a session.

ghost use Rattle.std.specs.Prelude.{◌≡◌, ℕ, ◌≤◌, nat_eq, false, List, Option, Some, IfOk, IfErr};
ghost use Rattle.dr_plant.specs.State.{PlantState};
ghost use Rattle.dr_model.specs.declared.event.Event.{Event};
ghost use Rattle.dr_model.specs.declared.said.Said.TheVariants.{Refused};
ghost use Rattle.dr_model.specs.Entries.{subsystem};
ghost use Rattle.dr_model.specs.Laws.{Sound};
ghost use Rattle.dr_model.specs.Limits.{step_events};
ghost use Rattle.dr_model.specs.PlanParts.{Plan};
ghost use Rattle.dr_model.specs.Runs.{after_plan, said};
ghost use Rattle.dr_model.specs.SessionPlans as plans;
ghost use Rattle.dr_model.specs.Sessions as model;
ghost use Rattle.dr_moves.specs.Checks.{is_stop};
ghost use Rattle.dr_steps.specs.Faults.{CountsStop};
ghost use Rattle.dr_steps.specs.Here.{here, said_of, OnAnswer, OnNoMemory, IsReady};
ghost use Rattle.dr_steps.specs.Members.{AreThere, member_plan};
ghost use Rattle.dr_steps.specs.Wants.{WantsRow};
ghost use Rattle.dr_steps.specs.WellFormed.{FitsOwner};
ghost use Rattle.dr_model.specs.declared.step.Step.{Step};
ghost use Rattle.dr_steps.specs.declared.tables.Tables.{Tables};

use crate::locate::{name_refusal, unknown_lss, unknown_session};
use crate::tables::Tables;
use dr_admin::{enrol, expel};
use dr_config::Config;
use dr_ids::{Fault, Kind, Lss, Refusal, ServerId, SessionId, VolumeId};
use dr_model::{Addition, Devs, Journal, Name};
use dr_plant::Plant;

/// Whether a volume lies in a logical subsystem.
fn lies_in(a: VolumeId, l: Lss) -> bool
    ensures { result ≡ nat_eq (subsystem a.0) l.0 }
{
    a.lss().0 == l.0
}

/// A volume that doesn't lie in a logical subsystem, or the subsystem's server isn't the one that is named.
fn place_refusal(
    config: &Config,
    dev: &Option<Name>,
    owner: ServerId,
    l: Lss,
    a: VolumeId,
) -> Option<Refusal>
    requires short { FitsOwner dev.now }
    ensures refusal { (x : PlantState) (h : Tables) (events : List Event) → result ≡ plans.place_refusal (here x config.now h events).control dev.now owner.0 l.0 a.0 }
    ensures calm { is_stop result ≡ false }
{
    if !lies_in(a, l) {
        return Some(Refusal::Unknown { kind: Kind::Volume });
    }
    name_refusal(config, dev, owner)
}

/// The server of a logical subsystem, for a line on a member. Refused where no volume lies in it, where the member's primary
/// isn't defined, or where the session isn't.
fn found_member(
    config: &Config,
    tables: &Tables,
    l: Lss,
    a: VolumeId,
    s: SessionId,
) -> Result<ServerId, Refusal>
    ensures there { IfOk result (λ o. AreThere config.now tables.now l.0 a.0 s.0 o.0) }
    ensures refused { IfErr result (λ r. (x : PlantState) (events : List Event) (line : ℕ) (plan : ℕ → model.Session → Plan)
        → after_plan (here x config.now tables.now events) line (member_plan (here x config.now tables.now events).control l.0 a.0 s.0 plan) ≡ said (here x config.now tables.now events) line (Refused r)) }
    ensures calm { IfErr result (λ r. is_stop (Some r) ≡ false) }
{
    let Some(owner) = config.lss_owner(l) else {
        return Err(unknown_lss());
    };
    let Some(_) = config.server_of(a) else {
        return Err(Refusal::Unknown { kind: Kind::Volume });
    };
    if !tables.sessions.is_defined(s) {
        return Err(unknown_session());
    }
    Ok(owner)
}

/// A Global Copy primary becomes a member of a session, with its secondary and the target of that. Refused where no volume lies
/// in the logical subsystem, where the volume or the session isn't defined, where the volume doesn't lie in the subsystem, where
/// its server isn't the one that is named, or where the session can't take it. Where there is no memory nothing has changed.
pub fn add_member<P: Plant>(
    plant: &mut P,
    config: &Config,
    tables: &mut Tables,
    journal: &mut Journal,
    devs: &Devs,
    l: Lss,
    a: VolumeId,
    s: SessionId,
) -> Result<Addition, Fault>
    requires ready { IsReady (P.state plant.old) config.now tables.old journal.old.events }
    requires sound { Sound (here (P.state plant.old) config.now tables.old journal.old.events) }
    requires short { FitsOwner devs.now.dev }
    requires room { step_events ≤ journal.old.spare }
    ensures step { OnAnswer result (λ x. (line : ℕ) → after_plan (here (P.state plant.old) config.now tables.old journal.old.events) line
        (plans.add_plan (here (P.state plant.old) config.now tables.old journal.old.events).control devs.now.dev l.0 a.0 s.0)
        ≡ said (here (P.state plant.new) config.now tables.new journal.new.events) line x) }
    ensures faults { OnAnswer result (λ x. CountsStop x (P.state plant.old) (P.state plant.new)) }
    ensures wanted { OnNoMemory result (WantsRow (here (P.state plant.old) config.now tables.old journal.old.events) (Step.AddMember devs.now l.0 a.0 s.0)) }
    ensures same { OnNoMemory result (here (P.state plant.new) config.now tables.new journal.new.events ≡ here (P.state plant.old) config.now tables.old journal.old.events) }
    ensures same_plant { OnNoMemory result (P.state plant.new ≡ P.state plant.old) }
    ensures ready { IsReady (P.state plant.new) config.now tables.new journal.new.events }
    ensures host { tables.new.host ≡ tables.old.host }
    ensures room { 1 ≤ journal.new.spare }
{
    let owner = match found_member(config, tables, l, a, s) {
        Ok(owner) => owner,
        Err(why) => return Err(Fault::Refused(why)),
    };
    if let Some(why) = place_refusal(config, &devs.dev, owner, l, a) {
        return Err(Fault::Refused(why));
    }
    match enrol(plant, config, journal, &mut tables.sessions, l, a, s) {
        Ok(()) => Ok(Addition::Alone),
        Err(fault) => Err(fault),
    }
}

/// A member leaves its session: first its target leaves, and then the list loses it. Refused where no volume lies in the logical
/// subsystem, where the volume or the session isn't defined, where the subsystem's server isn't the one that is named, or where
/// the session can't let it go.
pub fn remove_member<P: Plant>(
    plant: &mut P,
    config: &Config,
    tables: &mut Tables,
    journal: &mut Journal,
    devs: &Devs,
    l: Lss,
    a: VolumeId,
    s: SessionId,
) -> Result<Addition, Refusal>
    requires ready { IsReady (P.state plant.old) config.now tables.old journal.old.events }
    requires sound { Sound (here (P.state plant.old) config.now tables.old journal.old.events) }
    requires short { FitsOwner devs.now.dev }
    requires room { step_events ≤ journal.old.spare }
    ensures step { (line : ℕ) → after_plan (here (P.state plant.old) config.now tables.old journal.old.events) line
        (plans.expel_plan (here (P.state plant.old) config.now tables.old journal.old.events).control devs.now.dev l.0 a.0 s.0)
        ≡ said (here (P.state plant.new) config.now tables.new journal.new.events) line (said_of result) }
    ensures faults { CountsStop (said_of result) (P.state plant.old) (P.state plant.new) }
    ensures ready { IsReady (P.state plant.new) config.now tables.new journal.new.events }
    ensures host { tables.new.host ≡ tables.old.host }
    ensures room { 1 ≤ journal.new.spare }
{
    let owner = match found_member(config, tables, l, a, s) {
        Ok(owner) => owner,
        Err(why) => return Err(why),
    };
    if let Some(why) = name_refusal(config, &devs.dev, owner) {
        return Err(why);
    }
    match expel(plant, config, journal, &mut tables.sessions, a, s) {
        Ok(()) => Ok(Addition::Alone),
        Err(why) => Err(why),
    }
}
