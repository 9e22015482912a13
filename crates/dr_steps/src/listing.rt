//! The steps that list pairs, relationships, members and masters. No server need be on.

ghost use Rattle.std.specs.Prelude.{◌≡◌, ℕ, ◌≤◌, false, length, IsSome, List};
ghost use Rattle.dr_plant.specs.State.{PlantState};
ghost use Rattle.dr_config.specs.Table.{place_of};
ghost use Rattle.dr_model.specs.Laws.{Sound};
ghost use Rattle.dr_model.specs.Listings as plans;
ghost use Rattle.dr_model.specs.PlanParts.{on_owner, owner_of, unless};
ghost use Rattle.dr_model.specs.Runs.{after_plan, said};
ghost use Rattle.dr_model.specs.SessionPlans as sessions;
ghost use Rattle.dr_model.specs.declared.event.Event.{Event};
ghost use Rattle.dr_moves.specs.Checks.{OnNone, is_stop};
ghost use Rattle.dr_steps.specs.Faults.{CountsStop};
ghost use Rattle.dr_steps.specs.Here.{here, said_of, IsReady};
ghost use Rattle.dr_steps.specs.WellFormed.{FitsOwner};
ghost use Rattle.dr_steps.specs.declared.tables.Tables.{Tables};

use crate::locate::{name_refusal, unknown_lss};
use crate::tables::Tables;
use dr_config::Config;
use dr_ids::{Kind, Lss, Refusal, VolumeId};
use dr_listing::{flashes, mirrors, pairs, sessions};
use dr_model::{Addition, Journal, Name};
use dr_plant::Plant;

/// Why a listing doesn't find its volume: it isn't defined, or isn't on the server that is named.
fn volume_refusal(config: &Config, dev: &Option<Name>, v: VolumeId) -> Option<Refusal>
    requires short { FitsOwner dev.now }
    ensures refusal { (x : PlantState) (h : Tables) (events : List Event) → result ≡ plans.listing_refusal (here x config.now h events).control dev.now v.0 }
    ensures defined { OnNone result (IsSome (place_of config.now v.0)) }
    ensures calm { is_stop result ≡ false }
{
    let Some(server) = config.server_of(v) else {
        return Some(Refusal::Unknown { kind: Kind::Volume });
    };
    name_refusal(config, dev, server)
}

/// Why a listing doesn't find its logical subsystem: no volume lies in it, or its server isn't the one that is named.
fn subsystem_refusal(config: &Config, dev: &Option<Name>, l: Lss) -> Option<Refusal>
    requires short { FitsOwner dev.now }
    ensures plan { (x : PlantState) (h : Tables) (events told : List Event) (line : ℕ)
        → after_plan (here x config.now h events) line (on_owner (owner_of (here x config.now h events).control l.0) (λ owner. unless (sessions.name_refusal (here x config.now h events).control dev.now owner) (plans.lists told)))
        ≡ after_plan (here x config.now h events) line (unless result (plans.lists told)) }
    ensures calm { is_stop result ≡ false }
{
    let Some(owner) = config.lss_owner(l) else {
        return Some(unknown_lss());
    };
    name_refusal(config, dev, owner)
}

/// Lists the parts of a volume in pairs. Refused where it isn't defined, or isn't on the server that is named.
pub fn list_pairs<P: Plant>(
    plant: &P,
    config: &Config,
    tables: &Tables,
    journal: &mut Journal,
    line: u32,
    dev: &Option<Name>,
    v: VolumeId,
) -> Result<Addition, Refusal>
    requires ready { IsReady (P.state plant.now) config.now tables.now journal.old.events }
    requires short { FitsOwner dev.now }
    requires room { 512 ≤ journal.old.spare }
    ensures step { after_plan (here (P.state plant.now) config.now tables.now journal.old.events) line
        (plans.list_pairs_plan (here (P.state plant.now) config.now tables.now journal.old.events).control line dev.now v.0)
        ≡ said (here (P.state plant.now) config.now tables.now journal.new.events) line (said_of result) }
    ensures faults { CountsStop (said_of result) (P.state plant.now) (P.state plant.now) }
    ensures ready { IsReady (P.state plant.now) config.now tables.now journal.new.events }
    ensures room { 1 ≤ journal.new.spare }
{
    if let Some(why) = volume_refusal(config, dev, v) {
        return Err(why);
    }
    pairs(plant, config, v, line, journal);
    Ok(Addition::Alone)
}

/// Lists the relationships that a volume is in. Refused where it isn't defined, or isn't on the server that is named.
pub fn list_flashes<P: Plant>(
    plant: &P,
    config: &Config,
    tables: &Tables,
    journal: &mut Journal,
    line: u32,
    dev: &Option<Name>,
    v: VolumeId,
) -> Result<Addition, Refusal>
    requires ready { IsReady (P.state plant.now) config.now tables.now journal.old.events }
    requires short { FitsOwner dev.now }
    requires few { length config.now.volumes ≤ 64 }
    requires room { 512 ≤ journal.old.spare }
    ensures step { after_plan (here (P.state plant.now) config.now tables.now journal.old.events) line
        (plans.list_flashes_plan (here (P.state plant.now) config.now tables.now journal.old.events).control line dev.now v.0)
        ≡ said (here (P.state plant.now) config.now tables.now journal.new.events) line (said_of result) }
    ensures faults { CountsStop (said_of result) (P.state plant.now) (P.state plant.now) }
    ensures ready { IsReady (P.state plant.now) config.now tables.now journal.new.events }
    ensures room { 1 ≤ journal.new.spare }
{
    if let Some(why) = volume_refusal(config, dev, v) {
        return Err(why);
    }
    flashes(plant, config, v, line, journal);
    Ok(Addition::Alone)
}

/// Lists the members whose primaries lie in a logical subsystem. Refused where no volume lies in it, or its server isn't the one
/// that is named.
pub fn list_session<P: Plant>(
    plant: &P,
    config: &Config,
    tables: &Tables,
    journal: &mut Journal,
    line: u32,
    dev: &Option<Name>,
    l: Lss,
) -> Result<Addition, Refusal>
    requires ready { IsReady (P.state plant.now) config.now tables.now journal.old.events }
    requires sound { Sound (here (P.state plant.now) config.now tables.now journal.old.events) }
    requires short { FitsOwner dev.now }
    requires few { length config.now.volumes ≤ 64 }
    requires room { 512 ≤ journal.old.spare }
    ensures step { after_plan (here (P.state plant.now) config.now tables.now journal.old.events) line
        (plans.list_session_plan (here (P.state plant.now) config.now tables.now journal.old.events).control line dev.now l.0)
        ≡ said (here (P.state plant.now) config.now tables.now journal.new.events) line (said_of result) }
    ensures faults { CountsStop (said_of result) (P.state plant.now) (P.state plant.now) }
    ensures ready { IsReady (P.state plant.now) config.now tables.now journal.new.events }
    ensures room { 1 ≤ journal.new.spare }
{
    if let Some(why) = subsystem_refusal(config, dev, l) {
        return Err(why);
    }
    sessions(plant, config, &tables.sessions, l, line, journal);
    Ok(Addition::Alone)
}

/// Lists the masters of the sessions that have a logical subsystem. Refused where no volume lies in it, or its server isn't the one
/// that is named.
pub fn show_mirror<P: Plant>(
    plant: &P,
    config: &Config,
    tables: &Tables,
    journal: &mut Journal,
    line: u32,
    dev: &Option<Name>,
    l: Lss,
) -> Result<Addition, Refusal>
    requires ready { IsReady (P.state plant.now) config.now tables.now journal.old.events }
    requires sound { Sound (here (P.state plant.now) config.now tables.now journal.old.events) }
    requires short { FitsOwner dev.now }
    requires room { 512 ≤ journal.old.spare }
    ensures step { after_plan (here (P.state plant.now) config.now tables.now journal.old.events) line
        (plans.show_mirror_plan (here (P.state plant.now) config.now tables.now journal.old.events).control line dev.now l.0)
        ≡ said (here (P.state plant.now) config.now tables.now journal.new.events) line (said_of result) }
    ensures faults { CountsStop (said_of result) (P.state plant.now) (P.state plant.now) }
    ensures ready { IsReady (P.state plant.now) config.now tables.now journal.new.events }
    ensures room { 1 ≤ journal.new.spare }
{
    if let Some(why) = subsystem_refusal(config, dev, l) {
        return Err(why);
    }
    mirrors(&tables.sessions, l, line, journal);
    Ok(Addition::Alone)
}
