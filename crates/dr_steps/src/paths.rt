//! The steps on paths between logical subsystems.

ghost use Rattle.std.specs.Prelude.{◌≡◌, ℕ, ◌<◌, ◌&&◌, not, nat_eq, false, List, IsSome, IfSome, Some, None, option_map, if◌then◌else◌};
ghost use Rattle.dr_config.specs.Table.{StandsFor, place_of};
ghost use Rattle.dr_steps.specs.declared.tables.Tables.{Tables};
ghost use Rattle.dr_model.specs.declared.event.Event.{Event};
ghost use Rattle.dr_model.specs.Entries.{subsystem, pair_state};
ghost use Rattle.dr_model.specs.Refusals.{server_off};
ghost use Rattle.dr_model.specs.Layout.{is_part};
ghost use Rattle.dr_model.specs.PairEntries as entries;
ghost use Rattle.dr_model.specs.Pairs.{is_suspended};
ghost use Rattle.dr_model.specs.Plans as plans;
ghost use Rattle.dr_model.specs.Runs.{after_plan, said};
ghost use Rattle.dr_moves.specs.Checks.{is_stop};
ghost use Rattle.dr_steps.specs.Faults.{CountsStop};
ghost use Rattle.dr_steps.specs.Here.{said_of, OnAnswer, OnNoMemory, here, IsReady};
ghost use Rattle.dr_steps.specs.Wants.{WantsRow};
ghost use Rattle.dr_steps.specs.WellFormed.{FitsDevs};
ghost use Rattle.dr_model.specs.declared.step.Step.{Step};

use crate::locate::{are_named, unknown_lss, unknown_server};
use crate::tables::Tables;
use dr_config::Config;
use dr_ids::{Fault, Kind, Lss, Refusal, ServerId, VolumeId};
use dr_model::{Addition, Devs, Journal};
use dr_moves::pair_state;
use dr_plant::Plant;
use dr_volume::{Head, peek_head};

/// Defines the path from one logical subsystem to another, or gives it another flag. Refused where no volume lies in one of
/// them, where their servers aren't those that the line names, or are one, or one is off, or where their link is down. Where
/// there is no memory nothing has changed.
pub fn make_path<P: Plant>(
    plant: &P,
    config: &mut Config,
    tables: &Tables,
    journal: &Journal,
    devs: &Devs,
    src: Lss,
    tgt: Lss,
    group: bool,
) -> Result<Addition, Fault>
    requires ready { IsReady (P.state plant.now) config.old tables.now journal.now.events }
    requires short { FitsDevs devs.now }
    ensures step { OnAnswer result (λ a. (line : ℕ) → after_plan (here (P.state plant.now) config.old tables.now journal.now.events) line
        (plans.path_plan (here (P.state plant.now) config.old tables.now journal.now.events).control devs.now src.0 tgt.0 group)
        ≡ said (here (P.state plant.now) config.new tables.now journal.now.events) line a) }
    ensures faults { OnAnswer result (λ a. CountsStop a (P.state plant.now) (P.state plant.now)) }
    ensures wanted { OnNoMemory result (WantsRow (here (P.state plant.now) config.old tables.now journal.now.events) (Step.MakePath devs.now src.0 tgt.0 group)) }
    ensures same { OnNoMemory result (config.new ≡ config.old) }
    ensures ready { IsReady (P.state plant.now) config.new tables.now journal.now.events }
{
    let Some(first) = config.lss_owner(src) else {
        return Err(Fault::Refused(unknown_lss()));
    };
    let Some(second) = config.lss_owner(tgt) else {
        return Err(Fault::Refused(unknown_lss()));
    };
    if !are_named(config, devs, first, second) {
        return Err(Fault::Refused(unknown_server()));
    }
    match config.add_path(plant, src, tgt, group) {
        Ok(()) => Ok(Addition::Alone),
        Err(fault) => Err(fault),
    }
}

/// Whether a volume of this head is a primary in one logical subsystem, with its secondary in the other, and isn't
/// Suspended.
fn is_active(v: VolumeId, h: &Head, src: Lss, tgt: Lss) -> bool
    ensures { result ≡ (nat_eq (subsystem v.0) src.0 && (is_part h.now.primary && (nat_eq (subsystem h.now.primary_partner.0) tgt.0 && not (is_suspended h.now.primary_state)))) }
{
    v.lss().0 == src.0
        && (h.primary.is_part()
            && (h.primary_partner.lss().0 == tgt.0 && !h.primary_state.is_suspended()))
}

/// The first primary in one logical subsystem with its secondary in the other that isn't Suspended.
fn first_active<P: Plant>(plant: &P, config: &Config, src: Lss, tgt: Lss) -> Option<VolumeId>
    requires stands { StandsFor config.now (P.state plant.now) }
    ensures first { (h : Tables) (events : List Event) → option_map (λ v. v.0) result ≡ entries.first_active (here (P.state plant.now) config.now h events).control src.0 tgt.0 }
    ensures defined { IfSome result (λ v. IsSome (place_of config.now v.0)) }
{
    for place in 0..config.volumes() {
        let v = config.volume_at(place).unwrap();
        let head = peek_head(plant, config, v);
        if is_active(v, &head, src, tgt) {
            return Some(v);
        }
    }
    None
}

/// Why a path that is defined, from the first server on, may not be removed: that server is off, or, unless forced, a
/// primary that isn't Suspended copies over it.
fn held_refusal<P: Plant>(
    plant: &P,
    config: &Config,
    first: ServerId,
    src: Lss,
    tgt: Lss,
    force: bool,
) -> Option<Refusal>
    requires stands { StandsFor config.now (P.state plant.now) }
    requires known { first.0 < 8 }
    ensures refusal { (h : Tables) (events : List Event) → result ≡ (if not ((here (P.state plant.now) config.now h events).control.on first.0) then Some (server_off first.0)
        else if force then None
        else option_map (pair_state (here (P.state plant.now) config.now h events).control) (entries.first_active (here (P.state plant.now) config.now h events).control src.0 tgt.0)) }
    ensures calm { is_stop result ≡ false }
{
    if !plant.is_on(first.0) {
        return Some(Refusal::ServerOff { server: first });
    }
    if force {
        return None;
    }
    match first_active(plant, config, src, tgt) {
        Some(v) => Some(pair_state(plant, config, v)),
        None => None,
    }
}

/// Removes the path from one logical subsystem to another. Refused where no volume lies in one of them, where there is no such
/// path, where their servers aren't those that the line names, where that of the source is off, or, unless forced, where a
/// primary in the source with its secondary in the target isn't Suspended.
pub fn remove_path<P: Plant>(
    plant: &P,
    config: &mut Config,
    tables: &Tables,
    journal: &Journal,
    devs: &Devs,
    src: Lss,
    tgt: Lss,
    force: bool,
) -> Result<Addition, Refusal>
    requires ready { IsReady (P.state plant.now) config.old tables.now journal.now.events }
    requires short { FitsDevs devs.now }
    ensures step { (line : ℕ) → after_plan (here (P.state plant.now) config.old tables.now journal.now.events) line
        (plans.unpath_plan (here (P.state plant.now) config.old tables.now journal.now.events).control devs.now src.0 tgt.0 force)
        ≡ said (here (P.state plant.now) config.new tables.now journal.now.events) line (said_of result) }
    ensures faults { CountsStop (said_of result) (P.state plant.now) (P.state plant.now) }
    ensures ready { IsReady (P.state plant.now) config.new tables.now journal.now.events }
{
    let Some(first) = config.lss_owner(src) else {
        return Err(unknown_lss());
    };
    let Some(second) = config.lss_owner(tgt) else {
        return Err(unknown_lss());
    };
    let Some(_) = config.path(src, tgt) else {
        return Err(Refusal::Unknown { kind: Kind::Path });
    };
    if !are_named(config, devs, first, second) {
        return Err(unknown_server());
    }
    if let Some(why) = held_refusal(plant, config, first, src, tgt, force) {
        return Err(why);
    }
    config.remove_path(src, tgt);
    Ok(Addition::Alone)
}
