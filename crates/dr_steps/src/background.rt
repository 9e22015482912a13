//! Tracks of a FlashCopy target are copied in the background, or given back; and a staged track is put in its place.

ghost use Rattle.std.specs.Prelude.{◌≡◌, ℕ, ◌+◌, ◌≤◌, Bool, true, not, ◌&&◌, ◌||◌, List, [], ◌∷◌, length, None, Some, IsSome, false, OnErr, is_err, if◌then◌else◌};
ghost use Rattle.std.specs.FinSet.{len};
ghost use Rattle.dr_logic.specs.Counts.{Counted};
ghost use Rattle.dr_ids.specs.Sizes.{most_tracks};
ghost use Rattle.dr_ids.specs.declared.refusal.Refusal.{Refusal};
ghost use Rattle.dr_config.specs.Table.{StandsFor, place_of};
ghost use Rattle.dr_model.specs.Carry.{carry};
ghost use Rattle.dr_model.specs.declared.event.Event.{Event};
ghost use Rattle.dr_model.specs.Entries.{times, fetch_next, give_back, takes_back, pair_state};
ghost use Rattle.dr_model.specs.Lawful.{IsLawful};
ghost use Rattle.dr_model.specs.Layout.{is_part};
ghost use Rattle.dr_model.specs.Laws.{Sound};
ghost use Rattle.dr_model.specs.Limits.{step_events};
ghost use Rattle.dr_model.specs.Pairs.{is_suspended};
ghost use Rattle.dr_model.specs.Plans as plans;
ghost use Rattle.dr_model.specs.Relations as relations;
ghost use Rattle.dr_model.specs.Runs.{after_plan, said};
ghost use Rattle.dr_model.specs.Refusals.{stopped};
ghost use Rattle.dr_volume.specs.Plain.{plain};
ghost use Rattle.dr_volume.specs.View.{volume_seen, ids_of};
ghost use Rattle.dr_steps.specs.declared.tables.Tables.{Tables};
ghost use Rattle.dr_moves.specs.Checks.{is_stop};
ghost use Rattle.dr_moves.specs.Fit.{RelationsFit};
ghost use Rattle.dr_moves.specs.Here.{refusal_of};
ghost use Rattle.dr_steps.specs.Faults.{CountsStop};
ghost use Rattle.dr_steps.specs.Here.{said_of, here, IsReady};

use crate::tables::Tables;
use dr_config::Config;
use dr_flash::{copy_step, relation_state};
use dr_ids::{Kind, Refusal, VolumeId};
use dr_incr::reverse_step;
use dr_model::{Addition, Journal};
use dr_moves::{destage_told, pair_state, rest, tracks_of};
use dr_plant::Plant;
use dr_volume::{Fields, Head, peek_fields, peek_head};

/// Whether a volume with these fields is a target whose tracks may be copied: not revertible, and being restored or made
/// without `-nocp`.
fn may_copy(f: &Fields) -> bool
    ensures { result ≡ (f.now.related && (not f.now.revertible && (f.now.reversing || not f.now.nocopy))) }
{
    f.related && !f.revertible && (f.reversing || !f.nocopy)
}

/// How many tracks of a target of n tracks are left to copy, or to give back.
fn left_to_copy(n: u16, f: &Fields) -> u16
    requires most { n ≤ most_tracks }
    requires lawful { IsLawful n (plain f.now) }
    ensures value { result ≡ (if f.now.reversing then len f.now.own else len (relations.rest n f.now.own)) }
    ensures few { result ≤ most_tracks }
{
    if f.reversing {
        f.own.len()
    } else {
        rest(n, &f.own).len()
    }
}

/// Those that are left, or as many of them as a line asks for.
fn at_most(most: Option<u32>, left: u16) -> u16
    ensures value { result ≡ plans.at_most most left }
    ensures few { result ≤ left }
{
    match most {
        Some(most) if most < u32::from(left) => most as u16,
        _ => left,
    }
}

/// Copies so many tracks of a target, lowest first.
fn fetch_tracks<P: Plant>(
    plant: &mut P,
    config: &Config,
    tables: &Tables,
    journal: &mut Journal,
    t: VolumeId,
    count: u16,
) -> Result<(), Refusal>
    requires ready { IsReady (P.state plant.old) config.now tables.now journal.old.events }
    requires fit { RelationsFit (P.state plant.old) config.now }
    requires defined { IsSome (place_of config.now t.0) }
    requires running { (P.state plant.old).on (volume_seen (P.state plant.old) config.now t.0).server ≡ true }
    requires room { count + 3 ≤ journal.old.spare }
    ensures carried { carry (here (P.state plant.old) config.now tables.now journal.old.events) (times count (fetch_next t.0 ∷ []))
        ≡ (here (P.state plant.new) config.now tables.now journal.new.events, refusal_of result) }
    ensures refused { OnErr result (refusal_of result ≡ Some (stopped (volume_seen (P.state plant.old) config.now t.0).server)) }
    ensures faults { Counted (is_err result) (P.state plant.old).faults (P.state plant.new).faults }
    ensures ready { IsReady (P.state plant.new) config.now tables.now journal.new.events }
    ensures room { 1 ≤ journal.new.spare }
{
    for _ in 0..count {
        copy_step(plant, config, journal, t)?;
    }
    Ok(())
}

/// Gives so many tracks of a target back to its source, lowest first.
fn restore_tracks<P: Plant>(
    plant: &mut P,
    config: &Config,
    tables: &Tables,
    journal: &mut Journal,
    t: VolumeId,
    count: u16,
) -> Result<(), Refusal>
    requires ready { IsReady (P.state plant.old) config.now tables.now journal.old.events }
    requires sound { Sound (here (P.state plant.old) config.now tables.now journal.old.events) }
    requires defined { IsSome (place_of config.now t.0) }
    requires running { (P.state plant.old).on (volume_seen (P.state plant.old) config.now t.0).server ≡ true }
    requires reversing { (volume_seen (P.state plant.old) config.now t.0).fields.reversing ≡ true }
    requires few { length config.now.volumes ≤ 64 }
    requires count { count ≤ most_tracks }
    requires room { step_events ≤ journal.old.spare }
    ensures carried { carry (here (P.state plant.old) config.now tables.now journal.old.events)
        (times count (give_back (ids_of config.now.volumes) (volume_seen (P.state plant.old) config.now t.0).fields.source t.0))
        ≡ (here (P.state plant.new) config.now tables.now journal.new.events, refusal_of result) }
    ensures refused { OnErr result (refusal_of result ≡ Some (stopped (volume_seen (P.state plant.old) config.now t.0).server)) }
    ensures faults { Counted (is_err result) (P.state plant.old).faults (P.state plant.new).faults }
    ensures ready { IsReady (P.state plant.new) config.now tables.now journal.new.events }
    ensures room { 1 ≤ journal.new.spare }
{
    for _ in 0..count {
        reverse_step(plant, config, journal, t)?;
    }
    Ok(())
}

/// What is done for so many tracks of a target: one that is restored gives them back, another takes them.
fn copy_tracks<P: Plant>(
    plant: &mut P,
    config: &Config,
    tables: &Tables,
    journal: &mut Journal,
    t: VolumeId,
    reversing: bool,
    count: u16,
) -> Result<(), Refusal>
    requires ready { IsReady (P.state plant.old) config.now tables.now journal.old.events }
    requires sound { Sound (here (P.state plant.old) config.now tables.now journal.old.events) }
    requires defined { IsSome (place_of config.now t.0) }
    requires running { (P.state plant.old).on (volume_seen (P.state plant.old) config.now t.0).server ≡ true }
    requires reversing { reversing ≡ (volume_seen (P.state plant.old) config.now t.0).fields.reversing }
    requires few { length config.now.volumes ≤ 64 }
    requires count { count ≤ most_tracks }
    requires room { step_events ≤ journal.old.spare }
    ensures carried { carry (here (P.state plant.old) config.now tables.now journal.old.events)
        (times count (plans.copy_one (here (P.state plant.old) config.now tables.now journal.old.events).control t.0))
        ≡ (here (P.state plant.new) config.now tables.now journal.new.events, refusal_of result) }
    ensures refused { OnErr result (refusal_of result ≡ Some (stopped (volume_seen (P.state plant.old) config.now t.0).server)) }
    ensures faults { Counted (is_err result) (P.state plant.old).faults (P.state plant.new).faults }
    ensures ready { IsReady (P.state plant.new) config.now tables.now journal.new.events }
    ensures room { 1 ≤ journal.new.spare }
{
    if reversing {
        restore_tracks(plant, config, tables, journal, t, count)
    } else {
        fetch_tracks(plant, config, tables, journal, t, count)
    }
}

/// Whether a source with this head takes what its target copies, which may be restored onto it: it does unless it is a
/// primary that isn't Suspended.
fn may_take(reversing: bool, source: &Head) -> bool
    ensures { result ≡ (not reversing || (not (is_part source.now.primary) || is_suspended source.now.primary_state)) }
{
    !reversing || (!source.primary.is_part() || source.primary_state.is_suspended())
}

/// Why a target with these fields can't give tracks back, if it is being restored: its source is a primary that isn't
/// Suspended.
fn source_refusal<P: Plant>(plant: &P, config: &Config, f: &Fields) -> Option<Refusal>
    requires stands { StandsFor config.now (P.state plant.now) }
    requires source { IsSome (place_of config.now f.now.source.0) }
    ensures refusal { (h : Tables) (events : List Event) → result ≡ (if not f.now.reversing || takes_back f.now.source.0 (here (P.state plant.now) config.now h events).control then None
        else Some (pair_state (here (P.state plant.now) config.now h events).control f.now.source.0)) }
    ensures calm { is_stop result ≡ false }
{
    if may_take(f.reversing, &peek_head(plant, config, f.source)) {
        return None;
    }
    Some(pair_state(plant, config, f.source))
}

/// Copies tracks of a FlashCopy target whose server is on, as many as are left, or as many of them as a line asks for. One
/// that is restored gives them back to its source.
pub fn copy<P: Plant>(
    plant: &mut P,
    config: &Config,
    tables: &Tables,
    journal: &mut Journal,
    t: VolumeId,
    most: Option<u32>,
) -> Result<Addition, Refusal>
    requires ready { IsReady (P.state plant.old) config.now tables.now journal.old.events }
    requires sound { Sound (here (P.state plant.old) config.now tables.now journal.old.events) }
    requires few { length config.now.volumes ≤ 64 }
    requires room { step_events ≤ journal.old.spare }
    ensures step { (line : ℕ) → after_plan (here (P.state plant.old) config.now tables.now journal.old.events) line
        (plans.copy_plan (here (P.state plant.old) config.now tables.now journal.old.events).control t.0 most)
        ≡ said (here (P.state plant.new) config.now tables.now journal.new.events) line (said_of result) }
    ensures faults { CountsStop (said_of result) (P.state plant.old) (P.state plant.new) }
    ensures ready { IsReady (P.state plant.new) config.now tables.now journal.new.events }
    ensures room { 1 ≤ journal.new.spare }
{
    let Some(server) = config.server_of(t) else {
        return Err(Refusal::Unknown { kind: Kind::Volume });
    };
    if !plant.is_on(server.0) {
        return Err(Refusal::ServerOff { server });
    }
    let fields = peek_fields(plant, config, t);
    if !may_copy(&fields) {
        return Err(relation_state(plant, config, t));
    }
    if let Some(why) = source_refusal(plant, config, &fields) {
        return Err(why);
    }
    let count = at_most(most, left_to_copy(tracks_of(config, t), &fields));
    match copy_tracks(plant, config, tables, journal, t, fields.reversing, count) {
        Ok(()) => Ok(Addition::Counted {
            tracks: u32::from(count),
        }),
        Err(refusal) => Err(refusal),
    }
}

/// Puts the staged track of a volume whose server is on in its place, where one is staged, so that none is then. The answer says how
/// many were.
pub fn destage_volume<P: Plant>(
    plant: &mut P,
    config: &Config,
    tables: &Tables,
    journal: &mut Journal,
    v: VolumeId,
) -> Result<Addition, Refusal>
    requires ready { IsReady (P.state plant.old) config.now tables.now journal.old.events }
    requires sound { Sound (here (P.state plant.old) config.now tables.now journal.old.events) }
    requires room { 2 ≤ journal.old.spare }
    ensures step { (line : ℕ) → after_plan (here (P.state plant.old) config.now tables.now journal.old.events) line
        (plans.destage_plan (here (P.state plant.old) config.now tables.now journal.old.events).control v.0)
        ≡ said (here (P.state plant.new) config.now tables.now journal.new.events) line (said_of result) }
    ensures faults { CountsStop (said_of result) (P.state plant.old) (P.state plant.new) }
    ensures ready { IsReady (P.state plant.new) config.now tables.now journal.new.events }
    ensures room { 1 ≤ journal.new.spare }
{
    let Some(server) = config.server_of(v) else {
        return Err(Refusal::Unknown { kind: Kind::Volume });
    };
    if !plant.is_on(server.0) {
        return Err(Refusal::ServerOff { server });
    }
    match destage_told(plant, config, journal, v) {
        Ok(there) => Ok(Addition::Counted {
            tracks: u32::from(there),
        }),
        Err(refusal) => Err(refusal),
    }
}
