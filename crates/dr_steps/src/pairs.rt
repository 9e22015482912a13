//! The steps on pairs of volumes.

ghost use Rattle.std.specs.Prelude.{◌≡◌, ℕ, ◌+◌, ◌≤◌, ◌&&◌, ◌++◌, ◌∷◌, [], true, false, IsSome, IfOk, None, List, length, if◌then◌else◌};
ghost use Rattle.dr_logic.specs.Counts.{Counted};
ghost use Rattle.dr_plant.specs.State.{PlantState};
ghost use Rattle.dr_config.specs.Table.{ConfigTable, place_of};
ghost use Rattle.dr_model.specs.declared.event.Event.{Event};
ghost use Rattle.dr_model.specs.declared.state.Part.TheVariants.{Global};
ghost use Rattle.dr_model.specs.Laws.{Sound};
ghost use Rattle.dr_model.specs.Layout as part;
ghost use Rattle.dr_model.specs.Limits.{step_events};
ghost use Rattle.dr_model.specs.PairEntries.{refuse_if, make_entries, first_differing, drain_stretches, tracks_to_send};
ghost use Rattle.dr_model.specs.Pairs as pairs;
ghost use Rattle.dr_model.specs.Plans as plans;
ghost use Rattle.dr_model.specs.ReadStops.{Ends};
ghost use Rattle.dr_model.specs.Runs.{after_plan, said};
ghost use Rattle.dr_volume.specs.Head.{head_of};
ghost use Rattle.dr_volume.specs.View.{Rest, volume_seen, track_seen};
ghost use Rattle.dr_gcopy.specs.Both.{IsOn};
ghost use Rattle.dr_gcopy.specs.Kinds.{part_of};
ghost use Rattle.dr_moves.specs.Checks.{Checked, OnNone, is_stop};
ghost use Rattle.dr_moves.specs.Fit.{RelationsFit};
ghost use Rattle.dr_moves.specs.Followed.{EndsIn};
ghost use Rattle.dr_moves.specs.Here.{world_seen, refusal_of, armed_in, IsAtRest};
ghost use Rattle.dr_moves.specs.Made.{IsPrimary};
ghost use Rattle.dr_steps.specs.Faults.{CountsStop};
ghost use Rattle.dr_steps.specs.Here.{said_of, here, IsReady, Carries};
ghost use Rattle.dr_steps.specs.WellFormed.{FitsDevs};

use crate::locate::found_volumes;
use crate::tables::Tables;
use dr_cascade::{drain_fed, make_cascade};
use dr_config::Config;
use dr_gcopy::{CopyKind, pause, resume};
use dr_host::Host;
use dr_ids::{Kind, Refusal, VolumeId};
use dr_model::{Addition, Devs, Journal, PairChoices};
use dr_moves::{is_cascaded, pair_state, server_of};
use dr_plant::Plant;
use dr_volume::{Head, peek_head};

/// One of two volumes is the primary of a member, whose session is named.
fn member_refusal(tables: &Tables, a: VolumeId, b: VolumeId) -> Option<Refusal>
    ensures refusal { (x : PlantState) (t : ConfigTable) (events : List Event) → result ≡ plans.member_refusal a.0 b.0 (here x t tables.now events).control }
    ensures calm { is_stop result ≡ false }
{
    if let Some(session) = tables.sessions.session_of(a) {
        return Some(Refusal::InSession { session });
    }
    match tables.sessions.session_of(b) {
        Some(session) => Some(Refusal::InSession { session }),
        None => None,
    }
}

/// Why a line that ends a pair doesn't find its volumes, or may not end it: one of them is the primary of a member.
fn found_free(
    config: &Config,
    tables: &Tables,
    devs: &Devs,
    a: VolumeId,
    b: VolumeId,
) -> Option<Refusal>
    requires { FitsDevs devs.now }
    ensures checked { (x : PlantState) (events : List Event) → Checked (here x config.now tables.now events) (plans.found_volumes devs.now a.0 b.0 ++ refuse_if (plans.member_refusal a.0 b.0) ∷ []) result }
    ensures calm { is_stop result ≡ false }
    ensures first { OnNone result (IsSome (place_of config.now a.0)) }
    ensures second { OnNone result (IsSome (place_of config.now b.0)) }
{
    if let Some(why) = found_volumes(config, devs, a, b) {
        return Some(why);
    }
    member_refusal(tables, a, b)
}

/// The number of Metro Mirror in a step.
const METRO_MIRROR: u8 = 1;

/// The kind of pair that a step names: Global Copy, where it isn't Metro Mirror.
pub(crate) fn kind_of(kind: u8) -> CopyKind
    ensures { part_of result ≡ part.kind_of kind }
{
    if kind == METRO_MIRROR {
        CopyKind::Metro
    } else {
        CopyKind::Global
    }
}

/// Whether a pair of this kind makes its primary a cascaded volume: that of a Global Copy, if the line asks for it.
fn cascades(kind: u8, choices: PairChoices) -> bool
    ensures { result ≡ plans.cascades (part.kind_of kind) choices }
{
    kind != METRO_MIRROR && choices.cascade
}

/// A volume is the secondary or the target of a member, whose session is named.
fn cascade_refusal(tables: &Tables, a: VolumeId) -> Option<Refusal>
    ensures refusal { (x : PlantState) (t : ConfigTable) (events : List Event) → result ≡ plans.cascade_refusal a.0 (here x t tables.now events).control }
    ensures calm { is_stop result ≡ false }
{
    match tables.sessions.session_with_copy(a) {
        Some(session) => Some(Refusal::InSession { session }),
        None => None,
    }
}

/// Why a line that makes a pair doesn't find its volumes, or may not make a cascaded volume of the first: it is the secondary or the target of a member.
fn found_apart(
    config: &Config,
    tables: &Tables,
    devs: &Devs,
    a: VolumeId,
    b: VolumeId,
    cascade: bool,
) -> Option<Refusal>
    requires { FitsDevs devs.now }
    ensures checked { (x : PlantState) (events : List Event) → Checked (here x config.now tables.now events) (plans.found_volumes devs.now a.0 b.0 ++ (if cascade then refuse_if (plans.cascade_refusal a.0) ∷ [] else [])) result }
    ensures calm { is_stop result ≡ false }
    ensures first { OnNone result (IsSome (place_of config.now a.0)) }
    ensures second { OnNone result (IsSome (place_of config.now b.0)) }
{
    if let Some(why) = found_volumes(config, devs, a, b) {
        return Some(why);
    }
    if cascade {
        return cascade_refusal(tables, a);
    }
    None
}

/// Makes a pair of two volumes that were found, by the call for its kind.
fn make_by<P: Plant>(
    plant: &mut P,
    config: &Config,
    journal: &mut Journal,
    a: VolumeId,
    b: VolumeId,
    kind: CopyKind,
    cascade: bool,
    full: bool,
) -> Result<(), Refusal>
    requires rest { IsAtRest (P.state plant.old) config.now }
    requires fit { RelationsFit (P.state plant.old) config.now }
    requires primary { IsSome (place_of config.now a.0) }
    requires secondary { IsSome (place_of config.now b.0) }
    requires only { cascade ≡ true → part_of kind ≡ Global }
    requires room { 3 ≤ journal.old.spare }
    ensures carried { (r : Rest) → Ends (armed_in (P.state plant.old)) (world_seen (P.state plant.new) config.now r journal.new.events) (refusal_of result) (world_seen (P.state plant.old) config.now r journal.old.events)
        (make_entries (world_seen (P.state plant.old) config.now r journal.old.events).control a.0 b.0 (part_of kind) cascade full (if full then None else first_differing (track_seen (P.state plant.old) config.now) (volume_seen (P.state plant.old) config.now a.0).tracks a.0 b.0)) }
    ensures rest { IsAtRest (P.state plant.new) config.now }
    ensures unarmed { (q : ℕ) → (P.state plant.old).read_fuse q ≡ None → (P.state plant.new).read_fuse q ≡ None }
    ensures faults { Counted (is_stop (refusal_of result)) (P.state plant.old).faults (P.state plant.new).faults }
    ensures room { journal.old.spare ≤ journal.new.spare + 3 }
{
    if cascade {
        return make_cascade(plant, config, journal, a, b, full);
    }
    dr_gcopy::make_pair(plant, config, journal, a, b, kind, full)
}

/// Makes a pair of two volumes on two servers; a cascaded primary is the secondary of another pair, too. Refused if that one is the secondary or
/// the target of a member of a session.
pub fn make_pair<P: Plant>(
    plant: &mut P,
    config: &Config,
    tables: &Tables,
    journal: &mut Journal,
    devs: &Devs,
    a: VolumeId,
    b: VolumeId,
    kind: u8,
    choices: PairChoices,
) -> Result<Addition, Refusal>
    requires ready { IsReady (P.state plant.old) config.now tables.now journal.old.events }
    requires sound { Sound (here (P.state plant.old) config.now tables.now journal.old.events) }
    requires short { FitsDevs devs.now }
    requires room { 512 ≤ journal.old.spare }
    ensures step { (line : ℕ) → after_plan (here (P.state plant.old) config.now tables.now journal.old.events) line
        (plans.make_pair_plan (here (P.state plant.old) config.now tables.now journal.old.events).control journal.old.events devs.now a.0 b.0 (part.kind_of kind) choices)
        ≡ said (here (P.state plant.new) config.now tables.now journal.new.events) line (said_of result) }
    ensures faults { CountsStop (said_of result) (P.state plant.old) (P.state plant.new) }
    ensures ready { IsReady (P.state plant.new) config.now tables.now journal.new.events }
    ensures room { 1 ≤ journal.new.spare }
{
    let cascade = cascades(kind, choices);
    if let Some(why) = found_apart(config, tables, devs, a, b, cascade) {
        return Err(why);
    }
    match make_by(
        plant,
        config,
        journal,
        a,
        b,
        kind_of(kind),
        cascade,
        choices.full,
    ) {
        Ok(()) => Ok(Addition::Alone),
        Err(refusal) => Err(refusal),
    }
}

/// Ends a pair, or the part of its primary alone. Refused where one of the volumes is the primary of a member of a session.
pub fn remove_pair<P: Plant>(
    plant: &mut P,
    config: &Config,
    tables: &Tables,
    journal: &mut Journal,
    devs: &Devs,
    a: VolumeId,
    b: VolumeId,
    source_only: bool,
) -> Result<Addition, Refusal>
    requires ready { IsReady (P.state plant.old) config.now tables.now journal.old.events }
    requires sound { Sound (here (P.state plant.old) config.now tables.now journal.old.events) }
    requires short { FitsDevs devs.now }
    requires room { 512 ≤ journal.old.spare }
    ensures step { (line : ℕ) → after_plan (here (P.state plant.old) config.now tables.now journal.old.events) line
        (plans.remove_pair_plan (here (P.state plant.old) config.now tables.now journal.old.events).control devs.now a.0 b.0 source_only)
        ≡ said (here (P.state plant.new) config.now tables.now journal.new.events) line (said_of result) }
    ensures faults { CountsStop (said_of result) (P.state plant.old) (P.state plant.new) }
    ensures ready { IsReady (P.state plant.new) config.now tables.now journal.new.events }
    ensures room { 1 ≤ journal.new.spare }
{
    if let Some(why) = found_free(config, tables, devs, a, b) {
        return Err(why);
    }
    match dr_gcopy::remove_pair(plant, config, journal, a, b, source_only) {
        Ok(()) => Ok(Addition::Alone),
        Err(refusal) => Err(refusal),
    }
}

/// Suspends a pair.
pub fn pause_pair<P: Plant>(
    plant: &mut P,
    config: &Config,
    tables: &Tables,
    journal: &mut Journal,
    devs: &Devs,
    a: VolumeId,
    b: VolumeId,
) -> Result<Addition, Refusal>
    requires ready { IsReady (P.state plant.old) config.now tables.now journal.old.events }
    requires sound { Sound (here (P.state plant.old) config.now tables.now journal.old.events) }
    requires short { FitsDevs devs.now }
    requires room { 512 ≤ journal.old.spare }
    ensures step { (line : ℕ) → after_plan (here (P.state plant.old) config.now tables.now journal.old.events) line
        (plans.pause_pair_plan (here (P.state plant.old) config.now tables.now journal.old.events).control devs.now a.0 b.0)
        ≡ said (here (P.state plant.new) config.now tables.now journal.new.events) line (said_of result) }
    ensures faults { CountsStop (said_of result) (P.state plant.old) (P.state plant.new) }
    ensures ready { IsReady (P.state plant.new) config.now tables.now journal.new.events }
    ensures room { 1 ≤ journal.new.spare }
{
    if let Some(why) = found_volumes(config, devs, a, b) {
        return Err(why);
    }
    match pause(plant, config, journal, a, b) {
        Ok(()) => Ok(Addition::Alone),
        Err(refusal) => Err(refusal),
    }
}

/// Resumes a Suspended pair.
pub fn resume_pair<P: Plant>(
    plant: &mut P,
    config: &Config,
    tables: &Tables,
    journal: &mut Journal,
    devs: &Devs,
    a: VolumeId,
    b: VolumeId,
    kind: u8,
) -> Result<Addition, Refusal>
    requires ready { IsReady (P.state plant.old) config.now tables.now journal.old.events }
    requires sound { Sound (here (P.state plant.old) config.now tables.now journal.old.events) }
    requires short { FitsDevs devs.now }
    requires room { 512 ≤ journal.old.spare }
    ensures step { (line : ℕ) → after_plan (here (P.state plant.old) config.now tables.now journal.old.events) line
        (plans.resume_pair_plan (here (P.state plant.old) config.now tables.now journal.old.events).control devs.now a.0 b.0 (part.kind_of kind))
        ≡ said (here (P.state plant.new) config.now tables.now journal.new.events) line (said_of result) }
    ensures faults { CountsStop (said_of result) (P.state plant.old) (P.state plant.new) }
    ensures ready { IsReady (P.state plant.new) config.now tables.now journal.new.events }
    ensures room { 1 ≤ journal.new.spare }
{
    if let Some(why) = found_volumes(config, devs, a, b) {
        return Err(why);
    }
    match resume(plant, config, journal, a, b, kind_of(kind)) {
        Ok(()) => Ok(Addition::Alone),
        Err(refusal) => Err(refusal),
    }
}

/// Whether a volume with this head is a primary in Copy Pending.
pub fn is_copying(f: &Head) -> bool
    ensures { result ≡ (part.is_part f.now.primary && pairs.is_pending f.now.primary_state) }
{
    f.primary.is_part() && f.primary_state.is_pending()
}

/// Sends the tracks of a primary in Copy Pending that are out of sync, lowest first, or as many of them as a line asks for.
/// Where the server of its secondary stops in that, the primary is suspended.
pub fn drain<P: Plant>(
    plant: &mut P,
    config: &Config,
    tables: &Tables,
    journal: &mut Journal,
    a: VolumeId,
    most: Option<u32>,
) -> Result<Addition, Refusal>
    requires ready { IsReady (P.state plant.old) config.now tables.now journal.old.events }
    requires sound { Sound (here (P.state plant.old) config.now tables.now journal.old.events) }
    requires few { length config.now.volumes ≤ 64 }
    requires room { step_events ≤ journal.old.spare }
    ensures step { Carries (here (P.state plant.old) config.now tables.now journal.old.events)
        (plans.drain_plan (here (P.state plant.old) config.now tables.now journal.old.events).control a.0 most)
        (here (P.state plant.new) config.now tables.now journal.new.events) (said_of result) }
    ensures faults { CountsStop (said_of result) (P.state plant.old) (P.state plant.new) }
    ensures ready { IsReady (P.state plant.new) config.now tables.now journal.new.events }
    ensures room { 1 ≤ journal.new.spare }
    ensures spare { length journal.new.events + journal.new.spare ≡ length journal.old.events + journal.old.spare }
{
    let Some(_server) = config.server_of(a) else {
        return Err(Refusal::Unknown { kind: Kind::Volume });
    };
    let head = peek_head(plant, config, a);
    drain_by(plant, config, tables, journal, a, most, &head)
}

/// The same of a volume whose record has this head, so that it isn't looked at again.
pub fn drain_by<P: Plant>(
    plant: &mut P,
    config: &Config,
    tables: &Tables,
    journal: &mut Journal,
    a: VolumeId,
    most: Option<u32>,
    head: &Head,
) -> Result<Addition, Refusal>
    requires ready { IsReady (P.state plant.old) config.now tables.now journal.old.events }
    requires sound { Sound (here (P.state plant.old) config.now tables.now journal.old.events) }
    requires head { head.now ≡ head_of (volume_seen (P.state plant.old) config.now a.0).fields }
    requires few { length config.now.volumes ≤ 64 }
    requires room { step_events ≤ journal.old.spare }
    ensures step { Carries (here (P.state plant.old) config.now tables.now journal.old.events)
        (plans.drain_plan (here (P.state plant.old) config.now tables.now journal.old.events).control a.0 most)
        (here (P.state plant.new) config.now tables.now journal.new.events) (said_of result) }
    ensures faults { CountsStop (said_of result) (P.state plant.old) (P.state plant.new) }
    ensures ready { IsReady (P.state plant.new) config.now tables.now journal.new.events }
    ensures room { 1 ≤ journal.new.spare }
    ensures spare { length journal.new.events + journal.new.spare ≡ length journal.old.events + journal.old.spare }
{
    let Some(server) = config.server_of(a) else {
        return Err(Refusal::Unknown { kind: Kind::Volume });
    };
    if !plant.is_on(server.0) {
        return Err(Refusal::ServerOff { server });
    }
    if !is_copying(head) {
        return Err(pair_state(plant, config, a));
    }
    match drain_over(plant, config, tables, journal, a, most, head) {
        Ok(sent) => Ok(Addition::Counted {
            tracks: u32::from(sent),
        }),
        Err(refusal) => Err(refusal),
    }
}

/// Sends the tracks of primary a that are out of sync, by the call for its secondary.
fn drain_over<P: Plant>(
    plant: &mut P,
    config: &Config,
    tables: &Tables,
    journal: &mut Journal,
    a: VolumeId,
    most: Option<u32>,
    head: &Head,
) -> Result<u16, Refusal>
    requires ready { IsReady (P.state plant.old) config.now tables.now journal.old.events }
    requires sound { Sound (here (P.state plant.old) config.now tables.now journal.old.events) }
    requires head { head.now ≡ head_of (volume_seen (P.state plant.old) config.now a.0).fields }
    requires from { IsSome (place_of config.now a.0) }
    requires running { IsOn (P.state plant.old) config.now a.0 }
    requires primary { IsPrimary (P.state plant.old) config.now a.0 }
    requires few { length config.now.volumes ≤ 64 }
    requires room { step_events ≤ journal.old.spare }
    ensures carried { EndsIn (armed_in (P.state plant.old)) (here (P.state plant.old) config.now tables.now journal.old.events)
        (drain_stretches (here (P.state plant.old) config.now tables.now journal.old.events).control a.0 (tracks_to_send most (volume_seen (P.state plant.old) config.now a.0).tracks (volume_seen (P.state plant.old) config.now a.0).fields.out_of_sync))
        (here (P.state plant.new) config.now tables.now journal.new.events) (refusal_of result) }
    ensures count { IfOk result (λ sent. sent ≡ length (tracks_to_send most (volume_seen (P.state plant.old) config.now a.0).tracks (volume_seen (P.state plant.old) config.now a.0).fields.out_of_sync)) }
    ensures rest { IsAtRest (P.state plant.new) config.now }
    ensures unarmed { (q : ℕ) → (P.state plant.old).read_fuse q ≡ None → (P.state plant.new).read_fuse q ≡ None }
    ensures faults { Counted (is_stop (refusal_of result)) (P.state plant.old).faults (P.state plant.new).faults }
    ensures room { 1 ≤ journal.new.spare }
    ensures spare { length journal.new.events + journal.new.spare ≡ length journal.old.events + journal.old.spare }
{
    if is_cascaded(&peek_head(plant, config, head.primary_partner)) {
        return drain_fed(plant, config, journal, a, most);
    }
    dr_gcopy::drain(plant, config, journal, a, most)
}
