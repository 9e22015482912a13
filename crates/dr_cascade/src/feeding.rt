//! A primary sends a track to its cascaded secondary.

ghost use Rattle.std.specs.Prelude.{◌≡◌, ◌≢◌, ℕ, ◌<◌, ◌≤◌, ◌+◌, true, false, List, [], ◌∷◌, length, None, Some, IsSome, OnOk, OnErr};
ghost use Rattle.dr_logic.specs.Counts.{Counted};
ghost use Rattle.dr_config.specs.Table.{StandsFor, place_of};
ghost use Rattle.dr_model.specs.declared.event.Event.{Event};
ghost use Rattle.dr_model.specs.Entries.{copies_from};
ghost use Rattle.dr_model.specs.PairEntries as pair_entries;
ghost use Rattle.dr_model.specs.PairEntries.{refuse_if, send_first, suspend_after, feed_stretches};
ghost use Rattle.dr_model.specs.Pairs as pairs;
ghost use Rattle.dr_model.specs.Pairs.{is_cascaded};
ghost use Rattle.dr_volume.specs.View.{Rest, volume_seen, ids_of};
ghost use Rattle.dr_volume.specs.Volume.{Shows};
ghost use Rattle.dr_moves.specs.Checks.{Checked, is_stop};
ghost use Rattle.dr_moves.specs.Fit.{RelationsFit};
ghost use Rattle.dr_moves.specs.Followed.{EndsIn};
ghost use Rattle.dr_moves.specs.Here.{world_seen, refusal_of, armed_in, IsAtRest};
ghost use Rattle.dr_moves.specs.Made.{IsAt, IsPrimary, IsSecondary};
ghost use Rattle.dr_gcopy.specs.Both.{IsOn};
ghost use Rattle.dr_gcopy.specs.Ran.{Ran};
ghost use Rattle.dr_gcopy.specs.Sending.{MayPair, SameParts, pass_entries};
ghost use Rattle.dr_cascade.specs.Feeding.{FailsIn, RanIn, asked_entries, taken_stretches};

use crate::following::follow_feed;
use dr_config::Config;
use dr_gcopy::{collides, flashed_refusal, follow_stop, pass_on, refuse, send_old, send_refusal};
use dr_ids::{Refusal, VolumeId};
use dr_model::Journal;
use dr_plant::Plant;
use dr_volume::{Fields, peek_fields, peek_head};

/// The refusal where coordination holds back what cascaded volume b receives.
fn held_refusal<P: Plant>(plant: &P, config: &Config, b: VolumeId) -> Option<Refusal>
    requires stands { StandsFor config.now (P.state plant.now) }
    requires defined { IsSome (place_of config.now b.0) }
    requires cascaded { is_cascaded (volume_seen (P.state plant.now) config.now b.0).fields ≡ true }
    ensures refusal { (r : Rest) (events : List Event) → result ≡ pair_entries.held_refusal b.0 (world_seen (P.state plant.now) config.now r events).control }
    ensures calm { is_stop result ≡ false }
{
    if peek_head(plant, config, b).coordination {
        return Some(Refusal::Held { volume: b });
    }
    None
}

/// Why cascaded volume b takes no track now, though it can be reached: it stands in a revertible relationship, or is held back.
fn taking_refusal<P: Plant>(plant: &P, config: &Config, b: VolumeId) -> Option<Refusal>
    requires stands { StandsFor config.now (P.state plant.now) }
    requires defined { IsSome (place_of config.now b.0) }
    requires cascaded { is_cascaded (volume_seen (P.state plant.now) config.now b.0).fields ≡ true }
    ensures checked { (r : Rest) (events : List Event) → Checked (world_seen (P.state plant.now) config.now r events) (refuse_if (pair_entries.flashed_refusal b.0) ∷ refuse_if (pair_entries.held_refusal b.0) ∷ []) result }
    ensures calm { is_stop result ≡ false }
{
    if let Some(why) = flashed_refusal(plant, config, b) {
        return Some(why);
    }
    held_refusal(plant, config, b)
}

/// Suspends primary a, which can't send to b for this reason, and gives it, or the stop of a's server in the suspension, with what
/// follows that.
fn part<P: Plant>(
    plant: &mut P,
    config: &Config,
    journal: &mut Journal,
    a: VolumeId,
    b: VolumeId,
    why: Refusal,
) -> Refusal
    requires at { IsAt (P.state plant.old) config.now }
    requires from { IsSome (place_of config.now a.0) }
    requires running { IsOn (P.state plant.old) config.now a.0 }
    requires primary { IsPrimary (P.state plant.old) config.now a.0 }
    requires apart { a.0 ≢ b.0 }
    requires why { (r : Rest) (events : List Event) → Some why ≡ pair_entries.send_refusal a.0 b.0 (world_seen (P.state plant.old) config.now r events).control }
    requires calm { is_stop (Some why) ≡ false }
    requires room { 6 ≤ journal.old.spare }
    ensures fails { (r : Rest) → FailsIn (armed_in (P.state plant.old)) (world_seen (P.state plant.old) config.now r journal.old.events) (record { entries = asked_entries a.0 b.0; follows = suspend_after a.0 } ∷ []) (world_seen (P.state plant.new) config.now r journal.new.events) (Some result) }
    ensures at { IsAt (P.state plant.new) config.now }
    ensures unarmed { (q : ℕ) → (P.state plant.old).read_fuse q ≡ None → (P.state plant.new).read_fuse q ≡ None }
    ensures faults { Counted (is_stop (Some result)) (P.state plant.old).faults (P.state plant.new).faults }
    ensures room { journal.old.spare ≤ journal.new.spare + 6 }
    ensures spare { length journal.new.events + journal.new.spare ≡ length journal.old.events + journal.old.spare }
{
    let given = refuse(plant, config, journal, a, b, why);
    follow_stop(plant, config, journal, a, given);
    given
}

/// What track t of cascaded volume b was is sent on to its secondary, if it collides there; the fields of b are at hand.
fn send_on<P: Plant>(
    plant: &mut P,
    config: &Config,
    journal: &mut Journal,
    b: VolumeId,
    t: u16,
    fields: &Fields,
) -> Result<(), Refusal>
    requires at { IsAt (P.state plant.old) config.now }
    requires defined { IsSome (place_of config.now b.0) }
    requires running { IsOn (P.state plant.old) config.now b.0 }
    requires primary { IsPrimary (P.state plant.old) config.now b.0 }
    requires shows { Shows (P.state plant.old) config.now b.0 fields.now }
    requires pair { MayPair (P.state plant.old) config.now b.0 fields.now.primary_partner.0 }
    requires within { t < (volume_seen (P.state plant.old) config.now b.0).tracks }
    requires room { length config.now.volumes + 3 ≤ journal.old.spare }
    ensures ran { Ran (P.state plant.old) (P.state plant.new) config.now journal.old journal.new (send_first (ids_of config.now.volumes) b.0 fields.now.primary_partner.0 t) (λ q. (q ≢ b.0) × ((q ≢ fields.now.primary_partner.0) × (copies_from fields.now.primary_partner.0 (volume_seen (P.state plant.old) config.now q).fields ≡ false))) (length config.now.volumes + 3) (length config.now.volumes + 2) result }
    ensures parts { OnOk result ((q : ℕ) → SameParts (volume_seen (P.state plant.old) config.now q).fields (volume_seen (P.state plant.new) config.now q).fields) }
    ensures stops { OnErr result (is_stop (refusal_of result) ≡ true) }
{
    if !collides(fields, t) {
        return Ok(());
    }
    send_old(plant, config, journal, b, fields.primary_partner, t)
}

/// The targets of secondary b keep track t, b stores that of a, and a strikes it off, with what follows the stop of a server.
fn pass_track<P: Plant>(
    plant: &mut P,
    config: &Config,
    journal: &mut Journal,
    a: VolumeId,
    b: VolumeId,
    t: u16,
) -> Result<(), Refusal>
    requires at { IsAt (P.state plant.old) config.now }
    requires from { IsSome (place_of config.now a.0) }
    requires running { IsOn (P.state plant.old) config.now a.0 }
    requires reached { IsOn (P.state plant.old) config.now b.0 }
    requires primary { IsPrimary (P.state plant.old) config.now a.0 }
    requires secondary { IsSecondary (P.state plant.old) config.now b.0 }
    requires pair { MayPair (P.state plant.old) config.now a.0 b.0 }
    requires within { t < (volume_seen (P.state plant.old) config.now a.0).tracks }
    requires room { length config.now.volumes + 5 ≤ journal.old.spare }
    ensures ran { RanIn (P.state plant.old) (P.state plant.new) config.now journal.old journal.new (record { entries = pass_entries (ids_of config.now.volumes) a.0 b.0 t; follows = suspend_after a.0 } ∷ []) (length config.now.volumes + 5) (length config.now.volumes + 1) result }
    ensures struck { OnOk result ((volume_seen (P.state plant.new) config.now a.0).fields ≡ pairs.struck (pairs.is_last (volume_seen (P.state plant.old) config.now a.0).fields t) (volume_seen (P.state plant.old) config.now a.0).fields t) }
    ensures stored { OnOk result ((volume_seen (P.state plant.new) config.now b.0).fields ≡ pairs.received (pairs.is_last (volume_seen (P.state plant.old) config.now a.0).fields t) (volume_seen (P.state plant.old) config.now b.0).fields t) }
{
    match pass_on(plant, config, journal, a, b, t) {
        Ok(()) => Ok(()),
        Err(why) => {
            follow_stop(plant, config, journal, a, why);
            Err(why)
        }
    }
}

/// Cascaded secondary b takes track t of its primary a: what the track was at b is sent on first, the targets of b keep theirs, b stores
/// it, and a strikes it off.
fn take_track<P: Plant>(
    plant: &mut P,
    config: &Config,
    journal: &mut Journal,
    a: VolumeId,
    b: VolumeId,
    t: u16,
) -> Result<(), Refusal>
    requires at { IsAt (P.state plant.old) config.now }
    requires from { IsSome (place_of config.now a.0) }
    requires running { IsOn (P.state plant.old) config.now a.0 }
    requires reached { IsOn (P.state plant.old) config.now b.0 }
    requires primary { IsPrimary (P.state plant.old) config.now a.0 }
    requires cascaded { is_cascaded (volume_seen (P.state plant.old) config.now b.0).fields ≡ true }
    requires pair { MayPair (P.state plant.old) config.now a.0 b.0 }
    requires next { MayPair (P.state plant.old) config.now b.0 (volume_seen (P.state plant.old) config.now b.0).fields.primary_partner }
    requires within { t < (volume_seen (P.state plant.old) config.now a.0).tracks }
    requires room { length config.now.volumes + (length config.now.volumes + 9) ≤ journal.old.spare }
    ensures ran { RanIn (P.state plant.old) (P.state plant.new) config.now journal.old journal.new (taken_stretches (ids_of config.now.volumes) a.0 b.0 (volume_seen (P.state plant.old) config.now b.0).fields.primary_partner t) (length config.now.volumes + (length config.now.volumes + 9)) (length config.now.volumes + (length config.now.volumes + 3)) result }
    ensures from_parts { OnOk result (SameParts (volume_seen (P.state plant.old) config.now a.0).fields (volume_seen (P.state plant.new) config.now a.0).fields) }
    ensures to_parts { OnOk result (SameParts (volume_seen (P.state plant.old) config.now b.0).fields (volume_seen (P.state plant.new) config.now b.0).fields) }
{
    let fields = peek_fields(plant, config, b);
    match send_on(plant, config, journal, b, t, &fields) {
        Ok(()) => pass_track(plant, config, journal, a, b, t),
        Err(why) => {
            follow_feed(plant, config, journal, a, b, why);
            Err(why)
        }
    }
}

/// Primary a sends track t to its cascaded secondary b.
pub(crate) fn feed_to<P: Plant>(
    plant: &mut P,
    config: &Config,
    journal: &mut Journal,
    a: VolumeId,
    b: VolumeId,
    t: u16,
) -> Result<(), Refusal>
    requires at { IsAt (P.state plant.old) config.now }
    requires from { IsSome (place_of config.now a.0) }
    requires running { IsOn (P.state plant.old) config.now a.0 }
    requires primary { IsPrimary (P.state plant.old) config.now a.0 }
    requires cascaded { is_cascaded (volume_seen (P.state plant.old) config.now b.0).fields ≡ true }
    requires pair { MayPair (P.state plant.old) config.now a.0 b.0 }
    requires next { MayPair (P.state plant.old) config.now b.0 (volume_seen (P.state plant.old) config.now b.0).fields.primary_partner }
    requires within { t < (volume_seen (P.state plant.old) config.now a.0).tracks }
    requires room { length config.now.volumes + (length config.now.volumes + 9) ≤ journal.old.spare }
    ensures ran { RanIn (P.state plant.old) (P.state plant.new) config.now journal.old journal.new (feed_stretches (ids_of config.now.volumes) a.0 b.0 (volume_seen (P.state plant.old) config.now b.0).fields.primary_partner t) (length config.now.volumes + (length config.now.volumes + 9)) (length config.now.volumes + (length config.now.volumes + 3)) result }
    ensures from_parts { OnOk result (SameParts (volume_seen (P.state plant.old) config.now a.0).fields (volume_seen (P.state plant.new) config.now a.0).fields) }
    ensures to_parts { OnOk result (SameParts (volume_seen (P.state plant.old) config.now b.0).fields (volume_seen (P.state plant.new) config.now b.0).fields) }
{
    if let Some(why) = send_refusal(plant, config, a, b) {
        return Err(part(plant, config, journal, a, b, why));
    }
    if let Some(why) = taking_refusal(plant, config, b) {
        return Err(why);
    }
    take_track(plant, config, journal, a, b, t)
}

/// Primary a, whose server is on, sends track t to its partner, which is cascaded; the partner and its own partner are each on another
/// server than the volume before it, and of the same size. Where the partner can't be reached, or isn't the secondary of a, a is
/// suspended, and this is refused. Refused too where the partner stands in a revertible relationship, or else where coordination holds
/// it back. Where the track collides at the partner, what it was is sent on to the partner's own secondary first; where that can't be
/// reached, or isn't the partner's, the partner is suspended instead, and where it stands in a revertible relationship nothing is sent
/// on. Then the targets of the partner keep the track, the partner stores it, and a strikes it off. Fails where a server stops in a move
/// or goes off at a read; what was done by then stays. Where that was in what is sent on, the partner is suspended, where its server
/// runs, and a only where it doesn't; elsewhere a is suspended, where its own server runs. The first stop is the one that is given. The
/// journal needs room for two events for each volume and nine more.
pub fn feed_track<P: Plant>(
    plant: &mut P,
    config: &Config,
    journal: &mut Journal,
    a: VolumeId,
    t: u16,
) -> Result<(), Refusal>
    requires rest { IsAtRest (P.state plant.old) config.now }
    requires fit { RelationsFit (P.state plant.old) config.now }
    requires from { IsSome (place_of config.now a.0) }
    requires running { IsOn (P.state plant.old) config.now a.0 }
    requires primary { IsPrimary (P.state plant.old) config.now a.0 }
    requires cascaded { is_cascaded (volume_seen (P.state plant.old) config.now (volume_seen (P.state plant.old) config.now a.0).fields.primary_partner).fields ≡ true }
    requires pair { MayPair (P.state plant.old) config.now a.0 (volume_seen (P.state plant.old) config.now a.0).fields.primary_partner }
    requires next { MayPair (P.state plant.old) config.now (volume_seen (P.state plant.old) config.now a.0).fields.primary_partner (volume_seen (P.state plant.old) config.now (volume_seen (P.state plant.old) config.now a.0).fields.primary_partner).fields.primary_partner }
    requires within { t < (volume_seen (P.state plant.old) config.now a.0).tracks }
    requires room { length config.now.volumes + (length config.now.volumes + 9) ≤ journal.old.spare }
    ensures carried { (r : Rest) → EndsIn (armed_in (P.state plant.old)) (world_seen (P.state plant.old) config.now r journal.old.events) (feed_stretches (ids_of config.now.volumes) a.0 (volume_seen (P.state plant.old) config.now a.0).fields.primary_partner (volume_seen (P.state plant.old) config.now (volume_seen (P.state plant.old) config.now a.0).fields.primary_partner).fields.primary_partner t) (world_seen (P.state plant.new) config.now r journal.new.events) (refusal_of result) }
    ensures rest { IsAtRest (P.state plant.new) config.now }
    ensures fit { RelationsFit (P.state plant.new) config.now }
    ensures unarmed { (q : ℕ) → (P.state plant.old).read_fuse q ≡ None → (P.state plant.new).read_fuse q ≡ None }
    ensures faults { Counted (is_stop (refusal_of result)) (P.state plant.old).faults (P.state plant.new).faults }
    ensures on { OnOk result ((P.state plant.new).on ≡ (P.state plant.old).on) }
    ensures room { journal.old.spare ≤ journal.new.spare + (length config.now.volumes + (length config.now.volumes + 9)) }
    ensures room_left { OnOk result (journal.old.spare ≤ journal.new.spare + (length config.now.volumes + (length config.now.volumes + 3))) }
    ensures spare { length journal.new.events + journal.new.spare ≡ length journal.old.events + journal.old.spare }
{
    let b = peek_head(plant, config, a).primary_partner;
    feed_to(plant, config, journal, a, b, t)
}
