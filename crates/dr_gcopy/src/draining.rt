//! A primary sends the tracks that are out of sync.

ghost use Rattle.std.specs.Prelude.{◌≡◌, ◌≢◌, ℕ, ◌≤◌, ◌+◌, true, false, length, take, None, IsSome, IfOk, OnOk, OnErr};
ghost use Rattle.dr_logic.specs.Counts.{Counted};
ghost use Rattle.dr_config.specs.Table.{place_of};
ghost use Rattle.dr_model.specs.Control.{World};
ghost use Rattle.dr_model.specs.Layout.{is_part};
ghost use Rattle.dr_model.specs.PairEntries.{sends, suspend_after, tracks_to_send};
ghost use Rattle.dr_model.specs.Relations.{in_order};
ghost use Rattle.dr_volume.specs.View.{Rest, volume_seen, ids_of};
ghost use Rattle.dr_moves.specs.Checks.{is_stop};
ghost use Rattle.dr_moves.specs.Fit.{RelationsFit};
ghost use Rattle.dr_moves.specs.Here.{world_seen, refusal_of, armed_in, IsAtRest};
ghost use Rattle.dr_moves.specs.Turns.{Leads};
ghost use Rattle.dr_moves.specs.Followed.{EndsFollowed, FailsFollowed};
ghost use Rattle.dr_gcopy.specs.Sending.{enough};

use crate::sending::send_to;
use dr_bits::TrackSet;
use dr_config::Config;
use dr_ids::{Refusal, VolumeId};
use dr_model::Journal;
use dr_moves::{lowest, tracks_of};
use dr_plant::Plant;
use dr_volume::peek_fields;

/// Whether as many tracks were sent as are to be.
pub fn is_enough(most: Option<u32>, sent: u16) -> bool
    ensures { result ≡ enough most sent }
{
    match most {
        Some(most) => most <= u32::from(sent),
        None => false,
    }
}

/// Primary a, a volume of n tracks, sends these to its partner b, the lowest first, at most so many.
fn drain_to<P: Plant>(
    plant: &mut P,
    config: &Config,
    journal: &mut Journal,
    a: VolumeId,
    b: VolumeId,
    n: u16,
    most: Option<u32>,
    out_of_sync: &TrackSet,
) -> Result<u16, Refusal>
    requires rest { IsAtRest (P.state plant.old) config.now }
    requires fit { RelationsFit (P.state plant.old) config.now }
    requires from { IsSome (place_of config.now a.0) }
    requires to { IsSome (place_of config.now b.0) }
    requires running { (P.state plant.old).on (volume_seen (P.state plant.old) config.now a.0).server ≡ true }
    requires primary { is_part (volume_seen (P.state plant.old) config.now a.0).fields.primary ≡ true }
    requires two_servers { (volume_seen (P.state plant.old) config.now a.0).server ≢ (volume_seen (P.state plant.old) config.now b.0).server }
    requires size { (volume_seen (P.state plant.old) config.now b.0).tracks ≡ (volume_seen (P.state plant.old) config.now a.0).tracks }
    requires tracks { (volume_seen (P.state plant.old) config.now a.0).tracks ≡ n }
    requires room { (k : ℕ) (r : Rest) (u : World) → Leads (world_seen (P.state plant.old) config.now r journal.old.events) (sends (ids_of config.now.volumes) a.0 b.0 (take k (in_order n out_of_sync.now))) u → length u.events + (length config.now.volumes + 7) ≤ length journal.old.events + journal.old.spare }
    ensures leads { OnOk result ((r : Rest) → Leads (world_seen (P.state plant.old) config.now r journal.old.events) (sends (ids_of config.now.volumes) a.0 b.0 (tracks_to_send most n out_of_sync.now)) (world_seen (P.state plant.new) config.now r journal.new.events)) }
    ensures fails { OnErr result ((r : Rest) → FailsFollowed (armed_in (P.state plant.old)) (world_seen (P.state plant.old) config.now r journal.old.events) (sends (ids_of config.now.volumes) a.0 b.0 (tracks_to_send most n out_of_sync.now)) (suspend_after a.0) (world_seen (P.state plant.new) config.now r journal.new.events) (refusal_of result)) }
    ensures count { IfOk result (λ sent. sent ≡ length (tracks_to_send most n out_of_sync.now)) }
    ensures rest { IsAtRest (P.state plant.new) config.now }
    ensures fit { RelationsFit (P.state plant.new) config.now }
    ensures unarmed { (q : ℕ) → (P.state plant.old).read_fuse q ≡ None → (P.state plant.new).read_fuse q ≡ None }
    ensures faults { Counted (is_stop (refusal_of result)) (P.state plant.old).faults (P.state plant.new).faults }
    ensures on { OnOk result ((P.state plant.new).on ≡ (P.state plant.old).on) }
    ensures room { 1 ≤ journal.new.spare }
    ensures spare { length journal.new.events + journal.new.spare ≡ length journal.old.events + journal.old.spare }
{
    let mut left = *out_of_sync;
    for sent in 0..n {
        if is_enough(most, sent) {
            return Ok(sent);
        }
        let Some(t) = lowest(n, &left) else {
            return Ok(sent);
        };
        send_to(plant, config, journal, a, b, t)?;
        left.remove(t);
    }
    Ok(n)
}

/// Primary a, whose server is on, sends the tracks that are out of sync to its partner, which is on another server and of
/// the same size, the lowest first, and at most so many, where a number is given. Says how many were sent. What was out
/// of sync at the call is sent, whatever changes in between. It ends where one send is refused or fails, as `send_track`
/// does; what was sent by then stays. Whatever the sends of any number of tracks tell, the journal needs room for them,
/// for an event for each volume, and seven more.
pub fn drain<P: Plant>(
    plant: &mut P,
    config: &Config,
    journal: &mut Journal,
    a: VolumeId,
    most: Option<u32>,
) -> Result<u16, Refusal>
    requires rest { IsAtRest (P.state plant.old) config.now }
    requires fit { RelationsFit (P.state plant.old) config.now }
    requires from { IsSome (place_of config.now a.0) }
    requires to { IsSome (place_of config.now (volume_seen (P.state plant.old) config.now a.0).fields.primary_partner) }
    requires running { (P.state plant.old).on (volume_seen (P.state plant.old) config.now a.0).server ≡ true }
    requires primary { is_part (volume_seen (P.state plant.old) config.now a.0).fields.primary ≡ true }
    requires two_servers { (volume_seen (P.state plant.old) config.now a.0).server ≢ (volume_seen (P.state plant.old) config.now (volume_seen (P.state plant.old) config.now a.0).fields.primary_partner).server }
    requires size { (volume_seen (P.state plant.old) config.now (volume_seen (P.state plant.old) config.now a.0).fields.primary_partner).tracks ≡ (volume_seen (P.state plant.old) config.now a.0).tracks }
    requires room { (k : ℕ) (r : Rest) (u : World) → Leads (world_seen (P.state plant.old) config.now r journal.old.events) (sends (ids_of config.now.volumes) a.0 (volume_seen (P.state plant.old) config.now a.0).fields.primary_partner (take k (in_order (volume_seen (P.state plant.old) config.now a.0).tracks (volume_seen (P.state plant.old) config.now a.0).fields.out_of_sync))) u → length u.events + (length config.now.volumes + 7) ≤ length journal.old.events + journal.old.spare }
    ensures carried { (r : Rest) → EndsFollowed (armed_in (P.state plant.old)) (world_seen (P.state plant.old) config.now r journal.old.events) (sends (ids_of config.now.volumes) a.0 (volume_seen (P.state plant.old) config.now a.0).fields.primary_partner (tracks_to_send most (volume_seen (P.state plant.old) config.now a.0).tracks (volume_seen (P.state plant.old) config.now a.0).fields.out_of_sync)) (suspend_after a.0) (world_seen (P.state plant.new) config.now r journal.new.events) (refusal_of result) }
    ensures leads { OnOk result ((r : Rest) → Leads (world_seen (P.state plant.old) config.now r journal.old.events) (sends (ids_of config.now.volumes) a.0 (volume_seen (P.state plant.old) config.now a.0).fields.primary_partner (tracks_to_send most (volume_seen (P.state plant.old) config.now a.0).tracks (volume_seen (P.state plant.old) config.now a.0).fields.out_of_sync)) (world_seen (P.state plant.new) config.now r journal.new.events)) }
    ensures fails { OnErr result ((r : Rest) → FailsFollowed (armed_in (P.state plant.old)) (world_seen (P.state plant.old) config.now r journal.old.events) (sends (ids_of config.now.volumes) a.0 (volume_seen (P.state plant.old) config.now a.0).fields.primary_partner (tracks_to_send most (volume_seen (P.state plant.old) config.now a.0).tracks (volume_seen (P.state plant.old) config.now a.0).fields.out_of_sync)) (suspend_after a.0) (world_seen (P.state plant.new) config.now r journal.new.events) (refusal_of result)) }
    ensures count { IfOk result (λ sent. sent ≡ length (tracks_to_send most (volume_seen (P.state plant.old) config.now a.0).tracks (volume_seen (P.state plant.old) config.now a.0).fields.out_of_sync)) }
    ensures rest { IsAtRest (P.state plant.new) config.now }
    ensures fit { RelationsFit (P.state plant.new) config.now }
    ensures unarmed { (q : ℕ) → (P.state plant.old).read_fuse q ≡ None → (P.state plant.new).read_fuse q ≡ None }
    ensures faults { Counted (is_stop (refusal_of result)) (P.state plant.old).faults (P.state plant.new).faults }
    ensures on { OnOk result ((P.state plant.new).on ≡ (P.state plant.old).on) }
    ensures room { 1 ≤ journal.new.spare }
    ensures spare { length journal.new.events + journal.new.spare ≡ length journal.old.events + journal.old.spare }
{
    let fields = peek_fields(plant, config, a);
    let n = tracks_of(config, a);
    drain_to(
        plant,
        config,
        journal,
        a,
        fields.primary_partner,
        n,
        most,
        &fields.out_of_sync,
    )
}
