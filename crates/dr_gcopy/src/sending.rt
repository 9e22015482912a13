//! A primary sends a track to its secondary.

ghost use Rattle.std.specs.Prelude.{◌≡◌, ◌≢◌, ℕ, ◌<◌, ◌≤◌, ◌+◌, true, false, List, length, None, Some, IsSome, OnOk, OnErr};
ghost use Rattle.dr_logic.specs.Counts.{Counted};
ghost use Rattle.dr_config.specs.Table.{StandsFor, place_of};
ghost use Rattle.dr_model.specs.declared.event.Event.{Event};
ghost use Rattle.dr_model.specs.Entries.{copies_from};
ghost use Rattle.dr_model.specs.Layout.{is_part};
ghost use Rattle.dr_model.specs.PairEntries as pair_entries;
ghost use Rattle.dr_model.specs.PairEntries.{send_entries, suspend_after};
ghost use Rattle.dr_model.specs.Pairs as pairs;
ghost use Rattle.dr_volume.specs.Update.{IsAsBefore, OthersStay};
ghost use Rattle.dr_volume.specs.View.{Rest, volume_seen, ids_of};
ghost use Rattle.dr_moves.specs.Checks.{OnNone, is_stop};
ghost use Rattle.dr_moves.specs.Fit.{RelationsFit};
ghost use Rattle.dr_moves.specs.Here.{world_seen, refusal_of, armed_in, IsAtRest};
ghost use Rattle.dr_moves.specs.Turns.{Leads, Fails};
ghost use Rattle.dr_moves.specs.Followed.{EndsFollowed, FailsFollowed};
ghost use Rattle.dr_gcopy.specs.Sending.{refuse_entries};

use crate::following::follow_stop;
use crate::passing::pass_on;
use crate::reach::reach_refusal;
use crate::receiving::{flashed_refusal, stranger_refusal};
use crate::suspending::suspend;
use dr_config::Config;
use dr_ids::{Refusal, VolumeId};
use dr_model::Journal;
use dr_plant::Plant;
use dr_volume::peek_head;

/// Why primary a can't send to b, if it can't: b can't be reached, or isn't the secondary of a.
pub fn send_refusal<P: Plant>(
    plant: &P,
    config: &Config,
    a: VolumeId,
    b: VolumeId,
) -> Option<Refusal>
    requires stands { StandsFor config.now (P.state plant.now) }
    requires from { IsSome (place_of config.now a.0) }
    requires to { IsSome (place_of config.now b.0) }
    ensures refusal { (r : Rest) (events : List Event) → result ≡ pair_entries.send_refusal a.0 b.0 (world_seen (P.state plant.now) config.now r events).control }
    ensures calm { is_stop result ≡ false }
    ensures reached { OnNone result ((P.state plant.now).on (volume_seen (P.state plant.now) config.now b.0).server ≡ true) }
    ensures secondary { OnNone result (is_part (volume_seen (P.state plant.now) config.now b.0).fields.secondary ≡ true) }
{
    if let Some(why) = reach_refusal(plant, config, a, b) {
        return Some(why);
    }
    stranger_refusal(plant, config, a, b)
}

/// Suspends primary a, whose server is on, and which can't send to b for this reason, and gives it, or the stop of a's server in the
/// suspension. The journal needs room for three events.
pub fn refuse<P: Plant>(
    plant: &mut P,
    config: &Config,
    journal: &mut Journal,
    a: VolumeId,
    b: VolumeId,
    why: Refusal,
) -> Refusal
    requires rest { IsAtRest (P.state plant.old) config.now }
    requires fit { RelationsFit (P.state plant.old) config.now }
    requires from { IsSome (place_of config.now a.0) }
    requires running { (P.state plant.old).on (volume_seen (P.state plant.old) config.now a.0).server ≡ true }
    requires primary { is_part (volume_seen (P.state plant.old) config.now a.0).fields.primary ≡ true }
    requires apart { a.0 ≢ b.0 }
    requires why { (r : Rest) (events : List Event) → Some why ≡ pair_entries.send_refusal a.0 b.0 (world_seen (P.state plant.old) config.now r events).control }
    requires calm { is_stop (Some why) ≡ false }
    requires room { 3 ≤ journal.old.spare }
    ensures fails { (r : Rest) → Fails (armed_in (P.state plant.old)) (world_seen (P.state plant.old) config.now r journal.old.events) (refuse_entries a.0 b.0) (world_seen (P.state plant.new) config.now r journal.new.events) (Some result) }
    ensures rest { IsAtRest (P.state plant.new) config.now }
    ensures fit { RelationsFit (P.state plant.new) config.now }
    ensures unarmed { (q : ℕ) → (P.state plant.old).read_fuse q ≡ None → (P.state plant.new).read_fuse q ≡ None }
    ensures faults { Counted (is_stop (Some result)) (P.state plant.old).faults (P.state plant.new).faults }
    ensures others { OthersStay (P.state plant.old) (P.state plant.new) config.now a.0 }
    ensures room { journal.old.spare ≤ journal.new.spare + 3 }
    ensures spare { length journal.new.events + journal.new.spare ≡ length journal.old.events + journal.old.spare }
{
    match suspend(plant, config, journal, a, false) {
        Ok(()) => why,
        Err(stop) => stop,
    }
}

/// Primary a sends track t to b, without what follows the stop of a server.
fn send_on<P: Plant>(
    plant: &mut P,
    config: &Config,
    journal: &mut Journal,
    a: VolumeId,
    b: VolumeId,
    t: u16,
) -> Result<(), Refusal>
    requires rest { IsAtRest (P.state plant.old) config.now }
    requires fit { RelationsFit (P.state plant.old) config.now }
    requires from { IsSome (place_of config.now a.0) }
    requires to { IsSome (place_of config.now b.0) }
    requires running { (P.state plant.old).on (volume_seen (P.state plant.old) config.now a.0).server ≡ true }
    requires primary { is_part (volume_seen (P.state plant.old) config.now a.0).fields.primary ≡ true }
    requires two_servers { (volume_seen (P.state plant.old) config.now a.0).server ≢ (volume_seen (P.state plant.old) config.now b.0).server }
    requires within { t < (volume_seen (P.state plant.old) config.now a.0).tracks }
    requires size { (volume_seen (P.state plant.old) config.now b.0).tracks ≡ (volume_seen (P.state plant.old) config.now a.0).tracks }
    requires room { length config.now.volumes + 3 ≤ journal.old.spare }
    ensures leads { OnOk result ((r : Rest) → Leads (world_seen (P.state plant.old) config.now r journal.old.events) (send_entries (ids_of config.now.volumes) a.0 b.0 t) (world_seen (P.state plant.new) config.now r journal.new.events)) }
    ensures fails { OnErr result ((r : Rest) → Fails (armed_in (P.state plant.old)) (world_seen (P.state plant.old) config.now r journal.old.events) (send_entries (ids_of config.now.volumes) a.0 b.0 t) (world_seen (P.state plant.new) config.now r journal.new.events) (refusal_of result)) }
    ensures struck { OnOk result ((volume_seen (P.state plant.new) config.now a.0).fields ≡ pairs.struck (pairs.is_last (volume_seen (P.state plant.old) config.now a.0).fields t) (volume_seen (P.state plant.old) config.now a.0).fields t) }
    ensures stored { OnOk result ((volume_seen (P.state plant.new) config.now b.0).fields ≡ pairs.received (pairs.is_last (volume_seen (P.state plant.old) config.now a.0).fields t) (volume_seen (P.state plant.old) config.now b.0).fields t) }
    ensures rest { IsAtRest (P.state plant.new) config.now }
    ensures fit { RelationsFit (P.state plant.new) config.now }
    ensures unarmed { (q : ℕ) → (P.state plant.old).read_fuse q ≡ None → (P.state plant.new).read_fuse q ≡ None }
    ensures faults { Counted (is_stop (refusal_of result)) (P.state plant.old).faults (P.state plant.new).faults }
    ensures others { (q : ℕ) → q ≢ a.0 → q ≢ b.0 → copies_from b.0 (volume_seen (P.state plant.old) config.now q).fields ≡ false → IsAsBefore (P.state plant.old) (P.state plant.new) config.now q }
    ensures on { OnOk result ((P.state plant.new).on ≡ (P.state plant.old).on) }
    ensures room { journal.old.spare ≤ journal.new.spare + (length config.now.volumes + 3) }
    ensures room_left { OnOk result (journal.old.spare ≤ journal.new.spare + (length config.now.volumes + 1)) }
    ensures spare { length journal.new.events + journal.new.spare ≡ length journal.old.events + journal.old.spare }
{
    if let Some(why) = send_refusal(plant, config, a, b) {
        return Err(refuse(plant, config, journal, a, b, why));
    }
    if let Some(why) = flashed_refusal(plant, config, b) {
        return Err(why);
    }
    pass_on(plant, config, journal, a, b, t)
}

/// Primary a sends track t to its partner b.
pub(crate) fn send_to<P: Plant>(
    plant: &mut P,
    config: &Config,
    journal: &mut Journal,
    a: VolumeId,
    b: VolumeId,
    t: u16,
) -> Result<(), Refusal>
    requires rest { IsAtRest (P.state plant.old) config.now }
    requires fit { RelationsFit (P.state plant.old) config.now }
    requires from { IsSome (place_of config.now a.0) }
    requires to { IsSome (place_of config.now b.0) }
    requires running { (P.state plant.old).on (volume_seen (P.state plant.old) config.now a.0).server ≡ true }
    requires primary { is_part (volume_seen (P.state plant.old) config.now a.0).fields.primary ≡ true }
    requires two_servers { (volume_seen (P.state plant.old) config.now a.0).server ≢ (volume_seen (P.state plant.old) config.now b.0).server }
    requires within { t < (volume_seen (P.state plant.old) config.now a.0).tracks }
    requires size { (volume_seen (P.state plant.old) config.now b.0).tracks ≡ (volume_seen (P.state plant.old) config.now a.0).tracks }
    requires room { length config.now.volumes + 6 ≤ journal.old.spare }
    ensures leads { OnOk result ((r : Rest) → Leads (world_seen (P.state plant.old) config.now r journal.old.events) (send_entries (ids_of config.now.volumes) a.0 b.0 t) (world_seen (P.state plant.new) config.now r journal.new.events)) }
    ensures fails { OnErr result ((r : Rest) → FailsFollowed (armed_in (P.state plant.old)) (world_seen (P.state plant.old) config.now r journal.old.events) (send_entries (ids_of config.now.volumes) a.0 b.0 t) (suspend_after a.0) (world_seen (P.state plant.new) config.now r journal.new.events) (refusal_of result)) }
    ensures struck { OnOk result ((volume_seen (P.state plant.new) config.now a.0).fields ≡ pairs.struck (pairs.is_last (volume_seen (P.state plant.old) config.now a.0).fields t) (volume_seen (P.state plant.old) config.now a.0).fields t) }
    ensures stored { OnOk result ((volume_seen (P.state plant.new) config.now b.0).fields ≡ pairs.received (pairs.is_last (volume_seen (P.state plant.old) config.now a.0).fields t) (volume_seen (P.state plant.old) config.now b.0).fields t) }
    ensures rest { IsAtRest (P.state plant.new) config.now }
    ensures fit { RelationsFit (P.state plant.new) config.now }
    ensures unarmed { (q : ℕ) → (P.state plant.old).read_fuse q ≡ None → (P.state plant.new).read_fuse q ≡ None }
    ensures faults { Counted (is_stop (refusal_of result)) (P.state plant.old).faults (P.state plant.new).faults }
    ensures others { (q : ℕ) → q ≢ a.0 → q ≢ b.0 → copies_from b.0 (volume_seen (P.state plant.old) config.now q).fields ≡ false → IsAsBefore (P.state plant.old) (P.state plant.new) config.now q }
    ensures on { OnOk result ((P.state plant.new).on ≡ (P.state plant.old).on) }
    ensures room { journal.old.spare ≤ journal.new.spare + (length config.now.volumes + 6) }
    ensures room_left { OnOk result (journal.old.spare ≤ journal.new.spare + (length config.now.volumes + 1)) }
    ensures spare { length journal.new.events + journal.new.spare ≡ length journal.old.events + journal.old.spare }
{
    match send_on(plant, config, journal, a, b, t) {
        Ok(()) => Ok(()),
        Err(why) => {
            follow_stop(plant, config, journal, a, why);
            Err(why)
        }
    }
}

/// Primary a, whose server is on, sends track t to its partner b, which is on another server and of the same size.
/// Refused where there is no path from the subsystem of a to that of b, then where b's server is off, then where the link
/// between the two servers is down, and then where b isn't the secondary of a: then a is suspended first, and a stop of
/// its server in that is given in place of the refusal. Refused too, without a suspension, where b stands in a revertible
/// relationship. Else the track is read, the targets of b keep theirs, b stores it, and a strikes it off; with the last
/// track of a Metro Mirror pair both are Full Duplex. Fails where a server stops in a move or goes off at a read; what
/// was done by then stays, and a is suspended where its own server still runs. The first stop is the one that is given.
/// The journal needs room for an event for each volume and six more.
pub fn send_track<P: Plant>(
    plant: &mut P,
    config: &Config,
    journal: &mut Journal,
    a: VolumeId,
    t: u16,
) -> Result<(), Refusal>
    requires rest { IsAtRest (P.state plant.old) config.now }
    requires fit { RelationsFit (P.state plant.old) config.now }
    requires from { IsSome (place_of config.now a.0) }
    requires to { IsSome (place_of config.now (volume_seen (P.state plant.old) config.now a.0).fields.primary_partner) }
    requires running { (P.state plant.old).on (volume_seen (P.state plant.old) config.now a.0).server ≡ true }
    requires primary { is_part (volume_seen (P.state plant.old) config.now a.0).fields.primary ≡ true }
    requires two_servers { (volume_seen (P.state plant.old) config.now a.0).server ≢ (volume_seen (P.state plant.old) config.now (volume_seen (P.state plant.old) config.now a.0).fields.primary_partner).server }
    requires within { t < (volume_seen (P.state plant.old) config.now a.0).tracks }
    requires size { (volume_seen (P.state plant.old) config.now (volume_seen (P.state plant.old) config.now a.0).fields.primary_partner).tracks ≡ (volume_seen (P.state plant.old) config.now a.0).tracks }
    requires room { length config.now.volumes + 6 ≤ journal.old.spare }
    ensures carried { (r : Rest) → EndsFollowed (armed_in (P.state plant.old)) (world_seen (P.state plant.old) config.now r journal.old.events) (send_entries (ids_of config.now.volumes) a.0 (volume_seen (P.state plant.old) config.now a.0).fields.primary_partner t) (suspend_after a.0) (world_seen (P.state plant.new) config.now r journal.new.events) (refusal_of result) }
    ensures leads { OnOk result ((r : Rest) → Leads (world_seen (P.state plant.old) config.now r journal.old.events) (send_entries (ids_of config.now.volumes) a.0 (volume_seen (P.state plant.old) config.now a.0).fields.primary_partner t) (world_seen (P.state plant.new) config.now r journal.new.events)) }
    ensures fails { OnErr result ((r : Rest) → FailsFollowed (armed_in (P.state plant.old)) (world_seen (P.state plant.old) config.now r journal.old.events) (send_entries (ids_of config.now.volumes) a.0 (volume_seen (P.state plant.old) config.now a.0).fields.primary_partner t) (suspend_after a.0) (world_seen (P.state plant.new) config.now r journal.new.events) (refusal_of result)) }
    ensures struck { OnOk result ((volume_seen (P.state plant.new) config.now a.0).fields ≡ pairs.struck (pairs.is_last (volume_seen (P.state plant.old) config.now a.0).fields t) (volume_seen (P.state plant.old) config.now a.0).fields t) }
    ensures stored { OnOk result ((volume_seen (P.state plant.new) config.now (volume_seen (P.state plant.old) config.now a.0).fields.primary_partner).fields ≡ pairs.received (pairs.is_last (volume_seen (P.state plant.old) config.now a.0).fields t) (volume_seen (P.state plant.old) config.now (volume_seen (P.state plant.old) config.now a.0).fields.primary_partner).fields t) }
    ensures rest { IsAtRest (P.state plant.new) config.now }
    ensures fit { RelationsFit (P.state plant.new) config.now }
    ensures unarmed { (q : ℕ) → (P.state plant.old).read_fuse q ≡ None → (P.state plant.new).read_fuse q ≡ None }
    ensures faults { Counted (is_stop (refusal_of result)) (P.state plant.old).faults (P.state plant.new).faults }
    ensures others { (q : ℕ) → q ≢ a.0 → q ≢ (volume_seen (P.state plant.old) config.now a.0).fields.primary_partner → copies_from (volume_seen (P.state plant.old) config.now a.0).fields.primary_partner (volume_seen (P.state plant.old) config.now q).fields ≡ false → IsAsBefore (P.state plant.old) (P.state plant.new) config.now q }
    ensures on { OnOk result ((P.state plant.new).on ≡ (P.state plant.old).on) }
    ensures room { journal.old.spare ≤ journal.new.spare + (length config.now.volumes + 6) }
    ensures room_left { OnOk result (journal.old.spare ≤ journal.new.spare + (length config.now.volumes + 1)) }
    ensures spare { length journal.new.events + journal.new.spare ≡ length journal.old.events + journal.old.spare }
{
    let b = peek_head(plant, config, a).primary_partner;
    send_to(plant, config, journal, a, b, t)
}
