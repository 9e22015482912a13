//! A host write goes to the secondary before it lands on the primary.

ghost use Rattle.std.specs.Prelude.{◌≡◌, ◌≢◌, ℕ, ◌<◌, ◌≤◌, ◌+◌, true, false, length, None, Some, IsSome, OnOk, OnErr, is_err, List};
ghost use Rattle.std.specs.List.{find};
ghost use Rattle.dr_logic.specs.Counts.{Counted};
ghost use Rattle.dr_config.specs.Table.{place_of};
ghost use Rattle.dr_host.specs.Writes.{has_number};
ghost use Rattle.dr_model.specs.Entries as entries;
ghost use Rattle.dr_model.specs.Entries.{copies_from};
ghost use Rattle.dr_model.specs.Layout.{is_part};
ghost use Rattle.dr_model.specs.ReadStops.{Ends};
ghost use Rattle.dr_model.specs.WriteEntries.{land_mirrored};
ghost use Rattle.dr_volume.specs.View.{Rest, volume_seen, track_seen, ids_of};
ghost use Rattle.dr_moves.specs.Checks.{is_stop};
ghost use Rattle.dr_moves.specs.Fit.{RelationsFit};
ghost use Rattle.dr_moves.specs.Here.{refusal_of, armed_in, IsAtRest};
ghost use Rattle.dr_moves.specs.Made.{IsAt};
ghost use Rattle.dr_flash.specs.Standing.{HasNoTarget};
ghost use Rattle.dr_gcopy.specs.Both.{IsOn};
ghost use Rattle.dr_gcopy.specs.Ran.{Ran};
ghost use Rattle.dr_host.specs.Here.{here};
ghost use Rattle.dr_metro.specs.Here.{IsTold};
ghost use Rattle.dr_metro.specs.Mirroring.{CanSettle, CanStore, settle_entries, store_entries, mirror_entries};
ghost use Rattle.dr_metro.specs.Writing.{CanCross, Wrote};

use crate::alone::front;
use crate::both::land_both_by;
use crate::landing::laid;
use crate::moves::{Route, mirror_by, unsync_by};
use dr_config::Config;
use dr_flash::copy_first;
use dr_host::{Host, Pending};
use dr_ids::{Refusal, VolumeId};
use dr_model::Journal;
use dr_moves::read_told;
use dr_plant::{Block, Plant};
use dr_volume::{Fields, peek_fields};

/// Before a track of v changes, its targets keep it, where a volume was found that is one.
fn keep_found<P: Plant>(
    plant: &mut P,
    config: &Config,
    journal: &mut Journal,
    v: VolumeId,
    t: u16,
    found: bool,
) -> Result<(), Refusal>
    requires at { IsAt (P.state plant.old) config.now }
    requires defined { IsSome (place_of config.now v.0) }
    requires running { IsOn (P.state plant.old) config.now v.0 }
    requires within { t < (volume_seen (P.state plant.old) config.now v.0).tracks }
    requires alone { found ≡ false → HasNoTarget (P.state plant.old) config.now v.0 }
    requires room { length config.now.volumes + 1 ≤ journal.old.spare }
    ensures ran { Ran (P.state plant.old) (P.state plant.new) config.now journal.old journal.new (entries.copy_first (ids_of config.now.volumes) v.0 t) (λ q. copies_from v.0 (volume_seen (P.state plant.old) config.now q).fields ≡ false) (length config.now.volumes + 1) (length config.now.volumes) result }
    ensures stops { OnErr result (is_stop (refusal_of result) ≡ true) }
{
    if found {
        return copy_first(plant, config, journal, v, t);
    }
    Ok(())
}

/// The targets of a primary keep the track, and the write lands, which its secondary has stored.
fn settle<P: Plant>(
    plant: &mut P,
    config: &Config,
    journal: &mut Journal,
    h: &mut Host,
    m: Route,
    bytes: &Block,
    fields: &Fields,
    found: bool,
) -> Result<(), Refusal>
    requires can { CanSettle (P.state plant.old) config.now h.old journal.old.events m bytes.now fields.now found }
    requires stored { track_seen (P.state plant.old) config.now m.to.0 m.track ≡ bytes.now }
    requires room { length config.now.volumes + 1 ≤ journal.old.spare }
    ensures wrote { Wrote (P.state plant.old) (P.state plant.new) config.now h.old h.new journal.old journal.new (λ k. settle_entries (ids_of config.now.volumes) m.write.0 m.from.0 m.track) (length config.now.volumes + 1) result }
    ensures stops { OnErr result (is_stop (refusal_of result) ≡ true) }
    ensures equal { OnOk result (track_seen (P.state plant.new) config.now m.to.0 m.track ≡ track_seen (P.state plant.new) config.now m.from.0 m.track) }
{
    keep_found(plant, config, journal, m.from, m.track, found)?;
    land_both_by(
        plant, config, journal, h, m.write, m.from, m.track, bytes, fields,
    )
}

/// The targets of the secondary keep the track, and it stores the new bytes.
fn store_new<P: Plant>(
    plant: &mut P,
    config: &Config,
    journal: &mut Journal,
    m: Route,
    bytes: &Block,
    to: &Fields,
) -> Result<(), Refusal>
    requires can { CanStore (P.state plant.old) config.now journal.old.events m bytes.now to.now }
    requires room { length config.now.volumes + 2 ≤ journal.old.spare }
    ensures ran { Ran (P.state plant.old) (P.state plant.new) config.now journal.old journal.new (store_entries (ids_of config.now.volumes) m.write.0 m.from.0 m.track m.to.0) (λ q. (q ≢ m.to.0) × (copies_from m.to.0 (volume_seen (P.state plant.old) config.now q).fields ≡ false)) (length config.now.volumes + 2) (length config.now.volumes + 1) result }
    ensures stops { OnErr result (is_stop (refusal_of result) ≡ true) }
    ensures stored { OnOk result (track_seen (P.state plant.new) config.now m.to.0 m.track ≡ bytes.now) }
{
    keep_found(plant, config, journal, m.to, m.track, true)?;
    mirror_by(plant, config, journal, m, bytes, to)
}

/// The secondary stores the new bytes, and then the write lands on the primary; the targets of each keep the track first.
fn store_and_settle<P: Plant>(
    plant: &mut P,
    config: &Config,
    journal: &mut Journal,
    h: &mut Host,
    m: Route,
    bytes: &Block,
    fields: &Fields,
    to: &Fields,
    found: bool,
) -> Result<(), Refusal>
    requires settle { CanSettle (P.state plant.old) config.now h.old journal.old.events m bytes.now fields.now found }
    requires store { CanStore (P.state plant.old) config.now journal.old.events m bytes.now to.now }
    requires room { length config.now.volumes + (length config.now.volumes + 2) ≤ journal.old.spare }
    ensures wrote { Wrote (P.state plant.old) (P.state plant.new) config.now h.old h.new journal.old journal.new (λ k. mirror_entries (ids_of config.now.volumes) m.write.0 m.from.0 m.track m.to.0) (length config.now.volumes + (length config.now.volumes + 2)) result }
    ensures stops { OnErr result (is_stop (refusal_of result) ≡ true) }
    ensures equal { OnOk result (track_seen (P.state plant.new) config.now m.to.0 m.track ≡ track_seen (P.state plant.new) config.now m.from.0 m.track) }
{
    store_new(plant, config, journal, m, bytes, to)?;
    settle(plant, config, journal, h, m, bytes, fields, found)
}

/// The secondary u stores pending write w, and then it lands on its primary, of which the track is out of sync; both servers are on, the
/// fields of both are at hand, and whether a volume was found that is a target of the primary. The targets of each keep the track first,
/// and the write is acknowledged. Fails where a server stops in a move or goes off at a read: then the write stays pending, and what was
/// done by then stays. The journal needs room for two events for each volume and two more.
pub fn read_and_store<P: Plant>(
    plant: &mut P,
    config: &Config,
    journal: &mut Journal,
    h: &mut Host,
    w: &Pending,
    u: VolumeId,
    fields: &Fields,
    to: &Fields,
    found: bool,
) -> Result<(), Refusal>
    requires can { CanCross (P.state plant.old) config.now h.old journal.old.events w.now u.0 fields.now to.now found }
    requires room { length config.now.volumes + (length config.now.volumes + 2) ≤ journal.old.spare }
    ensures wrote { Wrote (P.state plant.old) (P.state plant.new) config.now h.old h.new journal.old journal.new (λ k. mirror_entries (ids_of config.now.volumes) w.now.w.0 w.now.volume.0 w.now.track u.0) (length config.now.volumes + (length config.now.volumes + 2)) result }
    ensures stops { OnErr result (is_stop (refusal_of result) ≡ true) }
    ensures equal { OnOk result (track_seen (P.state plant.new) config.now u.0 w.now.track ≡ track_seen (P.state plant.new) config.now w.now.volume.0 w.now.track) }
{
    let m = Route {
        write: w.w,
        from: w.volume,
        to: u,
        track: w.track,
    };
    let mut old = [0; 64];
    read_told(plant, config, journal, w.volume, w.track, &mut old)?;
    let bytes = laid(&old, w.offset, front(&w.bytes, w.len));
    store_and_settle(plant, config, journal, h, m, &bytes, fields, to, found)
}

/// Carries out pending write w on its volume, a primary, and on the secondary u, where both servers are on: the track is
/// out of sync until both have it, the targets of u keep theirs, u stores the new bytes, the targets of the primary keep
/// theirs, and the write lands and is acknowledged. Fails where a server stops in a move or goes off at a read: then the
/// write stays pending, and what was done by then stays. The journal needs room for two events for each volume and two more.
pub fn write_both<P: Plant>(
    plant: &mut P,
    config: &Config,
    journal: &mut Journal,
    h: &mut Host,
    w: &Pending,
    u: VolumeId,
) -> Result<(), Refusal>
    requires rest { IsAtRest (P.state plant.old) config.now }
    requires fit { RelationsFit (P.state plant.old) config.now }
    requires told { IsTold h.old journal.old.events }
    requires from { IsSome (place_of config.now w.now.volume.0) }
    requires to { IsSome (place_of config.now u.0) }
    requires running { (P.state plant.old).on (volume_seen (P.state plant.old) config.now w.now.volume.0).server ≡ true }
    requires reached { (P.state plant.old).on (volume_seen (P.state plant.old) config.now u.0).server ≡ true }
    requires primary { is_part (volume_seen (P.state plant.old) config.now w.now.volume.0).fields.primary ≡ true }
    requires two_servers { (volume_seen (P.state plant.old) config.now w.now.volume.0).server ≢ (volume_seen (P.state plant.old) config.now u.0).server }
    requires within { w.now.track < (volume_seen (P.state plant.old) config.now w.now.volume.0).tracks }
    requires size { (volume_seen (P.state plant.old) config.now u.0).tracks ≡ (volume_seen (P.state plant.old) config.now w.now.volume.0).tracks }
    requires fits { w.now.offset + w.now.len ≤ 64 }
    requires found { find (has_number w.now.w.0) h.old.pending ≡ Some w.now }
    requires room { length config.now.volumes + (length config.now.volumes + 2) ≤ journal.old.spare }
    ensures carried { (r : Rest) → Ends (armed_in (P.state plant.old)) (here (P.state plant.new) config.now r h.new journal.new.events) (refusal_of result) (here (P.state plant.old) config.now r h.old journal.old.events) (land_mirrored (ids_of config.now.volumes) w.now.w.0 w.now.volume.0 w.now.track u.0) }
    ensures stops { OnErr result (is_stop (refusal_of result) ≡ true) }
    ensures equal { OnOk result (track_seen (P.state plant.new) config.now u.0 w.now.track ≡ track_seen (P.state plant.new) config.now w.now.volume.0 w.now.track) }
    ensures rest { IsAtRest (P.state plant.new) config.now }
    ensures fit { RelationsFit (P.state plant.new) config.now }
    ensures told { IsTold h.new journal.new.events }
    ensures unarmed { (q : ℕ) → (P.state plant.old).read_fuse q ≡ None → (P.state plant.new).read_fuse q ≡ None }
    ensures faults { Counted (is_err result) (P.state plant.old).faults (P.state plant.new).faults }
    ensures issued { h.new.issued ≡ h.old.issued }
    ensures room { journal.old.spare ≤ journal.new.spare + (length config.now.volumes + (length config.now.volumes + 2)) }
    ensures spare { length journal.new.events + journal.new.spare ≡ length journal.old.events + journal.old.spare }
{
    let fields = peek_fields(plant, config, w.volume);
    let to = peek_fields(plant, config, u);
    write_both_by(plant, config, journal, h, w, u, &fields, &to, true)
}

/// The same by the fields of both, which are at hand, and whether a volume was found that is a target of the primary: what the first
/// move leaves of the primary's fields is what the last one begins with.
pub(crate) fn write_both_by<P: Plant>(
    plant: &mut P,
    config: &Config,
    journal: &mut Journal,
    h: &mut Host,
    w: &Pending,
    u: VolumeId,
    fields: &Fields,
    to: &Fields,
    found: bool,
) -> Result<(), Refusal>
    requires can { CanCross (P.state plant.old) config.now h.old journal.old.events w.now u.0 fields.now to.now found }
    requires room { length config.now.volumes + (length config.now.volumes + 2) ≤ journal.old.spare }
    ensures wrote { Wrote (P.state plant.old) (P.state plant.new) config.now h.old h.new journal.old journal.new (λ k. land_mirrored (ids_of config.now.volumes) w.now.w.0 w.now.volume.0 w.now.track u.0) (length config.now.volumes + (length config.now.volumes + 2)) result }
    ensures stops { OnErr result (is_stop (refusal_of result) ≡ true) }
    ensures equal { OnOk result (track_seen (P.state plant.new) config.now u.0 w.now.track ≡ track_seen (P.state plant.new) config.now w.now.volume.0 w.now.track) }
{
    let mut next = *fields;
    unsync_by(plant, config, journal, w.volume, w.track, &mut next)?;
    read_and_store(plant, config, journal, h, w, u, &next, to, found)
}
