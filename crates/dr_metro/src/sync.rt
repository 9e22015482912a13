//! A pending write of the host is carried out: on its volume alone, on its secondary first, or behind the send of what its
//! track was.

ghost use Rattle.std.specs.Prelude.{◌≡◌, ◌≢◌, ℕ, ◌<◌, ◌≤◌, ◌+◌, true, false, ◌&&◌, not, [], ◌∷◌, ◌++◌, length, None, Some, IsSome, IfOk, OnOk, OnErr, List};
ghost use Rattle.std.specs.List.{find};
ghost use Rattle.dr_logic.specs.Counts.{Counted};
ghost use Rattle.dr_config.specs.Table.{place_of, StandsFor};
ghost use Rattle.dr_host.specs.Writes.{has_number};
ghost use Rattle.dr_model.specs.Carry.{Entry};
ghost use Rattle.dr_model.specs.Entries.{land_alone, write_checks};
ghost use Rattle.dr_model.specs.Layout.{is_part};
ghost use Rattle.dr_model.specs.declared.event.Event.{Event};
ghost use Rattle.dr_model.specs.Pairs as pairs;
ghost use Rattle.dr_model.specs.Pairs.{is_metro, is_suspended, is_cascaded};
ghost use Rattle.dr_model.specs.ReadStops.{Ends};
ghost use Rattle.dr_model.specs.WriteEntries as entries;
ghost use Rattle.dr_model.specs.WriteEntries.{part_after, waits, write_stretches};
ghost use Rattle.dr_volume.specs.Plain.{plain};
ghost use Rattle.dr_volume.specs.View.{Rest, volume_seen, ids_of};
ghost use Rattle.dr_volume.specs.Volume.{Says, Shows};
ghost use Rattle.dr_moves.specs.Checks.{is_stop};
ghost use Rattle.dr_moves.specs.Fit.{RelationsFit};
ghost use Rattle.dr_moves.specs.Here.{world_seen, refusal_of, armed_in, IsAtRest};
ghost use Rattle.dr_moves.specs.Made.{IsAt, IsPrimary};
ghost use Rattle.dr_flash.specs.HostWrites.{write_refusal};
ghost use Rattle.dr_flash.specs.Standing.{HasNoTarget};
ghost use Rattle.dr_gcopy.specs.Both.{IsOn};
ghost use Rattle.dr_gcopy.specs.Sending.{MayPair};
ghost use Rattle.dr_moves.specs.Followed.{EndsIn, Follows};
ghost use Rattle.dr_host.specs.Here.{here};
ghost use Rattle.dr_metro.specs.Here.{IsTold};
ghost use Rattle.dr_metro.specs.Landing.{landed_on};
ghost use Rattle.dr_metro.specs.Mirroring.{Mirrors};
ghost use Rattle.dr_metro.specs.declared.sync.WriteEnd.TheVariants.{Landed};
ghost use Rattle.dr_metro.specs.Syncing.{parted_entries, over_entries, end_of, parts, stretches_by, waits_by};
ghost use Rattle.dr_metro.specs.Writing.{IsDue, Wrote, WroteIn, landed_so};

use crate::alone::{write_alone, write_here};
use crate::colliding::write_collided;
use crate::mirroring::write_both_by;
use crate::parting::{followed, is_grouped, landed};
use crate::states::goes_over;
use dr_config::Config;
use dr_flash::write_refusal_by;
use dr_gcopy::{collides, is_secondary_of, reach_refusal, suspend};
use dr_host::{Host, Pending};
use dr_ids::{Refusal, ServerId, VolumeId};
use dr_model::Journal;
use dr_moves::server_of;
use dr_plant::Plant;
use dr_volume::{Fields, head_by, is_held, peek_fields};

/// What became of a host write that was carried out.
#[derive(Clone, Copy)]
pub enum WriteEnd {
    /// It landed, and was acknowledged.
    Landed,
    /// It waits.
    Held,
}

/// Whether v can send to u, of which the fields are at hand.
pub fn can_send<P: Plant>(plant: &P, config: &Config, v: VolumeId, u: VolumeId, to: &Fields) -> bool
    requires stands { StandsFor config.now (P.state plant.now) }
    requires from { IsSome (place_of config.now v.0) }
    requires to { IsSome (place_of config.now u.0) }
    requires says { Says (P.state plant.now) config.now u.0 to.now }
    ensures sends { (r : Rest) (events : List Event) → result ≡ not (parts (world_seen (P.state plant.now) config.now r events).control v.0 u.0) }
    ensures reached { result ≡ true → IsOn (P.state plant.now) config.now u.0 }
{
    if reach_refusal(plant, config, v, u).is_some() {
        return false;
    }
    is_secondary_of(to, v)
}

/// Suspends a primary that can't send to its secondary, and whose server is on: the write waits where it is long busy from then on, or
/// lands alone. Fails where the server stops in a move or goes off at a read: then the write stays pending, and what was done by then
/// stays. The journal needs room for an event for each volume and four more.
pub fn write_parted<P: Plant>(
    plant: &mut P,
    config: &Config,
    journal: &mut Journal,
    h: &mut Host,
    w: &Pending,
    busy: bool,
) -> Result<WriteEnd, Refusal>
    requires due { IsDue (P.state plant.old) config.now h.old journal.old.events w.now }
    requires running { IsOn (P.state plant.old) config.now w.now.volume.0 }
    requires primary { IsPrimary (P.state plant.old) config.now w.now.volume.0 }
    requires room { length config.now.volumes + 4 ≤ journal.old.spare }
    ensures wrote { Wrote (P.state plant.old) (P.state plant.new) config.now h.old h.new journal.old journal.new (λ k. parted_entries (ids_of config.now.volumes) busy w.now.w.0 w.now.volume.0 w.now.track) (length config.now.volumes + 3) result }
    ensures end { IfOk result (λ e. e ≡ end_of busy) }
    ensures suspended { OnOk result (is_suspended (volume_seen (P.state plant.new) config.now w.now.volume.0).fields.primary_state ≡ true) }
    ensures stops { OnErr result (is_stop (refusal_of result) ≡ true) }
{
    suspend(plant, config, journal, w.volume, busy)?;
    if busy {
        return Ok(WriteEnd::Held);
    }
    landed(write_alone(plant, config, journal, h, w))
}

/// Carries out the write on the secondary u and then on its primary, or where it can't be sent there as above.
fn write_over<P: Plant>(
    plant: &mut P,
    config: &Config,
    journal: &mut Journal,
    h: &mut Host,
    w: &Pending,
    u: VolumeId,
    fields: &Fields,
    found: bool,
) -> Result<WriteEnd, Refusal>
    requires due { IsDue (P.state plant.old) config.now h.old journal.old.events w.now }
    requires running { IsOn (P.state plant.old) config.now w.now.volume.0 }
    requires primary { IsPrimary (P.state plant.old) config.now w.now.volume.0 }
    requires pair { MayPair (P.state plant.old) config.now w.now.volume.0 u.0 }
    requires says { Says (P.state plant.old) config.now w.now.volume.0 fields.now }
    requires alone { found ≡ false → HasNoTarget (P.state plant.old) config.now w.now.volume.0 }
    requires room { length config.now.volumes + (length config.now.volumes + 4) ≤ journal.old.spare }
    ensures wrote { Wrote (P.state plant.old) (P.state plant.new) config.now h.old h.new journal.old journal.new (λ k. over_entries (ids_of config.now.volumes) (parts k w.now.volume.0 u.0) (entries.is_grouped k w.now.volume.0 u.0) w.now.w.0 w.now.volume.0 w.now.track u.0) (length config.now.volumes + (length config.now.volumes + 3)) result }
    ensures end { (r : Rest) → IfOk result (λ e. e ≡ end_of (parts (here (P.state plant.old) config.now r h.old journal.old.events).control w.now.volume.0 u.0 && entries.is_grouped (here (P.state plant.old) config.now r h.old journal.old.events).control w.now.volume.0 u.0)) }
    ensures mirrors { OnOk result (Mirrors (P.state plant.new) config.now w.now.volume.0 u.0 w.now.track) }
    ensures stops { OnErr result (is_stop (refusal_of result) ≡ true) }
{
    let to = peek_fields(plant, config, u);
    if !can_send(plant, config, w.volume, u, &to) {
        let busy = is_grouped(config, w.volume, u);
        return write_parted(plant, config, journal, h, w, busy);
    }
    landed(write_both_by(plant, config, journal, h, w, u, fields, &to, found))
}

/// Whether the host may write there; says whether a volume was found that is a target of the write's. Refused where the server is off;
/// and where the volume is a secondary, an inhibited target, or in a revertible or reversing relationship, and then the write is dropped.
pub fn check_write<P: Plant>(
    plant: &P,
    config: &Config,
    h: &mut Host,
    w: &Pending,
    fields: &Fields,
    server: ServerId,
) -> Result<bool, Refusal>
    requires at { IsAt (P.state plant.now) config.now }
    requires defined { IsSome (place_of config.now w.now.volume.0) }
    requires server { (volume_seen (P.state plant.now) config.now w.now.volume.0).server ≡ server.0 }
    requires known { server.0 < 8 }
    requires shows { Shows (P.state plant.now) config.now w.now.volume.0 fields.now }
    requires found { find (has_number w.now.w.0) h.old.pending ≡ Some w.now }
    ensures ends { OnErr result ((r : Rest) (events : List Event) (es : List Entry) → Ends (armed_in (P.state plant.now)) (here (P.state plant.now) config.now r h.new events) (refusal_of result) (here (P.state plant.now) config.now r h.old events) (write_checks (here (P.state plant.now) config.now r h.old events).control w.now.w.0 w.now.volume.0 ++ es)) }
    ensures calm { is_stop (refusal_of result) ≡ false }
    ensures told { (events : List Event) → IsTold h.old events → IsTold h.new events }
    ensures issued { h.new.issued ≡ h.old.issued }
    ensures same { OnOk result (h.new ≡ h.old) }
    ensures running { OnOk result (IsOn (P.state plant.now) config.now w.now.volume.0) }
    ensures free { OnOk result ((r : Rest) (events : List Event) → write_refusal (world_seen (P.state plant.now) config.now r events).control w.now.volume.0 ≡ None) }
    ensures alone { IfOk result (λ found. found ≡ false → HasNoTarget (P.state plant.now) config.now w.now.volume.0) }
{
    if !plant.is_on(server.0) {
        return Err(Refusal::ServerOff { server });
    }
    match write_refusal_by(plant, config, w.volume, &head_by(fields)) {
        Ok(found) => Ok(found),
        Err(why) => {
            h.finish(w.w);
            Err(why)
        }
    }
}

/// Carries out a write that is sent to no secondary, on a volume whose server is on and of which the fields are at hand, with what follows
/// the stop of a server: the write lands, and is acknowledged. Fails where the server stops in a move or goes off at a read: then the write
/// stays pending, and what was done by then stays. The journal needs room for an event for each volume and four more.
pub fn write_unsent<P: Plant>(
    plant: &mut P,
    config: &Config,
    journal: &mut Journal,
    h: &mut Host,
    w: &Pending,
    fields: &Fields,
    server: ServerId,
    found: bool,
) -> Result<WriteEnd, Refusal>
    requires due { IsDue (P.state plant.old) config.now h.old journal.old.events w.now }
    requires running { IsOn (P.state plant.old) config.now w.now.volume.0 }
    requires server { (volume_seen (P.state plant.old) config.now w.now.volume.0).server ≡ server.0 }
    requires known { server.0 < 8 }
    requires shows { Shows (P.state plant.old) config.now w.now.volume.0 fields.now }
    requires alone { found ≡ false → HasNoTarget (P.state plant.old) config.now w.now.volume.0 }
    requires room { length config.now.volumes + 4 ≤ journal.old.spare }
    ensures wrote { WroteIn (P.state plant.old) (P.state plant.new) config.now h.old h.new journal.old journal.new (λ k. record { entries = land_alone (ids_of config.now.volumes) w.now.w.0 w.now.volume.0 w.now.track; follows = part_after w.now.volume.0 } ∷ []) (length config.now.volumes + 4) result }
    ensures end { IfOk result (λ e. e ≡ Landed) }
    ensures left { OnOk result ((volume_seen (P.state plant.new) config.now w.now.volume.0).fields ≡ landed_on (volume_seen (P.state plant.old) config.now w.now.volume.0) w.now.track) }
{
    let done = landed(write_here(plant, config, journal, h, w, fields, server, found));
    followed(plant, config, journal, w.volume, done)
}

/// Carries out the write on a volume where the host may write, with what follows the stop of a server; its fields are at hand, and
/// whether a volume was found that is its target.
fn place_write<P: Plant>(
    plant: &mut P,
    config: &Config,
    journal: &mut Journal,
    h: &mut Host,
    w: &Pending,
    fields: &Fields,
    server: ServerId,
    found: bool,
) -> Result<WriteEnd, Refusal>
    requires due { IsDue (P.state plant.old) config.now h.old journal.old.events w.now }
    requires running { IsOn (P.state plant.old) config.now w.now.volume.0 }
    requires pair { is_part fields.now.primary ≡ true → MayPair (P.state plant.old) config.now w.now.volume.0 fields.now.primary_partner.0 }
    requires server { (volume_seen (P.state plant.old) config.now w.now.volume.0).server ≡ server.0 }
    requires known { server.0 < 8 }
    requires shows { Shows (P.state plant.old) config.now w.now.volume.0 fields.now }
    requires alone { found ≡ false → HasNoTarget (P.state plant.old) config.now w.now.volume.0 }
    requires room { length config.now.volumes + (length config.now.volumes + 7) ≤ journal.old.spare }
    ensures wrote { WroteIn (P.state plant.old) (P.state plant.new) config.now h.old h.new journal.old journal.new (λ k. stretches_by k (plain fields.now) w.now.w.0 w.now.volume.0 w.now.track) (length config.now.volumes + (length config.now.volumes + 6)) result }
    ensures end { (r : Rest) → IfOk result (λ e. e ≡ end_of (waits_by (here (P.state plant.old) config.now r h.old journal.old.events).control (plain fields.now) w.now.volume.0 w.now.track)) }
    ensures mirrors { is_metro fields.now.primary ≡ true → IfOk result (λ e. e ≡ Landed → Mirrors (P.state plant.new) config.now w.now.volume.0 fields.now.primary_partner.0 w.now.track) }
{
    if is_held(fields) {
        return Ok(WriteEnd::Held);
    }
    let u = fields.primary_partner;
    if goes_over(fields, w.track) {
        let done = write_over(plant, config, journal, h, w, u, fields, found);
        return followed(plant, config, journal, w.volume, done);
    }
    if collides(fields, w.track) {
        return write_collided(plant, config, journal, h, w, u);
    }
    write_unsent(plant, config, journal, h, w, fields, server, found)
}

/// The same as `sync_write` of a volume whose fields are at hand: whether its secondary is cascaded is asked only where the write goes there.
pub fn sync_write_by<P: Plant>(
    plant: &mut P,
    config: &Config,
    journal: &mut Journal,
    h: &mut Host,
    w: &Pending,
    fields: &Fields,
) -> Result<WriteEnd, Refusal>
    requires due { IsDue (P.state plant.old) config.now h.old journal.old.events w.now }
    requires pair { is_part fields.now.primary ≡ true → MayPair (P.state plant.old) config.now w.now.volume.0 fields.now.primary_partner.0 }
    requires uncascaded { pairs.goes_over (plain fields.now) w.now.track ≡ true → is_cascaded (volume_seen (P.state plant.old) config.now fields.now.primary_partner.0).fields ≡ false }
    requires shows { Shows (P.state plant.old) config.now w.now.volume.0 fields.now }
    requires room { length config.now.volumes + (length config.now.volumes + 7) ≤ journal.old.spare }
    ensures wrote { WroteIn (P.state plant.old) (P.state plant.new) config.now h.old h.new journal.old journal.new (λ k. write_stretches k w.now.w.0 w.now.volume.0 w.now.track) (length config.now.volumes + (length config.now.volumes + 6)) result }
    ensures end { (r : Rest) → IfOk result (λ e. e ≡ end_of (waits (here (P.state plant.old) config.now r h.old journal.old.events).control w.now.volume.0 w.now.track)) }
    ensures mirrors { is_metro fields.now.primary ≡ true → IfOk result (λ e. e ≡ Landed → Mirrors (P.state plant.new) config.now w.now.volume.0 fields.now.primary_partner.0 w.now.track) }
{
    let server = server_of(config, w.volume);
    let found = check_write(plant, config, h, w, fields, server)?;
    place_write(plant, config, journal, h, w, fields, server, found)
}

/// Carries out pending write w. Where its volume is a primary, the secondary is defined, on another server and of the
/// same size, and that of a Metro Mirror primary isn't cascaded. Refused where the volume's server is off; then the write stays pending. Refused too where the volume is a
/// secondary, or else an inhibited target, or else stands in a revertible or a reversing relationship; then the write is
/// dropped. Where the volume is held the write waits, and nothing is done. On a Metro Mirror primary that isn't
/// Suspended, of which the track isn't out of sync, it goes to the secondary first: the track is out of sync until both
/// have it, the secondary stores the new bytes, and then it lands; the targets of each keep the track before it changes.
/// Where the secondary can't be reached, or isn't that of the primary, the primary is suspended, and where the path
/// between them has its group flag it is long busy and the write waits; else it lands on the primary alone, as it does on
/// any other volume. Where it collides, as a Global Copy primary records and still has the track out of sync, the track
/// is sent first as it was: the targets of the secondary keep theirs, the secondary stores it, and the primary strikes it
/// off. Where the secondary can't be reached, or isn't that of the primary, the primary is suspended instead, and where
/// the secondary stands in a revertible relationship nothing is sent; then the write lands. A write that landed is
/// acknowledged. Fails where a server stops in a move or goes off at a read: then the write stays pending, what was done
/// by then stays, and a primary whose own server still runs is suspended, long busy where the path has its group flag and
/// the write didn't collide. The first stop is the one that is given. The journal needs room for two events for each
/// volume and seven more.
pub fn sync_write<P: Plant>(
    plant: &mut P,
    config: &Config,
    journal: &mut Journal,
    h: &mut Host,
    w: &Pending,
) -> Result<WriteEnd, Refusal>
    requires rest { IsAtRest (P.state plant.old) config.now }
    requires fit { RelationsFit (P.state plant.old) config.now }
    requires told { IsTold h.old journal.old.events }
    requires defined { IsSome (place_of config.now w.now.volume.0) }
    requires to { is_part (volume_seen (P.state plant.old) config.now w.now.volume.0).fields.primary ≡ true → IsSome (place_of config.now (volume_seen (P.state plant.old) config.now w.now.volume.0).fields.primary_partner) }
    requires two_servers { is_part (volume_seen (P.state plant.old) config.now w.now.volume.0).fields.primary ≡ true → (volume_seen (P.state plant.old) config.now w.now.volume.0).server ≢ (volume_seen (P.state plant.old) config.now (volume_seen (P.state plant.old) config.now w.now.volume.0).fields.primary_partner).server }
    requires size { is_part (volume_seen (P.state plant.old) config.now w.now.volume.0).fields.primary ≡ true → (volume_seen (P.state plant.old) config.now (volume_seen (P.state plant.old) config.now w.now.volume.0).fields.primary_partner).tracks ≡ (volume_seen (P.state plant.old) config.now w.now.volume.0).tracks }
    requires uncascaded { is_metro (volume_seen (P.state plant.old) config.now w.now.volume.0).fields.primary ≡ true → is_cascaded (volume_seen (P.state plant.old) config.now (volume_seen (P.state plant.old) config.now w.now.volume.0).fields.primary_partner).fields ≡ false }
    requires within { w.now.track < (volume_seen (P.state plant.old) config.now w.now.volume.0).tracks }
    requires fits { w.now.offset + w.now.len ≤ 64 }
    requires found { find (has_number w.now.w.0) h.old.pending ≡ Some w.now }
    requires room { length config.now.volumes + (length config.now.volumes + 7) ≤ journal.old.spare }
    ensures carried { (r : Rest) → EndsIn (armed_in (P.state plant.old)) (here (P.state plant.old) config.now r h.old journal.old.events) (write_stretches (here (P.state plant.old) config.now r h.old journal.old.events).control w.now.w.0 w.now.volume.0 w.now.track) (here (P.state plant.new) config.now r h.new journal.new.events) (refusal_of result) }
    ensures end { (r : Rest) → IfOk result (λ e. e ≡ end_of (waits (here (P.state plant.old) config.now r h.old journal.old.events).control w.now.volume.0 w.now.track)) }
    ensures mirrors { is_metro (volume_seen (P.state plant.old) config.now w.now.volume.0).fields.primary ≡ true → IfOk result (λ e. e ≡ Landed → Mirrors (P.state plant.new) config.now w.now.volume.0 (volume_seen (P.state plant.old) config.now w.now.volume.0).fields.primary_partner w.now.track) }
    ensures rest { IsAtRest (P.state plant.new) config.now }
    ensures fit { RelationsFit (P.state plant.new) config.now }
    ensures told { IsTold h.new journal.new.events }
    ensures unarmed { (q : ℕ) → (P.state plant.old).read_fuse q ≡ None → (P.state plant.new).read_fuse q ≡ None }
    ensures faults { Counted (is_stop (refusal_of result)) (P.state plant.old).faults (P.state plant.new).faults }
    ensures issued { h.new.issued ≡ h.old.issued }
    ensures room { journal.old.spare ≤ journal.new.spare + (length config.now.volumes + (length config.now.volumes + 6)) }
    ensures spare { length journal.new.events + journal.new.spare ≡ length journal.old.events + journal.old.spare }
{
    let fields = peek_fields(plant, config, w.volume);
    sync_write_by(plant, config, journal, h, w, &fields)
}
