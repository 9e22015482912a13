//! A host write goes to a cascaded secondary before it lands on the primary.

ghost use Rattle.std.specs.Prelude.{◌≡◌, ℕ, ◌<◌, ◌≤◌, ◌+◌, true, false, [], ◌∷◌, length, None, Some, IsSome, IfOk, OnOk, OnErr};
ghost use Rattle.std.specs.List.{find};
ghost use Rattle.dr_logic.specs.Counts.{Counted};
ghost use Rattle.dr_config.specs.Table.{place_of};
ghost use Rattle.dr_host.specs.Writes.{has_number};
ghost use Rattle.dr_host.specs.Here.{here};
ghost use Rattle.dr_model.specs.PairEntries as pair_entries;
ghost use Rattle.dr_model.specs.Pairs as pairs;
ghost use Rattle.dr_model.specs.Pairs.{is_cascaded, is_metro};
ghost use Rattle.dr_model.specs.WriteEntries as write_entries;
ghost use Rattle.dr_model.specs.WriteEntries.{mirror_and_land, part_after, waits, write_stretches};
ghost use Rattle.dr_volume.specs.Plain.{plain};
ghost use Rattle.dr_volume.specs.View.{Rest, volume_seen, ids_of};
ghost use Rattle.dr_volume.specs.Volume.{Shows};
ghost use Rattle.dr_moves.specs.Checks.{is_stop};
ghost use Rattle.dr_moves.specs.Fit.{RelationsFit};
ghost use Rattle.dr_moves.specs.Followed.{EndsIn};
ghost use Rattle.dr_moves.specs.Here.{refusal_of, armed_in, IsAtRest};
ghost use Rattle.dr_moves.specs.Made.{IsPrimary};
ghost use Rattle.dr_flash.specs.Standing.{HasNoTarget};
ghost use Rattle.dr_gcopy.specs.Both.{IsOn};
ghost use Rattle.dr_gcopy.specs.Sending.{MayPair};
ghost use Rattle.dr_metro.specs.Here.{IsTold};
ghost use Rattle.dr_metro.specs.Mirroring.{Mirrors};
ghost use Rattle.dr_metro.specs.Syncing.{end_of, fed_stretches, placed_stretches};
ghost use Rattle.dr_metro.specs.Writing.{CanCross, IsDue, WroteIn};
ghost use Rattle.dr_metro.specs.declared.sync.WriteEnd.TheVariants.{Landed};

use crate::following::follow_fed;
use dr_config::Config;
use dr_gcopy::{collides, send_old};
use dr_host::{Host, Pending};
use dr_ids::{Refusal, ServerId, VolumeId};
use dr_metro::{
    WriteEnd, can_send, check_write, followed, goes_over, is_grouped, landed, read_and_store,
    unsync_by, write_parted, write_unsent,
};
use dr_model::Journal;
use dr_moves::server_of;
use dr_plant::Plant;
use dr_volume::{Fields, is_held, peek_fields};

/// The secondary u stores the write, and it lands on its primary, by the fields of both, with what follows the stop of a server.
fn store_and_land<P: Plant>(
    plant: &mut P,
    config: &Config,
    journal: &mut Journal,
    h: &mut Host,
    w: &Pending,
    u: VolumeId,
    fields: &Fields,
    to: &Fields,
    found: bool,
) -> Result<WriteEnd, Refusal>
    requires can { CanCross (P.state plant.old) config.now h.old journal.old.events w.now u.0 fields.now to.now found }
    requires room { length config.now.volumes + (length config.now.volumes + 5) ≤ journal.old.spare }
    ensures wrote { WroteIn (P.state plant.old) (P.state plant.new) config.now h.old h.new journal.old journal.new (λ k. record { entries = mirror_and_land (ids_of config.now.volumes) w.now.w.0 w.now.volume.0 w.now.track u.0; follows = part_after w.now.volume.0 } ∷ []) (length config.now.volumes + (length config.now.volumes + 5)) result }
    ensures end { IfOk result (λ e. e ≡ Landed) }
    ensures mirrors { OnOk result (Mirrors (P.state plant.new) config.now w.now.volume.0 u.0 w.now.track) }
{
    let done = landed(read_and_store(plant, config, journal, h, w, u, fields, to, found));
    followed(plant, config, journal, w.volume, done)
}

/// The same where the track collides at u: what it was is sent on to the secondary of u first.
fn send_and_land<P: Plant>(
    plant: &mut P,
    config: &Config,
    journal: &mut Journal,
    h: &mut Host,
    w: &Pending,
    u: VolumeId,
    c: VolumeId,
    found: bool,
) -> Result<WriteEnd, Refusal>
    requires due { IsDue (P.state plant.old) config.now h.old journal.old.events w.now }
    requires running { IsOn (P.state plant.old) config.now w.now.volume.0 }
    requires reached { IsOn (P.state plant.old) config.now u.0 }
    requires primary { IsPrimary (P.state plant.old) config.now w.now.volume.0 }
    requires next_primary { IsPrimary (P.state plant.old) config.now u.0 }
    requires collides { pairs.collides (volume_seen (P.state plant.old) config.now u.0).fields w.now.track ≡ true }
    requires pair { MayPair (P.state plant.old) config.now w.now.volume.0 u.0 }
    requires next { MayPair (P.state plant.old) config.now u.0 c.0 }
    requires alone { found ≡ false → HasNoTarget (P.state plant.old) config.now w.now.volume.0 }
    requires room { length config.now.volumes + (length config.now.volumes + (length config.now.volumes + 9)) ≤ journal.old.spare }
    ensures wrote { WroteIn (P.state plant.old) (P.state plant.new) config.now h.old h.new journal.old journal.new
        (λ k. record { entries = pair_entries.send_first (ids_of config.now.volumes) u.0 c.0 w.now.track; follows = pair_entries.suspend_running u.0 ∷ write_entries.part_running w.now.volume.0 ∷ [] } ∷ record { entries = mirror_and_land (ids_of config.now.volumes) w.now.w.0 w.now.volume.0 w.now.track u.0; follows = part_after w.now.volume.0 } ∷ []) (length config.now.volumes + (length config.now.volumes + (length config.now.volumes + 9))) result }
    ensures end { IfOk result (λ e. e ≡ Landed) }
    ensures mirrors { OnOk result (Mirrors (P.state plant.new) config.now w.now.volume.0 u.0 w.now.track) }
{
    match send_old(plant, config, journal, u, c, w.track) {
        Ok(()) => {
            // (the volume of the write may be a target of c that kept its track: so its fields are read again too)
            let fields = peek_fields(plant, config, w.volume);
            let to = peek_fields(plant, config, u);
            store_and_land(plant, config, journal, h, w, u, &fields, &to, found)
        }
        Err(why) => {
            follow_fed(plant, config, journal, w.volume, u, why);
            Err(why)
        }
    }
}

/// The write lands on the cascaded secondary u and on its primary, of which the track is out of sync: what the track was at u is sent on
/// first, if it collides there.
fn land_fed<P: Plant>(
    plant: &mut P,
    config: &Config,
    journal: &mut Journal,
    h: &mut Host,
    w: &Pending,
    u: VolumeId,
    fields: &Fields,
    to: &Fields,
    found: bool,
) -> Result<WriteEnd, Refusal>
    requires can { CanCross (P.state plant.old) config.now h.old journal.old.events w.now u.0 fields.now to.now found }
    requires next_primary { IsPrimary (P.state plant.old) config.now u.0 }
    requires next { MayPair (P.state plant.old) config.now u.0 to.now.primary_partner.0 }
    requires room { length config.now.volumes + (length config.now.volumes + (length config.now.volumes + 9)) ≤ journal.old.spare }
    ensures wrote { WroteIn (P.state plant.old) (P.state plant.new) config.now h.old h.new journal.old journal.new
        (λ k. record { entries = pair_entries.send_first (ids_of config.now.volumes) u.0 to.now.primary_partner.0 w.now.track; follows = pair_entries.suspend_running u.0 ∷ write_entries.part_running w.now.volume.0 ∷ [] } ∷ record { entries = mirror_and_land (ids_of config.now.volumes) w.now.w.0 w.now.volume.0 w.now.track u.0; follows = part_after w.now.volume.0 } ∷ []) (length config.now.volumes + (length config.now.volumes + (length config.now.volumes + 9))) result }
    ensures end { IfOk result (λ e. e ≡ Landed) }
    ensures mirrors { OnOk result (Mirrors (P.state plant.new) config.now w.now.volume.0 u.0 w.now.track) }
{
    if collides(to, w.track) {
        return send_and_land(plant, config, journal, h, w, u, to.primary_partner, found);
    }
    store_and_land(plant, config, journal, h, w, u, fields, to, found)
}

/// Carries out the write on the cascaded secondary u, which can be reached and isn't held back, and then on its primary.
fn write_fed<P: Plant>(
    plant: &mut P,
    config: &Config,
    journal: &mut Journal,
    h: &mut Host,
    w: &Pending,
    u: VolumeId,
    fields: &Fields,
    to: &Fields,
    found: bool,
) -> Result<WriteEnd, Refusal>
    requires can { CanCross (P.state plant.old) config.now h.old journal.old.events w.now u.0 fields.now to.now found }
    requires next_primary { IsPrimary (P.state plant.old) config.now u.0 }
    requires next { MayPair (P.state plant.old) config.now u.0 to.now.primary_partner.0 }
    requires room { length config.now.volumes + (length config.now.volumes + (length config.now.volumes + 9)) ≤ journal.old.spare }
    ensures wrote { WroteIn (P.state plant.old) (P.state plant.new) config.now h.old h.new journal.old journal.new (λ k. fed_stretches (ids_of config.now.volumes) w.now.w.0 w.now.volume.0 w.now.track u.0 to.now.primary_partner.0) (length config.now.volumes + (length config.now.volumes + (length config.now.volumes + 9))) result }
    ensures end { IfOk result (λ e. e ≡ Landed) }
    ensures mirrors { OnOk result (Mirrors (P.state plant.new) config.now w.now.volume.0 u.0 w.now.track) }
{
    let mut next = *fields;
    match unsync_by(plant, config, journal, w.volume, w.track, &mut next) {
        Ok(()) => land_fed(plant, config, journal, h, w, u, &next, to, found),
        Err(why) => followed(plant, config, journal, w.volume, Err(why)),
    }
}

/// Carries out the write where it goes over to its cascaded secondary u, or where that can't be reached, or is held back.
fn write_over<P: Plant>(
    plant: &mut P,
    config: &Config,
    journal: &mut Journal,
    h: &mut Host,
    w: &Pending,
    u: VolumeId,
    fields: &Fields,
    found: bool,
) -> Result<WriteEnd, Refusal>
    requires due { IsDue (P.state plant.old) config.now h.old journal.old.events w.now }
    requires running { IsOn (P.state plant.old) config.now w.now.volume.0 }
    requires primary { IsPrimary (P.state plant.old) config.now w.now.volume.0 }
    requires shows { Shows (P.state plant.old) config.now w.now.volume.0 fields.now }
    requires partner { fields.now.primary_partner.0 ≡ u.0 }
    requires free { pairs.held (plain fields.now) ≡ false }
    requires goes { pairs.goes_over (plain fields.now) w.now.track ≡ true }
    requires cascaded { is_cascaded (volume_seen (P.state plant.old) config.now u.0).fields ≡ true }
    requires pair { MayPair (P.state plant.old) config.now w.now.volume.0 u.0 }
    requires next { MayPair (P.state plant.old) config.now u.0 (volume_seen (P.state plant.old) config.now u.0).fields.primary_partner }
    requires alone { found ≡ false → HasNoTarget (P.state plant.old) config.now w.now.volume.0 }
    requires room { length config.now.volumes + (length config.now.volumes + (length config.now.volumes + 9)) ≤ journal.old.spare }
    ensures wrote { WroteIn (P.state plant.old) (P.state plant.new) config.now h.old h.new journal.old journal.new (λ k. placed_stretches k w.now.w.0 w.now.volume.0 w.now.track) (length config.now.volumes + (length config.now.volumes + (length config.now.volumes + 9))) result }
    ensures end { (r : Rest) → IfOk result (λ e. e ≡ end_of (waits (here (P.state plant.old) config.now r h.old journal.old.events).control w.now.volume.0 w.now.track)) }
    ensures mirrors { IfOk result (λ e. e ≡ Landed → Mirrors (P.state plant.new) config.now w.now.volume.0 u.0 w.now.track) }
{
    let to = peek_fields(plant, config, u);
    if !can_send(plant, config, w.volume, u, &to) {
        let busy = is_grouped(config, w.volume, u);
        let done = write_parted(plant, config, journal, h, w, busy);
        return followed(plant, config, journal, w.volume, done);
    }
    if to.coordination {
        return Ok(WriteEnd::Held);
    }
    write_fed(plant, config, journal, h, w, u, fields, &to, found)
}

/// Carries out the write where the host may write; the fields of its volume are at hand, and whether a volume was found that is its target.
fn place_write<P: Plant>(
    plant: &mut P,
    config: &Config,
    journal: &mut Journal,
    h: &mut Host,
    w: &Pending,
    fields: &Fields,
    server: ServerId,
    found: bool,
) -> Result<WriteEnd, Refusal>
    requires due { IsDue (P.state plant.old) config.now h.old journal.old.events w.now }
    requires running { IsOn (P.state plant.old) config.now w.now.volume.0 }
    requires server { (volume_seen (P.state plant.old) config.now w.now.volume.0).server ≡ server.0 }
    requires known { server.0 < 8 }
    requires shows { Shows (P.state plant.old) config.now w.now.volume.0 fields.now }
    requires metro { is_metro fields.now.primary ≡ true }
    requires cascaded { is_cascaded (volume_seen (P.state plant.old) config.now fields.now.primary_partner.0).fields ≡ true }
    requires pair { MayPair (P.state plant.old) config.now w.now.volume.0 fields.now.primary_partner.0 }
    requires next { MayPair (P.state plant.old) config.now fields.now.primary_partner.0 (volume_seen (P.state plant.old) config.now fields.now.primary_partner.0).fields.primary_partner }
    requires alone { found ≡ false → HasNoTarget (P.state plant.old) config.now w.now.volume.0 }
    requires room { length config.now.volumes + (length config.now.volumes + (length config.now.volumes + 9)) ≤ journal.old.spare }
    ensures wrote { WroteIn (P.state plant.old) (P.state plant.new) config.now h.old h.new journal.old journal.new (λ k. placed_stretches k w.now.w.0 w.now.volume.0 w.now.track) (length config.now.volumes + (length config.now.volumes + (length config.now.volumes + 9))) result }
    ensures end { (r : Rest) → IfOk result (λ e. e ≡ end_of (waits (here (P.state plant.old) config.now r h.old journal.old.events).control w.now.volume.0 w.now.track)) }
    ensures mirrors { IfOk result (λ e. e ≡ Landed → Mirrors (P.state plant.new) config.now w.now.volume.0 fields.now.primary_partner.0 w.now.track) }
{
    if is_held(fields) {
        return Ok(WriteEnd::Held);
    }
    if goes_over(fields, w.track) {
        let u = fields.primary_partner;
        return write_over(plant, config, journal, h, w, u, fields, found);
    }
    write_unsent(plant, config, journal, h, w, fields, server, found)
}

/// The same as `cascade_write` of a volume whose fields are at hand.
pub fn cascade_write_by<P: Plant>(
    plant: &mut P,
    config: &Config,
    journal: &mut Journal,
    h: &mut Host,
    w: &Pending,
    fields: &Fields,
) -> Result<WriteEnd, Refusal>
    requires due { IsDue (P.state plant.old) config.now h.old journal.old.events w.now }
    requires shows { Shows (P.state plant.old) config.now w.now.volume.0 fields.now }
    requires metro { is_metro fields.now.primary ≡ true }
    requires cascaded { is_cascaded (volume_seen (P.state plant.old) config.now fields.now.primary_partner.0).fields ≡ true }
    requires pair { MayPair (P.state plant.old) config.now w.now.volume.0 fields.now.primary_partner.0 }
    requires next { MayPair (P.state plant.old) config.now fields.now.primary_partner.0 (volume_seen (P.state plant.old) config.now fields.now.primary_partner.0).fields.primary_partner }
    requires room { length config.now.volumes + (length config.now.volumes + (length config.now.volumes + 9)) ≤ journal.old.spare }
    ensures wrote { WroteIn (P.state plant.old) (P.state plant.new) config.now h.old h.new journal.old journal.new (λ k. write_stretches k w.now.w.0 w.now.volume.0 w.now.track) (length config.now.volumes + (length config.now.volumes + (length config.now.volumes + 9))) result }
    ensures end { (r : Rest) → IfOk result (λ e. e ≡ end_of (waits (here (P.state plant.old) config.now r h.old journal.old.events).control w.now.volume.0 w.now.track)) }
    ensures mirrors { IfOk result (λ e. e ≡ Landed → Mirrors (P.state plant.new) config.now w.now.volume.0 fields.now.primary_partner.0 w.now.track) }
{
    let server = server_of(config, w.volume);
    let found = check_write(plant, config, h, w, fields, server)?;
    place_write(plant, config, journal, h, w, fields, server, found)
}

/// Carries out pending write w on a Metro Mirror primary whose partner is cascaded; the partner and its own partner are each on another
/// server than the volume before it, and of the same size. Refused where the volume's server is off; then the write stays pending.
/// Refused too where the volume is a secondary, or else an inhibited target, or else stands in a revertible or a reversing relationship;
/// then the write is dropped. Where the volume is held the write waits, and nothing is done. Where it is Suspended, or the track is out
/// of sync, the write lands on it alone. Else it goes to the partner first. Where that can't be reached, or isn't the secondary of the
/// volume, the volume is suspended, and where the path between them has its group flag it is long busy and the write waits; else it
/// lands on the volume alone. Where coordination holds the partner back the write waits, and nothing is done. Otherwise the track is out
/// of sync until both have the write. Where it collides at the partner, what it was there is sent on to the partner's own secondary: the
/// targets of that keep theirs, it stores the track, and the partner strikes it off; where that secondary can't be reached, or isn't the
/// partner's, the partner is suspended instead, and where it stands in a revertible relationship nothing is sent on. Then the partner
/// stores the new bytes, and the write lands; the targets of each keep the track before it changes. A write that landed is acknowledged.
/// Fails where a server stops in a move or goes off at a read: then the write stays pending, what was done by then stays, and the volume
/// is suspended, where its own server runs, long busy where the path has its group flag; where the stop was in what is sent on, the
/// partner is suspended before, where its own does. The first stop is the one that is given. The journal needs room for three events for
/// each volume and nine more.
pub fn cascade_write<P: Plant>(
    plant: &mut P,
    config: &Config,
    journal: &mut Journal,
    h: &mut Host,
    w: &Pending,
) -> Result<WriteEnd, Refusal>
    requires rest { IsAtRest (P.state plant.old) config.now }
    requires fit { RelationsFit (P.state plant.old) config.now }
    requires told { IsTold h.old journal.old.events }
    requires defined { IsSome (place_of config.now w.now.volume.0) }
    requires metro { is_metro (volume_seen (P.state plant.old) config.now w.now.volume.0).fields.primary ≡ true }
    requires cascaded { is_cascaded (volume_seen (P.state plant.old) config.now (volume_seen (P.state plant.old) config.now w.now.volume.0).fields.primary_partner).fields ≡ true }
    requires pair { MayPair (P.state plant.old) config.now w.now.volume.0 (volume_seen (P.state plant.old) config.now w.now.volume.0).fields.primary_partner }
    requires next { MayPair (P.state plant.old) config.now (volume_seen (P.state plant.old) config.now w.now.volume.0).fields.primary_partner (volume_seen (P.state plant.old) config.now (volume_seen (P.state plant.old) config.now w.now.volume.0).fields.primary_partner).fields.primary_partner }
    requires within { w.now.track < (volume_seen (P.state plant.old) config.now w.now.volume.0).tracks }
    requires fits { w.now.offset + w.now.len ≤ 64 }
    requires found { find (has_number w.now.w.0) h.old.pending ≡ Some w.now }
    requires room { length config.now.volumes + (length config.now.volumes + (length config.now.volumes + 9)) ≤ journal.old.spare }
    ensures carried { (r : Rest) → EndsIn (armed_in (P.state plant.old)) (here (P.state plant.old) config.now r h.old journal.old.events) (write_stretches (here (P.state plant.old) config.now r h.old journal.old.events).control w.now.w.0 w.now.volume.0 w.now.track) (here (P.state plant.new) config.now r h.new journal.new.events) (refusal_of result) }
    ensures end { (r : Rest) → IfOk result (λ e. e ≡ end_of (waits (here (P.state plant.old) config.now r h.old journal.old.events).control w.now.volume.0 w.now.track)) }
    ensures mirrors { IfOk result (λ e. e ≡ Landed → Mirrors (P.state plant.new) config.now w.now.volume.0 (volume_seen (P.state plant.old) config.now w.now.volume.0).fields.primary_partner w.now.track) }
    ensures rest { IsAtRest (P.state plant.new) config.now }
    ensures fit { RelationsFit (P.state plant.new) config.now }
    ensures told { IsTold h.new journal.new.events }
    ensures unarmed { (q : ℕ) → (P.state plant.old).read_fuse q ≡ None → (P.state plant.new).read_fuse q ≡ None }
    ensures faults { Counted (is_stop (refusal_of result)) (P.state plant.old).faults (P.state plant.new).faults }
    ensures issued { h.new.issued ≡ h.old.issued }
    ensures room { journal.old.spare ≤ journal.new.spare + (length config.now.volumes + (length config.now.volumes + (length config.now.volumes + 9))) }
    ensures spare { length journal.new.events + journal.new.spare ≡ length journal.old.events + journal.old.spare }
{
    let fields = peek_fields(plant, config, w.volume);
    cascade_write_by(plant, config, journal, h, w, &fields)
}
