//! A pending write lands on its volume alone.

ghost use Rattle.std.specs.Prelude.{◌≡◌, ◌<◌, ◌≤◌, ◌+◌, true, false, length, take, OnOk, OnErr};
ghost use Rattle.dr_model.specs.Entries.{land_alone};
ghost use Rattle.dr_volume.specs.View.{volume_seen, ids_of};
ghost use Rattle.dr_volume.specs.Volume.{Shows};
ghost use Rattle.dr_moves.specs.Checks.{is_stop};
ghost use Rattle.dr_moves.specs.Here.{refusal_of};
ghost use Rattle.dr_flash.specs.Standing.{HasNoTarget};
ghost use Rattle.dr_gcopy.specs.Both.{IsOn};
ghost use Rattle.dr_metro.specs.Landing.{landed_on};
ghost use Rattle.dr_metro.specs.Writing.{IsDue, Wrote};

use crate::landing::land_by;
use crate::machine::{Target, land_kept};
use dr_config::Config;
use dr_host::{Host, Pending};
use dr_ids::{Refusal, ServerId};
use dr_model::Journal;
use dr_moves::server_of;
use dr_plant::{Block, Plant};
use dr_volume::Fields;

/// The first `len` bytes of a block.
pub(crate) fn front(bytes: &Block, len: u8) -> &[u8]
    requires { len ≤ 64 }
    ensures { result.now ≡ take len bytes.now }
{
    &bytes[..len as usize]
}

/// Lands the write on its volume alone, whose server is on.
pub(crate) fn write_alone<P: Plant>(
    plant: &mut P,
    config: &Config,
    journal: &mut Journal,
    h: &mut Host,
    w: &Pending,
) -> Result<(), Refusal>
    requires due { IsDue (P.state plant.old) config.now h.old journal.old.events w.now }
    requires running { IsOn (P.state plant.old) config.now w.now.volume.0 }
    requires room { length config.now.volumes + 2 ≤ journal.old.spare }
    ensures wrote { Wrote (P.state plant.old) (P.state plant.new) config.now h.old h.new journal.old journal.new (λ k. land_alone (ids_of config.now.volumes) w.now.w.0 w.now.volume.0 w.now.track) (length config.now.volumes + 1) result }
    ensures left { OnOk result ((volume_seen (P.state plant.new) config.now w.now.volume.0).fields ≡ landed_on (volume_seen (P.state plant.old) config.now w.now.volume.0) w.now.track) }
    ensures stops { OnErr result (is_stop (refusal_of result) ≡ true) }
{
    let target = Target {
        volume: w.volume,
        server: server_of(config, w.volume),
        track: w.track,
        offset: w.offset,
    };
    land_kept(
        plant,
        config,
        h,
        journal,
        w.w,
        target,
        front(&w.bytes, w.len),
    )
}

/// The same where no volume is its target and its fields are at hand: no volume is looked at again.
pub(crate) fn write_by<P: Plant>(
    plant: &mut P,
    config: &Config,
    journal: &mut Journal,
    h: &mut Host,
    w: &Pending,
    fields: &Fields,
    server: ServerId,
) -> Result<(), Refusal>
    requires due { IsDue (P.state plant.old) config.now h.old journal.old.events w.now }
    requires running { IsOn (P.state plant.old) config.now w.now.volume.0 }
    requires server { (volume_seen (P.state plant.old) config.now w.now.volume.0).server ≡ server.0 }
    requires known { server.0 < 8 }
    requires shows { Shows (P.state plant.old) config.now w.now.volume.0 fields.now }
    requires alone { HasNoTarget (P.state plant.old) config.now w.now.volume.0 }
    requires room { length config.now.volumes + 2 ≤ journal.old.spare }
    ensures wrote { Wrote (P.state plant.old) (P.state plant.new) config.now h.old h.new journal.old journal.new (λ k. land_alone (ids_of config.now.volumes) w.now.w.0 w.now.volume.0 w.now.track) (length config.now.volumes + 1) result }
    ensures left { OnOk result ((volume_seen (P.state plant.new) config.now w.now.volume.0).fields ≡ landed_on (volume_seen (P.state plant.old) config.now w.now.volume.0) w.now.track) }
    ensures stops { OnErr result (is_stop (refusal_of result) ≡ true) }
{
    let target = Target {
        volume: w.volume,
        server,
        track: w.track,
        offset: w.offset,
    };
    land_by(
        plant,
        config,
        h,
        journal,
        w.w,
        target,
        fields,
        front(&w.bytes, w.len),
    )
}

/// The same with the volume's fields at hand, and whether a volume was found that is its target.
pub(crate) fn write_here<P: Plant>(
    plant: &mut P,
    config: &Config,
    journal: &mut Journal,
    h: &mut Host,
    w: &Pending,
    fields: &Fields,
    server: ServerId,
    found: bool,
) -> Result<(), Refusal>
    requires due { IsDue (P.state plant.old) config.now h.old journal.old.events w.now }
    requires running { IsOn (P.state plant.old) config.now w.now.volume.0 }
    requires server { (volume_seen (P.state plant.old) config.now w.now.volume.0).server ≡ server.0 }
    requires known { server.0 < 8 }
    requires shows { Shows (P.state plant.old) config.now w.now.volume.0 fields.now }
    requires alone { found ≡ false → HasNoTarget (P.state plant.old) config.now w.now.volume.0 }
    requires room { length config.now.volumes + 2 ≤ journal.old.spare }
    ensures wrote { Wrote (P.state plant.old) (P.state plant.new) config.now h.old h.new journal.old journal.new (λ k. land_alone (ids_of config.now.volumes) w.now.w.0 w.now.volume.0 w.now.track) (length config.now.volumes + 1) result }
    ensures left { OnOk result ((volume_seen (P.state plant.new) config.now w.now.volume.0).fields ≡ landed_on (volume_seen (P.state plant.old) config.now w.now.volume.0) w.now.track) }
    ensures stops { OnErr result (is_stop (refusal_of result) ≡ true) }
{
    if found {
        return write_alone(plant, config, journal, h, w);
    }
    write_by(plant, config, journal, h, w, fields, server)
}
