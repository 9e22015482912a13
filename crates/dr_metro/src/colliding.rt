//! A host write that collides: what its track was is sent to the secondary before it lands.

ghost use Rattle.std.specs.Prelude.{◌≡◌, ◌<◌, ◌≤◌, ◌+◌, true, length, IsSome, IfOk, OnErr};
ghost use Rattle.dr_config.specs.Table.{place_of};
ghost use Rattle.dr_model.specs.Pairs as pairs;
ghost use Rattle.dr_volume.specs.View.{volume_seen, ids_of};
ghost use Rattle.dr_moves.specs.Checks.{is_stop};
ghost use Rattle.dr_moves.specs.Here.{refusal_of};
ghost use Rattle.dr_moves.specs.Made.{IsAt, IsPrimary};
ghost use Rattle.dr_gcopy.specs.Both.{IsOn};
ghost use Rattle.dr_gcopy.specs.Ran.{Ran};
ghost use Rattle.dr_gcopy.specs.Sending.{MayPair};
ghost use Rattle.dr_metro.specs.Syncing.{sent_stretches};
ghost use Rattle.dr_metro.specs.declared.sync.WriteEnd.TheVariants.{Landed};
ghost use Rattle.dr_metro.specs.Writing.{IsDue, WroteIn};

use crate::alone::write_alone;
use crate::parting::{followed, landed};
use crate::sync::WriteEnd;
use dr_config::Config;
use dr_gcopy::{follow_stop, send_old};
use dr_host::{Host, Pending};
use dr_ids::{Refusal, VolumeId};
use dr_model::Journal;
use dr_plant::Plant;

/// Carries out a write that collides on its primary, whose secondary is u: its track is sent first as it was, where it can be,
/// and then the write lands on the primary alone. Fails where a server stops in a move or goes off at a read: then the write
/// stays pending, what was done by then stays, and a primary whose own server still runs is suspended. The journal needs room for two
/// events for each volume and seven more.
pub(crate) fn write_collided<P: Plant>(
    plant: &mut P,
    config: &Config,
    journal: &mut Journal,
    h: &mut Host,
    w: &Pending,
    u: VolumeId,
) -> Result<WriteEnd, Refusal>
    requires due { IsDue (P.state plant.old) config.now h.old journal.old.events w.now }
    requires running { IsOn (P.state plant.old) config.now w.now.volume.0 }
    requires primary { IsPrimary (P.state plant.old) config.now w.now.volume.0 }
    requires collides { pairs.collides (volume_seen (P.state plant.old) config.now w.now.volume.0).fields w.now.track ≡ true }
    requires pair { MayPair (P.state plant.old) config.now w.now.volume.0 u.0 }
    requires room { length config.now.volumes + (length config.now.volumes + 7) ≤ journal.old.spare }
    ensures wrote { WroteIn (P.state plant.old) (P.state plant.new) config.now h.old h.new journal.old journal.new (λ k. sent_stretches (ids_of config.now.volumes) w.now.w.0 w.now.volume.0 w.now.track u.0) (length config.now.volumes + (length config.now.volumes + 6)) result }
    ensures end { IfOk result (λ e. e ≡ Landed) }
{
    match send_old(plant, config, journal, w.volume, u, w.track) {
        Ok(()) => {
            let done = landed(write_alone(plant, config, journal, h, w));
            followed(plant, config, journal, w.volume, done)
        }
        Err(why) => {
            follow_stop(plant, config, journal, w.volume, why);
            Err(why)
        }
    }
}
