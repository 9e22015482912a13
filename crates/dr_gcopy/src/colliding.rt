//! A track that comes to a primary, and that the primary still has to send: what it was goes to the secondary first.

ghost use Rattle.std.specs.Prelude.{◌≡◌, ◌≢◌, ℕ, ◌<◌, ◌≤◌, ◌+◌, true, false, length, IsSome, OnOk, OnErr};
ghost use Rattle.dr_config.specs.Table.{place_of};
ghost use Rattle.dr_model.specs.Entries.{copies_from};
ghost use Rattle.dr_model.specs.PairEntries.{send_first};
ghost use Rattle.dr_model.specs.Pairs as pairs;
ghost use Rattle.dr_volume.specs.View.{volume_seen, ids_of};
ghost use Rattle.dr_moves.specs.Checks.{is_stop};
ghost use Rattle.dr_moves.specs.Here.{refusal_of};
ghost use Rattle.dr_moves.specs.Made.{IsAt, IsPrimary};
ghost use Rattle.dr_gcopy.specs.Both.{IsOn};
ghost use Rattle.dr_gcopy.specs.Ran.{Ran};
ghost use Rattle.dr_gcopy.specs.Sending.{MayPair, SameParts};

use crate::passing::pass_on;
use crate::receiving::flashed_refusal;
use crate::sending::send_refusal;
use crate::suspending::suspend;
use dr_config::Config;
use dr_ids::{Refusal, VolumeId};
use dr_model::Journal;
use dr_plant::Plant;

/// Sends track t of primary v, whose server is on and which records, to its secondary u: the targets of u keep theirs, u
/// stores it, and v strikes it off. Where u can't be reached, or isn't the secondary of v, v is suspended instead; where u
/// stands in a revertible relationship nothing is done. No volume gets or loses a part in a pair, and none becomes a target. Fails where a server stops in a move or goes off at a read; what was
/// done by then stays. The journal needs room for an event for each volume and three more.
pub fn send_old<P: Plant>(
    plant: &mut P,
    config: &Config,
    journal: &mut Journal,
    v: VolumeId,
    u: VolumeId,
    t: u16,
) -> Result<(), Refusal>
    requires at { IsAt (P.state plant.old) config.now }
    requires from { IsSome (place_of config.now v.0) }
    requires running { IsOn (P.state plant.old) config.now v.0 }
    requires primary { IsPrimary (P.state plant.old) config.now v.0 }
    requires collides { pairs.collides (volume_seen (P.state plant.old) config.now v.0).fields t ≡ true }
    requires pair { MayPair (P.state plant.old) config.now v.0 u.0 }
    requires within { t < (volume_seen (P.state plant.old) config.now v.0).tracks }
    requires room { length config.now.volumes + 3 ≤ journal.old.spare }
    ensures ran { Ran (P.state plant.old) (P.state plant.new) config.now journal.old journal.new (send_first (ids_of config.now.volumes) v.0 u.0 t) (λ q. (q ≢ v.0) × ((q ≢ u.0) × (copies_from u.0 (volume_seen (P.state plant.old) config.now q).fields ≡ false))) (length config.now.volumes + 3) (length config.now.volumes + 2) result }
    ensures parts { OnOk result ((q : ℕ) → SameParts (volume_seen (P.state plant.old) config.now q).fields (volume_seen (P.state plant.new) config.now q).fields) }
    ensures lone { OnOk result ((p q : ℕ) → copies_from p (volume_seen (P.state plant.old) config.now q).fields ≡ false → copies_from p (volume_seen (P.state plant.new) config.now q).fields ≡ false) }
    ensures stops { OnErr result (is_stop (refusal_of result) ≡ true) }
{
    if send_refusal(plant, config, v, u).is_some() {
        return suspend(plant, config, journal, v, false);
    }
    if flashed_refusal(plant, config, u).is_some() {
        return Ok(());
    }
    pass_on(plant, config, journal, v, u, t)
}
