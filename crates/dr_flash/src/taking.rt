//! A target takes a track of its source.

ghost use Rattle.std.specs.Prelude.{◌≡◌, ◌≤◌, false, OnOk};
ghost use Rattle.std.specs.FinSet.{contains};
ghost use Rattle.dr_model.specs.Carry.{now};
ghost use Rattle.dr_volume.specs.View.{volume_seen, track_seen};
ghost use Rattle.dr_volume.specs.Volume.{Shows};
ghost use Rattle.dr_moves.specs.Made.{IsAt, May};
ghost use Rattle.dr_moves.specs.Moves.{move_of};
ghost use Rattle.dr_flash.specs.Keeping.{Takes, Unseen};
ghost use Rattle.dr_flash.specs.Views.{HoldsTrack};

use dr_config::Config;
use dr_ids::{Refusal, VolumeId};
use dr_model::Journal;
use dr_moves::{Move, make_move_by, read_told};
use dr_plant::{Block, Plant};
use dr_volume::Fields;

/// Stores at target u the bytes of track t of its source, by a move that takes them.
fn store<P: Plant>(
    plant: &mut P,
    config: &Config,
    journal: &mut Journal,
    m: &Move,
    u: VolumeId,
    t: u16,
    f: &Fields,
    bytes: &Block,
) -> Result<(), Refusal>
    requires at { IsAt (P.state plant.old) config.now }
    requires takes { Takes (move_of m.now) u.0 t }
    requires may { May (P.state plant.old) config.now (move_of m.now) }
    requires shows { Shows (P.state plant.old) config.now u.0 f.now }
    requires missing { contains f.now.own t ≡ false }
    requires bytes { bytes.now ≡ track_seen (P.state plant.old) config.now f.now.source.0 t }
    requires room { 2 ≤ journal.old.spare }
    ensures unseen { Unseen (P.state plant.old) (P.state plant.new) config.now journal.old journal.new (now (move_of m.now)) u.0 (volume_seen (P.state plant.old) config.now u.0).server result }
    ensures held { OnOk result (HoldsTrack (P.state plant.new) config.now t u.0) }
{
    let track = *bytes;
    let mut next = *f;
    make_move_by(plant, config, journal, m, &mut next, Some((t, track)))
}

/// Target u, whose fields are at hand, takes track t of its source, which it doesn't hold, by such a move. Fails where the server
/// stops in the move or goes off at a read.
pub(crate) fn take<P: Plant>(
    plant: &mut P,
    config: &Config,
    journal: &mut Journal,
    m: &Move,
    u: VolumeId,
    t: u16,
    f: &Fields,
) -> Result<(), Refusal>
    requires at { IsAt (P.state plant.old) config.now }
    requires takes { Takes (move_of m.now) u.0 t }
    requires may { May (P.state plant.old) config.now (move_of m.now) }
    requires shows { Shows (P.state plant.old) config.now u.0 f.now }
    requires missing { contains f.now.own t ≡ false }
    requires room { 2 ≤ journal.old.spare }
    ensures unseen { Unseen (P.state plant.old) (P.state plant.new) config.now journal.old journal.new (now (move_of m.now)) u.0 (volume_seen (P.state plant.old) config.now u.0).server result }
    ensures held { OnOk result (HoldsTrack (P.state plant.new) config.now t u.0) }
{
    let mut bytes = [0; 64];
    read_told(plant, config, journal, f.source, t, &mut bytes)?;
    store(plant, config, journal, m, u, t, f, &bytes)
}
