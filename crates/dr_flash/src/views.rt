//! What a track reads as: a target that doesn't hold a track shows its source's.

ghost use Rattle.std.specs.Prelude.{◌≡◌, ◌<◌, true, IsSome};
ghost use Rattle.dr_plant.specs.State.{can_read};
ghost use Rattle.dr_config.specs.Table.{place_of};
ghost use Rattle.dr_volume.specs.Opened.{IsOpened};
ghost use Rattle.dr_volume.specs.View.{volume_seen, track_seen, device_of};
ghost use Rattle.dr_moves.specs.Fit.{RelationsFit};
ghost use Rattle.dr_moves.specs.Here.{IsAtRest};
ghost use Rattle.dr_flash.specs.Views.{view_seen};

use dr_config::Config;
use dr_ids::VolumeId;
use dr_plant::{Block, Plant};
use dr_volume::{Opened, read_track};

/// A track of a volume whose device can be read.
fn track_of<P: Plant>(plant: &mut P, config: &Config, v: VolumeId, t: u16) -> Block
    requires rest { IsAtRest (P.state plant.old) config.now }
    requires defined { IsSome (place_of config.now v.0) }
    requires passes { can_read (P.state plant.old) (device_of config.now v.0) ≡ true }
    requires within { t < (volume_seen (P.state plant.old) config.now v.0).tracks }
    ensures same { P.state plant.new ≡ P.state plant.old }
    ensures bytes { result ≡ track_seen (P.state plant.old) config.now v.0 t }
{
    let mut bytes = [0; 64];
    match read_track(plant, config, v, t, &mut bytes) {
        Ok(()) => bytes,
        Err(_) => unreachable!(),
    }
}

/// A track of a volume that was opened, and whose device can still be read.
fn opened_track<P: Plant>(
    plant: &mut P,
    config: &Config,
    opened: &Opened,
    v: VolumeId,
    t: u16,
) -> Block
    requires rest { IsAtRest (P.state plant.old) config.now }
    requires defined { IsSome (place_of config.now v.0) }
    requires opened { IsOpened (P.state plant.old) config.now v.0 opened.now }
    requires passes { can_read (P.state plant.old) (device_of config.now v.0) ≡ true }
    requires within { t < (volume_seen (P.state plant.old) config.now v.0).tracks }
    ensures same { P.state plant.new ≡ P.state plant.old }
    ensures bytes { result ≡ track_seen (P.state plant.old) config.now v.0 t }
{
    let mut bytes = [0; 64];
    match opened.read_track(plant, config, v, t, &mut bytes) {
        Ok(()) => bytes,
        Err(_) => unreachable!(),
    }
}

/// What a track of a volume that was opened reads as, where the volume's device can still be read.
pub fn view_of<P: Plant>(
    plant: &mut P,
    config: &Config,
    opened: &Opened,
    v: VolumeId,
    t: u16,
) -> Block
    requires rest { IsAtRest (P.state plant.old) config.now }
    requires fit { RelationsFit (P.state plant.old) config.now }
    requires defined { IsSome (place_of config.now v.0) }
    requires opened { IsOpened (P.state plant.old) config.now v.0 opened.now }
    requires passes { can_read (P.state plant.old) (device_of config.now v.0) ≡ true }
    requires within { t < (volume_seen (P.state plant.old) config.now v.0).tracks }
    ensures same { P.state plant.new ≡ P.state plant.old }
    ensures bytes { result ≡ view_seen (P.state plant.old) config.now v.0 t }
{
    let fields = opened.fields();
    if fields.related && !fields.own.contains(t) {
        return track_of(plant, config, fields.source, t);
    }
    opened_track(plant, config, opened, v, t)
}
