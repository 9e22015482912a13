//! The server and the size of a volume that is defined.

ghost use Rattle.std.specs.Prelude.{◌≡◌, ◌≤◌, ◌<◌, length, IsSome};
ghost use Rattle.dr_ids.specs.Sizes.{most_tracks};
ghost use Rattle.dr_plant.specs.State.{PlantState};
ghost use Rattle.dr_config.specs.Table.{place_of};
ghost use Rattle.dr_volume.specs.View.{volume_seen};

use dr_config::Config;
use dr_ids::{ServerId, VolumeId};

/// The server of a volume.
pub fn server_of(config: &Config, v: VolumeId) -> ServerId
    requires defined { IsSome (place_of config.now v.0) }
    ensures seen { (s : PlantState) → (volume_seen s config.now v.0).server ≡ result.0 }
    ensures known { result.0 < 8 }
    ensures named { result.0 < length config.now.names }
{
    config.server_of(v).unwrap()
}

/// How many tracks a volume has.
pub fn tracks_of(config: &Config, v: VolumeId) -> u16
    requires defined { IsSome (place_of config.now v.0) }
    ensures seen { (s : PlantState) → (volume_seen s config.now v.0).tracks ≡ result }
    ensures few { result ≤ most_tracks }
{
    config.tracks_of(v).unwrap()
}
