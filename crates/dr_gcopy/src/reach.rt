//! Whether one volume reaches another.

ghost use Rattle.std.specs.Prelude.{◌≡◌, true, false, List, IsSome};
ghost use Rattle.dr_config.specs.Table.{StandsFor, place_of};
ghost use Rattle.dr_model.specs.declared.event.Event.{Event};
ghost use Rattle.dr_model.specs.PairEntries as pairs;
ghost use Rattle.dr_volume.specs.View.{Rest, volume_seen};
ghost use Rattle.dr_moves.specs.Checks.{OnNone, is_stop};
ghost use Rattle.dr_moves.specs.Here.{world_seen};

use dr_config::Config;
use dr_ids::{Refusal, VolumeId};
use dr_plant::Plant;

/// Why volume b can't be reached from volume a: no path goes from the logical subsystem of a to that of b, or else the
/// server of b is off, or else the link between their servers is down.
pub fn reach_refusal<P: Plant>(
    plant: &P,
    config: &Config,
    a: VolumeId,
    b: VolumeId,
) -> Option<Refusal>
    requires stands { StandsFor config.now (P.state plant.now) }
    requires from { IsSome (place_of config.now a.0) }
    requires to { IsSome (place_of config.now b.0) }
    ensures refusal { (r : Rest) (events : List Event) → result ≡ pairs.reach_refusal a.0 b.0 (world_seen (P.state plant.now) config.now r events).control }
    ensures running { OnNone result ((P.state plant.now).on (volume_seen (P.state plant.now) config.now b.0).server ≡ true) }
    ensures calm { is_stop result ≡ false }
{
    config.reach(plant, a, b).err()
}
