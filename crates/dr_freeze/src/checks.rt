//! Why a freeze or a thaw is refused.

ghost use Rattle.std.specs.Prelude.{◌≡◌, true, false, List, IsSome};
ghost use Rattle.dr_config.specs.Table.{lss_owner, IsSoundConfig};
ghost use Rattle.dr_model.specs.declared.event.Event.{Event};
ghost use Rattle.dr_volume.specs.View.{Rest};
ghost use Rattle.dr_moves.specs.Checks.{Checked, OnNone, is_stop};
ghost use Rattle.dr_moves.specs.Here.{world_seen};
ghost use Rattle.dr_freeze.specs.Checks.{owner_in, thaw_checks, freeze_checks};

use dr_config::Config;
use dr_ids::{Kind, Lss, Refusal};
use dr_plant::Plant;

/// Why a thaw is refused, and whatever else is done with the volumes of logical subsystem l alone: its server is off.
pub fn thaw_refusal<P: Plant>(plant: &P, config: &Config, l: Lss) -> Option<Refusal>
    requires owned { IsSome (lss_owner config.now l.0) }
    ensures checked { (r : Rest) (events : List Event) → Checked (world_seen (P.state plant.now) config.now r events) (thaw_checks (owner_in config.now l.0)) result }
    ensures running { OnNone result ((P.state plant.now).on (owner_in config.now l.0) ≡ true) }
    ensures calm { is_stop result ≡ false }
    ensures sound { IsSoundConfig config.now }
{
    let server = config.lss_owner(l).unwrap();
    if !plant.is_on(server.0) {
        return Some(Refusal::ServerOff { server });
    }
    None
}

/// Why a freeze is refused: no path goes from l to m, or else the server of l is off.
pub(crate) fn freeze_refusal<P: Plant>(
    plant: &P,
    config: &Config,
    l: Lss,
    m: Lss,
) -> Option<Refusal>
    requires owned { IsSome (lss_owner config.now l.0) }
    ensures checked { (r : Rest) (events : List Event) → Checked (world_seen (P.state plant.now) config.now r events) (freeze_checks (owner_in config.now l.0) l.0 m.0) result }
    ensures running { OnNone result ((P.state plant.now).on (owner_in config.now l.0) ≡ true) }
    ensures calm { is_stop result ≡ false }
    ensures sound { OnNone result (IsSoundConfig config.now) }
{
    let Some(_) = config.path(l, m) else {
        return Some(Refusal::Unknown { kind: Kind::Path });
    };
    thaw_refusal(plant, config, l)
}
