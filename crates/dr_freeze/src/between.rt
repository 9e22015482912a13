//! The primaries between two logical subsystems.

ghost use Rattle.std.specs.Prelude.{◌≡◌, ◌<◌, ◌&&◌, nat_eq, IsSome};
ghost use Rattle.dr_config.specs.Table.{StandsFor, place_of};
ghost use Rattle.dr_model.specs.Entries.{subsystem};
ghost use Rattle.dr_model.specs.Layout as layout;
ghost use Rattle.dr_volume.specs.View.{volume_seen};
ghost use Rattle.dr_freeze.specs.Between.{between};

use dr_config::Config;
use dr_ids::{Lss, VolumeId};
use dr_moves::server_of;
use dr_plant::Plant;
use dr_volume::{Head, peek_head};

/// The logical subsystem of a volume.
fn lss_of(v: VolumeId) -> Lss
    ensures { result.0 ≡ subsystem v.0 }
{
    Lss((v.0 / 256) as u8)
}

/// Whether a volume with this head is a primary with its secondary in that logical subsystem.
fn is_primary_to(f: &Head, m: Lss) -> bool
    ensures { result ≡ (layout.is_part f.now.primary && nat_eq (subsystem f.now.primary_partner.0) m.0) }
{
    f.primary.is_part() && f.primary_partner.lss().0 == m.0
}

fn all(first: bool, second: bool, third: bool) -> bool
    ensures { result ≡ (first && (second && third)) }
{
    first && (second && third)
}

/// Whether a volume is a primary in one logical subsystem, on a server that is on, with its secondary in the other.
pub(crate) fn is_between<P: Plant>(plant: &P, config: &Config, l: Lss, m: Lss, v: VolumeId) -> bool
    requires defined { IsSome (place_of config.now v.0) }
    requires stands { StandsFor config.now (P.state plant.now) }
    ensures test { result ≡ between (P.state plant.now) config.now l.0 m.0 v.0 }
    ensures server { (volume_seen (P.state plant.now) config.now v.0).server < 8 }
{
    let server = server_of(config, v);
    let head = peek_head(plant, config, v);
    all(
        v.lss().0 == l.0,
        plant.is_on(server.0),
        is_primary_to(&head, m),
    )
}
