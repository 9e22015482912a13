//! What a freeze or a thaw does with one volume.

ghost use Rattle.std.specs.Prelude.{◌≡◌, ◌<◌, IsSome};
ghost use Rattle.dr_config.specs.Table.{StandsFor, place_of};
ghost use Rattle.dr_volume.specs.View.{volume_seen};
ghost use Rattle.dr_moves.specs.Made.{IsAt};
ghost use Rattle.dr_freeze.specs.Between.{between};
ghost use Rattle.dr_freeze.specs.Changes.{changed_by, IsStep};
ghost use Rattle.dr_freeze.specs.declared.changes.Change.TheVariants as change;

use crate::between::is_between;
use dr_config::Config;
use dr_ids::{Lss, VolumeId};
use dr_moves::{Move, Next};
use dr_plant::Plant;
use dr_volume::peek_head;

/// What is done with the primaries between two logical subsystems.
#[derive(Clone, Copy)]
pub(crate) enum Change {
    Freeze,
    Thaw,
}

/// A primary between the two logical subsystems is suspended and long busy.
fn freeze_next<P: Plant>(plant: &P, config: &Config, l: Lss, m: Lss, v: VolumeId) -> Next
    requires stands { StandsFor config.now (P.state plant.now) }
    requires defined { IsSome (place_of config.now v.0) }
    ensures is { result ≡ changed_by change.Freeze v (between (P.state plant.now) config.now l.0 m.0 v.0) (volume_seen (P.state plant.now) config.now v.0).fields }
    ensures server { (volume_seen (P.state plant.now) config.now v.0).server < 8 }
{
    if !is_between(plant, config, l, m, v) {
        return Next::Pass;
    }
    Next::Do(Move::Suspend { v, busy: true })
}

/// A primary between the two logical subsystems that is long busy is so no more.
fn thaw_next<P: Plant>(plant: &P, config: &Config, l: Lss, m: Lss, v: VolumeId) -> Next
    requires stands { StandsFor config.now (P.state plant.now) }
    requires defined { IsSome (place_of config.now v.0) }
    ensures is { result ≡ changed_by change.Thaw v (between (P.state plant.now) config.now l.0 m.0 v.0) (volume_seen (P.state plant.now) config.now v.0).fields }
    ensures server { (volume_seen (P.state plant.now) config.now v.0).server < 8 }
{
    if !is_between(plant, config, l, m, v) {
        return Next::Pass;
    }
    if !peek_head(plant, config, v).long_busy {
        return Next::Pass;
    }
    Next::Do(Move::Thaw { v })
}

/// One of both, for a volume in the configuration.
pub(crate) fn change_next<P: Plant>(
    plant: &P,
    config: &Config,
    x: Change,
    l: Lss,
    m: Lss,
    v: VolumeId,
) -> Next
    requires at { IsAt (P.state plant.now) config.now }
    requires defined { IsSome (place_of config.now v.0) }
    ensures { IsStep (P.state plant.now) config.now x l.0 m.0 v.0 result }
{
    match x {
        Change::Freeze => freeze_next(plant, config, l, m, v),
        Change::Thaw => thaw_next(plant, config, l, m, v),
    }
}
