//! A member's secondary is taken over.

ghost use Rattle.std.specs.Prelude.{◌≡◌, true, List, IsSome};
ghost use Rattle.dr_config.specs.Table.{place_of};
ghost use Rattle.dr_model.specs.declared.event.Event.{Event};
ghost use Rattle.dr_model.specs.RecoveryPlans.{take_over_on};
ghost use Rattle.dr_volume.specs.View.{Rest, volume_seen};
ghost use Rattle.dr_moves.specs.Coming.{next_of};
ghost use Rattle.dr_moves.specs.Here.{world_seen};
ghost use Rattle.dr_moves.specs.Made.{IsAt};
ghost use Rattle.dr_revert.specs.Turns.{Turns};

use dr_config::Config;
use dr_ids::Member;
use dr_moves::{Move, Next};
use dr_plant::Plant;
use dr_volume::peek_head;

/// The secondary of a member, whose server is on, becomes a Suspended primary of its primary. Where it is no secondary any
/// more, nothing happens.
pub(crate) fn take_over_next<P: Plant>(plant: &P, config: &Config, m: &Member) -> Next
    requires at { IsAt (P.state plant.now) config.now }
    requires secondary { IsSome (place_of config.now m.now.b.0) }
    requires running { (P.state plant.now).on (volume_seen (P.state plant.now) config.now m.now.b.0).server ≡ true }
    ensures comes { (r : Rest) (events : List Event) → take_over_on m.now (world_seen (P.state plant.now) config.now r events).control ≡ next_of result }
    ensures turns { Turns (P.state plant.now) config.now m.now.b.0 result }
{
    if !peek_head(plant, config, m.b).secondary.is_part() {
        return Next::Pass;
    }
    Next::Do(Move::TakeOver { v: m.b })
}
