//! What the volumes of a new member have seen: an attempt, and a floor.

ghost use Rattle.std.specs.Prelude.{◌≡◌, ℕ, ◌≤◌, true, List, Option, IsSome, OnOk, OnErr};
ghost use Rattle.dr_ids.specs.declared.refusal.Refusal.{Refusal};
ghost use Rattle.dr_config.specs.Table.{place_of};
ghost use Rattle.dr_model.specs.declared.event.Event.{Event};
ghost use Rattle.dr_model.specs.ReadStops.{Ends};
ghost use Rattle.dr_model.specs.SessionEntries.{add_entries, raise_attempt_on, raise_floor_on};
ghost use Rattle.dr_volume.specs.View.{Rest, volume_seen};
ghost use Rattle.dr_moves.specs.Checks.{is_stop};
ghost use Rattle.dr_moves.specs.Coming.{next_of, MayCome, RefusedAs, cost_of};
ghost use Rattle.dr_moves.specs.Here.{world_seen, refusal_of, armed_in};
ghost use Rattle.dr_moves.specs.Made.{IsAt, Kept};
ghost use Rattle.dr_admin.specs.Targets.{IsTargetReady};

use dr_config::Config;
use dr_ids::{Member, Refusal, VolumeId};
use dr_model::Journal;
use dr_moves::{Move, Next, act};
use dr_plant::Plant;
use dr_volume::peek_head;

/// The attempt of a volume, whose server is on, becomes n where it is lower.
fn attempt_next<P: Plant>(plant: &P, config: &Config, v: VolumeId, n: u32) -> Next
    requires at { IsAt (P.state plant.now) config.now }
    requires defined { IsSome (place_of config.now v.0) }
    requires running { (P.state plant.now).on (volume_seen (P.state plant.now) config.now v.0).server ≡ true }
    ensures comes { (r : Rest) (events : List Event) → raise_attempt_on v.0 n (world_seen (P.state plant.now) config.now r events).control ≡ next_of result }
    ensures may { MayCome (P.state plant.now) config.now result }
    ensures silent { cost_of result (P.state plant.now) config.now ≡ 0 }
    ensures stops { (r : Option Refusal) → RefusedAs (P.state plant.now) config.now result r → is_stop r ≡ true }
{
    if n <= peek_head(plant, config, v).attempt {
        return Next::Pass;
    }
    Next::Do(Move::RaiseAttempt { v, n })
}

/// The floor of a volume, whose server is on, becomes n where it is lower.
fn floor_next<P: Plant>(plant: &P, config: &Config, v: VolumeId, n: u32) -> Next
    requires at { IsAt (P.state plant.now) config.now }
    requires defined { IsSome (place_of config.now v.0) }
    requires running { (P.state plant.now).on (volume_seen (P.state plant.now) config.now v.0).server ≡ true }
    ensures comes { (r : Rest) (events : List Event) → raise_floor_on v.0 n (world_seen (P.state plant.now) config.now r events).control ≡ next_of result }
    ensures may { MayCome (P.state plant.now) config.now result }
    ensures silent { cost_of result (P.state plant.now) config.now ≡ 0 }
    ensures stops { (r : Option Refusal) → RefusedAs (P.state plant.now) config.now result r → is_stop r ≡ true }
{
    if n <= peek_head(plant, config, v).floor {
        return Next::Pass;
    }
    Next::Do(Move::RaiseFloor { v, n })
}

/// The attempt of the primary and the floor of the target of a member are raised to n, where they are lower.
pub(crate) fn raise_both<P: Plant>(
    plant: &mut P,
    config: &Config,
    journal: &mut Journal,
    m: &Member,
    n: u32,
) -> Result<(), Refusal>
    requires at { IsAt (P.state plant.old) config.now }
    requires ready { IsTargetReady (P.state plant.old) config.now m.now }
    requires room { 1 ≤ journal.old.spare }
    ensures carried { (r : Rest) → Ends (armed_in (P.state plant.old)) (world_seen (P.state plant.new) config.now r journal.new.events) (refusal_of result) (world_seen (P.state plant.old) config.now r journal.old.events) (add_entries m.now n) }
    ensures stops { OnErr result (is_stop (refusal_of result) ≡ true) }
    ensures kept { Kept (P.state plant.old) (P.state plant.new) config.now journal.old journal.new 1 (is_stop (refusal_of result)) result }
    ensures room_left { OnOk result (journal.old.spare ≡ journal.new.spare) }
{
    let attempt = attempt_next(plant, config, m.a, n);
    match act(plant, config, journal, &attempt) {
        Ok(()) => {
            let floor = floor_next(plant, config, m.c, n);
            act(plant, config, journal, &floor)
        }
        Err(why) => Err(why),
    }
}
