//! A pair is turned round.

ghost use Rattle.std.specs.Prelude.{◌≡◌, ℕ, ◌≤◌, ◌+◌, true, List, IsSome, OnOk, OnErr};
ghost use Rattle.std.specs.FinSet.{union};
ghost use Rattle.dr_config.specs.Table.{place_of};
ghost use Rattle.dr_volume.specs.View.{Rest};
ghost use Rattle.dr_moves.specs.Checks.{is_stop};
ghost use Rattle.dr_moves.specs.Here.{world_seen, refusal_of, armed_in};
ghost use Rattle.dr_moves.specs.Made.{IsAt, Kept};
ghost use Rattle.dr_moves.specs.Moves.{move_of};
ghost use Rattle.dr_moves.specs.Turns.{Leads, Fails};
ghost use Rattle.dr_gcopy.specs.Steps.{BothAlone};
ghost use Rattle.dr_failover.specs.Steps.{failback_moves};
ghost use Rattle.dr_failover.specs.Outcomes.{Turned, ZerosThere, SameTracks};
ghost use Rattle.dr_failover.specs.Turning.{fall_seen, yield_seen, entry_of, left_of, CanTurn, CanGo, Makes, none_made};

use dr_bits::TrackSet;
use dr_config::Config;
use dr_gcopy::next_state;
use dr_ids::{Refusal, VolumeId};
use dr_model::Journal;
use dr_moves::{Entries, Move, Next, Nothing, carry, with_more};
use dr_plant::Plant;
use dr_volume::{Fields, peek_fields, peek_head};

/// How far the turn has come.
#[derive(Clone, Copy)]
enum Stage {
    Fall,
    Follow,
    Over,
}

/// What a primary hasn't sent: its tracks that are out of sync, and those that changed since it began to record.
fn unsent(f: &Fields) -> TrackSet
    ensures { result ≡ union f.now.out_of_sync f.now.change_recording }
{
    let mut all = f.out_of_sync;
    all.union(&f.change_recording);
    all
}

/// What primary y of x hasn't sent is out of sync at primary x too, which is voided. It is Full Duplex where the pair is a Metro
/// Mirror and nothing is out of sync then, else Copy Pending.
fn fall_back_on<P: Plant>(plant: &P, config: &Config, x: VolumeId, y: VolumeId) -> Move
    requires at { IsAt (P.state plant.now) config.now }
    requires first { IsSome (place_of config.now x.0) }
    requires second { IsSome (place_of config.now y.0) }
    ensures { move_of result ≡ fall_seen (P.state plant.now) config.now x.0 y.0 }
{
    let theirs = unsent(&peek_fields(plant, config, y));
    let state = next_state(&with_more(&theirs, &peek_fields(plant, config, x)));
    Move::FallBack {
        v: x,
        more: theirs,
        state,
    }
}

/// Primary y becomes the secondary of x, with the kind and the state that x has.
fn yield_on<P: Plant>(plant: &P, config: &Config, y: VolumeId, x: VolumeId) -> Move
    requires at { IsAt (P.state plant.now) config.now }
    requires first { IsSome (place_of config.now x.0) }
    ensures { move_of result ≡ yield_seen (P.state plant.now) config.now x.0 y.0 }
{
    let head = peek_head(plant, config, x);
    Move::Yield {
        v: y,
        u: x,
        kind: head.primary,
        state: head.primary_state,
    }
}

/// What is left where x and y are turned round.
#[derive(Drop)]
struct Turn {
    x: VolumeId,
    y: VolumeId,
    stage: Stage,
}

impl<P: Plant> Entries<P, Nothing> for Turn {
    ghost left = { λ t c. left_of t.x.0 t.y.0 t.stage };

    ghost first = { λ t c. entry_of t.x.0 t.y.0 t.stage };

    ghost stands = { λ t s _ c. CanGo s c t.x.0 t.y.0 t.stage };

    ghost makes = { λ t done s _ u _ c. Makes t.stage done s u c t.x.0 t.y.0 };

    ghost refuses = { λ t c r. is_stop r ≡ true };

    ghost room = { λ t c. 0 };

    ghost most = { λ t c. 1 };

    fn count(&self, config: &Config) -> usize {
        match self.stage {
            Stage::Fall => 2,
            Stage::Follow => 1,
            Stage::Over => 0,
        }
    }

    fn next(&mut self, plant: &P, config: &Config, beside: &Nothing) -> Next {
        match self.stage {
            Stage::Fall => {
                self.stage = Stage::Follow;
                Next::Do(fall_back_on(plant, config, self.x, self.y))
            }
            Stage::Follow => {
                self.stage = Stage::Over;
                Next::Do(yield_on(plant, config, self.y, self.x))
            }
            Stage::Over => Next::Pass,
        }
    }

    ghost none_left = { λ t s y c none. none_made t.stage s c t.x.0 t.y.0 none };
}

/// Of x and y, two volumes of one size, primary x falls back on y, and then y becomes its secondary.
pub(crate) fn turn_both<P: Plant>(
    plant: &mut P,
    config: &Config,
    journal: &mut Journal,
    x: VolumeId,
    y: VolumeId,
) -> Result<(), Refusal>
    requires at { IsAt (P.state plant.old) config.now }
    requires can { CanTurn (P.state plant.old) config.now x.0 y.0 }
    requires room { 1 ≤ journal.old.spare }
    ensures leads { OnOk result ((r : Rest) → Leads (world_seen (P.state plant.old) config.now r journal.old.events) (failback_moves x.0 y.0) (world_seen (P.state plant.new) config.now r journal.new.events)) }
    ensures fails { OnErr result ((r : Rest) → Fails (armed_in (P.state plant.old)) (world_seen (P.state plant.old) config.now r journal.old.events) (failback_moves x.0 y.0) (world_seen (P.state plant.new) config.now r journal.new.events) (refusal_of result)) }
    ensures stops { OnErr result (is_stop (refusal_of result) ≡ true) }
    ensures turned { OnOk result (Turned (P.state plant.old) (P.state plant.new) config.now x.0 y.0) }
    ensures tracks { ZerosThere (P.state plant.old) config.now → SameTracks (P.state plant.old) (P.state plant.new) config.now }
    ensures others { BothAlone (P.state plant.old) (P.state plant.new) config.now x.0 y.0 }
    ensures kept { Kept (P.state plant.old) (P.state plant.new) config.now journal.old journal.new 1 (is_stop (refusal_of result)) result }
{
    let mut turn = Turn {
        x,
        y,
        stage: Stage::Fall,
    };
    carry(plant, config, journal, &mut turn)
}
