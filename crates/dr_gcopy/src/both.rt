//! The two moves of a command on a pair, one after the other.

ghost use Rattle.std.specs.Prelude.{◌≡◌, ◌≢◌, ℕ, ◌≤◌, ◌+◌, true, refl, List, IsSome, OnOk, OnErr};
ghost use Rattle.dr_plant.specs.State.{PlantState};
ghost use Rattle.dr_config.specs.Table.{place_of};
ghost use Rattle.dr_model.specs.declared.event.Event.{Event};
ghost use Rattle.dr_model.specs.PairEntries.{let_go, tell_paused};
ghost use Rattle.dr_volume.specs.Update.{IsAsBefore};
ghost use Rattle.dr_volume.specs.View.{Rest};
ghost use Rattle.dr_moves.specs.Checks.{is_stop};
ghost use Rattle.dr_moves.specs.Coming.{next_of, MayCome, Went, NotTarget, GoesOn, cost_of, most_of};
ghost use Rattle.dr_moves.specs.Here.{world_seen, refusal_of, armed_in};
ghost use Rattle.dr_moves.specs.Made.{IsAt, Kept};
ghost use Rattle.dr_moves.specs.Turns.{Leads, Fails};
ghost use Rattle.dr_gcopy.specs.Both.{first_of, second_of, entry_of, left_of, room_of, IsOn, CanBegin, CanEnd, CanGo};
ghost use Rattle.dr_gcopy.specs.Steps.{BothAlone};
ghost use Rattle.dr_gcopy.specs.declared.both.Stage.TheVariants as TheStage;

use crate::parts::{is_secondary_by, next_state};
use crate::reach::reach_refusal;
use dr_config::Config;
use dr_ids::{Refusal, VolumeId};
use dr_model::{Journal, PairState, Part};
use dr_moves::{Entries, Move, Next, Nothing, carry};
use dr_plant::Plant;
use dr_volume::{peek_fields, peek_head};

/// A command on a pair of a and b.
#[derive(Clone, Copy)]
pub(crate) enum Command {
    /// b becomes the secondary of a, and a the primary of b, with all its tracks out of sync, or none.
    Make {
        kind: Part,
        state: PairState,
        full: bool,
    },
    /// a is a primary no more, and b, where it is the secondary of a, no secondary.
    Remove,
    /// a is suspended, and b, where it can be reached and is the secondary of a, told so.
    Pause,
    /// b goes on in the state that a is to have, and then a.
    Resume,
}

/// How far a command has come.
#[derive(Clone, Copy)]
pub(crate) enum Stage {
    First,
    Second,
    Over,
}

/// What the first entry of a command comes to.
fn first_next<P: Plant>(
    plant: &P,
    config: &Config,
    a: VolumeId,
    b: VolumeId,
    command: &Command,
) -> Next
    requires at { IsAt (P.state plant.now) config.now }
    requires can { CanBegin (P.state plant.now) config.now a.0 b.0 command.now }
    ensures comes { (r : Rest) (events : List Event) → first_of a.0 b.0 command.now (world_seen (P.state plant.now) config.now r events).control ≡ next_of result }
    ensures may { MayCome (P.state plant.now) config.now result }
    ensures cost { cost_of result (P.state plant.now) config.now ≤ 1 }
    ensures most { most_of result (P.state plant.now) config.now ≤ 2 }
    ensures goes_on { GoesOn result }
    ensures apart { (q : ℕ) → q ≢ a.0 → q ≢ b.0 → NotTarget result q }
    ensures stands { (u : PlantState) → Went (P.state plant.now) u config.now result → CanEnd u config.now a.0 b.0 command.now }
{
    match command {
        Command::Make { kind, state, .. } => Next::Do(Move::MakeSecondary {
            v: b,
            u: a,
            kind: *kind,
            state: *state,
        }),
        Command::Remove => Next::Do(Move::DropPrimary { v: a }),
        Command::Pause => Next::Do(Move::Suspend { v: a, busy: false }),
        Command::Resume => {
            let state = next_state(&peek_fields(plant, config, a));
            Next::Do(Move::Follow { v: b, state })
        }
    }
}

/// b is a secondary no more, where it is that of a.
fn let_go_next<P: Plant>(plant: &P, config: &Config, a: VolumeId, b: VolumeId) -> Next
    requires at { IsAt (P.state plant.now) config.now }
    requires secondary { IsSome (place_of config.now b.0) }
    requires reached { IsOn (P.state plant.now) config.now b.0 }
    ensures comes { (r : Rest) (events : List Event) → let_go a.0 b.0 (world_seen (P.state plant.now) config.now r events).control ≡ next_of result }
    ensures may { MayCome (P.state plant.now) config.now result }
    ensures cost { cost_of result (P.state plant.now) config.now ≤ 0 }
    ensures most { most_of result (P.state plant.now) config.now ≤ 1 }
    ensures goes_on { GoesOn result }
    ensures apart { (q : ℕ) → q ≢ b.0 → NotTarget result q }
{
    if !is_secondary_by(&peek_head(plant, config, b), a) {
        return Next::Pass;
    }
    Next::Do(Move::DropSecondary { v: b })
}

/// b is told that its pair is paused, where it can be reached from a and is its secondary.
fn tell_next<P: Plant>(plant: &P, config: &Config, a: VolumeId, b: VolumeId) -> Next
    requires at { IsAt (P.state plant.now) config.now }
    requires primary { IsSome (place_of config.now a.0) }
    requires secondary { IsSome (place_of config.now b.0) }
    ensures comes { (r : Rest) (events : List Event) → tell_paused a.0 b.0 (world_seen (P.state plant.now) config.now r events).control ≡ next_of result }
    ensures may { MayCome (P.state plant.now) config.now result }
    ensures cost { cost_of result (P.state plant.now) config.now ≤ 0 }
    ensures most { most_of result (P.state plant.now) config.now ≤ 1 }
    ensures goes_on { GoesOn result }
    ensures apart { (q : ℕ) → q ≢ b.0 → NotTarget result q }
{
    if let Some(_) = reach_refusal(plant, config, a, b) {
        return Next::Pass;
    }
    if !is_secondary_by(&peek_head(plant, config, b), a) {
        return Next::Pass;
    }
    Next::Do(Move::Follow {
        v: b,
        state: PairState::Suspended,
    })
}

/// What the second entry of a command comes to.
fn second_next<P: Plant>(
    plant: &P,
    config: &Config,
    a: VolumeId,
    b: VolumeId,
    command: &Command,
) -> Next
    requires at { IsAt (P.state plant.now) config.now }
    requires can { CanEnd (P.state plant.now) config.now a.0 b.0 command.now }
    ensures comes { (r : Rest) (events : List Event) → second_of a.0 b.0 command.now (world_seen (P.state plant.now) config.now r events).control ≡ next_of result }
    ensures may { MayCome (P.state plant.now) config.now result }
    ensures cost { cost_of result (P.state plant.now) config.now ≤ 0 }
    ensures most { most_of result (P.state plant.now) config.now ≤ 1 }
    ensures goes_on { GoesOn result }
    ensures apart { (q : ℕ) → q ≢ a.0 → q ≢ b.0 → NotTarget result q }
{
    match command {
        Command::Make { kind, state, full } => Next::Do(Move::MakePrimary {
            v: a,
            u: b,
            kind: *kind,
            state: *state,
            full: *full,
        }),
        Command::Remove => let_go_next(plant, config, a, b),
        Command::Pause => tell_next(plant, config, a, b),
        Command::Resume => {
            let state = next_state(&peek_fields(plant, config, a));
            Next::Do(Move::Resume { v: a, state })
        }
    }
}

/// The moves of a command on the pair of a and b that are left.
#[derive(Drop)]
struct Moves {
    a: VolumeId,
    b: VolumeId,
    command: Command,
    stage: Stage,
}

impl<P: Plant> Entries<P, Nothing> for Moves {
    ghost left = { λ x c. left_of x.a.0 x.b.0 x.command x.stage };

    ghost first = { λ x c. entry_of x.a.0 x.b.0 x.command x.stage };

    ghost stands = { λ x s _ c. CanGo s c x.a.0 x.b.0 x.command x.stage };

    ghost makes = { λ x done s _ u _ c. BothAlone s u c x.a.0 x.b.0 };

    ghost refuses = { λ x c r. is_stop r ≡ true };

    ghost room = { λ x c. room_of x.stage };

    ghost most = { λ x c. room_of x.stage + 1 };

    fn count(&self, config: &Config) -> usize {
        match self.stage {
            Stage::First => 2,
            Stage::Second => 1,
            Stage::Over => 0,
        }
    }

    fn next(&mut self, plant: &P, config: &Config, beside: &Nothing) -> Next {
        match self.stage {
            Stage::First => {
                self.stage = Stage::Second;
                first_next(plant, config, self.a, self.b, &self.command)
            }
            Stage::Second => {
                self.stage = Stage::Over;
                second_next(plant, config, self.a, self.b, &self.command)
            }
            Stage::Over => Next::Pass,
        }
    }

    ghost none_left = { λ x s y c none q na nb. record { volume = refl; tracks = refl; saved = refl } };
}

/// Carries out the two moves of a command on the pair of a and b. Fails where a server stops in one or goes off at a read.
pub(crate) fn carry_both<P: Plant>(
    plant: &mut P,
    config: &Config,
    journal: &mut Journal,
    a: VolumeId,
    b: VolumeId,
    command: Command,
) -> Result<(), Refusal>
    requires at { IsAt (P.state plant.old) config.now }
    requires can { CanBegin (P.state plant.old) config.now a.0 b.0 command }
    requires room { 2 ≤ journal.old.spare }
    ensures leads { OnOk result ((r : Rest) → Leads (world_seen (P.state plant.old) config.now r journal.old.events) (left_of a.0 b.0 command TheStage.First) (world_seen (P.state plant.new) config.now r journal.new.events)) }
    ensures fails { OnErr result ((r : Rest) → Fails (armed_in (P.state plant.old)) (world_seen (P.state plant.old) config.now r journal.old.events) (left_of a.0 b.0 command TheStage.First) (world_seen (P.state plant.new) config.now r journal.new.events) (refusal_of result)) }
    ensures stops { OnErr result (is_stop (refusal_of result) ≡ true) }
    ensures others { BothAlone (P.state plant.old) (P.state plant.new) config.now a.0 b.0 }
    ensures kept { Kept (P.state plant.old) (P.state plant.new) config.now journal.old journal.new 2 (is_stop (refusal_of result)) result }
{
    let mut moves = Moves {
        a,
        b,
        command,
        stage: Stage::First,
    };
    carry(plant, config, journal, &mut moves)
}
