//! What follows where a server stops in a plan.

ghost use Rattle.std.specs.Prelude.{◌≡◌, ℕ, ◌≤◌, true, List, Some};
ghost use Rattle.dr_plant.specs.State.{PlantState};
ghost use Rattle.dr_config.specs.Table.{ConfigTable};
ghost use Rattle.dr_model.specs.Carry.{Entry};
ghost use Rattle.dr_volume.specs.View.{Rest};
ghost use Rattle.dr_moves.specs.Checks.{is_stop};
ghost use Rattle.dr_moves.specs.Followed.{EndsEach, Follows, KeptBehind};
ghost use Rattle.dr_moves.specs.Here.{world_seen, armed_in};
ghost use Rattle.dr_moves.specs.Made.{IsAt};

use dr_config::Config;
use dr_ids::{Refusal, ServerId};
use dr_model::Journal;
use dr_plant::Plant;

/// What follows the stop of a server in a plan, carried out from the state that the stop left. Why it ended is told nobody.
///
/// `entries` are those of it, each carried out also where a further server stopped in one before. They ask `stands` of the configuration, and that there is `room` for
/// what they tell; `leaves` is what holds of the state before them and of the one behind, and where nothing was done.
pub trait Behind<P: Plant> {
    ghost entries: { Self → ConfigTable → List Entry };

    ghost stands: { Self → ConfigTable → Type 0 };

    ghost leaves: { Self → PlantState → PlantState → ConfigTable → Type 0 };

    ghost room: { Self → ConfigTable → ℕ };

    /// Carries the entries out one by one behind the stop of this server.
    fn run(&self, plant: &mut P, config: &Config, journal: &mut Journal, server: ServerId)
        requires at { IsAt (P.state plant.old) config.now }
        requires stands { stands self.now config.now }
        requires room { room self.now config.now ≤ journal.old.spare }
        ensures ends { (r : Rest) → EndsEach (armed_in (P.state plant.old)) (world_seen (P.state plant.old) config.now r journal.old.events) (entries self.now config.now) (world_seen (P.state plant.new) config.now r journal.new.events) }
        ensures leaves { leaves self.now (P.state plant.old) (P.state plant.new) config.now }
        ensures kept { KeptBehind (P.state plant.old) (P.state plant.new) config.now journal.old journal.new (room self.now config.now) true };

    ghost leaves_all: { (x : Self) (s : PlantState) (c : ConfigTable) → leaves x s s c };
}

/// What follows where a plan was refused so: after the stop of a server the entries behind it, else nothing. The journal needs room
/// for what they tell.
pub fn follow<P: Plant, F: Behind<P>>(
    plant: &mut P,
    config: &Config,
    journal: &mut Journal,
    behind: &F,
    why: Refusal,
)
    requires at { IsAt (P.state plant.old) config.now }
    requires stands { F.stands behind.now config.now }
    requires room { F.room behind.now config.now ≤ journal.old.spare }
    ensures follows { (r : Rest) → Follows (armed_in (P.state plant.old)) (world_seen (P.state plant.old) config.now r journal.old.events) (Some why) (F.entries behind.now config.now) (world_seen (P.state plant.new) config.now r journal.new.events) }
    ensures leaves { F.leaves behind.now (P.state plant.old) (P.state plant.new) config.now }
    ensures kept { KeptBehind (P.state plant.old) (P.state plant.new) config.now journal.old journal.new (F.room behind.now config.now) (is_stop (Some why)) }
{
    match why {
        Refusal::Stopped { server } => behind.run(plant, config, journal, server),
        _ => {}
    }
}
