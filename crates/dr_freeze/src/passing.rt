//! What a freeze or a thaw does with all volumes, in order of definition.

ghost use Rattle.std.specs.Prelude.{◌≡◌, ℕ, ◌≤◌, ◌+◌, ◌<◌, true, length, map, get_or, OnOk, OnErr};
ghost use Rattle.dr_model.specs.RecoveryPlans.{pass_on};
ghost use Rattle.dr_volume.specs.View.{Rest, volume_seen, ids_of};
ghost use Rattle.dr_moves.specs.Checks.{is_stop};
ghost use Rattle.dr_moves.specs.Here.{world_seen, refusal_of, armed_in};
ghost use Rattle.dr_moves.specs.Made.{IsAt, Kept};
ghost use Rattle.dr_moves.specs.Turns.{Leads, Fails};
ghost use Rattle.dr_freeze.specs.Between.{between};
ghost use Rattle.dr_freeze.specs.Changes.{change_on, IsChanged};
ghost use Rattle.dr_freeze.specs.Passing.{changes_from, HasPassed, passed-none};

use crate::changes::{Change, change_next};
use dr_config::Config;
use dr_ids::{Lss, Refusal};
use dr_model::Journal;
use dr_moves::{Entries, Next, Nothing, carry};
use dr_plant::Plant;

/// A freeze or a thaw from logical subsystem l to m, of the volumes from a place in the configuration on.
#[derive(Drop)]
struct Changes {
    x: Change,
    l: Lss,
    m: Lss,
    place: usize,
}

impl<P: Plant> Entries<P, Nothing> for Changes {
    ghost left = { λ e c. changes_from c e.x e.l.0 e.m.0 e.place };

    ghost first = { λ e c. get_or (changes_from c e.x e.l.0 e.m.0 e.place) 0 pass_on };

    ghost stands = { λ e s _ c. Unit {0} };

    ghost makes = { λ e done s _ u _ c. HasPassed e.x done s u c e.l.0 e.m.0 e.place };

    ghost refuses = { λ e c r. is_stop r ≡ true };

    ghost room = { λ e c. length (changes_from c e.x e.l.0 e.m.0 e.place) + length (changes_from c e.x e.l.0 e.m.0 e.place) };

    ghost most = { λ e c. length (changes_from c e.x e.l.0 e.m.0 e.place) + length (changes_from c e.x e.l.0 e.m.0 e.place) + 1 };

    fn count(&self, config: &Config) -> usize {
        config.volumes().saturating_sub(self.place)
    }

    fn next(&mut self, plant: &P, config: &Config, beside: &Nothing) -> Next {
        let v = config.volume_at(self.place).unwrap();
        self.place = config.volumes().min(self.place + 1);
        change_next(plant, config, self.x, self.l, self.m, v)
    }

    ghost none_left = { λ e s y c none. passed-none e.x s c e.l.0 e.m.0 e.place none };
}

/// Each primary between the two logical subsystems is frozen, or thawed. Fails where a server stops in a move or goes off at
/// a read; what was done by then stays. The journal needs room for two events for each volume and one more.
pub(crate) fn change_all<P: Plant>(
    plant: &mut P,
    config: &Config,
    journal: &mut Journal,
    x: Change,
    l: Lss,
    m: Lss,
) -> Result<(), Refusal>
    requires at { IsAt (P.state plant.old) config.now }
    requires room { length config.now.volumes + length config.now.volumes + 1 ≤ journal.old.spare }
    ensures leads { OnOk result ((r : Rest) → Leads (world_seen (P.state plant.old) config.now r journal.old.events) (map (change_on x l.0 m.0) (ids_of config.now.volumes)) (world_seen (P.state plant.new) config.now r journal.new.events)) }
    ensures fails { OnErr result ((r : Rest) → Fails (armed_in (P.state plant.old)) (world_seen (P.state plant.old) config.now r journal.old.events) (map (change_on x l.0 m.0) (ids_of config.now.volumes)) (world_seen (P.state plant.new) config.now r journal.new.events) (refusal_of result)) }
    ensures stops { OnErr result (is_stop (refusal_of result) ≡ true) }
    ensures changed { OnOk result ((v : ℕ) → between (P.state plant.old) config.now l.0 m.0 v ≡ true → IsChanged x (volume_seen (P.state plant.new) config.now v).fields) }
    ensures kept { Kept (P.state plant.old) (P.state plant.new) config.now journal.old journal.new (length config.now.volumes + length config.now.volumes + 1) (is_stop (refusal_of result)) result }
    ensures room_left { OnOk result (journal.old.spare ≤ journal.new.spare + (length config.now.volumes + length config.now.volumes)) }
{
    let mut changes = Changes { x, l, m, place: 0 };
    carry(plant, config, journal, &mut changes)
}
