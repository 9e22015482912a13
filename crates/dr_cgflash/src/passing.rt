//! The flash holds of a logical subsystem's volumes, in order of definition.

ghost use Rattle.std.specs.Prelude.{◌≡◌, ◌<◌, ℕ, ◌≤◌, ◌+◌, ◌&&◌, nat_eq, true, false, length, map, get_or, IsSome, OnOk, OnErr};
ghost use Rattle.dr_config.specs.Table.{StandsFor, place_of};
ghost use Rattle.dr_model.specs.Entries.{subsystem};
ghost use Rattle.dr_model.specs.RecoveryPlans.{pass_on};
ghost use Rattle.dr_model.specs.WriteEntries.{flash_free_on};
ghost use Rattle.dr_volume.specs.Update.{IsAsBefore};
ghost use Rattle.dr_volume.specs.View.{Rest, volume_seen, ids_of};
ghost use Rattle.dr_moves.specs.Checks.{is_stop};
ghost use Rattle.dr_moves.specs.Here.{world_seen, refusal_of, armed_in};
ghost use Rattle.dr_moves.specs.Made.{IsAt, Kept};
ghost use Rattle.dr_moves.specs.Turns.{Leads, Fails};
ghost use Rattle.dr_cgflash.specs.Freeing.{frees_from, held_in, IsReleased, IsStep, HasPassed, passed-none};

use dr_config::Config;
use dr_ids::{Lss, Refusal, VolumeId};
use dr_model::Journal;
use dr_moves::{Entries, Move, Next, Nothing, carry, server_of};
use dr_plant::Plant;
use dr_volume::peek_head;

fn all(first: bool, second: bool, third: bool) -> bool
    ensures { result ≡ (first && (second && third)) }
{
    first && (second && third)
}

/// Whether a volume of logical subsystem l, whose server is on, has a flash hold.
fn is_held_in<P: Plant>(plant: &P, config: &Config, l: Lss, v: VolumeId) -> bool
    requires defined { IsSome (place_of config.now v.0) }
    requires stands { StandsFor config.now (P.state plant.now) }
    ensures test { result ≡ held_in (P.state plant.now) config.now l.0 v.0 }
    ensures server { (volume_seen (P.state plant.now) config.now v.0).server < 8 }
{
    let server = server_of(config, v);
    all(
        v.lss().0 == l.0,
        plant.is_on(server.0),
        peek_head(plant, config, v).flash_hold,
    )
}

/// Such a volume loses it.
fn free_next<P: Plant>(plant: &P, config: &Config, l: Lss, v: VolumeId) -> Next
    requires at { IsAt (P.state plant.now) config.now }
    requires defined { IsSome (place_of config.now v.0) }
    ensures { IsStep (P.state plant.now) config.now l.0 v.0 result }
{
    if !is_held_in(plant, config, l, v) {
        return Next::Pass;
    }
    Next::Do(Move::FlashFree { v })
}

/// The flash holds of logical subsystem l, of the volumes from a place in the configuration on.
#[derive(Drop)]
struct Frees {
    l: Lss,
    place: usize,
}

impl<P: Plant> Entries<P, Nothing> for Frees {
    ghost left = { λ e c. frees_from c e.l.0 e.place };

    ghost first = { λ e c. get_or (frees_from c e.l.0 e.place) 0 pass_on };

    ghost stands = { λ e s _ c. Unit {0} };

    ghost makes = { λ e done s _ u _ c. HasPassed done s u c e.l.0 e.place };

    ghost refuses = { λ e c r. is_stop r ≡ true };

    ghost room = { λ e c. length (frees_from c e.l.0 e.place) };

    ghost most = { λ e c. length (frees_from c e.l.0 e.place) + 1 };

    fn count(&self, config: &Config) -> usize {
        config.volumes().saturating_sub(self.place)
    }

    fn next(&mut self, plant: &P, config: &Config, beside: &Nothing) -> Next {
        let v = config.volume_at(self.place).unwrap();
        self.place = config.volumes().min(self.place + 1);
        free_next(plant, config, self.l, v)
    }

    ghost none_left = { λ e s y c none. passed-none s c e.l.0 e.place none };
}

/// Each volume of logical subsystem l whose server is on loses its flash hold. Fails where a server stops in a move or goes off at a
/// read; what was done by then stays. The journal needs room for an event for each volume and one more.
pub(crate) fn free_all<P: Plant>(
    plant: &mut P,
    config: &Config,
    journal: &mut Journal,
    l: Lss,
) -> Result<(), Refusal>
    requires at { IsAt (P.state plant.old) config.now }
    requires room { length config.now.volumes + 1 ≤ journal.old.spare }
    ensures leads { OnOk result ((r : Rest) → Leads (world_seen (P.state plant.old) config.now r journal.old.events) (map (flash_free_on l.0) (ids_of config.now.volumes)) (world_seen (P.state plant.new) config.now r journal.new.events)) }
    ensures fails { OnErr result ((r : Rest) → Fails (armed_in (P.state plant.old)) (world_seen (P.state plant.old) config.now r journal.old.events) (map (flash_free_on l.0) (ids_of config.now.volumes)) (world_seen (P.state plant.new) config.now r journal.new.events) (refusal_of result)) }
    ensures stops { OnErr result (is_stop (refusal_of result) ≡ true) }
    ensures released { OnOk result ((v : ℕ) → nat_eq (subsystem v) l.0 ≡ true → IsReleased (P.state plant.old) (P.state plant.new) config.now v) }
    ensures others { (v : ℕ) → nat_eq (subsystem v) l.0 ≡ false → IsAsBefore (P.state plant.old) (P.state plant.new) config.now v }
    ensures kept { Kept (P.state plant.old) (P.state plant.new) config.now journal.old journal.new (length config.now.volumes + 1) (is_stop (refusal_of result)) result }
    ensures room_left { OnOk result (journal.old.spare ≤ journal.new.spare + length config.now.volumes) }
{
    let mut frees = Frees { l, place: 0 };
    carry(plant, config, journal, &mut frees)
}
