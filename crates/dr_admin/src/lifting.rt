//! The holds of a server's volumes end.

ghost use Rattle.std.specs.Prelude.{◌≡◌, ℕ, ◌+◌, ◌<◌, ◌≤◌, true, false, length, List, Some, get_or, IsSome, OnOk, OnErr};
ghost use Rattle.dr_logic.specs.Counts.{Counted};
ghost use Rattle.dr_config.specs.Table.{place_of};
ghost use Rattle.dr_host.specs.Writes.{has_owner};
ghost use Rattle.dr_model.specs.Plans.{expire_on};
ghost use Rattle.dr_model.specs.ReadStops.{Ends};
ghost use Rattle.dr_model.specs.RecoveryPlans.{pass_on};
ghost use Rattle.dr_model.specs.Refusals.{stopped, server_off};
ghost use Rattle.dr_volume.specs.View.{Rest, volume_seen};
ghost use Rattle.dr_moves.specs.Checks.{is_stop};
ghost use Rattle.dr_moves.specs.Fit.{RelationsFit};
ghost use Rattle.dr_moves.specs.Here.{world_seen, refusal_of, armed_in, IsAtRest};
ghost use Rattle.dr_moves.specs.Made.{IsAt, Kept};
ghost use Rattle.dr_admin.specs.Answering.{Comes, lift_answer};
ghost use Rattle.dr_admin.specs.Starting.{lift_from, lifted_by};

use crate::owners::belongs;
use dr_config::Config;
use dr_ids::{Refusal, ServerId, VolumeId};
use dr_model::Journal;
use dr_moves::{Entries, Move, Next, Nothing, carry};
use dr_plant::Plant;
use dr_volume::{is_held, peek_fields};

/// The holds of a volume end, where it is the server's, which is on, and has any.
fn lift_next<P: Plant>(plant: &P, config: &Config, s: ServerId, v: VolumeId) -> Next
    requires at { IsAt (P.state plant.now) config.now }
    requires defined { IsSome (place_of config.now v.0) }
    requires on { (P.state plant.now).on s.0 ≡ true }
    ensures { result ≡ lifted_by v (has_owner config.now v.0 s.0) (volume_seen (P.state plant.now) config.now v.0).fields }
{
    if !belongs(config, v, s) {
        return Next::Pass;
    }
    if !is_held(&peek_fields(plant, config, v)) {
        return Next::Pass;
    }
    Next::Do(Move::Lift { v })
}

/// The holds of a server's volumes, from a place in the configuration on.
#[derive(Drop)]
struct Holds {
    s: ServerId,
    place: usize,
}

impl<P: Plant> Entries<P, Nothing> for Holds {
    ghost left = { λ x c. lift_from c x.s.0 x.place };

    ghost first = { λ x c. get_or (lift_from c x.s.0 x.place) 0 pass_on };

    ghost stands = { λ x s _ c. s.on x.s.0 ≡ true };

    ghost makes = { λ x done s _ u _ c. Unit {0} };

    ghost refuses = { λ x c r. r ≡ Some (stopped x.s.0) };

    ghost room = { λ x c. length (lift_from c x.s.0 x.place) + length (lift_from c x.s.0 x.place) };

    ghost most = { λ x c. length (lift_from c x.s.0 x.place) + length (lift_from c x.s.0 x.place) + 1 };

    fn count(&self, config: &Config) -> usize {
        config.volumes().saturating_sub(self.place)
    }

    fn next(&mut self, plant: &P, config: &Config, beside: &Nothing) -> Next {
        let v = config.volume_at(self.place).unwrap();
        self.place = config.volumes().min(self.place + 1);
        lift_next(plant, config, self.s, v)
    }

    ghost none_left = { λ x s y c none. tt };
}

/// Ends the holds of the volumes of a server that is on, in order of definition, until the server stops. The journal needs room
/// for two events for each volume and one more.
fn lift_all<P: Plant>(
    plant: &mut P,
    config: &Config,
    journal: &mut Journal,
    s: ServerId,
) -> Result<(), Refusal>
    requires at { IsAt (P.state plant.old) config.now }
    requires on { (P.state plant.old).on s.0 ≡ true }
    requires room { length config.now.volumes + length config.now.volumes + 1 ≤ journal.old.spare }
    ensures carried { (r : Rest) → Ends (armed_in (P.state plant.old)) (world_seen (P.state plant.new) config.now r journal.new.events) (refusal_of result) (world_seen (P.state plant.old) config.now r journal.old.events) (lift_from config.now s.0 0) }
    ensures stopped { OnErr result (refusal_of result ≡ Some (stopped s.0)) }
    ensures kept { Kept (P.state plant.old) (P.state plant.new) config.now journal.old journal.new (length config.now.volumes + length config.now.volumes + 1) (is_stop (refusal_of result)) result }
    ensures room_left { OnOk result (journal.old.spare ≤ journal.new.spare + (length config.now.volumes + length config.now.volumes)) }
{
    let mut holds = Holds { s, place: 0 };
    carry(plant, config, journal, &mut holds)
}

/// Ends all holds of the server's volumes, in order of definition: none is long busy or has a flash hold any more, and a
/// coordination hold ends with a void, so that what changed while its volume recorded is out of sync. Refused where the server
/// is off; then nothing has changed. Fails too where the server stops in a move or goes off at a read; what was done by then
/// stays. Nothing is told but the end of each flash hold, and a stop. The journal needs room for two events for each volume
/// and one more.
pub fn lift<P: Plant>(
    plant: &mut P,
    config: &Config,
    journal: &mut Journal,
    s: ServerId,
) -> Result<(), Refusal>
    requires rest { IsAtRest (P.state plant.old) config.now }
    requires fit { RelationsFit (P.state plant.old) config.now }
    requires known { s.0 < 8 }
    requires room { length config.now.volumes + length config.now.volumes + 1 ≤ journal.old.spare }
    ensures plan { (r : Rest) → Comes (armed_in (P.state plant.old)) (world_seen (P.state plant.old) config.now r journal.old.events) (expire_on (world_seen (P.state plant.old) config.now r journal.old.events).control s.0)
        (world_seen (P.state plant.new) config.now r journal.new.events) (lift_answer result) }
    ensures refused { (P.state plant.old).on s.0 ≡ false → refusal_of result ≡ Some (server_off s.0) }
    ensures stopped { (P.state plant.old).on s.0 ≡ true → OnErr result (refusal_of result ≡ Some (stopped s.0)) }
    ensures unchanged { (P.state plant.old).on s.0 ≡ false → (P.state plant.new ≡ P.state plant.old) × (journal.new ≡ journal.old) }
    ensures rest { IsAtRest (P.state plant.new) config.now }
    ensures fit { RelationsFit (P.state plant.new) config.now }
    ensures unarmed { (q : ℕ) → (P.state plant.old).read_fuse q ≡ None → (P.state plant.new).read_fuse q ≡ None }
    ensures faults { Counted (is_stop (refusal_of result)) (P.state plant.old).faults (P.state plant.new).faults }
    ensures on { OnOk result ((P.state plant.new).on ≡ (P.state plant.old).on) }
    ensures room { journal.old.spare ≤ journal.new.spare + (length config.now.volumes + length config.now.volumes + 1) }
    ensures room_left { OnOk result (journal.old.spare ≤ journal.new.spare + (length config.now.volumes + length config.now.volumes)) }
    ensures spare { length journal.new.events + journal.new.spare ≡ length journal.old.events + journal.old.spare }
{
    if !plant.is_on(s.0) {
        return Err(Refusal::ServerOff { server: s });
    }
    lift_all(plant, config, journal, s)
}
