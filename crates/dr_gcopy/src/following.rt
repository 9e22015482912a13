//! What follows the stop of a server: a primary is suspended, where its own server still runs.

ghost use Rattle.std.specs.Prelude.{◌≡◌, ◌≢◌, ℕ, ◌≤◌, ◌+◌, true, refl, length, None, Some, IsSome};
ghost use Rattle.dr_logic.specs.Counts.{Counted};
ghost use Rattle.dr_config.specs.Table.{place_of};
ghost use Rattle.dr_model.specs.PairEntries.{suspend_after};
ghost use Rattle.dr_volume.specs.Update.{OthersStay};
ghost use Rattle.dr_volume.specs.View.{Rest};
ghost use Rattle.dr_moves.specs.Checks.{is_stop};
ghost use Rattle.dr_moves.specs.Fit.{RelationsFit};
ghost use Rattle.dr_moves.specs.Followed.{EndsSo, Follows, KeptBehind};
ghost use Rattle.dr_moves.specs.Here.{world_seen, armed_in, IsAtRest};
ghost use Rattle.dr_moves.specs.Made.{IsAt};

use crate::suspending::suspend;
use dr_config::Config;
use dr_ids::{Refusal, ServerId, VolumeId};
use dr_model::Journal;
use dr_moves::{Behind, follow, server_of};
use dr_plant::Plant;
use dr_volume::peek_head;

/// Suspends a volume that is a primary and whose server is on. A stop of that server in it is told, and changes nothing
/// of what was refused before. The journal needs room for three events.
pub fn suspend_running<P: Plant>(plant: &mut P, config: &Config, journal: &mut Journal, a: VolumeId)
    requires at { IsAt (P.state plant.old) config.now }
    requires defined { IsSome (place_of config.now a.0) }
    requires room { 3 ≤ journal.old.spare }
    ensures ends { (r : Rest) → EndsSo (armed_in (P.state plant.old)) (world_seen (P.state plant.old) config.now r journal.old.events) (suspend_after a.0) (world_seen (P.state plant.new) config.now r journal.new.events) }
    ensures others { OthersStay (P.state plant.old) (P.state plant.new) config.now a.0 }
    ensures kept { KeptBehind (P.state plant.old) (P.state plant.new) config.now journal.old journal.new 3 true }
{
    if !peek_head(plant, config, a).primary.is_part() {
        return;
    }
    if !plant.is_on(server_of(config, a).0) {
        return;
    }
    let _ = suspend(plant, config, journal, a, false);
}

/// The primary that is suspended behind a stop.
#[derive(Clone, Copy)]
struct Suspended(VolumeId);

impl<P: Plant> Behind<P> for Suspended {
    ghost entries = { λ x c. suspend_after x.0.0 };

    ghost stands = { λ x c. IsSome (place_of c x.0.0) };

    ghost leaves = { λ x s u c. OthersStay s u c x.0.0 };

    ghost room = { λ x c. 3 };

    fn run(&self, plant: &mut P, config: &Config, journal: &mut Journal, server: ServerId) {
        suspend_running(plant, config, journal, self.0);
    }

    ghost leaves_all = { λ x s c q ne. record { volume = refl; tracks = refl; saved = refl } };
}

/// What follows where primary a was refused so: after the stop of a server it is suspended, where its own still runs.
pub fn follow_stop<P: Plant>(
    plant: &mut P,
    config: &Config,
    journal: &mut Journal,
    a: VolumeId,
    why: Refusal,
)
    requires rest { IsAtRest (P.state plant.old) config.now }
    requires fit { RelationsFit (P.state plant.old) config.now }
    requires defined { IsSome (place_of config.now a.0) }
    requires room { 3 ≤ journal.old.spare }
    ensures follows { (r : Rest) → Follows (armed_in (P.state plant.old)) (world_seen (P.state plant.old) config.now r journal.old.events) (Some why) (suspend_after a.0) (world_seen (P.state plant.new) config.now r journal.new.events) }
    ensures rest { IsAtRest (P.state plant.new) config.now }
    ensures fit { RelationsFit (P.state plant.new) config.now }
    ensures unarmed { (q : ℕ) → (P.state plant.old).read_fuse q ≡ None → (P.state plant.new).read_fuse q ≡ None }
    ensures faults { (f : ℕ) → Counted (is_stop (Some why)) f (P.state plant.old).faults → Counted (is_stop (Some why)) f (P.state plant.new).faults }
    ensures others { OthersStay (P.state plant.old) (P.state plant.new) config.now a.0 }
    ensures room { journal.old.spare ≤ journal.new.spare + 3 }
    ensures spare { length journal.new.events + journal.new.spare ≡ length journal.old.events + journal.old.spare }
{
    follow(plant, config, journal, &Suspended(a), why);
}
