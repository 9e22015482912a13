//! What follows the stop of a server while a cascaded volume sends on what a track was.

ghost use Rattle.std.specs.Prelude.{◌≡◌, ℕ, ◌≤◌, true, List, [], ◌∷◌, Some, IsSome};
ghost use Rattle.dr_config.specs.Table.{place_of};
ghost use Rattle.dr_model.specs.PairEntries as pair_entries;
ghost use Rattle.dr_model.specs.WriteEntries as write_entries;
ghost use Rattle.dr_volume.specs.View.{Rest};
ghost use Rattle.dr_moves.specs.Checks.{is_stop};
ghost use Rattle.dr_moves.specs.Followed.{EndsSo, Follows, KeptBehind};
ghost use Rattle.dr_moves.specs.Here.{world_seen, armed_in};
ghost use Rattle.dr_moves.specs.Made.{IsAt};

use dr_config::Config;
use dr_gcopy::suspend_running;
use dr_ids::{Refusal, ServerId, VolumeId};
use dr_metro::part_running;
use dr_model::Journal;
use dr_moves::{Behind, follow, server_of};
use dr_plant::Plant;

/// Suspends a where the server of b is off, as far as a is a primary whose own server is on.
fn suspend_unless<P: Plant>(
    plant: &mut P,
    config: &Config,
    journal: &mut Journal,
    b: VolumeId,
    a: VolumeId,
)
    requires at { IsAt (P.state plant.old) config.now }
    requires from { IsSome (place_of config.now a.0) }
    requires to { IsSome (place_of config.now b.0) }
    requires room { 3 ≤ journal.old.spare }
    ensures ends { (r : Rest) → EndsSo (armed_in (P.state plant.old)) (world_seen (P.state plant.old) config.now r journal.old.events) (pair_entries.suspend_unless b.0 a.0 ∷ []) (world_seen (P.state plant.new) config.now r journal.new.events) }
    ensures kept { KeptBehind (P.state plant.old) (P.state plant.new) config.now journal.old journal.new 3 true }
{
    if plant.is_on(server_of(config, b).0) {
        return;
    }
    suspend_running(plant, config, journal, a);
}

/// The cascaded volume that sent on, and its primary, from which a track came.
#[derive(Clone, Copy)]
struct Feed {
    from: VolumeId,
    to: VolumeId,
}

impl<P: Plant> Behind<P> for Feed {
    ghost entries = { λ x c. pair_entries.suspend_running x.to.0 ∷ pair_entries.suspend_unless x.to.0 x.from.0 ∷ [] };

    ghost stands = { λ x c. IsSome (place_of c x.from.0) × IsSome (place_of c x.to.0) };

    ghost leaves = { λ x s u c. Unit {0} };

    ghost room = { λ x c. 6 };

    fn run(&self, plant: &mut P, config: &Config, journal: &mut Journal, server: ServerId) {
        suspend_running(plant, config, journal, self.to);
        suspend_unless(plant, config, journal, self.to, self.from);
    }

    ghost leaves_all = { λ x s c. tt };
}

/// After such a stop in a send from a: b is suspended, where its server runs, and a only where that of b is off then. The journal needs
/// room for six events.
pub(crate) fn follow_feed<P: Plant>(
    plant: &mut P,
    config: &Config,
    journal: &mut Journal,
    a: VolumeId,
    b: VolumeId,
    why: Refusal,
)
    requires at { IsAt (P.state plant.old) config.now }
    requires from { IsSome (place_of config.now a.0) }
    requires to { IsSome (place_of config.now b.0) }
    requires room { 6 ≤ journal.old.spare }
    ensures follows { (r : Rest) → Follows (armed_in (P.state plant.old)) (world_seen (P.state plant.old) config.now r journal.old.events) (Some why) (pair_entries.suspend_running b.0 ∷ pair_entries.suspend_unless b.0 a.0 ∷ []) (world_seen (P.state plant.new) config.now r journal.new.events) }
    ensures kept { KeptBehind (P.state plant.old) (P.state plant.new) config.now journal.old journal.new 6 (is_stop (Some why)) }
{
    follow(plant, config, journal, &Feed { from: a, to: b }, why);
}

/// The volume of a host write, and its cascaded secondary that sent on.
#[derive(Clone, Copy)]
struct Write {
    from: VolumeId,
    to: VolumeId,
}

impl<P: Plant> Behind<P> for Write {
    ghost entries = { λ x c. pair_entries.suspend_running x.to.0 ∷ write_entries.part_running x.from.0 ∷ [] };

    ghost stands = { λ x c. IsSome (place_of c x.from.0) × IsSome (place_of c x.to.0) };

    ghost leaves = { λ x s u c. Unit {0} };

    ghost room = { λ x c. 6 };

    fn run(&self, plant: &mut P, config: &Config, journal: &mut Journal, server: ServerId) {
        suspend_running(plant, config, journal, self.to);
        part_running(plant, config, journal, self.from);
    }

    ghost leaves_all = { λ x s c. tt };
}

/// After such a stop in a host write on v: its secondary u is suspended, where its server runs, and then v by error, where its own does.
/// The journal needs room for six events.
pub(crate) fn follow_fed<P: Plant>(
    plant: &mut P,
    config: &Config,
    journal: &mut Journal,
    v: VolumeId,
    u: VolumeId,
    why: Refusal,
)
    requires at { IsAt (P.state plant.old) config.now }
    requires from { IsSome (place_of config.now v.0) }
    requires to { IsSome (place_of config.now u.0) }
    requires room { 6 ≤ journal.old.spare }
    ensures follows { (r : Rest) → Follows (armed_in (P.state plant.old)) (world_seen (P.state plant.old) config.now r journal.old.events) (Some why) (pair_entries.suspend_running u.0 ∷ write_entries.part_running v.0 ∷ []) (world_seen (P.state plant.new) config.now r journal.new.events) }
    ensures kept { KeptBehind (P.state plant.old) (P.state plant.new) config.now journal.old journal.new 6 (is_stop (Some why)) }
{
    follow(plant, config, journal, &Write { from: v, to: u }, why);
}
