//! What follows the stop of a server in a host write: a primary whose own server still runs is suspended.

ghost use Rattle.std.specs.Prelude.{◌≡◌, ℕ, ◌≤◌, ◌+◌, true, false, length, None, Some, IsSome, OnOk};
ghost use Rattle.std.specs.Option.{unwrap_or};
ghost use Rattle.dr_logic.specs.Counts.{Counted};
ghost use Rattle.dr_ids.specs.Paths.{path_in};
ghost use Rattle.dr_config.specs.Table.{place_of};
ghost use Rattle.dr_model.specs.Entries.{subsystem};
ghost use Rattle.dr_model.specs.WriteEntries.{part_after};
ghost use Rattle.dr_volume.specs.View.{Rest};
ghost use Rattle.dr_moves.specs.Checks.{is_stop};
ghost use Rattle.dr_moves.specs.Fit.{RelationsFit};
ghost use Rattle.dr_moves.specs.Here.{world_seen, armed_in, refusal_of, IsAtRest};
ghost use Rattle.dr_moves.specs.Made.{IsAt};
ghost use Rattle.dr_moves.specs.Followed.{EndsSo, Follows};
ghost use Rattle.dr_metro.specs.Writing.{landed_so};

use crate::sync::WriteEnd;
use dr_config::Config;
use dr_gcopy::suspend;
use dr_ids::{Refusal, VolumeId};
use dr_model::Journal;
use dr_moves::server_of;
use dr_plant::Plant;
use dr_volume::peek_head;

/// Whether the path from the logical subsystem of a to that of b has its group flag.
pub fn is_grouped(config: &Config, a: VolumeId, b: VolumeId) -> bool
    ensures { result ≡ unwrap_or (path_in config.now.paths (subsystem a.0) (subsystem b.0)) false }
{
    config.path(a.lss(), b.lss()).unwrap_or(false)
}

/// Suspends a volume that is a primary and whose server is on, long busy where the path to its secondary has its group
/// flag. A stop of that server in it is told, and changes nothing of what was refused before. The journal needs room for three events.
pub fn part_running<P: Plant>(plant: &mut P, config: &Config, journal: &mut Journal, v: VolumeId)
    requires rest { IsAtRest (P.state plant.old) config.now }
    requires fit { RelationsFit (P.state plant.old) config.now }
    requires defined { IsSome (place_of config.now v.0) }
    requires room { 3 ≤ journal.old.spare }
    ensures ends { (r : Rest) → EndsSo (armed_in (P.state plant.old)) (world_seen (P.state plant.old) config.now r journal.old.events) (part_after v.0) (world_seen (P.state plant.new) config.now r journal.new.events) }
    ensures rest { IsAtRest (P.state plant.new) config.now }
    ensures fit { RelationsFit (P.state plant.new) config.now }
    ensures unarmed { (q : ℕ) → (P.state plant.old).read_fuse q ≡ None → (P.state plant.new).read_fuse q ≡ None }
    ensures faults { (f : ℕ) → Counted true f (P.state plant.old).faults → Counted true f (P.state plant.new).faults }
    ensures room { journal.old.spare ≤ journal.new.spare + 3 }
    ensures spare { length journal.new.events + journal.new.spare ≡ length journal.old.events + journal.old.spare }
{
    let head = peek_head(plant, config, v);
    if !head.primary.is_part() {
        return;
    }
    if !plant.is_on(server_of(config, v).0) {
        return;
    }
    let busy = is_grouped(config, v, head.primary_partner);
    let _ = suspend(plant, config, journal, v, busy);
}

/// What follows where a host write on v was refused so: after the stop of a server v is suspended, where it is a primary
/// whose own server still runs. It is long busy where the path to its secondary has its group flag.
fn follow_part<P: Plant>(
    plant: &mut P,
    config: &Config,
    journal: &mut Journal,
    v: VolumeId,
    why: Refusal,
)
    requires rest { IsAtRest (P.state plant.old) config.now }
    requires fit { RelationsFit (P.state plant.old) config.now }
    requires defined { IsSome (place_of config.now v.0) }
    requires room { 3 ≤ journal.old.spare }
    ensures follows { (r : Rest) → Follows (armed_in (P.state plant.old)) (world_seen (P.state plant.old) config.now r journal.old.events) (Some why) (part_after v.0) (world_seen (P.state plant.new) config.now r journal.new.events) }
    ensures rest { IsAtRest (P.state plant.new) config.now }
    ensures fit { RelationsFit (P.state plant.new) config.now }
    ensures unarmed { (q : ℕ) → (P.state plant.old).read_fuse q ≡ None → (P.state plant.new).read_fuse q ≡ None }
    ensures faults { (f : ℕ) → Counted (is_stop (Some why)) f (P.state plant.old).faults → Counted (is_stop (Some why)) f (P.state plant.new).faults }
    ensures room { journal.old.spare ≤ journal.new.spare + 3 }
    ensures spare { length journal.new.events + journal.new.spare ≡ length journal.old.events + journal.old.spare }
{
    match why {
        Refusal::Stopped { .. } => part_running(plant, config, journal, v),
        _ => {}
    }
}

/// What a write that was carried out comes to.
pub fn landed(done: Result<(), Refusal>) -> Result<WriteEnd, Refusal>
    ensures { result ≡ landed_so done }
{
    match done {
        Ok(()) => Ok(WriteEnd::Landed),
        Err(stop) => Err(stop),
    }
}

/// What a write on v came to, with what follows where a server stopped in it: v is suspended, where it is a primary whose own server
/// still runs, long busy where the path to its secondary has its group flag. The journal needs room for three events.
pub fn followed<P: Plant>(
    plant: &mut P,
    config: &Config,
    journal: &mut Journal,
    v: VolumeId,
    done: Result<WriteEnd, Refusal>,
) -> Result<WriteEnd, Refusal>
    requires at { IsAt (P.state plant.old) config.now }
    requires defined { IsSome (place_of config.now v.0) }
    requires room { 3 ≤ journal.old.spare }
    ensures result { result ≡ done }
    ensures stays { OnOk done (P.state plant.new ≡ P.state plant.old) }
    ensures follows { (r : Rest) → Follows (armed_in (P.state plant.old)) (world_seen (P.state plant.old) config.now r journal.old.events) (refusal_of done) (part_after v.0) (world_seen (P.state plant.new) config.now r journal.new.events) }
    ensures at { IsAt (P.state plant.new) config.now }
    ensures unarmed { (q : ℕ) → (P.state plant.old).read_fuse q ≡ None → (P.state plant.new).read_fuse q ≡ None }
    ensures faults { (f : ℕ) → Counted (is_stop (refusal_of done)) f (P.state plant.old).faults → Counted (is_stop (refusal_of done)) f (P.state plant.new).faults }
    ensures room { journal.old.spare ≤ journal.new.spare + 3 }
    ensures spare { length journal.new.events + journal.new.spare ≡ length journal.old.events + journal.old.spare }
{
    match done {
        Ok(end) => Ok(end),
        Err(why) => {
            follow_part(plant, config, journal, v, why);
            Err(why)
        }
    }
}
