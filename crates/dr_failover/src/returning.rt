//! A pair goes on the other way round.

ghost use Rattle.std.specs.Prelude.{◌≡◌, ℕ, ◌<◌, ◌≤◌, ◌+◌, false, length, None, IsSome, OnOk, OnErr};
ghost use Rattle.std.specs.FinSet.{contains};
ghost use Rattle.dr_logic.specs.Counts.{Counted};
ghost use Rattle.dr_config.specs.Table.{place_of};
ghost use Rattle.dr_model.specs.Laws.{Sound};
ghost use Rattle.dr_model.specs.PairEntries.{failback_entries};
ghost use Rattle.dr_model.specs.Plans as plans;
ghost use Rattle.dr_model.specs.ReadStops.{Ends};
ghost use Rattle.dr_model.specs.Sessions as model;
ghost use Rattle.dr_volume.specs.View.{Rest, volume_seen, track_seen};
ghost use Rattle.dr_moves.specs.Checks.{is_stop};
ghost use Rattle.dr_moves.specs.Fit.{RelationsFit};
ghost use Rattle.dr_moves.specs.Here.{world_seen, refusal_of, armed_in, IsAtRest};
ghost use Rattle.dr_gcopy.specs.Kinds.{part_of};
ghost use Rattle.dr_gcopy.specs.Steps.{BothAlone};
ghost use Rattle.dr_gmirror.specs.Orders.{AreReady, with_sessions};
ghost use Rattle.dr_failover.specs.Outcomes.{HasPartner, IsTurned, SameTracks};

use crate::checks::failback_refusal;
use crate::looks::yield_refusal;
use crate::turning::turn_both;
use dr_config::Config;
use dr_gcopy::{CopyKind, part_of};
use dr_ids::{Refusal, VolumeId};
use dr_model::Journal;
use dr_plant::Plant;
use dr_session::Sessions;

/// Of two primaries of each other x goes on as the primary and y as its secondary; the caller knows both. What y hasn't sent is out of
/// sync at x too; x is voided, and its long busy state stays. Both are Full Duplex where the pair is a Metro Mirror and nothing is
/// out of sync then, else Copy Pending. Refused, in this order, where the server of x is off; y can't be reached from x; x is no
/// primary of y of that kind; y is no primary of x; x, or else y, is a secondary; y, or else x, stands in a revertible or reversing relationship; and, where a
/// target of y is a member's, as its restore is. Fails too where a server stops in a move or goes off at a read; what was
/// done by then stays. A session has at most 64 members. The journal needs room for three events.
pub fn failback<P: Plant>(
    plant: &mut P,
    config: &Config,
    journal: &mut Journal,
    ss: &Sessions,
    x: VolumeId,
    y: VolumeId,
    kind: CopyKind,
) -> Result<(), Refusal>
    requires rest { IsAtRest (P.state plant.old) config.now }
    requires fit { RelationsFit (P.state plant.old) config.now }
    requires first { IsSome (place_of config.now x.0) }
    requires second { IsSome (place_of config.now y.0) }
    requires partner { HasPartner (P.state plant.old) config.now x.0 }
    requires members { (s : ℕ) → AreReady (P.state plant.old) config.now (model.members_in (model.session_in ss.now.sessions s)) }
    requires few { (s : ℕ) → length (model.members_in (model.session_in ss.now.sessions s)) ≤ 64 }
    requires room { 3 ≤ journal.old.spare }
    ensures carried { (r : Rest) → Ends (armed_in (P.state plant.old)) (world_seen (P.state plant.new) config.now (with_sessions ss.now.sessions r) journal.new.events) (refusal_of result) (world_seen (P.state plant.old) config.now (with_sessions ss.now.sessions r) journal.old.events)
        (failback_entries (world_seen (P.state plant.old) config.now (with_sessions ss.now.sessions r) journal.old.events).control (plans.yield_refusal y.0) x.0 y.0 (part_of kind)) }
    ensures unchanged { is_stop (refusal_of result) ≡ false → OnErr result ((P.state plant.new ≡ P.state plant.old) × (journal.new ≡ journal.old)) }
    ensures turned { OnOk result (IsTurned x.0 y.0 (part_of kind) (volume_seen (P.state plant.new) config.now x.0).fields (volume_seen (P.state plant.new) config.now y.0).fields) }
    ensures differing { OnOk result ((r : Rest) → Sound (world_seen (P.state plant.old) config.now r journal.old.events) → (t : ℕ) → t < (volume_seen (P.state plant.old) config.now x.0).tracks → contains (volume_seen (P.state plant.new) config.now x.0).fields.out_of_sync t ≡ false → track_seen (P.state plant.new) config.now x.0 t ≡ track_seen (P.state plant.new) config.now y.0 t) }
    ensures tracks { (r : Rest) → Sound (world_seen (P.state plant.old) config.now r journal.old.events) → SameTracks (P.state plant.old) (P.state plant.new) config.now }
    ensures others { BothAlone (P.state plant.old) (P.state plant.new) config.now x.0 y.0 }
    ensures rest { IsAtRest (P.state plant.new) config.now }
    ensures fit { RelationsFit (P.state plant.new) config.now }
    ensures unarmed { (q : ℕ) → (P.state plant.old).read_fuse q ≡ None → (P.state plant.new).read_fuse q ≡ None }
    ensures faults { Counted (is_stop (refusal_of result)) (P.state plant.old).faults (P.state plant.new).faults }
    ensures on { OnOk result ((P.state plant.new).on ≡ (P.state plant.old).on) }
    ensures room { journal.old.spare ≤ journal.new.spare + 3 }
    ensures spare { length journal.new.events + journal.new.spare ≡ length journal.old.events + journal.old.spare }
{
    if let Some(why) = failback_refusal(plant, config, x, y, part_of(kind)) {
        return Err(why);
    }
    if let Some(why) = yield_refusal(plant, config, ss, y) {
        return Err(why);
    }
    turn_both(plant, config, journal, x, y)
}
