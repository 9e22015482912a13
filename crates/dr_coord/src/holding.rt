//! A primary is held for an attempt, and let go.

ghost use Rattle.std.specs.Prelude.{◌≡◌, ℕ, ◌≤◌, ◌+◌, ◌&&◌, true, false, [], ◌∷◌, length, nat_lt, nat_eq, None, Some, IsSome, OnOk, OnErr, is_err, if◌then◌else◌};
ghost use Rattle.dr_logic.specs.Counts.{Counted};
ghost use Rattle.dr_config.specs.Table.{place_of};
ghost use Rattle.dr_model.specs.Layout.{is_part};
ghost use Rattle.dr_model.specs.ReadStops.{Ends};
ghost use Rattle.dr_model.specs.Pairs.{records};
ghost use Rattle.dr_model.specs.Refusals.{stopped};
ghost use Rattle.dr_model.specs.SessionEntries.{last_of, hold_entries, free_on, release_entries};
ghost use Rattle.dr_volume.specs.Head.{head_of};
ghost use Rattle.dr_volume.specs.Update.{OthersStay};
ghost use Rattle.dr_volume.specs.View.{Rest, volume_seen};
ghost use Rattle.dr_moves.specs.Checks.{is_stop};
ghost use Rattle.dr_moves.specs.Fit.{RelationsFit};
ghost use Rattle.dr_moves.specs.Here.{world_seen, refusal_of, armed_in, IsAtRest};
ghost use Rattle.dr_moves.specs.Turns.{Advances, Halts, Leads, Fails};
ghost use Rattle.dr_moves.specs.Aside.{AsideFits};
ghost use Rattle.dr_moves.specs.Made.{IsAt, Kept};
ghost use Rattle.dr_moves.specs.declared.beside.News.TheVariants.{Begun};
ghost use Rattle.dr_coord.specs.Changes.{hold_next, HoldHeard};

use crate::checks::{hold_refusal, void_by};
use crate::fields::records;
use dr_config::Config;
use dr_ids::{Member, Refusal, SessionId, VolumeId};
use dr_model::Journal;
use dr_moves::{Beside, Move, Next, act_beside, make_move};
use dr_plant::Plant;
use dr_volume::{Head, peek_head};

/// What a hold of primary a with this head for attempt n of a session comes to: nothing, where it records the attempt.
fn hold_next(a: VolumeId, s: SessionId, n: u32, first: bool, f: &Head) -> Next
    ensures { result ≡ hold_next (f.now.recording && nat_eq f.now.attempt n) first a s n }
{
    if records(n, f) {
        return Next::Pass;
    }
    if first {
        return Next::Open { v: a, s, n };
    }
    Next::Do(Move::Hold {
        v: a,
        s,
        n,
        first: false,
    })
}

/// Holds the primary of a member for attempt n of a session, where its server is on: host writes on it wait, and what is out
/// of sync and what changes from then on stand apart. The journal is told of the cut, and before it that the attempt begins
/// where it is the first hold of it. Where the primary records the attempt, nothing happens. Refused where it is no Global
/// Copy primary of the member's secondary in Copy Pending, or else where the attempt isn't newer than its own; then nothing
/// has changed. Fails too where the server stops in the move or goes off at a read. What lies beside hears that the session's
/// attempt has begun where this is the first hold and it is done, or counts as done in a stop. The journal needs room for two
/// events, and for one more where this is the first hold.
pub fn hold<P: Plant, B: Beside>(
    plant: &mut P,
    config: &Config,
    journal: &mut Journal,
    beside: &mut B,
    s: SessionId,
    m: &Member,
    n: u32,
    first: bool,
) -> Result<(), Refusal>
    requires at { IsAt (P.state plant.old) config.now }
    requires defined { IsSome (place_of config.now m.now.a.0) }
    requires running { (P.state plant.old).on (volume_seen (P.state plant.old) config.now m.now.a.0).server ≡ true }
    requires takes { first ≡ true → B.takes beside.old (Begun s) }
    requires room { (if first then 3 else 2) ≤ journal.old.spare }
    ensures leads { OnOk result ((r : Rest) → nat_lt (last_of (world_seen (P.state plant.old) config.now (B.rest beside.old r) journal.old.events).control s.0) n ≡ first
        → Leads (world_seen (P.state plant.old) config.now (B.rest beside.old r) journal.old.events) (hold_entries s.0 m.now.a.0 m.now.b.0 n) (world_seen (P.state plant.new) config.now (B.rest beside.new r) journal.new.events)) }
    ensures fails { OnErr result ((r : Rest) → nat_lt (last_of (world_seen (P.state plant.old) config.now (B.rest beside.old r) journal.old.events).control s.0) n ≡ first
        → Fails (armed_in (P.state plant.old)) (world_seen (P.state plant.old) config.now (B.rest beside.old r) journal.old.events) (hold_entries s.0 m.now.a.0 m.now.b.0 n) (world_seen (P.state plant.new) config.now (B.rest beside.new r) journal.new.events) (refusal_of result)) }
    ensures unchanged { is_stop (refusal_of result) ≡ false → OnErr result ((P.state plant.new ≡ P.state plant.old) × (journal.new ≡ journal.old) × (beside.new ≡ beside.old)) }
    ensures heard { HoldHeard B.after beside.old beside.new s first (records n (volume_seen (P.state plant.old) config.now m.now.a.0).fields) journal.old.spare journal.new.spare result }
    ensures kept { Kept (P.state plant.old) (P.state plant.new) config.now journal.old journal.new (if first then 3 else 2) (is_stop (refusal_of result)) result }
    ensures others { OthersStay (P.state plant.old) (P.state plant.new) config.now m.now.a.0 }
{
    let head = peek_head(plant, config, m.a);
    if let Some(why) = hold_refusal(plant, config, m.a, m.b, n, &head) {
        return Err(why);
    }
    let next = hold_next(m.a, s, n, first, &head);
    act_beside(plant, config, journal, beside, &next)
}

/// Primary a, of which it is known whether it is held, is let go, where it is.
fn free<P: Plant>(
    plant: &mut P,
    config: &Config,
    journal: &mut Journal,
    a: VolumeId,
    held: bool,
) -> Result<(), Refusal>
    requires rest { IsAtRest (P.state plant.old) config.now }
    requires fit { RelationsFit (P.state plant.old) config.now }
    requires defined { IsSome (place_of config.now a.0) }
    requires running { (P.state plant.old).on (volume_seen (P.state plant.old) config.now a.0).server ≡ true }
    requires held { held ≡ (volume_seen (P.state plant.old) config.now a.0).fields.coordination }
    requires room { 1 ≤ journal.old.spare }
    ensures advances { OnOk result ((r : Rest) → Advances (world_seen (P.state plant.old) config.now r journal.old.events) (free_on a.0) (world_seen (P.state plant.new) config.now r journal.new.events)) }
    ensures halts { OnErr result ((r : Rest) → Halts (armed_in (P.state plant.old)) (world_seen (P.state plant.old) config.now r journal.old.events) (free_on a.0) (world_seen (P.state plant.new) config.now r journal.new.events) (refusal_of result)) }
    ensures refused { OnErr result (refusal_of result ≡ Some (stopped (volume_seen (P.state plant.old) config.now a.0).server)) }
    ensures rest { IsAtRest (P.state plant.new) config.now }
    ensures fit { RelationsFit (P.state plant.new) config.now }
    ensures aside { AsideFits (P.state plant.old) config.now → AsideFits (P.state plant.new) config.now }
    ensures unarmed { (q : ℕ) → (P.state plant.old).read_fuse q ≡ None → (P.state plant.new).read_fuse q ≡ None }
    ensures faults { Counted (is_err result) (P.state plant.old).faults (P.state plant.new).faults }
    ensures others { OthersStay (P.state plant.old) (P.state plant.new) config.now a.0 }
    ensures on { OnOk result ((P.state plant.new).on ≡ (P.state plant.old).on) }
    ensures room { journal.old.spare ≤ journal.new.spare + 1 }
    ensures room_left { OnOk result (journal.old.spare ≡ journal.new.spare) }
    ensures spare { length journal.new.events + journal.new.spare ≡ length journal.old.events + journal.old.spare }
{
    if !held {
        return Ok(());
    }
    make_move(plant, config, journal, &Move::Free { v: a }, None)
}

/// Lets the primary of a member go, where its server is on and it is held: host writes on it wait no more, and it goes on to
/// record attempt n. Nothing is told. Refused where it doesn't record the attempt; then nothing has changed. Fails too where
/// the server stops in the move or goes off at a read. The journal needs room for an event.
pub fn release<P: Plant>(
    plant: &mut P,
    config: &Config,
    journal: &mut Journal,
    m: &Member,
    n: u32,
) -> Result<(), Refusal>
    requires rest { IsAtRest (P.state plant.old) config.now }
    requires fit { RelationsFit (P.state plant.old) config.now }
    requires defined { IsSome (place_of config.now m.now.a.0) }
    requires running { (P.state plant.old).on (volume_seen (P.state plant.old) config.now m.now.a.0).server ≡ true }
    requires room { 1 ≤ journal.old.spare }
    ensures carried { (r : Rest) → Ends (armed_in (P.state plant.old)) (world_seen (P.state plant.new) config.now r journal.new.events) (refusal_of result) (world_seen (P.state plant.old) config.now r journal.old.events) (release_entries m.now.a.0 n) }
    ensures leads { OnOk result ((r : Rest) → Leads (world_seen (P.state plant.old) config.now r journal.old.events) (release_entries m.now.a.0 n) (world_seen (P.state plant.new) config.now r journal.new.events)) }
    ensures fails { OnErr result ((r : Rest) → Fails (armed_in (P.state plant.old)) (world_seen (P.state plant.old) config.now r journal.old.events) (release_entries m.now.a.0 n) (world_seen (P.state plant.new) config.now r journal.new.events) (refusal_of result)) }
    ensures unchanged { is_stop (refusal_of result) ≡ false → OnErr result ((P.state plant.new ≡ P.state plant.old) × (journal.new ≡ journal.old)) }
    ensures rest { IsAtRest (P.state plant.new) config.now }
    ensures fit { RelationsFit (P.state plant.new) config.now }
    ensures aside { AsideFits (P.state plant.old) config.now → AsideFits (P.state plant.new) config.now }
    ensures unarmed { (q : ℕ) → (P.state plant.old).read_fuse q ≡ None → (P.state plant.new).read_fuse q ≡ None }
    ensures faults { Counted (is_stop (refusal_of result)) (P.state plant.old).faults (P.state plant.new).faults }
    ensures others { OthersStay (P.state plant.old) (P.state plant.new) config.now m.now.a.0 }
    ensures on { OnOk result ((P.state plant.new).on ≡ (P.state plant.old).on) }
    ensures room { journal.old.spare ≤ journal.new.spare + 1 }
    ensures room_left { OnOk result (journal.old.spare ≡ journal.new.spare) }
    ensures spare { length journal.new.events + journal.new.spare ≡ length journal.old.events + journal.old.spare }
{
    let head = peek_head(plant, config, m.a);
    if let Some(why) = void_by(n, &head) {
        return Err(why);
    }
    free(plant, config, journal, m.a, head.coordination)
}
