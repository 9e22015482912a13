//! What a target keeps before a track of its source changes.

ghost use Rattle.std.specs.Prelude.{◌≡◌, ℕ, ◌<◌, ◌≤◌, ◌+◌, true, false, not, ◌&&◌, length, None, Some, IsSome, OnOk, OnErr, is_err};
ghost use Rattle.std.specs.FinSet.{contains};
ghost use Rattle.dr_logic.specs.Counts.{Counted};
ghost use Rattle.dr_config.specs.Table.{StandsFor, place_of};
ghost use Rattle.dr_model.specs.Carry.{now};
ghost use Rattle.dr_model.specs.Entries as entries;
ghost use Rattle.dr_model.specs.Entries.{copies_from};
ghost use Rattle.dr_model.specs.Moves.{Note};
ghost use Rattle.dr_model.specs.Refusals.{stopped};
ghost use Rattle.dr_volume.specs.Update.{IsAsBefore, OthersStay};
ghost use Rattle.dr_volume.specs.View.{Rest, volume_seen};
ghost use Rattle.dr_volume.specs.Volume.{Shows};
ghost use Rattle.dr_moves.specs.Fit.{RelationsFit};
ghost use Rattle.dr_moves.specs.Here.{world_seen, refusal_of, armed_in, IsAtRest};
ghost use Rattle.dr_moves.specs.Made.{IsAt, May};
ghost use Rattle.dr_moves.specs.Turns.{Advances, Halts};
ghost use Rattle.dr_flash.specs.Heads.{kept_by, id_at};
ghost use Rattle.dr_flash.specs.Keeping.{Unseen, KeptOn};
ghost use Rattle.dr_flash.specs.Views.{AllShow, kept_for, KeepsTrack};

use crate::taking::take;
use dr_config::Config;
use dr_ids::{Refusal, VolumeId};
use dr_model::Journal;
use dr_moves::{Move, make_move_by};
use dr_plant::Plant;
use dr_volume::{Fields, Relation, peek_fields, peek_holds, peek_relation_at};

/// Target u notes that its source's track t is about to change.
fn note<P: Plant>(
    plant: &mut P,
    config: &Config,
    journal: &mut Journal,
    u: VolumeId,
    t: u16,
    f: &Fields,
) -> Result<(), Refusal>
    requires at { IsAt (P.state plant.old) config.now }
    requires may { May (P.state plant.old) config.now (Note u.0 t) }
    requires shows { Shows (P.state plant.old) config.now u.0 f.now }
    requires room { 2 ≤ journal.old.spare }
    ensures unseen { Unseen (P.state plant.old) (P.state plant.new) config.now journal.old journal.new (now (Note u.0 t)) u.0 (volume_seen (P.state plant.old) config.now u.0).server result }
    ensures held { OnOk result (contains (volume_seen (P.state plant.new) config.now u.0).fields.own t ≡ contains (volume_seen (P.state plant.old) config.now u.0).fields.own t) }
{
    let mut next = *f;
    make_move_by(
        plant,
        config,
        journal,
        &Move::Note { v: u, t },
        &mut next,
        None,
    )
}

/// Whether a volume of which this is said is a target of v that isn't restored onto it.
fn is_kept_for(f: &Relation, v: VolumeId) -> bool
    ensures { result ≡ kept_by v.0 f.now }
{
    f.related && f.source.0 == v.0 && !f.reversing
}

/// Whether the fields are to note a change of track t of the source, which they don't yet.
fn is_news(f: &Fields, t: u16) -> bool
    ensures { result ≡ (f.now.recorded && not (contains f.now.source_changes t)) }
{
    f.recorded && !f.source_changes.contains(t)
}

/// Whether target u holds track t and records no changes: then it keeps and notes nothing.
fn is_done<P: Plant>(plant: &P, config: &Config, u: VolumeId, t: u16, recorded: bool) -> bool
    requires stands { StandsFor config.now (P.state plant.now) }
    requires defined { IsSome (place_of config.now u.0) }
    requires within { t < (volume_seen (P.state plant.now) config.now u.0).tracks }
    ensures { result ≡ (not recorded && contains (volume_seen (P.state plant.now) config.now u.0).fields.own t) }
{
    !recorded && peek_holds(plant, config, u, t)
}

/// Target u of v, which isn't restored onto it, keeps track t of v, or notes that it changes where it holds it. Its fields are
/// decoded only if there may be something to do.
fn keep_target<P: Plant>(
    plant: &mut P,
    config: &Config,
    journal: &mut Journal,
    v: VolumeId,
    t: u16,
    u: VolumeId,
    recorded: bool,
) -> Result<(), Refusal>
    requires at { IsAt (P.state plant.old) config.now }
    requires recorded { recorded ≡ (volume_seen (P.state plant.old) config.now u.0).fields.recorded }
    requires kept { kept_for v.0 (volume_seen (P.state plant.old) config.now u.0).fields ≡ true }
    requires defined { IsSome (place_of config.now u.0) }
    requires running { (P.state plant.old).on (volume_seen (P.state plant.old) config.now v.0).server ≡ true }
    requires within { t < (volume_seen (P.state plant.old) config.now v.0).tracks }
    requires room { 2 ≤ journal.old.spare }
    ensures kept_on { KeptOn (P.state plant.old) (P.state plant.new) config.now journal.old journal.new v.0 t u.0 result }
{
    if is_done(plant, config, u, t, recorded) {
        return Ok(());
    }
    let fields = peek_fields(plant, config, u);
    if !fields.own.contains(t) {
        let m = Move::Keep { v: u, t };
        return take(plant, config, journal, &m, u, t, &fields);
    }
    if is_news(&fields, t) {
        return note(plant, config, journal, u, t, &fields);
    }
    Ok(())
}

/// Before track t of v changes, u, which was defined after so many others, keeps it where u is a target of v, or notes the
/// change where u holds it. Of a volume that is no such target the head alone is looked at.
pub fn keep_on<P: Plant>(
    plant: &mut P,
    config: &Config,
    journal: &mut Journal,
    v: VolumeId,
    t: u16,
    u: VolumeId,
    place: usize,
) -> Result<(), Refusal>
    requires rest { IsAtRest (P.state plant.old) config.now }
    requires fit { RelationsFit (P.state plant.old) config.now }
    requires there { place < length config.now.volumes }
    requires at { place_of config.now u.0 ≡ Some place }
    requires running { (P.state plant.old).on (volume_seen (P.state plant.old) config.now v.0).server ≡ true }
    requires within { t < (volume_seen (P.state plant.old) config.now v.0).tracks }
    requires room { 2 ≤ journal.old.spare }
    ensures advances { OnOk result ((r : Rest) → Advances (world_seen (P.state plant.old) config.now r journal.old.events) (entries.keep_on v.0 t u.0) (world_seen (P.state plant.new) config.now r journal.new.events)) }
    ensures halts { OnErr result ((r : Rest) → Halts (armed_in (P.state plant.old)) (world_seen (P.state plant.old) config.now r journal.old.events) (entries.keep_on v.0 t u.0) (world_seen (P.state plant.new) config.now r journal.new.events) (refusal_of result)) }
    ensures refused { OnErr result (refusal_of result ≡ Some (stopped (volume_seen (P.state plant.old) config.now v.0).server)) }
    ensures rest { IsAtRest (P.state plant.new) config.now }
    ensures fit { RelationsFit (P.state plant.new) config.now }
    ensures unarmed { (q : ℕ) → (P.state plant.old).read_fuse q ≡ None → (P.state plant.new).read_fuse q ≡ None }
    ensures faults { Counted (is_err result) (P.state plant.old).faults (P.state plant.new).faults }
    ensures others { (q : ℕ) → copies_from v.0 (volume_seen (P.state plant.old) config.now q).fields ≡ false → IsAsBefore (P.state plant.old) (P.state plant.new) config.now q }
    ensures show { AllShow (P.state plant.old) (P.state plant.new) config.now }
    ensures stay { OthersStay (P.state plant.old) (P.state plant.new) config.now u.0 }
    ensures held { OnOk result (KeepsTrack (P.state plant.old) (P.state plant.new) config.now v.0 t u.0) }
    ensures apart { (q : ℕ) → (copies_from v.0 (volume_seen (P.state plant.old) config.now q).fields && not (volume_seen (P.state plant.old) config.now q).fields.reversing) ≡ false → IsAsBefore (P.state plant.old) (P.state plant.new) config.now q }
    ensures on { OnOk result ((P.state plant.new).on ≡ (P.state plant.old).on) }
    ensures room { journal.old.spare ≤ journal.new.spare + 2 }
    ensures room_left { OnOk result (journal.old.spare ≤ journal.new.spare + 1) }
    ensures spare { length journal.new.events + journal.new.spare ≡ length journal.old.events + journal.old.spare }
{
    let found = peek_relation_at(plant, config, place);
    if !is_kept_for(&found, v) {
        return Ok(());
    }
    keep_target(plant, config, journal, v, t, u, found.recorded)
}

/// The same of the volume that was defined there, whatever it is.
pub(crate) fn keep_at<P: Plant>(
    plant: &mut P,
    config: &Config,
    journal: &mut Journal,
    v: VolumeId,
    t: u16,
    place: usize,
) -> Result<(), Refusal>
    requires at { IsAt (P.state plant.old) config.now }
    requires there { place < length config.now.volumes }
    requires place { place_of config.now (id_at config.now place) ≡ Some place }
    requires running { (P.state plant.old).on (volume_seen (P.state plant.old) config.now v.0).server ≡ true }
    requires within { t < (volume_seen (P.state plant.old) config.now v.0).tracks }
    requires room { 2 ≤ journal.old.spare }
    ensures kept_on { KeptOn (P.state plant.old) (P.state plant.new) config.now journal.old journal.new v.0 t (id_at config.now place) result }
{
    let found = peek_relation_at(plant, config, place);
    if !is_kept_for(&found, v) {
        return Ok(());
    }
    let u = config.volume_at(place).unwrap();
    keep_target(plant, config, journal, v, t, u, found.recorded)
}
