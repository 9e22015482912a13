//! Whether two volumes of one size have the same bytes.

ghost use Rattle.std.specs.Prelude.{◌≡◌, ℕ, ◌<◌, ◌≤◌, ◌+◌, true, length, None, Some, IsSome, IfOk, OnOk, OnErr, is_err};
ghost use Rattle.dr_logic.specs.Counts.{Counted};
ghost use Rattle.dr_config.specs.Table.{StandsFor, place_of};
ghost use Rattle.dr_plant.specs.State.{PlantState};
ghost use Rattle.dr_model.specs.PairEntries.{first_differing};
ghost use Rattle.dr_model.specs.ReadStops.{GoesOff};
ghost use Rattle.dr_volume.specs.Update.{IsAsBefore};
ghost use Rattle.dr_volume.specs.View.{Rest, volume_seen, track_seen};
ghost use Rattle.dr_moves.specs.Checks.{is_stop};
ghost use Rattle.dr_moves.specs.Here.{world_seen, refusal_of, armed_in, IsAtRest};

use dr_config::Config;
use dr_ids::{Refusal, VolumeId};
use dr_model::Journal;
use dr_moves::{read_told, tracks_of};
use dr_plant::Plant;
use dr_volume::peek_opened;

/// Says that a volume has a track 0. Does nothing.
fn tell_tracks(config: &Config, v: VolumeId)
    requires defined { IsSome (place_of config.now v.0) }
    ensures { (s : PlantState) → 1 ≤ (volume_seen s config.now v.0).tracks }
{
    let _count = config.volumes();
}

/// Reads the first track of a volume whose server is on, only to see that the server can read. Fails if it goes off at the
/// read.
fn read_first<P: Plant>(
    plant: &mut P,
    config: &Config,
    journal: &mut Journal,
    v: VolumeId,
) -> Result<(), Refusal>
    requires rest { IsAtRest (P.state plant.old) config.now }
    requires defined { IsSome (place_of config.now v.0) }
    requires running { (P.state plant.old).on (volume_seen (P.state plant.old) config.now v.0).server ≡ true }
    requires room { 1 ≤ journal.old.spare }
    ensures passed { OnOk result (P.state plant.new ≡ P.state plant.old) }
    ensures silent { OnOk result (journal.new ≡ journal.old) }
    ensures gone { OnErr result ((r : Rest) → GoesOff (armed_in (P.state plant.old)) (world_seen (P.state plant.new) config.now r journal.new.events) (refusal_of result) (world_seen (P.state plant.old) config.now r journal.old.events)) }
    ensures stopped { OnErr result (is_stop (refusal_of result) ≡ true) }
    ensures same { (u : ℕ) → IsAsBefore (P.state plant.old) (P.state plant.new) config.now u }
    ensures rest { IsAtRest (P.state plant.new) config.now }
    ensures unarmed { (q : ℕ) → (P.state plant.old).read_fuse q ≡ None → (P.state plant.new).read_fuse q ≡ None }
    ensures faults { Counted (is_err result) (P.state plant.old).faults (P.state plant.new).faults }
    ensures room { journal.old.spare ≤ journal.new.spare + 1 }
    ensures spare { length journal.new.events + journal.new.spare ≡ length journal.old.events + journal.old.spare }
{
    tell_tracks(config, v);
    let mut bytes = [0; 64];
    read_told(plant, config, journal, v, 0, &mut bytes)
}

/// The first of the lowest `tracks` tracks whose bytes differ on two volumes, whether or not their servers are on. What a volume
/// stages, and which of its tracks are blank, is looked up once and not for each track.
fn first_unlike<P: Plant>(
    plant: &P,
    config: &Config,
    a: VolumeId,
    b: VolumeId,
    tracks: u16,
) -> Option<u16>
    requires stands { StandsFor config.now (P.state plant.now) }
    requires first_defined { IsSome (place_of config.now a.0) }
    requires second_defined { IsSome (place_of config.now b.0) }
    requires first_within { tracks ≤ (volume_seen (P.state plant.now) config.now a.0).tracks }
    requires second_within { tracks ≤ (volume_seen (P.state plant.now) config.now b.0).tracks }
    ensures { result ≡ first_differing (track_seen (P.state plant.now) config.now) tracks a.0 b.0 }
{
    let first = peek_opened(plant, config, a);
    let second = peek_opened(plant, config, b);
    for t in 0..tracks {
        let one = first.peek_track(plant, config, a, t);
        let other = second.peek_track(plant, config, b, t);
        if one != other {
            return Some(t);
        }
    }
    None
}

/// The first track whose bytes differ on two volumes of one size, whose servers are on. Each volume is read once, and then
/// looked at: nothing is written meanwhile, so if this read passes, all others would. Fails if a server goes off at its read.
pub fn difference<P: Plant>(
    plant: &mut P,
    config: &Config,
    journal: &mut Journal,
    a: VolumeId,
    b: VolumeId,
) -> Result<Option<u16>, Refusal>
    requires rest { IsAtRest (P.state plant.old) config.now }
    requires first_defined { IsSome (place_of config.now a.0) }
    requires second_defined { IsSome (place_of config.now b.0) }
    requires first_running { (P.state plant.old).on (volume_seen (P.state plant.old) config.now a.0).server ≡ true }
    requires second_running { (P.state plant.old).on (volume_seen (P.state plant.old) config.now b.0).server ≡ true }
    requires same_tracks { (volume_seen (P.state plant.old) config.now a.0).tracks ≡ (volume_seen (P.state plant.old) config.now b.0).tracks }
    requires room { 1 ≤ journal.old.spare }
    ensures found { IfOk result (λ x. x ≡ first_differing (track_seen (P.state plant.old) config.now) (volume_seen (P.state plant.old) config.now a.0).tracks a.0 b.0) }
    ensures low { IfOk result (λ x. (t : ℕ) → x ≡ Some t → t < (volume_seen (P.state plant.old) config.now a.0).tracks) }
    ensures passed { OnOk result (P.state plant.new ≡ P.state plant.old) }
    ensures silent { OnOk result (journal.new ≡ journal.old) }
    ensures gone { OnErr result ((r : Rest) → GoesOff (armed_in (P.state plant.old)) (world_seen (P.state plant.new) config.now r journal.new.events) (refusal_of result) (world_seen (P.state plant.old) config.now r journal.old.events)) }
    ensures stopped { OnErr result (is_stop (refusal_of result) ≡ true) }
    ensures same { (u : ℕ) → IsAsBefore (P.state plant.old) (P.state plant.new) config.now u }
    ensures rest { IsAtRest (P.state plant.new) config.now }
    ensures unarmed { (q : ℕ) → (P.state plant.old).read_fuse q ≡ None → (P.state plant.new).read_fuse q ≡ None }
    ensures faults { Counted (is_err result) (P.state plant.old).faults (P.state plant.new).faults }
    ensures room { journal.old.spare ≤ journal.new.spare + 1 }
    ensures spare { length journal.new.events + journal.new.spare ≡ length journal.old.events + journal.old.spare }
{
    read_first(plant, config, journal, a)?;
    read_first(plant, config, journal, b)?;
    let tracks = tracks_of(config, a);
    Ok(first_unlike(plant, config, a, b, tracks))
}
