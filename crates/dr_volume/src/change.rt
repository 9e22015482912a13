//! Changing a volume: one move writes its record, which stages a track, done or not done as a whole.

ghost use Rattle.std.specs.Prelude.{◌≡◌, ◌≢◌, ℕ, ◌<◌, ◌≤◌, ◌+◌, not, false, None, is_some, IsSome, IfSome, IfOk, OnOk, OnErr, is_err, ◌⊎◌};
ghost use Rattle.dr_logic.specs.Counts.{risen};
ghost use Rattle.dr_ids.specs.Sizes.{most_tracks, record_blocks, track_block};
ghost use Rattle.dr_config.specs.Table.{StandsFor, place_of};
ghost use Rattle.dr_plant.specs.Writes.{IsDevice, after_writes};
ghost use Rattle.dr_record.specs.Slots.{slot_of};
ghost use Rattle.dr_model.specs.Carry as machine;
ghost use Rattle.dr_model.specs.Lawful.{IsLawful, EntriesFollow};
ghost use Rattle.dr_volume.specs.Plain.{plain};
ghost use Rattle.dr_volume.specs.View.{Rest, world, volume_seen, device_of};
ghost use Rattle.dr_volume.specs.Update.{track_with, track_writes, update_writes, destage_writes, saving_seen, read_and_write, staged_seen, fields_seen, destaged, Covers, IsAsBefore, IsMoved, IsMovedKeeping, IsDestaged, OthersStay, EndsAs, after_reading, ServerStays};

use crate::decode::fields_on;
use crate::fields::Fields;
use crate::opened::{rewrite, stage, staged_on, staged_track, write_track};
use crate::place::find;
use crate::saving::saving;
use crate::volume::load;
use dr_config::Config;
use dr_ids::VolumeId;
use dr_plant::{Block, DeviceId, Plant, Stopped};
use dr_record::{put, read_choice};

/// Gives a volume other fields and, where one is given, a track with its bytes: one move, done or
/// not done as a whole. What the next fields say of a staged track is not looked at: the record stages the given track,
/// else what it staged, unless that is blank now. The gate alone is read, and what is staged is looked at. If the next entries
/// use one that was free, the track that it names, as it was, is written to its side block first. Then a staged track
/// that gives way to another is written to its own block, then the record in six blocks to the slot that the device doesn't
/// choose, then the gate. Fails where the volume's server is off or stops within the move; then the
/// server is off, and the move counts as done where the device chooses the new fields.
pub fn update<P: Plant>(
    plant: &mut P,
    config: &Config,
    v: VolumeId,
    next: &Fields,
    staged: Option<(u16, Block)>,
) -> Result<(), Stopped>
    requires defined { IsSome (place_of config.now v.0) }
    requires stands { StandsFor config.now (P.state plant.old) }
    requires lawful { IsLawful (volume_seen (P.state plant.old) config.now v.0).tracks (plain next.now) }
    requires within { IfSome staged (λ t. t.0 < (volume_seen (P.state plant.old) config.now v.0).tracks) }
    requires covers { Covers (volume_seen (P.state plant.old) config.now v.0).fields.blank next.now.blank staged }
    requires follows { EntriesFollow (volume_seen (P.state plant.old) config.now v.0).fields.entries next.now.entries }
    ensures written { read_and_write (P.state plant.old) (device_of config.now v.0) (update_writes (not (volume_seen (P.state plant.old) config.now v.0).slot) (saving_seen (P.state plant.old) config.now v.0 next.now.entries) (staged_seen (P.state plant.old) config.now v.0) next.now staged) ≡ (P.state plant.new, is_err result) }
    ensures exact { (r : Rest) → EndsAs (world (P.state plant.new) config.now r) (is_err result) (after_reading (P.state plant.old) (volume_seen (P.state plant.old) config.now v.0).server (world (P.state plant.old) config.now r) (machine.update (world (P.state plant.old) config.now r) v.0 (plain next.now) staged)) }
    ensures done { OnOk result (IsMoved (P.state plant.old) (P.state plant.new) config.now v.0 (plain next.now) staged) }
    ensures old_or_new { IsAsBefore (P.state plant.old) (P.state plant.new) config.now v.0 ⊎ IsMoved (P.state plant.old) (P.state plant.new) config.now v.0 (plain next.now) staged }
    ensures others { OthersStay (P.state plant.old) (P.state plant.new) config.now v.0 }
    ensures stands { StandsFor config.now (P.state plant.new) }
    ensures unarmed { (q : ℕ) → (P.state plant.old).read_fuse q ≡ None → (P.state plant.new).read_fuse q ≡ None }
    ensures servers { (q : ℕ) → q ≢ (volume_seen (P.state plant.old) config.now v.0).server → ServerStays (P.state plant.old) (P.state plant.new) q }
    ensures on { OnOk result ((P.state plant.new).on ≡ (P.state plant.old).on) }
    ensures off { OnErr result ((P.state plant.new).on (volume_seen (P.state plant.old) config.now v.0).server ≡ false) }
    ensures fault { OnErr result ((P.state plant.new).faults ≡ risen (P.state plant.old).faults) }
    ensures no_fault { OnOk result ((P.state plant.new).faults ≡ (P.state plant.old).faults) }
{
    let place = find(config, v);
    let slot = read_choice(plant, place.device)?;
    let old = staged_on(plant, place, slot);
    let side = saving(plant, config, v, slot, &next.entries);
    let mut fields = *next;
    stage(&mut fields, &old);
    rewrite(plant, place.device, slot, &mut fields, &staged, &side)
}

/// Writes a volume's staged track, where one is staged, to its own place. It stays staged, and nothing that is read
/// changes. Fails where the volume's server is off or stops.
pub fn redo<P: Plant>(plant: &mut P, config: &Config, v: VolumeId) -> Result<(), Stopped>
    requires defined { IsSome (place_of config.now v.0) }
    requires stands { StandsFor config.now (P.state plant.old) }
    ensures written { read_and_write (P.state plant.old) (device_of config.now v.0) (track_writes (staged_seen (P.state plant.old) config.now v.0)) ≡ (P.state plant.new, is_err result) }
    ensures exact { (r : Rest) → EndsAs (world (P.state plant.new) config.now r) (is_err result) (after_reading (P.state plant.old) (volume_seen (P.state plant.old) config.now v.0).server (world (P.state plant.old) config.now r) (machine.redo (world (P.state plant.old) config.now r) v.0)) }
    ensures same { (u : ℕ) → IsAsBefore (P.state plant.old) (P.state plant.new) config.now u }
    ensures stands { StandsFor config.now (P.state plant.new) }
    ensures unarmed { (q : ℕ) → (P.state plant.old).read_fuse q ≡ None → (P.state plant.new).read_fuse q ≡ None }
    ensures servers { (q : ℕ) → q ≢ (volume_seen (P.state plant.old) config.now v.0).server → ServerStays (P.state plant.old) (P.state plant.new) q }
    ensures on { OnOk result ((P.state plant.new).on ≡ (P.state plant.old).on) }
    ensures off { OnErr result ((P.state plant.new).on (volume_seen (P.state plant.old) config.now v.0).server ≡ false) }
    ensures fault { OnErr result ((P.state plant.new).faults ≡ risen (P.state plant.old).faults) }
    ensures no_fault { OnOk result ((P.state plant.new).faults ≡ (P.state plant.old).faults) }
{
    let device = find(config, v).device;
    let fields = load(plant, config, v)?;
    write_track(plant, device, &staged_track(&fields))
}

/// Writes a volume's staged track, where one is staged, to its own place, and then stages none by one move that changes
/// no field: whether one was staged. Fails where the volume's server is off or stops; where it stops in the first write
/// the track is staged as before.
pub fn destage<P: Plant>(plant: &mut P, config: &Config, v: VolumeId) -> Result<bool, Stopped>
    requires defined { IsSome (place_of config.now v.0) }
    requires stands { StandsFor config.now (P.state plant.old) }
    ensures answer { IfOk result (λ there. there ≡ is_some (volume_seen (P.state plant.old) config.now v.0).staged) }
    ensures written { read_and_write (P.state plant.old) (device_of config.now v.0) (destage_writes (not (volume_seen (P.state plant.old) config.now v.0).slot) (staged_seen (P.state plant.old) config.now v.0) (fields_seen (P.state plant.old) config.now v.0)) ≡ (P.state plant.new, is_err result) }
    ensures exact { (r : Rest) → EndsAs (world (P.state plant.new) config.now r) (is_err result) (after_reading (P.state plant.old) (volume_seen (P.state plant.old) config.now v.0).server (world (P.state plant.old) config.now r) (destaged (world (P.state plant.old) config.now r) v.0)) }
    ensures done { IfOk result (λ there. IsDestaged there (P.state plant.old) (P.state plant.new) config.now v.0) }
    ensures old_or_new { IsAsBefore (P.state plant.old) (P.state plant.new) config.now v.0 ⊎ IsMovedKeeping false (P.state plant.old) (P.state plant.new) config.now v.0 (volume_seen (P.state plant.old) config.now v.0).fields None }
    ensures others { OthersStay (P.state plant.old) (P.state plant.new) config.now v.0 }
    ensures stands { StandsFor config.now (P.state plant.new) }
    ensures unarmed { (q : ℕ) → (P.state plant.old).read_fuse q ≡ None → (P.state plant.new).read_fuse q ≡ None }
    ensures servers { (q : ℕ) → q ≢ (volume_seen (P.state plant.old) config.now v.0).server → ServerStays (P.state plant.old) (P.state plant.new) q }
    ensures on { OnOk result ((P.state plant.new).on ≡ (P.state plant.old).on) }
    ensures off { OnErr result ((P.state plant.new).on (volume_seen (P.state plant.old) config.now v.0).server ≡ false) }
    ensures fault { OnErr result ((P.state plant.new).faults ≡ risen (P.state plant.old).faults) }
    ensures no_fault { OnOk result ((P.state plant.new).faults ≡ (P.state plant.old).faults) }
{
    let place = find(config, v);
    let slot = read_choice(plant, place.device)?;
    let mut fields = fields_on(plant, place);
    let there = fields.staged.is_some();
    let old = staged_track(&fields);
    unstage(plant, place.device, slot, &old, &mut fields)?;
    Ok(there)
}

// Writes a staged track to its own block, and then the record without one to the slot that isn't `slot`, and the gate; nothing
// where none is staged.
fn unstage<P: Plant>(
    plant: &mut P,
    device: DeviceId,
    slot: bool,
    old: &Option<(u16, Block)>,
    fields: &mut Fields,
) -> Result<(), Stopped>
    requires device { IsDevice (P.state plant.old) device.0 record_blocks }
    requires chosen { slot_of (P.state plant.old) device.0 ≡ slot }
    requires track { IfSome old.now (λ t. (t.0 < most_tracks) × (track_block t.0 < (P.state plant.old).size device.0)) }
    ensures { after_writes (P.state plant.old) device.0 (destage_writes (not (slot_of (P.state plant.old) device.0)) old.now fields.old) ≡ (P.state plant.new, is_err result) }
{
    match old {
        Some(_) => {
            stage(fields, &None);
            write_track(plant, device, old)?;
            put(plant, device, slot, fields)
        }
        None => Ok(()),
    }
}
