//! A volume that was read for a move: its record is read once, and its tracks are read and its move
//! is made by what was read.

ghost use Rattle.std.specs.Prelude.{◌≡◌, ◌≢◌, ℕ, List, ◌<◌, ◌≤◌, ◌+◌, ◌++◌, not, true, false, None, IsSome, IfSome, IfOk, OnOk, OnErr, is_ok, is_err, ◌⊎◌, if◌then◌else◌};
ghost use Rattle.dr_logic.specs.Counts.{risen};
ghost use Rattle.dr_ids.specs.Sizes.{most_tracks, record_blocks, track_block};
ghost use Rattle.dr_plant.specs.State.{after_read, can_read};
ghost use Rattle.dr_plant.specs.Writes.{IsDevice, after_writes};
ghost use Rattle.dr_record.specs.Slots.{slot_of};
ghost use Rattle.dr_config.specs.Table.{StandsFor, place_of};
ghost use Rattle.dr_model.specs.Carry as machine;
ghost use Rattle.dr_model.specs.Lawful.{IsLawful, EntriesFollow};
ghost use Rattle.dr_model.specs.Layout as layout;
ghost use Rattle.dr_volume.specs.Plain.{plain};
ghost use Rattle.dr_volume.specs.View.{Rest, world, volume_seen, track_seen, device_of};
ghost use Rattle.dr_volume.specs.Volume.{LiesOn, Shows};
ghost use Rattle.dr_volume.specs.Update.{track_with, stages, staging, kept_filled, staged_next, given_way, track_writes, side_writes, next_record, update_writes, saving_seen, staged_seen, Covers, IsAsBefore, IsMoved, OthersStay, EndsAs, ServerStays};
ghost use Rattle.dr_volume.specs.Opened.{IsGate, IsOpened, OthersOpened, in_own_block};

use crate::blocks::begin_of;
use crate::codes::zero_block;
use crate::decode::{below, fields_on, staged_in};
use crate::fields::Fields;
use crate::form::blocks_of;
use crate::place::{Place, device_of, find, tell_sound};
use crate::saving::{saving, write_side};
use dr_bits::TrackSet;
use dr_config::Config;
use dr_ids::{VolumeId, track_block};
use dr_plant::{Block, DeviceId, Plant, Stopped};
use dr_record::{peek_choice, put_blocks, read_choice};

/// The gate of a volume as it was read for a move: the volume's device, and the slot that it chooses.
#[derive(Clone, Copy)]
pub struct Gate {
    device: DeviceId,
    slot: bool,
}

/// A volume as it was read for a move: its gate, and its fields.
#[derive(Drop)]
pub struct Opened {
    pub gate: Gate,
    pub fields: Fields,
}

/// Reads the gate of a volume, for a move that follows by its fields. Fails where the plant can't read its device.
pub fn open_gate<P: Plant>(plant: &mut P, config: &Config, v: VolumeId) -> Result<Gate, Stopped>
    requires defined { IsSome (place_of config.now v.0) }
    requires stands { StandsFor config.now (P.state plant.old) }
    ensures state { P.state plant.new ≡ after_read (P.state plant.old) (device_of config.now v.0) }
    ensures done { is_ok result ≡ can_read (P.state plant.old) (device_of config.now v.0) }
    ensures same { OnOk result (P.state plant.new ≡ P.state plant.old) }
    ensures gate { IfOk result (λ g. IsGate (P.state plant.old) config.now v.0 g) }
{
    let device = device_of(config, v);
    let slot = read_choice(plant, device)?;
    Ok(Gate { device, slot })
}

/// Reads the record of a volume, for a move that follows: its gate by a read, and the rest by looks. Fails where the
/// plant can't read its device.
pub fn open<P: Plant>(plant: &mut P, config: &Config, v: VolumeId) -> Result<Opened, Stopped>
    requires defined { IsSome (place_of config.now v.0) }
    requires stands { StandsFor config.now (P.state plant.old) }
    ensures state { P.state plant.new ≡ after_read (P.state plant.old) (device_of config.now v.0) }
    ensures done { is_ok result ≡ can_read (P.state plant.old) (device_of config.now v.0) }
    ensures same { OnOk result (P.state plant.new ≡ P.state plant.old) }
    ensures opened { IfOk result (λ o. IsOpened (P.state plant.old) config.now v.0 o) }
    ensures lies { LiesOn config.now v.0 (device_of config.now v.0) (volume_seen (P.state plant.old) config.now v.0).tracks }
{
    let place = find(config, v);
    let slot = read_choice(plant, place.device)?;
    let fields = fields_on(plant, place);
    let gate = Gate {
        device: place.device,
        slot,
    };
    Ok(Opened { gate, fields })
}

/// A volume as `open` gives it, whether or not its server is on. Nothing is read.
pub fn peek_opened<P: Plant>(plant: &P, config: &Config, v: VolumeId) -> Opened
    requires defined { IsSome (place_of config.now v.0) }
    requires stands { StandsFor config.now (P.state plant.now) }
    ensures { IsOpened (P.state plant.now) config.now v.0 result }
{
    let place = find(config, v);
    let slot = peek_choice(plant, place.device);
    let fields = fields_on(plant, place);
    let gate = Gate {
        device: place.device,
        slot,
    };
    Opened { gate, fields }
}

/// A volume as `open` gives it, whose fields are at hand: its gate is read, and nothing else is looked at.
pub fn open_by<P: Plant>(
    plant: &mut P,
    config: &Config,
    v: VolumeId,
    f: &Fields,
) -> Result<Opened, Stopped>
    requires defined { IsSome (place_of config.now v.0) }
    requires stands { StandsFor config.now (P.state plant.old) }
    requires shows { Shows (P.state plant.old) config.now v.0 f.now }
    ensures state { P.state plant.new ≡ after_read (P.state plant.old) (device_of config.now v.0) }
    ensures done { is_ok result ≡ can_read (P.state plant.old) (device_of config.now v.0) }
    ensures same { OnOk result (P.state plant.new ≡ P.state plant.old) }
    ensures opened { IfOk result (λ o. IsOpened (P.state plant.old) config.now v.0 o) }
{
    let gate = open_gate(plant, config, v)?;
    let fields = *f;
    Ok(Opened { gate, fields })
}

impl Opened {
    /// The fields.
    pub fn fields(&self) -> &Fields
        ensures { result.now ≡ self.now.fields }
    {
        &self.fields
    }

    /// Reads a track: the bytes that are staged for it, zeros where it is blank, or else what stands
    /// in its own block, which alone is read. Fails where that block is wanted and the plant can't
    /// read the device; then `into` is as before.
    pub fn read_track<P: Plant>(
        &self,
        plant: &mut P,
        config: &Config,
        v: VolumeId,
        t: u16,
        into: &mut Block,
    ) -> Result<(), Stopped>
        requires defined { IsSome (place_of config.now v.0) }
        requires stands { StandsFor config.now (P.state plant.old) }
        requires opened { IsOpened (P.state plant.old) config.now v.0 self.now }
        requires within { t < (volume_seen (P.state plant.old) config.now v.0).tracks }
        ensures state { P.state plant.new ≡ (if in_own_block (volume_seen (P.state plant.old) config.now v.0) t then after_read (P.state plant.old) (device_of config.now v.0) else P.state plant.old) }
        ensures done { is_ok result ≡ (if in_own_block (volume_seen (P.state plant.old) config.now v.0) t then can_read (P.state plant.old) (device_of config.now v.0) else true) }
        ensures bytes { OnOk result (into.new ≡ track_seen (P.state plant.old) config.now v.0 t) }
        ensures same { OnErr result (into.new ≡ into.old) }
    {
        tell_sound(config);
        if is_staged(self.fields.staged, t) {
            *into = self.fields.staged_bytes;
            return Ok(());
        }
        if self.fields.blank.contains(t) {
            *into = zero_block();
            return Ok(());
        }
        plant.read(self.gate.device, track_block(t), into)
    }

    /// The bytes of a track, as `read_track` gives them, whether or not the server is on. Nothing is read.
    pub fn peek_track<P: Plant>(&self, plant: &P, config: &Config, v: VolumeId, t: u16) -> Block
        requires defined { IsSome (place_of config.now v.0) }
        requires stands { StandsFor config.now (P.state plant.now) }
        requires opened { IsOpened (P.state plant.now) config.now v.0 self.now }
        requires within { t < (volume_seen (P.state plant.now) config.now v.0).tracks }
        ensures { result ≡ track_seen (P.state plant.now) config.now v.0 t }
    {
        tell_sound(config);
        if is_staged(self.fields.staged, t) {
            return self.fields.staged_bytes;
        }
        if self.fields.blank.contains(t) {
            return zero_block();
        }
        plant.peek(self.gate.device, track_block(t))
    }
}

impl Gate {
    /// The slot that the device chooses: slot 1 where it is true.
    pub fn slot(&self) -> bool
        ensures { result ≡ self.now.slot }
    {
        self.slot
    }

    /// Gives the volume other fields and, where one is given, a track with its bytes: the move of
    /// `update`, which reads nothing: what the fields stage is what the volume does. Gate and fields become what the move
    /// leaves, so that another may follow, and so may the moves of other volumes that were opened before. Fails where the volume's
    /// server is off or stops within the move; then the volume is to be opened again.
    pub fn change<P: Plant>(
        &mut self,
        plant: &mut P,
        config: &Config,
        v: VolumeId,
        next: &mut Fields,
        staged: Option<(u16, Block)>,
    ) -> Result<(), Stopped>
        requires defined { IsSome (place_of config.now v.0) }
        requires stands { StandsFor config.now (P.state plant.old) }
        requires gate { IsGate (P.state plant.old) config.now v.0 self.old }
        requires lawful { IsLawful (volume_seen (P.state plant.old) config.now v.0).tracks (plain next.old) }
        requires within { IfSome staged (λ t. t.0 < (volume_seen (P.state plant.old) config.now v.0).tracks) }
        requires staged { stages next.old ≡ staged_seen (P.state plant.old) config.now v.0 }
        requires covers { Covers (volume_seen (P.state plant.old) config.now v.0).fields.blank next.old.blank staged }
        requires follows { EntriesFollow (volume_seen (P.state plant.old) config.now v.0).fields.entries next.old.entries }
        ensures written { after_writes (P.state plant.old) (device_of config.now v.0) (update_writes (not (volume_seen (P.state plant.old) config.now v.0).slot) (saving_seen (P.state plant.old) config.now v.0 next.old.entries) (staged_seen (P.state plant.old) config.now v.0) next.old staged) ≡ (P.state plant.new, is_err result) }
        ensures exact { (r : Rest) → EndsAs (world (P.state plant.new) config.now r) (is_err result) (machine.update (world (P.state plant.old) config.now r) v.0 (plain next.old) staged) }
        ensures opened { OnOk result (IsOpened (P.state plant.new) config.now v.0 (record { gate = self.new; fields = next.new })) }
        ensures others_opened { OthersOpened (P.state plant.old) (P.state plant.new) config.now v.0 }
        ensures done { OnOk result (IsMoved (P.state plant.old) (P.state plant.new) config.now v.0 (plain next.old) staged) }
        ensures old_or_new { IsAsBefore (P.state plant.old) (P.state plant.new) config.now v.0 ⊎ IsMoved (P.state plant.old) (P.state plant.new) config.now v.0 (plain next.old) staged }
        ensures others { OthersStay (P.state plant.old) (P.state plant.new) config.now v.0 }
        ensures stands { StandsFor config.now (P.state plant.new) }
        ensures unarmed { (q : ℕ) → (P.state plant.old).read_fuse q ≡ None → (P.state plant.new).read_fuse q ≡ None }
        ensures servers { (q : ℕ) → q ≢ (volume_seen (P.state plant.old) config.now v.0).server → ServerStays (P.state plant.old) (P.state plant.new) q }
        ensures on { OnOk result ((P.state plant.new).on ≡ (P.state plant.old).on) }
        ensures off { OnErr result ((P.state plant.new).on (volume_seen (P.state plant.old) config.now v.0).server ≡ false) }
        ensures fault { OnErr result ((P.state plant.new).faults ≡ risen (P.state plant.old).faults) }
        ensures no_fault { OnOk result ((P.state plant.new).faults ≡ (P.state plant.old).faults) }
    {
        tell_sound(config);
        let slot = self.slot;
        let side = saving(plant, config, v, slot, &next.entries);
        self.slot = !slot;
        rewrite(plant, self.device, slot, next, &staged, &side)
    }
}

pub(crate) fn is_staged(staged: Option<u16>, t: u16) -> bool
    ensures { result ≡ layout.is_staged staged t }
{
    match staged {
        Some(s) => t == s,
        None => false,
    }
}

/// The track that the slot of a volume stages, with its bytes.
pub(crate) fn staged_on<P: Plant>(plant: &P, place: Place, slot: bool) -> Option<(u16, Block)>
    requires few { place.tracks ≤ most_tracks }
    requires device { IsDevice (P.state plant.now) place.device.0 record_blocks }
    requires chosen { slot_of (P.state plant.now) place.device.0 ≡ slot }
    ensures { result ≡ track_with (layout.staged place.tracks ((P.state plant.now).block place.device.0)) (layout.chosen ((P.state plant.now).block place.device.0) 5) }
{
    let begin = begin_of(slot);
    let head = plant.peek(place.device, begin);
    let bytes = plant.peek(place.device, begin + 5);
    match below(place.tracks, staged_in(&head)) {
        Some(track) => Some((track, bytes)),
        None => None,
    }
}

/// The track that fields stage, with its bytes.
pub(crate) fn staged_track(fields: &Fields) -> Option<(u16, Block)>
    ensures { result ≡ stages fields.now }
{
    match fields.staged {
        Some(t) => {
            let bytes = fields.staged_bytes;
            Some((t, bytes))
        }
        None => None,
    }
}

/// Fields stage a track, or none, in place of what they staged.
pub(crate) fn stage(fields: &mut Fields, track: &Option<(u16, Block)>)
    ensures { fields.new ≡ staging track.now fields.old }
{
    match track {
        Some(track) => {
            fields.staged = Some(track.0);
            fields.staged_bytes = track.1;
        }
        None => {
            fields.staged = None;
            fields.staged_bytes = zero_block();
        }
    }
}

// Fields stage what they do after a move that carries that track, or none. What stays staged isn't copied.
fn stage_next(fields: &mut Fields, carried: &Option<(u16, Block)>)
    ensures { fields.new ≡ next_record true (stages fields.old) fields.old carried.now }
{
    match (carried, fields.staged) {
        (Some(_), _) => stage(fields, carried),
        (None, Some(t)) if !fields.blank.contains(t) => {}
        _ => stage(fields, &None),
    }
}

// The staged track that gives way to another that is carried.
fn giving_way(carried: &Option<(u16, Block)>, staged: Option<u16>) -> Option<u16>
    ensures { (bytes : List ℕ) → track_with result bytes ≡ given_way carried.now (track_with staged bytes) }
{
    match (carried, staged) {
        (Some(track), Some(t)) if t != track.0 => Some(t),
        _ => None,
    }
}

// Writes the track that fields stage to its own block, where it gives way to another that is carried.
fn make_way<P: Plant>(
    plant: &mut P,
    device: DeviceId,
    fields: &Fields,
    carried: &Option<(u16, Block)>,
) -> Result<(), Stopped>
    requires device { device.0 < (P.state plant.old).count }
    requires track { IfSome (stages fields.now) (λ t. (t.0 < most_tracks) × (track_block t.0 < (P.state plant.old).size device.0)) }
    ensures { after_writes (P.state plant.old) device.0 (track_writes (given_way carried.now (stages fields.now))) ≡ (P.state plant.new, is_err result) }
{
    match giving_way(carried, fields.staged) {
        Some(t) => plant.write(device, track_block(t), &fields.staged_bytes),
        None => Ok(()),
    }
}

// Writes what comes before the record: what is saved to its side block, then the staged track that gives way to its own block.
fn write_before<P: Plant>(
    plant: &mut P,
    device: DeviceId,
    fields: &Fields,
    carried: &Option<(u16, Block)>,
    side: &Option<(u16, Block)>,
) -> Result<(), Stopped>
    requires device { device.0 < (P.state plant.old).count }
    requires track { IfSome (stages fields.now) (λ t. (t.0 < most_tracks) × (track_block t.0 < (P.state plant.old).size device.0)) }
    requires side { IfSome side.now (λ x. x.0 < (P.state plant.old).size device.0) }
    ensures { after_writes (P.state plant.old) device.0 (side_writes side.now ++ track_writes (given_way carried.now (stages fields.now))) ≡ (P.state plant.new, is_err result) }
{
    write_side(plant, device, side)?;
    make_way(plant, device, fields, carried)
}

/// Writes what is saved to its side block, then the staged track that gives way to its own block, then the next fields, with what is
/// staged then, to the slot that isn't `slot`, which the device chooses, then the gate. What the next fields stage is what was staged.
pub(crate) fn rewrite<P: Plant>(
    plant: &mut P,
    device: DeviceId,
    slot: bool,
    next: &mut Fields,
    carried: &Option<(u16, Block)>,
    side: &Option<(u16, Block)>,
) -> Result<(), Stopped>
    requires device { IsDevice (P.state plant.old) device.0 record_blocks }
    requires chosen { slot_of (P.state plant.old) device.0 ≡ slot }
    requires track { IfSome (stages next.old) (λ t. (t.0 < most_tracks) × (track_block t.0 < (P.state plant.old).size device.0)) }
    requires side { IfSome side.now (λ x. x.0 < (P.state plant.old).size device.0) }
    ensures staged { next.new ≡ next_record true (stages next.old) next.old carried.now }
    ensures written { after_writes (P.state plant.old) device.0 (update_writes (not (slot_of (P.state plant.old) device.0)) side.now (stages next.old) next.old carried.now) ≡ (P.state plant.new, is_err result) }
{
    let before = write_before(plant, device, next, carried, side);
    stage_next(next, carried);
    before?;
    put_blocks(plant, device, slot, &blocks_of(next))
}

/// Writes a track to its own block.
pub(crate) fn write_track<P: Plant>(
    plant: &mut P,
    device: DeviceId,
    carried: &Option<(u16, Block)>,
) -> Result<(), Stopped>
    requires device { device.0 < (P.state plant.old).count }
    requires track { IfSome carried.now (λ t. (t.0 < most_tracks) × (track_block t.0 < (P.state plant.old).size device.0)) }
    ensures { after_writes (P.state plant.old) device.0 (track_writes carried.now) ≡ (P.state plant.new, is_err result) }
{
    match carried {
        Some(track) => plant.write(device, track_block(track.0), &track.1),
        None => Ok(()),
    }
}
