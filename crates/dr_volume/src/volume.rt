//! Reading a volume of the configuration from a plant.

ghost use Rattle.std.specs.Prelude.{◌≡◌, ◌<◌, IsSome, IfOk, OnOk, OnErr, is_ok};
ghost use Rattle.std.specs.FinSet.{contains};
ghost use Rattle.dr_plant.specs.State.{after_read, can_read};
ghost use Rattle.dr_config.specs.Table.{StandsFor, place_of};
ghost use Rattle.dr_volume.specs.View.{volume_seen, track_seen, side_seen, device_of};
ghost use Rattle.dr_volume.specs.Volume.{Shows};

use crate::blocks::begin_of;
use crate::codes::{bit, first_set, zero_block};
use crate::decode::{fields_on, staged_in};
use crate::fields::Fields;
use crate::opened::{is_staged, open};
use crate::place::{device_of, find, tell_sound};
use dr_config::Config;
use dr_ids::{VolumeId, side_block, track_block};
use dr_plant::{Block, Plant, Stopped};
use dr_record::{peek_choice, read_choice};

/// Reads the fields of a volume. Fails where the plant can't read its device.
pub fn load<P: Plant>(plant: &mut P, config: &Config, v: VolumeId) -> Result<Fields, Stopped>
    requires defined { IsSome (place_of config.now v.0) }
    requires stands { StandsFor config.now (P.state plant.old) }
    ensures state { P.state plant.new ≡ after_read (P.state plant.old) (device_of config.now v.0) }
    ensures done { is_ok result ≡ can_read (P.state plant.old) (device_of config.now v.0) }
    ensures shows { IfOk result (λ f. Shows (P.state plant.old) config.now v.0 f) }
{
    let opened = open(plant, config, v)?;
    Ok(*opened.fields())
}

/// The slot that a volume's device chooses, whether or not its server is on.
pub fn slot<P: Plant>(plant: &P, config: &Config, v: VolumeId) -> bool
    requires defined { IsSome (place_of config.now v.0) }
    requires stands { StandsFor config.now (P.state plant.now) }
    ensures { result ≡ (volume_seen (P.state plant.now) config.now v.0).slot }
{
    peek_choice(plant, device_of(config, v))
}

/// The fields of a volume, whether or not its server is on.
pub fn peek_fields<P: Plant>(plant: &P, config: &Config, v: VolumeId) -> Fields
    requires defined { IsSome (place_of config.now v.0) }
    requires stands { StandsFor config.now (P.state plant.now) }
    ensures { Shows (P.state plant.now) config.now v.0 result }
{
    fields_on(plant, find(config, v))
}

/// Reads a track of a volume: the bytes that are staged for it, zeros where it is blank, or else
/// what stands in its own block. Besides that block the gate, the head, the staged bytes and the blank set's block alone are
/// looked at. Fails where the plant can't read the device; then `into` is as before.
pub fn read_track<P: Plant>(
    plant: &mut P,
    config: &Config,
    v: VolumeId,
    t: u16,
    into: &mut Block,
) -> Result<(), Stopped>
    requires defined { IsSome (place_of config.now v.0) }
    requires stands { StandsFor config.now (P.state plant.old) }
    requires within { t < (volume_seen (P.state plant.old) config.now v.0).tracks }
    ensures state { P.state plant.new ≡ after_read (P.state plant.old) (device_of config.now v.0) }
    ensures done { is_ok result ≡ can_read (P.state plant.old) (device_of config.now v.0) }
    ensures bytes { OnOk result (into.new ≡ track_seen (P.state plant.old) config.now v.0 t) }
    ensures same { OnErr result (into.new ≡ into.old) }
{
    let device = device_of(config, v);
    let begin = begin_of(read_choice(plant, device)?);
    if is_staged(staged_in(&plant.peek(device, begin)), t) {
        *into = plant.peek(device, begin + 5);
        return Ok(());
    }
    if first_set(&plant.peek(device, begin + 4)).contains(t) {
        *into = zero_block();
        return Ok(());
    }
    plant.read(device, track_block(t), into)
}

/// Reads the side block of an entry, counted from 0, of a volume: what stands in it, whether or not the entry is used. Nothing else
/// is looked at. Fails if the plant can't read the device; then `into` is as before.
pub fn read_beside<P: Plant>(
    plant: &mut P,
    config: &Config,
    v: VolumeId,
    entry: u8,
    into: &mut Block,
) -> Result<(), Stopped>
    requires defined { IsSome (place_of config.now v.0) }
    requires stands { StandsFor config.now (P.state plant.old) }
    requires entry { entry < 8 }
    ensures state { P.state plant.new ≡ after_read (P.state plant.old) (device_of config.now v.0) }
    ensures done { is_ok result ≡ can_read (P.state plant.old) (device_of config.now v.0) }
    ensures bytes { OnOk result (into.new ≡ side_seen (P.state plant.old) config.now v.0 entry) }
    ensures same { OnErr result (into.new ≡ into.old) }
{
    let place = find(config, v);
    tell_sound(config);
    plant.read(place.device, side_block(place.tracks, entry), into)
}

/// Whether a volume is a FlashCopy target that holds a track, whether or not its server is on. Gate, head and the block of one set
/// are looked at.
pub fn peek_holds<P: Plant>(plant: &P, config: &Config, v: VolumeId, t: u16) -> bool
    requires defined { IsSome (place_of config.now v.0) }
    requires stands { StandsFor config.now (P.state plant.now) }
    requires within { t < (volume_seen (P.state plant.now) config.now v.0).tracks }
    ensures { result ≡ contains (volume_seen (P.state plant.now) config.now v.0).fields.own t }
{
    let device = device_of(config, v);
    let begin = begin_of(peek_choice(plant, device));
    bit(plant.peek(device, begin)[5], 0) && first_set(&plant.peek(device, begin + 2)).contains(t)
}
