//! What a move saves: the track that the next entries name newly, as it was, goes to its entry's side block.

ghost use Rattle.std.specs.Prelude.{◌≡◌, ◌<◌, IsSome, IfSome, is_err};
ghost use Rattle.dr_record.specs.Slots.{slot_of};
ghost use Rattle.dr_config.specs.Table.{StandsFor, place_of};
ghost use Rattle.dr_plant.specs.Writes.{after_writes};
ghost use Rattle.dr_model.specs.Lawful.{HasEntries};
ghost use Rattle.dr_volume.specs.View.{volume_seen, track_seen, device_of};
ghost use Rattle.dr_volume.specs.Volume.{LiesOn};
ghost use Rattle.dr_volume.specs.Update.{saving_seen, side_writes};

use crate::blocks::begin_of;
use crate::codes::{first_set, zero_block};
use crate::decode::staged_in;
use crate::entries::{Entries, entries_on};
use crate::opened::is_staged;
use crate::place::{Place, find};
use dr_bits::TrackSet;
use dr_config::Config;
use dr_ids::{VolumeId, side_block, track_block};
use dr_plant::{Block, DeviceId, Plant, Stopped};

/// The side block that a move writes which gives a volume these entries, with the track that it saves; none if no entry is taken into
/// use. The slot that the device chooses is looked at, if an entry is used, and nothing is read.
pub(crate) fn saving<P: Plant>(
    plant: &P,
    config: &Config,
    v: VolumeId,
    slot: bool,
    next: &Entries,
) -> Option<(u16, Block)>
    requires defined { IsSome (place_of config.now v.0) }
    requires stands { StandsFor config.now (P.state plant.now) }
    requires slot { slot_of (P.state plant.now) (device_of config.now v.0) ≡ slot }
    requires lawful { HasEntries (volume_seen (P.state plant.now) config.now v.0).tracks next.now }
    ensures { result ≡ saving_seen (P.state plant.now) config.now v.0 next.now }
{
    if next.are_free() {
        return None;
    }
    let place = find(config, v);
    let said = plant.peek(place.device, begin_of(slot) + 4);
    let entry = entries_on(place.tracks, &said).taken(next)?;
    let track = next.get(entry)?;
    let bytes = peek_in_slot(plant, config, v, place, slot, track);
    Some((side_block(place.tracks, entry), bytes))
}

// The bytes of a track, as `read_track` gives them, by the slot that the device chooses. Nothing is read.
fn peek_in_slot<P: Plant>(
    plant: &P,
    config: &Config,
    v: VolumeId,
    place: Place,
    slot: bool,
    t: u16,
) -> Block
    requires lies { LiesOn config.now v.0 place.device.0 place.tracks }
    requires stands { StandsFor config.now (P.state plant.now) }
    requires chosen { slot_of (P.state plant.now) place.device.0 ≡ slot }
    requires within { t < place.tracks }
    ensures { result ≡ track_seen (P.state plant.now) config.now v.0 t }
{
    let begin = begin_of(slot);
    if is_staged(staged_in(&plant.peek(place.device, begin)), t) {
        return plant.peek(place.device, begin + 5);
    }
    if first_set(&plant.peek(place.device, begin + 4)).contains(t) {
        return zero_block();
    }
    plant.peek(place.device, track_block(t))
}

/// Writes a side block, if one is to be written.
pub(crate) fn write_side<P: Plant>(
    plant: &mut P,
    device: DeviceId,
    side: &Option<(u16, Block)>,
) -> Result<(), Stopped>
    requires device { device.0 < (P.state plant.old).count }
    requires side { IfSome side.now (λ x. x.0 < (P.state plant.old).size device.0) }
    ensures { after_writes (P.state plant.old) device.0 (side_writes side.now) ≡ (P.state plant.new, is_err result) }
{
    match side {
        Some(side) => plant.write(device, side.0, &side.1),
        None => Ok(()),
    }
}
