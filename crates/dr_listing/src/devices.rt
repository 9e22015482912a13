//! An image of all devices.

ghost use Rattle.std.specs.Prelude.{◌≡◌, ℕ, ◌+◌, ◌<◌, ◌≤◌, ◌*◌, ◌++◌, ◌==◌, length, map, All, IsSome};
ghost use Rattle.std.specs.List.{flat_map, list_all};
ghost use Rattle.dr_ids.specs.Sizes as sizes;
ghost use Rattle.dr_config.specs.Table.{StandsFor, IsSoundConfig, place_of};
ghost use Rattle.dr_model.specs.Listed.{ListsAll, kept_if, listing, listing_of};
ghost use Rattle.dr_model.specs.Runs.{image_told, volume_told, blocks_told};
ghost use Rattle.dr_model.specs.Text.{trimmed};
ghost use Rattle.dr_model.specs.declared.event.Event.TheVariants.{ImageVolume};
ghost use Rattle.dr_plant.specs.State.{PlantState, HasBlock};
ghost use Rattle.dr_listing.specs.Told.{lines_of, kept_lines, has_bytes, IsBlock, IsReadable};
ghost use Rattle.dr_volume.specs.View.{Rest, control_seen, volume_seen, ids_of, world};

use crate::lines::push;
use dr_config::Config;
use dr_ids::{VolumeId, blocks_of};
use dr_model::{Event, Journal};
use dr_plant::{DeviceId, Plant};

/// The most lines that an image has: the first and the last, and for each of 64 volumes one, with one for each of 277 blocks.
pub const IMAGE_LINES: usize = 2 + 64 * (1 + 277);

/// The line of a volume.
fn volume_line(config: &Config, v: VolumeId) -> Event
    requires { IsSome (place_of config.now v.0) }
    ensures { (s : PlantState) → result ≡ ImageVolume v.0 (volume_seen s config.now v.0).server (volume_seen s config.now v.0).tracks }
{
    Event::ImageVolume {
        volume: v.0,
        server: config.server_of(v).unwrap().0,
        tracks: config.tracks_of(v).unwrap(),
    }
}

/// The lines of all volumes, in order of definition.
fn push_volumes(config: &Config, journal: &mut Journal)
    requires room { 64 ≤ journal.old.spare }
    ensures told { (s : PlantState) (r : Rest) → journal.new.events ≡ journal.old.events ++ map volume_told (listing (control_seen s config.now r) s.block) }
    ensures left { journal.old.spare ≤ journal.new.spare + 64 }
{
    for place in 0..config.volumes() {
        let v = config.volume_at(place).unwrap();
        journal.push(volume_line(config, v));
    }
}

/// Whether all bytes are zero.
fn is_zero(bytes: &[u8]) -> bool
    ensures { result ≡ list_all (λ b. b == 0) bytes.now }
{
    bytes.iter().all(|byte| *byte == 0)
}

/// Whether a block isn't all zero. Says what a block is made of, too.
fn is_kept(bytes: &[u8]) -> bool
    requires whole { length bytes.now ≡ 64 }
    ensures kept { result ≡ has_bytes (trimmed bytes.now) }
    ensures block { IsBlock bytes.now }
{
    !is_zero(bytes)
}

/// The line of a block of a volume's device, if it isn't all zero.
fn block_line<P: Plant>(plant: &P, device: DeviceId, v: VolumeId, index: u16) -> Option<Event>
    requires { HasBlock (P.state plant.now) device.0 index }
    ensures line { lines_of result ≡ kept_lines v.0 (kept_if index ((P.state plant.now).block device.0 index) (trimmed ((P.state plant.now).block device.0 index))) }
    ensures block { IsBlock ((P.state plant.now).block device.0 index) }
{
    let bytes = plant.peek(device, index);
    if !is_kept(&bytes) {
        return None;
    }
    Some(Event::ImageBlock {
        volume: v.0,
        index,
        bytes,
    })
}

/// The lines of a volume's blocks, from the gate to the last track.
fn push_blocks<P: Plant>(plant: &P, config: &Config, v: VolumeId, journal: &mut Journal)
    requires defined { IsSome (place_of config.now v.0) }
    requires stands { StandsFor config.now (P.state plant.now) }
    requires room { sizes.blocks_of sizes.most_tracks ≤ journal.old.spare }
    ensures told { (r : Rest) → journal.new.events ≡ journal.old.events ++ blocks_told (listing_of (control_seen (P.state plant.now) config.now r) (P.state plant.now).block v.0) }
    ensures readable { IsReadable (P.state plant.now) config.now v.0 }
    ensures left { journal.old.spare ≤ journal.new.spare + sizes.blocks_of sizes.most_tracks }
{
    let device = config.device_of(v).unwrap();
    let blocks = blocks_of(config.tracks_of(v).unwrap());
    for index in 0..blocks {
        push(journal, block_line(plant, device, v, index));
    }
}

/// The lines of all volumes' blocks, in order of definition.
fn push_devices<P: Plant>(plant: &P, config: &Config, journal: &mut Journal)
    requires stands { StandsFor config.now (P.state plant.now) }
    requires room { 64 * sizes.blocks_of sizes.most_tracks ≤ journal.old.spare }
    ensures told { (r : Rest) → journal.new.events ≡ journal.old.events ++ flat_map blocks_told (listing (control_seen (P.state plant.now) config.now r) (P.state plant.now).block) }
    ensures sound { IsSoundConfig config.now }
    ensures readable { All (IsReadable (P.state plant.now) config.now) (ids_of config.now.volumes) }
    ensures left { journal.old.spare ≤ journal.new.spare + 64 * sizes.blocks_of sizes.most_tracks }
{
    for place in 0..config.volumes() {
        let v = config.volume_at(place).unwrap();
        push_blocks(plant, config, v, journal);
    }
}

/// Lists all volumes in order of definition, and then of each, in this order, all blocks of its device that aren't all zero.
pub fn image<P: Plant>(plant: &P, config: &Config, journal: &mut Journal)
    requires stands { StandsFor config.now (P.state plant.now) }
    requires room { IMAGE_LINES ≤ journal.old.spare }
    ensures told { (r : Rest) → journal.new.events ≡ journal.old.events ++ image_told (listing (control_seen (P.state plant.now) config.now r) (P.state plant.now).block) }
    ensures lists { (r : Rest) → ListsAll (world (P.state plant.now) config.now r) (listing (control_seen (P.state plant.now) config.now r) (P.state plant.now).block) }
    ensures left { journal.old.spare ≤ journal.new.spare + IMAGE_LINES }
{
    journal.push(Event::ImageStart);
    push_volumes(config, journal);
    push_devices(plant, config, journal);
    journal.push(Event::ImageEnd);
}
