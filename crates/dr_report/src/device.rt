//! The volumes of an image, each with what its device says.

ghost use Rattle.std.specs.Prelude.{◌≡◌, ◌≤◌, map, IfOk};
ghost use Rattle.std.specs.List.{range_with_len};
ghost use Rattle.dr_ids.specs.Sizes.{most_tracks};
ghost use Rattle.dr_model.specs.PlantImage.{IsLaid};
ghost use Rattle.dr_image.specs.Shown.{block_at};
ghost use Rattle.dr_report.specs.Known.{known, all_known, known_by, known_at};

use dr_ids::blocks_of;
use dr_image::{Image, ImageVolume};
use dr_plant::Block;
use dr_volume::{Fields, from_blocks};
use std::alloc::{AllocError, Global};

/// A volume of an image, with all blocks of its device and the fields that they give.
#[derive(Drop)]
pub struct Device {
    pub volume: ImageVolume,
    pub blocks: Vec<Block>,
    pub fields: Fields,
}

/// The volumes of an image, in order.
pub fn read_devices(alloc: Global, image: &Image) -> Result<Vec<Device>, AllocError>
    requires { IsLaid image.now }
    ensures { IfOk result (λ devices. all_known devices.items ≡ map known_by image.now) }
{
    let mut devices = Vec::new(alloc);
    while let Some(volume) = image.volume(devices.len()) {
        let device = read_device(alloc, image, devices.len(), volume)?;
        devices.push(device)?;
    }
    Ok(devices)
}

/// The volume at a place.
fn read_device(
    alloc: Global,
    image: &Image,
    place: usize,
    volume: ImageVolume,
) -> Result<Device, AllocError>
    requires { volume.tracks ≤ most_tracks }
    ensures { IfOk result (λ device. known device ≡ known_at image.now place volume) }
{
    let blocks = device_blocks(alloc, image, place, blocks_of(volume.tracks))?;
    let fields = from_blocks(volume.tracks, &blocks);
    Ok(Device {
        volume,
        blocks,
        fields,
    })
}

/// So many blocks of the device of the volume at a place, in order.
fn device_blocks(
    alloc: Global,
    image: &Image,
    place: usize,
    count: u16,
) -> Result<Vec<Block>, AllocError>
    ensures { IfOk result (λ blocks. blocks.items ≡ map (block_at image.now place) (range_with_len 0 count)) }
{
    let mut blocks = Vec::new(alloc);
    for index in 0..count {
        blocks.push(image.block(place, index))?;
    }
    Ok(blocks)
}
