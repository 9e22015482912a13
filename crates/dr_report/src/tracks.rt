//! What the tracks of volumes contain, and what they show once recovery is done.

ghost use Rattle.std.specs.Prelude.{◌≡◌, nat_eq};
ghost use Rattle.std.specs.List.{find};
ghost use Rattle.std.specs.Option.{option_copied, option_map};
ghost use Rattle.dr_report.specs.Known.{known, track_in, track_of, shows_source, shown_track};
ghost use Rattle.dr_volume.specs.Plain.{plain};

use crate::decided::goes_back;
use crate::device::Device;
use dr_ids::{FIRST_TRACK, VolumeId};
use dr_image::zero_block;
use dr_plant::Block;
use dr_volume::Fields;

/// The volume of that number, where there is one.
pub fn find_device(devices: &[Device], volume: VolumeId) -> Option<&Device>
    ensures { option_copied result ≡ find (λ d. nat_eq d.volume.volume.0 volume.0) devices.now }
{
    devices
        .iter()
        .find(|device| device.volume.volume.0 == volume.0)
}

/// A track: the staged bytes where it is staged, zeros where it is blank, else its own block.
fn track_in(device: &Device, t: u16) -> Block
    ensures { result ≡ track_in (known device.now) t }
{
    if device.fields.staged == Some(t) {
        return device.fields.staged_bytes;
    }
    if device.fields.blank.contains(t) {
        return zero_block();
    }
    match device.blocks.get(usize::from(FIRST_TRACK) + usize::from(t)) {
        Some(block) => *block,
        None => zero_block(),
    }
}

/// A track of a volume: zeros where there is no volume.
fn track_of(device: Option<&Device>, t: u16) -> Block
    ensures { result ≡ track_of (option_map known (option_copied device.entry)) t }
{
    match device {
        Some(device) => track_in(device, t),
        None => zero_block(),
    }
}

/// Whether a volume shows its source's track once recovery is done. One that goes back holds the tracks that it held before.
fn shows_source(fields: &Fields, reverts: bool, t: u16) -> bool
    ensures { result ≡ shows_source reverts (plain fields.now) t }
{
    if goes_back(reverts, fields) {
        !fields.previous_own.contains(t)
    } else {
        fields.related && !fields.own.contains(t)
    }
}

/// What a track shows once recovery is done, by the volume's source.
pub fn shown_track(device: &Device, source: Option<&Device>, reverts: bool, t: u16) -> Block
    ensures { result ≡ shown_track reverts (option_map known (option_copied source.entry)) (known device.now) t }
{
    if shows_source(&device.fields, reverts, t) {
        track_of(source, t)
    } else {
        track_in(device, t)
    }
}
