//! Where a volume of the configuration lies.

ghost use Rattle.std.specs.Prelude.{◌≡◌, ◌<◌, IsSome, Some, length};
ghost use Rattle.dr_config.specs.Table.{place_of, IsSoundConfig};
ghost use Rattle.dr_volume.specs.Volume.{LiesOn};

use dr_config::Config;
use dr_ids::VolumeId;
use dr_plant::DeviceId;

// Where a volume lies: its device, and how many tracks it has.
#[derive(Clone, Copy)]
pub(crate) struct Place {
    pub(crate) device: DeviceId,
    pub(crate) tracks: u16,
}

pub(crate) fn find(config: &Config, v: VolumeId) -> Place
    requires { IsSome (place_of config.now v.0) }
    ensures { LiesOn config.now v.0 result.device.0 result.tracks }
{
    Place {
        device: config.device_of(v).unwrap(),
        tracks: config.tracks_of(v).unwrap(),
    }
}

/// The device of a volume.
pub(crate) fn device_of(config: &Config, v: VolumeId) -> DeviceId
    requires { IsSome (place_of config.now v.0) }
    ensures place { place_of config.now v.0 ≡ Some result.0 }
    ensures sound { IsSoundConfig config.now }
{
    tell_sound(config);
    config.device_of(v).unwrap()
}

/// Says that a configuration is sound. Does nothing.
pub(crate) fn tell_sound(config: &Config)
    ensures { IsSoundConfig config.now }
{
    let _count = config.volumes();
}

/// The device of the volume that was defined after so many others.
pub(crate) fn device_at(config: &Config, place: usize) -> DeviceId
    requires { place < length config.now.volumes }
    ensures { result.0 ≡ place }
{
    tell_sound(config);
    DeviceId(place as u16)
}
