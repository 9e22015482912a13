ghost use Rattle.std.specs.Prelude.{◌≡◌, ◌≤◌, ◌<◌};
ghost use Rattle.dr_ids.specs.Sizes as volume;

/// The most servers that a configuration has.
pub const MOST_SERVERS: usize = 8;

/// The most volumes that a configuration has.
pub const MOST_VOLUMES: usize = 64;

/// The most tracks that a volume has.
pub const MAX_TRACKS: u16 = 256;

/// How many identifiers of volumes share the high byte, and so lie in one logical subsystem.
pub const VOLUMES_OF_LSS: u16 = 256;

/// The most events that the journal of a run has.
pub const MOST_EVENTS: usize = 1_000_000;

/// How many side blocks a volume has, and so how many entries.
pub const SIDE_BLOCKS: u8 = 8;

/// The block of track 0, after the gate and the two slots of six blocks.
pub const FIRST_TRACK: u16 = 13;

/// How many blocks a volume has besides those of its tracks: the control record's and the side blocks.
pub const FIXED_BLOCKS: u16 = 21;

/// The block of a track on the device of its volume.
pub fn track_block(t: u16) -> u16
    requires { t < MAX_TRACKS }
    ensures { result ≡ volume.track_block t }
{
    FIRST_TRACK + t
}

/// The side block of an entry on the device of a volume with that many tracks, after the tracks.
pub fn side_block(tracks: u16, entry: u8) -> u16
    requires tracks { tracks ≤ MAX_TRACKS }
    requires entry { entry < SIDE_BLOCKS }
    ensures { result ≡ volume.side_block tracks entry }
{
    FIRST_TRACK + tracks + u16::from(entry)
}

/// How many blocks hold a volume of that many tracks: its control record, its tracks and its side blocks.
pub fn blocks_of(tracks: u16) -> u16
    requires { tracks ≤ MAX_TRACKS }
    ensures { result ≡ volume.blocks_of tracks }
{
    FIXED_BLOCKS + tracks
}
