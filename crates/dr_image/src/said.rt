//! What the words of a line say.

ghost use Rattle.std.specs.Prelude.{◌≡◌, ◌∷◌, []};
ghost use Rattle.std.specs.Option.{option_map};
ghost use Rattle.dr_model.specs.PlantImage.{volume_of, volume_said, block_said};
ghost use Rattle.dr_image.specs.Shown.{bare};
ghost use Rattle.dr_image.specs.Lines.{words_after, placed};

use crate::held::ImageVolume;
use crate::words::{last_word, next_word, read_id, read_kept, read_plain};
use dr_ids::VolumeId;

/// A block, and the volume that it is of.
#[derive(Clone, Copy)]
pub struct Placed {
    pub volume: VolumeId,
    pub index: u32,
    pub bytes: [u8; 64],
}

/// The volume that the words behind `volume` say.
pub fn volume_said(rest: Option<&[u8]>) -> Option<ImageVolume>
    ensures { option_map bare result ≡ volume_said (words_after rest.entry) }
{
    let (id, rest) = next_word(rest)?;
    let (server, rest) = next_word(rest)?;
    let tracks = last_word(rest)?;
    volume_from(id, server, tracks)
}

/// The volume that three words say.
fn volume_from(id: &[u8], server: &[u8], tracks: &[u8]) -> Option<ImageVolume>
    ensures { option_map bare result ≡ volume_said (id.now ∷ server.now ∷ tracks.now ∷ []) }
{
    let volume = read_id(id)?;
    let server = read_plain(server)?;
    let tracks = read_plain(tracks)?;
    volume_of(volume, server, tracks)
}

/// A server's number is at most 7, and a volume has 1 to 256 tracks.
fn volume_of(volume: VolumeId, server: u32, tracks: u32) -> Option<ImageVolume>
    ensures { option_map bare result ≡ volume_of volume.0 server tracks }
{
    if server <= 7 && 1 <= tracks && tracks <= 256 {
        Some(ImageVolume {
            volume,
            server: server as u8,
            tracks: tracks as u16,
        })
    } else {
        None
    }
}

/// The block that the words behind `block` say.
pub fn block_said(rest: Option<&[u8]>) -> Option<Placed>
    ensures { option_map placed result ≡ block_said (words_after rest.entry) }
{
    let (id, rest) = next_word(rest)?;
    let (index, rest) = next_word(rest)?;
    let bytes = last_word(rest)?;
    block_from(id, index, bytes)
}

/// The block that three words say.
fn block_from(id: &[u8], index: &[u8], bytes: &[u8]) -> Option<Placed>
    ensures { option_map placed result ≡ block_said (id.now ∷ index.now ∷ bytes.now ∷ []) }
{
    let volume = read_id(id)?;
    let index = read_plain(index)?;
    let bytes = read_kept(bytes)?;
    Some(Placed {
        volume,
        index,
        bytes,
    })
}
