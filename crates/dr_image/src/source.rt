//! Relationships: the source of a volume must be a volume of the image.

ghost use Rattle.std.specs.Prelude.{◌≡◌, ◌<◌, not, length, IfSome};
ghost use Rattle.std.specs.List.{list_any, position};
ghost use Rattle.dr_model.specs.PlantImage.{is_source_of, has_source};
ghost use Rattle.dr_image.specs.Shown.{bare, shown, all_shown};
ghost use Rattle.dr_image.specs.Sources.{source_seen};

use crate::held::{Held, block_in};
use crate::image::ImageVolume;
use dr_ids::be16;

/// The source of the relationship of the record that the gate chooses, where it has one.
#[tactic(auto, unfolding(dr_model::specs::Layout::fields_of))]
fn source_of(held: &Held) -> Option<u16>
    ensures { result ≡ source_seen (shown held.now) }
{
    let gate = block_in(&held.blocks, 0);
    let slot = if gate[0] % 2 == 1 { 7 } else { 1 };
    let record = block_in(&held.blocks, slot);
    if record[5] % 2 == 1 {
        Some(be16(&record, 12))
    } else {
        None
    }
}

/// A volume can be the source of another: it is on the same server and has as many tracks.
fn is_source_of(volume: ImageVolume, source: u16, other: ImageVolume) -> bool
    ensures { result ≡ is_source_of (bare volume) source (bare other) }
{
    other.volume.0 == source
        && other.volume.0 != volume.volume.0
        && other.server == volume.server
        && other.tracks == volume.tracks
}

#[tactic(auto, unfolding(dr_model::specs::PlantImage::has_source))]
fn has_source(volumes: &[Held], held: &Held) -> bool
    ensures { result ≡ has_source (all_shown volumes.now) (shown held.now) }
{
    match source_of(held) {
        Some(source) => any_source(volumes, held.volume, source),
        None => true,
    }
}

/// A volume is the source.
fn any_source(volumes: &[Held], volume: ImageVolume, source: u16) -> bool
    ensures { result ≡ list_any (λ h. is_source_of (bare volume) source (shown h)) volumes.now }
{
    volumes
        .iter()
        .any(|other| is_source_of(volume, source, other.volume))
}

/// The place of the first volume whose relationship has no source in the image.
pub fn without_source(volumes: &[Held]) -> Option<usize>
    ensures value { result ≡ position (λ v. not (has_source (all_shown volumes.now) v)) (all_shown volumes.now) }
    ensures within { IfSome result (λ p. p < length volumes.now) }
{
    first_without(volumes)
}

fn first_without(volumes: &[Held]) -> Option<usize>
    ensures value { result ≡ position (λ h. not (has_source (all_shown volumes.now) (shown h))) volumes.now }
    ensures within { IfSome result (λ p. p < length volumes.now) }
{
    volumes.iter().position(|held| !has_source(volumes, held))
}
