//! Images of plants.

ghost use Rattle.std.specs.Prelude.{◌≡◌, ◌<◌, ◌++◌, ◌∷◌, [], ◌==◌, length, OnOk, OnErr};
ghost use Rattle.std.specs.List.{slice_get};
ghost use Rattle.std.specs.Option.{option_map};
ghost use Rattle.dr_image.specs.Shown.{bare, owned, block_at, put_last};

pub use crate::held::ImageVolume;
use crate::held::{Held, block_at, push_held, put_last};
use std::alloc::{AllocError, Global};
use std::marker::Model;

/// What the devices of a plant contain: volumes in order, with the blocks of their devices. Blocks that
/// are all zero aren't kept.
#[derive(Drop)]
pub struct Image {
    pub(crate) alloc: Global,
    pub(crate) volumes: Vec<Held>,
}

impl Model for Image {
    ghost use Rattle.std.specs.Prelude.{List};
    ghost use Rattle.dr_model.specs.PlantImage.{Volume};

    ghost Value = { List Volume };

    ghost use Rattle.dr_image.specs.Shown.{all_shown};
    ghost use Rattle.dr_image.specs.Sound.{IsSoundImage};

    ghost view = { λ i. all_shown i.volumes.items };

    ghost invariant = { λ i. IsSoundImage (all_shown i.volumes.items) };
}

impl Image {
    /// An image without volumes.
    pub fn new(alloc: Global) -> Image
        ensures { result ≡ [] }
    {
        Image {
            alloc,
            volumes: Vec::new(alloc),
        }
    }

    /// How many volumes there are.
    pub fn len(&self) -> usize
        ensures { result ≡ length self.now }
    {
        self.volumes.len()
    }

    pub fn is_empty(&self) -> bool
        ensures { result ≡ (length self.now == 0) }
    {
        self.volumes.is_empty()
    }

    /// The volume at a place, counted from 0 in the order of definition.
    pub fn volume(&self, i: usize) -> Option<ImageVolume>
        ensures { result ≡ option_map owned (slice_get self.now i) }
    {
        if i < self.volumes.len() {
            Some(self.volumes[i].volume)
        } else {
            None
        }
    }

    /// A block of the device of the volume at a place; zeros where none is kept.
    pub fn block(&self, i: usize, index: u16) -> [u8; 64]
        ensures { result ≡ block_at self.now i index }
    {
        block_at(&self.volumes, i, index)
    }

    /// Adds a volume whose blocks are all zero.
    pub fn push_volume(&mut self, v: ImageVolume) -> Result<(), AllocError>
        ensures ok { OnOk result (self.new ≡ self.old ++ bare v ∷ []) }
        ensures err { OnErr result (self.new ≡ self.old) }
    {
        // Read here, so that the proof knows that they fit their types.
        let _numbers = (v.volume.0, v.server, v.tracks);
        push_held(self.alloc, &mut self.volumes, v)
    }

    /// Puts a block on the device of the last volume.
    pub fn push_block(&mut self, index: u16, bytes: &[u8; 64]) -> Result<(), AllocError>
        requires { 0 < length self.old }
        ensures ok { OnOk result (self.new ≡ put_last index bytes.now self.old) }
        ensures err { OnErr result (self.new ≡ self.old) }
    {
        put_last(&mut self.volumes, index, bytes)
    }
}
