//! One device of a plant in memory.

ghost use Rattle.std.specs.Prelude.{◌<◌};

use crate::plant::Block;

/// A device: the server that owns it, and its blocks in order.
#[derive(Drop)]
pub struct Device {
    pub owner: u8,
    pub blocks: Vec<Block>,
    ghost owned: { owner < 8 },
}
