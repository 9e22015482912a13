//! The devices of a plant in memory: small steps on nested vectors.

ghost use Rattle.std.specs.Prelude.{◌≡◌, ◌<◌, ◌≤◌, ◌+◌, ◌++◌, take, drop, vec_len, OnOk, OnErr, IfOk, length, replicate};
ghost use Rattle.dr_logic.specs.Bytes.{zeros};
ghost use Rattle.dr_logic.specs.Tables.{at, at2};
ghost use Rattle.dr_plant.specs.Model.{owners, sizes, contents};
ghost use Rattle.dr_plant.specs.Writes.{all_put, list_writes};

use crate::device::Device;
use crate::plant::Block;
use std::alloc::{AllocError, Global};

/// The server that owns a device.
pub fn owner_of(devices: &Vec<Device>, dev: usize) -> usize
    requires { dev < vec_len devices.now }
    ensures is { result ≡ owners devices.now.items dev }
    ensures below { result < 8 }
{
    devices[dev].owner as usize
}

/// A block of a device.
pub fn device_block(devices: &Vec<Device>, dev: usize, block: usize) -> Block
    requires device { dev < vec_len devices.now }
    requires block { block < sizes devices.now.items dev }
    ensures { result ≡ contents devices.now.items dev block }
{
    devices[dev].blocks[block]
}

/// Replaces a block of a device.
pub fn put_block(devices: &mut Vec<Device>, dev: usize, block: usize, bytes: &Block)
    requires device { dev < vec_len devices.old }
    requires block { block < sizes devices.old.items dev }
    ensures count { length devices.new.items ≡ length devices.old.items }
    ensures owners { owners devices.new.items ≡ owners devices.old.items }
    ensures sizes { sizes devices.new.items ≡ sizes devices.old.items }
    ensures contents { contents devices.new.items ≡ at2 (contents devices.old.items) dev block bytes.now }
{
    let device = &mut devices[dev];
    device.blocks[block] = *bytes;
}

/// Replaces blocks of a device, from one on.
pub fn put_blocks(devices: &mut Vec<Device>, dev: usize, first: usize, from: &[Block])
    requires device { dev < vec_len devices.old }
    requires blocks { first + length from.now ≤ sizes devices.old.items dev }
    ensures count { length devices.new.items ≡ length devices.old.items }
    ensures owners { owners devices.new.items ≡ owners devices.old.items }
    ensures sizes { sizes devices.new.items ≡ sizes devices.old.items }
    ensures contents { contents devices.new.items ≡ all_put (contents devices.old.items) dev (list_writes first from.now) }
{
    let device = &mut devices[dev];
    paste(&mut device.blocks, first, from);
}

/// Replaces elements from one on.
fn paste(blocks: &mut Vec<Block>, first: usize, from: &[Block])
    requires { first + length from.now ≤ vec_len blocks.old }
    ensures { blocks.new.items ≡ take first blocks.old.items ++ from.now ++ drop (first + length from.now) blocks.old.items }
{
    blocks[first..first + from.len()].copy_from_slice(from);
}

/// Adds a device of blocks of zeros. Fails where there is no memory; then nothing has changed.
pub fn add(
    alloc: Global,
    devices: &mut Vec<Device>,
    owner: u8,
    blocks: usize,
) -> Result<(), AllocError>
    requires { owner < 8 }
    ensures count { OnOk result (length devices.new.items ≡ length devices.old.items + 1) }
    ensures owners { OnOk result (owners devices.new.items ≡ at (owners devices.old.items) (length devices.old.items) owner) }
    ensures sizes { OnOk result (sizes devices.new.items ≡ at (sizes devices.old.items) (length devices.old.items) blocks) }
    ensures contents { OnOk result (contents devices.new.items ≡ at (contents devices.old.items) (length devices.old.items) (λ block. zeros)) }
    ensures same { OnErr result (devices.new.items ≡ devices.old.items) }
{
    let blocks = blank(alloc, blocks)?;
    devices.push(Device { owner, blocks })?;
    Ok(())
}

/// So many blocks of zeros. Fails where there is no memory.
fn blank(alloc: Global, count: usize) -> Result<Vec<Block>, AllocError>
    ensures { IfOk result (λ blocks. blocks.items ≡ replicate count zeros) }
{
    let mut blocks = Vec::new(alloc);
    for i in 0..count {
        blocks.push(zero_block())?;
    }
    Ok(blocks)
}

/// A block of zeros.
fn zero_block() -> Block
    ensures { result ≡ zeros }
{
    [0; 64]
}
