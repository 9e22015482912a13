//! The volumes of an image as they are kept: small steps on nested vectors.

ghost use Rattle.std.specs.Prelude.{◌≡◌, ◌<◌, ◌++◌, ◌∷◌, [], nat_lt, ◌≤◌, suc, take, drop, vec_len, AllPairs, OnOk, OnErr};
ghost use Rattle.std.specs.List.{list_all, slice_get};
ghost use Rattle.std.specs.Option.{option_map};
ghost use Rattle.dr_logic.specs.Bytes.{zeros};
ghost use Rattle.dr_model.specs.PlantImage.{block_in, with_block};
ghost use Rattle.dr_image.specs.Shown.{all_kept, block_at, bytes_of, kept, all_shown, bare, is_zero, if_kept, place, stands_at, put, put_last};
ghost use Rattle.dr_image.specs.Sound.{IsSoundImage};

use dr_ids::VolumeId;
use std::alloc::{AllocError, Global};

/// A volume of an image, the number of the server that owns it, and how many tracks it has.
#[derive(Clone, Copy)]
pub struct ImageVolume {
    pub volume: VolumeId,
    pub server: u8,
    pub tracks: u16,
}

/// A block that isn't all zero, with its number.
#[derive(Clone, Copy)]
pub struct KeptBlock {
    pub index: u16,
    pub bytes: [u8; 64],
}

/// A volume with its blocks in order.
#[derive(Drop)]
pub struct Held {
    pub volume: ImageVolume,
    pub blocks: Vec<KeptBlock>,
}

/// A block of zeros.
#[tactic(auto, unfolding(dr_logic::specs::Bytes::zeros))]
pub fn zero_block() -> [u8; 64]
    ensures { result ≡ zeros }
{
    [0; 64]
}

pub fn is_zero(bytes: &[u8; 64]) -> bool
    ensures { result ≡ is_zero bytes.now }
{
    bytes.iter().all(|b| *b == 0)
}

/// Adds a volume without blocks.
pub fn push_held(
    alloc: Global,
    volumes: &mut Vec<Held>,
    volume: ImageVolume,
) -> Result<(), AllocError>
    ensures ok { OnOk result (all_shown volumes.new.items ≡ all_shown volumes.old.items ++ bare volume ∷ []) }
    ensures err { OnErr result (all_shown volumes.new.items ≡ all_shown volumes.old.items) }
{
    volumes.push(Held {
        volume,
        blocks: Vec::new(alloc),
    })?;
    Ok(())
}

/// A block by its number.
pub fn block_in(blocks: &[KeptBlock], index: u16) -> [u8; 64]
    ensures { result ≡ block_in (all_kept blocks.now) index }
{
    for block in blocks {
        if block.index == index {
            return block.bytes;
        }
    }
    zero_block()
}

/// A block of the device of the volume at a place; zeros where none is kept.
pub fn block_at(volumes: &[Held], place: usize, index: u16) -> [u8; 64]
    requires { IsSoundImage (all_shown volumes.now) }
    ensures { result ≡ block_at (all_shown volumes.now) place index }
{
    if place < volumes.len() {
        find_block(&volumes[place].blocks, index)
    } else {
        zero_block()
    }
}

/// A block by its number, among blocks in order.
fn find_block(blocks: &[KeptBlock], index: u16) -> [u8; 64]
    requires { AllPairs (λ b c. b.index < c.index) (all_kept blocks.now) }
    ensures { result ≡ block_in (all_kept blocks.now) index }
{
    bytes_of(kept_at(blocks, place_from(blocks, index)), index)
}

/// The block at a place.
fn kept_at(blocks: &[KeptBlock], at: usize) -> Option<KeptBlock>
    ensures { result ≡ slice_get blocks.now at }
{
    blocks.get(at).copied()
}

/// The bytes of a block, where it is the one of the number; else zeros.
fn bytes_of(block: Option<KeptBlock>, index: u16) -> [u8; 64]
    ensures { result ≡ bytes_of (option_map kept block) index }
{
    match block {
        Some(block) if block.index == index => block.bytes,
        _ => zero_block(),
    }
}

/// The block comes behind all that are kept.
pub fn is_behind(blocks: &[KeptBlock], index: u32) -> bool
    requires { AllPairs (λ b c. b.index < c.index) (all_kept blocks.now) }
    ensures { result ≡ list_all (λ b. nat_lt b.index index) (all_kept blocks.now) }
{
    match blocks.last() {
        Some(block) => u32::from(block.index) < index,
        None => true,
    }
}

/// Adds a block behind those of a volume.
pub fn push_kept(
    volumes: &mut Vec<Held>,
    place: usize,
    index: u16,
    bytes: &[u8; 64],
) -> Result<(), AllocError>
    requires { place < vec_len volumes.old }
    ensures ok { OnOk result (all_shown volumes.new.items ≡ with_block (all_shown volumes.old.items) place (record { index = index; bytes = bytes.now })) }
    ensures err { OnErr result (all_shown volumes.new.items ≡ all_shown volumes.old.items) }
{
    let held = &mut volumes[place];
    held.blocks.push(KeptBlock {
        index,
        bytes: *bytes,
    })?;
    Ok(())
}

/// Puts a block on the device of the last volume.
pub fn put_last(volumes: &mut Vec<Held>, index: u16, bytes: &[u8; 64]) -> Result<(), AllocError>
    requires some { 0 < vec_len volumes.old }
    requires sound { IsSoundImage (all_shown volumes.old.items) }
    ensures ok { OnOk result (all_shown volumes.new.items ≡ put_last index bytes.now (all_shown volumes.old.items)) }
    ensures err { OnErr result (all_shown volumes.new.items ≡ all_shown volumes.old.items) }
{
    let last = volumes.len() - 1;
    let held = &mut volumes[last];
    put_block(&mut held.blocks, index, bytes)
}

/// Puts a block in its place among those of a volume, in place of an earlier one; zeros aren't kept.
pub fn put_block(
    blocks: &mut Vec<KeptBlock>,
    index: u16,
    bytes: &[u8; 64],
) -> Result<(), AllocError>
    requires { AllPairs (λ b c. b.index < c.index) (all_kept blocks.old.items) }
    ensures ok { OnOk result (all_kept blocks.new.items ≡ put index bytes.now (all_kept blocks.old.items)) }
    ensures err { OnErr result (all_kept blocks.new.items ≡ all_kept blocks.old.items) }
{
    let at = place_from(blocks, index);
    if stands_at(blocks, at, index) {
        replace_at(blocks, at, index, bytes);
        Ok(())
    } else {
        insert_at(blocks, at, index, bytes)
    }
}

/// The place of the first block that doesn't come before the number.
fn place_from(blocks: &[KeptBlock], index: u16) -> usize
    requires { AllPairs (λ b c. b.index < c.index) (all_kept blocks.now) }
    ensures { result ≡ place index (all_kept blocks.now) }
{
    blocks.partition_point(
        |block: &KeptBlock| -> bool
            ensures { result ≡ nat_lt block.now.index index }
        { block.index < index },
    )
}

/// The block at a place is that of the number.
fn stands_at(blocks: &[KeptBlock], at: usize, index: u16) -> bool
    ensures { result ≡ stands_at (all_kept blocks.now) at index }
{
    match blocks.get(at) {
        Some(block) => block.index == index,
        None => false,
    }
}

/// Gives the block at a place other bytes, or takes it away where they are all zero.
fn replace_at(blocks: &mut Vec<KeptBlock>, at: usize, index: u16, bytes: &[u8; 64])
    requires { at < vec_len blocks.old }
    ensures { all_kept blocks.new.items ≡ take at (all_kept blocks.old.items) ++ if_kept index bytes.now ++ drop (suc at) (all_kept blocks.old.items) }
{
    if is_zero(bytes) {
        let _ = blocks.remove(at);
    } else {
        blocks[at] = KeptBlock {
            index,
            bytes: *bytes,
        };
    }
}

/// Puts a block to a place, unless it is all zero.
fn insert_at(
    blocks: &mut Vec<KeptBlock>,
    at: usize,
    index: u16,
    bytes: &[u8; 64],
) -> Result<(), AllocError>
    requires { at ≤ vec_len blocks.old }
    ensures ok { OnOk result (all_kept blocks.new.items ≡ take at (all_kept blocks.old.items) ++ if_kept index bytes.now ++ drop at (all_kept blocks.old.items)) }
    ensures err { OnErr result (all_kept blocks.new.items ≡ all_kept blocks.old.items) }
{
    if is_zero(bytes) {
        return Ok(());
    }
    blocks.insert(
        at,
        KeptBlock {
            index,
            bytes: *bytes,
        },
    )?;
    Ok(())
}
