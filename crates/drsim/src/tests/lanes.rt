//! The kernels of `dr_lanes` beside their plain definitions, written as loops: on words that fill vectors, and on those that don't.

use dr_lanes::{Block64, and_not_into, count, next_set, or_into, same_block_mask};
use std::alloc::{AllocError, Global};
use std::process::Abort;

/// How many words, or blocks, are tried.
const LENGTHS: [usize; 7] = [0, 1, 3, 4, 5, 8, 64];

/// That many words without an order, of which about one in four is 0.
fn words(alloc: Global, seed: u64, len: usize) -> Result<Vec<u64>, AllocError> {
    let mut words = Vec::new(alloc);
    let mut last = seed;
    for _ in 0..len {
        last = last
            .wrapping_mul(6_364_136_223_846_793_005)
            .wrapping_add(seed);
        let word = last & (last >> 7);
        words.push(if last >> 62 == 0 { 0 } else { word })?;
    }
    Ok(words)
}

/// Whether the bit is set; none past the last word is.
fn is_set(words: &[u64], bit: usize) -> bool {
    match words.get(bit / 64) {
        Some(word) => (word >> (bit % 64)) & 1 == 1,
        None => false,
    }
}

/// Both merges of two lists, word by word.
fn merges(rt: &impl Abort, alloc: Global, a: &[u64], b: &[u64]) -> Result<(), AllocError> {
    let mut both = a.to_vec(alloc)?;
    let mut left = a.to_vec(alloc)?;
    let mut wanted_both = Vec::new(alloc);
    let mut wanted_left = Vec::new(alloc);
    for (x, y) in a.iter().zip(b.iter()) {
        wanted_both.push(*x | *y)?;
        wanted_left.push(*x & !*y)?;
    }
    assert!(rt; both.len() == b.len() && left.len() == b.len());
    or_into(&mut both, b);
    and_not_into(&mut left, b);
    assert!(rt; both == wanted_both, "or of {}", a.len());
    assert!(rt; left == wanted_left, "and not of {}", a.len());
    Ok(())
}

/// The bits that are set, and the next one from each bit on, from the last bit to the first.
fn bits(rt: &impl Abort, words: &[u64]) {
    assert!(rt; words.len() <= 64);
    let (mut set, mut next) = (0u32, None);
    for bit in (0..=64 * words.len() as u32).rev() {
        if is_set(words, bit as usize) {
            set = set.wrapping_add(1);
            next = Some(bit);
        }
        assert_eq!(rt; next_set(words, bit), next, "next from {bit}");
    }
    assert_eq!(rt; count(words), set, "count of {}", words.len());
}

/// A block of one byte over and over.
fn block(byte: u8) -> Block64 {
    [byte; 64]
}

/// That many blocks; if they are changed, each third has another byte in one place.
fn blocks(alloc: Global, len: usize, changed: bool) -> Result<Vec<Block64>, AllocError> {
    let mut blocks = Vec::new(alloc);
    for place in 0..len {
        let mut block = block((place % 256) as u8);
        if changed && place % 3 == 0 {
            block[place % 64] = 0xFF;
        }
        blocks.push(block)?;
    }
    Ok(blocks)
}

/// Whether both lists have this block, with the same bytes.
fn is_same(a: &[Block64], b: &[Block64], place: usize) -> bool {
    let (Some(x), Some(y)) = (a.get(place), b.get(place)) else {
        return false;
    };
    for (p, q) in x.iter().zip(y.iter()) {
        if p != q {
            return false;
        }
    }
    true
}

/// The mask of the blocks that are the same, with bits past the last block.
fn masks(rt: &impl Abort, a: &[Block64], b: &[Block64]) {
    let mut mask = [u64::MAX; 2];
    assert!(rt; a.len() == b.len() && a.len() <= 128);
    same_block_mask(a, b, &mut mask);
    for place in 0..128 {
        assert_eq!(rt;
            is_set(&mask, place),
            is_same(a, b, place),
            "block {place} of {}",
            a.len()
        );
    }
}

#[test]
fn kernels_are_their_plain_definitions_on_each_length(rt: HostRuntime) -> Result<(), AllocError> {
    let alloc = rt.alloc();
    for len in LENGTHS {
        let a = words(alloc, 1, len)?;
        let b = words(alloc, 3, len)?;
        merges(&rt, alloc, &a, &b)?;
        bits(&rt, &a);
        bits(&rt, &b);
        masks(&rt, &blocks(alloc, len, false)?, &blocks(alloc, len, true)?);
    }
    assert_eq!(rt; next_set(&[0, 0, 0, 0x10], 5), Some(196));
    assert_eq!(rt; next_set(&[], 0), None);
    assert_eq!(rt; count(&[u64::MAX, 1, 0]), 65);
    Ok(())
}
