//! Kernels over words of bits and over blocks, four words or one block at a time by vectors. None
//! of them takes memory from an allocator.
//!
//! Each kernel is its plain definition, for every length that it takes. `or_into` and `and_not_into`: word for word
//! (`words`), and union and difference of the sets of bits (`bits`). `count` is how many bits are set. `next_set` gives
//! the lowest bit from a place on that is set, and `None` exactly where there is none. `same_block_mask` sets exactly
//! the bits whose blocks are the same in both lists, and clears all others. None of them takes memory.
#![tactic(auto)]

ghost use Rattle.std.specs.Prelude.{◌≡◌, ◌↔◌, ℕ, ◌+◌, ◌*◌, ◌/◌, ◌%◌, ◌<◌, ◌≤◌, Bool, true, length, IsTrue, MatchOption, slice_index, bit_and, bit_or};
ghost use Rattle.std.specs.Int.RustNames.{count_ones};
ghost use Rattle.std.specs.FinSet as set;
ghost use Rattle.std.specs.Int.{bit_at, bit_not, w64};
ghost use Rattle.dr_lanes.specs.Blocks.{IsSameBlock};
ghost use Rattle.dr_lanes.specs.Words.{bits_of, HasNoneFrom, IsNextFrom};

use std::simd::prelude::*;

/// A block of a device: 64 bytes.
pub type Block64 = [u8; 64];

/// How many words a vector has.
const LANES: usize = 4;

/// How many bits a word has.
const BITS: usize = 64;

/// Sets in `a` each bit that is set in `b`. Both have the same number of words.
pub fn or_into(a: &mut [u64], b: &[u64])
    requires { length a.old ≡ length b.now }
    ensures words { (k : ℕ) → slice_index a.new k ≡ bit_or (slice_index a.old k) (slice_index b.now k) }
    ensures bits { bits_of a.new ≡ set.union (bits_of a.old) (bits_of b.now) }
{
    let mut at = 0;
    'lanes: while a.len() - at >= LANES {
        let both = u64x4::from_slice(&a[at..]) | u64x4::from_slice(&b[at..]);
        both.copy_to_slice(&mut a[at..]);
        at += LANES;
    }
    'rest: while at < a.len() {
        a[at] |= b[at];
        at += 1;
    }
}

/// Clears in `a` each bit that is set in `b`. Both have the same number of words.
pub fn and_not_into(a: &mut [u64], b: &[u64])
    requires { length a.old ≡ length b.now }
    ensures words { (k : ℕ) → slice_index a.new k ≡ bit_and (slice_index a.old k) (bit_not w64 (slice_index b.now k)) }
    ensures bits { bits_of a.new ≡ set.difference (bits_of a.old) (bits_of b.now) }
{
    let mut at = 0;
    'lanes: while a.len() - at >= LANES {
        let left = u64x4::from_slice(&a[at..]) & !u64x4::from_slice(&b[at..]);
        left.copy_to_slice(&mut a[at..]);
        at += LANES;
    }
    'rest: while at < a.len() {
        a[at] &= !b[at];
        at += 1;
    }
}

/// How many bits are set.
pub fn count(a: &[u64]) -> u32
    requires { length a.now < 67108864 }
    ensures { result ≡ set.len (bits_of a.now) }
{
    let mut ones = 0;
    let mut at = 0;
    'lanes: while a.len() - at >= LANES {
        ones += ones_in_four(a, at);
        at += LANES;
    }
    'rest: while at < a.len() {
        ones += a[at].count_ones();
        at += 1;
    }
    ones
}

/// How many bits of the four words from number `at` on are set.
fn ones_in_four(a: &[u64], at: usize) -> u32
    requires { at + 4 ≤ length a.now }
    ensures { result ≡ count_ones (slice_index a.now at) + count_ones (slice_index a.now (at + 1)) + count_ones (slice_index a.now (at + 2)) + count_ones (slice_index a.now (at + 3)) }
{
    u64x4::from_slice(&a[at..]).count_ones().strict_reduce_sum() as u32
}

/// The lowest bit from `from` on that is set; `None` exactly where there is none.
pub fn next_set(a: &[u64], from: u32) -> Option<u32>
    requires { length a.now < 67108864 }
    ensures { MatchOption result (HasNoneFrom (bits_of a.now) from) (IsNextFrom (bits_of a.now) from) }
{
    let first = from as usize / BITS;
    if first >= a.len() {
        return None;
    }
    let rest = a[first] >> (from % 64);
    if rest != 0 {
        return Some(from + rest.trailing_zeros());
    }
    let at = next_word(a, first + 1);
    if at < a.len() {
        Some(at as u32 * 64 + a[at].trailing_zeros())
    } else {
        None
    }
}

/// The number of the first word from `from` on that isn't 0; the number of words where there is none.
fn next_word(a: &[u64], from: usize) -> usize
    requires { from ≤ length a.now }
    ensures within { (from ≤ result) × (result ≤ length a.now) }
    ensures zero { (k : ℕ) → from ≤ k → k < result → slice_index a.now k ≡ 0 }
    ensures found { result < length a.now → 0 < slice_index a.now result }
{
    let mut at = from;
    'lanes: while a.len() - at >= LANES && u64x4::from_slice(&a[at..]).reduce_or() == 0 {
        at += LANES;
    }
    'rest: while at < a.len() && a[at] == 0 {
        at += 1;
    }
    at
}

/// Sets bit k of `mask` where block k has the same bytes in `a` and in `b`, and clears all other
/// bits, those past the last block too. Both lists have the same number of blocks, and `mask` has at
/// least one bit for each.
pub fn same_block_mask(a: &[Block64], b: &[Block64], mask: &mut [u64])
    requires alike { length a.now ≡ length b.now }
    requires room { length a.now ≤ 64 * length mask.old }
    ensures { (k : ℕ) → (set.contains (bits_of mask.new) k ≡ true) ↔ IsSameBlock a.now b.now k }
{
    let mut at = 0;
    for word in mask.iter_mut() {
        let blocks = BITS.min(a.len() - at);
        *word = same_in_word(a, b, at, blocks);
        at += blocks;
    }
}

/// Bit k is set where block `at + k`, one of the `blocks` from `at` on, is the same in both.
fn same_in_word(a: &[Block64], b: &[Block64], at: usize, blocks: usize) -> u64
    requires alike { length a.now ≡ length b.now }
    requires few { blocks ≤ 64 }
    requires within { at + blocks ≤ length a.now }
    ensures { (k : ℕ) → (bit_at result k ≡ 1) ↔ ((k < blocks) × IsSameBlock a.now b.now (at + k)) }
{
    let mut word = 0;
    for k in 0..blocks {
        if same_block(&a[at + k], &b[at + k]) {
            word |= 1 << k;
        }
    }
    word
}

/// Whether two blocks have the same bytes, all compared at once.
fn same_block(a: &Block64, b: &Block64) -> bool
    ensures { IsTrue result ↔ (a.now ≡ b.now) }
{
    u8x64::from_array(*a).simd_eq(u8x64::from_array(*b)).all()
}
