//! Sets of the tracks of a volume.
//!
//! `TrackSet` is a set of numbers from 0 to 255, and each call does to the set what its name says: `empty`, `first`,
//! `insert`, `remove`, `contains` (`found`), `union`, `minus`, `keep`, `clear`, `len`, `first_from` (`lowest`,
//! `value`). `to_bytes` and `from_bytes` are the set as 32 bytes.
#![tactic(auto)]

ghost use Rattle.std.specs.Prelude.{◌≡◌, ℕ, nat_eq, nat_lt, ◌+◌, ◌*◌, ◌<◌, ◌≤◌, Bool, false, length, MatchOption};
ghost use Rattle.std.specs.Int.{bit_at};
ghost use Rattle.std.specs.FinSet as set;
ghost use Rattle.std.specs.List.{slice_index_or};
ghost use Rattle.dr_bits.specs.Tracks as tracks;

use dr_lanes::{and_not_into, count, next_set, or_into};
use std::marker::Model;
use std::simd::prelude::*;

/// How many tracks a set can hold: its members are 0 to 255.
pub const TRACKS: usize = 256;

/// How many bytes a set takes on a device: a bit for each track.
pub const BYTES: usize = 32;

/// How many words of 64 bits a set takes in memory.
const WORDS: usize = 4;

/// A set of tracks, each below 256: track t is a member where bit t mod 64, counted from the lowest,
/// of word t / 64 is 1.
#[derive(Clone, Copy)]
pub struct TrackSet {
    words: [u64; WORDS],
}

impl Model for TrackSet {
    ghost use Rattle.std.specs.Coded.{coded_ℕ};
    ghost use Rattle.std.specs.FinSet.{code};
    ghost use Rattle.dr_lanes.specs.Words.{bits_of};
    ghost use Rattle.dr_bits.specs.Tracks.{Tracks, AreFourWords, words_of};
    ghost use Rattle.dr_bits.specs.Numbers.{words_of-bits_of};

    ghost Value = { Tracks };

    ghost coded = { code coded_ℕ };

    ghost view = { λ s. bits_of s.words };

    ghost invariant = { λ s. AreFourWords s.words };

    ghost inverse = { λ s. record { words = words_of s } };

    ghost inverse_ok = { λ s are is. record { words = words_of-bits_of s.words are is } };
}

impl TrackSet {
    /// The set with no track.
    pub fn empty() -> Self
        ensures { result ≡ set.empty }
    {
        TrackSet { words: [0; WORDS] }
    }

    /// The tracks below `n`.
    pub fn first(n: u16) -> Self
        requires { n ≤ 256 }
        ensures { result ≡ tracks.first n }
    {
        let n = n as usize;
        let mut words = [0; WORDS];
        for k in 0..WORDS {
            words[k] = low_bits(n.saturating_sub(64 * k));
        }
        TrackSet { words }
    }

    /// Adds the track `t`, which may be a member already.
    pub fn insert(&mut self, t: u16)
        requires { t < 256 }
        ensures { self.new ≡ set.insert self.old t }
    {
        self.words[t as usize / 64] |= 1 << (t % 64);
    }

    /// Takes the track `t` out, if it is a member.
    pub fn remove(&mut self, t: u16)
        ensures { self.new ≡ set.remove self.old t }
    {
        let at = t as usize / 64;
        if at < WORDS {
            self.words[at] &= !(1 << (t % 64));
        }
    }

    /// Whether `t` is a member. No track from 256 on is one.
    pub fn contains(&self, t: u16) -> bool
        ensures found { result ≡ set.contains self.now t }
        ensures in_range { tracks.IsInRange self.now }
    {
        let at = t as usize / 64;
        at < WORDS && (self.words[at] >> (t % 64)) & 1 == 1
    }

    /// Says that each member is below 256. Does nothing.
    pub fn tell_in_range(&self)
        ensures { tracks.IsInRange self.now }
    {
        let _ = &self.words;
    }

    /// Adds the members of `other`.
    pub fn union(&mut self, other: &TrackSet)
        ensures { self.new ≡ set.union self.old other.now }
    {
        or_into(&mut self.words, &other.words);
    }

    /// Takes the members of `other` out.
    pub fn minus(&mut self, other: &TrackSet)
        ensures { self.new ≡ set.difference self.old other.now }
    {
        and_not_into(&mut self.words, &other.words);
    }

    /// Keeps only the members that `other` has too.
    pub fn keep(&mut self, other: &TrackSet)
        ensures { self.new ≡ set.intersection self.old other.now }
    {
        let both = u64x4::from_array(self.words) & u64x4::from_array(other.words);
        self.words = both.to_array();
    }

    /// Takes every member out.
    pub fn clear(&mut self)
        ensures { self.new ≡ set.empty }
    {
        self.words = [0; WORDS];
    }

    /// How many members the set has.
    pub fn len(&self) -> u16
        ensures { result ≡ set.len self.now }
    {
        count(&self.words) as u16
    }

    /// The lowest member that isn't below `t`; `None` exactly where there is none.
    pub fn first_from(&self, t: u16) -> Option<u16>
        ensures lowest { MatchOption result (tracks.NoneFrom self.now t) (λ k. tracks.IsLowestFrom self.now t k) }
        ensures value { result ≡ tracks.lowest_from self.now t }
    {
        match next_set(&self.words, u32::from(t)) {
            Some(k) => Some(k as u16),
            None => None,
        }
    }

    /// The set as 32 bytes: track t is a member where bit t mod 8, counted from the lowest, of
    /// byte t / 8 is 1.
    pub fn to_bytes(&self) -> [u8; BYTES]
        ensures { result ≡ tracks.bytes_of self.now }
    {
        u64x4::from_array(self.words).to_le_bytes().to_array()
    }

    /// The set that these bytes tell, as `to_bytes` writes it. Any bytes tell a set.
    pub fn from_bytes(b: &[u8; BYTES]) -> Self
        ensures { result ≡ tracks.of_bytes b.now }
    {
        read(b)
    }
}

/// The set that these bytes tell.
fn read(b: &[u8]) -> TrackSet
    requires { length b.now ≡ 32 }
    ensures { result ≡ tracks.of_bytes b.now }
{
    let words = u64x4::from_le_bytes(u8x32::from_slice(b));
    TrackSet {
        words: words.to_array(),
    }
}

/// The word whose lowest `n` bits are 1, all of them where `n` is 64 or more.
fn low_bits(n: usize) -> u64
    ensures { (i : ℕ) → i < 64 → nat_eq (bit_at result i) 1 ≡ nat_lt i n }
{
    if n < 64 { (1 << n) - 1 } else { u64::MAX }
}

/// The byte whose bits, from the lowest, are the eight flags from `at` on.
pub fn byte_at(flags: &[bool], at: usize) -> u8
    requires { at + 8 ≤ length flags.now }
    ensures { result ≡ tracks.number_of (λ t. slice_index_or flags.now t false) at 8 }
{
    let mut byte = 0;
    for done in 0..8 {
        byte = 2 * byte + u8::from(flags[at + (7 - done)]);
    }
    byte
}
