//! The entries of a volume's side blocks; how they are written in a block, after the blank tracks, and read from it.

ghost use Rattle.std.specs.Prelude.{◌≡◌, ℕ, Bool, ◌<◌, ◌++◌, length, map, take, is_none, None, if◌then◌else◌};
ghost use Rattle.std.specs.List.{range_with_len, list_any, list_all, position, slice_index_or};
ghost use Rattle.dr_bits.specs.Tracks.{bytes_of};
ghost use Rattle.dr_model.specs.Layout as layout;
ghost use Rattle.dr_volume.specs.Record as lies;

use crate::codes::{bit, halves, two_bytes};
use crate::opened::is_staged;
use dr_bits::{TrackSet, byte_at};
use dr_ids::be16;
use dr_plant::Block;
use std::marker::Model;

/// The entries of a volume's side blocks, lowest first: each is free, or names a track. Entry k is used if bit k of `used`,
/// counted from the lowest, is 1; it names number k of `tracks`, which is 0 if the entry is free.
#[derive(Clone, Copy)]
pub struct Entries {
    used: u8,
    tracks: [u16; 8],
}

impl Model for Entries {
    ghost use Rattle.dr_model.specs.Layout as layout;

    ghost Value = { layout.Entries };

    ghost use Rattle.dr_volume.specs.Packed.{entries_held, IsPacked, packed, packed-held};

    ghost view = { entries_held };

    ghost invariant = { IsPacked };

    ghost inverse = { packed };

    ghost inverse_ok = { packed-held };
}

impl Entries {
    /// No entry is used.
    #[tactic(auto, unfolding(crate::specs::Packed::entries_held))]
    pub fn free() -> Self
        ensures { result ≡ layout.free_entries }
    {
        Entries {
            used: 0,
            tracks: [0; 8],
        }
    }

    /// Entry `k`.
    pub fn get(&self, k: u8) -> Option<u16>
        requires { k < 8 }
        ensures { result ≡ layout.entry_at self.now k }
    {
        if bit(self.used, k) {
            Some(self.tracks[usize::from(k)])
        } else {
            None
        }
    }

    /// Whether no entry is used.
    pub fn are_free(&self) -> bool
        ensures { result ≡ list_all (λ e. is_none e) self.now }
    {
        self.used == 0
    }

    /// The lowest entry that is free here and used in `next`.
    pub fn taken(&self, next: &Entries) -> Option<u8>
        ensures { result ≡ layout.entry_taken self.now next.now }
    {
        lowest_bit(!self.used & next.used)
    }

    /// The lowest entry that names the track `t`.
    pub fn entry_of(&self, t: u16) -> Option<u8>
        ensures { result ≡ layout.entry_of self.now t }
    {
        if self.used == 0 {
            return None;
        }
        lowest_bit(self.used & same_tracks(&self.tracks, t))
    }

    /// Whether an entry names the track `t`.
    pub fn names(&self, t: u16) -> bool
        ensures { result ≡ layout.names self.now t }
    {
        self.entry_of(t).is_some()
    }

    /// The lowest free entry names the track `t`, if one is free.
    pub fn take(&mut self, t: u16)
        ensures { self.new ≡ layout.with_entry self.old t }
    {
        let mut all = self.unpacked();
        name_lowest(&mut all, t);
        *self = pack(&all);
    }

    /// The entry that names the track `t` is free; the others stay. If no entry is used, one byte is looked at.
    pub fn free_track(&mut self, t: u16)
        ensures { self.new ≡ layout.without_entry self.old t }
    {
        if !self.are_free() {
            *self = pack(&without_track(&self.unpacked(), t));
        }
    }

    /// Says that there are eight entries. Does nothing.
    pub fn tell_eight(&self)
        ensures { length self.now ≡ 8 }
    {
        let _ = &self.used;
    }

    // All eight, one by one.
    fn unpacked(&self) -> [Option<u16>; 8]
        ensures { result ≡ self.now }
    {
        self.tell_eight();
        [
            self.get(0),
            self.get(1),
            self.get(2),
            self.get(3),
            self.get(4),
            self.get(5),
            self.get(6),
            self.get(7),
        ]
    }

    // The entries that are used, as bits.
    fn flags(&self) -> u8
        ensures { result ≡ lies.entry_flags self.now }
    {
        self.used
    }

    // The tracks that entries name, in two bytes each.
    fn track_bytes(&self) -> [u8; 16]
        ensures { result ≡ lies.entry_tracks self.now }
    {
        in_two_bytes(&self.tracks)
    }
}

// The lowest bit that is set.
fn lowest_bit(byte: u8) -> Option<u8>
    ensures { result ≡ position (λ k. layout.bit byte k) (range_with_len 0 8) }
{
    if byte == 0 {
        None
    } else {
        Some(byte.trailing_zeros() as u8)
    }
}

// A bit for each track that is `t`.
fn same_tracks(tracks: &[u16; 8], t: u16) -> u8
    ensures { result ≡ lies.same_tracks tracks.now t }
{
    byte_at(
        &[
            t == tracks[0],
            t == tracks[1],
            t == tracks[2],
            t == tracks[3],
            t == tracks[4],
            t == tracks[5],
            t == tracks[6],
            t == tracks[7],
        ],
        0,
    )
}

// Eight tracks in two bytes each.
fn in_two_bytes(tracks: &[u16; 8]) -> [u8; 16]
    ensures { result ≡ lies.track_bytes (λ k. slice_index_or tracks.now k 0) }
{
    let mut bytes = [0; 16];
    bytes[..2].copy_from_slice(&two_bytes(tracks[0]));
    bytes[2..4].copy_from_slice(&two_bytes(tracks[1]));
    bytes[4..6].copy_from_slice(&two_bytes(tracks[2]));
    bytes[6..8].copy_from_slice(&two_bytes(tracks[3]));
    bytes[8..10].copy_from_slice(&two_bytes(tracks[4]));
    bytes[10..12].copy_from_slice(&two_bytes(tracks[5]));
    bytes[12..14].copy_from_slice(&two_bytes(tracks[6]));
    bytes[14..].copy_from_slice(&two_bytes(tracks[7]));
    bytes
}

/// A set and the entries as one block.
pub(crate) fn set_and_entries(set: &TrackSet, entries: &Entries) -> Block
    ensures { result ≡ bytes_of set.now ++ lies.entry_bytes entries.now }
{
    halves(&set.to_bytes(), &entry_bytes(entries))
}

// The entries in 32 bytes.
fn entry_bytes(entries: &Entries) -> [u8; 32]
    ensures { result ≡ lies.entry_bytes entries.now }
{
    if entries.are_free() {
        return [0; 32];
    }
    let mut bytes = [0; 32];
    bytes[0] = entries.flags();
    bytes[2..18].copy_from_slice(&entries.track_bytes());
    bytes
}

// These eight entries.
fn pack(entries: &[Option<u16>; 8]) -> Entries
    ensures { result ≡ entries.now }
{
    Entries {
        used: flags(entries),
        tracks: tracks(entries),
    }
}

// A bit for each that is used.
fn flags(entries: &[Option<u16>; 8]) -> u8
    ensures { result ≡ lies.entry_flags entries.now }
{
    byte_at(
        &[
            entries[0].is_some(),
            entries[1].is_some(),
            entries[2].is_some(),
            entries[3].is_some(),
            entries[4].is_some(),
            entries[5].is_some(),
            entries[6].is_some(),
            entries[7].is_some(),
        ],
        0,
    )
}

// The track that each names.
fn tracks(entries: &[Option<u16>; 8]) -> [u16; 8]
    ensures { result ≡ map (lies.track_named entries.now) (range_with_len 0 8) }
{
    [
        entries[0].unwrap_or(0),
        entries[1].unwrap_or(0),
        entries[2].unwrap_or(0),
        entries[3].unwrap_or(0),
        entries[4].unwrap_or(0),
        entries[5].unwrap_or(0),
        entries[6].unwrap_or(0),
        entries[7].unwrap_or(0),
    ]
}

// The lowest of these that is free.
fn lowest_free(entries: &[Option<u16>; 8]) -> Option<usize>
    ensures { result ≡ position (λ e. is_none e) entries.now }
{
    entries.iter().position(|entry| entry.is_none())
}

// The lowest that is free names the track, if one is free.
fn name_lowest(entries: &mut [Option<u16>; 8], t: u16)
    ensures { entries.new ≡ layout.with_entry entries.old t }
{
    if let Some(k) = lowest_free(entries) {
        entries[k] = Some(t);
    }
}

// These entries, less the one that names the track.
fn without_track(entries: &[Option<u16>; 8], t: u16) -> [Option<u16>; 8]
    ensures { result ≡ layout.without_entry entries.now t }
{
    [
        less(entries[0], t),
        less(entries[1], t),
        less(entries[2], t),
        less(entries[3], t),
        less(entries[4], t),
        less(entries[5], t),
        less(entries[6], t),
        less(entries[7], t),
    ]
}

// An entry, free if it names the track.
fn less(entry: Option<u16>, t: u16) -> Option<u16>
    ensures { result ≡ (if layout.is_track entry t then None else entry) }
{
    if is_staged(entry, t) { None } else { entry }
}

/// What the entries that a block says mean for a volume with that many tracks. If none is used, one byte is looked at.
#[tactic(auto, unfolding(dr_model::specs::Layout::entries_of))]
pub(crate) fn entries_on(tracks: u16, block: &Block) -> Entries
    ensures { result ≡ layout.entries_of tracks (map (layout.entry_in block.now) (range_with_len 0 8)) }
{
    if block[32] == 0 {
        return Entries::free();
    }
    pack(&kept_entries(tracks, &said_in(block)))
}

/// The entries that a block says, whichever tracks they name. If none is used, one byte is looked at.
pub(crate) fn entries_in(block: &Block) -> Entries
    ensures { result ≡ map (layout.entry_in block.now) (range_with_len 0 8) }
{
    if block[32] == 0 {
        return Entries::free();
    }
    pack(&said_in(block))
}

// The eight entries that a block says.
fn said_in(block: &Block) -> [Option<u16>; 8]
    ensures { result ≡ map (layout.entry_in block.now) (range_with_len 0 8) }
{
    [
        entry_in(block, 0),
        entry_in(block, 1),
        entry_in(block, 2),
        entry_in(block, 3),
        entry_in(block, 4),
        entry_in(block, 5),
        entry_in(block, 6),
        entry_in(block, 7),
    ]
}

// Entry `k` that a block says.
fn entry_in(block: &Block, k: u8) -> Option<u16>
    requires { k < 8 }
    ensures { result ≡ layout.entry_in block.now k }
{
    if bit(block[32], k) {
        Some(be16(block, 34 + 2 * usize::from(k)))
    } else {
        None
    }
}

// What entries mean for a volume with that many tracks: one whose track the volume hasn't, or that a lower one names too, is
// free.
#[tactic(auto, unfolding(dr_model::specs::Layout::entries_of))]
fn kept_entries(tracks: u16, said: &[Option<u16>; 8]) -> [Option<u16>; 8]
    ensures { result ≡ layout.entries_of tracks said.now }
{
    [
        kept(tracks, said, 0),
        kept(tracks, said, 1),
        kept(tracks, said, 2),
        kept(tracks, said, 3),
        kept(tracks, said, 4),
        kept(tracks, said, 5),
        kept(tracks, said, 6),
        kept(tracks, said, 7),
    ]
}

// What entry `k` means.
fn kept(tracks: u16, said: &[Option<u16>; 8], k: usize) -> Option<u16>
    requires { k < 8 }
    ensures { result ≡ layout.entry_kept tracks (take k said.now) (layout.entry_at said.now k) }
{
    match said[k] {
        Some(t) if t < tracks && !names(&said[..k], t) => Some(t),
        _ => None,
    }
}

// Whether one of these entries names the track.
fn names(entries: &[Option<u16>], t: u16) -> bool
    ensures { result ≡ list_any (λ e. layout.is_track e t) entries.now }
{
    entries.iter().any(|entry| is_staged(*entry, t))
}
