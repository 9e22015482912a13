//! The volumes in order of definition, and the tables by which one is found without a search.

ghost use Rattle.std.specs.Prelude.{◌≡◌, ℕ, ◌<◌, ◌≤◌, ◌==◌, ◌/◌, ◌%◌, ◌+◌, ◌++◌, ◌∷◌, [], length, slice_get, slice_set, slice_index_or, None, IsTrue, OnOk, vec_len, vec_capacity};
ghost use Rattle.std.specs.List.{position, find};
ghost use Rattle.dr_config.specs.Table.{lss_of};
ghost use Rattle.dr_config.specs.Volumes.{row_in, place_in, place_by, no_places, AreTables};

use crate::entries::VolumeEntry;
use dr_ids::{VOLUMES_OF_LSS, VolumeId};
use std::alloc::{AllocError, Global};
use std::marker::Model;

/// Stands for no row and for no place: there are at most 64 of each.
const NONE: u8 = 255;

/// A number for each byte.
type Bytes = [u8; 256];

/// The volumes in order of definition. Two reads find one: the high byte of its identifier has the number of a row, and there
/// the low byte has the volume's place.
#[derive(Drop)]
pub(crate) struct Volumes {
    entries: Vec<VolumeEntry>,
    row_of: Bytes,
    rows: Vec<Bytes>,
}

impl Model for Volumes {
    ghost use Rattle.std.specs.Prelude.{◌&&◌, nat_lt, vec_len, vec_capacity};
    ghost use Rattle.dr_config.specs.Volumes.{VolumeList, IsKeptList};

    ghost Value = { VolumeList };

    ghost view = { λ v. record { entries = v.entries.items; room = nat_lt (vec_len v.entries) (vec_capacity v.entries) && nat_lt (vec_len v.rows) (vec_capacity v.rows) } };

    ghost invariant = { λ v. IsKeptList v.entries.items v.row_of v.rows.items };
}

impl Volumes {
    // No volumes.
    pub(crate) fn new(alloc: Global) -> Self
        ensures { result.entries ≡ [] }
    {
        Volumes {
            entries: Vec::new(alloc),
            row_of: no_places(),
            rows: Vec::new(alloc),
        }
    }

    // How many there are.
    pub(crate) fn len(&self) -> usize
        ensures { result ≡ length self.now.entries }
    {
        self.entries.len()
    }

    // The place of a volume.
    pub(crate) fn place(&self, id: u16) -> Option<usize>
        ensures { result ≡ position (λ e. e.id == id) self.now.entries }
    {
        let place = place_by(&self.row_of, &self.rows, id);
        if place < self.entries.len() {
            Some(place)
        } else {
            None
        }
    }

    // The entry of a volume.
    pub(crate) fn get(&self, id: u16) -> Option<VolumeEntry>
        ensures { result ≡ find (λ e. e.id == id) self.now.entries }
    {
        self.at(place_by(&self.row_of, &self.rows, id))
    }

    // The entry at a place.
    pub(crate) fn at(&self, place: usize) -> Option<VolumeEntry>
        ensures { result ≡ slice_get self.now.entries place }
    {
        self.entries.get(place).copied()
    }

    // The first entry of a volume of that logical subsystem.
    pub(crate) fn first_of(&self, lss: u8) -> Option<VolumeEntry>
        ensures { result ≡ find (λ e. lss_of e.id == lss) self.now.entries }
    {
        self.entries
            .iter()
            .copied()
            .find(|e| VolumeId(e.id).lss().0 == lss)
    }

    // Makes room for one more volume. If there is no memory, the volumes stay as they were.
    pub(crate) fn reserve(&mut self) -> Result<(), AllocError>
        ensures entries { self.new.entries ≡ self.old.entries }
        ensures room { OnOk result (IsTrue self.new.room) }
    {
        self.entries.reserve(1)?;
        self.rows.reserve(1)
    }

    // Adds a volume that isn't there, the last in order, in room that was made.
    pub(crate) fn add(&mut self, entry: VolumeEntry)
        requires few { length self.old.entries < 64 }
        requires absent { position (λ e. e.id == entry.id) self.old.entries ≡ None }
        requires room { IsTrue self.old.room }
        ensures { self.new.entries ≡ self.old.entries ++ entry ∷ [] }
    {
        let lss = usize::from(entry.id / VOLUMES_OF_LSS);
        let low = usize::from(entry.id % VOLUMES_OF_LSS);
        let row = open_row(&mut self.row_of, &mut self.rows, lss);
        let place = self.entries.len() as u8;
        put_place(&mut self.rows, row, low, place);
        let _pushed = self.entries.push(entry);
    }
}

// The table with no rows, and the row with no places.
#[tactic(auto, unfolding(crate::specs::Volumes::no_places))]
fn no_places() -> Bytes
    ensures { result ≡ no_places }
{
    [NONE; 256]
}

// The place at which the tables find a volume.
#[tactic(auto, unfolding(crate::specs::Volumes::row_in, crate::specs::Volumes::place_in))]
fn place_by(row_of: &Bytes, rows: &Vec<Bytes>, id: u16) -> usize
    ensures { result ≡ place_by row_of.now rows.now.items id }
{
    let row = row_of[usize::from(id / VOLUMES_OF_LSS)];
    match rows.get(usize::from(row)) {
        Some(places) => usize::from(places[usize::from(id % VOLUMES_OF_LSS)]),
        None => usize::from(NONE),
    }
}

// The row of a logical subsystem; one that has none gets one with no places, in room that was made.
fn open_row(row_of: &mut Bytes, rows: &mut Vec<Bytes>, lss: usize) -> usize
    requires lss { lss < 256 }
    requires few { vec_len rows.old < 255 }
    requires room { vec_len rows.old < vec_capacity rows.old }
    requires tables { AreTables row_of.old rows.old.items }
    ensures row { result ≡ row_in row_of.new lss }
    ensures within { result < vec_len rows.new }
    ensures few { vec_len rows.new ≤ vec_len rows.old + 1 }
    ensures tables { AreTables row_of.new rows.new.items }
    ensures same { (v : ℕ) → place_by row_of.new rows.new.items v ≡ place_by row_of.old rows.old.items v }
{
    let own = row_of[lss];
    if own != NONE {
        return usize::from(own);
    }
    let row = rows.len();
    row_of[lss] = row as u8;
    let _pushed = rows.push(no_places());
    row
}

// Sets the place in a row for a low byte.
fn put_place(rows: &mut Vec<Bytes>, row: usize, low: usize, place: u8)
    requires row { row < vec_len rows.old }
    requires low { low < 256 }
    ensures { rows.new.items ≡ slice_set rows.old.items row (slice_set (slice_index_or rows.old.items row []) low place) }
{
    rows[row][low] = place;
}
