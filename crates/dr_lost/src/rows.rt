//! Tables of the numbers of nodes, by volume and track.

ghost use Rattle.std.specs.Prelude.{◌≡◌, ◌<◌, OnOk, OnErr, IfOk, IsOk, length, slice_index};
ghost use Rattle.indexmap.specs.IndexMap.{spare};
ghost use Rattle.dr_logic.specs.Tables.{at, at2};
ghost use Rattle.dr_lost.specs.Rows.{cells};

use indexmap::IndexMap;
use std::alloc::{AllocError, Global};

/// Of each volume the numbers of its tracks' nodes, by track. Node 0 stands past the end of a row.
pub(crate) type Rows = IndexMap<u16, Vec<usize>>;

// The number at a track.
fn at_track(row: &[usize], track: u16) -> usize
    ensures { result ≡ slice_index row.now track }
{
    row.get(usize::from(track)).copied().unwrap_or(0)
}

// The number of the node of a volume's track.
pub(crate) fn cell(rows: &Rows, volume: u16, track: u16) -> usize
    ensures { result ≡ cells rows.now.entries volume track }
{
    match rows.get(&volume) {
        Some(row) => at_track(row, track),
        None => 0,
    }
}

// A copy of a volume's row.
pub(crate) fn row_of(rows: &Rows, alloc: Global, volume: u16) -> Result<Vec<usize>, AllocError>
    ensures { IfOk result (λ r. slice_index r.items ≡ cells rows.now.entries volume) }
{
    match rows.get(&volume) {
        Some(row) => Vec::from_slice(alloc, row),
        None => Ok(Vec::new(alloc)),
    }
}

// Puts a row in the place of a volume's.
pub(crate) fn put_row(rows: &mut Rows, volume: u16, row: Vec<usize>) -> Result<(), AllocError>
    ensures put { OnOk result (cells rows.new.entries ≡ at (cells rows.old.entries) volume (slice_index row.items)) }
    ensures same { OnErr result (rows.new.entries ≡ rows.old.entries) }
    ensures succeeds { 0 < spare rows.old → IsOk result }
{
    rows.insert(volume, row)?;
    Ok(())
}

// Lengthens a row until it has a place; node 0 stands at the places that are new.
fn widen(row: &mut Vec<usize>, place: usize) -> Result<(), AllocError>
    requires { place < 65536 }
    ensures within { OnOk result (place < length row.new.items) }
    ensures same { slice_index row.new.items ≡ slice_index row.old.items }
{
    if row.len() <= place {
        row.resize(place + 1, 0)?;
    }
    Ok(())
}

// Puts a number at a track of a row.
fn set_track(row: &mut Vec<usize>, track: u16, node: usize) -> Result<(), AllocError>
    ensures set { OnOk result (slice_index row.new.items ≡ at (slice_index row.old.items) track node) }
    ensures same { OnErr result (slice_index row.new.items ≡ slice_index row.old.items) }
{
    let place = usize::from(track);
    widen(row, place)?;
    row[place] = node;
    Ok(())
}

// Puts a number at a volume's track.
pub(crate) fn set_cell(
    rows: &mut Rows,
    alloc: Global,
    volume: u16,
    track: u16,
    node: usize,
) -> Result<(), AllocError>
    ensures set { OnOk result (cells rows.new.entries ≡ at2 (cells rows.old.entries) volume track node) }
    ensures same { OnErr result (cells rows.new.entries ≡ cells rows.old.entries) }
{
    if let Some(row) = rows.get_mut(&volume) {
        return set_track(row, track, node);
    }
    let mut row = Vec::new(alloc);
    set_track(&mut row, track, node)?;
    put_row(rows, volume, row)
}
