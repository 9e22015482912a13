//! Where each host write goes.

ghost use Rattle.std.specs.Prelude.{◌≡◌, ℕ, OnOk, OnErr};
ghost use Rattle.dr_logic.specs.Tables.{at};
ghost use Rattle.dr_lost.specs.Places.{place_in};

use indexmap::IndexMap;
use std::alloc::AllocError;

/// The volume and the track that a host write goes to.
#[derive(Clone, Copy)]
pub(crate) struct Place {
    pub(crate) volume: u16,
    pub(crate) track: u16,
}

/// The places of the writes that were issued, by the number of the write.
pub(crate) type Places = IndexMap<u32, Place>;

// Where a write goes; volume 0 and track 0 where it was never issued.
pub(crate) fn place_at(places: &Places, w: u32) -> Place
    ensures { result ≡ place_in places.now.entries w }
{
    places.get(&w).copied().unwrap_or(Place {
        volume: 0,
        track: 0,
    })
}

// Notes where a write goes.
pub(crate) fn put_place(places: &mut Places, w: u32, place: Place) -> Result<(), AllocError>
    ensures put { OnOk result (place_in places.new.entries ≡ at (place_in places.old.entries) w place) }
    ensures same { OnErr result (places.new.entries ≡ places.old.entries) }
{
    places.insert(w, place)?;
    Ok(())
}
