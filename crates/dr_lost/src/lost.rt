//! The writes that second volumes held at the stop of the last server and the first volumes don't hold at the end, and those that volumes hold.

ghost use Rattle.std.specs.Prelude.{◌≡◌, ◌↔◌, ℕ, [], not, filter, nat_eq, IsTrue, IfOk, OnOk};
ghost use Rattle.indexmap.specs.IndexSet.{contains, insert_all};
ghost use Rattle.dr_ids.specs.Sizes.{most_tracks};
ghost use Rattle.dr_model.specs.Histories.{Histories};
ghost use Rattle.dr_lost.specs.Held.{StandsFor};
ghost use Rattle.dr_lost.specs.Lost.{each_once, lost_at, lost_by, lost_writes, held_by, held_writes, IsLost, IsHeld};

use crate::holdings::Holdings;
use dr_ids::MAX_TRACKS;
use indexmap::IndexSet;
use std::alloc::{AllocError, Global};

/// Two volumes whose lists are compared: what `second` held when the last server was stopped, and what `first` holds at the end.
#[derive(Clone, Copy)]
pub struct Pair {
    pub second: u16,
    pub first: u16,
}

// Adds writes to a set, in order.
fn add_all(set: &mut IndexSet<u32>, writes: &[u32]) -> Result<(), AllocError>
    ensures { OnOk result (set.new.keys ≡ insert_all nat_eq set.old.keys writes.now) }
{
    for w in writes {
        set.insert(*w)?;
    }
    Ok(())
}

/// The set of some writes. Fails for want of memory alone.
pub fn set_of(alloc: Global, writes: &[u32]) -> Result<IndexSet<u32>, AllocError>
    ensures { IfOk result (λ r. r.keys ≡ each_once writes.now) }
{
    let mut set = IndexSet::new(alloc);
    add_all(&mut set, writes)?;
    Ok(set)
}

// Takes the writes out that a set has.
fn keep_lacking(writes: &mut Vec<u32>, left: &IndexSet<u32>)
    ensures { writes.new.items ≡ filter (λ w. not (contains nat_eq left.now w)) writes.old.items }
{
    writes.retain(|w| !left.contains(w));
}

impl Holdings {
    /// What a pair lost at a track, in order: what its second volume holds here and its first one doesn't hold at the end.
    pub fn lost_at(&self, at_end: &Holdings, pair: Pair, track: u16) -> Result<Vec<u32>, AllocError>
        ensures { (a b : Histories) → StandsFor self.now a → StandsFor at_end.now b → IfOk result (λ r. r.items ≡ lost_at a.now b.now pair track) }
    {
        let mut writes = self.list(pair.second, track)?;
        let left = set_of(self.alloc(), &at_end.list(pair.first, track)?)?;
        keep_lacking(&mut writes, &left);
        Ok(writes)
    }

    // Adds what a pair lost at all tracks.
    fn add_lost(
        &self,
        at_end: &Holdings,
        pair: Pair,
        lost: &mut IndexSet<u32>,
    ) -> Result<(), AllocError>
        ensures { (a b : Histories) → StandsFor self.now a → StandsFor at_end.now b → OnOk result (lost.new.keys ≡ insert_all nat_eq lost.old.keys (lost_by most_tracks a.now b.now pair)) }
    {
        for track in 0..MAX_TRACKS {
            add_all(lost, &self.lost_at(at_end, pair, track)?)?;
        }
        Ok(())
    }

    /// What pairs lost, in their order, each write once. Fails for want of memory alone.
    pub fn lost(&self, at_end: &Holdings, pairs: &[Pair]) -> Result<IndexSet<u32>, AllocError>
        ensures writes { (a b : Histories) → StandsFor self.now a → StandsFor at_end.now b → IfOk result (λ r. r.keys ≡ lost_writes a.now b.now pairs.now) }
        ensures members { (a b : Histories) → StandsFor self.now a → StandsFor at_end.now b → IfOk result (λ r. (w : ℕ) → IsTrue (contains nat_eq r w) ↔ IsLost most_tracks a.now b.now pairs.now w) }
    {
        let mut lost = IndexSet::new(self.alloc());
        for pair in pairs {
            self.add_lost(at_end, *pair, &mut lost)?;
        }
        Ok(lost)
    }

    // Adds what a volume holds at all tracks.
    fn add_held(&self, volume: u16, held: &mut IndexSet<u32>) -> Result<(), AllocError>
        ensures { (h : Histories) → StandsFor self.now h → OnOk result (held.new.keys ≡ insert_all nat_eq held.old.keys (held_by most_tracks h.now volume)) }
    {
        for track in 0..MAX_TRACKS {
            add_all(held, &self.list(volume, track)?)?;
        }
        Ok(())
    }

    /// What volumes hold, in their order, each write once. Fails for want of memory alone.
    pub fn held(&self, volumes: &[u16]) -> Result<IndexSet<u32>, AllocError>
        ensures writes { (h : Histories) → StandsFor self.now h → IfOk result (λ r. r.keys ≡ held_writes h.now volumes.now) }
        ensures members { (h : Histories) → StandsFor self.now h → IfOk result (λ r. (w : ℕ) → IsTrue (contains nat_eq r w) ↔ IsHeld most_tracks h.now volumes.now w) }
    {
        let mut held = IndexSet::new(self.alloc());
        for volume in volumes {
            self.add_held(*volume, &mut held)?;
        }
        Ok(held)
    }
}
