//! The lists of host writes that tracks hold, event by event.

ghost use Rattle.std.specs.Prelude.{ℕ, ◌≤◌, length};
ghost use Rattle.dr_lost.specs.Nodes.{AreEarlier};
ghost use Rattle.dr_lost.specs.Within.{AreWithin};

use crate::nodes::{Node, add_node, writes_of};
use crate::places::{Place, Places, place_at, put_place};
use crate::rows::{Rows, cell, put_row, row_of, set_cell};
use dr_model::Event;
use indexmap::IndexMap;
use std::alloc::{AllocError, Global};

/// Which host writes each track holds, and which it keeps aside, after the events that were heard. An event takes at most a step
/// for each track of a volume, and no copy of a list: lists share their beginnings.
#[derive(Drop)]
pub struct Holdings {
    alloc: Global,
    nodes: Vec<Node>,
    current: Rows,
    aside: Rows,
    places: Places,
    ghost earlier: { AreEarlier nodes.items },
    ghost current_within: { AreWithin nodes.items current.entries },
    ghost aside_within: { AreWithin nodes.items aside.entries },
}

impl Holdings {
    ghost use Rattle.std.specs.Prelude.{◌≡◌, List, ◌∷◌, ◌++◌, [], Some, IfOk};
    ghost use Rattle.dr_logic.specs.Tables.{at, at2};
    ghost use Rattle.dr_model.specs.Histories.{Histories, no_history, joined, after_event};
    ghost use Rattle.dr_lost.specs.Held.{StandsFor, Becomes};

    /// Before the first event: each list is empty, and no write was issued.
    pub fn new(alloc: Global) -> Self
        ensures { StandsFor result no_history }
    {
        Holdings {
            alloc,
            nodes: Vec::new(alloc),
            current: IndexMap::new(alloc),
            aside: IndexMap::new(alloc),
            places: IndexMap::new(alloc),
        }
    }

    // Where memory comes from.
    pub(crate) fn alloc(&self) -> Global {
        self.alloc
    }

    /// The writes that a track holds, first to last.
    pub fn list(&self, volume: u16, track: u16) -> Result<Vec<u32>, AllocError>
        ensures { (h : Histories) → StandsFor self.now h → IfOk result (λ r. r.items ≡ h.now volume track) }
    {
        writes_of(&self.nodes, self.alloc, cell(&self.current, volume, track))
    }

    /// Hears one event more. Fails for want of memory alone, and then stands for what it stood for before.
    pub fn hear(&mut self, event: &Event) -> Result<(), AllocError>
        ensures { Becomes self.old self.new result (λ h. after_event h event.now) }
    {
        match *event {
            Event::Volume { volume, .. } => self.define(volume),
            Event::Issue {
                w,
                volume,
                track,
                ..
            } => self.issue(w, Place { volume, track }),
            Event::Ack { w } => self.acknowledge(w),
            Event::Mirrored { w, volume } => self.mirror(w, volume),
            Event::Sent { volume, track, to } => self.send(volume, track, to),
            Event::Flashed { source, target, .. } => self.flash(source, target),
            Event::Committed { target, .. } => self.commit(target),
            Event::Reverted { target, .. } => self.revert(target),
            Event::Set { volume, from } => self.set(volume, from),
            Event::Back {
                volume,
                track,
                from,
            } => self.send(from, track, volume),
            Event::Blanked { volume, track } => self.blank(volume, track),
            _ => Ok(()),
        }
    }

    // A write has its place.
    fn issue(&mut self, w: u32, place: Place) -> Result<(), AllocError>
        ensures { (offset : ℕ) (bytes : List ℕ) → Becomes self.old self.new result (λ h. record h { write = at h.write w (record { volume = place.volume; track = place.track; offset = offset; bytes = bytes }) }) }
    {
        put_place(&mut self.places, w, place)
    }

    // A write joins the list of its own track.
    fn acknowledge(&mut self, w: u32) -> Result<(), AllocError>
        ensures { Becomes self.old self.new result (λ h. record h { now = at2 h.now (h.write w).volume (h.write w).track (joined h w) }) }
    {
        let place = place_at(&self.places, w);
        self.join(w, place, place.volume)
    }

    // A secondary holds the list of a write's own track, with the write at its end.
    fn mirror(&mut self, w: u32, secondary: u16) -> Result<(), AllocError>
        ensures { Becomes self.old self.new result (λ h. record h { now = at2 h.now secondary (h.write w).track (joined h w) }) }
    {
        let place = place_at(&self.places, w);
        self.join(w, place, secondary)
    }

    // A volume holds the list of a place, with a write at its end, at the track of that place.
    fn join(&mut self, w: u32, place: Place, to: u16) -> Result<(), AllocError>
        ensures { Becomes self.old self.new result (λ h. record h { now = at2 h.now to place.track (h.now place.volume place.track ++ w ∷ []) }) }
    {
        let before = cell(&self.current, place.volume, place.track);
        let node = add_node(&mut self.nodes, w, before)?;
        set_cell(&mut self.current, self.alloc, to, place.track, node)
    }

    // A track holds what another volume's does.
    fn send(&mut self, from: u16, track: u16, to: u16) -> Result<(), AllocError>
        ensures { Becomes self.old self.new result (λ h. record h { now = at2 h.now to track (h.now from track) }) }
    {
        let node = cell(&self.current, from, track);
        set_cell(&mut self.current, self.alloc, to, track, node)
    }

    // A track holds nothing.
    fn blank(&mut self, volume: u16, track: u16) -> Result<(), AllocError>
        ensures { Becomes self.old self.new result (λ h. record h { now = at2 h.now volume track [] }) }
    {
        set_cell(&mut self.current, self.alloc, volume, track, 0)
    }

    // A volume that is defined, with any number of tracks, holds nothing.
    fn define(&mut self, volume: u16) -> Result<(), AllocError>
        ensures { (tracks : ℕ) → Becomes self.old self.new result (λ h. record h { now = at h.now volume (λ t. []); tracks = at h.tracks volume (Some tracks) }) }
    {
        put_row(&mut self.current, volume, Vec::new(self.alloc))
    }

    // A volume holds what another one does.
    fn set(&mut self, volume: u16, from: u16) -> Result<(), AllocError>
        ensures { Becomes self.old self.new result (λ h. record h { now = at h.now volume (h.now from) }) }
    {
        let row = row_of(&self.current, self.alloc, from)?;
        put_row(&mut self.current, volume, row)
    }

    // A target takes what its source holds, and keeps aside what it held.
    fn flash(&mut self, source: u16, target: u16) -> Result<(), AllocError>
        ensures { Becomes self.old self.new result (λ h. record h { aside = at h.aside target (h.now target); now = at h.now target (h.now source) }) }
    {
        let kept = row_of(&self.current, self.alloc, target)?;
        let taken = row_of(&self.current, self.alloc, source)?;

        // Room is made first, so that both rows are put, or none.
        self.current.reserve(1)?;
        put_row(&mut self.aside, target, kept)?;
        put_row(&mut self.current, target, taken)
    }

    // A target keeps nothing aside.
    fn commit(&mut self, target: u16) -> Result<(), AllocError>
        ensures { Becomes self.old self.new result (λ h. record h { aside = at h.aside target (λ t. []) }) }
    {
        put_row(&mut self.aside, target, Vec::new(self.alloc))
    }

    // A target holds what it kept aside.
    fn revert(&mut self, target: u16) -> Result<(), AllocError>
        ensures { Becomes self.old self.new result (λ h. record h { now = at h.now target (h.aside target) }) }
    {
        let row = row_of(&self.aside, self.alloc, target)?;
        put_row(&mut self.current, target, row)
    }
}
