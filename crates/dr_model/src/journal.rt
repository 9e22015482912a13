ghost use Rattle.std.specs.Prelude.{◌≡◌, ℕ, ◌+◌, ◌<◌, ◌≤◌, [], ◌∷◌, ◌++◌, length, slice_get, OnOk, OnErr, max};
ghost use Rattle.std.specs.Option.{option_copied};
ghost use Rattle.dr_model.specs.Limits.{most_events};
ghost use Rattle.dr_model.specs.Log.{memory_for};

use crate::event::Event;
use dr_ids::MOST_EVENTS;
use std::alloc::{AllocError, Global};
use std::marker::Model;

const _: () = prove!(size_of::<Event>() <= 96);

/// For how many events a journal takes memory first.
const FIRST_EVENTS: usize = 8192;

/// How many sizes there are below that of the most events: each is twice the one before.
const SIZES: u32 = 7;

/// For how many events a journal of so many has memory.
fn memory_for(events: usize) -> usize
    ensures { result ≡ memory_for events }
{
    if events == 0 {
        return 0;
    }
    let mut size = FIRST_EVENTS;
    let mut more = SIZES;
    while more > 0 {
        if events <= size {
            return size;
        }
        size = (size * 2).min(MOST_EVENTS);
        more -= 1;
    }
    MOST_EVENTS
}

/// The events of a run, in order, and how many more fit without asking for memory.
#[derive(Drop)]
pub struct Journal {
    events: Vec<Event>,
    spare: usize,
}

impl Model for Journal {
    ghost use Rattle.std.specs.Prelude.{◌+◌, ◌≤◌, vec_len, vec_capacity};
    ghost use Rattle.dr_model.specs.Log.{Log, memory_for};

    ghost Value = { Log };

    ghost view = { λ j. record { events = j.events.items; spare = j.spare } };

    ghost invariant = { λ j. (vec_len j.events + j.spare ≤ vec_capacity j.events) × (memory_for (vec_len j.events + j.spare) ≤ vec_capacity j.events) };
}

impl Journal {
    /// An empty journal.
    pub fn new(alloc: Global) -> Self
        ensures events { result.events ≡ [] }
        ensures spare { result.spare ≡ 0 }
    {
        Journal {
            events: Vec::new(alloc),
            spare: 0,
        }
    }

    /// Makes room for `room` more events: the memory doubles up to the most events of a run, and no further. Fails for want of memory
    /// alone, and then changes nothing. It fails only where fewer are spare (`wanted`), and where the journal with them is of a
    /// greater size than before (`grows`): so never where its memory is that of the most events.
    pub fn reserve(&mut self, room: usize) -> Result<(), AllocError>
        ensures events { self.new.events ≡ self.old.events }
        ensures room { OnOk result (self.new.spare ≡ max self.old.spare room) }
        ensures err { OnErr result (self.new.spare ≡ self.old.spare) }
        ensures wanted { OnErr result (self.old.spare < room) }
        ensures grows { OnErr result (length self.old.events + room ≤ most_events
            → memory_for (length self.old.events + self.old.spare) < memory_for (length self.old.events + room)) }
    {
        if room <= self.spare {
            return Ok(());
        }
        let len = self.events.len();
        let memory = memory_for(len.saturating_add(room));
        self.events
            .reserve_exact(room.max(memory.saturating_sub(len)))?;
        self.spare = room;
        Ok(())
    }

    /// Adds an event at the end, in room that was reserved.
    pub fn push(&mut self, event: Event)
        requires { 0 < self.old.spare }
        ensures events { self.new.events ≡ self.old.events ++ event ∷ [] }
        ensures spare { self.new.spare + 1 ≡ self.old.spare }
    {
        let _pushed = self.events.push(event);
        self.spare -= 1;
    }

    /// How many events there are.
    pub fn len(&self) -> usize
        ensures { result ≡ length self.now.events }
    {
        self.events.len()
    }

    /// The event at a place, counted from 0; `None` exactly where the place isn't below the length.
    pub fn event(&self, place: usize) -> Option<&Event>
        ensures { option_copied result ≡ slice_get self.now.events place }
    {
        self.events.get(place)
    }
}
