//! Whether a write that is held depends on a lost one.

ghost use Rattle.std.specs.Prelude.{◌≡◌, ℕ, ◌≤◌, nat_eq, Some, None, if◌then◌else◌, IsTrue, IfSome, IfNone};
ghost use Rattle.indexmap.specs.IndexSet.{contains};
ghost use Rattle.dr_model.specs.Dependence.{DependsOn};
ghost use Rattle.dr_lost.specs.Broken.{acknowledged_in, issued_in, told_at, IsFirstTold, IsFirstBroken};

use dr_model::{Event, Journal};
use indexmap::IndexSet;

/// A write that is held, and a lost one that had been acknowledged before it was issued.
#[derive(Clone, Copy)]
pub struct Broken {
    pub held: u32,
    pub lost: u32,
}

// Where a write was acknowledged.
#[derive(Clone, Copy)]
struct Acknowledged {
    place: usize,
    write: u32,
}

// A write, if it is one of some.
fn one_of(w: u32, among: &IndexSet<u32>) -> Option<u32>
    ensures { result ≡ (if contains nat_eq among.now w then Some w else None) }
{
    if among.contains(&w) { Some(w) } else { None }
}

// The write that an event acknowledges, if it is one of some.
fn acknowledged_in(event: &Event, among: &IndexSet<u32>) -> Option<u32>
    ensures { result ≡ acknowledged_in (contains nat_eq among.now) event.now }
{
    match *event {
        Event::Ack { w } => one_of(w, among),
        _ => None,
    }
}

// The write that an event issues, if it is one of some.
fn issued_in(event: &Event, among: &IndexSet<u32>) -> Option<u32>
    ensures { result ≡ issued_in (contains nat_eq among.now) event.now }
{
    match *event {
        Event::Issue { w, .. } => one_of(w, among),
        _ => None,
    }
}

// The write that the event at a place acknowledges, if there is one and it is one of some.
fn acknowledged_at(journal: &Journal, place: usize, among: &IndexSet<u32>) -> Option<u32>
    ensures { result ≡ told_at (acknowledged_in (contains nat_eq among.now)) journal.now.events place }
{
    acknowledged_in(journal.event(place)?, among)
}

// The write that the event at a place issues, if there is one and it is one of some.
fn issued_at(journal: &Journal, place: usize, among: &IndexSet<u32>) -> Option<u32>
    ensures { result ≡ told_at (issued_in (contains nat_eq among.now)) journal.now.events place }
{
    issued_in(journal.event(place)?, among)
}

// The first acknowledgement of one of some writes.
fn first_acknowledged(journal: &Journal, among: &IndexSet<u32>) -> Option<Acknowledged>
    ensures found { IfSome result (λ r. IsFirstTold (acknowledged_in (contains nat_eq among.now)) journal.now.events 0 r.place r.write) }
    ensures none { IfNone result ((i : ℕ) → told_at (acknowledged_in (contains nat_eq among.now)) journal.now.events i ≡ None) }
{
    for place in 0..journal.len() {
        if let Some(write) = acknowledged_at(journal, place, among) {
            return Some(Acknowledged { place, write });
        }
    }
    None
}

// The first of some writes that is issued from a place on.
fn first_issued(journal: &Journal, from: usize, among: &IndexSet<u32>) -> Option<u32>
    ensures found { IfSome result (λ w. (place : ℕ) × IsFirstTold (issued_in (contains nat_eq among.now)) journal.now.events from place w) }
    ensures none { IfNone result ((i : ℕ) → from ≤ i → told_at (issued_in (contains nat_eq among.now)) journal.now.events i ≡ None) }
{
    for place in from..journal.len() {
        if let Some(write) = issued_at(journal, place, among) {
            return Some(write);
        }
    }
    None
}

/// The first write by issue that is held and depends on a lost one, with the lost write that was acknowledged first; `None` exactly
/// where no write that is held depends on a lost one.
pub fn first_broken(journal: &Journal, held: &IndexSet<u32>, lost: &IndexSet<u32>) -> Option<Broken>
    ensures found { IfSome result (λ b. IsFirstBroken journal.now.events (contains nat_eq held.now) (contains nat_eq lost.now) b.held b.lost) }
    ensures none { IfNone result ((w u : ℕ) → IsTrue (contains nat_eq held.now w) → IsTrue (contains nat_eq lost.now u) → DependsOn journal.now.events w u → ⊥) }
{
    let first = first_acknowledged(journal, lost)?;
    let write = first_issued(journal, first.place, held)?;
    Some(Broken {
        held: write,
        lost: first.write,
    })
}
