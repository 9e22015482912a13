//! What a journal tells of acknowledgements.

ghost use Rattle.std.specs.Prelude.{◌≡◌, ◌<◌, ◌≤◌, ◌++◌, [], IfOk, IfSome, OnOk, count_by, length, take, drop};
ghost use Rattle.std.specs.List.{cons_option, filter_map, position};
ghost use Rattle.dr_sweep.specs.Acks.{among, acked_by, acked_in, newer, newest_in, issued_by, issued_on, count_since, age_of, volume_by, written_in};

use dr_lost::set_of;
use dr_model::{Event, Journal};
use indexmap::IndexSet;
use std::alloc::{AllocError, Global};

/// The write that an event acknowledges.
fn acked_by(event: &Event) -> Option<u32>
    ensures { result ≡ acked_by event.now }
{
    match *event {
        Event::Ack { w } => Some(w),
        _ => None,
    }
}

/// The write that was acknowledged last: that of an event, or an earlier one.
fn newer(before: Option<u32>, event: &Event) -> Option<u32>
    ensures { result ≡ newer before event.now }
{
    match *event {
        Event::Ack { w } => Some(w),
        _ => before,
    }
}

/// Adds what there is.
fn push_some<T: Drop>(all: &mut Vec<T>, one: Option<T>) -> Result<(), AllocError>
    ensures { OnOk result (all.new.items ≡ all.old.items ++ cons_option one []) }
{
    if let Some(one) = one {
        all.push(one)?;
    }
    Ok(())
}

/// The writes that were acknowledged in the first events of a journal, in order.
fn acked(alloc: Global, journal: &Journal, end: usize) -> Result<Vec<u32>, AllocError>
    requires { end ≤ length journal.now.events }
    ensures { IfOk result (λ writes. writes.items ≡ acked_in (take end journal.now.events)) }
{
    let mut writes = Vec::new(alloc);
    for place in 0..end {
        push_some(&mut writes, acked_by(journal.event(place).unwrap()))?;
    }
    Ok(writes)
}

/// The write that was acknowledged last in the first events of a journal.
pub(crate) fn newest(journal: &Journal, end: usize) -> Option<u32>
    requires { end ≤ length journal.now.events }
    ensures { result ≡ newest_in (take end journal.now.events) }
{
    let mut last = None;
    for place in 0..end {
        last = newer(last, journal.event(place).unwrap());
    }
    last
}

/// A volume is one of some.
fn is_one(volumes: &[u16], volume: u16) -> bool
    ensures { result ≡ among volumes.now volume }
{
    volumes.iter().any(|v| volume == *v)
}

/// The write that an event issues on one of some volumes.
fn issued_by(volumes: &[u16], event: &Event) -> Option<u32>
    ensures { result ≡ issued_by volumes.now event.now }
{
    match *event {
        Event::Issue { w, volume, .. } if is_one(volumes, volume) => Some(w),
        _ => None,
    }
}

/// The writes that were issued on some volumes in the first events of a journal.
fn issued_on(
    alloc: Global,
    journal: &Journal,
    end: usize,
    volumes: &[u16],
) -> Result<Vec<u32>, AllocError>
    requires { end ≤ length journal.now.events }
    ensures { IfOk result (λ writes. writes.items ≡ issued_on volumes.now (take end journal.now.events)) }
{
    let mut writes = Vec::new(alloc);
    for place in 0..end {
        push_some(
            &mut writes,
            issued_by(volumes, journal.event(place).unwrap()),
        )?;
    }
    Ok(writes)
}

/// The place of the first of some writes that is lost.
fn first_lost(writes: &[u32], lost: &IndexSet<u32>) -> Option<usize>
    ensures place { result ≡ position (among lost.now.keys) writes.now }
    ensures within { IfSome result (λ place. place < length writes.now) }
{
    writes.iter().position(|w| lost.contains(w))
}

/// How many of some writes are in a set.
fn count_in(writes: &[u32], set: &IndexSet<u32>) -> usize
    ensures { result ≡ count_by (among set.now.keys) writes.now }
{
    writes.iter().filter(|w| set.contains(*w)).count()
}

/// How many writes were acknowledged on some volumes in the first events of a journal, from the first acknowledgement of a lost write on.
pub(crate) fn age(
    alloc: Global,
    journal: &Journal,
    end: usize,
    volumes: &[u16],
    lost: &IndexSet<u32>,
) -> Result<usize, AllocError>
    requires { end ≤ length journal.now.events }
    ensures { IfOk result (λ age. age ≡ age_of lost.now.keys volumes.now (take end journal.now.events)) }
{
    let writes = acked(alloc, journal, end)?;
    let Some(first) = first_lost(&writes, lost) else {
        return Ok(0);
    };
    let issued = issued_on(alloc, journal, end, volumes)?;
    let set = set_of(alloc, &issued)?;
    Ok(count_in(&writes[first..], &set))
}

/// The volume on which an event issues one of some writes.
fn volume_by(writes: &IndexSet<u32>, event: &Event) -> Option<u16>
    ensures { result ≡ volume_by writes.now.keys event.now }
{
    match *event {
        Event::Issue { w, volume, .. } if writes.contains(&w) => Some(volume),
        _ => None,
    }
}

/// The volumes on which one of some writes was issued.
fn volumes_of(
    alloc: Global,
    journal: &Journal,
    writes: &IndexSet<u32>,
) -> Result<Vec<u16>, AllocError>
    ensures { IfOk result (λ volumes. volumes.items ≡ filter_map (volume_by writes.now.keys) journal.now.events) }
{
    let mut volumes = Vec::new(alloc);
    for place in 0..journal.len() {
        push_some(
            &mut volumes,
            volume_by(writes, journal.event(place).unwrap()),
        )?;
    }
    Ok(volumes)
}

/// The volumes on which a write was acknowledged.
pub(crate) fn written(alloc: Global, journal: &Journal) -> Result<Vec<u16>, AllocError>
    ensures { IfOk result (λ volumes. volumes.items ≡ written_in journal.now.events) }
{
    let writes = acked(alloc, journal, journal.len())?;
    let set = set_of(alloc, &writes)?;
    volumes_of(alloc, journal, &set)
}
