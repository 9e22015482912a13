//! Which server of a disaster stopped first in a step.

ghost use Rattle.std.specs.Prelude.{◌≡◌, ◌≤◌, length, slice_get};
ghost use Rattle.std.specs.Option.{option_copied, option_map_or, option_and_then};
ghost use Rattle.dr_model.specs.Text.{heard};
ghost use Rattle.dr_list.specs.Seen.{heard_seen};
ghost use Rattle.dr_sweep.specs.Reach.{server_of, told_before, stopped_by, stopped_since, stop_by, stop_since, is_own};

use dr_list::Heard;
use dr_model::{Event, Journal, Name};
use dr_plan::name_bytes;

/// Of a disaster's servers, whose stop came first in a step.
#[derive(Clone, Copy)]
pub(crate) enum FirstStop {
    /// That of the server that is to be cut short there.
    Own,
    /// That of another one, at this place in the disaster.
    Other(usize),
    /// None of them stopped.
    Nobody,
}

/// Hears an event, if there is one.
fn hear_at(told: &mut Heard, event: Option<&Event>)
    ensures { heard_seen told.new ≡ option_map_or (λ e. heard (heard_seen told.old) e) (option_copied event.entry) (heard_seen told.old) }
{
    if let Some(event) = event {
        told.hear(event);
    }
}

/// What the journal's first events tell of names.
fn told_before(journal: &Journal, from: usize) -> Heard
    requires { from ≤ length journal.now.events }
    ensures { heard_seen result ≡ told_before from journal.now.events }
{
    let mut told = Heard::new();
    for i in 0..from {
        hear_at(&mut told, journal.event(i));
    }
    told
}

/// The place of a server among some.
pub(crate) fn server_of(names: &[Name], server: &[u8]) -> Option<usize>
    ensures { result ≡ server_of names.now server.now }
{
    names.iter().position(|name| name_bytes(name) == server)
}

/// The place among some servers of the one whose stop the event tells.
fn stopped_by(told: &Heard, names: &[Name], event: &Event) -> Option<usize>
    ensures { result ≡ stopped_by (heard_seen told.now) names.now event.now }
{
    match *event {
        Event::Stopped { server, .. } => server_of(names, told.name(u32::from(server))),
        _ => None,
    }
}

/// The same of the event at a place.
fn stopped_at(journal: &Journal, told: &Heard, names: &[Name], place: usize) -> Option<usize>
    ensures { result ≡ option_and_then (stopped_by (heard_seen told.now) names.now) (slice_get journal.now.events place) }
{
    stopped_by(told, names, journal.event(place)?)
}

/// The place among some servers of the one whose stop the journal tells first, from a place on.
fn first_stopped(journal: &Journal, names: &[Name], from: usize) -> Option<usize>
    requires { from ≤ length journal.now.events }
    ensures { result ≡ slice_get (stopped_since names.now from journal.now.events) 0 }
{
    let told = told_before(journal, from);
    for place in from..journal.len() {
        if let Some(found) = stopped_at(journal, &told, names, place) {
            return Some(found);
        }
    }
    None
}

fn stop_by(server: usize, first: Option<usize>) -> FirstStop
    ensures { result ≡ stop_by server first }
{
    match first {
        None => FirstStop::Nobody,
        Some(other) => {
            if other == server {
                FirstStop::Own
            } else {
                FirstStop::Other(other)
            }
        }
    }
}

/// Of some servers, whose stop the journal tells first from a place on, to the one at a place.
pub(crate) fn stop_since(journal: &Journal, names: &[Name], server: usize, from: usize) -> FirstStop
    requires { from ≤ length journal.now.events }
    ensures { result ≡ stop_since names.now server from journal.now.events }
{
    stop_by(server, first_stopped(journal, names, from))
}

/// Whether it is that of the server that is to be cut short.
pub(crate) fn is_own(stop: FirstStop) -> bool
    ensures { result ≡ is_own stop }
{
    matches!(stop, FirstStop::Own)
}
