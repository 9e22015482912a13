//! The masters that are lost as a step ends: those whose servers were on as it began, and are off now. For each of them an epoch
//! begins.

ghost use Rattle.std.specs.Prelude.{◌≡◌, ℕ, ◌<◌, ◌&&◌, not, false, map, get_or, if◌then◌else◌};
ghost use Rattle.dr_ctl.specs.Kept.{flight_in};
ghost use Rattle.dr_model.specs.Messages as messages;
ghost use Rattle.dr_model.specs.Sessions as model;
ghost use Rattle.dr_plant.specs.State.{PlantState};
ghost use Rattle.dr_volume.specs.View.{on_seen};

use crate::messages::raise_if;
use dr_ctl::Flight;
use dr_ids::{MOST_SERVERS, ServerId, SessionId};
use dr_plant::Plant;
use dr_session::Sessions;

/// Which of the servers are on.
pub fn servers_on<P: Plant>(plant: &P) -> [bool; MOST_SERVERS]
    ensures { (k : ℕ) → k < 8 → get_or result k false ≡ (P.state plant.now).on k }
{
    let mut on = [false; MOST_SERVERS];
    for server in 0..MOST_SERVERS as u8 {
        on[server as usize] = plant.is_on(server);
    }
    on
}

/// The masters of a server are lost where it was on and is off now.
fn lose_stopped(sessions: &mut Sessions, server: ServerId, was_on: bool, is_on: bool)
    ensures { sessions.new ≡ record sessions.old { sessions = if was_on && not is_on then map (model.lost_with server.0) sessions.old.sessions else sessions.old.sessions } }
{
    if was_on && !is_on {
        sessions.lose_server(server);
    }
}

/// Each master whose server was on before and is off now is lost.
fn lose_all<P: Plant>(plant: &P, before: &[bool; MOST_SERVERS], sessions: &mut Sessions)
    ensures { (s : PlantState) → ((k : ℕ) → k < 8 → get_or before.now k false ≡ s.on k)
        → sessions.new ≡ record sessions.old { sessions = model.lost_since (on_seen s) (on_seen (P.state plant.now)) sessions.old.sessions } }
{
    for server in 0..MOST_SERVERS as u8 {
        let is_on = plant.is_on(server);
        lose_stopped(sessions, ServerId(server), before[server as usize], is_on);
    }
}

/// Whether a server was on before and is off now.
fn has_stopped<P: Plant>(plant: &P, before: &[bool; MOST_SERVERS], server: ServerId) -> bool
    ensures { result ≡ (get_or before.now server.0 false && not (on_seen (P.state plant.now) server.0)) }
{
    match before.get(usize::from(server.0)) {
        Some(was_on) => *was_on && !plant.is_on(server.0),
        None => false,
    }
}

/// Whether the session has a master that is lost: its server was on before and is off now, and the session has members.
fn loses_master<P: Plant>(
    plant: &P,
    before: &[bool; MOST_SERVERS],
    sessions: &Sessions,
    s: SessionId,
) -> bool
    ensures { result ≡ messages.loses_master (λ k. get_or before.now k false) (on_seen (P.state plant.now)) (model.mirror_in (model.session_in sessions.now.sessions s.0)) }
{
    match sessions.master_server(s) {
        Some(server) => has_stopped(plant, before, server) && sessions.can_lose_master(s),
        None => false,
    }
}

/// An epoch begins for each session that has a master whose server was on before and is off now.
fn raise_epochs<P: Plant>(
    plant: &P,
    before: &[bool; MOST_SERVERS],
    sessions: &Sessions,
    flight: &mut Flight,
)
    requires count { (s : ℕ) → (flight_in flight.old).epoch s < 4294967295 }
    ensures raised { flight_in flight.new
        ≡ messages.lost_since (λ k. get_or before.now k false) (on_seen (P.state plant.now)) sessions.now.sessions (flight_in flight.old) }
{
    let mut at = 0;
    while let Some(s) = sessions.session_at(at) {
        let lost = loses_master(plant, before, sessions, s);
        raise_if(flight, s, lost);
        at += 1;
    }
}

/// Each master whose server was on before and is off now is lost, and for each of them an epoch begins.
pub fn lose_masters<P: Plant>(
    plant: &P,
    before: &[bool; MOST_SERVERS],
    sessions: &mut Sessions,
    flight: &mut Flight,
)
    requires count { (s : ℕ) → (flight_in flight.old).epoch s < 4294967295 }
    ensures sessions { (s : PlantState) → ((k : ℕ) → k < 8 → get_or before.now k false ≡ s.on k)
        → sessions.new ≡ record sessions.old { sessions = model.lost_since (on_seen s) (on_seen (P.state plant.now)) sessions.old.sessions } }
    ensures flight { (s : PlantState) → ((k : ℕ) → k < 8 → get_or before.now k false ≡ s.on k)
        → flight_in flight.new ≡ messages.lost_since (on_seen s) (on_seen (P.state plant.now)) sessions.old.sessions (flight_in flight.old) }
{
    if sessions.session_at(0).is_none() {
        return;
    }
    raise_epochs(plant, before, sessions, flight);
    lose_all(plant, before, sessions);
}
