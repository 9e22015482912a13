//! The listing of masters.

ghost use Rattle.std.specs.Prelude.{◌≡◌, ◌+◌, ◌<◌, ◌≤◌, ◌++◌, [], map, Some, if◌then◌else◌};
ghost use Rattle.std.specs.List.{flat_map};
ghost use Rattle.dr_model.specs.Answers.{phase_place};
ghost use Rattle.dr_model.specs.Control.{Control};
ghost use Rattle.dr_model.specs.Listings as listings;
ghost use Rattle.dr_model.specs.Sessions as model;
ghost use Rattle.dr_model.specs.Tables.{Once};
ghost use Rattle.dr_listing.specs.Told.{lines_of};

use crate::lines::push;
use dr_ids::{Lss, PhaseName, SessionId};
use dr_model::{Event, Journal};
use dr_session::Sessions;

/// The number of a phase in a line.
fn phase_number(phase: PhaseName) -> u8
    ensures { result ≡ phase_place phase }
{
    match phase {
        PhaseName::None => 0,
        PhaseName::Idle => 1,
        PhaseName::Coordinating => 2,
        PhaseName::Releasing => 3,
        PhaseName::Draining => 4,
        PhaseName::Flashing => 5,
        PhaseName::Committing => 6,
        PhaseName::Reverting => 7,
        PhaseName::Finishing => 8,
        PhaseName::Lost => 9,
    }
}

/// The line of a session's master, if it has one.
fn master_line(sessions: &Sessions, s: SessionId, line: u32) -> Option<Event>
    ensures { lines_of result ≡ listings.mirror_lines line s.0 (model.mirror_in (model.session_in sessions.now.sessions s.0)) }
{
    let master = sessions.master(s)?;
    let server = sessions.master_server(s)?;
    Some(Event::MirrorLine {
        line,
        session: s.0,
        server: server.0,
        phase: phase_number(master.phase()),
        n: master.number(),
        paused: sessions.is_paused(s),
    })
}

/// The same, if the logical subsystem is one of the session's.
fn line_of(sessions: &Sessions, s: SessionId, lss: Lss, line: u32) -> Option<Event>
    ensures line { (x : model.Session) → model.session_in sessions.now.sessions s.0 ≡ Some x → x.number ≡ s.0
        → lines_of result ≡ (if model.has_subsystem lss.0 x then listings.mirror_lines line x.number x.mirror else []) }
    ensures low { s.0 < 256 }
{
    if !sessions.has_lss(s, lss) {
        return None;
    }
    master_line(sessions, s, line)
}

/// Lists the masters of the sessions that have the logical subsystem, in order: at most one line for each number of a session.
pub fn mirrors(sessions: &Sessions, lss: Lss, line: u32, journal: &mut Journal)
    requires apart { Once (map (λ (x : model.Session). x.number) sessions.now.sessions) }
    requires room { 256 ≤ journal.old.spare }
    ensures told { (k : Control) → k.sessions ≡ sessions.now.sessions → journal.new.events ≡ journal.old.events
        ++ flat_map (λ x. listings.mirror_lines line x.number x.mirror) (listings.sessions_of k lss.0) }
    ensures left { journal.old.spare ≤ journal.new.spare + 256 }
{
    let mut at = 0;
    while let Some(s) = sessions.session_at(at) {
        push(journal, line_of(sessions, s, lss, line));
        at += 1;
    }
}
