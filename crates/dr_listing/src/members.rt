//! The listing of sessions' members.

ghost use Rattle.std.specs.Prelude.{◌≡◌, ◌+◌, ◌<◌, ◌≤◌, ◌++◌, [], ◌∷◌, length, Some, map, filter, nat_eq, IsSome, if◌then◌else◌};
ghost use Rattle.std.specs.List.{flat_map};
ghost use Rattle.dr_config.specs.Table.{StandsFor, place_of};
ghost use Rattle.dr_model.specs.Answers.{pair_place};
ghost use Rattle.dr_model.specs.Listings as listings;
ghost use Rattle.dr_model.specs.Pairs.{pair_seen};
ghost use Rattle.dr_model.specs.Sessions as model;
ghost use Rattle.dr_listing.specs.Told.{lines_of, AreSeated, AllStand, members_of};
ghost use Rattle.dr_volume.specs.View.{Rest, control_seen, volume_seen};

use crate::lines::push;
use crate::parts::{state_number, target_number};
use dr_config::Config;
use dr_ids::{Lss, Member, SessionId, VolumeId};
use dr_model::{Event, Journal};
use dr_plant::Plant;
use dr_session::Sessions;
use dr_volume::peek_head;

/// The number in a line of a volume that has no part in a pair.
const NO_PAIR: u8 = 6;

/// The number of the state of a volume's pair: as a primary, or else as a secondary.
fn pair_number<P: Plant>(plant: &P, config: &Config, v: VolumeId) -> u8
    requires defined { IsSome (place_of config.now v.0) }
    requires stands { StandsFor config.now (P.state plant.now) }
    ensures { result ≡ pair_place (pair_seen (volume_seen (P.state plant.now) config.now v.0).fields) }
{
    let head = peek_head(plant, config, v);
    if head.primary.is_part() {
        return state_number(head.primary_state);
    }
    if head.secondary.is_part() {
        return target_number(head.secondary_state);
    }
    NO_PAIR
}

/// The line of a member, if its primary lies in the logical subsystem.
fn member_line<P: Plant>(
    plant: &P,
    config: &Config,
    s: SessionId,
    m: &Member,
    lss: Lss,
    line: u32,
) -> Option<Event>
    requires defined { IsSome (place_of config.now m.now.a.0) }
    requires stands { StandsFor config.now (P.state plant.now) }
    ensures { (r : Rest) → lines_of result ≡ (if nat_eq (model.subsystem_of m.now.a.0) lss.0 then listings.member_line (control_seen (P.state plant.now) config.now r) line s.0 m.now ∷ [] else []) }
{
    if m.a.lss().0 != lss.0 {
        return None;
    }
    Some(Event::SessionLine {
        line,
        session: s.0,
        a: m.a.0,
        b: m.b.0,
        c: m.c.0,
        state: pair_number(plant, config, m.a),
    })
}

/// Lists the members of a session whose primaries lie in the logical subsystem.
fn push_members<P: Plant>(
    plant: &P,
    config: &Config,
    sessions: &Sessions,
    s: SessionId,
    lss: Lss,
    line: u32,
    journal: &mut Journal,
)
    requires stands { StandsFor config.now (P.state plant.now) }
    requires members { AllStand config.now (model.members_in (model.session_in sessions.now.sessions s.0)) }
    requires room { length (model.members_in (model.session_in sessions.now.sessions s.0)) ≤ journal.old.spare }
    ensures told { (r : Rest) → journal.new.events ≡ journal.old.events
        ++ map (listings.member_line (control_seen (P.state plant.now) config.now r) line s.0) (filter (λ m. nat_eq (model.subsystem_of m.a.0) lss.0) (model.members_in (model.session_in sessions.now.sessions s.0))) }
    ensures left { journal.old.spare ≤ journal.new.spare + length (model.members_in (model.session_in sessions.now.sessions s.0)) }
{
    for at in 0..sessions.member_count(s) {
        let m = sessions.member_at(s, at).unwrap();
        push(journal, member_line(plant, config, s, &m, lss, line));
    }
}

/// The same, where the logical subsystem is one of the session's.
fn push_session<P: Plant>(
    plant: &P,
    config: &Config,
    sessions: &Sessions,
    s: SessionId,
    lss: Lss,
    line: u32,
    journal: &mut Journal,
)
    requires stands { StandsFor config.now (P.state plant.now) }
    requires members { AllStand config.now (model.members_in (model.session_in sessions.now.sessions s.0)) }
    requires room { length (model.members_in (model.session_in sessions.now.sessions s.0)) ≤ journal.old.spare }
    ensures told { (r : Rest) → (x : model.Session) → model.session_in sessions.now.sessions s.0 ≡ Some x → x.number ≡ s.0 → journal.new.events ≡ journal.old.events
        ++ (if model.has_subsystem lss.0 x then listings.member_lines (control_seen (P.state plant.now) config.now r) line lss.0 x else []) }
    ensures low { s.0 < 256 }
    ensures left { journal.old.spare ≤ journal.new.spare + length (model.members_in (model.session_in sessions.now.sessions s.0)) }
{
    if sessions.has_lss(s, lss) {
        push_members(plant, config, sessions, s, lss, line, journal);
    }
}

/// Lists the members whose primaries lie in the logical subsystem, of the sessions that have it, in order: at most one line for
/// each member.
pub fn sessions<P: Plant>(
    plant: &P,
    config: &Config,
    sessions: &Sessions,
    lss: Lss,
    line: u32,
    journal: &mut Journal,
)
    requires stands { StandsFor config.now (P.state plant.now) }
    requires seated { AreSeated config.now sessions.now.sessions }
    requires room { length (members_of sessions.now.sessions) ≤ journal.old.spare }
    ensures told { (r : Rest) → r.sessions ≡ sessions.now.sessions → journal.new.events ≡ journal.old.events
        ++ flat_map (listings.member_lines (control_seen (P.state plant.now) config.now r) line lss.0) (listings.sessions_of (control_seen (P.state plant.now) config.now r) lss.0) }
    ensures left { journal.old.spare ≤ journal.new.spare + length (members_of sessions.now.sessions) }
{
    let mut at = 0;
    while let Some(s) = sessions.session_at(at) {
        push_session(plant, config, sessions, s, lss, line, journal);
        at += 1;
    }
}
