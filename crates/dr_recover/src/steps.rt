//! The moves of a recovery, one by one: all takeovers, and then what becomes of each target.

ghost use Rattle.std.specs.Prelude.{◌≡◌, ℕ, ◌≤◌, ◌+◌, ◌<◌, true, List, length, drop, get_or, slice_get, Some, OnOk, OnErr};
ghost use Rattle.dr_model.specs.RecoveryPlans.{pass_on};
ghost use Rattle.dr_model.specs.Sessions as model;
ghost use Rattle.dr_volume.specs.View.{Rest};
ghost use Rattle.dr_moves.specs.Checks.{is_stop};
ghost use Rattle.dr_moves.specs.Here.{world_seen, refusal_of, armed_in};
ghost use Rattle.dr_moves.specs.Made.{IsAt, Kept};
ghost use Rattle.dr_moves.specs.Turns.{Leads, Fails};
ghost use Rattle.dr_recover.specs.Steps.{moves_of, CanGo};

use crate::settling::settle_next;
use crate::taking::take_over_next;
use dr_config::Config;
use dr_ids::{Decision, Member, Refusal, SessionId};
use dr_model::Journal;
use dr_moves::{Entries, Next, Nothing, carry};
use dr_plant::Plant;
use dr_session::Sessions;

/// The moves of a recovery that are left, where so many were looked at. The session has so many members, at most 64.
#[derive(Drop)]
struct Steps<'a> {
    ss: &'a Sessions,
    s: SessionId,
    decided: Decision,
    members: usize,
    done: usize,
    ghost counted: { members ≡ length (model.members_in (model.session_in ss.now.sessions s.0)) },
    ghost few: { members ≤ 64 },
}

impl<'a> Steps<'a> {
    /// The member at a place of the session's list.
    fn member(&self, at: usize) -> Member
        requires { at < self.now.members }
        ensures { slice_get (model.members_in (model.session_in self.now.ss.now.sessions self.now.s.0)) at ≡ Some result }
    {
        self.ss.member_at(self.s, at).unwrap()
    }
}

impl<'a, P: Plant> Entries<P, Nothing> for Steps<'a> {
    ghost left = { λ x c. drop x.done (moves_of x.s.0 x.decided (model.members_in (model.session_in x.ss.now.sessions x.s.0))) };

    ghost first = { λ x c. get_or (moves_of x.s.0 x.decided (model.members_in (model.session_in x.ss.now.sessions x.s.0))) x.done pass_on };

    ghost stands = { λ x s _ c. CanGo s c (model.members_in (model.session_in x.ss.now.sessions x.s.0)) };

    ghost makes = { λ x done s _ u _ c. Unit {0} };

    ghost refuses = { λ x c r. is_stop r ≡ true };

    ghost room = { λ x c. length (drop x.done (moves_of x.s.0 x.decided (model.members_in (model.session_in x.ss.now.sessions x.s.0)))) };

    ghost most = { λ x c. length (drop x.done (moves_of x.s.0 x.decided (model.members_in (model.session_in x.ss.now.sessions x.s.0)))) + 1 };

    fn count(&self, config: &Config) -> usize {
        (self.members + self.members).saturating_sub(self.done)
    }

    fn next(&mut self, plant: &P, config: &Config, beside: &Nothing) -> Next {
        let at = self.done;
        self.done += 1;
        if at < self.members {
            take_over_next(plant, config, &self.member(at))
        } else {
            settle_next(
                plant,
                config,
                self.s,
                self.decided,
                &self.member(at - self.members),
            )
        }
    }

    ghost none_left = { λ x s y c none. tt };
}

/// Takes over the secondaries of a session's members, whose servers are on, in order of members, and then commits or reverts
/// their targets as was decided, in the same order. Fails where a server stops in a move or goes off at a read; what was done
/// by then stays. The session has at most 64 members. The journal needs room for two events for each member and one more.
pub(crate) fn carry_all<P: Plant>(
    plant: &mut P,
    config: &Config,
    journal: &mut Journal,
    ss: &Sessions,
    s: SessionId,
    decided: Decision,
) -> Result<(), Refusal>
    requires at { IsAt (P.state plant.old) config.now }
    requires can { CanGo (P.state plant.old) config.now (model.members_in (model.session_in ss.now.sessions s.0)) }
    requires few { length (model.members_in (model.session_in ss.now.sessions s.0)) ≤ 64 }
    requires room { length (model.members_in (model.session_in ss.now.sessions s.0)) + length (model.members_in (model.session_in ss.now.sessions s.0)) + 1 ≤ journal.old.spare }
    ensures leads { OnOk result ((r : Rest) → Leads (world_seen (P.state plant.old) config.now r journal.old.events) (moves_of s.0 decided (model.members_in (model.session_in ss.now.sessions s.0))) (world_seen (P.state plant.new) config.now r journal.new.events)) }
    ensures fails { OnErr result ((r : Rest) → Fails (armed_in (P.state plant.old)) (world_seen (P.state plant.old) config.now r journal.old.events) (moves_of s.0 decided (model.members_in (model.session_in ss.now.sessions s.0))) (world_seen (P.state plant.new) config.now r journal.new.events) (refusal_of result)) }
    ensures stops { OnErr result (is_stop (refusal_of result) ≡ true) }
    ensures kept { Kept (P.state plant.old) (P.state plant.new) config.now journal.old journal.new (length (model.members_in (model.session_in ss.now.sessions s.0)) + length (model.members_in (model.session_in ss.now.sessions s.0)) + 1) (is_stop (refusal_of result)) result }
    ensures room_left { OnOk result (journal.old.spare ≤ journal.new.spare + (length (model.members_in (model.session_in ss.now.sessions s.0)) + length (model.members_in (model.session_in ss.now.sessions s.0)))) }
{
    let mut steps = Steps {
        ss,
        s,
        decided,
        members: ss.member_count(s),
        done: 0,
    };
    carry(plant, config, journal, &mut steps)
}
