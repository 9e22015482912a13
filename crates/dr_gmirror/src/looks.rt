//! What an exchange looks at of a session's master, and what it is refused for.

ghost use Rattle.std.specs.Prelude.{◌≡◌, ℕ, ◌<◌, ◌+◌, ◌==◌, ◌||◌, not, true, false, None, Some, List, length, nat_eq, option_map, is_some, if◌then◌else◌};
ghost use Rattle.std.specs.List.{list_any};
ghost use Rattle.dr_config.specs.Table.{link_up};
ghost use Rattle.dr_ids.specs.declared.refusal.Refusal.TheVariants.{OutOfOrder, NumbersSpent};
ghost use Rattle.dr_ids.specs.declared.refusal.PhaseName.TheVariants as phase;
ghost use Rattle.dr_model.specs.declared.event.Event.{Event};
ghost use Rattle.dr_model.specs.PairEntries.{link_down};
ghost use Rattle.dr_model.specs.SessionPlans as plans;
ghost use Rattle.dr_model.specs.Sessions as model;
ghost use Rattle.dr_master.specs.Seen.{order_of};
ghost use Rattle.dr_volume.specs.View.{Rest};
ghost use Rattle.dr_moves.specs.Checks.{OnNone, is_stop};
ghost use Rattle.dr_moves.specs.Here.{world_seen};

use dr_config::Config;
use dr_ids::{PhaseName, Refusal, ServerId, SessionId};
use dr_master::{Order, OrderKind};
use dr_plant::Plant;
use dr_session::Sessions;

/// A session's master as a server sees it: who runs it, whether it is paused, its phase and number, and the order that the
/// server is owed.
#[derive(Clone, Copy)]
pub(crate) struct Look {
    pub(crate) server: ServerId,
    pub(crate) paused: bool,
    pub(crate) phase: PhaseName,
    pub(crate) number: u32,
    pub(crate) owed: Option<Order>,
}

impl Look {
    ghost use Rattle.dr_gmirror.specs.Exchange.{LooksAt};

    /// The session's master, if it has one.
    pub(crate) fn at(ss: &Sessions, s: SessionId, server: ServerId) -> Option<Look>
        requires { server.0 < 8 }
        ensures { LooksAt result (model.mirror_in (model.session_in ss.now.sessions s.0)) server.0 }
    {
        let master = ss.master(s)?;
        let runs = ss.master_server(s)?;
        Some(Look {
            server: runs,
            paused: ss.is_paused(s),
            phase: master.phase(),
            number: master.number(),
            owed: master.next_order(server),
        })
    }
}

/// Whether no attempt goes on.
pub(crate) fn is_idle(phase: PhaseName) -> bool
    ensures { result ≡ plans.is_idle phase }
{
    matches!(phase, PhaseName::Idle)
}

/// Whether a member of the session is on the server.
pub(crate) fn has_member_on(ss: &Sessions, s: SessionId, server: ServerId) -> bool
    ensures { result ≡ list_any (λ m. m.server.0 == server.0) (model.members_in (model.session_in ss.now.sessions s.0)) }
{
    for at in 0..ss.member_count(s) {
        let m = ss.member_at(s, at).unwrap();
        if m.server.0 == server.0 {
            return true;
        }
    }
    false
}

/// Why the server has no part in an attempt that would begin, or it can't: the master is paused or the server has no members,
/// or the next number would be 2^32.
pub(crate) fn idle_refusal(paused: bool, number: u32, member: bool) -> Option<Refusal>
    ensures refusal { result ≡ (if paused || not member then Some (OutOfOrder phase.Idle) else if number + 1 == 4294967296 then Some NumbersSpent else None) }
    ensures number { OnNone result (number + 1 < 4294967296) }
    ensures calm { is_stop result ≡ false }
{
    if paused || !member {
        return Some(Refusal::OutOfOrder {
            phase: PhaseName::Idle,
        });
    }
    if number == u32::MAX {
        return Some(Refusal::NumbersSpent);
    }
    None
}

/// Why nothing can be asked of a server: it is off.
pub(crate) fn off_refusal<P: Plant>(plant: &P, config: &Config, server: ServerId) -> Option<Refusal>
    requires { server.0 < 8 }
    ensures refusal { (r : Rest) (events : List Event) → result ≡ plans.off_refusal (world_seen (P.state plant.now) config.now r events).control server.0 }
    ensures running { OnNone result ((P.state plant.now).on server.0 ≡ true) }
    ensures calm { is_stop result ≡ false }
{
    if !plant.is_on(server.0) {
        return Some(Refusal::ServerOff { server });
    }
    None
}

/// Why two servers don't reach each other: the link between them is down.
pub fn apart_refusal(config: &Config, a: ServerId, b: ServerId) -> Option<Refusal>
    requires first { a.0 < length config.now.names }
    requires second { b.0 < length config.now.names }
    ensures refusal { result ≡ (if nat_eq a.0 b.0 || link_up config.now a.0 b.0 then None else Some (link_down a.0 b.0)) }
    ensures calm { is_stop result ≡ false }
{
    if a.0 == b.0 || config.link_up(a, b) {
        return None;
    }
    Some(Refusal::LinkDown { a, b })
}
