//! An order is carried out on a member.

ghost use Rattle.std.specs.Prelude.{◌≡◌, ◌≤◌, ◌+◌, true, [], ◌∷◌};
ghost use Rattle.dr_model.specs.SessionEntries.{members_on};
ghost use Rattle.dr_master.specs.Seen.{work_of};
ghost use Rattle.dr_moves.specs.Aside.{AsideFits};
ghost use Rattle.dr_moves.specs.Made.{IsAt};
ghost use Rattle.dr_gmirror.specs.Orders.{to_begin, MayOrder, IsMemberReady};
ghost use Rattle.dr_gmirror.specs.Ordered.{at_once, Ordered};

use crate::holding::hold_member;
use crate::sealing::seal;
use dr_config::Config;
use dr_coord::{finish, release};
use dr_gcopy::reach_refusal;
use dr_ids::{Member, Refusal, ServerId, SessionId};
use dr_master::OrderKind;
use dr_model::Journal;
use dr_plant::Plant;
use dr_revert::{commit, flash, revert};
use dr_session::Sessions;

/// An order that has to wait for nothing.
fn at_once(done: Result<(), Refusal>) -> Result<bool, Refusal>
    ensures { result ≡ at_once done }
{
    match done {
        Ok(()) => Ok(false),
        Err(why) => Err(why),
    }
}

/// Carries an order out on a member, and tells whether it has to wait. For a report the member's secondary is to be reached,
/// and nothing is done.
fn order_member<P: Plant>(
    plant: &mut P,
    config: &Config,
    journal: &mut Journal,
    ss: &mut Sessions,
    s: SessionId,
    m: &Member,
    kind: OrderKind,
    n: u32,
) -> Result<bool, Refusal>
    requires at { IsAt (P.state plant.old) config.now }
    requires aside { AsideFits (P.state plant.old) config.now }
    requires ready { IsMemberReady (P.state plant.old) config.now m.now }
    requires running { (P.state plant.old).on m.now.server.0 ≡ true }
    requires begins { MayOrder (work_of kind) ss.old.sessions s.0 n }
    requires room { to_begin ss.old.sessions s.0 n + 3 ≤ journal.old.spare }
    ensures { Ordered (P.state plant.old) (P.state plant.new) config.now journal.old journal.new ss.old.sessions ss.new.sessions (work_of kind) s.0 n (m.now ∷ []) result }
{
    match kind {
        OrderKind::Hold => at_once(hold_member(plant, config, journal, ss, s, m, n)),
        OrderKind::Release => at_once(release(plant, config, journal, m, n)),
        OrderKind::Seal => match seal(plant, config, journal, s, m, n) {
            Ok(done) => Ok(!done),
            Err(why) => Err(why),
        },
        OrderKind::Flash => at_once(flash(plant, config, journal, s, m, n)),
        OrderKind::Commit => at_once(commit(plant, config, journal, s, m, n)),
        OrderKind::Revert => at_once(revert(plant, config, journal, s, m, n)),
        OrderKind::Finish => at_once(finish(plant, config, journal, m, n)),
        OrderKind::Report => match reach_refusal(plant, config, m.a, m.b) {
            None => Ok(false),
            Some(why) => Err(why),
        },
    }
}

/// The same, where the member is on that server.
pub(crate) fn order_on<P: Plant>(
    plant: &mut P,
    config: &Config,
    journal: &mut Journal,
    ss: &mut Sessions,
    s: SessionId,
    server: ServerId,
    m: &Member,
    kind: OrderKind,
    n: u32,
) -> Result<bool, Refusal>
    requires at { IsAt (P.state plant.old) config.now }
    requires aside { AsideFits (P.state plant.old) config.now }
    requires ready { IsMemberReady (P.state plant.old) config.now m.now }
    requires running { (P.state plant.old).on server.0 ≡ true }
    requires begins { MayOrder (work_of kind) ss.old.sessions s.0 n }
    requires room { to_begin ss.old.sessions s.0 n + 3 ≤ journal.old.spare }
    ensures { Ordered (P.state plant.old) (P.state plant.new) config.now journal.old journal.new ss.old.sessions ss.new.sessions (work_of kind) s.0 n (members_on server.0 (m.now ∷ [])) result }
{
    if m.server.0 != server.0 {
        return Ok(false);
    }
    order_member(plant, config, journal, ss, s, m, kind, n)
}
