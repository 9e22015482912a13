//! The primary of a member is held, and the session's attempt begins with the first one.

ghost use Rattle.std.specs.Prelude.{◌≡◌, ◌≤◌, ◌+◌, true, [], ◌∷◌, nat_lt};
ghost use Rattle.dr_model.specs.Phases.{Hold};
ghost use Rattle.dr_moves.specs.Made.{IsAt};
ghost use Rattle.dr_gmirror.specs.Orders.{last_in, to_begin, MayBegin, IsMemberReady};
ghost use Rattle.dr_gmirror.specs.Ordered.{at_once, Ordered};

use dr_config::Config;
use dr_coord::hold;
use dr_ids::{Member, Refusal, SessionId};
use dr_model::Journal;
use dr_moves::{Beside, News};
use dr_plant::Plant;
use dr_session::Sessions;

/// The sessions, which hear that an attempt of one of them has begun.
#[derive(Drop)]
struct Hearing<'a> {
    ss: &'a mut Sessions,
}

impl<'a> Beside for Hearing<'a> {
    ghost use Rattle.std.specs.Prelude.{refl};
    ghost use Rattle.dr_gmirror.specs.Orders.{with_sessions};
    ghost use Rattle.dr_gmirror.specs.Hearing.{MayHear, sessions_after, shows-sessions, shows-paths};

    ghost takes = { λ x n. MayHear x.ss.now.sessions n };

    ghost after = { λ n x. record x { ss = record x.ss { now = sessions_after n x.ss.now } } };

    ghost rest = { λ x r. with_sessions x.ss.now.sessions r };

    ghost table = { λ x c. c };

    fn hear(&mut self, news: &News) {
        if let News::Begun(s) = news {
            let _ = self.ss.begin(*s);
        }
    }

    ghost shows_rest = { λ n x r may. shows-sessions n x.ss.now r may };

    ghost shows_table = { λ n x c may. shows-paths n x.ss.now.sessions c may };
}

/// Whether a hold for attempt n of the session is the first one: the session's last attempt is an older one.
fn is_first(ss: &Sessions, s: SessionId, n: u32) -> bool
    ensures { result ≡ nat_lt (last_in ss.now.sessions s.0) n }
{
    ss.last(s).unwrap_or(0) < n
}

/// Holds the primary of a member for attempt n of a session, maybe as the first of it, and the sessions hear of that.
fn hold_heard<P: Plant>(
    plant: &mut P,
    config: &Config,
    journal: &mut Journal,
    hearing: &mut Hearing,
    s: SessionId,
    m: &Member,
    n: u32,
    first: bool,
) -> Result<(), Refusal>
    requires at { IsAt (P.state plant.old) config.now }
    requires ready { IsMemberReady (P.state plant.old) config.now m.now }
    requires running { (P.state plant.old).on m.now.server.0 ≡ true }
    requires first { first ≡ nat_lt (last_in hearing.old.ss.now.sessions s.0) n }
    requires begins { MayBegin hearing.old.ss.now.sessions s.0 n }
    requires room { to_begin hearing.old.ss.now.sessions s.0 n + 2 ≤ journal.old.spare }
    ensures same { hearing.new.ss.ghost_name ≡ hearing.old.ss.ghost_name }
    ensures ordered { Ordered (P.state plant.old) (P.state plant.new) config.now journal.old journal.new hearing.old.ss.now.sessions hearing.new.ss.now.sessions Hold s.0 n (m.now ∷ []) (at_once result) }
{
    hold(plant, config, journal, hearing, s, m, n, first)
}

/// Holds the primary of a member for attempt n of a session, whose number is the session's last from the first hold on: where
/// that hold counts as done, the session's attempt has begun.
pub(crate) fn hold_member<P: Plant>(
    plant: &mut P,
    config: &Config,
    journal: &mut Journal,
    ss: &mut Sessions,
    s: SessionId,
    m: &Member,
    n: u32,
) -> Result<(), Refusal>
    requires at { IsAt (P.state plant.old) config.now }
    requires ready { IsMemberReady (P.state plant.old) config.now m.now }
    requires running { (P.state plant.old).on m.now.server.0 ≡ true }
    requires begins { MayBegin ss.old.sessions s.0 n }
    requires room { to_begin ss.old.sessions s.0 n + 2 ≤ journal.old.spare }
    ensures { Ordered (P.state plant.old) (P.state plant.new) config.now journal.old journal.new ss.old.sessions ss.new.sessions Hold s.0 n (m.now ∷ []) (at_once result) }
{
    let first = is_first(ss, s, n);
    let mut hearing = Hearing { ss };
    hold_heard(plant, config, journal, &mut hearing, s, m, n, first)
}
