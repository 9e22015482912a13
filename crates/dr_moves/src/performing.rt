//! Acts that take no device write.

ghost use Rattle.std.specs.Prelude.{◌≡◌, ◌≤◌, ◌+◌, ◌++◌, length};
ghost use Rattle.dr_plant.specs.State.{PlantState};
ghost use Rattle.dr_config.specs.Table.{ConfigTable};
ghost use Rattle.dr_model.specs.Carry as machine;
ghost use Rattle.dr_model.specs.Carry.{Entry};
ghost use Rattle.dr_volume.specs.View.{Rest};
ghost use Rattle.dr_moves.specs.Acts.{act_of, act_news, act_told};
ghost use Rattle.dr_moves.specs.Beside.{heard, Takes};
ghost use Rattle.dr_moves.specs.Here.{world_seen};
ghost use Rattle.dr_moves.specs.Told.{event_of};
ghost use Rattle.dr_moves.specs.Turns.{Advances};

use crate::beside::{Beside, News, hear};
use crate::told::tell_event;
use dr_ids::{Lss, SessionId, WriteId};
use dr_model::{Event, Journal};

/// An act that takes no device write, so that nothing stops in it.
#[derive(Clone, Copy)]
pub enum Act {
    /// Host write `w`, which landed in a stop, is acknowledged.
    Acknowledge { w: WriteId },
    /// Pending host write `w` is refused for good.
    Drop { w: WriteId },
    /// A freeze ends: the path from `l` to `m` is removed.
    EndFreeze { l: Lss, m: Lss },
    /// A thaw of the pairs from `l` to `m` ends.
    EndThaw { l: Lss, m: Lss },
    /// A recovery of session `s` ends with group `n`, 0 for none.
    EndRecovery { s: SessionId, n: u32 },
}

/// What lies beside hears of an act.
fn news_of(a: &Act) -> Option<News>
    ensures { result ≡ act_news a.now }
{
    match a {
        Act::Acknowledge { w } => Some(News::Settled(*w)),
        Act::Drop { w } => Some(News::Settled(*w)),
        Act::EndFreeze { l, m } => Some(News::Removed(*l, *m)),
        Act::EndThaw { .. } => None,
        Act::EndRecovery { .. } => None,
    }
}

/// What the journal is told of an act.
fn told_of(a: &Act) -> Option<Event>
    ensures { event_of result ≡ act_told a.now }
{
    match a {
        Act::Acknowledge { w } => Some(Event::Ack { w: w.0 }),
        Act::Drop { .. } => None,
        Act::EndFreeze { l, m } => Some(Event::Frozen { src: l.0, tgt: m.0 }),
        Act::EndThaw { l, m } => Some(Event::Thawed { src: l.0, tgt: m.0 }),
        Act::EndRecovery { s, n } => Some(Event::Recovered {
            session: s.0,
            group: *n,
        }),
    }
}

/// Performs an act: the journal is told, and what lies beside hears of it. The journal needs room for what it tells, one event or
/// none.
pub fn perform<B: Beside>(journal: &mut Journal, beside: &mut B, a: &Act)
    requires takes { Takes (B.takes beside.old) (act_news a.now) }
    requires room { length (act_told a.now) ≤ journal.old.spare }
    ensures advances { (s : PlantState) (c : ConfigTable) (r : Rest) (d : Entry) → d (world_seen s (B.table beside.old c) (B.rest beside.old r) journal.old.events).control ≡ machine.Do (act_of a.now) → Advances (world_seen s (B.table beside.old c) (B.rest beside.old r) journal.old.events) d (world_seen s (B.table beside.new c) (B.rest beside.new r) journal.new.events) }
    ensures heard { beside.new ≡ heard B.after (act_news a.now) beside.old }
    ensures told { journal.new.events ≡ journal.old.events ++ act_told a.now }
    ensures room_left { journal.old.spare ≡ journal.new.spare + length (act_told a.now) }
{
    tell_event(journal, &told_of(a));
    hear(beside, news_of(a));
}
