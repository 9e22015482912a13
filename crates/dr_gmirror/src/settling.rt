//! A server reports what its members show.

ghost use Rattle.std.specs.Prelude.{◌≡◌, ℕ, ◌≤◌, ◌<◌, ◌+◌, ◌++◌, false, [], ◌∷◌, length, List, IfOk, OnOk, OnErr, if◌then◌else◌};
ghost use Rattle.dr_config.specs.Table.{StandsFor};
ghost use Rattle.dr_master.specs.Seen.{shown_in};
ghost use Rattle.dr_model.specs.declared.event.Event.{Event};
ghost use Rattle.dr_model.specs.Phases as phases;
ghost use Rattle.dr_model.specs.ReadStops.{Ends};
ghost use Rattle.dr_model.specs.SessionEntries.{shown_by_members, order_entries, members_on, report_entries};
ghost use Rattle.dr_model.specs.Sessions as model;
ghost use Rattle.dr_volume.specs.View.{Rest};
ghost use Rattle.dr_moves.specs.Checks.{is_stop};
ghost use Rattle.dr_moves.specs.Here.{world_seen, refusal_of, armed_in};
ghost use Rattle.dr_moves.specs.Turns.{Leads, Fails};
ghost use Rattle.dr_gmirror.specs.Orders.{IsMemberReady, AreReady};
ghost use Rattle.dr_gmirror.specs.Reports.{counts_by, shown_by, IsTrimmed, Grown};

use dr_config::Config;
use dr_gcopy::reach_refusal;
use dr_ids::{Member, Refusal, ServerId, SessionId};
use dr_master::{MOST_REPORTED, Report};
use dr_plant::Plant;
use dr_session::Sessions;
use dr_volume::{Head, peek_head};

/// A report of no member.
pub(crate) fn no_report() -> Report
    ensures shown { shown_in result ≡ [] }
    ensures count { result.count ≡ 0 }
    ensures trimmed { IsTrimmed result }
{
    Report {
        count: 0,
        seqs: [0; MOST_REPORTED],
        revertible: [false; MOST_REPORTED],
    }
}

/// A report that speaks of one member more.
fn note(report: &mut Report, sequence: u32, revertible: bool)
    requires { report.old.count < 64 }
    ensures shown { shown_in report.new ≡ shown_in report.old ++ (record { sequence = sequence; revertible = revertible }) ∷ [] }
    ensures count { report.new.count ≡ report.old.count + 1 }
    ensures trimmed { IsTrimmed report.old → IsTrimmed report.new }
{
    let at = usize::from(report.count);
    report.seqs[at] = sequence;
    report.revertible[at] = revertible;
    report.count += 1;
}

/// Whether a target with this head counts in the session: it is a member's there, or revertible.
fn counts_in(s: SessionId, f: &Head) -> bool
    ensures { result ≡ counts_by s.0 f.now }
{
    f.session == s.0 && (f.member || f.revertible)
}

/// A report that speaks of this target, where it counts.
pub(crate) fn note_if(report: &mut Report, s: SessionId, f: &Head)
    requires { report.old.count < 64 }
    ensures shown { shown_in report.new ≡ shown_in report.old ++ (if counts_by s.0 f.now then shown_by f.now ∷ [] else []) }
    ensures grown { Grown report.old report.new }
{
    if counts_in(s, f) {
        note(report, f.sequence, f.revertible);
    }
}

/// A member's secondary is to be reached, and its target is noted where it counts.
fn settle_member<P: Plant>(
    plant: &P,
    config: &Config,
    s: SessionId,
    m: &Member,
    report: &mut Report,
) -> Result<(), Refusal>
    requires stands { StandsFor config.now (P.state plant.now) }
    requires ready { IsMemberReady (P.state plant.now) config.now m.now }
    requires low { report.old.count < 64 }
    ensures leads { OnOk result ((r : Rest) (events : List Event) → Leads (world_seen (P.state plant.now) config.now r events) (report_entries m.now) (world_seen (P.state plant.now) config.now r events)) }
    ensures fails { OnErr result ((r : Rest) (events : List Event) → Fails (armed_in (P.state plant.now)) (world_seen (P.state plant.now) config.now r events) (report_entries m.now) (world_seen (P.state plant.now) config.now r events) (refusal_of result)) }
    ensures calm { is_stop (refusal_of result) ≡ false }
    ensures shown { OnOk result ((r : Rest) (events : List Event) → shown_in report.new ≡ shown_in report.old ++ shown_by_members s.0 (m.now ∷ []) (world_seen (P.state plant.now) config.now r events).control) }
    ensures grown { Grown report.old report.new }
{
    if let Some(why) = reach_refusal(plant, config, m.a, m.b) {
        return Err(why);
    }
    note_if(report, s, &peek_head(plant, config, m.c));
    Ok(())
}

/// The same, where the member is on that server.
fn settle_on<P: Plant>(
    plant: &P,
    config: &Config,
    s: SessionId,
    server: ServerId,
    m: &Member,
    report: &mut Report,
) -> Result<(), Refusal>
    requires stands { StandsFor config.now (P.state plant.now) }
    requires ready { IsMemberReady (P.state plant.now) config.now m.now }
    requires low { report.old.count < 64 }
    ensures leads { OnOk result ((n : ℕ) (r : Rest) (events : List Event) → Leads (world_seen (P.state plant.now) config.now r events) (order_entries phases.Report s.0 n (members_on server.0 (m.now ∷ []))) (world_seen (P.state plant.now) config.now r events)) }
    ensures fails { OnErr result ((n : ℕ) (r : Rest) (events : List Event) → Fails (armed_in (P.state plant.now)) (world_seen (P.state plant.now) config.now r events) (order_entries phases.Report s.0 n (members_on server.0 (m.now ∷ []))) (world_seen (P.state plant.now) config.now r events) (refusal_of result)) }
    ensures calm { is_stop (refusal_of result) ≡ false }
    ensures shown { OnOk result ((r : Rest) (events : List Event) → shown_in report.new ≡ shown_in report.old ++ shown_by_members s.0 (members_on server.0 (m.now ∷ [])) (world_seen (P.state plant.now) config.now r events).control) }
    ensures grown { Grown report.old report.new }
{
    if m.server.0 != server.0 {
        return Ok(());
    }
    settle_member(plant, config, s, m, report)
}

/// What the targets of a server's members of a session show, in the order in which the members came: the sequence number of
/// each target that is a member's in the session or revertible there, and whether it is revertible. The further places of the
/// report are zero and not set. Nothing is changed or told. Refused at the first member to whose secondary there is no path
/// from the logical subsystem of its primary, or whose secondary's server is off, or whose two servers' link is down. It
/// speaks of at most 64 members.
pub fn settle<P: Plant>(
    plant: &P,
    config: &Config,
    ss: &Sessions,
    s: SessionId,
    server: ServerId,
) -> Result<Report, Refusal>
    requires stands { StandsFor config.now (P.state plant.now) }
    requires members { AreReady (P.state plant.now) config.now (model.members_in (model.session_in ss.now.sessions s.0)) }
    requires few { length (model.members_in (model.session_in ss.now.sessions s.0)) ≤ 64 }
    ensures carried { (n : ℕ) (r : Rest) (events : List Event) → Ends (armed_in (P.state plant.now)) (world_seen (P.state plant.now) config.now r events) (refusal_of result) (world_seen (P.state plant.now) config.now r events) (order_entries phases.Report s.0 n (members_on server.0 (model.members_in (model.session_in ss.now.sessions s.0)))) }
    ensures leads { OnOk result ((n : ℕ) (r : Rest) (events : List Event) → Leads (world_seen (P.state plant.now) config.now r events) (order_entries phases.Report s.0 n (members_on server.0 (model.members_in (model.session_in ss.now.sessions s.0)))) (world_seen (P.state plant.now) config.now r events)) }
    ensures fails { OnErr result ((n : ℕ) (r : Rest) (events : List Event) → Fails (armed_in (P.state plant.now)) (world_seen (P.state plant.now) config.now r events) (order_entries phases.Report s.0 n (members_on server.0 (model.members_in (model.session_in ss.now.sessions s.0)))) (world_seen (P.state plant.now) config.now r events) (refusal_of result)) }
    ensures calm { is_stop (refusal_of result) ≡ false }
    ensures shown { IfOk result (λ y. (r : Rest) (events : List Event) → shown_in y ≡ shown_by_members s.0 (members_on server.0 (model.members_in (model.session_in ss.now.sessions s.0))) (world_seen (P.state plant.now) config.now r events).control) }
    ensures count { IfOk result (λ y. y.count ≡ length (shown_in y)) }
    ensures trimmed { IfOk result IsTrimmed }
{
    let mut report = no_report();
    for at in 0..ss.member_count(s) {
        let m = ss.member_at(s, at).unwrap();
        settle_on(plant, config, s, server, &m, &mut report)?;
    }
    Ok(report)
}
