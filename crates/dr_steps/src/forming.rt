//! The step that forms consistency groups one after another. Its drains and exchanges are carried out in turn, each with room of
//! its own in the journal, and the line is answered once.

ghost use Rattle.std.specs.Prelude.{◌≡◌, ℕ, ◌+◌, ◌<◌, ◌≤◌, true, false, List, Some, None, length, nat_eq, slice_get, option_map, if◌then◌else◌, Ok, OnOk, OnErr, IfSome, []};
ghost use Rattle.dr_logic.specs.Counts.{Counted};
ghost use Rattle.dr_ids.specs.declared.refusal.Refusal.{Refusal};
ghost use Rattle.dr_model.specs.Forming as plans;
ghost use Rattle.dr_model.specs.Laws.{FlightCounted, Sound};
ghost use Rattle.dr_model.specs.Limits.{most_events, most_groups};
ghost use Rattle.dr_model.specs.Plans.{drain_plan};
ghost use Rattle.dr_model.specs.Runs.{after_task};
ghost use Rattle.dr_model.specs.SessionEntries.{members_on};
ghost use Rattle.dr_model.specs.SessionPlans.{asking, is_idle};
ghost use Rattle.dr_model.specs.Sessions as model;
ghost use Rattle.dr_model.specs.declared.step.Step.TheVariants as step;
ghost use Rattle.dr_volume.specs.Head.{head_of};
ghost use Rattle.dr_volume.specs.View.{volume_seen};
ghost use Rattle.dr_moves.specs.Checks.{is_stop};
ghost use Rattle.dr_moves.specs.Here.{refusal_of, IsAtRest};
ghost use Rattle.dr_gmirror.specs.Orders.{AreReady};
ghost use Rattle.dr_model.specs.declared.event.Event.{Event};
ghost use Rattle.dr_steps.specs.declared.tables.Tables.{Tables};
ghost use Rattle.dr_steps.specs.Faults.{told_stop};
ghost use Rattle.dr_steps.specs.Formed.{Reaches, drain_next, to_drain};
ghost use Rattle.dr_steps.specs.Here.{here, said_of, IsReady};
ghost use Rattle.dr_steps.specs.Wants.{WantsMemory};

use crate::answers::{has_room, refuse, say};
use crate::exchanges::ask_server;
use crate::locate::unknown_session;
use crate::masters::{lose_masters, servers_on};
use crate::pairs::{drain_by, is_copying};
use crate::sessions::phase_of;
use crate::tables::Tables;
use dr_config::Config;
use dr_ids::{MOST_EVENTS, PhaseName, Refusal, ServerId, SessionId, VolumeId, Which};
use dr_model::{Addition, Journal, Said};
use dr_plant::Plant;
use dr_session::Sessions;
use dr_volume::{Head, peek_head};
use std::alloc::AllocError;

/// The most groups that one line forms.
const MOST_GROUPS: u32 = 10_000;

/// How many servers are asked at most for each group, and for what went on before the line.
const TURNS: u32 = 64;

/// The refusal of a part of the line, if it has one; what it answers else isn't said.
fn unsaid(carried: Result<Addition, Refusal>) -> Result<(), Refusal>
    ensures { refusal_of result ≡ plans.refusal_said (said_of carried) }
{
    match carried {
        Ok(_) => Ok(()),
        Err(refusal) => Err(refusal),
    }
}

/// Drains one primary whose record has this head, with room of its own in the journal. The masters whose servers stop in it are
/// lost as it ends.
fn drain_alone<P: Plant>(
    plant: &mut P,
    config: &Config,
    tables: &mut Tables,
    journal: &mut Journal,
    a: VolumeId,
    head: &Head,
) -> Result<(), Refusal>
    requires ready { IsReady (P.state plant.old) config.now tables.old journal.old.events }
    requires sound { Sound (here (P.state plant.old) config.now tables.old journal.old.events) }
    requires counted { FlightCounted (here (P.state plant.old) config.now tables.old journal.old.events) }
    requires head { head.now ≡ head_of (volume_seen (P.state plant.old) config.now a.0).fields }
    requires few { length config.now.volumes ≤ 64 }
    requires room { most_events ≤ length journal.old.events + journal.old.spare }
    requires spare { 1 ≤ journal.old.spare }
    ensures way { Reaches (plans.part (here (P.state plant.old) config.now tables.old journal.old.events) (drain_plan (here (P.state plant.old) config.now tables.old journal.old.events).control a.0 None))
        (here (P.state plant.new) config.now tables.new journal.new.events) (refusal_of result) }
    ensures sound { Sound (here (P.state plant.new) config.now tables.new journal.new.events) }
    ensures counted { FlightCounted (here (P.state plant.new) config.now tables.new journal.new.events) }
    ensures ready { IsReady (P.state plant.new) config.now tables.new journal.new.events }
    ensures members { (n : ℕ) → model.members_in (model.session_in tables.new.sessions.sessions n) ≡ model.members_in (model.session_in tables.old.sessions.sessions n) }
    ensures host { tables.new.host ≡ tables.old.host }
    ensures room { length journal.new.events + journal.new.spare ≡ length journal.old.events + journal.old.spare }
    ensures spare { 1 ≤ journal.new.spare }
    ensures faults { Counted (is_stop (refusal_of result)) (P.state plant.old).faults (P.state plant.new).faults }
{
    if !has_room(journal) {
        return Err(Refusal::JournalFull);
    }
    let before = servers_on(plant);
    let carried = drain_by(plant, config, tables, journal, a, None, head);
    lose_masters(plant, &before, &mut tables.sessions, &mut tables.flight);
    unsaid(carried)
}

/// The same of an exchange with a server.
fn ask_alone<P: Plant>(
    plant: &mut P,
    config: &Config,
    tables: &mut Tables,
    journal: &mut Journal,
    s: SessionId,
    server: ServerId,
) -> Result<(), Refusal>
    requires ready { IsReady (P.state plant.old) config.now tables.old journal.old.events }
    requires sound { Sound (here (P.state plant.old) config.now tables.old journal.old.events) }
    requires counted { FlightCounted (here (P.state plant.old) config.now tables.old journal.old.events) }
    requires low { server.0 < 8 }
    requires known { server.0 < length config.now.names }
    requires few { length config.now.volumes ≤ 64 }
    requires room { most_events ≤ length journal.old.events + journal.old.spare }
    requires spare { 1 ≤ journal.old.spare }
    ensures way { Reaches (plans.part (here (P.state plant.old) config.now tables.old journal.old.events) (asking (here (P.state plant.old) config.now tables.old journal.old.events).control s.0 server.0 true))
        (here (P.state plant.new) config.now tables.new journal.new.events) (refusal_of result) }
    ensures sound { Sound (here (P.state plant.new) config.now tables.new journal.new.events) }
    ensures counted { FlightCounted (here (P.state plant.new) config.now tables.new journal.new.events) }
    ensures ready { IsReady (P.state plant.new) config.now tables.new journal.new.events }
    ensures host { tables.new.host ≡ tables.old.host }
    ensures room { length journal.new.events + journal.new.spare ≡ length journal.old.events + journal.old.spare }
    ensures spare { 1 ≤ journal.new.spare }
    ensures faults { Counted (is_stop (refusal_of result)) (P.state plant.old).faults (P.state plant.new).faults }
{
    if !has_room(journal) {
        return Err(Refusal::JournalFull);
    }
    let before = servers_on(plant);
    let carried = ask_server(plant, config, tables, journal, s, server, true);
    lose_masters(plant, &before, &mut tables.sessions, &mut tables.flight);
    unsaid(carried)
}

/// A primary that is to be drained, with the head of its record.
#[derive(Clone, Copy)]
struct Copying {
    a: VolumeId,
    head: Head,
}

/// The primary of the session's member at a place, where its server is that one and it is in Copy Pending.
fn primary_to_drain<P: Plant>(
    plant: &P,
    config: &Config,
    sessions: &Sessions,
    s: SessionId,
    server: ServerId,
    place: usize,
) -> Option<Copying>
    requires rest { IsAtRest (P.state plant.now) config.now }
    requires members { AreReady (P.state plant.now) config.now (model.members_in (model.session_in sessions.now.sessions s.0)) }
    ensures head { IfSome result (λ x. x.head ≡ head_of (volume_seen (P.state plant.now) config.now x.a.0).fields) }
    ensures next { (r : Tables) (events : List Event) → option_map (λ x. x.a.0) result ≡ to_drain (here (P.state plant.now) config.now r events).control server.0 (slice_get (model.members_in (model.session_in sessions.now.sessions s.0)) place) }
{
    let member = sessions.member_at(s, place)?;
    if member.server != server {
        return None;
    }
    let head = peek_head(plant, config, member.a);
    if is_copying(&head) {
        Some(Copying { a: member.a, head })
    } else {
        None
    }
}

/// Drains the primary of the session's member at a place, where its server is that one. It is passed over where it isn't in Copy
/// Pending.
fn drain_place<P: Plant>(
    plant: &mut P,
    config: &Config,
    tables: &mut Tables,
    journal: &mut Journal,
    s: SessionId,
    server: ServerId,
    place: usize,
) -> Result<(), Refusal>
    requires ready { IsReady (P.state plant.old) config.now tables.old journal.old.events }
    requires sound { Sound (here (P.state plant.old) config.now tables.old journal.old.events) }
    requires counted { FlightCounted (here (P.state plant.old) config.now tables.old journal.old.events) }
    requires few { length config.now.volumes ≤ 64 }
    requires room { most_events ≤ length journal.old.events + journal.old.spare }
    requires spare { 1 ≤ journal.old.spare }
    ensures way { Reaches (drain_next (here (P.state plant.old) config.now tables.old journal.old.events)
        (to_drain (here (P.state plant.old) config.now tables.old journal.old.events).control server.0 (slice_get (model.members_in (model.session_in tables.old.sessions.sessions s.0)) place)) plans.stays)
        (here (P.state plant.new) config.now tables.new journal.new.events) (refusal_of result) }
    ensures sound { Sound (here (P.state plant.new) config.now tables.new journal.new.events) }
    ensures counted { FlightCounted (here (P.state plant.new) config.now tables.new journal.new.events) }
    ensures ready { IsReady (P.state plant.new) config.now tables.new journal.new.events }
    ensures members { (n : ℕ) → model.members_in (model.session_in tables.new.sessions.sessions n) ≡ model.members_in (model.session_in tables.old.sessions.sessions n) }
    ensures host { tables.new.host ≡ tables.old.host }
    ensures room { length journal.new.events + journal.new.spare ≡ length journal.old.events + journal.old.spare }
    ensures spare { 1 ≤ journal.new.spare }
    ensures faults { Counted (is_stop (refusal_of result)) (P.state plant.old).faults (P.state plant.new).faults }
{
    match primary_to_drain(plant, config, &tables.sessions, s, server, place) {
        Some(primary) => drain_alone(plant, config, tables, journal, primary.a, &primary.head),
        None => Ok(()),
    }
}

/// Drains the primaries of a session's members on a server, in order. Those that aren't in Copy Pending are passed over.
fn drain_members<P: Plant>(
    plant: &mut P,
    config: &Config,
    tables: &mut Tables,
    journal: &mut Journal,
    s: SessionId,
    server: ServerId,
) -> Result<(), Refusal>
    requires ready { IsReady (P.state plant.old) config.now tables.old journal.old.events }
    requires sound { Sound (here (P.state plant.old) config.now tables.old journal.old.events) }
    requires counted { FlightCounted (here (P.state plant.old) config.now tables.old journal.old.events) }
    requires few { length config.now.volumes ≤ 64 }
    requires room { most_events ≤ length journal.old.events + journal.old.spare }
    requires spare { 1 ≤ journal.old.spare }
    ensures way { Reaches (plans.drains (here (P.state plant.old) config.now tables.old journal.old.events) (members_on server.0 (model.members_in (model.session_in tables.old.sessions.sessions s.0))))
        (here (P.state plant.new) config.now tables.new journal.new.events) (refusal_of result) }
    ensures sound { Sound (here (P.state plant.new) config.now tables.new journal.new.events) }
    ensures counted { FlightCounted (here (P.state plant.new) config.now tables.new journal.new.events) }
    ensures ready { IsReady (P.state plant.new) config.now tables.new journal.new.events }
    ensures host { tables.new.host ≡ tables.old.host }
    ensures room { length journal.new.events + journal.new.spare ≡ length journal.old.events + journal.old.spare }
    ensures spare { 1 ≤ journal.new.spare }
    ensures faults { Counted (is_stop (refusal_of result)) (P.state plant.old).faults (P.state plant.new).faults }
{
    for place in 0..tables.sessions.member_count(s) {
        drain_place(plant, config, tables, journal, s, server, place)?;
    }
    Ok(())
}

/// A server is asked for what it owes. Before it is asked to seal, its members are drained.
fn ask<P: Plant>(
    plant: &mut P,
    config: &Config,
    tables: &mut Tables,
    journal: &mut Journal,
    s: SessionId,
    server: ServerId,
    phase: PhaseName,
) -> Result<(), Refusal>
    requires ready { IsReady (P.state plant.old) config.now tables.old journal.old.events }
    requires sound { Sound (here (P.state plant.old) config.now tables.old journal.old.events) }
    requires counted { FlightCounted (here (P.state plant.old) config.now tables.old journal.old.events) }
    requires low { server.0 < 8 }
    requires known { server.0 < length config.now.names }
    requires few { length config.now.volumes ≤ 64 }
    requires room { most_events ≤ length journal.old.events + journal.old.spare }
    requires spare { 1 ≤ journal.old.spare }
    ensures way { Reaches (plans.ask (here (P.state plant.old) config.now tables.old journal.old.events) s.0 phase (model.members_in (model.session_in tables.old.sessions.sessions s.0)) server.0)
        (here (P.state plant.new) config.now tables.new journal.new.events) (refusal_of result) }
    ensures sound { Sound (here (P.state plant.new) config.now tables.new journal.new.events) }
    ensures counted { FlightCounted (here (P.state plant.new) config.now tables.new journal.new.events) }
    ensures ready { IsReady (P.state plant.new) config.now tables.new journal.new.events }
    ensures host { tables.new.host ≡ tables.old.host }
    ensures room { length journal.new.events + journal.new.spare ≡ length journal.old.events + journal.old.spare }
    ensures spare { 1 ≤ journal.new.spare }
    ensures faults { Counted (is_stop (refusal_of result)) (P.state plant.old).faults (P.state plant.new).faults }
{
    if is_draining(phase) {
        drain_members(plant, config, tables, journal, s, server)?;
    }
    ask_alone(plant, config, tables, journal, s, server)
}

/// The phase is Draining.
pub fn is_draining(phase: PhaseName) -> bool
    ensures { result ≡ plans.is_draining phase }
{
    match phase {
        PhaseName::Draining => true,
        _ => false,
    }
}

fn is_committing(phase: PhaseName) -> bool
    ensures { result ≡ plans.is_committing phase }
{
    match phase {
        PhaseName::Committing => true,
        _ => false,
    }
}

fn is_finishing(phase: PhaseName) -> bool
    ensures { result ≡ plans.is_finishing phase }
{
    match phase {
        PhaseName::Finishing => true,
        _ => false,
    }
}

/// No attempt goes on in that phase.
pub fn is_idle(phase: PhaseName) -> bool
    ensures { result ≡ is_idle phase }
{
    match phase {
        PhaseName::Idle => true,
        _ => false,
    }
}

/// Whether the attempt that goes on went from Committing to Finishing in this line, after a turn from one phase to another.
pub fn has_committed(committed: bool, before: PhaseName, after: PhaseName) -> bool
    ensures { result ≡ plans.has_committed committed before after }
{
    is_finishing(after) && (committed || is_committing(before))
}

/// How many attempts are still to count after a turn that ended in that phase.
pub fn still_left(committed: bool, after: PhaseName, left: u32) -> u32
    ensures { result ≡ plans.still_left committed after left }
{
    if committed && is_idle(after) {
        left.saturating_sub(1)
    } else {
        left
    }
}

/// The phase of a session's master.
pub fn phase_in(sessions: &Sessions, s: SessionId) -> PhaseName
    ensures { result ≡ plans.phase_of (model.mirror_in (model.session_in sessions.now.sessions s.0)) }
{
    match sessions.master(s) {
        Some(master) => master.phase(),
        None => PhaseName::None,
    }
}

/// The server that is asked next: none without a master, or where a paused master is Idle.
pub fn next_asked(sessions: &Sessions, s: SessionId) -> Option<ServerId>
    ensures next { option_map (λ x. x.0) result ≡ plans.next_asked (model.mirror_in (model.session_in sessions.now.sessions s.0)) }
    ensures low { IfSome result (λ x. x.0 < 8) }
{
    let master = sessions.master(s)?;
    if is_idle(master.phase()) && sessions.is_paused(s) {
        return None;
    }
    master.first_asked()
}

/// Asks one server after another, until so many attempts have counted.
fn take_turns<P: Plant>(
    plant: &mut P,
    config: &Config,
    tables: &mut Tables,
    journal: &mut Journal,
    s: SessionId,
    groups: u32,
) -> Result<(), Refusal>
    requires ready { IsReady (P.state plant.old) config.now tables.old journal.old.events }
    requires sound { Sound (here (P.state plant.old) config.now tables.old journal.old.events) }
    requires counted { FlightCounted (here (P.state plant.old) config.now tables.old journal.old.events) }
    requires few { length config.now.volumes ≤ 64 }
    requires room { most_events ≤ length journal.old.events + journal.old.spare }
    requires spare { 1 ≤ journal.old.spare }
    requires groups { groups ≤ most_groups }
    ensures way { Reaches (plans.turns (plans.most_turns groups) (here (P.state plant.old) config.now tables.old journal.old.events) s.0 groups false)
        (here (P.state plant.new) config.now tables.new journal.new.events) (refusal_of result) }
    ensures ready { IsReady (P.state plant.new) config.now tables.new journal.new.events }
    ensures host { tables.new.host ≡ tables.old.host }
    ensures spare { 1 ≤ journal.new.spare }
    ensures faults { Counted (is_stop (refusal_of result)) (P.state plant.old).faults (P.state plant.new).faults }
{
    let mut left = groups;
    let mut committed = false;
    for _ in 0..(groups + 1) * TURNS {
        if left == 0 {
            return Ok(());
        }
        let before = phase_in(&tables.sessions, s);
        let Some(server) = next_asked(&tables.sessions, s) else {
            return Err(Refusal::OutOfOrder { phase: before });
        };
        ask(plant, config, tables, journal, s, server, before)?;
        let after = phase_in(&tables.sessions, s);
        left = still_left(committed, after, left);
        committed = has_committed(committed, before, after);
    }
    ran_out(&tables.sessions, s, left)
}

/// How a line ends that may ask no server more.
fn ran_out(sessions: &Sessions, s: SessionId, left: u32) -> Result<(), Refusal>
    ensures { refusal_of result ≡ (if nat_eq left 0 then None else Some (Refusal.OutOfOrder (plans.phase_of (model.mirror_in (model.session_in sessions.now.sessions s.0))))) }
{
    if left == 0 {
        Ok(())
    } else {
        Err(Refusal::OutOfOrder {
            phase: phase_in(sessions, s),
        })
    }
}

/// No group is asked for, or too many, or the session has no master.
fn form_refusal(sessions: &Sessions, s: SessionId, groups: u32) -> Option<Refusal>
    ensures { result ≡ plans.form_refusal groups (model.mirror_in (model.session_in sessions.now.sessions s.0)) }
{
    if groups == 0 || MOST_GROUPS < groups {
        return Some(Refusal::Limit {
            which: Which::Groups,
        });
    }
    match sessions.master_server(s) {
        Some(_) => None,
        None => Some(Refusal::OutOfOrder {
            phase: PhaseName::None,
        }),
    }
}

/// Forms groups of a session one after another. Refused where the session isn't defined, where no group is asked for or more
/// than 10,000, or where the session has no master; and with the first refusal of a drain or an exchange.
fn form_groups<P: Plant>(
    plant: &mut P,
    config: &Config,
    tables: &mut Tables,
    journal: &mut Journal,
    s: SessionId,
    groups: u32,
) -> Result<(), Refusal>
    requires ready { IsReady (P.state plant.old) config.now tables.old journal.old.events }
    requires sound { Sound (here (P.state plant.old) config.now tables.old journal.old.events) }
    requires counted { FlightCounted (here (P.state plant.old) config.now tables.old journal.old.events) }
    requires few { length config.now.volumes ≤ 64 }
    requires room { most_events ≤ length journal.old.events + journal.old.spare }
    requires spare { 1 ≤ journal.old.spare }
    ensures way { Reaches (plans.form_in (here (P.state plant.old) config.now tables.old journal.old.events) s.0 groups (model.session_in tables.old.sessions.sessions s.0))
        (here (P.state plant.new) config.now tables.new journal.new.events) (refusal_of result) }
    ensures ready { IsReady (P.state plant.new) config.now tables.new journal.new.events }
    ensures host { tables.new.host ≡ tables.old.host }
    ensures spare { 1 ≤ journal.new.spare }
    ensures faults { Counted (is_stop (refusal_of result)) (P.state plant.old).faults (P.state plant.new).faults }
{
    if !tables.sessions.is_defined(s) {
        return Err(unknown_session());
    }
    if let Some(refusal) = form_refusal(&tables.sessions, s, groups) {
        return Err(refusal);
    }
    take_turns(plant, config, tables, journal, s, groups)
}

/// How the line is answered: with the refusal that ended it, or with the phase that the master is in.
fn formed_answer(formed: Result<(), Refusal>, sessions: &Sessions, s: SessionId) -> Said
    ensures { result ≡ plans.form_answer s.0 sessions.now.sessions (refusal_of formed) }
{
    match formed {
        Ok(()) => Said::Done(phase_of(sessions, s)),
        Err(refusal) => Said::Refused(refusal),
    }
}

/// Carries out an `@run`, and answers it. It takes the room for all that the journal may still hold before it begins, so want of
/// memory never cuts it short. Where there is no memory nothing has changed.
pub fn carry_run<P: Plant>(
    plant: &mut P,
    config: &Config,
    tables: &mut Tables,
    journal: &mut Journal,
    number: u32,
    s: SessionId,
    groups: u32,
) -> Result<(), AllocError>
    requires ready { IsReady (P.state plant.old) config.now tables.old journal.old.events }
    requires sound { Sound (here (P.state plant.old) config.now tables.old journal.old.events) }
    requires counted { FlightCounted (here (P.state plant.old) config.now tables.old journal.old.events) }
    requires few { length config.now.volumes ≤ 64 }
    requires below { length journal.old.events < most_events }
    ensures task { OnOk result (after_task (here (P.state plant.old) config.now tables.old journal.old.events) (record { line = number; asked = Ok (step.Run s.0 groups); listed = [] })
        ≡ here (P.state plant.new) config.now tables.new journal.new.events) }
    ensures wanted { OnErr result (WantsMemory (here (P.state plant.old) config.now tables.old journal.old.events) (Ok (step.Run s.0 groups)) (length journal.old.events + journal.old.spare)) }
    ensures same { OnErr result (here (P.state plant.new) config.now tables.new journal.new.events ≡ here (P.state plant.old) config.now tables.old journal.old.events) }
    ensures same_plant { OnErr result (P.state plant.new ≡ P.state plant.old) }
    ensures ready { IsReady (P.state plant.new) config.now tables.new journal.new.events }
    ensures faults { (f : ℕ) → Counted (told_stop journal.old.events) f (P.state plant.old).faults → Counted (told_stop journal.new.events) f (P.state plant.new).faults }
    ensures host { tables.new.host ≡ tables.old.host }
{
    if !has_room(journal) {
        return refuse(journal, number, Refusal::JournalFull);
    }
    journal.reserve(MOST_EVENTS - journal.len())?;
    let formed = form_groups(plant, config, tables, journal, s, groups);
    say(journal, number, formed_answer(formed, &tables.sessions, s));
    Ok(())
}
