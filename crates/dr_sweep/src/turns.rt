//! The drains and exchanges to which an `@run` comes, found one by one on a run: each is carried out as a line before the next one is looked for.

ghost use Rattle.std.specs.Prelude.{ℕ, List, ◌≡◌, ◌≤◌, ◌<◌, ◌^◌, ◌+◌, ◌++◌, ◌∷◌, [], IfOk, IfErr, None, OnOk, take, length, true};
ghost use Rattle.std.specs.List.{cons_option};
ghost use Rattle.dr_model.specs.Control.{World};
ghost use Rattle.dr_model.specs.Forming.{Way, drains, formed};
ghost use Rattle.dr_model.specs.declared.step.Step.TheVariants.{Drain, Exchange};
ghost use Rattle.dr_model.specs.LineText.{IsWritten, name_fits};
ghost use Rattle.dr_model.specs.Limits.{most_groups};
ghost use Rattle.dr_model.specs.SessionEntries.{members_on};
ghost use Rattle.dr_laws_runs.specs.Walks.{IsPartOf};
ghost use Rattle.dr_sweep.specs.Apart.{AddsAll, AddsParts, FailsInParts, HasLines, IsNextAsked, IsPartWay, asked_way, drained_by, drained_first, turns_of};
ghost use Rattle.dr_sweep.specs.Comes.{IsRun, seen};
ghost use Rattle.dr_sweep.specs.Moments.{members_of};
ghost use Rattle.dr_sweep.specs.Seen.{run_seen};

use crate::apart::RunAsked;
use crate::fault::PointFault;
use crate::run::{NextAsked, PointRun};
use dr_ids::{Member, PhaseName, ServerId, SessionId};
use dr_model::{Name, Step};
use dr_script::print_step;
use dr_steps::{has_committed, has_room, is_draining, still_left};
use std::alloc::{AllocError, Global};

/// The most groups that one `@run` forms.
const MOST_GROUPS: u32 = 10_000;

/// How many servers are asked at most for each group, and for what went on before.
const TURNS: u32 = 64;

/// Adds a member, if there is one and it is on that server.
fn push_if_on(
    members: &mut Vec<Member>,
    member: Option<Member>,
    server: ServerId,
) -> Result<(), AllocError>
    ensures { OnOk result (members.new.items ≡ members.old.items ++ members_on server.0 (cons_option member [])) }
{
    if let Some(member) = member {
        if member.server == server {
            members.push(member)?;
        }
    }
    Ok(())
}

/// The step that drains a primary.
fn drain_of(volume: u16) -> Step
    ensures is { result ≡ Drain volume None }
    ensures written { IsWritten result }
{
    Step::Drain { volume, most: None }
}

/// The step by which a server is asked for what it owes in a session.
fn exchange_of(session: u8, server: Name) -> Step
    requires session { 1 ≤ session }
    requires fits { name_fits server ≡ true }
    ensures is { result ≡ Exchange session server true }
    ensures written { IsWritten result }
{
    Step::Exchange {
        session,
        server,
        reply: true,
    }
}

/// Adds a part.
fn push_part(parts: &mut Vec<Step>, step: Step) -> Result<(), AllocError>
    ensures { OnOk result (parts.new.items ≡ parts.old.items ++ step ∷ []) }
{
    parts.push(step)?;
    Ok(())
}

impl PointRun {
    /// Carries out a drain or an exchange of an `@run`, and says whether that goes on. Without room in the journal nothing is done.
    fn carry_part(
        &mut self,
        alloc: Global,
        s: SessionId,
        parts: &mut Vec<Step>,
        step: Step,
    ) -> Result<bool, PointFault>
        requires run { IsRun (run_seen self.old) }
        requires written { IsWritten step }
        requires of_run { IsPartOf s.0 step }
        ensures stays { IsRun (run_seen self.new) }
        ensures adds { IfOk result (λ on. (way : World → Way) → IsPartWay (run_seen self.old) step way → AddsParts (run_seen self.old) (run_seen self.new) s.0 parts.old.items parts.new.items way on) }
        ensures fails { IfErr result (FailsInParts (run_seen self.old) (run_seen self.new) s.0) }
    {
        if !has_room(self.journal()) {
            return Ok(false);
        }
        let text = print_step(alloc, &step)?;
        push_part(parts, step)?;
        self.carry_line(alloc, text.bytes())?;
        Ok(self.is_well())
    }

    /// The members of a session on a server, in order.
    fn members_on(
        &self,
        alloc: Global,
        s: SessionId,
        server: ServerId,
    ) -> Result<Vec<Member>, AllocError>
        ensures { IfOk result (λ members. members.items ≡ members_on server.0 (members_of (seen (run_seen self.now)).control s.0)) }
    {
        let mut members = Vec::new(alloc);
        for i in 0..self.member_count(s) {
            push_if_on(&mut members, self.member_at(s, i), server)?;
        }
        Ok(members)
    }

    /// Drains the primary of a member of the session, if it is in Copy Pending.
    fn drain_member(
        &mut self,
        alloc: Global,
        s: SessionId,
        parts: &mut Vec<Step>,
        member: Member,
    ) -> Result<bool, PointFault>
        requires { IsRun (run_seen self.old) }
        ensures stays { IsRun (run_seen self.new) }
        ensures adds { IfOk result (AddsParts (run_seen self.old) (run_seen self.new) s.0 parts.old.items parts.new.items (drained_by member)) }
        ensures fails { IfErr result (FailsInParts (run_seen self.old) (run_seen self.new) s.0) }
    {
        if !self.is_copying(member.a) {
            return Ok(true);
        }
        let step = drain_of(member.a.0);
        self.carry_part(alloc, s, parts, step)
    }

    /// Drains the primaries of members of the session, in order.
    fn drain_members(
        &mut self,
        alloc: Global,
        s: SessionId,
        parts: &mut Vec<Step>,
        members: &[Member],
    ) -> Result<bool, PointFault>
        requires { IsRun (run_seen self.old) }
        ensures stays { IsRun (run_seen self.new) }
        ensures adds { IfOk result (AddsParts (run_seen self.old) (run_seen self.new) s.0 parts.old.items parts.new.items (λ v. drains v members.now)) }
        ensures fails { IfErr result (FailsInParts (run_seen self.old) (run_seen self.new) s.0) }
    {
        for member in members {
            let on = self.drain_member(alloc, s, parts, *member)?;
            if !on {
                return Ok(false);
            }
        }
        Ok(true)
    }

    /// Drains the members on a server that is to be asked to seal.
    fn drain_first(
        &mut self,
        alloc: Global,
        s: SessionId,
        parts: &mut Vec<Step>,
        server: ServerId,
        phase: PhaseName,
    ) -> Result<bool, PointFault>
        requires { IsRun (run_seen self.old) }
        ensures stays { IsRun (run_seen self.new) }
        ensures adds { IfOk result (AddsParts (run_seen self.old) (run_seen self.new) s.0 parts.old.items parts.new.items (drained_first s.0 server.0 phase)) }
        ensures fails { IfErr result (FailsInParts (run_seen self.old) (run_seen self.new) s.0) }
    {
        if !is_draining(phase) {
            return Ok(true);
        }
        let members = self.members_on(alloc, s, server)?;
        self.drain_members(alloc, s, parts, &members)
    }

    /// Asks a server for what it owes; before it is asked to seal, its members are drained.
    fn ask(
        &mut self,
        alloc: Global,
        s: SessionId,
        parts: &mut Vec<Step>,
        asked: NextAsked,
        phase: PhaseName,
    ) -> Result<bool, PointFault>
        requires run { IsRun (run_seen self.old) }
        requires session { 1 ≤ s.0 }
        requires next { IsNextAsked (seen (run_seen self.old)).control s.0 asked.server.0 asked.name }
        ensures stays { IsRun (run_seen self.new) }
        ensures adds { IfOk result (AddsParts (run_seen self.old) (run_seen self.new) s.0 parts.old.items parts.new.items (asked_way s.0 asked.server.0 phase)) }
        ensures fails { IfErr result (FailsInParts (run_seen self.old) (run_seen self.new) s.0) }
    {
        let on = self.drain_first(alloc, s, parts, asked.server, phase)?;
        if !on {
            return Ok(false);
        }
        let step = exchange_of(s.0, asked.name);
        self.carry_part(alloc, s, parts, step)
    }

    /// Asks one server after another, until that many groups were formed.
    fn take_turns(
        &mut self,
        alloc: Global,
        s: SessionId,
        parts: &mut Vec<Step>,
        groups: u32,
    ) -> Result<(), PointFault>
        requires run { IsRun (run_seen self.old) }
        requires lines { HasLines (run_seen self.old) }
        requires session { 1 ≤ s.0 }
        requires groups { groups ≤ most_groups }
        ensures stays { IsRun (run_seen self.new) }
        ensures adds { OnOk result (AddsAll (run_seen self.old) (run_seen self.new) s.0 parts.old.items parts.new.items (turns_of s.0 groups)) }
        ensures fails { IfErr result (FailsInParts (run_seen self.old) (run_seen self.new) s.0) }
    {
        let mut left = groups;
        let mut committed = false;
        for _ in 0..(groups + 1) * TURNS {
            if left == 0 {
                return Ok(());
            }
            let before = self.phase_of(s);
            let Some(asked) = self.asked_next(s) else {
                return Ok(());
            };
            let on = self.ask(alloc, s, parts, asked, before)?;
            if !on {
                return Ok(());
            }
            let after = self.phase_of(s);
            left = still_left(committed, after, left);
            committed = has_committed(committed, before, after);
        }
        Ok(())
    }

    /// The drains and exchanges of an `@run`, which were carried out. It has none if the journal has no room for a step, too many groups are asked
    /// for, or no server can be asked.
    pub(crate) fn parts_of_run(
        &mut self,
        alloc: Global,
        asked: RunAsked,
    ) -> Result<Vec<Step>, PointFault>
        requires run { IsRun (run_seen self.old) }
        requires lines { HasLines (run_seen self.old) }
        requires session { 1 ≤ asked.session }
        ensures stays { IsRun (run_seen self.new) }
        ensures adds { IfOk result (λ parts. AddsAll (run_seen self.old) (run_seen self.new) asked.session [] parts.items (λ v. formed v asked.session asked.groups)) }
        ensures fails { IfErr result (FailsInParts (run_seen self.old) (run_seen self.new) asked.session) }
    {
        let mut parts = Vec::new(alloc);
        if MOST_GROUPS < asked.groups {
            return Ok(parts);
        }
        if !has_room(self.journal()) {
            return Ok(parts);
        }
        self.take_turns(alloc, SessionId(asked.session), &mut parts, asked.groups)?;
        Ok(parts)
    }
}
