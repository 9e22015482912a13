//! A run on a plant of its own, piece by piece, and what is read of it between two pieces.

ghost use Rattle.std.specs.Prelude.{ℕ, None, false, ◌≡◌, ◌<◌, ◌≤◌, ◌++◌, ◌+◌, ◌^◌, [], ◌∷◌, List, Option, Ok, IfOk, IfErr, IfSome, OnOk, length, count_by, map, if◌then◌else◌, slice_get, option_map, All, true};
ghost use Rattle.std.specs.List.{cons_option};
ghost use Rattle.std.specs.Option.{option_copied, option_map_or};
ghost use Rattle.dr_plant.specs.State.{PlantState, IsFresh};
ghost use Rattle.dr_model.specs.declared.event.Event.{Event};
ghost use Rattle.dr_model.specs.Answers.{phase_place};
ghost use Rattle.dr_model.specs.SessionEntries.{counts_at};
ghost use Rattle.dr_model.specs.Runs.{Task};
ghost use Rattle.dr_model.specs.Grammar.{line_of};
ghost use Rattle.dr_plan.specs.Parts.{IsSweep};
ghost use Rattle.dr_plan.specs.Pieces.{IsTextOf};
ghost use Rattle.dr_plan.specs.Sweep.{is_unbroken};
ghost use Rattle.dr_rows.specs.Outcome.{gives_group};
ghost use Rattle.dr_sweep.specs.Comes.{IsRun, Ran, Carries, CarriesOn, Fails, HaltsBy, Recovers, seen};
ghost use Rattle.dr_sweep.specs.Seen.{run_seen};
ghost use Rattle.dr_sweep.specs.Apart.{HasLines, IsNextAsked, is_well};
ghost use Rattle.dr_model.specs.Forming.{master_in, next_asked, phase_in};
ghost use Rattle.dr_model.specs.PairEntries.{is_copying};
ghost use Rattle.dr_sweep.specs.Moments.{phase_at, phases_of, runs_so, any_runs, recovered_in, answers_group, last_of, members_at, members_after, members_of};

use crate::fault::PointFault;
use dr_ids::{Fault, Member, PhaseName, ServerId, SessionId, VolumeId};
use dr_model::{Event, Journal, Name, Step};
use dr_plan::{SweepPlan, name_bytes, script_line};
use dr_plant::ModelPlant;
use dr_rows::{Members, SessionPhase};
use dr_script::{Line, read_line, read_name};
use dr_top::{OpenRun, Status};
use std::alloc::{AllocError, Global};

/// A run on a plant of its own.
#[derive(Drop)]
pub(crate) struct PointRun {
    plant: ModelPlant,
    run: OpenRun,
    journal: Journal,
}

/// 1 if so, and else 0.
fn one_if(is: bool) -> usize
    ensures { result ≡ (if is then 1 else 0) }
{
    usize::from(is)
}

/// The place of a phase among all of them.
fn phase_number(phase: PhaseName) -> u8
    ensures { result ≡ phase_place phase }
{
    phase as u8
}

/// The answer of a step that has a group.
fn answers_group(event: Option<&Event>) -> bool
    ensures { result ≡ answers_group (option_copied event.entry) }
{
    match event {
        Some(Event::Answer { code, a, .. }) => *code == 0 && *a % 256 == 5,
        _ => false,
    }
}

/// Whether an event is no refusal.
fn is_well(event: Option<&Event>) -> bool
    ensures { result ≡ is_well (option_copied event.entry) }
{
    match event {
        Some(Event::Answer { code, .. }) => *code == 0 || *code == 100,
        _ => true,
    }
}

/// A server that an `@run` asks next, and its name.
#[derive(Clone, Copy)]
pub(crate) struct NextAsked {
    pub(crate) server: ServerId,
    pub(crate) name: Name,
}

/// The session that the one step of a line recovers.
fn recovered_by(steps: &Line) -> Option<u8>
    ensures { result ≡ recovered_in (Ok steps.now) }
{
    if steps.len() != 1 {
        return None;
    }
    match steps.step(0) {
        Some(Step::Recover { session }) => Some(*session),
        _ => None,
    }
}

/// The session that a line recovers, if its one step is an `@recover`.
fn recovered_in(alloc: Global, line: &[u8]) -> Result<Option<u8>, AllocError>
    ensures { IfOk result (λ session. session ≡ recovered_in (line_of line.now)) }
{
    let mut steps = Line::new(alloc);
    match read_line(alloc, line, &mut steps) {
        Ok(()) => Ok(recovered_by(&steps)),
        Err(Fault::NoMemory) => Err(AllocError),
        Err(Fault::Refused(_)) => Ok(None),
    }
}

/// Adds members, if there are some.
fn push_members(all: &mut Vec<Members>, members: Option<Members>) -> Result<(), AllocError>
    ensures { OnOk result (all.new.items ≡ all.old.items ++ cons_option members []) }
{
    if let Some(members) = members {
        all.push(members)?;
    }
    Ok(())
}

impl PointRun {
    /// A run that carried out nothing yet.
    #[tactic(auto, unfolding(crate::specs::Seen::run_seen))]
    pub(crate) fn new(alloc: Global) -> PointRun
        ensures fresh { IsFresh (run_seen result).plant }
        ensures begins { Ran (run_seen result).plant [] (run_seen result) [] }
    {
        let plant = ModelPlant::new(alloc);
        let run = OpenRun::new(alloc);
        let journal = Journal::new(alloc);
        PointRun {
            plant,
            run,
            journal,
        }
    }

    /// Carries out the steps of a text more.
    #[tactic(auto, unfolding(crate::specs::Seen::run_seen))]
    pub(crate) fn carry(&mut self, alloc: Global, text: &[u8]) -> Result<(), PointFault>
        requires { IsRun (run_seen self.old) }
        ensures longer { length (run_seen self.old).events ≤ length (run_seen self.new).events }
        ensures stays { IsRun (run_seen self.new) }
        ensures goes { OnOk result ((began : PlantState) (ls more : List (List ℕ)) (steps : List Task) → Ran began ls (run_seen self.old) steps → IsTextOf more text.now → CarriesOn began ls more (run_seen self.new) steps) }
        ensures fails { IfErr result (λ fault. (began : PlantState) (ls more : List (List ℕ)) (steps : List Task) → Ran began ls (run_seen self.old) steps → IsTextOf more text.now → HaltsBy began (ls ++ more) (run_seen self.new) fault) }
    {
        match self
            .run
            .carry_out(alloc, text, &mut self.plant, &mut self.journal)
        {
            Status::Done | Status::DoneRefused => Ok(()),
            Status::TooLong => Err(PointFault::TooLong),
            _ => Err(PointFault::NoMemory),
        }
    }

    /// How many events there were.
    #[tactic(auto, unfolding(crate::specs::Seen::run_seen))]
    pub(crate) fn event_count(&self) -> usize
        ensures { result ≡ length (run_seen self.now).events }
    {
        self.journal.len()
    }

    /// What happened.
    #[tactic(auto, unfolding(crate::specs::Seen::run_seen))]
    pub(crate) fn journal(&self) -> &Journal
        ensures { result.now.events ≡ (run_seen self.now).events }
    {
        &self.journal
    }

    /// The same, if nothing more is carried out.
    #[tactic(auto, unfolding(crate::specs::Seen::run_seen))]
    pub(crate) fn into_journal(self) -> Journal
        ensures { result.events ≡ (run_seen self).events }
    {
        self.journal
    }

    /// The phase of the master of the session that was defined after `i` others of today's, if there are that many.
    #[tactic(auto, unfolding(crate::specs::Seen::run_seen))]
    fn phase_at(&self, i: usize) -> Option<SessionPhase>
        ensures { result ≡ option_map (phase_at (seen (run_seen self.now)).control) (slice_get (seen (run_seen self.now)).control.sessions i) }
    {
        match self.run.session_at(i) {
            Some(session) => Some(SessionPhase {
                session: session.0,
                phase: phase_number(self.run.phase_in(session)),
            }),
            None => None,
        }
    }

    /// The phase of each session's master, in order of definition.
    pub(crate) fn phases(&self, alloc: Global) -> Result<Vec<SessionPhase>, AllocError>
        ensures { IfOk result (λ phases. phases.items ≡ phases_of (seen (run_seen self.now)).control) }
    {
        let mut phases = Vec::new(alloc);
        while let Some(phase) = self.phase_at(phases.len()) {
            phases.push(phase)?;
        }
        Ok(phases)
    }

    /// Carries out a text more, and gives the phase of each session then.
    pub(crate) fn carry_to(
        &mut self,
        alloc: Global,
        text: &[u8],
    ) -> Result<Vec<SessionPhase>, PointFault>
        requires { IsRun (run_seen self.old) }
        ensures longer { length (run_seen self.old).events ≤ length (run_seen self.new).events }
        ensures stays { IsRun (run_seen self.new) }
        ensures goes { OnOk result (Carries (run_seen self.old) (run_seen self.new) text.now) }
        ensures phases { IfOk result (λ phases. phases.items ≡ phases_of (seen (run_seen self.new)).control) }
        ensures fails { IfErr result (Fails (run_seen self.old) (run_seen self.new) text.now) }
    {
        self.carry(alloc, text)?;
        match self.phases(alloc) {
            Ok(phases) => Ok(phases),
            Err(_) => Err(PointFault::NoMemory),
        }
    }

    /// Whether the server of that name runs.
    #[tactic(auto, unfolding(crate::specs::Seen::run_seen))]
    fn runs(&self, name: &Name) -> bool
        ensures { result ≡ runs_so (seen (run_seen self.now)).control name.now }
    {
        self.run.runs(&self.plant, name_bytes(name))
    }

    /// Whether one of the servers of some names runs.
    pub(crate) fn any_runs(&self, names: &[Name]) -> bool
        ensures { result ≡ any_runs (seen (run_seen self.now)).control names.now }
    {
        names.iter().any(|name| self.runs(name))
    }

    /// Whether the member that was added to the session after `i` others of today's counts in it.
    #[tactic(auto, unfolding(crate::specs::Seen::run_seen))]
    fn counts(&self, s: SessionId, i: usize) -> bool
        requires { IsRun (run_seen self.now) }
        ensures { result ≡ option_map_or (counts_at s.0 (seen (run_seen self.now)).control) (slice_get (members_of (seen (run_seen self.now)).control s.0) i) false }
    {
        self.run.counts(&self.plant, s, i).unwrap_or(false)
    }

    /// How many members of the session count in it, and how many it has.
    #[tactic(auto, unfolding(crate::specs::Seen::run_seen))]
    fn members(&self, s: SessionId) -> Members
        requires { IsRun (run_seen self.now) }
        ensures { result ≡ members_at (seen (run_seen self.now)).control s.0 }
    {
        let all = self.run.member_count(s);
        let mut counted = 0;
        for i in 0..all {
            counted += one_if(self.counts(s, i));
        }
        Members { counted, all }
    }

    /// Whether the last event is no refusal.
    #[tactic(auto, unfolding(crate::specs::Seen::run_seen))]
    pub(crate) fn is_well(&self) -> bool
        ensures { result ≡ is_well (last_of (run_seen self.now).events) }
    {
        match self.journal.len().checked_sub(1) {
            Some(last) => is_well(self.journal.event(last)),
            None => true,
        }
    }

    /// The phase of a session's master; none without a master.
    #[tactic(auto, unfolding(crate::specs::Seen::run_seen))]
    pub(crate) fn phase_of(&self, s: SessionId) -> PhaseName
        ensures { result ≡ phase_in (seen (run_seen self.now)).control s.0 }
    {
        self.run.phase_in(s)
    }

    /// How many members the session has, none if it isn't defined.
    #[tactic(auto, unfolding(crate::specs::Seen::run_seen))]
    pub(crate) fn member_count(&self, s: SessionId) -> usize
        ensures { result ≡ length (members_of (seen (run_seen self.now)).control s.0) }
    {
        self.run.member_count(s)
    }

    /// The member that was added to the session after `i` others of today's, if there are that many.
    #[tactic(auto, unfolding(crate::specs::Seen::run_seen))]
    pub(crate) fn member_at(&self, s: SessionId, i: usize) -> Option<Member>
        ensures { result ≡ slice_get (members_of (seen (run_seen self.now)).control s.0) i }
    {
        self.run.member_at(s, i)
    }

    /// Whether the volume is a primary in Copy Pending.
    #[tactic(auto, unfolding(crate::specs::Seen::run_seen))]
    pub(crate) fn is_copying(&self, v: VolumeId) -> bool
        requires { IsRun (run_seen self.now) }
        ensures { result ≡ is_copying v.0 (seen (run_seen self.now)).control }
    {
        self.run.is_copying(&self.plant, v)
    }

    /// The server that an `@run` of the session asks next, and its name.
    #[tactic(auto, unfolding(crate::specs::Seen::run_seen))]
    pub(crate) fn asked_next(&self, s: SessionId) -> Option<NextAsked>
        requires run { IsRun (run_seen self.now) }
        requires lines { HasLines (run_seen self.now) }
        ensures none { result ≡ None → next_asked (master_in (seen (run_seen self.now)).control s.0) ≡ None }
        ensures next { IfSome result (λ a. IsNextAsked (seen (run_seen self.now)).control s.0 a.server.0 a.name) }
    {
        let server = self.run.asked_next(s)?;
        let name = read_name(self.run.server_name(server))?;
        Some(NextAsked { server, name })
    }

    /// Whether the last event is an answer with a group.
    #[tactic(auto, unfolding(crate::specs::Seen::run_seen))]
    fn gave_group(&self) -> bool
        ensures { result ≡ answers_group (last_of (run_seen self.now).events) }
    {
        match self.journal.len().checked_sub(1) {
            Some(last) => answers_group(self.journal.event(last)),
            None => false,
        }
    }

    /// After a line that recovers a session, if it was answered with a group: its members.
    fn members_after(&self, session: Option<u8>) -> Option<Members>
        requires { IsRun (run_seen self.now) }
        ensures { cons_option result [] ≡ members_after session (seen (run_seen self.now)) }
    {
        let session = SessionId(session?);
        if !self.gave_group() {
            return None;
        }
        Some(self.members(session))
    }

    /// Carries out a line more.
    pub(crate) fn carry_line(&mut self, alloc: Global, line: &[u8]) -> Result<(), PointFault>
        requires run { IsRun (run_seen self.old) }
        requires line { is_unbroken line.now ≡ true }
        ensures longer { length (run_seen self.old).events ≤ length (run_seen self.new).events }
        ensures stays { IsRun (run_seen self.new) }
        ensures goes { OnOk result ((began : PlantState) (ls : List (List ℕ)) (steps : List Task) → Ran began ls (run_seen self.old) steps → CarriesOn began ls (line.now ∷ []) (run_seen self.new) steps) }
        ensures fails { IfErr result (λ fault. (began : PlantState) (ls : List (List ℕ)) (steps : List Task) → Ran began ls (run_seen self.old) steps → HaltsBy began (ls ++ line.now ∷ []) (run_seen self.new) fault) }
    {
        let text = script_line(alloc, line)?;
        self.carry(alloc, text.bytes())
    }

    /// Carries out a line of the recovery, and adds the members after it.
    fn recover_line(
        &mut self,
        alloc: Global,
        line: &[u8],
        members: &mut Vec<Members>,
    ) -> Result<(), PointFault>
        requires run { IsRun (run_seen self.old) }
        requires line { is_unbroken line.now ≡ true }
        ensures longer { length (run_seen self.old).events ≤ length (run_seen self.new).events }
        ensures stays { IsRun (run_seen self.new) }
        ensures goes { OnOk result ((began : PlantState) (ls : List (List ℕ)) (steps : List Task) → Ran began ls (run_seen self.old) steps → CarriesOn began ls (line.now ∷ []) (run_seen self.new) steps) }
        ensures adds { OnOk result (members.new.items ≡ members.old.items ++ members_after (recovered_in (line_of line.now)) (seen (run_seen self.new))) }
        ensures fails { IfErr result (λ fault. (began : PlantState) (ls : List (List ℕ)) (steps : List Task) → Ran began ls (run_seen self.old) steps → HaltsBy began (ls ++ line.now ∷ []) (run_seen self.new) fault) }
    {
        self.carry_line(alloc, line)?;
        let session = recovered_in(alloc, line)?;
        push_members(members, self.members_after(session))?;
        Ok(())
    }

    /// Carries out the recovery of a plan, and gives the members after each `@recover` that was answered with a group.
    pub(crate) fn recover(
        &mut self,
        alloc: Global,
        plan: &SweepPlan,
    ) -> Result<Vec<Members>, PointFault>
        requires run { IsRun (run_seen self.old) }
        requires sweep { IsSweep plan.now }
        ensures longer { length (run_seen self.old).events ≤ length (run_seen self.new).events }
        ensures stays { IsRun (run_seen self.new) }
        ensures goes { IfOk result (λ members. (began : PlantState) (ls : List (List ℕ)) (steps : List Task) → Ran began ls (run_seen self.old) steps → Recovers began ls plan.now.recovery (run_seen self.old) (run_seen self.new) steps members.items) }
        ensures fails { IfErr result (λ fault. (began : PlantState) (ls : List (List ℕ)) (steps : List Task) → Ran began ls (run_seen self.old) steps → HaltsBy began (ls ++ plan.now.recovery) (run_seen self.new) fault) }
    {
        let mut members = Vec::new(alloc);
        let lines = plan.recovery();
        for line in lines {
            self.recover_line(alloc, line.bytes(), &mut members)?;
        }
        Ok(members)
    }
}
