//! The run of one point's script, and the calm run.

ghost use Rattle.std.specs.Prelude.{ℕ, List, [], ◌≡◌, ◌≤◌, ◌+◌, ◌⊎◌, Some, true, false, length, option_map, IfOk, IfErr, OnOk, IsSome};
ghost use Rattle.std.specs.Option.{option_copied};
ghost use Rattle.std.specs.Str.Lines.{lines};
ghost use Rattle.dr_plan.specs.Parts.{IsSweep};
ghost use Rattle.dr_plan.specs.Pieces.{AreTexts, IsCutUp, IsTextOf, Pieces, pieces_of};
ghost use Rattle.dr_plant.specs.State.{PlantState, IsFresh};
ghost use Rattle.dr_model.specs.Runs.{Task};
ghost use Rattle.dr_plan.specs.Points.{script_of, calm_script};
ghost use Rattle.dr_sweep.specs.Comes.{Approaches, Carries, Fails, FailsAfter, FailsAt, FailsOn, IsRun, Ran, RunsWhole, Settles, Stops, first_stop, name_at, seen, servers_at, servers_lost};
ghost use Rattle.dr_sweep.specs.Moments.{any_runs};
ghost use Rattle.dr_sweep.specs.Seen.{run_seen};
ghost use Rattle.dr_sweep.specs.declared.fault.PointFault.TheVariants.{TooLong};
ghost use Rattle.dr_sweep.specs.Parts.{Tells};

use crate::fault::PointFault;
use crate::reach::{FirstStop, is_own, stop_since};
use crate::run::PointRun;
use dr_io::line_count;
use dr_model::{Journal, Name};
use dr_plan::{PieceTexts, Point, SweepPlan, calm_script, pieces_at};
use dr_plant::ModelPlant;
use dr_rows::{Members, SessionPhase};
use dr_top::{Status, try_script};
use std::alloc::Global;
use std::marker::Model;

/// What is told of the run of a point.
#[derive(Drop)]
pub(crate) struct PointTold {
    journal: Journal,
    before: u128,
    begin: usize,
    phases: Vec<SessionPhase>,
    members: Vec<Members>,
}

impl Model for PointTold {
    ghost use Rattle.dr_sweep.specs.Comes.{PointTold as RunTold};
    ghost use Rattle.std.specs.Prelude.{◌≤◌, length};

    ghost Value = { RunTold };

    ghost view = { λ t. record { events = t.journal.events; before = t.before; begin = t.begin; phases = t.phases.items; members = t.members.items } };

    ghost invariant = { λ t. t.begin ≤ length t.journal.events };
}

impl PointTold {
    /// What happened.
    pub(crate) fn journal(&self) -> &Journal
        ensures { result.now.events ≡ self.now.events }
    {
        &self.journal
    }

    /// How many lines of its script come before those of the recovery.
    pub(crate) fn before(&self) -> u128
        ensures { result ≡ self.now.before }
    {
        self.before
    }

    /// How many events there were as the recovery began.
    pub(crate) fn begin(&self) -> usize
        ensures { result ≡ self.now.begin }
    {
        self.begin
    }

    /// The phase of each session as the disaster came, and the members after each `@recover` that was answered with a group.
    pub(crate) fn into_lists(self) -> (Vec<SessionPhase>, Vec<Members>)
        ensures { (result.0.items ≡ self.phases) × (result.1.items ≡ self.members) }
    {
        (self.phases, self.members)
    }
}

/// How many servers a disaster takes.
pub(crate) fn servers_lost(plan: &SweepPlan, disaster: usize) -> usize
    ensures { result ≡ servers_lost plan.now disaster }
{
    match plan.disasters().get(disaster) {
        Some(lost) => lost.servers().len(),
        None => 0,
    }
}

/// The server of a disaster.
pub(crate) fn name_at(plan: &SweepPlan, disaster: usize, server: usize) -> Option<&Name>
    ensures name { option_copied result ≡ name_at plan.now disaster server }
    ensures sweep { IsSweep plan.now }
{
    plan.disasters().get(disaster)?.servers().get(server)
}

/// The servers that are lost at a point.
fn servers_at(plan: &SweepPlan, point: Point) -> &[Name]
    ensures servers { result.now ≡ servers_at plan.now point }
    ensures sweep { IsSweep plan.now }
{
    let (Point::Cut { disaster, .. } | Point::Gap { disaster, .. }) = point;
    match plan.disasters().get(disaster) {
        Some(lost) => lost.servers(),
        None => &[],
    }
}

/// Of the servers of a point's disaster, whose stop the journal tells first after its first events, that many.
fn first_stop(plan: &SweepPlan, point: Point, journal: &Journal, from: usize) -> FirstStop
    requires { from ≤ length journal.now.events }
    ensures { result ≡ first_stop plan.now point from journal.now.events }
{
    match point {
        Point::Cut { server, .. } => stop_since(journal, servers_at(plan, point), server, from),
        Point::Gap { .. } => FirstStop::Own,
    }
}

/// How many lines three texts have.
fn lines_of(pieces: &PieceTexts) -> u128
    ensures { result ≡ length (lines pieces.now.front) + length (lines pieces.now.strike) + length (lines pieces.now.stops) }
{
    let front = line_count(pieces.front()) as u128;
    let strike = line_count(pieces.strike()) as u128;
    let stops = line_count(pieces.stops()) as u128;
    front + strike + stops
}

/// Carries out a tried step, and says which server of the point's disaster stopped first in it.
fn strike(
    alloc: Global,
    plan: &SweepPlan,
    point: Point,
    text: &[u8],
    run: &mut PointRun,
) -> Result<FirstStop, PointFault>
    requires { IsRun (run_seen run.old) }
    ensures stays { IsRun (run_seen run.new) }
    ensures goes { OnOk result (Carries (run_seen run.old) (run_seen run.new) text.now) }
    ensures stopped { IfOk result (λ stop. stop ≡ first_stop plan.now point (length (run_seen run.old).events) (run_seen run.new).events) }
    ensures fails { IfErr result (Fails (run_seen run.old) (run_seen run.new) text.now) }
{
    let from = run.event_count();
    run.carry(alloc, text)?;
    Ok(first_stop(plan, point, run.journal(), from))
}

/// What is told of the lines before a disaster and the tried step.
#[derive(Drop)]
struct Reached {
    stop: FirstStop,
    phases: Vec<SessionPhase>,
}

/// Carries out the lines before the disaster, and the tried step. Gives the first stop in that step, and the phases before it.
fn approach(
    alloc: Global,
    plan: &SweepPlan,
    point: Point,
    pieces: &PieceTexts,
    run: &mut PointRun,
) -> Result<Reached, PointFault>
    requires run { IsRun (run_seen run.old) }
    requires fresh { IsFresh (run_seen run.old).plant }
    requires begins { Ran (run_seen run.old).plant [] (run_seen run.old) [] }
    requires sweep { IsSweep plan.now }
    ensures stays { IsRun (run_seen run.new) }
    ensures comes { IfOk result (λ a. (p : Pieces) → pieces_of plan.now point ≡ Some p → AreTexts pieces.now.front pieces.now.strike pieces.now.stops p → Approaches plan.now point p (run_seen run.old).plant (run_seen run.new) a.stop a.phases.items) }
    ensures fails { IfErr result (λ fault. (p : Pieces) → pieces_of plan.now point ≡ Some p → AreTexts pieces.now.front pieces.now.strike pieces.now.stops p → FailsAt plan.now point fault) }
{
    let phases = run.carry_to(alloc, pieces.front())?;
    match strike(alloc, plan, point, pieces.strike(), run) {
        Ok(stop) => Ok(Reached { stop, phases }),
        Err(fault) => Err(fault),
    }
}

/// Carries out the stops of servers. Fails, too, if one of these servers runs after them.
fn lose(alloc: Global, servers: &[Name], text: &[u8], run: &mut PointRun) -> Result<(), PointFault>
    requires { IsRun (run_seen run.old) }
    ensures stays { IsRun (run_seen run.new) }
    ensures goes { OnOk result (Carries (run_seen run.old) (run_seen run.new) text.now) }
    ensures off { OnOk result (any_runs (seen (run_seen run.new)).control servers.now ≡ false) }
    ensures fails { IfErr result (λ fault. Fails (run_seen run.old) (run_seen run.new) text.now fault
        ⊎ (Carries (run_seen run.old) (run_seen run.new) text.now × (any_runs (seen (run_seen run.new)).control servers.now ≡ true) × (fault ≡ TooLong))) }
{
    run.carry(alloc, text)?;
    if run.any_runs(servers) {
        return Err(PointFault::TooLong);
    }
    Ok(())
}

/// What is told of stops and recovery.
#[derive(Drop)]
struct Settled {
    begin: usize,
    members: Vec<Members>,
}

/// Carries out the stops of the other servers and the recovery.
fn settle(
    alloc: Global,
    plan: &SweepPlan,
    servers: &[Name],
    text: &[u8],
    run: &mut PointRun,
) -> Result<Settled, PointFault>
    requires run { IsRun (run_seen run.old) }
    requires sweep { IsSweep plan.now }
    ensures within { IfOk result (λ s. s.begin ≤ length (run_seen run.new).events) }
    ensures goes { IfOk result (λ s. (began : PlantState) (ls stops : List (List ℕ)) (steps : List Task) → Ran began ls (run_seen run.old) steps → IsTextOf stops text.now
        → Settles began ls stops plan.now.recovery servers.now (run_seen run.new) steps s.begin s.members.items) }
    ensures fails { IfErr result (λ fault. (began : PlantState) (ls stops : List (List ℕ)) (steps : List Task) → Ran began ls (run_seen run.old) steps → IsTextOf stops text.now
        → FailsAfter began ls stops plan.now.recovery servers.now (run_seen run.new) steps fault) }
{
    lose(alloc, servers, text, run)?;
    let begin = run.event_count();
    match run.recover(alloc, plan) {
        Ok(members) => Ok(Settled { begin, members }),
        Err(fault) => Err(fault),
    }
}

/// What is told of a point's run whose server stopped first.
fn told_of(
    pieces: &PieceTexts,
    phases: Vec<SessionPhase>,
    settled: Settled,
    run: PointRun,
) -> PointTold
    requires { settled.begin ≤ length (run_seen run).events }
    ensures events { result.events ≡ (run_seen run).events }
    ensures before { result.before ≡ length (lines pieces.now.front) + length (lines pieces.now.strike) + length (lines pieces.now.stops) }
    ensures begin { result.begin ≡ settled.begin }
    ensures phases { result.phases ≡ phases.items }
    ensures members { result.members ≡ settled.members.items }
{
    PointTold {
        journal: run.into_journal(),
        before: lines_of(pieces),
        begin: settled.begin,
        phases,
        members: settled.members,
    }
}

/// What the run of a point came to.
#[derive(Drop)]
pub(crate) enum Came {
    /// Its server was the first of the disaster to stop in the tried step.
    Struck(PointTold),
    /// Another stop was the first, or there was none; the run went no further.
    Missed(FirstStop),
}

/// Runs the script of a point whose pieces these are, to the tried step or to its end.
fn run_pieces(
    alloc: Global,
    plan: &SweepPlan,
    point: Point,
    pieces: &PieceTexts,
) -> Result<Came, PointFault>
    requires { IsCutUp plan.now point (Some pieces.now) }
    ensures tells { IfOk result (Tells plan.now point) }
    ensures fails { IfErr result (FailsAt plan.now point) }
{
    let servers = servers_at(plan, point);
    let mut run = PointRun::new(alloc);
    let reached = approach(alloc, plan, point, pieces, &mut run)?;
    if !is_own(reached.stop) {
        return Ok(Came::Missed(reached.stop));
    }
    match settle(alloc, plan, servers, pieces.stops(), &mut run) {
        Ok(settled) => Ok(Came::Struck(told_of(pieces, reached.phases, settled, run))),
        Err(fault) => Err(fault),
    }
}

/// Runs the script of a point.
pub(crate) fn run_point(alloc: Global, plan: &SweepPlan, point: Point) -> Result<Came, PointFault>
    requires { IsSome (script_of plan.now point) }
    ensures tells { IfOk result (Tells plan.now point) }
    ensures fails { IfErr result (FailsAt plan.now point) }
{
    match pieces_at(alloc, plan, point)? {
        Some(pieces) => run_pieces(alloc, plan, point, &pieces),
        None => Err(PointFault::NoMemory),
    }
}

/// The first stop in a tried step, of what is told of the lines up to it.
fn stop_of(reached: Reached) -> FirstStop
    ensures { result ≡ reached.stop }
{
    reached.stop
}

/// Runs the lines before a point's disaster and the tried step whose texts these are, and gives the first stop in that step.
fn stop_in_pieces(
    alloc: Global,
    plan: &SweepPlan,
    point: Point,
    pieces: &PieceTexts,
) -> Result<FirstStop, PointFault>
    requires cut { IsCutUp plan.now point (Some pieces.now) }
    requires sweep { IsSweep plan.now }
    ensures stops { IfOk result (Stops plan.now point) }
    ensures fails { IfErr result (FailsAt plan.now point) }
{
    let mut run = PointRun::new(alloc);
    let reached = approach(alloc, plan, point, pieces, &mut run)?;
    Ok(stop_of(reached))
}

/// Runs the lines before a point's disaster and the tried step, and gives the first stop in that step.
pub(crate) fn stop_at(
    alloc: Global,
    plan: &SweepPlan,
    point: Point,
) -> Result<FirstStop, PointFault>
    requires script { IsSome (script_of plan.now point) }
    requires sweep { IsSweep plan.now }
    ensures stops { IfOk result (Stops plan.now point) }
    ensures fails { IfErr result (FailsAt plan.now point) }
{
    match pieces_at(alloc, plan, point)? {
        Some(pieces) => stop_in_pieces(alloc, plan, point, &pieces),
        None => Err(PointFault::NoMemory),
    }
}

/// Runs a script to its end on a plant of its own, and gives its journal.
fn run_script(alloc: Global, script: &[u8]) -> Result<Journal, PointFault>
    ensures runs { IfOk result (λ journal. RunsWhole script.now journal.events) }
    ensures fails { IfErr result (FailsOn script.now) }
{
    let mut plant = ModelPlant::new(alloc);
    let mut journal = Journal::new(alloc);
    match try_script(alloc, script, &mut plant, &mut journal) {
        Status::Done | Status::DoneRefused => Ok(journal),
        Status::TooLong => Err(PointFault::TooLong),
        _ => Err(PointFault::NoMemory),
    }
}

/// Runs the set-up and all tried steps of a plan, and gives the journal.
pub(crate) fn run_calm(alloc: Global, plan: &SweepPlan) -> Result<Journal, PointFault>
    ensures runs { IfOk result (λ journal. RunsWhole (calm_script plan.now) journal.events) }
    ensures fails { IfErr result (FailsOn (calm_script plan.now)) }
{
    let script = calm_script(alloc, plan)?;
    run_script(alloc, script.bytes())
}
