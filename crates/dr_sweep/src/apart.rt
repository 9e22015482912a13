//! Tried steps of a plan, each `@run` taken apart into the drains and exchanges to which it comes.

ghost use Rattle.std.specs.Prelude.{ℕ, List, [], ◌≡◌, ◌++◌, ◌∷◌, Ok, Some, IfOk, IfErr, OnOk};
ghost use Rattle.dr_plant.specs.State.{PlantState, IsFresh};
ghost use Rattle.dr_model.specs.Grammar.{line_of};
ghost use Rattle.dr_model.specs.Runs.{Task};
ghost use Rattle.dr_plan.specs.Parts.{IsSweep};
ghost use Rattle.dr_sweep.specs.Apart.{run_in, FailsApart, FailsInStep, FailsInSteps, GoesAllApart, GoesApart, HasLines, IsTakenApart, StandAlone};
ghost use Rattle.dr_sweep.specs.Comes.{CarriesOn, HaltsBy, IsRun, Ran};
ghost use Rattle.dr_sweep.specs.Seen.{run_seen};

use crate::fault::PointFault;
use crate::run::PointRun;
use dr_ids::Fault;
use dr_model::Step;
use dr_plan::{SweepPlan, Tried, push_step, push_step_parts, setup_text, with_tried};
use dr_script::{Line, read_line};
use std::alloc::{AllocError, Global};

/// An `@run`: its session, and how many groups it asks for.
#[derive(Clone, Copy)]
pub(crate) struct RunAsked {
    pub(crate) session: u8,
    pub(crate) groups: u32,
}

/// The `@run` that the one step of a line is.
fn run_by(steps: &Line) -> Option<RunAsked>
    ensures { result ≡ run_in (Ok steps.now) }
{
    if steps.len() != 1 {
        return None;
    }
    match steps.step(0) {
        Some(Step::Run { session, groups }) => Some(RunAsked {
            session: *session,
            groups: *groups,
        }),
        _ => None,
    }
}

/// The `@run` that a line's one step is.
fn run_in(alloc: Global, line: &[u8]) -> Result<Option<RunAsked>, AllocError>
    ensures { IfOk result (λ asked. asked ≡ run_in (line_of line.now)) }
{
    let mut steps = Line::new(alloc);
    match read_line(alloc, line, &mut steps) {
        Ok(()) => Ok(run_by(&steps)),
        Err(Fault::NoMemory) => Err(AllocError),
        Err(Fault::Refused(_)) => Ok(None),
    }
}

/// Carries out a step that is tried as it is.
fn keep_step(
    alloc: Global,
    run: &mut PointRun,
    tried: &mut Vec<Tried>,
    step: &Tried,
) -> Result<(), PointFault>
    requires run { IsRun (run_seen run.old) }
    requires alone { StandAlone (step.now ∷ []) }
    ensures stays { IsRun (run_seen run.new) }
    ensures kept { OnOk result (tried.new.items ≡ tried.old.items ++ step.now ∷ []) }
    ensures goes { OnOk result ((began : PlantState) (ls : List (List ℕ)) (done : List Task) → Ran began ls (run_seen run.old) done → CarriesOn began ls (step.now.text ∷ []) (run_seen run.new) done) }
    ensures fails { IfErr result (λ fault. (began : PlantState) (ls : List (List ℕ)) (done : List Task) → Ran began ls (run_seen run.old) done → HaltsBy began (ls ++ step.now.text ∷ []) (run_seen run.new) fault) }
{
    push_step(alloc, tried, step)?;
    run.carry_line(alloc, step.text())
}

/// Takes an `@run` apart, and carries out its parts. One that has none is carried out as it is.
fn take_run_apart(
    alloc: Global,
    run: &mut PointRun,
    tried: &mut Vec<Tried>,
    step: &Tried,
    asked: RunAsked,
) -> Result<(), PointFault>
    requires run { IsRun (run_seen run.old) }
    requires lines { HasLines (run_seen run.old) }
    requires alone { StandAlone (step.now ∷ []) }
    requires old_alone { StandAlone tried.old.items }
    requires is_run { run_in (line_of step.now.text) ≡ Some asked }
    ensures stays { IsRun (run_seen run.new) }
    ensures alone { OnOk result (StandAlone tried.new.items) }
    ensures goes { OnOk result (GoesApart (run_seen run.old) (run_seen run.new) step.now tried.old.items tried.new.items) }
    ensures fails { IfErr result (FailsInStep (run_seen run.old) (run_seen run.new) step.now) }
{
    let parts = run.parts_of_run(alloc, asked)?;
    if parts.is_empty() {
        keep_step(alloc, run, tried, step)?;
        return Ok(());
    }
    push_step_parts(alloc, tried, step.line(), &parts)?;
    Ok(())
}

/// Carries out a step that is tried, an `@run` part by part.
fn take_step_apart(
    alloc: Global,
    run: &mut PointRun,
    tried: &mut Vec<Tried>,
    step: &Tried,
) -> Result<(), PointFault>
    requires run { IsRun (run_seen run.old) }
    requires lines { HasLines (run_seen run.old) }
    requires alone { StandAlone (step.now ∷ []) }
    requires old_alone { StandAlone tried.old.items }
    ensures stays { IsRun (run_seen run.new) }
    ensures alone { OnOk result (StandAlone tried.new.items) }
    ensures goes { OnOk result (GoesApart (run_seen run.old) (run_seen run.new) step.now tried.old.items tried.new.items) }
    ensures fails { IfErr result (FailsInStep (run_seen run.old) (run_seen run.new) step.now) }
{
    let asked = run_in(alloc, step.text())?;
    match asked {
        Some(asked) => take_run_apart(alloc, run, tried, step, asked),
        None => {
            keep_step(alloc, run, tried, step)?;
            Ok(())
        }
    }
}

/// Carries out steps that are tried, each `@run` part by part, and gives them so.
fn take_steps_apart(
    alloc: Global,
    run: &mut PointRun,
    steps: &[Tried],
) -> Result<Vec<Tried>, PointFault>
    requires run { IsRun (run_seen run.old) }
    requires lines { HasLines (run_seen run.old) }
    requires alone { StandAlone steps.now }
    ensures alone { IfOk result (λ tried. StandAlone tried.items) }
    ensures goes { IfOk result (λ tried. GoesAllApart (run_seen run.old) (run_seen run.new) steps.now tried.items) }
    ensures fails { IfErr result (FailsInSteps (run_seen run.old) (run_seen run.new) steps.now) }
{
    let mut tried = Vec::new(alloc);
    for step in steps {
        take_step_apart(alloc, run, &mut tried, step)?;
    }
    Ok(tried)
}

/// The tried steps of a plan, each `@run` in its drains and exchanges, as they come on a run of their own.
fn steps_apart(alloc: Global, plan: &SweepPlan) -> Result<Vec<Tried>, PointFault>
    requires { IsSweep plan.now }
    ensures alone { IfOk result (λ tried. StandAlone tried.items) }
    ensures apart { IfOk result (λ tried. IsTakenApart plan.now (record plan.now { tried = tried.items })) }
    ensures fails { IfErr result (FailsApart plan.now) }
{
    let mut run = PointRun::new(alloc);
    let setup = setup_text(alloc, plan)?;
    run.carry(alloc, setup.bytes())?;
    take_steps_apart(alloc, &mut run, plan.tried())
}

/// Says that a plan is one. Does nothing.
fn tell_sweep(plan: &SweepPlan)
    ensures { IsSweep plan.now }
{
    let _count = plan.disasters().len();
}

/// The plan of which the points are tried: each tried `@run` is taken apart into the drains and exchanges that it makes if no disaster comes.
pub(crate) fn take_apart(alloc: Global, plan: &SweepPlan) -> Result<SweepPlan, PointFault>
    ensures apart { IfOk result (IsTakenApart plan.now) }
    ensures fails { IfErr result (FailsApart plan.now) }
{
    tell_sweep(plan);
    let tried = steps_apart(alloc, plan)?;
    Ok(with_tried(alloc, plan, tried)?)
}
