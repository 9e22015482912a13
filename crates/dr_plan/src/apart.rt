//! A plan with other tried steps than those that were read.

ghost use Rattle.std.specs.Prelude.{◌≡◌, ◌∷◌, ◌++◌, [], true, IfOk, OnOk, All};
ghost use Rattle.dr_model.specs.LineText.{IsWritten};
ghost use Rattle.dr_plan.specs.Parts.{IsOneStep, IsSweep};
ghost use Rattle.dr_plan.specs.Reading.{parts_from};
ghost use Rattle.dr_plan.specs.Sweep.{is_unbroken, Tried as TriedStep};

use crate::lines::{push_line, push_part};
use crate::names::Disaster;
use crate::plan::{Draft, SweepPlan, Tried, Use};
use dr_ids::Text;
use dr_model::Step;
use std::alloc::{AllocError, Global};

/// The same lines.
fn copied_lines(alloc: Global, lines: &[Text]) -> Result<Vec<Text>, AllocError>
    ensures { IfOk result (λ copy. copy.items ≡ lines.now) }
{
    let mut copy = Vec::new(alloc);
    for line in lines {
        push_line(alloc, &mut copy, line.bytes())?;
    }
    Ok(copy)
}

/// The same disaster.
fn copied_disaster(alloc: Global, lost: &Disaster) -> Result<Disaster, AllocError>
    ensures { IfOk result (λ copy. copy ≡ lost.now) }
{
    let mut servers = Vec::new(alloc);
    servers.extend_from_slice(lost.servers())?;
    Ok(Disaster { servers })
}

/// The same disasters.
fn copied_disasters(alloc: Global, loses: &[Disaster]) -> Result<Vec<Disaster>, AllocError>
    ensures { IfOk result (λ copy. copy.items ≡ loses.now) }
{
    let mut copy = Vec::new(alloc);
    for lost in loses {
        copy.push(copied_disaster(alloc, lost)?)?;
    }
    Ok(copy)
}

/// The same use.
fn copied_use(alloc: Global, of: &Use) -> Result<Use, AllocError>
    ensures { IfOk result (λ copy. copy ≡ of.now) }
{
    let mut pairs = Vec::new(alloc);
    pairs.extend_from_slice(of.pairs())?;
    Ok(Use {
        name: of.name(),
        pairs,
    })
}

/// The same uses.
fn copied_uses(alloc: Global, uses: &[Use]) -> Result<Vec<Use>, AllocError>
    ensures { IfOk result (λ copy. copy.items ≡ uses.now) }
{
    let mut copy = Vec::new(alloc);
    for of in uses {
        copy.push(copied_use(alloc, of)?)?;
    }
    Ok(copy)
}

/// The same numbers.
fn copied_numbers(alloc: Global, numbers: &[usize]) -> Result<Vec<usize>, AllocError>
    ensures { IfOk result (λ copy. copy.items ≡ numbers.now) }
{
    let mut copy = Vec::new(alloc);
    copy.extend_from_slice(numbers)?;
    Ok(copy)
}

/// Adds a step that is tried as another plan has it.
pub fn push_step(alloc: Global, all: &mut Vec<Tried>, step: &Tried) -> Result<(), AllocError>
    ensures { OnOk result (all.new.items ≡ all.old.items ++ step.now ∷ []) }
{
    let mut text = Text::new(alloc);
    text.append(step.text())?;
    all.push(Tried {
        line: step.line(),
        part: step.part(),
        text,
    })?;
    Ok(())
}

/// Adds steps as the parts of the line with that number, each as the line that it would be by itself.
pub fn push_step_parts(
    alloc: Global,
    all: &mut Vec<Tried>,
    number: usize,
    steps: &[Step],
) -> Result<(), AllocError>
    requires { All IsWritten steps.now }
    ensures { OnOk result (all.new.items ≡ all.old.items ++ parts_from number 1 steps.now) }
{
    for i in 0..steps.len() {
        push_part(alloc, all, number, i + 1, &steps[i])?;
    }
    Ok(())
}

/// The plan with these steps in place of its tried ones. Fails where there is no memory.
pub fn with_tried(
    alloc: Global,
    plan: &SweepPlan,
    tried: Vec<Tried>,
) -> Result<SweepPlan, AllocError>
    requires unbroken { All (λ (t : TriedStep). is_unbroken t.text ≡ true) tried.items }
    requires one { All (λ (t : TriedStep). IsOneStep t.text) tried.items }
    ensures { IfOk result (λ made. made ≡ record plan.now { tried = tried.items }) }
{
    let plan = plan.draft();
    let draft = Draft {
        loses: copied_disasters(alloc, &plan.loses)?,
        uses: copied_uses(alloc, &plan.uses)?,
        bound: plan.bound,
        setup: copied_lines(alloc, &plan.setup)?,
        tried,
        then_line: plan.then_line,
        recovery: copied_lines(alloc, &plan.recovery)?,
        announced: copied_numbers(alloc, &plan.announced)?,
    };
    Ok(SweepPlan::of(draft))
}
