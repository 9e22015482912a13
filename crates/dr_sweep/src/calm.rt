//! What the calm run comes to.

ghost use Rattle.std.specs.Prelude.{◌≡◌, ◌<◌, ◌≤◌, ◌++◌, ◌+◌, ◌^◌, [], IfOk, OnOk, slice_get};
ghost use Rattle.std.specs.Option.{option_copied};
ghost use Rattle.dr_list.specs.Seen.{heard_seen};
ghost use Rattle.dr_model.specs.Text.{said_text};
ghost use Rattle.dr_sweep.specs.Calm.{calm_steps, noted_step, heard_calm, calm_heard, calm_of, none_heard};
ghost use Rattle.dr_sweep.specs.Seen.{calm_seen};

use crate::acks::written;
use dr_ids::Text;
use dr_list::{Heard, push_said};
use dr_model::{AnswerNumbers, Event, Journal};
use dr_plan::{SweepPlan, Tried, setup_steps};
use dr_rows::{Calm, CalmStep};
use std::alloc::{AllocError, Global};

/// What was heard of the calm run so far.
#[derive(Drop)]
struct CalmHeard {
    told: Heard,
    steps: usize,
    noted: Vec<CalmStep>,
}

/// The step at a place, of those of the set-up and those that are tried.
fn step_at<'a>(plan: &'a SweepPlan, setup: &'a [Tried], place: usize) -> Option<&'a Tried>
    ensures { option_copied result ≡ slice_get (setup.now ++ plan.now.tried) place }
{
    match place.checked_sub(setup.len()) {
        Some(tried) => plan.tried().get(tried),
        None => setup.get(place),
    }
}

/// What an answer says.
fn said(alloc: Global, told: &Heard, of: AnswerNumbers) -> Result<Text, AllocError>
    ensures { IfOk result (λ text. text ≡ said_text (heard_seen told.now) of.code of.a of.b of.c) }
{
    let mut out = Vec::new(alloc);
    push_said(&mut out, told, of)?;
    let mut text = Text::new(alloc);
    text.append(&out)?;
    Ok(text)
}

/// A step that was so answered.
fn step_of(
    alloc: Global,
    told: &Heard,
    of: AnswerNumbers,
    step: &Tried,
) -> Result<CalmStep, AllocError>
    ensures { IfOk result (λ found. found ≡ record { line = step.now.line; text = step.now.text; code = of.code; says = said_text (heard_seen told.now) of.code of.a of.b of.c }) }
{
    let mut text = Text::new(alloc);
    text.append(step.text())?;
    let says = said(alloc, told, of)?;
    Ok(CalmStep::new(step.line(), text, of.code, says))
}

/// Adds a step that was so answered, if that isn't ok.
fn push_step(
    alloc: Global,
    noted: &mut Vec<CalmStep>,
    told: &Heard,
    of: AnswerNumbers,
    step: Option<&Tried>,
) -> Result<(), AllocError>
    ensures { OnOk result (noted.new.items ≡ noted.old.items ++ noted_step of.code (said_text (heard_seen told.now) of.code of.a of.b of.c) (option_copied step.entry)) }
{
    let Some(step) = step else {
        return Ok(());
    };
    if of.code == 0 {
        return Ok(());
    }
    noted.push(step_of(alloc, told, of, step)?)?;
    Ok(())
}

impl CalmHeard {
    /// Before the first event.
    fn new(alloc: Global) -> CalmHeard
        ensures { calm_seen result ≡ none_heard }
    {
        CalmHeard {
            told: Heard::new(),
            steps: 0,
            noted: Vec::new(alloc),
        }
    }

    /// Hears the answer of the next step.
    fn note(
        &mut self,
        alloc: Global,
        of: AnswerNumbers,
        step: Option<&Tried>,
    ) -> Result<(), AllocError>
        requires { self.old.steps + 1 < 2 ^ 64 }
        ensures { OnOk result (calm_seen self.new ≡ record (calm_seen self.old) { steps = self.old.steps + 1; noted = (calm_seen self.old).noted ++ noted_step of.code (said_text (calm_seen self.old).told of.code of.a of.b of.c) (option_copied step.entry) }) }
    {
        push_step(alloc, &mut self.noted, &self.told, of, step)?;
        self.steps += 1;
        Ok(())
    }

    /// Hears an event.
    fn hear(
        &mut self,
        alloc: Global,
        plan: &SweepPlan,
        setup: &[Tried],
        event: &Event,
    ) -> Result<(), AllocError>
        requires { self.old.steps + 1 < 2 ^ 64 }
        ensures { OnOk result (calm_seen self.new ≡ heard_calm (setup.now ++ plan.now.tried) (calm_seen self.old) event.now) }
    {
        if let Event::Answer { code, a, b, c, .. } = *event {
            let step = step_at(plan, setup, self.steps);
            self.note(alloc, AnswerNumbers { code, a, b, c }, step)?;
        }
        self.told.hear(event);
        Ok(())
    }
}

/// What was heard of all events of a journal.
fn heard_of(alloc: Global, plan: &SweepPlan, journal: &Journal) -> Result<CalmHeard, AllocError>
    ensures { IfOk result (λ heard. calm_seen heard ≡ calm_heard plan.now journal.now.events) }
{
    let setup = setup_steps(alloc, plan)?;
    let mut heard = CalmHeard::new(alloc);
    for place in 0..journal.len() {
        heard.hear(alloc, plan, &setup, journal.event(place).unwrap())?;
    }
    Ok(heard)
}

/// What a calm run that left this journal comes to.
pub(crate) fn calm_of(
    alloc: Global,
    plan: &SweepPlan,
    journal: &Journal,
) -> Result<Calm, AllocError>
    ensures { IfOk result (λ calm. calm ≡ calm_of plan.now journal.now.events) }
{
    let heard = heard_of(alloc, plan, journal)?;
    let volumes = written(alloc, journal)?;
    Ok(Calm::new(heard.steps, heard.noted, volumes))
}
