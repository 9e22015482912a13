//! The calm run: the set-up and all tried steps, without a disaster.

ghost use Rattle.std.specs.Prelude.{◌≡◌, ◌++◌, ◌-◌, ◌<◌, ◌≤◌, ◌^◌, [], length, count_by, find, nat_eq, OnOk};
ghost use Rattle.std.specs.List.{flat_map, list_all, list_any, slice_index_or};
ghost use Rattle.std.specs.Option.{option_copied};
ghost use Rattle.dr_rows.specs.Calm.{is_announced, was_held, was_refused, wrote, calm_head, announced_word, was_announced, numbered, step_line, step_said, is_refusal_at, tried_text, line_text, unrefused_line, is_unrefused, unrefused_said, line_said, lines_said, use_word, but_on, first_word, pair_line, pair_said, pairs_said, calm_told, is_unannounced, is_unwritten, is_turned, is_mistaken, is_calm_finding};
ghost use Rattle.dr_rows.specs.Findings.{calm_count};

use crate::pieces::push_number;
use dr_ids::Text;
use dr_model::{Item, Name};
use dr_plan::{SweepPlan, Tried, Use, name_bytes, push_volume};
use std::alloc::AllocError;
use std::marker::Model;

/// A step of the calm run that was refused or held.
#[derive(Drop)]
pub struct CalmStep {
    line: usize,
    text: Text,
    code: u8,
    says: Text,
}

impl Model for CalmStep {
    ghost use Rattle.dr_rows.specs.Calm.{CalmStep as StepSaid};

    ghost Value = { StepSaid };

    ghost view = { λ s. record { line = s.line; text = s.text; code = s.code; says = s.says } };
}

impl CalmStep {
    /// The number of its line in the plan; the line, or of one of several steps the line that it would be by itself; 100 where it was
    /// held, and else the number of its refusal; and the answer as it is printed.
    pub fn new(line: usize, text: Text, code: u8, says: Text) -> CalmStep
        ensures { result ≡ record { line = line; text = text; code = code; says = says } }
    {
        CalmStep {
            line,
            text,
            code,
            says,
        }
    }

    pub(crate) fn line(&self) -> usize
        ensures { result ≡ self.now.line }
    {
        self.line
    }

    pub(crate) fn text(&self) -> &[u8]
        ensures { result.now ≡ self.now.text }
    {
        self.text.bytes()
    }

    pub(crate) fn says(&self) -> &[u8]
        ensures { result.now ≡ self.now.says }
    {
        self.says.bytes()
    }

    fn was_held(&self) -> bool
        ensures { result ≡ was_held self.now }
    {
        self.code == 100
    }

    fn was_refused(&self) -> bool
        ensures { result ≡ was_refused self.now }
    {
        !(self.code == 0 || self.was_held())
    }
}

/// What the calm run came to.
#[derive(Drop)]
pub struct Calm {
    steps: usize,
    told: Vec<CalmStep>,
    written: Vec<u16>,
}

impl Model for Calm {
    ghost use Rattle.dr_rows.specs.Calm.{Calm as CalmRun};

    ghost Value = { CalmRun };

    ghost view = { λ c. record { steps = c.steps; told = c.told.items; written = c.written.items } };
}

impl Calm {
    /// How many steps there were, those that were refused or held in order, and the volumes on which a write was acknowledged.
    pub fn new(steps: usize, told: Vec<CalmStep>, written: Vec<u16>) -> Calm
        ensures { result ≡ record { steps = steps; told = told.items; written = written.items } }
    {
        Calm {
            steps,
            told,
            written,
        }
    }

    fn steps(&self) -> usize
        ensures { result ≡ self.now.steps }
    {
        self.steps
    }

    pub(crate) fn told(&self) -> &[CalmStep]
        ensures { result.now ≡ self.now.told }
    {
        &self.told
    }

    /// A write was acknowledged on the volume.
    fn wrote(&self, volume: u16) -> bool
        ensures { result ≡ wrote self.now volume }
    {
        self.written.iter().any(|v| *v == volume)
    }
}

/// A refusal is announced in the line of the plan with that number.
pub(crate) fn is_announced(plan: &SweepPlan, number: u128) -> bool
    ensures { result ≡ is_announced plan.now number }
{
    plan.announced().iter().any(|n| *n as u128 == number)
}

/// How many of some steps were refused.
fn refused_count(told: &[CalmStep]) -> usize
    ensures { result ≡ count_by was_refused told.now }
{
    told.iter().filter(|s| s.was_refused()).count()
}

/// How many of some steps were held.
fn held_count(told: &[CalmStep]) -> usize
    ensures { result ≡ count_by was_held told.now }
{
    told.iter().filter(|s| s.was_held()).count()
}

/// Adds how many steps there were, and how many were refused and held.
#[tactic(auto, unfolding(crate::specs::Calm::calm_head))]
fn push_head(text: &mut Text, calm: &Calm) -> Result<(), AllocError>
    ensures { OnOk result (text.new ≡ text.old ++ calm_head calm.now) }
{
    text.append(b"calm run: ")?;
    push_number(text, calm.steps())?;
    text.append(b" steps, ")?;
    push_number(text, refused_count(calm.told()))?;
    text.append(b" refused, ")?;
    push_number(text, held_count(calm.told()))?;
    text.append(b" held\n")
}

fn announced_word(announced: bool) -> &'static [u8]
    ensures { result.now ≡ announced_word announced }
{
    if announced { b" (announced)" } else { b"" }
}

/// The refusal of the step was announced.
pub(crate) fn was_announced(plan: &SweepPlan, step: &CalmStep) -> bool
    ensures { result ≡ was_announced plan.now step.now }
{
    step.was_refused() && is_announced(plan, step.line() as u128)
}

/// Adds a line with its number.
fn push_numbered(text: &mut Text, number: usize, line: &[u8]) -> Result<(), AllocError>
    ensures { OnOk result (text.new ≡ text.old ++ numbered number line.now) }
{
    text.append(b"  ")?;
    push_number(text, number)?;
    text.append(b" ")?;
    text.append(line)?;
    text.append(b": ")
}

/// Adds the line of a step that was refused or held.
fn push_step_line(text: &mut Text, plan: &SweepPlan, step: &CalmStep) -> Result<(), AllocError>
    ensures { OnOk result (text.new ≡ text.old ++ step_line plan.now step.now) }
{
    push_numbered(text, step.line(), step.text())?;
    text.append(step.says())?;
    text.append(announced_word(was_announced(plan, step)))?;
    text.append(b"\n")
}

/// Adds the line of a step if it is of the line with that number.
fn push_step(
    text: &mut Text,
    plan: &SweepPlan,
    number: usize,
    step: &CalmStep,
) -> Result<(), AllocError>
    ensures { OnOk result (text.new ≡ text.old ++ step_said plan.now number step.now) }
{
    if step.line() != number {
        return Ok(());
    }
    push_step_line(text, plan, step)
}

/// Adds the lines of those steps that are of the line with that number.
fn push_steps(
    text: &mut Text,
    plan: &SweepPlan,
    number: usize,
    told: &[CalmStep],
) -> Result<(), AllocError>
    ensures { OnOk result (text.new ≡ text.old ++ flat_map (step_said plan.now number) told.now) }
{
    for step in told {
        push_step(text, plan, number, step)?;
    }
    Ok(())
}

/// A step of the line with that number was refused.
fn is_refusal_at(step: &CalmStep, number: usize) -> bool
    ensures { result ≡ is_refusal_at number step.now }
{
    step.line() == number && step.was_refused()
}

fn any_refused(told: &[CalmStep], number: usize) -> bool
    ensures { result ≡ list_any (is_refusal_at number) told.now }
{
    told.iter().any(|step| is_refusal_at(step, number))
}

/// The first of some tried steps that is of the line with that number.
fn tried_of(tried: &[Tried], number: usize) -> Option<&Tried>
    ensures { option_copied result ≡ find (λ t. nat_eq t.line number) tried.now }
{
    tried.iter().find(|t| t.line() == number)
}

/// The text of that step.
fn tried_text(plan: &SweepPlan, number: usize) -> &[u8]
    ensures { result.now ≡ tried_text plan.now number }
{
    match tried_of(plan.tried(), number) {
        None => b"",
        Some(tried) => tried.text(),
    }
}

/// A line of the set-up by its place.
fn setup_line(lines: &[Text], number: usize) -> &[u8]
    requires within { number ≤ length lines.now }
    requires counted { 1 ≤ number }
    ensures { result.now ≡ slice_index_or lines.now (number - 1) [] }
{
    lines[number - 1].bytes()
}

/// The line with that number, of the set-up or tried; of several tried steps the first one.
fn line_text(plan: &SweepPlan, number: usize) -> &[u8]
    requires { 1 ≤ number }
    ensures { result.now ≡ line_text plan.now number }
{
    if plan.setup().len() < number {
        tried_text(plan, number)
    } else {
        setup_line(plan.setup(), number)
    }
}

/// The line with that number was announced, and none of its steps was refused.
fn is_unrefused(plan: &SweepPlan, calm: &Calm, number: usize) -> bool
    ensures { result ≡ is_unrefused plan.now calm.now number }
{
    is_announced(plan, number as u128) && !any_refused(calm.told(), number)
}

/// Adds the line of an announcement without a refusal.
#[tactic(auto, unfolding(crate::specs::Calm::unrefused_line))]
fn push_unrefused_line(text: &mut Text, plan: &SweepPlan, number: usize) -> Result<(), AllocError>
    requires { 1 ≤ number }
    ensures { OnOk result (text.new ≡ text.old ++ unrefused_line plan.now number) }
{
    push_numbered(text, number, line_text(plan, number))?;
    text.append(b"not refused (announced)\n")
}

/// Adds the line with that number if it was announced and none of its steps was refused.
fn push_unrefused(
    text: &mut Text,
    plan: &SweepPlan,
    calm: &Calm,
    number: usize,
) -> Result<(), AllocError>
    requires { 1 ≤ number }
    ensures { OnOk result (text.new ≡ text.old ++ unrefused_said plan.now calm.now number) }
{
    if !is_unrefused(plan, calm, number) {
        return Ok(());
    }
    push_unrefused_line(text, plan, number)
}

/// Adds what is said of the line with that number.
fn push_line_said(
    text: &mut Text,
    plan: &SweepPlan,
    calm: &Calm,
    number: usize,
) -> Result<(), AllocError>
    requires { 1 ≤ number }
    ensures { OnOk result (text.new ≡ text.old ++ line_said plan.now calm.now number) }
{
    push_steps(text, plan, number, calm.told())?;
    push_unrefused(text, plan, calm, number)
}

/// Adds what is said of all lines before `then`.
fn push_lines_said(text: &mut Text, plan: &SweepPlan, calm: &Calm) -> Result<(), AllocError>
    ensures { OnOk result (text.new ≡ text.old ++ lines_said plan.now calm.now) }
{
    for number in 1..plan.then_line() {
        push_line_said(text, plan, calm, number)?;
    }
    Ok(())
}

/// Adds the name of a use, before its pair.
fn push_use_word(text: &mut Text, name: Option<Name>) -> Result<(), AllocError>
    ensures { OnOk result (text.new ≡ text.old ++ use_word name) }
{
    match name {
        None => Ok(()),
        Some(name) => {
            text.append(name_bytes(&name))?;
            text.append(b" ")
        }
    }
}

/// Adds a volume that was written.
#[tactic(auto, unfolding(crate::specs::Calm::but_on))]
fn push_but_on(text: &mut Text, volume: u16) -> Result<(), AllocError>
    ensures { OnOk result (text.new ≡ text.old ++ but_on volume) }
{
    text.append(b", but on ")?;
    push_volume(text, volume)
}

/// Adds that the first volume of a pair was written, if so.
fn push_first(text: &mut Text, calm: &Calm, pair: Item) -> Result<(), AllocError>
    ensures { OnOk result (text.new ≡ text.old ++ first_word calm.now pair) }
{
    if !calm.wrote(pair.first) {
        return Ok(());
    }
    push_but_on(text, pair.first)
}

/// Adds the line of a pair without a write on its second volume.
fn push_pair_line(
    text: &mut Text,
    calm: &Calm,
    name: Option<Name>,
    pair: Item,
) -> Result<(), AllocError>
    ensures { OnOk result (text.new ≡ text.old ++ pair_line calm.now name pair) }
{
    text.append(b"use ")?;
    push_use_word(text, name)?;
    push_volume(text, pair.first)?;
    text.append(b" for ")?;
    push_volume(text, pair.second)?;
    text.append(b": no write on ")?;
    push_volume(text, pair.second)?;
    push_first(text, calm, pair)?;
    text.append(b"\n")
}

/// Adds what is said of a pair.
fn push_pair(text: &mut Text, calm: &Calm, name: Option<Name>, pair: Item) -> Result<(), AllocError>
    ensures { OnOk result (text.new ≡ text.old ++ pair_said calm.now name pair) }
{
    if calm.wrote(pair.second) {
        return Ok(());
    }
    push_pair_line(text, calm, name, pair)
}

/// Adds what is said of pairs.
fn push_pairs(
    text: &mut Text,
    calm: &Calm,
    name: Option<Name>,
    pairs: &[Item],
) -> Result<(), AllocError>
    ensures { OnOk result (text.new ≡ text.old ++ flat_map (pair_said calm.now name) pairs.now) }
{
    for pair in pairs {
        push_pair(text, calm, name, *pair)?;
    }
    Ok(())
}

/// Adds what is said of the pairs of a use.
fn push_use(text: &mut Text, calm: &Calm, of: &Use) -> Result<(), AllocError>
    ensures { OnOk result (text.new ≡ text.old ++ pairs_said calm.now of.now) }
{
    push_pairs(text, calm, of.name(), of.pairs())
}

/// Adds what is said of the pairs of uses.
fn push_uses(text: &mut Text, calm: &Calm, uses: &[Use]) -> Result<(), AllocError>
    ensures { OnOk result (text.new ≡ text.old ++ flat_map (pairs_said calm.now) uses.now) }
{
    for of in uses {
        push_use(text, calm, of)?;
    }
    Ok(())
}

/// Adds what is said of the calm run.
#[tactic(auto, unfolding(crate::specs::Calm::calm_told))]
pub(crate) fn push_calm(text: &mut Text, plan: &SweepPlan, calm: &Calm) -> Result<(), AllocError>
    ensures { OnOk result (text.new ≡ text.old ++ calm_told plan.now calm.now) }
{
    push_head(text, calm)?;
    push_lines_said(text, plan, calm)?;
    push_uses(text, calm, plan.uses())
}

/// The step was refused, and that isn't announced.
fn is_unannounced(plan: &SweepPlan, step: &CalmStep) -> bool
    ensures { result ≡ is_unannounced plan.now step.now }
{
    step.was_refused() && !is_announced(plan, step.line() as u128)
}

fn is_unwritten(calm: &Calm, pair: Item) -> bool
    ensures { result ≡ is_unwritten calm.now pair }
{
    !calm.wrote(pair.second)
}

/// The first volume has a write, and the second none.
fn is_turned(calm: &Calm, pair: Item) -> bool
    ensures { result ≡ is_turned calm.now pair }
{
    is_unwritten(calm, pair) && calm.wrote(pair.first)
}

fn any_turned(calm: &Calm, pairs: &[Item]) -> bool
    ensures { result ≡ list_any (is_turned calm.now) pairs.now }
{
    pairs.iter().any(|pair| is_turned(calm, *pair))
}

fn all_unwritten(calm: &Calm, pairs: &[Item]) -> bool
    ensures { result ≡ list_all (is_unwritten calm.now) pairs.now }
{
    pairs.iter().all(|pair| is_unwritten(calm, *pair))
}

/// A pair of the use is turned round, or none of its second volumes has a write.
fn is_mistaken(calm: &Calm, of: &Use) -> bool
    ensures { result ≡ is_mistaken calm.now of.now }
{
    any_turned(calm, of.pairs()) || all_unwritten(calm, of.pairs())
}

fn any_unannounced(plan: &SweepPlan, told: &[CalmStep]) -> bool
    ensures { result ≡ list_any (is_unannounced plan.now) told.now }
{
    told.iter().any(|step| is_unannounced(plan, step))
}

fn any_mistaken(calm: &Calm, uses: &[Use]) -> bool
    ensures { result ≡ list_any (is_mistaken calm.now) uses.now }
{
    uses.iter().any(|of| is_mistaken(calm, of))
}

/// A refusal of the calm run isn't announced, or a use is mistaken.
pub(crate) fn is_calm_finding(plan: &SweepPlan, calm: &Calm) -> bool
    ensures { result ≡ is_calm_finding plan.now calm.now }
{
    any_unannounced(plan, calm.told()) || any_mistaken(calm, plan.uses())
}

/// How many refusals of some steps aren't announced.
fn unannounced_count(plan: &SweepPlan, told: &[CalmStep]) -> usize
    ensures { result ≡ count_by (is_unannounced plan.now) told.now }
{
    told.iter()
        .filter(|step| is_unannounced(plan, step))
        .count()
}

fn mistaken_count(calm: &Calm, uses: &[Use]) -> usize
    ensures { result ≡ count_by (is_mistaken calm.now) uses.now }
{
    uses.iter().filter(|of| is_mistaken(calm, of)).count()
}

/// How many refusals of the calm run aren't announced, and how many uses are mistaken.
pub(crate) fn calm_count(plan: &SweepPlan, calm: &Calm) -> u128
    ensures is { result ≡ calm_count plan.now calm.now }
    ensures few { result < 2 ^ 65 }
{
    unannounced_count(plan, calm.told()) as u128 + mistaken_count(calm, plan.uses()) as u128
}
