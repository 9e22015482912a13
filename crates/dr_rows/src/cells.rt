//! The cells of a row.

ghost use Rattle.std.specs.Prelude.{◌≡◌, ◌++◌, nat_eq, codes, find, OnOk, IfOk};
ghost use Rattle.std.specs.List.{flat_map, list_any};
ghost use Rattle.std.specs.Option.{option_copied};
ghost use Rattle.dr_rows.specs.Outcome.{groups_in, is_refused};
ghost use Rattle.dr_rows.specs.Cells.{listed, group_said, decision_said, group_cell, decision_cell, no_group, kind_of, kind, quoted, server_name, name_at, use_name, torn_cell, phase_said, members_said, write_said, newest_cell, more_said, least_cell, broken_cell, refused_count, first_refused_cell, is_named, names_uses, use_head};
ghost use Rattle.dr_model.specs.Text.{one_number, two_numbers, decision_text, phase_word};

use crate::pieces::{push_hex, push_number, push_sum, push_write};
use crate::row::{Answer, Loss, Members, Row, SessionPhase, gives_group, is_refused};
use dr_ids::Text;
use dr_lost::Broken;
use dr_model::Name;
use dr_plan::{SweepPlan, Torn, Use, name_bytes};
use std::alloc::{AllocError, Global};

/// The answers of a row that have a group.
pub fn groups_in(alloc: Global, row: &Row) -> Result<Vec<Answer>, AllocError>
    ensures { IfOk result (λ found. found.items ≡ groups_in row.now) }
{
    row.answers()
        .iter()
        .filter(|a| gives_group(**a))
        .copied()
        .collect(alloc)
}

fn push_one(text: &mut Text, a: u32) -> Result<(), AllocError>
    ensures { OnOk result (text.new ≡ text.old ++ one_number a) }
{
    text.append(b"(")?;
    push_number(text, a as usize)?;
    text.append(b")")
}

fn push_two(text: &mut Text, a: u32, b: u32) -> Result<(), AllocError>
    ensures { OnOk result (text.new ≡ text.old ++ two_numbers a b) }
{
    text.append(b"(")?;
    push_number(text, a as usize)?;
    text.append(b",")?;
    push_number(text, b as usize)?;
    text.append(b")")
}

/// Adds a decision by its place, with its numbers.
fn push_decision(text: &mut Text, place: u32, a: u32, b: u32) -> Result<(), AllocError>
    ensures { OnOk result (text.new ≡ text.old ++ decision_text place a b) }
{
    match place {
        0 => text.append(b"NoMember"),
        1 => {
            text.append(b"Nothing")?;
            push_one(text, a)
        }
        2 => {
            text.append(b"RevertAll")?;
            push_one(text, a)
        }
        3 => {
            text.append(b"CommitRest")?;
            push_one(text, a)
        }
        4 => {
            text.append(b"RevertSome")?;
            push_two(text, a, b)
        }
        5 => {
            text.append(b"Impossible")?;
            push_two(text, a, b)
        }
        _ => Ok(()),
    }
}

/// Adds the number of a group that came back.
fn push_group_said(text: &mut Text, a: Answer) -> Result<(), AllocError>
    ensures { OnOk result (text.new ≡ text.old ++ group_said a) }
{
    push_number(text, a.b as usize)
}

/// Adds the decision that it came back with.
fn push_decision_said(text: &mut Text, a: Answer) -> Result<(), AllocError>
    ensures { OnOk result (text.new ≡ text.old ++ decision_said a) }
{
    let place = a.a / 256;
    if place == 4 {
        push_decision(text, place, a.b, a.c)
    } else {
        push_decision(text, place, a.c, 0)
    }
}

/// Adds the groups of answers, each after a space.
fn push_more_groups(text: &mut Text, more: &[Answer]) -> Result<(), AllocError>
    ensures { OnOk result (text.new ≡ text.old ++ flat_map (λ a. codes " " ++ group_said a) more.now) }
{
    for a in more {
        text.append(b" ")?;
        push_group_said(text, *a)?;
    }
    Ok(())
}

/// Adds the groups of answers, or a dash.
fn push_groups(text: &mut Text, found: &[Answer]) -> Result<(), AllocError>
    ensures { OnOk result (text.new ≡ text.old ++ listed group_said found.now) }
{
    match found {
        [] => text.append(b"-"),
        [first, more @ ..] => {
            push_group_said(text, *first)?;
            push_more_groups(text, more)
        }
    }
}

/// Adds the decisions of answers, each after a space.
fn push_more_decisions(text: &mut Text, more: &[Answer]) -> Result<(), AllocError>
    ensures { OnOk result (text.new ≡ text.old ++ flat_map (λ a. codes " " ++ decision_said a) more.now) }
{
    for a in more {
        text.append(b" ")?;
        push_decision_said(text, *a)?;
    }
    Ok(())
}

/// Adds the decisions of answers, or a dash.
fn push_decisions(text: &mut Text, found: &[Answer]) -> Result<(), AllocError>
    ensures { OnOk result (text.new ≡ text.old ++ listed decision_said found.now) }
{
    match found {
        [] => text.append(b"-"),
        [first, more @ ..] => {
            push_decision_said(text, *first)?;
            push_more_decisions(text, more)
        }
    }
}

/// What is said where no group came back, by whether one was asked for.
pub fn no_group(asks: bool) -> &'static [u8]
    ensures { result.now ≡ no_group asks }
{
    if asks {
        b"no group"
    } else {
        b"no session asked"
    }
}

/// Adds what came back.
fn push_kind_of(text: &mut Text, asks: bool, found: &[Answer]) -> Result<(), AllocError>
    ensures { OnOk result (text.new ≡ text.old ++ kind_of asks found.now) }
{
    if found.is_empty() {
        return text.append(no_group(asks));
    }
    text.append(b"group ")?;
    push_groups(text, found)?;
    text.append(b" ")?;
    push_decisions(text, found)
}

/// What came back at a point.
#[tactic(auto, unfolding(crate::specs::Cells::kind))]
pub(crate) fn kind(alloc: Global, asks: bool, row: &Row) -> Result<Text, AllocError>
    ensures { IfOk result (λ said. said ≡ kind asks row.now) }
{
    let mut said = Text::new(alloc);
    push_kind_of(&mut said, asks, &groups_in(alloc, row)?)?;
    Ok(said)
}

/// Adds the groups of a row.
pub(crate) fn push_group_cell(alloc: Global, text: &mut Text, row: &Row) -> Result<(), AllocError>
    ensures { OnOk result (text.new ≡ text.old ++ group_cell row.now) }
{
    push_groups(text, &groups_in(alloc, row)?)
}

/// The decisions of a row.
pub(crate) fn decision_cell(alloc: Global, row: &Row) -> Result<Text, AllocError>
    ensures { IfOk result (λ said. said ≡ decision_cell row.now) }
{
    let mut said = Text::new(alloc);
    push_decisions(&mut said, &groups_in(alloc, row)?)?;
    Ok(said)
}

fn has_comma(cell: &[u8]) -> bool
    ensures { result ≡ list_any (λ b. nat_eq b 44) cell.now }
{
    cell.iter().any(|b| *b == b',')
}

/// Adds a cell, in quotes where a comma stands in it.
pub(crate) fn push_quoted(text: &mut Text, cell: &[u8]) -> Result<(), AllocError>
    ensures { OnOk result (text.new ≡ text.old ++ quoted cell.now) }
{
    if !has_comma(cell) {
        return text.append(cell);
    }
    text.append(b"\"")?;
    text.append(cell)?;
    text.append(b"\"")
}

/// The name of a disaster's server, by their places.
pub(crate) fn server_name(plan: &SweepPlan, disaster: usize, server: usize) -> &[u8]
    ensures { result.now ≡ server_name plan.now disaster server }
{
    let Some(lost) = plan.disasters().get(disaster) else {
        return b"";
    };
    let Some(name) = lost.servers().get(server) else {
        return b"";
    };
    name_bytes(name)
}

/// What is torn.
pub(crate) fn torn_cell(torn: Torn) -> &'static [u8]
    ensures { result.now ≡ torn_cell torn }
{
    match torn {
        Torn::Unchanged => b"none",
        Torn::Zeros => b"00",
        Torn::Ones => b"01",
    }
}

/// The use at a place has this name.
pub(crate) fn name_at(plan: &SweepPlan, which: usize) -> Option<Name>
    ensures { result ≡ name_at plan.now which }
{
    match plan.uses().get(which) {
        None => None,
        Some(of) => of.name(),
    }
}

/// Adds the name of the use at a place, or a dash.
pub(crate) fn push_use_name(
    text: &mut Text,
    plan: &SweepPlan,
    which: usize,
) -> Result<(), AllocError>
    ensures { OnOk result (text.new ≡ text.old ++ use_name plan.now which) }
{
    match name_at(plan, which) {
        None => text.append(b"-"),
        Some(name) => text.append(name_bytes(&name)),
    }
}

/// The word of a phase by its place.
fn phase_word(phase: u8) -> &'static [u8]
    ensures { result.now ≡ phase_word phase }
{
    match phase {
        0 => b"none",
        1 => b"Idle",
        2 => b"Coordinating",
        3 => b"Releasing",
        4 => b"Draining",
        5 => b"Flashing",
        6 => b"Committing",
        7 => b"Reverting",
        8 => b"Finishing",
        9 => b"Lost",
        _ => b"",
    }
}

/// Adds a session and the phase of its master.
pub fn push_phase(text: &mut Text, p: SessionPhase) -> Result<(), AllocError>
    ensures { OnOk result (text.new ≡ text.old ++ phase_said p) }
{
    push_hex(text, p.session)?;
    text.append(b":")?;
    text.append(phase_word(p.phase))
}

/// Adds the phases of sessions, each after a space.
fn push_more_phases(text: &mut Text, more: &[SessionPhase]) -> Result<(), AllocError>
    ensures { OnOk result (text.new ≡ text.old ++ flat_map (λ p. codes " " ++ phase_said p) more.now) }
{
    for p in more {
        text.append(b" ")?;
        push_phase(text, *p)?;
    }
    Ok(())
}

/// Adds the phases of sessions, or a dash.
pub(crate) fn push_phase_list(text: &mut Text, found: &[SessionPhase]) -> Result<(), AllocError>
    ensures { OnOk result (text.new ≡ text.old ++ listed phase_said found.now) }
{
    match found {
        [] => text.append(b"-"),
        [first, more @ ..] => {
            push_phase(text, *first)?;
            push_more_phases(text, more)
        }
    }
}

/// Adds how many members count, and how many there are.
fn push_members(text: &mut Text, m: Members) -> Result<(), AllocError>
    ensures { OnOk result (text.new ≡ text.old ++ members_said m) }
{
    push_number(text, m.counted)?;
    text.append(b"/")?;
    push_number(text, m.all)
}

/// Adds the members of sessions, each after a space.
fn push_more_members(text: &mut Text, more: &[Members]) -> Result<(), AllocError>
    ensures { OnOk result (text.new ≡ text.old ++ flat_map (λ m. codes " " ++ members_said m) more.now) }
{
    for m in more {
        text.append(b" ")?;
        push_members(text, *m)?;
    }
    Ok(())
}

/// Adds the members of sessions, or a dash.
pub(crate) fn push_member_list(text: &mut Text, found: &[Members]) -> Result<(), AllocError>
    ensures { OnOk result (text.new ≡ text.old ++ listed members_said found.now) }
{
    match found {
        [] => text.append(b"-"),
        [first, more @ ..] => {
            push_members(text, *first)?;
            push_more_members(text, more)
        }
    }
}

/// Adds the newest write, or a dash.
pub(crate) fn push_newest(text: &mut Text, newest: Option<u32>) -> Result<(), AllocError>
    ensures { OnOk result (text.new ≡ text.old ++ newest_cell newest) }
{
    match newest {
        None => text.append(b"-"),
        Some(w) => push_write(text, w),
    }
}

/// Adds writes, each after a space.
fn push_more_writes(text: &mut Text, more: &[u32]) -> Result<(), AllocError>
    ensures { OnOk result (text.new ≡ text.old ++ flat_map (λ w. codes " " ++ write_said w) more.now) }
{
    for w in more {
        text.append(b" ")?;
        push_write(text, *w)?;
    }
    Ok(())
}

/// Adds writes, or a dash.
fn push_writes(text: &mut Text, found: &[u32]) -> Result<(), AllocError>
    ensures { OnOk result (text.new ≡ text.old ++ listed write_said found.now) }
{
    match found {
        [] => text.append(b"-"),
        [first, more @ ..] => {
            push_write(text, *first)?;
            push_more_writes(text, more)
        }
    }
}

fn more_said(more: bool) -> &'static [u8]
    ensures { result.now ≡ more_said more }
{
    if more { b" .." } else { b"" }
}

/// Adds the least of the lost writes, or a dash.
pub(crate) fn push_least(text: &mut Text, loss: &Loss) -> Result<(), AllocError>
    ensures { OnOk result (text.new ≡ text.old ++ least_cell loss.now) }
{
    push_writes(text, loss.least())?;
    text.append(more_said(loss.least().len() < loss.count()))
}

/// Adds the write that is held, and the lost one on which it depends, or a dash.
pub(crate) fn push_broken(text: &mut Text, broken: Option<Broken>) -> Result<(), AllocError>
    ensures { OnOk result (text.new ≡ text.old ++ broken_cell broken) }
{
    match broken {
        None => text.append(b"-"),
        Some(b) => {
            push_write(text, b.held)?;
            text.append(b" on ")?;
            push_write(text, b.lost)
        }
    }
}

/// How many answers are refusals.
pub(crate) fn refused_count(answers: &[Answer]) -> usize
    ensures { result ≡ refused_count answers.now }
{
    answers.iter().filter(|a| is_refused(**a)).count()
}

/// The first refusal.
pub(crate) fn first_refused(answers: &[Answer]) -> Option<&Answer>
    ensures { option_copied result ≡ find is_refused answers.now }
{
    answers.iter().find(|a| is_refused(**a))
}

/// Adds the line of the first refusal, by its number in the plan, or a dash.
pub(crate) fn push_first_refused(
    text: &mut Text,
    plan: &SweepPlan,
    answers: &[Answer],
) -> Result<(), AllocError>
    ensures { OnOk result (text.new ≡ text.old ++ first_refused_cell plan.now answers.now) }
{
    match first_refused(answers) {
        None => text.append(b"-"),
        Some(a) => push_sum(text, plan.then_line(), a.line as usize),
    }
}

fn is_named(of: &Use) -> bool
    ensures { result ≡ is_named of.now }
{
    of.name().is_some()
}

fn any_named(uses: &[Use]) -> bool
    ensures { result ≡ list_any is_named uses.now }
{
    uses.iter().any(|of| is_named(of))
}

/// The plan has a use with a name, or more than one.
fn names_uses(plan: &SweepPlan) -> bool
    ensures { result ≡ names_uses plan.now }
{
    1 < plan.uses().len() || any_named(plan.uses())
}

/// Adds the line that stands before what is said of the use at a place, if the plan names uses.
pub fn push_use_head(text: &mut Text, plan: &SweepPlan, which: usize) -> Result<(), AllocError>
    ensures { OnOk result (text.new ≡ text.old ++ use_head plan.now which) }
{
    if !names_uses(plan) {
        return Ok(());
    }
    text.append(b"use ")?;
    push_use_name(text, plan, which)?;
    text.append(b"\n")
}
