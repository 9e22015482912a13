//! What is said of each line of the recovery.

ghost use Rattle.std.specs.Prelude.{◌≡◌, ◌++◌, ◌+◌, ◌<◌, length, count_by, OnOk};
ghost use Rattle.std.specs.List.{list_all, list_any};
ghost use Rattle.dr_rows.specs.Refusals.{is_of, is_fine, is_refusal_of, answers_line, keeps_line, refuses_line, code_word, refusal_said, refusals_said, line_told, recovery_line, recovery_lines, recovery_told};

use crate::pieces::{push_number, push_sum};
use crate::row::{Answer, Row, is_kept};
use dr_ids::Text;
use dr_plan::SweepPlan;
use std::alloc::AllocError;

/// The answer is of the line of the recovery with that number, counted from 1.
fn is_of(a: Answer, number: u128) -> bool
    ensures { result ≡ is_of number a }
{
    a.line as u128 == number
}

/// The row has an answer of a line.
fn answers_line(row: &Row, number: u128) -> bool
    ensures { result ≡ answers_line number row.now }
{
    row.answers().iter().any(|a| is_of(*a, number))
}

/// The answer is of another line, or ok or held.
fn is_fine(a: Answer, number: u128) -> bool
    ensures { result ≡ is_fine number a }
{
    !is_of(a, number) || is_kept(a)
}

/// Each answer is of another line, or ok or held.
fn all_fine(row: &Row, number: u128) -> bool
    ensures { result ≡ list_all (is_fine number) row.now.answers }
{
    row.answers().iter().all(|a| is_fine(*a, number))
}

/// All answers of a line are ok or held, and there are some.
pub(crate) fn keeps_line(row: &Row, number: u128) -> bool
    ensures { result ≡ keeps_line number row.now }
{
    answers_line(row, number) && all_fine(row, number)
}

/// The answer is that refusal of a line.
fn is_refusal_of(a: Answer, number: u128, code: u8) -> bool
    ensures { result ≡ is_refusal_of number code a }
{
    is_of(a, number) && a.code == code
}

/// An answer of a line is that refusal.
fn refuses_line(row: &Row, number: u128, code: u8) -> bool
    ensures { result ≡ refuses_line number code row.now }
{
    row.answers()
        .iter()
        .any(|a| is_refusal_of(*a, number, code))
}

/// At how many points a line was ok or held.
fn kept_count(rows: &[Row], number: u128) -> usize
    ensures { result ≡ count_by (keeps_line number) rows.now }
{
    rows.iter().filter(|row| keeps_line(row, number)).count()
}

/// At how many points a line was refused so.
fn refused_so(rows: &[Row], number: u128, code: u8) -> usize
    ensures { result ≡ count_by (refuses_line number code) rows.now }
{
    rows.iter()
        .filter(|row| refuses_line(row, number, code))
        .count()
}

/// Some row has an answer of a line.
pub(crate) fn is_answered(rows: &[Row], number: u128) -> bool
    ensures { result ≡ list_any (answers_line number) rows.now }
{
    rows.iter().any(|row| answers_line(row, number))
}

/// Adds a refusal's code of two digits, after an E.
fn push_code(text: &mut Text, code: u8) -> Result<(), AllocError>
    ensures { OnOk result (text.new ≡ text.old ++ code_word code) }
{
    text.append(b"E")?;
    push_number(text, usize::from(code / 10))?;
    push_number(text, usize::from(code % 10))
}

/// Adds at how many points a line was refused so, if at any.
fn push_refusal(text: &mut Text, code: u8, count: usize) -> Result<(), AllocError>
    ensures { OnOk result (text.new ≡ text.old ++ refusal_said code count) }
{
    if count == 0 {
        return Ok(());
    }
    text.append(b", ")?;
    push_code(text, code)?;
    text.append(b" at ")?;
    push_number(text, count)
}

/// Adds the refusals of a line, and at how many points each came.
fn push_refusals(text: &mut Text, rows: &[Row], number: u128) -> Result<(), AllocError>
    ensures { OnOk result (text.new ≡ text.old ++ refusals_said number rows.now) }
{
    for code in 1..26 {
        push_refusal(text, code, refused_so(rows, number, code))?;
    }
    Ok(())
}

/// Adds a line of the recovery, which comes after that many lines of the plan: its number in the plan, at how many points it was ok or
/// held, and its refusals.
fn push_line_told(
    text: &mut Text,
    before: usize,
    rows: &[Row],
    number: usize,
    line: &[u8],
) -> Result<(), AllocError>
    ensures { OnOk result (text.new ≡ text.old ++ line_told before rows.now number line.now) }
{
    text.append(b"  ")?;
    push_sum(text, before, number)?;
    text.append(b" ")?;
    text.append(line)?;
    text.append(b": ok at ")?;
    push_number(text, kept_count(rows, number as u128))?;
    push_refusals(text, rows, number as u128)?;
    text.append(b"\n")
}

/// Adds the line of the recovery at a place, if some row has an answer of it.
fn push_recovery_line(
    text: &mut Text,
    before: usize,
    rows: &[Row],
    lines: &[Text],
    place: usize,
) -> Result<(), AllocError>
    requires { place < length lines.now }
    ensures { OnOk result (text.new ≡ text.old ++ recovery_line before lines.now rows.now place) }
{
    if !is_answered(rows, place as u128 + 1) {
        return Ok(());
    }
    push_line_told(text, before, rows, place + 1, lines[place].bytes())
}

/// Adds what is said of lines of the recovery.
fn push_recovery_lines(
    text: &mut Text,
    before: usize,
    rows: &[Row],
    lines: &[Text],
) -> Result<(), AllocError>
    ensures { OnOk result (text.new ≡ text.old ++ recovery_lines before lines.now rows.now) }
{
    for place in 0..lines.len() {
        push_recovery_line(text, before, rows, lines, place)?;
    }
    Ok(())
}

/// Adds what is said of the recovery.
#[tactic(auto, unfolding(crate::specs::Refusals::recovery_told))]
pub(crate) fn push_recovery_told(
    text: &mut Text,
    plan: &SweepPlan,
    rows: &[Row],
) -> Result<(), AllocError>
    ensures { OnOk result (text.new ≡ text.old ++ recovery_told plan.now rows.now) }
{
    text.append(b"recovery\n")?;
    push_recovery_lines(text, plan.then_line(), rows, plan.recovery())
}
