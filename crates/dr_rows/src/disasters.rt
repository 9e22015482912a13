//! What is said of each disaster.

ghost use Rattle.std.specs.Prelude.{◌≡◌, ◌∷◌, ◌++◌, length, map, count_by, find, OnOk, IfOk};
ghost use Rattle.std.specs.List.{flat_map, list_any};
ghost use Rattle.std.specs.Option.{option_copied};
ghost use Rattle.std.specs.Str.{bytes_eq};
ghost use Rattle.dr_model.specs.LineText.{name_text};
ghost use Rattle.dr_rows.specs.Findings.{has_no_group};
ghost use Rattle.dr_rows.specs.Outcome.{has_refusal, is_broken, lacks_members};
ghost use Rattle.dr_rows.specs.Places.{most_lost};
ghost use Rattle.dr_rows.specs.Kinds.{rows_of, with_kind, kinds, is_like, rows_like, counted, counts, tally, kind_line, shown_by, loses_most, worst_said, worst_line, servers_of, lost_at_once, told, uses_told, disaster_told, disasters_told};

use crate::cells::{kind, push_use_head};
use crate::findings::has_no_group;
use crate::line::disaster_of;
use crate::pieces::push_number;
use crate::row::Row;
use crate::words::push_words;
use dr_ids::Text;
use dr_model::Name;
use dr_plan::{SweepPlan, name_bytes};
use std::alloc::{AllocError, Global};

/// The rows of a disaster.
pub fn rows_of(alloc: Global, rows: &[Row], disaster: usize) -> Result<Vec<&Row>, AllocError>
    ensures { IfOk result (λ found. map (λ row. row.now) found.items ≡ rows_of disaster rows.now) }
{
    rows.iter()
        .filter(|row| disaster_of(row.point()) == disaster)
        .collect(alloc)
}

fn is_same(said: &[u8], other: &[u8]) -> bool
    ensures { result ≡ bytes_eq said.now other.now }
{
    said == other
}

/// A kind is one of some.
fn is_among(said: &Text, found: &[Text]) -> bool
    ensures { result ≡ list_any (bytes_eq said.now) found.now }
{
    found
        .iter()
        .any(|other| is_same(said.bytes(), other.bytes()))
}

/// A kind joins those that came before it, unless it is one of them.
fn add_kind(found: &mut Vec<Text>, said: Text) -> Result<(), AllocError>
    ensures { OnOk result (found.new.items ≡ with_kind found.old.items said) }
{
    if !is_among(&said, found) {
        found.push(said)?;
    }
    Ok(())
}

/// The kinds of rows, each once, in the order in which they first come.
#[tactic(auto, unfolding(crate::specs::Kinds::kinds))]
fn kinds(alloc: Global, asks: bool, rows: &[&Row]) -> Result<Vec<Text>, AllocError>
    ensures { IfOk result (λ found. found.items ≡ kinds asks (map (λ row. row.now) rows.now)) }
{
    let mut found = Vec::new(alloc);
    for row in rows {
        add_kind(&mut found, kind(alloc, asks, row)?)?;
    }
    Ok(found)
}

fn is_like(alloc: Global, asks: bool, said: &[u8], row: &Row) -> Result<bool, AllocError>
    ensures { IfOk result (λ like. like ≡ is_like asks said.now row.now) }
{
    let other = kind(alloc, asks, row)?;
    Ok(is_same(said, other.bytes()))
}

/// The rows of a kind.
fn rows_like<'a>(
    alloc: Global,
    asks: bool,
    said: &[u8],
    rows: &[&'a Row],
) -> Result<Vec<&'a Row>, AllocError>
    ensures { IfOk result (λ found. map (λ row. row.now) found.items ≡ rows_like asks said.now (map (λ row. row.now) rows.now)) }
{
    let mut found = Vec::new(alloc);
    for row in rows {
        if is_like(alloc, asks, said, row)? {
            found.push(*row)?;
        }
    }
    Ok(found)
}

/// The most writes that are lost to a use in one of some rows.
pub fn most_of(which: usize, rows: &[&Row]) -> usize
    ensures { result ≡ most_lost which (map (λ row. row.now) rows.now) }
{
    let mut most = 0;
    for row in rows {
        most = most.max(row.lost_count(which));
    }
    most
}

/// How many rows are broken.
pub fn broken_count(which: usize, rows: &[&Row]) -> usize
    ensures { result ≡ count_by (is_broken which) (map (λ row. row.now) rows.now) }
{
    rows.iter().filter(|row| row.is_broken(which)).count()
}

/// How many rows have no group, though one was asked for.
pub fn no_group_count(asks: bool, rows: &[&Row]) -> usize
    ensures { result ≡ count_by (has_no_group asks) (map (λ row. row.now) rows.now) }
{
    rows.iter().filter(|row| has_no_group(asks, row)).count()
}

/// How many rows have fewer members that count than there are.
pub fn short_count(rows: &[&Row]) -> usize
    ensures { result ≡ count_by lacks_members (map (λ row. row.now) rows.now) }
{
    rows.iter().filter(|row| row.lacks_members()).count()
}

/// How many rows have a refusal.
fn refusal_count(rows: &[&Row]) -> usize
    ensures { result ≡ count_by has_refusal (map (λ row. row.now) rows.now) }
{
    rows.iter().filter(|row| row.has_refusal()).count()
}

/// How many rows there are.
pub fn row_count(rows: &[&Row]) -> usize
    ensures { result ≡ length (map (λ row. row.now) rows.now) }
{
    rows.len()
}

/// Adds a count and what is counted.
fn push_count(text: &mut Text, n: usize, words: &[u8]) -> Result<(), AllocError>
    ensures { OnOk result (text.new ≡ text.old ++ counted n words.now) }
{
    push_number(text, n)?;
    text.append(words)
}

/// Adds the counts of a kind.
fn push_counts(
    text: &mut Text,
    points: usize,
    most: usize,
    broken: usize,
    refused: usize,
) -> Result<(), AllocError>
    ensures { OnOk result (text.new ≡ text.old ++ counts points most broken refused) }
{
    text.append(b": ")?;
    push_count(text, points, b" points, at most ")?;
    push_count(text, most, b" lost, ")?;
    push_count(text, broken, b" broken, ")?;
    push_count(text, refused, b" with refusals\n")
}

/// Adds what is said of rows of one kind, for a use.
fn push_tally(text: &mut Text, which: usize, rows: &[&Row]) -> Result<(), AllocError>
    ensures { OnOk result (text.new ≡ text.old ++ tally which (map (λ row. row.now) rows.now)) }
{
    push_counts(
        text,
        row_count(rows),
        most_of(which, rows),
        broken_count(which, rows),
        refusal_count(rows),
    )
}

/// Adds the line of a kind.
fn push_kind_line(
    alloc: Global,
    text: &mut Text,
    asks: bool,
    which: usize,
    rows: &[&Row],
    said: &[u8],
) -> Result<(), AllocError>
    ensures { OnOk result (text.new ≡ text.old ++ kind_line asks which (map (λ row. row.now) rows.now) said.now) }
{
    text.append(b"  ")?;
    text.append(said)?;
    push_tally(text, which, &rows_like(alloc, asks, said, rows)?)
}

/// Adds the lines of kinds.
fn push_kind_lines(
    alloc: Global,
    text: &mut Text,
    asks: bool,
    which: usize,
    rows: &[&Row],
    kinds: &[Text],
) -> Result<(), AllocError>
    ensures { OnOk result (text.new ≡ text.old ++ flat_map (kind_line asks which (map (λ row. row.now) rows.now)) kinds.now) }
{
    for said in kinds {
        push_kind_line(alloc, text, asks, which, rows, said.bytes())?;
    }
    Ok(())
}

/// Adds the words that show a point, at the end of a line.
fn push_shown_by(text: &mut Text, plan: &SweepPlan, row: &Row) -> Result<(), AllocError>
    ensures { OnOk result (text.new ≡ text.old ++ shown_by plan.now row.now) }
{
    text.append(b", shown by: ")?;
    push_words(text, plan, row.point())?;
    text.append(b"\n")
}

/// That many writes are lost to a use, and some are.
fn loses_most(which: usize, most: usize, row: &Row) -> bool
    ensures { result ≡ loses_most which most row.now }
{
    0 < most && row.lost_count(which) == most
}

/// The first row that loses that many writes.
pub(crate) fn first_worst<'a>(rows: &[&'a Row], which: usize, most: usize) -> Option<&'a Row>
    ensures { option_copied result ≡ find (loses_most which most) (map (λ row. row.now) rows.now) }
{
    for row in rows {
        if loses_most(which, most, row) {
            return Some(*row);
        }
    }
    None
}

/// Adds the line of a worst point.
fn push_worst_said(
    text: &mut Text,
    plan: &SweepPlan,
    which: usize,
    row: &Row,
) -> Result<(), AllocError>
    ensures { OnOk result (text.new ≡ text.old ++ worst_said plan.now which row.now) }
{
    text.append(b"  worst: ")?;
    push_number(text, row.lost_count(which))?;
    text.append(b" lost")?;
    push_shown_by(text, plan, row)
}

/// Adds the line of the worst point, where some writes are lost.
pub fn push_worst(
    text: &mut Text,
    plan: &SweepPlan,
    which: usize,
    rows: &[&Row],
) -> Result<(), AllocError>
    ensures { OnOk result (text.new ≡ text.old ++ worst_line plan.now which (map (λ row. row.now) rows.now)) }
{
    match first_worst(rows, which, most_of(which, rows)) {
        None => Ok(()),
        Some(row) => push_worst_said(text, plan, which, row),
    }
}

/// The servers of a disaster.
pub fn servers_of(plan: &SweepPlan, disaster: usize) -> &[Name]
    ensures { result.now ≡ servers_of plan.now disaster }
{
    match plan.disasters().get(disaster) {
        Some(lost) => lost.servers(),
        None => &[],
    }
}

/// Adds names, each after a space.
pub(crate) fn push_names(text: &mut Text, servers: &[Name]) -> Result<(), AllocError>
    ensures { OnOk result (text.new ≡ text.old ++ flat_map (λ name. 32 ∷ name_text name) servers.now) }
{
    for name in servers {
        text.append(b" ")?;
        text.append(name_bytes(name))?;
    }
    Ok(())
}

/// Adds the names of servers that are lost at once.
pub fn push_lost_at_once(text: &mut Text, servers: &[Name]) -> Result<(), AllocError>
    ensures { OnOk result (text.new ≡ text.old ++ lost_at_once servers.now) }
{
    text.append(b"lost at once:")?;
    push_names(text, servers)?;
    text.append(b"\n")
}

/// Adds what is said of the rows of one disaster, for the use at a place.
fn push_told(
    alloc: Global,
    text: &mut Text,
    plan: &SweepPlan,
    asks: bool,
    rows: &[&Row],
    which: usize,
) -> Result<(), AllocError>
    ensures { OnOk result (text.new ≡ text.old ++ told plan.now asks (map (λ row. row.now) rows.now) which) }
{
    push_use_head(text, plan, which)?;
    push_kind_lines(alloc, text, asks, which, rows, &kinds(alloc, asks, rows)?)
}

/// Adds the same for each use.
fn push_uses_told(
    alloc: Global,
    text: &mut Text,
    plan: &SweepPlan,
    asks: bool,
    rows: &[&Row],
) -> Result<(), AllocError>
    ensures { OnOk result (text.new ≡ text.old ++ uses_told plan.now asks (map (λ row. row.now) rows.now)) }
{
    for which in 0..plan.uses().len() {
        push_told(alloc, text, plan, asks, rows, which)?;
    }
    Ok(())
}

/// Adds what is said of a disaster.
#[tactic(auto, unfolding(crate::specs::Kinds::disaster_told))]
fn push_disaster_told(
    alloc: Global,
    text: &mut Text,
    plan: &SweepPlan,
    asks: bool,
    rows: &[Row],
    disaster: usize,
) -> Result<(), AllocError>
    ensures { OnOk result (text.new ≡ text.old ++ disaster_told plan.now asks rows.now disaster) }
{
    push_lost_at_once(text, servers_of(plan, disaster))?;
    push_uses_told(alloc, text, plan, asks, &rows_of(alloc, rows, disaster)?)
}

/// Adds what is said of all disasters.
#[tactic(auto, unfolding(crate::specs::Kinds::disasters_told))]
pub(crate) fn push_disasters(
    alloc: Global,
    text: &mut Text,
    plan: &SweepPlan,
    asks: bool,
    rows: &[Row],
) -> Result<(), AllocError>
    ensures { OnOk result (text.new ≡ text.old ++ disasters_told plan.now asks rows.now) }
{
    for disaster in 0..plan.disasters().len() {
        push_disaster_told(alloc, text, plan, asks, rows, disaster)?;
    }
    Ok(())
}
