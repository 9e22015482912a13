//! The legend: the colours and bars that occur.

ghost use Rattle.std.specs.Prelude.{◌≡◌, ◌++◌, ◌∷◌, [], ◌+◌, ◌*◌, ◌<◌, ◌^◌, filter, IfOk, OnOk};
ghost use Rattle.std.specs.List.{list_any};
ghost use Rattle.dr_chart.specs.Panels.{is_group, is_no_group, is_no_session, is_torn, has_mark, occurs, occurring, occurring_in_both};
ghost use Rattle.dr_chart.specs.Picture.{group_words, mark_words, entry_text, mark_at, numbered};

use crate::columns::{Column, Mark};
use crate::panels::Panel;
use crate::pieces::{paint, push_rect};
use dr_ids::Text;
use dr_rows::{no_group, push_total};
use std::alloc::{AllocError, Global};

const MARKS: [Mark; 11] = [
    Mark::Group(1),
    Mark::Group(2),
    Mark::Group(3),
    Mark::Group(4),
    Mark::Group(5),
    Mark::Group(0),
    Mark::NoGroup,
    Mark::NoSession,
    Mark::Torn,
    Mark::Broken,
    Mark::Short,
];

/// The colour is that of groups with that number modulo 6.
fn is_group(n: u32, mark: Mark) -> bool
    ensures { result ≡ is_group n mark }
{
    match mark {
        Mark::Group(m) => n == m,
        _ => false,
    }
}

fn is_no_group(mark: Mark) -> bool
    ensures { result ≡ is_no_group mark }
{
    match mark {
        Mark::NoGroup => true,
        _ => false,
    }
}

fn is_no_session(mark: Mark) -> bool
    ensures { result ≡ is_no_session mark }
{
    match mark {
        Mark::NoSession => true,
        _ => false,
    }
}

fn is_torn(mark: Mark) -> bool
    ensures { result ≡ is_torn mark }
{
    match mark {
        Mark::Torn => true,
        _ => false,
    }
}

/// The column has that colour, or that bar below.
fn has_mark(mark: Mark, column: Column) -> bool
    ensures { result ≡ has_mark mark column }
{
    match mark {
        Mark::Group(n) => is_group(n, column.mark),
        Mark::NoGroup => is_no_group(column.mark),
        Mark::NoSession => is_no_session(column.mark),
        Mark::Torn => is_torn(column.mark),
        Mark::Broken => column.broken,
        Mark::Short => column.short,
    }
}

/// Some column has it.
fn any_has(mark: Mark, columns: &[Column]) -> bool
    ensures { result ≡ list_any (has_mark mark) columns.now }
{
    columns.iter().any(|column| has_mark(mark, *column))
}

/// Some column of the panels has it.
fn occurs(mark: Mark, panels: &[Panel]) -> bool
    ensures { result ≡ occurs panels.now mark }
{
    panels.iter().any(|panel| any_has(mark, panel.columns()))
}

/// The marks that occur in panels, in the order of the legend.
pub(crate) fn occurring(alloc: Global, panels: &[Panel]) -> Result<Vec<Mark>, AllocError>
    ensures { IfOk result (λ found. found.items ≡ occurring panels.now) }
{
    MARKS
        .iter()
        .copied()
        .filter(|mark| occurs(*mark, panels))
        .collect(alloc)
}

/// The marks that occur in the panels of one plan or of another.
pub(crate) fn occurring_in_both(
    alloc: Global,
    panels: &[Panel],
    others: &[Panel],
) -> Result<Vec<Mark>, AllocError>
    ensures { IfOk result (λ found. found.items ≡ occurring_in_both panels.now others.now) }
{
    MARKS
        .iter()
        .copied()
        .filter(|mark| occurs(*mark, panels) || occurs(*mark, others))
        .collect(alloc)
}

fn group_words(n: u32) -> &'static [u8]
    ensures { result.now ≡ group_words n }
{
    match n {
        0 => b"group 6, 12 ..",
        1 => b"group 1, 7 ..",
        2 => b"group 2, 8 ..",
        3 => b"group 3, 9 ..",
        4 => b"group 4, 10 ..",
        _ => b"group 5, 11 ..",
    }
}

/// What a mark says.
fn mark_words(mark: Mark) -> &'static [u8]
    ensures { result.now ≡ mark_words mark }
{
    match mark {
        Mark::Group(n) => group_words(n),
        Mark::NoGroup => no_group(true),
        Mark::NoSession => no_group(false),
        Mark::Torn => b"the torn bytes decide",
        Mark::Broken => b"broken: a write is held without one on which it depends",
        Mark::Short => b"fewer members count than there are",
    }
}

/// Adds a line with a paint and what it says, at that height.
#[tactic(auto, unfolding(crate::specs::Picture::entry_text))]
fn push_entry(text: &mut Text, y: u128, paint: &[u8], words: &[u8]) -> Result<(), AllocError>
    ensures { OnOk result (text.new ≡ text.old ++ entry_text y paint.now words.now) }
{
    text.append(b"<g transform='translate(60 ")?;
    push_total(text, y)?;
    text.append(b")'><g transform='scale(.01)'>")?;
    push_rect(text, 0, 0, 1200, 1200, paint)?;
    text.append(b"</g><text x='18' y='11'>")?;
    text.append(words)?;
    text.append(b"</text></g>\n")
}

/// Adds the line of a mark with the number of its line below the panels.
fn push_mark_at(text: &mut Text, below: u128, i: usize, mark: Mark) -> Result<(), AllocError>
    requires { below < 2 ^ 126 }
    ensures { OnOk result (text.new ≡ text.old ++ mark_at below i mark) }
{
    push_entry(text, below + 18 * i as u128, paint(mark), mark_words(mark))
}

/// Adds the lines of marks.
pub(crate) fn push_legend(text: &mut Text, below: u128, marks: &[Mark]) -> Result<(), AllocError>
    requires { below < 2 ^ 126 }
    ensures { OnOk result (text.new ≡ text.old ++ numbered (mark_at below) 0 marks.now) }
{
    for (i, mark) in marks.iter().enumerate() {
        push_mark_at(text, below, i, *mark)?;
    }
    Ok(())
}
