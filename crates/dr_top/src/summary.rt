//! What a trial came to, in three lines.

ghost use Rattle.std.specs.Prelude.{◌≡◌, IfOk, if◌then◌else◌, codes};
ghost use Rattle.std.specs.Fmt.{decimal};
ghost use Rattle.std.specs.Option.{option_copied, option_map_or};
ghost use Rattle.std.specs.String.{string_bytes};
ghost use Rattle.dr_top.specs.Statuses.{refusal_at};
ghost use Rattle.dr_top.specs.Trials.{refusals, group_after, last_group, group_word, summary_report};

use crate::report::{Report, line_text};
use crate::status::{Status, is_refusal_at};
use dr_model::{Event, Journal};
use std::alloc::{AllocError, Global};

/// How many refusals are at a place: one or none.
fn refusals_at(journal: &Journal, place: usize) -> usize
    ensures { result ≡ (if refusal_at journal.now.events place then 1 else 0) }
{
    usize::from(is_refusal_at(journal, place))
}

/// How many answers are refusals.
fn refusals(journal: &Journal) -> usize
    ensures { result ≡ refusals journal.now.events }
{
    let mut count = 0;
    for i in 0..journal.len() {
        count += refusals_at(journal, i);
    }
    count
}

/// The group that was recovered last, where this one was before the event.
fn group_after(group: u32, event: Option<&Event>) -> u32
    ensures { result ≡ option_map_or (λ e. group_after group e) (option_copied event.entry) group }
{
    match event {
        Some(Event::Recovered { group, .. }) => *group,
        _ => group,
    }
}

/// The group that was recovered last, 0 for none.
fn last_group(journal: &Journal) -> u32
    ensures { result ≡ last_group journal.now.events }
{
    let mut group = 0;
    for i in 0..journal.len() {
        group = group_after(group, journal.event(i));
    }
    group
}

/// A group as it is printed.
fn group_word(alloc: Global, group: u32) -> Result<String, AllocError>
    ensures { IfOk result (λ word. string_bytes word ≡ group_word group) }
{
    match group {
        0 => String::from_str(alloc, "none"),
        _ => group.to_string(alloc),
    }
}

/// What is put of a trial whose script has so many lines: that number, how many answers were refusals, and the group that was
/// recovered last.
pub fn summary(alloc: Global, lines: usize, journal: &Journal) -> Result<Report, AllocError>
    ensures { IfOk result (λ report. report ≡ summary_report lines journal.now.events) }
{
    let refused = refusals(journal);
    let group = group_word(alloc, last_group(journal))?;
    let says = format!(in alloc; "lines {lines}\nrefused {refused}\ngroup {group}\n")?;
    Ok(Report {
        status: Status::Done,
        text: line_text(alloc, &says)?,
    })
}
