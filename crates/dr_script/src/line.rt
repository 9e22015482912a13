//! The steps of a line.

ghost use Rattle.std.specs.Prelude.{◌≡◌, ◌≤◌, ◌+◌, ◌++◌, [], Some, None, All, OnOk, length, slice_get};
ghost use Rattle.std.specs.Option.{option_copied};
ghost use Rattle.dr_model.specs.LineWords.{words_behind, line_words};
ghost use Rattle.dr_model.specs.Grammar.{own_step, item_steps, steps_of, read_words, start_of, words_read, begins_comment, line_of, item_command, no_item};
ghost use Rattle.dr_model.specs.LineSteps.{step_of};
ghost use Rattle.dr_model.specs.LineText.{IsWritten};
ghost use Rattle.dr_script.specs.Readings.{ReadsAs};

use crate::reading::{command_named, may_end, read_on, start_of};
use crate::steps::{step_of, write_step};
use crate::table::own_steps;
use crate::words::next_word;
use dr_ids::{Fault, Refusal};
use dr_model::{Command, Item, LinePlace, Step};
use std::alloc::{AllocError, Global};
use std::marker::Model;

/// The most bytes of a line.
const MOST_BYTES: usize = 1024;

/// The steps of one line, in order.
#[derive(Drop)]
pub struct Line {
    steps: Vec<Step>,
}

impl Model for Line {
    ghost use Rattle.std.specs.Prelude.{List};
    ghost use Rattle.dr_model.specs.declared.step.Step.{Step};

    ghost Value = { List Step };

    ghost view = { λ line. line.steps.items };
}

impl Line {
    /// No steps.
    pub fn new(alloc: Global) -> Line
        ensures { result ≡ [] }
    {
        Line {
            steps: Vec::new(alloc),
        }
    }

    /// How many steps the line has.
    pub fn len(&self) -> usize
        ensures { result ≡ length self.now }
    {
        self.steps.len()
    }

    /// The step at a place, counted from 0; `None` from the number of steps on.
    pub fn step(&self, i: usize) -> Option<&Step>
        ensures { option_copied result ≡ slice_get self.now i }
    {
        self.steps.get(i)
    }
}

/// The command whose step each item is.
fn item_command(command: Command) -> Command
    ensures { result ≡ item_command command }
{
    match command {
        Command::Mksession => Command::Chsession,
        _ => command,
    }
}

/// The step of a command without an item. Most are writes.
#[tactic(auto, unfolding(dr_model::specs::LineSteps::step_of))]
fn own_step_of(place: &LinePlace) -> Step
    ensures { result ≡ step_of place.now.command place.now.options place.now.operands no_item }
{
    let no_item = Item {
        first: 0,
        second: 0,
    };
    match place.command {
        Command::AtWrite => write_step(&place.operands),
        command => step_of(command, &place.options, &place.operands, no_item),
    }
}

/// Adds the command's own step, where it makes one.
fn push_own_step(steps: &mut Vec<Step>, place: &LinePlace) -> Result<(), AllocError>
    ensures { OnOk result (steps.new.items ≡ steps.old.items ++ own_step place.now) }
{
    if own_steps(place.command) != 0 {
        steps.push(own_step_of(place))?;
    }
    Ok(())
}

/// Adds a step for each item.
fn push_item_steps(
    steps: &mut Vec<Step>,
    place: &LinePlace,
    items: &[Item],
) -> Result<(), AllocError>
    ensures { OnOk result (steps.new.items ≡ steps.old.items ++ item_steps place.now items.now) }
{
    let command = item_command(place.command);
    for item in items {
        steps.push(step_of(command, &place.options, &place.operands, *item))?;
    }
    Ok(())
}

/// The command's own step, and then one for each item, where no step stands.
#[tactic(auto, unfolding(dr_model::specs::Grammar::steps_of))]
fn fill(steps: &mut Vec<Step>, place: &LinePlace, items: &[Item]) -> Result<(), AllocError>
    requires { steps.old.items ≡ [] }
    ensures { OnOk result (steps.new.items ≡ steps_of (record { place = place.now; items = items.now })) }
{
    push_own_step(steps, place)?;
    push_item_steps(steps, place, items)
}

/// The refusal of the word in that column.
fn syntax(column: usize) -> Fault
    requires { column ≤ 1025 }
    ensures { result ≡ Fault.Refused (Refusal.Syntax column) }
{
    Fault::Refused(Refusal::Syntax {
        column: column as u16,
    })
}

/// The steps of a line whose words were all read.
#[tactic(auto, unfolding(dr_model::specs::Grammar::read_words))]
fn finish(
    place: &LinePlace,
    items: &[Item],
    past: usize,
    steps: &mut Vec<Step>,
) -> Result<(), Fault>
    requires past { past ≤ 1025 }
    requires empty { steps.old.items ≡ [] }
    ensures { ReadsAs (read_words past (record { place = place.now; items = items.now }) []) steps.new.items result }
{
    if !may_end(place) {
        return Err(syntax(past));
    }
    match fill(steps, place, items) {
        Ok(()) => Ok(()),
        Err(_) => Err(Fault::NoMemory),
    }
}

/// Reads the words of a line behind that of its command.
fn read_words(
    alloc: Global,
    line: &[u8],
    from: usize,
    command: Command,
    steps: &mut Vec<Step>,
) -> Result<(), Fault>
    requires short { length line.now ≤ 1024 }
    requires within { from ≤ length line.now }
    requires empty { steps.old.items ≡ [] }
    ensures { ReadsAs (read_words (length line.now + 1) (start_of command) (words_behind from line.now)) steps.new.items result }
{
    let mut place = start_of(command);
    let mut items = Vec::new(alloc);
    let mut at = from;
    while let Some(word) = next_word(line, at) {
        match read_on(&mut place, &mut items, &line[word.start..word.end]) {
            Err(_) => return Err(Fault::NoMemory),
            Ok(false) => return Err(syntax(word.start + 1)),
            Ok(true) => {}
        }
        at = word.end;
    }
    finish(&place, &items, line.len() + 1, steps)
}

/// A line whose first byte is `#` is no step.
fn begins_comment(line: &[u8]) -> bool
    ensures { result ≡ begins_comment line.now }
{
    match line {
        [first, ..] => *first == b'#',
        [] => false,
    }
}

/// The steps of a line that is no comment.
fn read_from(alloc: Global, line: &[u8], steps: &mut Vec<Step>) -> Result<(), Fault>
    requires short { length line.now ≤ 1024 }
    requires empty { steps.old.items ≡ [] }
    ensures { ReadsAs (words_read (length line.now + 1) (line_words line.now)) steps.new.items result }
{
    let Some(word) = next_word(line, 0) else {
        return Ok(());
    };
    match command_named(&line[word.start..word.end]) {
        Some(command) => read_words(alloc, line, word.end, command, steps),
        None => Err(syntax(word.start + 1)),
    }
}

/// Reads the steps of a line, without its line end, into `into`; what it held is gone. Comments and blank
/// lines have none. Each step is one that a line can say, as `print_step` asks.
///
/// Fails with the column of the first word that can't stand where it stands, counted from 1, or one past
/// the end of the line where a word is missing; 1,025 where the line is longer than 1,024 bytes. Fails too
/// where there is no memory.
#[tactic(auto, unfolding(dr_model::specs::Grammar::line_of), using(crate::proofs::WrittenLemmas::reads_written))]
pub fn read_line(alloc: Global, line: &[u8], into: &mut Line) -> Result<(), Fault>
    ensures reads { ReadsAs (line_of line.now) into.new result }
    ensures written { OnOk result (All IsWritten into.new) }
{
    into.steps.clear();
    if begins_comment(line) {
        Ok(())
    } else if MOST_BYTES < line.len() {
        Err(syntax(MOST_BYTES + 1))
    } else {
        read_from(alloc, line, &mut into.steps)
    }
}
