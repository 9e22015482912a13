//! Reads a line word by word: each word takes the reading from one place to the next.

ghost use Rattle.std.specs.Prelude.{◌≡◌, ◌∷◌, [], Some, None, IfOk, length, slice_get};
ghost use Rattle.std.specs.List.{list_all};
ghost use Rattle.dr_model.specs.LineTable.{commands, settings, needed};
ghost use Rattle.dr_model.specs.LineSteps.{has};
ghost use Rattle.dr_model.specs.Grammar.{command_named, setting_named, setting_at, cascades_metro, is_ready, again, next_operand, filled_after, grown, value_read, setting_read, operand_read, next_read, named_read, read_on, may_end, is_filled, start_of, is_within};
ghost use Rattle.dr_script.specs.Pieces.{kept};

use crate::operands::{no_operands, push_operand_items, set_operand};
use crate::settings::{flag, has, no_options, push_setting_items, set_value};
use crate::table::{
    COMMON_COMMANDS, command_word, commands, is_flag, may_end_with, needed, operands, own_steps,
    repeats, setting_word, settings,
};
use dr_model::{Command, Item, LinePlace, Operand, Options, Setting};
use std::alloc::AllocError;

/// The most steps of a line.
const MOST_STEPS: usize = 1024;

/// The command of a list of which a word is the name.
fn named_in(all: &[Command], word: &[u8]) -> Option<Command>
    ensures { result ≡ command_named all.now word.now }
{
    for command in all {
        if word == command_word(*command) {
            return Some(*command);
        }
    }
    None
}

/// The command of which a word is the name. Most lines have one of a few, which are tried first.
pub(crate) fn command_named(word: &[u8]) -> Option<Command>
    ensures { result ≡ command_named commands word.now }
{
    match named_in(&COMMON_COMMANDS, word) {
        Some(command) => Some(command),
        None => named_in(commands(), word),
    }
}

/// The option of a command of which a word is the name.
fn setting_named(command: Command, word: &[u8]) -> Option<Setting>
    ensures { result ≡ setting_named (settings command) word.now }
{
    let all = settings(command);
    for setting in all {
        if word == setting_word(*setting) {
            return Some(*setting);
        }
    }
    None
}

/// The option that a word names, before the first operand.
fn setting_at(place: &LinePlace, word: &[u8]) -> Option<Setting>
    ensures { result ≡ setting_at place.now word.now }
{
    if place.filled == 0 {
        setting_named(place.command, word)
    } else {
        None
    }
}

/// The options that a command can't do without were given.
#[inline(never)]
fn has_all(all: &[Setting], options: &Options) -> bool
    ensures { result ≡ list_all (λ setting. has setting options.now) all.now }
{
    all.iter().all(|setting| has(*setting, options))
}

fn has_needed(place: &LinePlace) -> bool
    ensures { result ≡ list_all (λ setting. has setting place.now.options) (needed place.now.command) }
{
    let all = needed(place.command);
    all.is_empty() || has_all(all, &place.options)
}

/// A pair of another type than Global Copy was to make a cascaded volume.
fn cascades_metro(options: &Options) -> bool
    ensures { result ≡ cascades_metro options.now }
{
    options.cascade && options.kind.unwrap_or(0) != 2
}

/// No needed option is missing, of two that go together both were given or neither, and of two that exclude each other one at most.
fn is_ready(place: &LinePlace) -> bool
    ensures { result ≡ is_ready place.now }
{
    has_needed(place)
        && place.options.unconditional == place.options.at_source
        && !cascades_metro(&place.options)
}

fn again(operand: Option<Operand>) -> Option<Operand>
    ensures { result ≡ again operand }
{
    match operand {
        Some(operand) if repeats(operand) => Some(operand),
        _ => None,
    }
}

fn operand_at(all: &[Operand], place: usize) -> Option<Operand>
    ensures { result ≡ slice_get all.now place }
{
    all.get(place).copied()
}

/// The operand that stands next.
fn next_operand(place: &LinePlace) -> Option<Operand>
    ensures { result ≡ next_operand place.now }
{
    let all = operands(place.command);
    match operand_at(all, place.filled) {
        Some(operand) => Some(operand),
        None => again(operand_at(all, 0)),
    }
}

/// One place more is filled, unless all are.
fn filled_after(place: &LinePlace) -> usize
    ensures { result ≡ filled_after place.now }
{
    if place.filled < operands(place.command).len() {
        place.filled + 1
    } else {
        place.filled
    }
}

/// The items and the command's own step are no more than a line may have.
fn is_within(command: Command, items: &[Item]) -> bool
    ensures { result ≡ is_within command items.now }
{
    own_steps(command) + items.len() <= MOST_STEPS
}

/// Goes on over the value of an option; false where the word can't stand as its value.
fn take_value(
    place: &mut LinePlace,
    items: &mut Vec<Item>,
    setting: Setting,
    word: &[u8],
) -> Result<bool, AllocError>
    ensures { IfOk result (λ stands. value_read (record { place = place.old; items = items.old.items }) setting word.now ≡ kept stands (record { place = place.new; items = items.new.items })) }
{
    let Some(()) = set_value(setting, word, &mut place.options) else {
        return Ok(false);
    };
    if !push_setting_items(items, setting, word)? {
        return Ok(false);
    }
    if !is_within(place.command, items) {
        return Ok(false);
    }
    place.awaited = None;
    Ok(true)
}

/// Goes on over the word of an option; false where it was given before.
fn take_setting(place: &mut LinePlace, setting: Setting) -> bool
    ensures { setting_read place.old setting ≡ kept result place.new }
{
    if has(setting, &place.options) {
        false
    } else if is_flag(setting) {
        flag(setting, &mut place.options);
        true
    } else {
        place.awaited = Some(setting);
        true
    }
}

/// Goes on over an operand; false where the word can't stand as it.
fn take_operand(
    place: &mut LinePlace,
    items: &mut Vec<Item>,
    operand: Operand,
    word: &[u8],
) -> Result<bool, AllocError>
    ensures { IfOk result (λ stands. operand_read (record { place = place.old; items = items.old.items }) operand word.now ≡ kept stands (record { place = place.new; items = items.new.items })) }
{
    let Some(()) = set_operand(operand, word, &mut place.operands) else {
        return Ok(false);
    };
    if !push_operand_items(items, operand, word)? {
        return Ok(false);
    }
    if !is_within(place.command, items) {
        return Ok(false);
    }
    place.filled = filled_after(place);
    Ok(true)
}

fn take_next(place: &mut LinePlace, items: &mut Vec<Item>, word: &[u8]) -> Result<bool, AllocError>
    ensures { IfOk result (λ stands. next_read (record { place = place.old; items = items.old.items }) word.now (next_operand place.old) ≡ kept stands (record { place = place.new; items = items.new.items })) }
{
    match next_operand(place) {
        Some(operand) if is_ready(place) => take_operand(place, items, operand, word),
        _ => Ok(false),
    }
}

fn take_named(place: &mut LinePlace, items: &mut Vec<Item>, word: &[u8]) -> Result<bool, AllocError>
    ensures { IfOk result (λ stands. named_read (record { place = place.old; items = items.old.items }) word.now (setting_at place.old word.now) ≡ kept stands (record { place = place.new; items = items.new.items })) }
{
    match setting_at(place, word) {
        Some(setting) => Ok(take_setting(place, setting)),
        None => take_next(place, items, word),
    }
}

/// Goes on over one word more; false where it can't stand there.
#[tactic(auto, unfolding(dr_model::specs::Grammar::read_on))]
pub(crate) fn read_on(
    place: &mut LinePlace,
    items: &mut Vec<Item>,
    word: &[u8],
) -> Result<bool, AllocError>
    ensures { IfOk result (λ stands. read_on (record { place = place.old; items = items.old.items }) word.now ≡ kept stands (record { place = place.new; items = items.new.items })) }
{
    match place.awaited {
        Some(setting) => take_value(place, items, setting, word),
        None => take_named(place, items, word),
    }
}

fn is_filled(place: &LinePlace) -> bool
    ensures { result ≡ is_filled place.now }
{
    place.filled == operands(place.command).len() || place.filled == may_end_with(place.command)
}

/// The line may end here.
#[tactic(auto, unfolding(dr_model::specs::Grammar::may_end))]
pub(crate) fn may_end(place: &LinePlace) -> bool
    ensures { result ≡ may_end place.now }
{
    place.awaited.is_none() && is_ready(place) && is_filled(place)
}

/// The place behind the word of a command.
pub(crate) fn start_of(command: Command) -> LinePlace
    ensures { start_of command ≡ record { place = result; items = [] } }
{
    LinePlace {
        command,
        awaited: None,
        filled: 0,
        options: no_options(),
        operands: no_operands(),
    }
}
