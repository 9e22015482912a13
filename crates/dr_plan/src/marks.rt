//! What a line of a plan says that begins with `#sweep`.

ghost use Rattle.std.specs.Prelude.{◌≡◌, ◌∷◌, [], map, IfOk};
ghost use Rattle.dr_plan.specs.Marks.{is_mark, lose_said, ranges_said, use_said, bound_said, alone, mark_said, mark_in, mark_of};

use crate::names::{Disaster, read_names};
use crate::ranges::read_span;
use crate::words::{is_word, words};
use dr_model::{Name, Span};
use dr_script::{read_decimal, read_name};
use std::alloc::{AllocError, Global};

/// What such a line says.
#[derive(Drop)]
pub(crate) enum Mark {
    /// These servers are lost at once.
    Lose(Disaster),
    /// After the recovery the host uses the volumes of the first range in place of those of the second.
    Use(Option<Name>, Span, Span),
    /// More lost writes are a finding.
    AtMost(u32),
    /// From here on each line is tried.
    Here,
    /// From here on stands the recovery.
    Then,
    /// In the next line a refusal is announced.
    Refused,
}

/// The line is one of the plan's own.
pub(crate) fn is_mark(line: &[u8]) -> bool
    ensures { result ≡ is_mark line.now }
{
    line.starts_with(b"#sweep")
}

/// `lose NAME ..`
fn read_lose(alloc: Global, words: &[&[u8]]) -> Result<Option<Mark>, AllocError>
    ensures { IfOk result (λ mark. mark ≡ lose_said (map (λ word. word.now) words.now)) }
{
    if words.is_empty() {
        return Ok(None);
    }
    match read_names(alloc, words)? {
        Some(servers) => Ok(Some(Mark::Lose(servers))),
        None => Ok(None),
    }
}

/// `RANGE for RANGE`, under a name or none.
fn read_ranges(name: Option<Name>, first: &[u8], between: &[u8], second: &[u8]) -> Option<Mark>
    ensures { result ≡ ranges_said name first.now between.now second.now }
{
    if !is_word(between, b"for") {
        return None;
    }
    let first = read_span(first)?;
    let second = read_span(second)?;
    Some(Mark::Use(name, first, second))
}

/// `RANGE for RANGE` under the name that a word says.
fn read_named(word: &[u8], first: &[u8], between: &[u8], second: &[u8]) -> Option<Mark>
    ensures { result ≡ use_said (word.now ∷ first.now ∷ between.now ∷ second.now ∷ []) }
{
    let name = read_name(word)?;
    read_ranges(Some(name), first, between, second)
}

/// `use RANGE for RANGE`, or `use NAME RANGE for RANGE`
fn read_use(words: &[&[u8]]) -> Option<Mark>
    ensures { result ≡ use_said (map (λ word. word.now) words.now) }
{
    match words {
        [first, between, second] => read_ranges(None, first, between, second),
        [word, first, between, second] => read_named(word, first, between, second),
        _ => None,
    }
}

/// `at most N`
fn read_bound(words: &[&[u8]]) -> Option<Mark>
    ensures { result ≡ bound_said (map (λ word. word.now) words.now) }
{
    match words {
        [most, number] => {
            if !is_word(most, b"most") {
                return None;
            }
            let bound = read_decimal(number)?;
            Some(Mark::AtMost(bound))
        }
        _ => None,
    }
}

/// A word with nothing after it.
fn alone(mark: Mark, words: &[&[u8]]) -> Option<Mark>
    ensures { result ≡ alone mark (map (λ word. word.now) words.now) }
{
    if words.is_empty() { Some(mark) } else { None }
}

/// What the words after `#sweep` say.
fn read_said(alloc: Global, words: &[&[u8]]) -> Result<Option<Mark>, AllocError>
    ensures { IfOk result (λ mark. mark ≡ mark_said (map (λ word. word.now) words.now)) }
{
    match words {
        [word, rest @ ..] => {
            if is_word(word, b"lose") {
                read_lose(alloc, rest)
            } else if is_word(word, b"use") {
                Ok(read_use(rest))
            } else if is_word(word, b"at") {
                Ok(read_bound(rest))
            } else if is_word(word, b"here") {
                Ok(alone(Mark::Here, rest))
            } else if is_word(word, b"then") {
                Ok(alone(Mark::Then, rest))
            } else if is_word(word, b"refused") {
                Ok(alone(Mark::Refused, rest))
            } else {
                Ok(None)
            }
        }
        [] => Ok(None),
    }
}

/// What words say, of which the first is `#sweep`.
fn read_in(alloc: Global, words: &[&[u8]]) -> Result<Option<Mark>, AllocError>
    ensures { IfOk result (λ mark. mark ≡ mark_in (map (λ word. word.now) words.now)) }
{
    match words {
        [word, rest @ ..] => {
            if is_word(word, b"#sweep") {
                read_said(alloc, rest)
            } else {
                Ok(None)
            }
        }
        [] => Ok(None),
    }
}

/// What the line says; none where it is no such line as a plan has.
#[tactic(auto, unfolding(crate::specs::Marks::mark_of))]
pub(crate) fn read_mark(alloc: Global, line: &[u8]) -> Result<Option<Mark>, AllocError>
    ensures { IfOk result (λ mark. mark ≡ mark_of line.now) }
{
    let found = words(alloc, line)?;
    read_in(alloc, &found)
}
