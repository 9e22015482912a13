//! Words that are a step for each of their items: ranges, lists and pairs.

ghost use Rattle.std.specs.Prelude.{◌≡◌, ◌++◌, Some, IfOk, OnOk};
ghost use Rattle.std.specs.List.{slice_split};
ghost use Rattle.dr_model.specs.LineWords.{span_between, span_word, span_len, paired, range_items, list_items, pair_items, lss_pair_items, lss_items};
ghost use Rattle.dr_model.specs.LineWords.{onto};
ghost use Rattle.dr_script.specs.Pieces.{kept};

use crate::values::{before, behind, find_mark};
use dr_ids::{VolumeId, read_lss, read_volume};
use dr_model::{Item, Span};
use std::alloc::AllocError;

/// The range from one volume to another that isn't below it, both in one logical subsystem.
fn span_between(low: VolumeId, high: VolumeId) -> Option<Span>
    ensures { result ≡ span_between low high }
{
    if low.0 / 256 == high.0 / 256 && low.0 <= high.0 {
        Some(Span {
            low: low.0,
            high: high.0,
        })
    } else {
        None
    }
}

/// One volume, or two with a dash between them.
fn read_span(word: &[u8]) -> Option<Span>
    ensures { result ≡ span_word word.now }
{
    match find_mark(word, b'-') {
        None => {
            let volume = read_volume(word)?;
            Some(Span {
                low: volume.0,
                high: volume.0,
            })
        }
        Some(dash) => {
            let low = read_volume(before(word, dash))?;
            let high = read_volume(behind(word, dash))?;
            span_between(low, high)
        }
    }
}

/// How many volumes a range has.
fn span_len(span: Span) -> u32
    ensures { result ≡ span_len span }
{
    (u32::from(span.high) + 1).saturating_sub(u32::from(span.low))
}

/// Adds the pairs of two ranges of equal length.
fn push_paired(items: &mut Vec<Item>, a: Span, b: Span) -> Result<(), AllocError>
    requires { span_len a ≡ span_len b }
    ensures { OnOk result (items.new.items ≡ items.old.items ++ paired a b) }
{
    for k in 0..span_len(a) {
        items.push(Item {
            first: (u32::from(a.low) + k) as u16,
            second: (u32::from(b.low) + k) as u16,
        })?;
    }
    Ok(())
}

/// Adds each volume of a range; false where the word is none.
pub(crate) fn push_range(items: &mut Vec<Item>, word: &[u8]) -> Result<bool, AllocError>
    ensures { IfOk result (λ stands. onto items.old.items (range_items word.now) ≡ kept stands items.new.items) }
{
    let Some(span) = read_span(word) else {
        return Ok(false);
    };
    push_paired(items, span, span)?;
    Ok(true)
}

/// Adds each volume of ranges with commas between them; false where the word is no such list.
pub(crate) fn push_list(items: &mut Vec<Item>, word: &[u8]) -> Result<bool, AllocError>
    ensures { IfOk result (λ stands. onto items.old.items (list_items word.now) ≡ kept stands items.new.items) }
{
    let mut rest = word;
    while let Some(comma) = find_mark(rest, b',') {
        if !push_range(items, before(rest, comma))? {
            return Ok(false);
        }
        rest = behind(rest, comma);
    }
    push_range(items, rest)
}

/// Adds the pairs of two ranges of equal length; false where the word is none.
pub(crate) fn push_pair(items: &mut Vec<Item>, word: &[u8]) -> Result<bool, AllocError>
    ensures { IfOk result (λ stands. onto items.old.items (pair_items word.now) ≡ kept stands items.new.items) }
{
    let Some(colon) = find_mark(word, b':') else {
        return Ok(false);
    };
    let Some(a) = read_span(before(word, colon)) else {
        return Ok(false);
    };
    let Some(b) = read_span(behind(word, colon)) else {
        return Ok(false);
    };
    if span_len(a) != span_len(b) {
        return Ok(false);
    }
    push_paired(items, a, b)?;
    Ok(true)
}

/// Adds a pair of logical subsystems; false where the word is none.
pub(crate) fn push_lss_pair(items: &mut Vec<Item>, word: &[u8]) -> Result<bool, AllocError>
    ensures { IfOk result (λ stands. onto items.old.items (lss_pair_items word.now) ≡ kept stands items.new.items) }
{
    let Some(colon) = find_mark(word, b':') else {
        return Ok(false);
    };
    let Some(l) = read_lss(before(word, colon)) else {
        return Ok(false);
    };
    let Some(m) = read_lss(behind(word, colon)) else {
        return Ok(false);
    };
    items.push(Item {
        first: u16::from(l.0),
        second: u16::from(m.0),
    })?;
    Ok(true)
}

/// Adds a logical subsystem; false where the word is none.
pub(crate) fn push_each_lss(items: &mut Vec<Item>, word: &[u8]) -> Result<bool, AllocError>
    ensures { IfOk result (λ stands. onto items.old.items (lss_items word.now) ≡ kept stands items.new.items) }
{
    let Some(l) = read_lss(word) else {
        return Ok(false);
    };
    items.push(Item {
        first: u16::from(l.0),
        second: u16::from(l.0),
    })?;
    Ok(true)
}
