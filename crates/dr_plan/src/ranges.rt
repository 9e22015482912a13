//! Ranges of volumes, and the pairs of two.

ghost use Rattle.std.specs.Prelude.{◌≡◌, ◌<◌, ◌++◌, ◌+◌, [], length, OnOk, IfOk, IfSome};
ghost use Rattle.dr_model.specs.LineWords.{mark_at, before, behind, span_between, span_word, span_len, paired};
ghost use Rattle.dr_plan.specs.Above.{tracks_of};
ghost use Rattle.dr_plan.specs.Reading.{sizes_fault, pair_fault, pairs_fault};

use crate::above::{VolumeSize, tracks_of};
use crate::reason::Reason;
use dr_ids::{VOLUMES_OF_LSS, VolumeId, read_volume};
use dr_model::{Item, Span};
use std::alloc::{AllocError, Global};

/// The place of the first dash of a word.
fn find_dash(word: &[u8]) -> Option<usize>
    ensures value { result ≡ mark_at 45 word.now }
    ensures within { IfSome result (λ i. i < length word.now) }
{
    word.iter().position(|b| *b == b'-')
}

/// The bytes of a word before a place.
fn before(word: &[u8], place: usize) -> &[u8]
    requires { place < length word.now }
    ensures { result.now ≡ before place word.now }
{
    &word[..place]
}

/// The bytes of a word after the byte at a place.
fn behind(word: &[u8], place: usize) -> &[u8]
    requires { place < length word.now }
    ensures { result.now ≡ behind place word.now }
{
    &word[place + 1..]
}

/// The range from one volume to another that isn't below it, both in one logical subsystem.
fn span_between(low: VolumeId, high: VolumeId) -> Option<Span>
    ensures { result ≡ span_between low high }
{
    if low.0 / VOLUMES_OF_LSS == high.0 / VOLUMES_OF_LSS && low.0 <= high.0 {
        Some(Span {
            low: low.0,
            high: high.0,
        })
    } else {
        None
    }
}

/// One volume, or two with a dash between them.
pub(crate) fn read_span(word: &[u8]) -> Option<Span>
    ensures { result ≡ span_word word.now }
{
    match find_dash(word) {
        None => {
            let volume = read_volume(word)?;
            Some(Span {
                low: volume.0,
                high: volume.0,
            })
        }
        Some(dash) => {
            let low = read_volume(before(word, dash))?;
            let high = read_volume(behind(word, dash))?;
            span_between(low, high)
        }
    }
}

/// How many volumes a range has.
pub(crate) fn span_len(span: Span) -> u32
    ensures { result ≡ span_len span }
{
    (u32::from(span.high) + 1).saturating_sub(u32::from(span.low))
}

/// Adds the pairs of two ranges of equal length: the k-th volume of one goes with the k-th of the other.
fn push_pairs(pairs: &mut Vec<Item>, a: Span, b: Span) -> Result<(), AllocError>
    requires { span_len a ≡ span_len b }
    ensures { OnOk result (pairs.new.items ≡ pairs.old.items ++ paired a b) }
{
    for k in 0..span_len(a) {
        pairs.push(Item {
            first: (u32::from(a.low) + k) as u16,
            second: (u32::from(b.low) + k) as u16,
        })?;
    }
    Ok(())
}

/// The pairs of two ranges of equal length.
pub(crate) fn paired(alloc: Global, a: Span, b: Span) -> Result<Vec<Item>, AllocError>
    requires { span_len a ≡ span_len b }
    ensures { IfOk result (λ pairs. pairs.items ≡ paired a b) }
{
    let mut pairs = Vec::new(alloc);
    push_pairs(&mut pairs, a, b)?;
    Ok(pairs)
}

/// The fault of two volumes, by how many tracks lines above give them.
fn sizes_fault(first: u16, second: u16, a: Option<u32>, b: Option<u32>) -> Option<Reason>
    ensures { result ≡ sizes_fault first second a b }
{
    match (a, b) {
        (None, _) => Some(Reason::UnknownVolume(first)),
        (Some(_), None) => Some(Reason::UnknownVolume(second)),
        (Some(m), Some(n)) => {
            if m == n {
                None
            } else {
                Some(Reason::OtherSize(first, second))
            }
        }
    }
}

/// The fault of a pair: a volume that no line above defines, or two volumes of different sizes.
fn pair_fault(sizes: &[VolumeSize], pair: Item) -> Option<Reason>
    ensures { result ≡ pair_fault sizes.now pair }
{
    let first = tracks_of(sizes, pair.first);
    let second = tracks_of(sizes, pair.second);
    sizes_fault(pair.first, pair.second, first, second)
}

/// The first fault of pairs.
pub(crate) fn pairs_fault(sizes: &[VolumeSize], pairs: &[Item]) -> Option<Reason>
    ensures { result ≡ pairs_fault sizes.now pairs.now }
{
    for pair in pairs {
        if let Some(reason) = pair_fault(sizes, *pair) {
            return Some(reason);
        }
    }
    None
}
