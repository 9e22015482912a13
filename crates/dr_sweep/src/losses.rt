//! What is lost to a use of volumes, by the journal of a point's run.

ghost use Rattle.std.specs.Prelude.{◌≡◌, ◌≤◌, IfOk, OnOk, filter, length, take};
ghost use Rattle.dr_model.specs.Histories.{Histories, histories};
ghost use Rattle.dr_lost.specs.Held.{StandsFor};
ghost use Rattle.dr_lost.specs.Lost.{held_writes, lost_writes};
ghost use Rattle.dr_sweep.specs.Acks.{among};
ghost use Rattle.dr_sweep.specs.Losses.{pair_of, pairs_of, firsts_of, seconds_of, kept_between, AreFates, AreLeast, SaysLoss, IsLoss, AreLosses};
ghost use Rattle.std.specs.List.Sorted.{IsPermutation, IsSorted};
ghost use Rattle.std.specs.Ordering.{nat_cmp};

use crate::acks::age;
use dr_lost::{Holdings, Pair, first_broken};
use dr_model::{Item, Journal};
use dr_plan::Use;
use dr_rows::Loss;
use indexmap::IndexSet;
use std::alloc::{AllocError, Global};

/// How many of the lost writes are named.
const MOST_NAMED: usize = 16;

/// A pair, as what is lost is asked of it.
fn pair_of(item: &Item) -> Pair
    ensures { result ≡ pair_of item.now }
{
    Pair {
        second: item.second,
        first: item.first,
    }
}

/// The pairs of volumes, as what is lost is asked of them.
fn pairs_of(alloc: Global, items: &[Item]) -> Result<Vec<Pair>, AllocError>
    ensures { IfOk result (λ pairs. pairs.items ≡ pairs_of items.now) }
{
    items.iter().map(pair_of).collect(alloc)
}

/// The volumes that are used after the recovery.
fn firsts_of(alloc: Global, items: &[Item]) -> Result<Vec<u16>, AllocError>
    ensures { IfOk result (λ volumes. volumes.items ≡ firsts_of items.now) }
{
    items.iter().map(|item| item.first).collect(alloc)
}

/// Those in whose place they are used.
fn seconds_of(alloc: Global, items: &[Item]) -> Result<Vec<u16>, AllocError>
    ensures { IfOk result (λ volumes. volumes.items ≡ seconds_of items.now) }
{
    items.iter().map(|item| item.second).collect(alloc)
}

/// What volumes hold.
fn held_by(holdings: &Holdings, volumes: &[u16]) -> Result<IndexSet<u32>, AllocError>
    ensures { (h : Histories) → StandsFor holdings.now h → IfOk result (λ held. held.keys ≡ held_writes h.now volumes.now) }
{
    holdings.held(volumes)
}

/// Keeps the writes that a set has.
fn keep_held(kept: &mut IndexSet<u32>, held: &IndexSet<u32>)
    ensures { kept.new.keys ≡ filter (among held.now.keys) kept.old.keys }
{
    kept.retain(|w| held.contains(w));
}

/// The writes that the first volumes hold at the end, of those that the second ones held as the recovery began.
fn kept_between(
    alloc: Global,
    items: &[Item],
    before: &Holdings,
    at_end: &Holdings,
) -> Result<IndexSet<u32>, AllocError>
    ensures { (a b : Histories) → StandsFor before.now a → StandsFor at_end.now b → IfOk result (λ kept. kept.keys ≡ kept_between a.now b.now items.now) }
{
    let held = held_by(before, &seconds_of(alloc, items)?)?;
    let mut kept = held_by(at_end, &firsts_of(alloc, items)?)?;
    keep_held(&mut kept, &held);
    Ok(kept)
}

/// The writes that the second volumes held as the recovery began and the first ones don't hold at the end.
fn lost_between(
    alloc: Global,
    items: &[Item],
    before: &Holdings,
    at_end: &Holdings,
) -> Result<IndexSet<u32>, AllocError>
    ensures { (a b : Histories) → StandsFor before.now a → StandsFor at_end.now b → IfOk result (λ lost. lost.keys ≡ lost_writes a.now b.now (pairs_of items.now)) }
{
    before.lost(at_end, &pairs_of(alloc, items)?)
}

/// What became of the writes that the second volumes held as the recovery began.
#[derive(Drop)]
struct Fates {
    lost: IndexSet<u32>,
    kept: IndexSet<u32>,
}

/// By what was held as the recovery began, and by what is held at the end.
fn fates_between(
    alloc: Global,
    items: &[Item],
    before: &Holdings,
    at_end: &Holdings,
) -> Result<Fates, AllocError>
    ensures { (a b : Histories) → StandsFor before.now a → StandsFor at_end.now b → IfOk result (λ fates. AreFates a.now b.now items.now fates.lost.keys fates.kept.keys) }
{
    let lost = lost_between(alloc, items, before, at_end)?;
    match kept_between(alloc, items, before, at_end) {
        Ok(kept) => Ok(Fates { lost, kept }),
        Err(fault) => Err(fault),
    }
}

/// The numbers of a set, ascending.
fn ordered(alloc: Global, set: &IndexSet<u32>) -> Result<Vec<u32>, AllocError>
    ensures same { IfOk result (λ numbers. IsPermutation set.now.keys numbers.items) }
    ensures ascending { IfOk result (λ numbers. IsSorted nat_cmp numbers.items) }
{
    let mut numbers = Vec::from_slice(alloc, set.as_slice())?;
    numbers.sort_unstable();
    Ok(numbers)
}

/// The least numbers of a set.
fn least(alloc: Global, set: &IndexSet<u32>) -> Result<Vec<u32>, AllocError>
    ensures { IfOk result (λ numbers. AreLeast set.now.keys numbers.items) }
{
    let numbers = ordered(alloc, set)?;
    // A row keeps them, so they get room of their own.
    Vec::from_slice(alloc, &numbers[..numbers.len().min(MOST_NAMED)])
}

/// What a loss says of lost and kept writes.
fn loss_by(
    alloc: Global,
    items: &[Item],
    journal: &Journal,
    begin: usize,
    fates: &Fates,
) -> Result<Loss, AllocError>
    requires { begin ≤ length journal.now.events }
    ensures { IfOk result (SaysLoss journal.now.events begin items.now fates.now.lost.keys fates.now.kept.keys) }
{
    let seconds = seconds_of(alloc, items)?;
    let age = age(alloc, journal, begin, &seconds, &fates.lost)?;
    let least = least(alloc, &fates.lost)?;
    let broken = first_broken(journal, &fates.kept, &fates.lost);
    Ok(Loss::new(fates.lost.len(), least, age, broken))
}

/// The loss of a use whose pairs these are.
fn loss_of(
    alloc: Global,
    items: &[Item],
    journal: &Journal,
    begin: usize,
    before: &Holdings,
    at_end: &Holdings,
) -> Result<Loss, AllocError>
    requires within { begin ≤ length journal.now.events }
    requires before { StandsFor before.now (histories (take begin journal.now.events)) }
    requires end { StandsFor at_end.now (histories journal.now.events) }
    ensures { IfOk result (IsLoss journal.now.events begin items.now) }
{
    let fates = fates_between(alloc, items, before, at_end)?;
    loss_by(alloc, items, journal, begin, &fates)
}

/// The losses of uses, in order.
fn losses_between(
    alloc: Global,
    uses: &[Use],
    journal: &Journal,
    begin: usize,
    before: &Holdings,
    at_end: &Holdings,
) -> Result<Vec<Loss>, AllocError>
    requires within { begin ≤ length journal.now.events }
    requires before { StandsFor before.now (histories (take begin journal.now.events)) }
    requires end { StandsFor at_end.now (histories journal.now.events) }
    ensures { IfOk result (λ losses. AreLosses journal.now.events begin uses.now losses.items) }
{
    let mut losses = Vec::new(alloc);
    for u in uses {
        losses.push(loss_of(alloc, u.pairs(), journal, begin, before, at_end)?)?;
    }
    Ok(losses)
}

/// The losses of uses, by the journal of a run whose recovery began after that many of its events.
pub(crate) fn losses(
    alloc: Global,
    uses: &[Use],
    journal: &Journal,
    begin: usize,
) -> Result<Vec<Loss>, AllocError>
    requires { begin ≤ length journal.now.events }
    ensures { IfOk result (λ losses. AreLosses journal.now.events begin uses.now losses.items) }
{
    let before = Holdings::after(alloc, journal, begin)?;
    let at_end = Holdings::after(alloc, journal, journal.len())?;
    losses_between(alloc, uses, journal, begin, &before, &at_end)
}
