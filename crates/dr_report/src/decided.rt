//! Which volumes count in a session, what is decided over them, and which of them remain.

ghost use Rattle.std.specs.Prelude.{◌≡◌, ◌==◌, filter, map, IfOk};
ghost use Rattle.std.specs.List.{list_all};
ghost use Rattle.dr_model.specs.Decisions.{numbers_in};
ghost use Rattle.dr_model.specs.Recovery.{common, goes_back, number_after, remains_in};
ghost use Rattle.dr_model.specs.RecoveryPlans.{lets_revert};
ghost use Rattle.dr_model.specs.SessionEntries.{counts_in};
ghost use Rattle.dr_report.specs.Known.{all_known};
ghost use Rattle.dr_report.specs.Report.{group_left};
ghost use Rattle.dr_volume.specs.Plain.{plain};

use crate::device::Device;
use dr_ids::{Decision, SessionId};
use dr_volume::Fields;
use std::alloc::{AllocError, Global};

/// A volume counts in a session where it is a member there, or revertible.
fn counts(session: SessionId, fields: &Fields) -> bool
    ensures { result ≡ counts_in session.0 (plain fields.now) }
{
    fields.session == session.0 && (fields.member || fields.revertible)
}

/// The numbers of the volumes that count in a session, in order.
pub fn numbers_counted(
    alloc: Global,
    devices: &[Device],
    session: SessionId,
) -> Result<Vec<u32>, AllocError>
    ensures { IfOk result (λ numbers. numbers.items ≡ map (λ d. d.fields.sequence) (filter (λ d. counts_in session.0 (plain d.fields)) devices.now)) }
{
    devices
        .iter()
        .filter(|device| counts(session, &device.fields))
        .map(|device| device.fields.sequence)
        .collect(alloc)
}

/// Which of them are revertible.
pub fn flags_counted(
    alloc: Global,
    devices: &[Device],
    session: SessionId,
) -> Result<Vec<bool>, AllocError>
    ensures { IfOk result (λ flags. flags.items ≡ map (λ d. d.fields.revertible) (filter (λ d. counts_in session.0 (plain d.fields)) devices.now)) }
{
    devices
        .iter()
        .filter(|device| counts(session, &device.fields))
        .map(|device| device.fields.revertible)
        .collect(alloc)
}

/// Whether revertible volumes go back.
pub fn lets_revert(decision: Decision) -> bool
    ensures { result ≡ lets_revert decision }
{
    matches!(
        decision,
        Decision::RevertAll(_) | Decision::RevertSome(_, _)
    )
}

/// A volume that is revertible goes back, where that is decided.
pub fn goes_back(reverts: bool, fields: &Fields) -> bool
    ensures { result ≡ goes_back reverts (plain fields.now) }
{
    reverts && fields.revertible
}

/// Each that counts remains, but one that goes back and was no member before.
pub fn remains(session: SessionId, reverts: bool, fields: &Fields) -> bool
    ensures { result ≡ remains_in session.0 reverts (plain fields.now) }
{
    counts(session, fields) && (!goes_back(reverts, fields) || fields.member)
}

/// The number that a volume has then: where it goes back, the one before.
fn number_after(reverts: bool, fields: &Fields) -> u32
    ensures { result ≡ number_after reverts (plain fields.now) }
{
    if goes_back(reverts, fields) {
        fields.previous_sequence
    } else {
        fields.sequence
    }
}

/// The numbers of those that remain, in order.
fn numbers_left(
    alloc: Global,
    devices: &[Device],
    session: SessionId,
    reverts: bool,
) -> Result<Vec<u32>, AllocError>
    ensures { IfOk result (λ numbers. numbers.items ≡ map (λ d. number_after reverts (plain d.fields)) (filter (λ d. remains_in session.0 reverts (plain d.fields)) devices.now)) }
{
    devices
        .iter()
        .filter(|device| remains(session, reverts, &device.fields))
        .map(|device| number_after(reverts, &device.fields))
        .collect(alloc)
}

/// All of some are this number.
fn all_are(numbers: &[u32], n: u32) -> bool
    ensures { result ≡ list_all (λ m. m == n) numbers.now }
{
    numbers.iter().all(|m| *m == n)
}

/// The number that all of some have.
fn common(numbers: &[u32]) -> Option<u32>
    ensures { result ≡ common (numbers_in numbers.now) }
{
    let first = *numbers.first()?;
    if all_are(numbers, first) {
        Some(first)
    } else {
        None
    }
}

/// The number that those share that remain.
pub fn group_left(
    alloc: Global,
    devices: &[Device],
    session: SessionId,
    reverts: bool,
) -> Result<Option<u32>, AllocError>
    ensures { IfOk result (λ group. group ≡ group_left session.0 reverts (all_known devices.now)) }
{
    let numbers = numbers_left(alloc, devices, session, reverts)?;
    Ok(common(&numbers))
}
