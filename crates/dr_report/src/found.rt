//! What recovery makes of a plant image.

ghost use Rattle.std.specs.Prelude.{◌≡◌, ℕ, ◌≤◌, ◌↔◌, [], filter, length, map, IfOk};
ghost use Rattle.dr_ids.specs.declared.refusal.Decision.TheVariants.{Impossible};
ghost use Rattle.dr_model.specs.Offline.{counted_in, decided_of};
ghost use Rattle.dr_report.specs.declared.found.Found.TheVariants.{Contradiction, NoMembers};
ghost use Rattle.dr_model.specs.PlantImage.{IsImage, ended};
ghost use Rattle.dr_model.specs.SessionEntries.{counts_in};
ghost use Rattle.dr_volume.specs.Plain.{plain};
ghost use Rattle.dr_report.specs.Found.{found_in, found_known};
ghost use Rattle.dr_report.specs.Known.{all_known};
ghost use Rattle.dr_report.specs.Report.{counted, report_by};

use crate::decided::{flags_counted, group_left, lets_revert, numbers_counted};
use crate::device::{Device, read_devices};
use crate::printed::{push_head, push_volumes};
use dr_decide::decide;
use dr_ids::{Decision, SessionId, Text};
use dr_image::Image;
use std::alloc::{AllocError, Global};

/// What recovery finds in an image.
#[derive(Drop)]
pub enum Found {
    /// The text to be printed: how many volumes count, what is decided over them, their group, and what those show that remain.
    Lines(Text),
    /// Two numbers of which recovery can keep neither.
    Contradiction { a: u32, b: u32 },
    /// No volume counts in the session.
    NoMembers,
}

/// The text of what is decided over so many volumes.
fn report(
    alloc: Global,
    devices: &[Device],
    session: SessionId,
    members: u32,
    decision: Decision,
) -> Result<Text, AllocError>
    requires { members ≡ length (counted session.0 (all_known devices.now)) }
    ensures { IfOk result (λ text. text ≡ ended (report_by session.0 decision (all_known devices.now))) }
{
    let reverts = lets_revert(decision);
    let group = group_left(alloc, devices, session, reverts)?;
    let mut text = Text::new(alloc);
    push_head(alloc, &mut text, members, decision, group)?;
    push_volumes(alloc, &mut text, devices, session, reverts)?;
    Ok(text)
}

/// What recovery finds in volumes that were read, by the numbers of those that count, and which of them are revertible.
fn found_by(
    alloc: Global,
    devices: &[Device],
    session: SessionId,
    numbers: &[u32],
    revertible: &[bool],
) -> Result<Found, AllocError>
    requires few { length devices.now ≤ 64 }
    requires numbers { numbers.now ≡ map (λ d. d.fields.sequence) (filter (λ d. counts_in session.0 (plain d.fields)) devices.now) }
    requires revertible { revertible.now ≡ map (λ d. d.fields.revertible) (filter (λ d. counts_in session.0 (plain d.fields)) devices.now) }
    ensures { IfOk result (λ found. found ≡ found_known session.0 (all_known devices.now)) }
{
    if numbers.is_empty() {
        return Ok(Found::NoMembers);
    }
    let members = numbers.len() as u32;
    match decide(numbers, revertible) {
        Decision::Impossible(a, b) => Ok(Found::Contradiction { a, b }),
        decision => Ok(Found::Lines(report(alloc, devices, session, members, decision)?)),
    }
}

/// What recovery finds in volumes that were read.
fn find(alloc: Global, devices: &[Device], session: SessionId) -> Result<Found, AllocError>
    requires { length devices.now ≤ 64 }
    ensures { IfOk result (λ found. found ≡ found_known session.0 (all_known devices.now)) }
{
    let numbers = numbers_counted(alloc, devices, session)?;
    let revertible = flags_counted(alloc, devices, session)?;
    found_by(alloc, devices, session, &numbers, &revertible)
}

/// What recovery makes of a session, by the volumes of an image alone: whether servers were on doesn't matter. A volume counts in
/// the session where it is a member there, or revertible. Where none counts, there are no members; where their numbers contradict
/// each other, these two numbers are found; and else the text. Fails where there is no memory.
pub fn offline(alloc: Global, image: &Image, session: SessionId) -> Result<Found, AllocError>
    requires { IsImage image.now }
    ensures found { IfOk result (λ found. found ≡ found_in image.now session.0) }
    ensures contradiction { IfOk result (λ found. (a b : ℕ) → (found ≡ Contradiction a b) ↔ (decided_of image.now session.0 ≡ Impossible a b)) }
    ensures no_members { IfOk result (λ found. (found ≡ NoMembers) ↔ (counted_in image.now session.0 ≡ [])) }
{
    let devices = read_devices(alloc, image)?;
    find(alloc, &devices, session)
}
