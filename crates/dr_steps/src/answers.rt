//! Answers of lines, those that calls of several kinds come to, and the room that the journal has for them.

ghost use Rattle.std.specs.Prelude.{◌≡◌, ◌+◌, ◌<◌, ◌≤◌, ◌++◌, [], ◌∷◌, length, false, IsOk, OnOk, OnErr};
ghost use Rattle.dr_ids.specs.declared.refusal.Refusal.{Refusal};
ghost use Rattle.dr_model.specs.Answers.{answer};
ghost use Rattle.dr_model.specs.Limits.{most_events, image_events};
ghost use Rattle.dr_model.specs.Log.{memory_for};
ghost use Rattle.dr_model.specs.Plans.{has_room, has_room_for};
ghost use Rattle.dr_model.specs.declared.said.Said.TheVariants.{Refused};
ghost use Rattle.dr_steps.specs.Here.{widened, refused, answer_widened, all_done};

use dr_ids::{Fault, MOST_EVENTS, Refusal};
use dr_model::{Addition, Journal, Said};
use std::alloc::AllocError;

/// The room that a step needs in the journal before it begins.
pub const STEP_EVENTS: usize = 8192;

/// And that an image needs.
pub const IMAGE_EVENTS: usize = 20_000;

/// Whether the journal has room for so many events more.
pub fn has_room_for(journal: &Journal, events: usize) -> bool
    requires { events ≤ MOST_EVENTS }
    ensures { result ≡ has_room_for events journal.now.events }
{
    journal.len() <= MOST_EVENTS - events
}

/// Whether the journal has room for what a step may tell.
pub fn has_room(journal: &Journal) -> bool
    ensures { result ≡ has_room journal.now.events }
{
    has_room_for(journal, STEP_EVENTS)
}

/// Keeps the answer of a line, which ends its step.
pub fn say(journal: &mut Journal, line: u32, said: Said)
    requires { 0 < journal.old.spare }
    ensures events { journal.new.events ≡ journal.old.events ++ answer line said ∷ [] }
{
    journal.push(said.event(line));
}

/// Refuses a step before it begins. Where there is no memory nothing has changed. It asks for the room of its answer (`grows`); where the
/// journal has no room for an image it has memory for all its events, so there it is never wanting (`full`).
pub fn refuse(journal: &mut Journal, number: u32, refusal: Refusal) -> Result<(), AllocError>
    ensures told { OnOk result (journal.new.events ≡ journal.old.events ++ answer number (Refused refusal) ∷ []) }
    ensures same { OnErr result (journal.new.events ≡ journal.old.events) }
    ensures grows { OnErr result (length journal.old.events < most_events
        → memory_for (length journal.old.events + journal.old.spare) < memory_for (length journal.old.events + 1)) }
    ensures full { length journal.old.events < most_events → has_room_for image_events journal.old.events ≡ false → IsOk result }
{
    journal.reserve(1)?;
    say(journal, number, Said::Refused(refusal));
    Ok(())
}

/// Answers a line outside the grammar, which is one step. Where there is no memory nothing has changed.
pub fn refuse_syntax(journal: &mut Journal, number: u32, column: u16) -> Result<(), AllocError>
    ensures told { OnOk result (journal.new.events ≡ journal.old.events ++ answer number (Refused (Refusal.Syntax column)) ∷ []) }
    ensures same { OnErr result (journal.new.events ≡ journal.old.events) }
    ensures grows { OnErr result (length journal.old.events < most_events
        → memory_for (length journal.old.events + journal.old.spare) < memory_for (length journal.old.events + 1)) }
{
    refuse(journal, number, Refusal::Syntax { column })
}

/// A call that wants no memory, among those that may.
pub fn widened(carried: Result<Addition, Refusal>) -> Result<Said, Fault>
    ensures { result ≡ widened carried }
{
    match carried {
        Ok(added) => Ok(Said::Done(added)),
        Err(refusal) => Err(Fault::Refused(refusal)),
    }
}

/// The same of a call among those that may want memory.
pub fn refused(carried: Result<Addition, Refusal>) -> Result<Addition, Fault>
    ensures { result ≡ refused carried }
{
    match carried {
        Ok(added) => Ok(added),
        Err(refusal) => Err(Fault::Refused(refusal)),
    }
}

/// The same of a call that may be answered in other ways than done.
pub fn answer_widened(carried: Result<Said, Refusal>) -> Result<Said, Fault>
    ensures { result ≡ answer_widened carried }
{
    match carried {
        Ok(answer) => Ok(answer),
        Err(refusal) => Err(Fault::Refused(refusal)),
    }
}

/// A call that is done where it isn't refused, among those that may be answered in other ways.
pub fn all_done(carried: Result<Addition, Fault>) -> Result<Said, Fault>
    ensures { result ≡ all_done carried }
{
    match carried {
        Ok(added) => Ok(Said::Done(added)),
        Err(fault) => Err(fault),
    }
}
