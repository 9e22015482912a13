ghost use Rattle.std.specs.Prelude.{◌≡◌, ◌≤◌, drop, length};
ghost use Rattle.dr_top.specs.Outcome.{code_of, is_refusal, has_refusal};
ghost use Rattle.dr_top.specs.Statuses.{refusal_at, whole_status};

use dr_model::{Event, Journal};

/// How a call of the program ends.
#[derive(Clone, Copy)]
pub enum Status {
    /// All input was read, and no step was refused.
    Done,
    /// All input was read, and a step was refused.
    DoneRefused,
    /// The words are no command.
    Usage,
    /// The source failed.
    ReadFault,
    /// The sink failed.
    WriteFault,
    /// There is no memory.
    NoMemory,
    /// The input has more bytes or lines than a script or an image may have, or a step found the journal full.
    TooLong,
    /// The input is no image.
    BadImage,
    /// No recovery is possible of the image.
    Contradiction,
    /// No volume of the image counts in the session.
    NoMembers,
}

impl Status {
    /// The number that the process ends with.
    pub fn code(self) -> u8
        ensures { result ≡ code_of self }
    {
        match self {
            Status::Done => 0,
            Status::DoneRefused => 1,
            Status::Usage => 2,
            Status::ReadFault => 3,
            Status::WriteFault => 4,
            Status::NoMemory => 5,
            Status::TooLong => 6,
            Status::BadImage => 7,
            Status::Contradiction => 8,
            Status::NoMembers => 9,
        }
    }
}

/// An answer that is neither ok nor held.
fn is_refusal(event: &Event) -> bool
    ensures { result ≡ is_refusal event.now }
{
    match event {
        Event::Answer { code, .. } => !(*code == 0 || *code == 100),
        _ => false,
    }
}

/// Whether the event at a place is a refusal.
pub fn is_refusal_at(journal: &Journal, place: usize) -> bool
    ensures { result ≡ refusal_at journal.now.events place }
{
    match journal.event(place) {
        Some(event) => is_refusal(event),
        None => false,
    }
}

/// Whether an event from a place on is a refusal.
fn has_refusal(journal: &Journal, from: usize) -> bool
    requires { from ≤ length journal.now.events }
    ensures { result ≡ has_refusal (drop from journal.now.events) }
{
    for i in from..journal.len() {
        if is_refusal_at(journal, i) {
            return true;
        }
    }
    false
}

/// How a run ends whose input was read to its end, by the events from a place on.
pub fn whole_status(journal: &Journal, from: usize) -> Status
    requires { from ≤ length journal.now.events }
    ensures { result ≡ whole_status (has_refusal (drop from journal.now.events)) }
{
    if has_refusal(journal, from) {
        Status::DoneRefused
    } else {
        Status::Done
    }
}
