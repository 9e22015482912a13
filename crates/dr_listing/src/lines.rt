//! Lines of a listing, one after the other.

ghost use Rattle.std.specs.Prelude.{◌≡◌, ◌+◌, ◌<◌, ◌≤◌, ◌++◌};
ghost use Rattle.dr_listing.specs.Told.{lines_of};

use dr_model::{Event, Journal};

/// Tells a line, if there is one.
pub(crate) fn push(journal: &mut Journal, line: Option<Event>)
    requires room { 0 < journal.old.spare }
    ensures told { journal.new.events ≡ journal.old.events ++ lines_of line }
    ensures left { journal.old.spare ≤ journal.new.spare + 1 }
{
    if let Some(event) = line {
        journal.push(event);
    }
}
