//! Counts of sessions' numbers, and of these and servers.

ghost use Rattle.std.specs.Prelude.{◌≡◌, ◌<◌, slice_index};
ghost use Rattle.dr_logic.specs.Tables.{at2};
ghost use Rattle.dr_ctl.specs.Kept.{in_row, AreRows};

use dr_ids::{MOST_SERVERS, ServerId, SessionId};

/// How many numbers a session may have.
const SESSION_NUMBERS: usize = 256;

/// A count for each number of a session.
pub(crate) type Counts = [u32; SESSION_NUMBERS];

/// For each number of a session a row, with a count for each server.
pub(crate) type Rows = [[u32; MOST_SERVERS]; SESSION_NUMBERS];

// Nothing was counted.
pub(crate) fn no_counts() -> Counts
    ensures { slice_index result ≡ λ s. 0 }
{
    [0; SESSION_NUMBERS]
}

// Nothing was counted in any row.
pub(crate) fn no_rows() -> Rows
    ensures none { in_row result ≡ λ s server. 0 }
    ensures rows { AreRows result }
{
    [[0; MOST_SERVERS]; SESSION_NUMBERS]
}

// Replaces one count of a row.
pub(crate) fn put(rows: &mut Rows, s: SessionId, server: ServerId, count: u32)
    requires low { server.0 < 8 }
    requires rows { AreRows rows.old }
    ensures put { in_row rows.new ≡ at2 (in_row rows.old) s.0 server.0 count }
    ensures rows { AreRows rows.new }
{
    rows[usize::from(s.0)][usize::from(server.0)] = count;
}
