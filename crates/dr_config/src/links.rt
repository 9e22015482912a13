//! Which links between servers are down, as rows of truth values.

ghost use Rattle.std.specs.Prelude.{◌≡◌, ◌<◌};
ghost use Rattle.dr_config.specs.Links.{is_down, set_from, set_between, none_down};

use dr_ids::MOST_SERVERS;

/// For each server a row, which says for each server whether the link to it is down.
pub(crate) type Rows = [[bool; MOST_SERVERS]; MOST_SERVERS];

// No link is down.
#[tactic(auto, unfolding(crate::specs::Links::none_down))]
pub(crate) fn none_down() -> Rows
    ensures { result ≡ none_down }
{
    [[false; MOST_SERVERS]; MOST_SERVERS]
}

// Whether the link from a to b is down.
#[tactic(auto, unfolding(crate::specs::Links::is_down))]
pub(crate) fn is_down(rows: &Rows, a: usize, b: usize) -> bool
    requires from { a < 8 }
    requires to { b < 8 }
    ensures { result ≡ is_down rows.now a b }
{
    rows[a][b]
}

// Sets the link from a to b, in this direction alone.
#[tactic(auto, unfolding(crate::specs::Links::set_from))]
fn set_from(rows: &mut Rows, a: usize, b: usize, down: bool)
    requires from { a < 8 }
    requires to { b < 8 }
    ensures { rows.new ≡ set_from rows.old a b down }
{
    rows[a][b] = down;
}

// Sets the link between a and b, in both directions.
pub(crate) fn set_between(rows: &mut Rows, a: usize, b: usize, down: bool)
    requires from { a < 8 }
    requires to { b < 8 }
    ensures { rows.new ≡ set_between rows.old a b down }
{
    set_from(rows, a, b, down);
    set_from(rows, b, a, down);
}
