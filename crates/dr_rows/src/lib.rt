//! The rows of a sweep, and the texts that are printed of them.
//!
//! A `Row` says what one point of a plan came to (`Outcome`), with a `Loss` for each use, and a `Calm` what the run without a disaster did.
//! `heading` and `push_row` are the lines of a table with commas (`row_lines`), `has_finding` says whether something is a finding, `report`
//! is the report on the calm run and all rows, `json_text` is what tools read (`Json.antt`), and `comparison` has the tables of two sweeps (`Swept`) side
//! by side (`Compare.antt`). Each text is a definition of the plan, the calm run and the rows: `Line.antt` has those of a row,
//! `Report.antt` that of the report with its parts, the calm run (`Calm.antt`), the table (`Table.antt`), the disasters (`Kinds.antt`), the
//! recovery (`Refusals.antt`) and the strip (`Strip.antt`). Of the report's parts those are public that a chart shows too: the rows of a
//! disaster, how many there are of which sort, the worst of them with its words, and the names of servers, uses, steps and phases.
//! `gap_place` and `push_place_name` name the step before a gap. What fails, fails for want of memory.
#![tactic(auto)]

mod calm;
mod cells;
mod compare;
mod disasters;
mod findings;
mod json;
mod json_pieces;
mod line;
mod pieces;
mod places;
mod recovery;
mod reporting;
mod row;
mod signs;
mod strip;
mod table;
mod table_cells;
mod words;

pub use calm::{Calm, CalmStep};
pub use cells::{groups_in, no_group, push_phase, push_use_head};
pub use compare::{Swept, comparison};
pub use disasters::{
    broken_count, most_of, no_group_count, push_lost_at_once, push_worst, row_count, rows_of,
    servers_of, short_count,
};
pub use findings::{asks_recovery, has_finding};
pub use json::json_text;
pub use line::{disaster_of, heading, push_row, writes_before};
pub use pieces::{push_number, push_total};
pub use places::{differs, most_lost};
pub use reporting::report;
pub use row::{Answer, Loss, Members, Row, SessionPhase};
pub use strip::step_text;
pub use words::{gap_place, push_place_name};
