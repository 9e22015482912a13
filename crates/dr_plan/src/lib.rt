//! Reads a plan of a sweep, and gives the script of each of its points.
//!
//! A plan is a script with comment lines that begin with `#sweep`. `read_plan` takes it whole, as `PieceReader` of `dr_io`
//! gives a text within the limits of a script. It answers what the text says, or its bad line and the reason (`reads`).
//! What is read is a plan in the words of the one who writes it (`plan`), with one to eight disasters and one step in each
//! line that is tried (`sweep`). A text with a bad line is none (`bad`), and that line is the first one with which the lines
//! so far begin none, or the one after the last line where all begin one (`first`). `push_reason` writes why it is bad.
//! `script_at` gives the script of a point, or none where the plan has no such point (`text`). Its lines are those of the
//! point (`lines`), and its steps are those of these lines and the stops of the disaster's servers, with their numbers
//! (`steps`). `pieces_at` gives the same script in pieces, each a text of its lines: those before the disaster, the tried
//! step that is cut short, and the stops after it. With the recovery after them these are the script. `script_line` gives a
//! line as a text that reads as it, and `setup_steps` the steps of the set-up, each with its place in the plan. `setup_text` gives its
//! lines as a text, and `calm_script`
//! gives the script without a disaster. `with_tried` gives the plan with other tried steps, which `push_step` and `push_step_parts` add one by one.
//! The script of a plan within the limits of a script may have more lines than these.
#![tactic(auto)]

mod above;
mod apart;
mod fault;
mod lines;
mod marks;
mod names;
mod pieces;
mod plan;
mod points;
mod ranges;
mod reading;
mod reason;
mod stages;
mod uses;
mod words;

pub use apart::{push_step, push_step_parts, with_tried};
pub use fault::PlanFault;
pub use names::{Disaster, is_same_name, name_bytes};
pub use pieces::{PieceTexts, pieces_at, script_at, script_line, setup_steps};
pub use plan::{SweepPlan, Tried, Use};
pub use points::{PlanPlace, Point, Torn, WriteCounts, calm_script, count_at, setup_text};
pub use reading::read_plan;
pub use reason::{Lack, Reason, push_reason, push_volume};
pub use stages::Stage;
