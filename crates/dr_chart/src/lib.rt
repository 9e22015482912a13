//! Draws the rows of a plan as a chart: how many writes are lost at each moment of a disaster, and which group comes back.
//!
//! `picture` gives an SVG as a text, with a panel for each disaster and use; `compared_picture` has those of two plans at one scale. `Columns.antt` says which moments there are and in which order
//! they stand, `Panels.antt` what is drawn of them, and `Picture.antt` the text to the letter. All numbers are integers: columns are placed
//! in hundredths of a unit, within a group that is scaled.
#![tactic(auto)]

mod axes;
mod both;
mod columns;
mod drawing;
mod heads;
mod legend;
mod moments;
mod panels;
mod pieces;
mod places;
mod stretches;

pub use both::compared_picture;
pub use drawing::picture;
