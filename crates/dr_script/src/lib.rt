//! Reads and prints the lines of a script.
//!
//! `read_line` gives the steps of a line in a buffer that is used again (`Line`), or the column of its first fault,
//! exactly as the grammar says (`reads`), and each step that it gives is one that `print_step` takes (`written`).
//! `print_step` writes the canonical line of a step (`text`), which reads as just that step (`reads`). `Line::len` and
//! `Line::step` read the steps. The program reads all lines by it.
#![tactic(auto)]

mod items;
mod line;
mod operands;
mod print;
mod reading;
mod saying;
mod settings;
mod steps;
mod table;
mod values;
mod words;

pub use line::{Line, read_line};
pub use print::print_step;
pub use values::{is_hex, read_decimal, read_name, read_torn};
