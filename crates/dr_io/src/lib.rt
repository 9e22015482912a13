//! Sources of bytes and sinks for bytes. Each call may fail, and each failure is counted.
//!
//! `LineReader::next` gives the lines of a source one after another, however the source cuts its bytes: the next line,
//! the end, `TooLong` exactly past the limit of bytes or lines, or the source's fault (`next`). It takes pieces of at
//! most 4,096 bytes, and has at most that much ahead of the line that it gave (`near`). `line` is that line without its
//! line end; of one longer than 1,024 bytes its first 1,025. `PieceReader::next_piece` gives the bytes of a source
//! themselves, in pieces of at most 4,096 (`near`), within the limits that its reader was made with (`Limits`): what a
//! call took is what it gives (`took`, `counts`), and it answers a piece, the end, `TooLong` exactly past a limit, with at
//! most one byte past that of bytes, or the source's fault (`next`). Sources and sinks fail exactly where their count of
//! faults rises (`rose`, `steady`), the count never falls, and a call that failed took nothing (`untouched`) or wrote a
//! front of its piece (`part`). `MemSource` gives exactly its bytes (`filled`, `state`), `MemSink` keeps exactly what it
//! took (`taken`, `state`). `line_count` says how many lines a text has, and `split_line` gives the first of them.
//! `StdSource` and `StdSink` count exactly the calls that failed, and those that took no byte of a piece (`counted`).
#![tactic(auto)]

mod ahead;
mod amount;
mod copies;
mod counts;
mod kept;
mod limits;
mod line_reader;
mod mem_sink;
mod mem_source;
mod piece_reader;
mod std_sink;
mod std_source;
mod streams;
mod text_lines;

pub use amount::line_count;
pub use limits::{Limits, SCRIPT_LIMITS};
pub use line_reader::{LineReader, ReadingEnd, Taken};
pub use mem_sink::MemSink;
pub use mem_source::MemSource;
pub use piece_reader::{PieceReader, TakenPiece};
pub use std_sink::StdSink;
pub use std_source::StdSource;
pub use streams::{Failed, Sink, Source};
pub use text_lines::split_line;
