//! What a command puts at its end, with its status.

ghost use Rattle.std.specs.Prelude.{◌≡◌, IfOk, OnOk, OnErr, false, Ok};
ghost use Rattle.dr_top.specs.Offline.{Reports};
ghost use Rattle.dr_top.specs.Outcome.{is_write_fault};

use crate::put::put_all;
use crate::status::Status;
use dr_ids::Text;
use dr_io::Sink;
use std::alloc::{AllocError, Global};

/// What is put, and the status with it.
#[derive(Drop)]
pub struct Report {
    pub status: Status,
    pub text: Text,
}

/// A line as a text.
pub fn line_text(alloc: Global, line: &str) -> Result<Text, AllocError>
    ensures { IfOk result (λ text. text ≡ line.now) }
{
    let mut text = Text::new(alloc);
    text.append(line.as_bytes())?;
    Ok(text)
}

/// Puts a report.
pub fn put_report<K: Sink>(sink: &mut K, report: &Report) -> Status
    requires { is_write_fault report.now.status ≡ false }
    ensures { Reports K.written sink.old sink.new K.faults report.now result }
{
    match put_all(sink, report.text.bytes()) {
        Ok(()) => report.status,
        Err(_) => Status::WriteFault,
    }
}
