//! The command `recover`: reads a plant image, and puts what recovery makes of it.

ghost use Rattle.std.specs.Prelude.{◌≡◌, ℕ, ◌++◌, [], List, IfOk, OnOk, OnErr, false, Ok};
ghost use Rattle.dr_logic.specs.Counts.{Counted};
ghost use Rattle.dr_image.specs.Reader.{will_read};
ghost use Rattle.dr_image.specs.Outcome.{FinishesAs};
ghost use Rattle.dr_model.specs.PlantImage.{IsImage, reading};
ghost use Rattle.dr_top.specs.Offline.{Reads, EndsOffline, bad_report, contradiction_report, found_report, report_text};
ghost use Rattle.dr_top.specs.Outcome.{is_read_fault, is_write_fault};

use crate::report::{Report, line_text, put_report};
use crate::status::Status;
use dr_ids::SessionId;
use dr_image::{Image, ImageFault, ImageReader};
use dr_io::{PieceReader, SCRIPT_LIMITS, Sink, Source, TakenPiece};
use dr_report::{Found, offline};
use std::alloc::{AllocError, Global};

/// Why a text wasn't read to its end.
#[derive(Clone, Copy)]
pub enum NotRead {
    /// The source failed.
    ReadFault,
    /// The text has too many bytes or lines.
    TooLong,
    /// There is no memory.
    NoMemory,
}

/// Hands the text that the source has to the reader of an image, piece by piece. A bad text is read to its end, too.
fn read_pieces<S: Source>(source: &mut S, image: &mut ImageReader) -> Result<(), NotRead>
    requires works { image.old.failed ≡ false }
    requires begins { (rest : List ℕ) → will_read image.old rest ≡ reading rest }
    ensures { Reads S.left source.old source.new S.faults image.new result }
{
    let mut pieces = PieceReader::new(SCRIPT_LIMITS);
    loop {
        match pieces.next_piece(source) {
            Ok(TakenPiece::Piece) => {
                let Ok(()) = image.feed(pieces.piece()) else {
                    return Err(NotRead::NoMemory);
                };
            }
            Ok(TakenPiece::End) => return Ok(()),
            Ok(TakenPiece::TooLong) => return Err(NotRead::TooLong),
            Err(_) => return Err(NotRead::ReadFault),
        }
    }
}

/// What is put of an image that isn't one.
fn bad_report(alloc: Global, line: u32) -> Result<Report, AllocError>
    ensures { IfOk result (λ report. report ≡ bad_report line) }
{
    let says = format!(in alloc; "bad image line {line}\n")?;
    Ok(Report {
        status: Status::BadImage,
        text: line_text(alloc, &says)?,
    })
}

/// What is put of a recovery that two numbers make impossible.
fn contradiction_report(alloc: Global, a: u32, b: u32) -> Result<Report, AllocError>
    ensures { IfOk result (λ report. report ≡ contradiction_report a b) }
{
    let says = format!(in alloc; "contradiction {a} {b}\n")?;
    Ok(Report {
        status: Status::Contradiction,
        text: line_text(alloc, &says)?,
    })
}

/// What is put of what recovery finds in an image.
fn found_report(alloc: Global, found: Found) -> Result<Report, AllocError>
    ensures { IfOk result (λ report. report ≡ found_report found) }
{
    match found {
        Found::Lines(text) => Ok(Report {
            status: Status::Done,
            text,
        }),
        Found::Contradiction { a, b } => contradiction_report(alloc, a, b),
        Found::NoMembers => Ok(Report {
            status: Status::NoMembers,
            text: line_text(alloc, "no members\n")?,
        }),
    }
}

/// What is put of what was read.
fn report_of(
    alloc: Global,
    read: Result<Image, ImageFault>,
    session: SessionId,
) -> Result<Report, AllocError>
    requires proper { IfOk read (λ image. IsImage image) }
    ensures { (text : List ℕ) → FinishesAs false (reading text) read → IfOk result (λ report. report ≡ report_text session.0 text) }
{
    match read {
        Ok(image) => found_report(alloc, offline(alloc, &image, session)?),
        Err(ImageFault::BadImage { line }) => bad_report(alloc, line),
        Err(ImageFault::NoMemory) => Err(AllocError),
    }
}

/// Reads the text of a plant image from the source to its end, and puts what recovery of the session makes of it: its members,
/// decision, group and tracks, or one line that says why there is none. It takes at most one byte more than an image may have.
pub fn recover<S: Source, K: Sink>(
    alloc: Global,
    source: &mut S,
    sink: &mut K,
    session: SessionId,
) -> Status
    ensures ends { EndsOffline S.left K.written source.old source.new sink.old sink.new session.0 result }
    ensures reads { Counted (is_read_fault result) (S.faults source.old) (S.faults source.new) }
    ensures writes { Counted (is_write_fault result) (K.faults sink.old) (K.faults sink.new) }
{
    let mut image = ImageReader::new(alloc);
    match read_pieces(source, &mut image) {
        Ok(()) => match report_of(alloc, image.finish(), session) {
            Ok(report) => put_report(sink, &report),
            Err(_) => Status::NoMemory,
        },
        Err(NotRead::ReadFault) => Status::ReadFault,
        Err(NotRead::TooLong) => Status::TooLong,
        Err(NotRead::NoMemory) => Status::NoMemory,
    }
}
