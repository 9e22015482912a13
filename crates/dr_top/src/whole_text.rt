//! Reads a whole text, within the limits of a script.

ghost use Rattle.dr_top.specs.Offline.{TakesText};

use crate::offline::NotRead;
use dr_ids::Text;
use dr_io::{PieceReader, SCRIPT_LIMITS, Source, TakenPiece};
use std::alloc::Global;

/// Reads the text that the source has to its end. It takes at most one byte more than a script may have.
pub fn read_text<S: Source>(alloc: Global, source: &mut S) -> Result<Text, NotRead>
    ensures { TakesText S.left source.old source.new S.faults result }
{
    let mut pieces = PieceReader::new(SCRIPT_LIMITS);
    let mut text = Text::new(alloc);
    loop {
        match pieces.next_piece(source) {
            Ok(TakenPiece::Piece) => {
                let Ok(()) = text.append(pieces.piece()) else {
                    return Err(NotRead::NoMemory);
                };
            }
            Ok(TakenPiece::End) => return Ok(text),
            Ok(TakenPiece::TooLong) => return Err(NotRead::TooLong),
            Err(_) => return Err(NotRead::ReadFault),
        }
    }
}
