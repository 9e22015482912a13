//! Runs the program in memory.

use dr_io::{MemSink, MemSource};
use dr_model::Journal;
use dr_plant::ModelPlant;
use dr_top::{Status, drsim};
use dr_verdict::{Outcome, words_of};
use std::alloc::{AllocError, Global};

/// How many bytes of the input the source gives at a time.
const PIECE: usize = 4096;

/// The words with which the images of the tables are recovered, one a line.
const RECOVER: &str = "recover\n01\n";

/// Runs the program with these words on an empty plant, over this input, up to one byte more of output than is wanted. So
/// output that is as wanted is had whole, with its run's own status, and any other output differs within what is had.
pub fn run_program(
    alloc: Global,
    words: &[String],
    input: Vec<u8>,
    wanted: usize,
) -> Result<Outcome, AllocError> {
    let mut source = MemSource::new(input, PIECE, Vec::new(alloc));
    let room = wanted.saturating_add(1);
    let mut sink = MemSink::new(alloc, room, Vec::new(alloc), Vec::new(alloc))?;
    let mut plant = ModelPlant::new(alloc);
    let mut journal = Journal::new(alloc);
    let status = drsim(
        alloc,
        words,
        &mut source,
        &mut plant,
        &mut sink,
        &mut journal,
    );
    if matches!(status, Status::NoMemory) {
        return Err(AllocError);
    }
    Ok(Outcome {
        printed: Vec::from_slice(alloc, sink.bytes())?,
        status: status.code(),
    })
}

/// Recovers session 01 of the image in this text, up to one byte more of output than there should be at most.
pub fn recover_image(alloc: Global, image: &[u8], most: usize) -> Result<Outcome, AllocError> {
    let words = words_of(alloc, Some(RECOVER))?;
    run_program(alloc, &words, Vec::from_slice(alloc, image)?, most)
}
