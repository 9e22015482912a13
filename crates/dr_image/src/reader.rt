//! Reads images.

ghost use Rattle.std.specs.Prelude.{◌≡◌, ◌<◌, ◌++◌, ◌+◌, length, drop, IfSome, [], ℕ, List, false, All, OnOk, IfOk, IfErr, is_err, IsErr, IsTrue};
ghost use Rattle.std.specs.List.{position};
ghost use Rattle.dr_model.specs.PlantImage.{is_line_feed, step, reading, finished, image_text, IsImage};
ghost use Rattle.dr_image.specs.Lines.{state_of, stage_of};
ghost use Rattle.dr_image.specs.Reader.{will_read, reads_on, IsState};
ghost use Rattle.dr_image.specs.Outcome.{FinishesAs, ReadsAs, IsNoImage, TellsFirst};

use crate::fault::ImageFault;
use crate::image::Image;
use crate::source::without_source;
use crate::state::{Stage, State};
use std::alloc::{AllocError, Global};
use std::marker::Model;

/// Reads an image that comes in pieces.
#[derive(Drop)]
pub struct ImageReader {
    failed: bool,
    state: State,
    /// The bytes of a line whose end hasn't come.
    partial: Vec<u8>,
}

impl Model for ImageReader {
    ghost use Rattle.dr_image.specs.Reader.{Reader, IsReader};

    ghost Value = { Reader };

    ghost use Rattle.dr_image.specs.Lines.{state_of};

    ghost view = { λ r. record { failed = r.failed; state = state_of r.state; partial = r.partial.items } };

    ghost invariant = { λ r. IsReader (record { failed = r.failed; state = state_of r.state; partial = r.partial.items }) };
}

impl ImageReader {
    pub fn new(alloc: Global) -> ImageReader
        ensures works { result.failed ≡ false }
        ensures reads { (rest : List ℕ) → will_read result rest ≡ reading rest }
    {
        ImageReader {
            failed: false,
            state: State::begin(alloc),
            partial: Vec::new(alloc),
        }
    }

    /// Takes the next piece of the text. Without memory the reader has failed, and so has `finish`.
    pub fn feed(&mut self, piece: &[u8]) -> Result<(), AllocError>
        ensures failed { self.new.failed ≡ is_err result }
        ensures stays { IsTrue self.old.failed → IsErr result }
        ensures reads { OnOk result ((rest : List ℕ) → will_read self.new rest ≡ will_read self.old (piece.now ++ rest)) }
    {
        if self.failed {
            return Err(AllocError);
        }
        let taken = take(&mut self.state, &mut self.partial, piece);
        if taken.is_err() {
            self.failed = true;
        }
        taken
    }

    /// The image, or the first bad line, of the text that was fed.
    pub fn finish(self) -> Result<Image, ImageFault>
        ensures { FinishesAs self.failed (will_read self []) result }
    {
        let ImageReader {
            failed,
            state,
            partial,
        } = self;
        if failed {
            Err(ImageFault::NoMemory)
        } else {
            finish(state, &partial)
        }
    }
}

/// The place of the first line feed.
fn line_end(text: &[u8]) -> Option<usize>
    ensures value { result ≡ position is_line_feed text.now }
    ensures within { IfSome result (λ end. end < length text.now) }
{
    text.iter().position(|b| *b == b'\n')
}

/// What stands behind a place.
fn behind(text: &[u8], place: usize) -> &[u8]
    requires { place < length text.now }
    ensures { result.now ≡ drop (place + 1) text.now }
{
    &text[place + 1..]
}

/// Takes the line that ends with a piece.
fn take_line(state: &mut State, partial: &mut Vec<u8>, piece: &[u8]) -> Result<(), AllocError>
    requires state { IsState (state_of state.old) }
    requires partial { All (λ b. is_line_feed b ≡ false) partial.old.items }
    requires piece { All (λ b. is_line_feed b ≡ false) piece.now }
    ensures state { IsState (state_of state.new) }
    ensures partial { All (λ b. is_line_feed b ≡ false) partial.new.items }
    ensures step { OnOk result (state_of state.new ≡ step (state_of state.old) (partial.old.items ++ piece.now)) }
    ensures empty { OnOk result (partial.new.items ≡ []) }
{
    partial.extend_from_slice(piece)?;
    state.step(partial)?;
    partial.clear();
    Ok(())
}

/// Takes a piece line by line.
fn take(state: &mut State, partial: &mut Vec<u8>, piece: &[u8]) -> Result<(), AllocError>
    requires state { IsState (state_of state.old) }
    requires partial { All (λ b. is_line_feed b ≡ false) partial.old.items }
    ensures state { IsState (state_of state.new) }
    ensures partial { All (λ b. is_line_feed b ≡ false) partial.new.items }
    ensures reads { OnOk result ((rest : List ℕ) → reads_on (state_of state.new) partial.new.items rest ≡ reads_on (state_of state.old) partial.old.items (piece.now ++ rest)) }
{
    let mut rest = piece;
    while let Some(end) = line_end(rest) {
        take_line(state, partial, &rest[..end])?;
        rest = behind(rest, end);
    }
    keep(state, partial, rest)
}

/// Keeps what has come of a line, unless the text is bad already.
fn keep(state: &State, partial: &mut Vec<u8>, piece: &[u8]) -> Result<(), AllocError>
    requires partial { All (λ b. is_line_feed b ≡ false) partial.old.items }
    requires piece { All (λ b. is_line_feed b ≡ false) piece.now }
    ensures partial { All (λ b. is_line_feed b ≡ false) partial.new.items }
    ensures reads { OnOk result ((rest : List ℕ) → reads_on (state_of state.now) partial.new.items rest ≡ reads_on (state_of state.now) partial.old.items (piece.now ++ rest)) }
{
    match state.stage {
        Stage::Bad => Ok(()),
        _ => partial.extend_from_slice(piece),
    }
}

/// Behind the last line feed nothing stands, and the end has come.
fn finish(state: State, partial: &[u8]) -> Result<Image, ImageFault>
    requires { IsState (state_of state) }
    ensures { FinishesAs false (finished (state_of state) (stage_of state.stage) partial.now) result }
{
    let State {
        alloc,
        stage,
        line,
        volumes,
        place: _,
    } = state;
    match stage {
        Stage::Ended if partial.is_empty() => match without_source(&volumes) {
            None => Ok(Image { alloc, volumes }),
            Some(place) => Err(ImageFault::BadImage {
                line: place as u32 + 2,
            }),
        },
        _ => Err(ImageFault::BadImage { line }),
    }
}

fn read_whole(alloc: Global, text: &[u8]) -> Result<Image, ImageFault>
    ensures { ReadsAs (reading text.now) result }
{
    let mut reader = ImageReader::new(alloc);
    match reader.feed(text) {
        Ok(()) => reader.finish(),
        Err(_) => Err(ImageFault::NoMemory),
    }
}

/// Reads an image. Fails at the first bad line, counted from 1, or where there is no memory. A text that
/// reads is the text of the image, which is a proper one; one with a bad line is the text of none.
pub fn read_image(alloc: Global, text: &[u8]) -> Result<Image, ImageFault>
    ensures reads { ReadsAs (reading text.now) result }
    ensures image { IfOk result (λ image. (text.now ≡ image_text image) × IsImage image) }
    ensures bad { IfErr result (IsNoImage text.now) }
    ensures first { IfErr result (TellsFirst text.now) }
{
    read_whole(alloc, text)
}
