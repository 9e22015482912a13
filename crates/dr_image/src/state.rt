//! The lines of a text, one by one.

ghost use Rattle.std.specs.Prelude.{◌≡◌, ◌<◌, ◌^◌, true, vec_len, AllPairs, IfSome, nat_eq, length, OnOk, OnErr};
ghost use Rattle.std.specs.List.{list_all, position};
ghost use Rattle.dr_model.specs.PlantImage.{words};
ghost use Rattle.dr_model.specs.PlantImage.{agrees, can_join, place_of, can_fill, begin, join, fill, by_words, by_line, after_line, step};
ghost use Rattle.dr_image.specs.Shown.{bare, shown, all_kept, all_shown};
ghost use Rattle.dr_image.specs.Sound.{IsRead};
ghost use Rattle.dr_image.specs.Lines.{placed, stage_of, state_of, Takes};

use crate::held::{Held, ImageVolume, is_behind, push_held, push_kept};
use crate::said::{Placed, block_said, volume_said};
use crate::words::split_word;
use dr_ids::{FIXED_BLOCKS, MOST_VOLUMES, VolumeId};
use std::alloc::{AllocError, Global};

/// What has come: nothing, volumes, blocks, the end; or a line that can't stand.
#[derive(Clone, Copy)]
pub enum Stage {
    Start,
    Listing,
    Filling,
    Ended,
    Bad,
}

/// The lines so far.
#[derive(Drop)]
pub struct State {
    pub alloc: Global,
    pub stage: Stage,
    /// The number of the next line, or of the bad one.
    pub line: u32,
    pub volumes: Vec<Held>,
    /// The place of the volume whose blocks come.
    pub place: usize,
}

/// Another volume, with the same server where its logical subsystem is the same.
fn agrees(volume: ImageVolume, other: ImageVolume) -> bool
    ensures { result ≡ agrees (bare volume) (bare other) }
{
    volume.volume.0 != other.volume.0
        && (volume.volume.0 / 256 != other.volume.0 / 256 || volume.server == other.server)
}

/// At most 64 volumes, all distinct, and one server for each logical subsystem.
#[tactic(auto, unfolding(dr_model::specs::PlantImage::can_join))]
fn can_join(volumes: &Vec<Held>, volume: ImageVolume) -> bool
    ensures { result ≡ can_join (all_shown volumes.now.items) (bare volume) }
{
    volumes.len() < MOST_VOLUMES && all_agree(volumes, volume)
}

fn all_agree(volumes: &[Held], volume: ImageVolume) -> bool
    ensures { result ≡ list_all (λ h. agrees (shown h) (bare volume)) volumes.now }
{
    volumes.iter().all(|held| agrees(held.volume, volume))
}

/// The place of a volume.
fn place_of(volumes: &Vec<Held>, volume: VolumeId) -> Option<usize>
    ensures value { result ≡ place_of (all_shown volumes.now.items) volume.0 }
    ensures within { IfSome result (λ p. p < vec_len volumes.now) }
{
    first_of(volumes, volume)
}

fn first_of(volumes: &[Held], volume: VolumeId) -> Option<usize>
    ensures value { result ≡ position (λ h. nat_eq (shown h).volume volume.0) volumes.now }
    ensures within { IfSome result (λ p. p < length volumes.now) }
{
    volumes
        .iter()
        .position(|held| held.volume.volume.0 == volume.0)
}

/// A block lies on its volume's device, and comes behind those that have come.
#[tactic(auto, unfolding(dr_model::specs::PlantImage::can_fill))]
fn can_fill(from: usize, place: usize, held: &Held, block: &Placed) -> bool
    requires { AllPairs (λ b c. b.index < c.index) (all_kept held.now.blocks.items) }
    ensures { result ≡ can_fill from place (shown held.now) (placed block.now).block }
{
    let index = block.index;
    from <= place
        && index < u32::from(FIXED_BLOCKS) + u32::from(held.volume.tracks)
        && is_behind(&held.blocks, index)
}

impl State {
    pub fn begin(alloc: Global) -> State
        ensures { state_of result ≡ begin }
    {
        State {
            alloc,
            stage: Stage::Start,
            line: 1,
            volumes: Vec::new(alloc),
            place: 0,
        }
    }

    fn set_stage(&mut self, stage: Stage) -> bool
        ensures state { state_of self.new ≡ record (state_of self.old) { stage = stage_of stage } }
        ensures yes { result ≡ true }
    {
        self.stage = stage;
        true
    }

    /// Adds a volume, where it can stand.
    #[tactic(auto, unfolding(dr_model::specs::PlantImage::join))]
    fn join(&mut self, volume: ImageVolume) -> Result<bool, AllocError>
        ensures { Takes (join (state_of self.old) (bare volume)) (state_of self.old) (state_of self.new) result }
    {
        if !can_join(&self.volumes, volume) {
            return Ok(false);
        }
        push_held(self.alloc, &mut self.volumes, volume)?;
        Ok(true)
    }

    /// Adds a block, where it can stand.
    #[tactic(auto, unfolding(dr_model::specs::PlantImage::fill))]
    fn fill(&mut self, said: &Placed) -> Result<bool, AllocError>
        requires { IsRead (all_shown self.old.volumes.items) }
        ensures { Takes (fill (state_of self.old) (placed said.now)) (state_of self.old) (state_of self.new) result }
    {
        let Some(place) = place_of(&self.volumes, said.volume) else {
            return Ok(false);
        };
        if !can_fill(self.place, place, &self.volumes[place], said) {
            return Ok(false);
        }
        push_kept(&mut self.volumes, place, said.index as u16, &said.bytes)?;
        self.place = place;
        self.stage = Stage::Filling;
        Ok(true)
    }

    #[tactic(auto, unfolding(dr_model::specs::PlantImage::by_words))]
    fn by_words(&mut self, line: &[u8]) -> Result<bool, AllocError>
        requires { IsRead (all_shown self.old.volumes.items) }
        ensures { Takes (by_words (state_of self.old) (words line.now)) (state_of self.old) (state_of self.new) result }
    {
        let (word, rest) = split_word(line);
        if word == b"volume".as_slice() {
            match (self.stage, volume_said(rest)) {
                (Stage::Listing, Some(volume)) => self.join(volume),
                _ => Ok(false),
            }
        } else if word == b"block".as_slice() {
            match block_said(rest) {
                Some(said) => self.fill(&said),
                None => Ok(false),
            }
        } else {
            Ok(false)
        }
    }

    fn by_line(&mut self, line: &[u8]) -> Result<bool, AllocError>
        requires { IsRead (all_shown self.old.volumes.items) }
        ensures { Takes (by_line (state_of self.old) line.now) (state_of self.old) (state_of self.new) result }
    {
        if line == b"end".as_slice() {
            Ok(self.set_stage(Stage::Ended))
        } else {
            self.by_words(line)
        }
    }

    /// Takes a line, where it can stand; else nothing changes.
    fn after_line(&mut self, line: &[u8]) -> Result<bool, AllocError>
        requires { IsRead (all_shown self.old.volumes.items) }
        ensures { Takes (after_line (state_of self.old) line.now) (state_of self.old) (state_of self.new) result }
    {
        match self.stage {
            Stage::Start => Ok(line == b"image 1".as_slice() && self.set_stage(Stage::Listing)),
            Stage::Listing | Stage::Filling => self.by_line(line),
            Stage::Ended | Stage::Bad => Ok(false),
        }
    }

    /// Takes a line; where it can't stand, the text is bad there.
    #[tactic(auto, unfolding(dr_model::specs::PlantImage::step))]
    pub fn step(&mut self, line: &[u8]) -> Result<(), AllocError>
        requires read { IsRead (all_shown self.old.volumes.items) }
        requires few { self.old.line < 2 ^ 31 }
        ensures ok { OnOk result (state_of self.new ≡ step (state_of self.old) line.now) }
        ensures err { OnErr result (state_of self.new ≡ state_of self.old) }
    {
        let next = self.line + 1;
        if self.after_line(line)? {
            self.line = next;
        } else {
            self.stage = Stage::Bad;
        }
        Ok(())
    }
}
