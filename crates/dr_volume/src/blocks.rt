//! Reading a volume from the blocks of its device.

ghost use Rattle.std.specs.Prelude.{◌≡◌, ◌≤◌, ◌+◌, ◌<◌, length, is_some};
ghost use Rattle.dr_logic.specs.Bytes.{zeros};
ghost use Rattle.dr_ids.specs.Sizes.{blocks_of, most_tracks};
ghost use Rattle.dr_model.specs.Layout as layout;
ghost use Rattle.dr_model.specs.Lawful.{IsLawful};
ghost use Rattle.dr_volume.specs.Plain.{plain};
ghost use Rattle.dr_volume.specs.Record.{listed};

use crate::codes::bit;
use crate::decode::fields_in;
use crate::fields::Fields;
use dr_plant::Block;

/// The fields of a volume with so many tracks, from all blocks of its device.
pub fn from_blocks(tracks: u16, blocks: &[Block]) -> Fields
    requires few { tracks ≤ most_tracks }
    requires sized { length blocks.now ≡ blocks_of tracks }
    ensures fields { plain result ≡ layout.fields tracks (listed blocks.now) }
    ensures staged { result.staged ≡ layout.staged tracks (listed blocks.now) }
    ensures staged_bytes { result.staged_bytes ≡ layout.only_if (is_some (layout.staged tracks (listed blocks.now))) (layout.chosen (listed blocks.now) 5) zeros }
    ensures lawful { IsLawful tracks (plain result) }
{
    let begin = slot_begin(&blocks[0]) as usize;
    fields_in(tracks, &blocks[begin..begin + 6])
}

/// The first block of the slot that a gate chooses.
pub fn slot_begin(gate: &Block) -> u16
    ensures { result ≡ layout.slot_begin (layout.bit (layout.byte gate.now 0) 0) }
{
    begin_of(bit(gate[0], 0))
}

/// The first block of a slot, which is slot 1 where it is true.
pub fn begin_of(slot: bool) -> u16
    ensures { result ≡ layout.slot_begin slot }
{
    if slot { 7 } else { 1 }
}
