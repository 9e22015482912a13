//! The head of a record: its first block, which says everything of a volume but its sets of tracks and what is staged; and
//! what of it a look at all volumes wants.

ghost use Rattle.std.specs.Prelude.{◌≡◌, ◌<◌, length, IsSome, Some};
ghost use Rattle.dr_ids.specs.Sizes.{record_blocks};
ghost use Rattle.dr_config.specs.Table.{StandsFor, place_of};
ghost use Rattle.dr_model.specs.Layout as layout;
ghost use Rattle.dr_plant.specs.Writes.{IsDevice};
ghost use Rattle.dr_volume.specs.Head.{copies_by, head_of, head_said, relation_in};
ghost use Rattle.dr_volume.specs.Plain.{plain};
ghost use Rattle.dr_volume.specs.View.{volume_at, volume_seen};

use crate::blocks::slot_begin;
use crate::codes::{bit, flag_if, only_if, part_of, state_of};
use crate::fields::Fields;
use crate::place::{device_at, device_of};
use dr_config::Config;
use dr_ids::{VolumeId, be16, be32};
use dr_model::{PairState, Part};
use dr_plant::{Block, DeviceId, Plant};

/// What the first block of a volume's record says: its fields but the sets of tracks. What belongs to an absent part or
/// relationship is zero or false, as in `Fields`.
#[derive(Clone, Copy)]
pub struct Head {
    pub primary: Part,
    pub primary_state: PairState,
    pub primary_partner: VolumeId,
    pub coordination: bool,
    pub long_busy: bool,
    pub recording: bool,
    pub attempt: u32,
    pub secondary: Part,
    pub secondary_state: PairState,
    pub secondary_partner: VolumeId,
    pub seal: u32,
    pub related: bool,
    pub source: VolumeId,
    pub nocopy: bool,
    pub persistent: bool,
    pub recorded: bool,
    pub inhibited: bool,
    pub sequence: u32,
    pub previous_sequence: u32,
    pub revertible: bool,
    pub reversing: bool,
    pub member: bool,
    pub session: u8,
    pub floor: u32,
    pub flash_hold: bool,
}

/// What a head says of its volume as a FlashCopy target: where it is none, zero and false.
#[derive(Clone, Copy)]
pub struct Relation {
    pub related: bool,
    pub source: VolumeId,
    pub recorded: bool,
    pub revertible: bool,
    pub reversing: bool,
}

/// The head of a volume, whether or not its server is on. Two blocks are looked at, and no set of tracks.
pub fn peek_head<P: Plant>(plant: &P, config: &Config, v: VolumeId) -> Head
    requires defined { IsSome (place_of config.now v.0) }
    requires stands { StandsFor config.now (P.state plant.now) }
    ensures { result ≡ head_of (volume_seen (P.state plant.now) config.now v.0).fields }
{
    head_on(plant, device_of(config, v))
}

/// The head of the volume that was defined after so many others, whether or not its server is on. No volume is looked up.
pub fn peek_head_at<P: Plant>(plant: &P, config: &Config, place: usize) -> Head
    requires there { place < length config.now.volumes }
    requires stands { StandsFor config.now (P.state plant.now) }
    ensures { result ≡ head_of (volume_at (P.state plant.now) config.now (Some place)).fields }
{
    head_on(plant, device_at(config, place))
}

/// What the head of the volume that was defined after so many others says of it as a target, whether or not its server is on.
/// Of the head three bytes are looked at, and none but one where the volume is no target.
pub fn peek_relation_at<P: Plant>(plant: &P, config: &Config, place: usize) -> Relation
    requires there { place < length config.now.volumes }
    requires stands { StandsFor config.now (P.state plant.now) }
    ensures { result ≡ relation_in (head_of (volume_at (P.state plant.now) config.now (Some place)).fields) }
{
    relation_on(plant, device_at(config, place))
}

/// Whether the volume that was defined after so many others is a FlashCopy target of v, whether or not its server is on. Of the head
/// three bytes are looked at, and one if it is no target.
#[inline]
pub fn is_target_at<P: Plant>(plant: &P, config: &Config, place: usize, v: VolumeId) -> bool
    requires there { place < length config.now.volumes }
    requires stands { StandsFor config.now (P.state plant.now) }
    ensures { result ≡ copies_by v.0 (relation_in (head_of (volume_at (P.state plant.now) config.now (Some place)).fields)) }
{
    let device = device_at(config, place);
    is_target_on(plant, device, v)
}

/// The head of fields that are at hand.
pub fn head_by(f: &Fields) -> Head
    ensures { result ≡ head_of (plain f.now) }
{
    Head {
        primary: f.primary,
        primary_state: f.primary_state,
        primary_partner: f.primary_partner,
        coordination: f.coordination,
        long_busy: f.long_busy,
        recording: f.recording,
        attempt: f.attempt,
        secondary: f.secondary,
        secondary_state: f.secondary_state,
        secondary_partner: f.secondary_partner,
        seal: f.seal,
        related: f.related,
        source: f.source,
        nocopy: f.nocopy,
        persistent: f.persistent,
        recorded: f.recorded,
        inhibited: f.inhibited,
        sequence: f.sequence,
        previous_sequence: f.previous_sequence,
        revertible: f.revertible,
        reversing: f.reversing,
        member: f.member,
        session: f.session,
        floor: f.floor,
        flash_hold: f.flash_hold,
    }
}

// Whether the head of the record that a device chooses names v as the source of its volume.
#[inline]
fn is_target_on<P: Plant>(plant: &P, device: DeviceId, v: VolumeId) -> bool
    requires { IsDevice (P.state plant.now) device.0 record_blocks }
    ensures { result ≡ copies_by v.0 (relation_in (head_said (layout.chosen ((P.state plant.now).block device.0) 0))) }
{
    names_source(&first_block(plant, device), v)
}

// Whether a first block names v as the source of its volume.
#[inline]
#[tactic(auto, unfolding(dr_model::specs::Layout::fields_of))]
fn names_source(block: &Block, v: VolumeId) -> bool
    ensures { result ≡ copies_by v.0 (relation_in (head_said block.now)) }
{
    bit(block[5], 0) && be16(block, 12) == v.0
}

// What the head of the record that a device chooses says of its volume as a target.
fn relation_on<P: Plant>(plant: &P, device: DeviceId) -> Relation
    requires { IsDevice (P.state plant.now) device.0 record_blocks }
    ensures { result ≡ relation_in (head_said (layout.chosen ((P.state plant.now).block device.0) 0)) }
{
    relation_of(&first_block(plant, device))
}

// What a first block says of its volume as a target.
#[tactic(auto, unfolding(dr_model::specs::Layout::fields_of))]
fn relation_of(block: &Block) -> Relation
    ensures { result ≡ relation_in (head_said block.now) }
{
    let related = bit(block[5], 0);
    Relation {
        related,
        source: VolumeId(only_if(related, be16(block, 12), 0)),
        recorded: flag_if(related, block[5], 3),
        revertible: flag_if(related, block[5], 5),
        reversing: flag_if(related, block[5], 6),
    }
}

// The head of the record that a device chooses.
fn head_on<P: Plant>(plant: &P, device: DeviceId) -> Head
    requires { IsDevice (P.state plant.now) device.0 record_blocks }
    ensures { result ≡ head_said (layout.chosen ((P.state plant.now).block device.0) 0) }
{
    head_in(&first_block(plant, device))
}

// The first block of the record that a device chooses.
#[inline]
fn first_block<P: Plant>(plant: &P, device: DeviceId) -> Block
    requires { IsDevice (P.state plant.now) device.0 record_blocks }
    ensures { result ≡ layout.chosen ((P.state plant.now).block device.0) 0 }
{
    let begin = slot_begin(&plant.peek(device, 0));
    plant.peek(device, begin)
}

/// What a first block says.
#[tactic(auto, unfolding(dr_model::specs::Layout::fields_of))]
pub(crate) fn head_in(block: &Block) -> Head
    ensures { result ≡ head_said block.now }
{
    let primary = part_of(block[0]);
    let first = primary.is_part();
    let secondary = part_of(block[3]);
    let second = secondary.is_part();
    let related = bit(block[5], 0);
    Head {
        primary,
        primary_state: only_if(first, state_of(block[1]), PairState::CopyPending),
        primary_partner: VolumeId(only_if(first, be16(block, 8), 0)),
        coordination: flag_if(first, block[2], 0),
        long_busy: flag_if(first, block[2], 1),
        recording: flag_if(first, block[2], 2),
        attempt: be32(block, 16),
        secondary,
        secondary_state: only_if(second, state_of(block[4]), PairState::CopyPending),
        secondary_partner: VolumeId(only_if(second, be16(block, 10), 0)),
        seal: only_if(second, be32(block, 20), 0),
        related,
        source: VolumeId(only_if(related, be16(block, 12), 0)),
        nocopy: flag_if(related, block[5], 1),
        persistent: flag_if(related, block[5], 2),
        recorded: flag_if(related, block[5], 3),
        inhibited: flag_if(related, block[5], 4),
        sequence: only_if(related, be32(block, 24), 0),
        previous_sequence: only_if(related, be32(block, 28), 0),
        revertible: flag_if(related, block[5], 5),
        reversing: flag_if(related, block[5], 6),
        member: flag_if(related, block[5], 7),
        session: only_if(related, block[6], 0),
        floor: be32(block, 32),
        flash_hold: bit(block[2], 3),
    }
}
