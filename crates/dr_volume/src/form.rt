//! The six blocks of a record: how the fields are written to them, and read from them.

ghost use Rattle.std.specs.Prelude.{◌≡◌, ℕ, ◌<◌, ◌++◌, unwrap_or};
ghost use Rattle.dr_volume.specs.Codes as coded;
ghost use Rattle.dr_plant.specs.Writes.{listed};
ghost use Rattle.dr_volume.specs.Record as lies;

use crate::codes::{
    bit, code_of_part, code_of_state, first_set, four_bytes, part_of, second_set, state_of,
    two_bytes, two_sets, zero_block,
};
use crate::decode::staged_in;
use crate::entries::{Entries, entries_in, set_and_entries};
use crate::fields::Fields;
use dr_bits::{TrackSet, byte_at};
use dr_ids::{VolumeId, be16, be32};
use dr_model::{PairState, Part};
use dr_plant::Block;
use dr_record::Form;

impl Form for Fields {
    ghost use Rattle.dr_volume.specs.Record as lies;
    ghost use Rattle.dr_volume.specs.ReadsBack.{read_back};

    ghost BLOCKS = { 6 };

    const BLOCKS: u16 = 6;

    ghost fresh = { lies.no_record };

    ghost blocks = { lies.record_block };

    ghost taken = { lies.with_block };

    ghost whole = { lies.IsWhole };

    ghost reads_back = { read_back };

    /// The fields of a volume that has no pair, no relationship, no track that is blank or staged,
    /// and no used entry.
    #[tactic(auto, unfolding(crate::specs::Record::no_record))]
    fn blank() -> Self {
        Fields {
            primary: Part::Absent,
            primary_state: PairState::CopyPending,
            primary_partner: VolumeId(0),
            coordination: false,
            long_busy: false,
            recording: false,
            attempt: 0,
            out_of_sync: TrackSet::empty(),
            change_recording: TrackSet::empty(),
            secondary: Part::Absent,
            secondary_state: PairState::CopyPending,
            secondary_partner: VolumeId(0),
            seal: 0,
            related: false,
            source: VolumeId(0),
            nocopy: false,
            persistent: false,
            recorded: false,
            inhibited: false,
            own: TrackSet::empty(),
            previous_own: TrackSet::empty(),
            source_changes: TrackSet::empty(),
            target_changes: TrackSet::empty(),
            sequence: 0,
            previous_sequence: 0,
            revertible: false,
            reversing: false,
            member: false,
            session: 0,
            floor: 0,
            flash_hold: false,
            blank: TrackSet::empty(),
            entries: Entries::free(),
            staged: None,
            staged_bytes: zero_block(),
        }
    }

    fn block(&self, i: u16) -> Block {
        match i {
            0 => head(self),
            1 => two_sets(&self.out_of_sync, &self.change_recording),
            2 => two_sets(&self.own, &self.previous_own),
            3 => two_sets(&self.source_changes, &self.target_changes),
            4 => set_and_entries(&self.blank, &self.entries),
            _ => self.staged_bytes,
        }
    }

    fn take_block(&mut self, i: u16, from: &Block) {
        match i {
            0 => *self = with_head(self, from),
            1 => {
                self.out_of_sync = first_set(from);
                self.change_recording = second_set(from);
            }
            2 => {
                self.own = first_set(from);
                self.previous_own = second_set(from);
            }
            3 => {
                self.source_changes = first_set(from);
                self.target_changes = second_set(from);
            }
            4 => {
                self.blank = first_set(from);
                self.entries = entries_in(from);
            }
            _ => self.staged_bytes = *from,
        }
    }

    fn tell_whole(&self) {
        self.out_of_sync.tell_in_range();
        self.change_recording.tell_in_range();
        self.own.tell_in_range();
        self.previous_own.tell_in_range();
        self.source_changes.tell_in_range();
        self.target_changes.tell_in_range();
        self.blank.tell_in_range();
        self.entries.tell_eight();
    }
}

/// The six blocks of a record, in order.
pub(crate) fn blocks_of(f: &Fields) -> [Block; 6]
    ensures { (i : ℕ) → i < 6 → listed result i ≡ lies.record_block f.now i }
{
    [
        head(f),
        two_sets(&f.out_of_sync, &f.change_recording),
        two_sets(&f.own, &f.previous_own),
        two_sets(&f.source_changes, &f.target_changes),
        set_and_entries(&f.blank, &f.entries),
        f.staged_bytes,
    ]
}

fn codes(f: &Fields) -> [u8; 8]
    ensures { result ≡ lies.codes_of f.now }
{
    [
        code_of_part(f.primary),
        code_of_state(f.primary_state),
        byte_at(
            &[
                f.coordination,
                f.long_busy,
                f.recording,
                f.flash_hold,
                false,
                false,
                false,
                false,
            ],
            0,
        ),
        code_of_part(f.secondary),
        code_of_state(f.secondary_state),
        byte_at(
            &[
                f.related,
                f.nocopy,
                f.persistent,
                f.recorded,
                f.inhibited,
                f.revertible,
                f.reversing,
                f.member,
            ],
            0,
        ),
        f.session,
        u8::from(f.staged.is_some()),
    ]
}

/// The volumes that a record names, and the staged track, in two bytes each.
fn names(f: &Fields) -> [u8; 8]
    ensures { result ≡ coded.two_bytes f.now.primary_partner.0 ++ coded.two_bytes f.now.secondary_partner.0 ++ coded.two_bytes f.now.source.0 ++ coded.two_bytes (unwrap_or f.now.staged 0) }
{
    let mut names = [0; 8];
    names[..2].copy_from_slice(&two_bytes(f.primary_partner.0));
    names[2..4].copy_from_slice(&two_bytes(f.secondary_partner.0));
    names[4..6].copy_from_slice(&two_bytes(f.source.0));
    names[6..].copy_from_slice(&two_bytes(f.staged.unwrap_or(0)));
    names
}

/// The numbers of a record, in four bytes each.
fn numbers(f: &Fields) -> [u8; 20]
    ensures { result ≡ coded.four_bytes f.now.attempt ++ coded.four_bytes f.now.seal ++ coded.four_bytes f.now.sequence ++ coded.four_bytes f.now.previous_sequence ++ coded.four_bytes f.now.floor }
{
    let mut numbers = [0; 20];
    numbers[..4].copy_from_slice(&four_bytes(f.attempt));
    numbers[4..8].copy_from_slice(&four_bytes(f.seal));
    numbers[8..12].copy_from_slice(&four_bytes(f.sequence));
    numbers[12..16].copy_from_slice(&four_bytes(f.previous_sequence));
    numbers[16..].copy_from_slice(&four_bytes(f.floor));
    numbers
}

#[tactic(auto, unfolding(crate::specs::Record::head_of))]
fn head(f: &Fields) -> Block
    ensures { result ≡ lies.head_of f.now }
{
    let mut head = [0; 64];
    head[..8].copy_from_slice(&codes(f));
    head[8..16].copy_from_slice(&names(f));
    head[16..36].copy_from_slice(&numbers(f));
    head
}

#[tactic(auto, unfolding(crate::specs::Record::with_head))]
fn with_head(f: &Fields, head: &Block) -> Fields
    ensures { result ≡ lies.with_head f.now head.now }
{
    Fields {
        primary: part_of(head[0]),
        primary_state: state_of(head[1]),
        primary_partner: VolumeId(be16(head, 8)),
        coordination: bit(head[2], 0),
        long_busy: bit(head[2], 1),
        recording: bit(head[2], 2),
        attempt: be32(head, 16),
        secondary: part_of(head[3]),
        secondary_state: state_of(head[4]),
        secondary_partner: VolumeId(be16(head, 10)),
        seal: be32(head, 20),
        related: bit(head[5], 0),
        source: VolumeId(be16(head, 12)),
        nocopy: bit(head[5], 1),
        persistent: bit(head[5], 2),
        recorded: bit(head[5], 3),
        inhibited: bit(head[5], 4),
        sequence: be32(head, 24),
        previous_sequence: be32(head, 28),
        revertible: bit(head[5], 5),
        reversing: bit(head[5], 6),
        member: bit(head[5], 7),
        session: head[6],
        floor: be32(head, 32),
        flash_hold: bit(head[2], 3),
        staged: staged_in(head),
        ..*f
    }
}
