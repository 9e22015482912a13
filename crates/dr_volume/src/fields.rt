//! The fields of a volume's control record.

ghost use Rattle.std.specs.Prelude.{◌≡◌};
ghost use Rattle.dr_model.specs.Pairs.{held};
ghost use Rattle.dr_volume.specs.Plain.{plain};

use crate::entries::Entries;
use dr_bits::TrackSet;
use dr_ids::VolumeId;
use dr_model::{PairState, Part};
use dr_plant::Block;

/// What a volume's control record says: its part in a pair as a primary and as a secondary, its
/// FlashCopy relationship as a target, its flash hold, its entries, and the track that the last update staged.
#[derive(Clone, Copy)]
pub struct Fields {
    /// The volume's part as a primary; where it is absent, so are the fields up to
    /// `change_recording`, but the attempt.
    pub primary: Part,
    pub primary_state: PairState,
    pub primary_partner: VolumeId,
    pub coordination: bool,
    pub long_busy: bool,
    pub recording: bool,
    /// The last attempt to form a consistency group that this volume took part in.
    pub attempt: u32,
    pub out_of_sync: TrackSet,
    pub change_recording: TrackSet,
    /// The volume's part as a secondary; where it is absent, so are the fields up to `seal`.
    pub secondary: Part,
    pub secondary_state: PairState,
    pub secondary_partner: VolumeId,
    pub seal: u32,
    /// Whether the volume is a FlashCopy target; where it isn't, the fields up to `session` are
    /// absent.
    pub related: bool,
    pub source: VolumeId,
    pub nocopy: bool,
    pub persistent: bool,
    pub recorded: bool,
    pub inhibited: bool,
    pub own: TrackSet,
    pub previous_own: TrackSet,
    pub source_changes: TrackSet,
    pub target_changes: TrackSet,
    pub sequence: u32,
    pub previous_sequence: u32,
    pub revertible: bool,
    pub reversing: bool,
    pub member: bool,
    pub session: u8,
    /// Attempts up to this number are no longer recovered.
    pub floor: u32,
    /// Whether host writes wait until the hold of a flash set ends; it belongs to no part.
    pub flash_hold: bool,
    /// The tracks that read as zeros.
    pub blank: TrackSet,
    /// The tracks whose earlier bytes stand in the side blocks, each in that of its entry.
    pub entries: Entries,
    /// The track whose bytes stand in the record and not in its own place.
    pub staged: Option<u16>,
    /// The bytes of the staged track, zeros where none is staged.
    pub staged_bytes: Block,
}

/// Whether host writes on the volume wait: coordination holds it, it is long busy, or it has a flash
/// hold.
pub fn is_held(f: &Fields) -> bool
    ensures { result ≡ held (plain f.now) }
{
    f.coordination || f.long_busy || f.flash_hold
}
