//! The control record of a volume: its fields, and how they lie on the volume's device.
//!
//! `update` writes the staged track that gives way to its own block, then the record, byte for byte as the format says, into the
//! slot that isn't chosen, then the gate, until a write is stopped (`written`), and that is one move of the machine (`exact`): also where the
//! server's read fuse takes the read before it. So it is done wholly or not at all (`done`, `old_or_new`), and touches
//! no other volume (`others`) and no other server (`servers`). `open` reads a volume for the moves that follow
//! (`opened`), and `change` is the move on what was read, its device writes alone (`written`, `exact`); what it leaves
//! is open for the next (`opened`, `others_opened`); `open_by` and `open_gate` read the gate alone, where the fields are at hand (`Says`). `redo`
//! writes a staged track to its own place (`written`, `exact`) and changes nothing that is read (`same`); `destage` does that and
//! then stages none by a move (`written`, `exact`), and says whether one was staged (`answer`). `load`,
//! `peek_fields` and `from_blocks` give the fields of the layout (`shows`, `fields`), and they are lawful (`lawful`);
//! `peek_head` and `peek_head_at` give their head, which is all but the sets of tracks, and `peek_relation_at` what the head
//! says of a target; `slot` gives the chosen slot, `read_track` the track's bytes and `read_beside` those of a side block (`bytes`); if one
//! fails, what they were to go into is as before (`same`). `Entries` are the eight entries in 18 bytes: `free`, `get`, `are_free`,
//! `taken`, `entry_of` and `names` look at them; `take` and `free_track` change them.
#![tactic(auto)]

mod blocks;
mod change;
mod codes;
mod decode;
mod entries;
mod fields;
mod form;
mod head;
mod opened;
mod place;
mod saving;
mod volume;

pub use blocks::from_blocks;
pub use change::{destage, redo, update};
pub use dr_model::{PairState, Part};
pub use entries::Entries;
pub use fields::{Fields, is_held};
pub use head::{Head, Relation, head_by, is_target_at, peek_head, peek_head_at, peek_relation_at};
pub use opened::{Gate, Opened, open, open_by, open_gate, peek_opened};
pub use volume::{load, peek_fields, peek_holds, read_beside, read_track, slot};
