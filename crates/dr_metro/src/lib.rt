//! Host writes: how they land on a volume alone, and how they go to the secondary of a Metro Mirror pair first.
//!
//! Host writes on a plant. `sync_write` carries out a pending write on any volume, each refusal included, and says
//! whether it landed or waits (`carried`, `end`); what follows where the secondary's server stops is in it.
//! **Acknowledged on both sides**: where it landed on a Metro Mirror primary, the secondary's track is the same, or the
//! primary has the track out of sync, or is Suspended (`mirrors`). `write_both` is the write on both sides (`carried`,
//! `equal`), `unsync`, `mirror` and `land_both` its three moves, and `land_kept` a host write on its volume alone, behind copy first
//! (`carried`). A cascaded secondary is no business of `sync_write`: for those that write over one, the parts of it that are the same there
//! are public (`check_write`, `can_send`, `write_parted`, `write_unsent`, `unsync_by`, `read_and_store`, `followed`). `sync_write` reads its volume's fields
//! once, and those of a secondary that it goes to once; what it calls goes by them (`sync_write_by`). Each call keeps the fields of all volumes lawful and fitting (`rest`,
//! `fit`), also where reads may fail.
#![tactic(auto)]

mod alone;
mod both;
mod colliding;
mod landing;
mod machine;
mod mirroring;
mod moves;
mod parting;
mod states;
mod sync;

pub use both::land_both;
pub use machine::{Target, land_kept};
pub use mirroring::{read_and_store, write_both};
pub use moves::{mirror, unsync, unsync_by};
pub use parting::{followed, is_grouped, landed, part_running};
pub use states::goes_over;
pub use sync::{
    WriteEnd, can_send, check_write, sync_write, sync_write_by, write_parted, write_unsent,
};
