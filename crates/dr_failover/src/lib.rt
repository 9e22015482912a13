//! Pairs that are turned round: the way to the other site, and back.
//!
//! `failover` takes a secondary over by hand. It ends as the machine's entries of its command say, each refusal included
//! (`carried`), and a refusal that is no stop changes nothing (`unchanged`). Where it ends well the volume is a
//! Suspended primary of its primary, with nothing out of sync and no seal (`taken`); however it ends, no other volume's
//! record changes (`others`) and, in a sound world, no track of any volume (`tracks`). `failback` lets one of two primaries
//! of each other go on as the primary, and makes the other its secondary (`carried`, `unchanged`, `others`, `tracks`).
//! Where it ends well both records say so, and the new primary doesn't record (`turned`), and, in a sound world, each
//! track in which the two differ is out of sync at it (`differing`). `resync_step` is one round of a drain (`carried`):
//! it says whether a track was out of sync (`more`), and then the lowest one is sent and no other, and both are Full
//! Duplex where it was the last of a Metro Mirror pair (`sent`); of a primary that is Full Duplex it sends nothing
//! (`duplex`). `compare_volumes` compares two volumes track by track, eight at a time (`carried`): it ends well only
//! where all tracks contain the same (`equal`), names the first that doesn't (`differ`), and changes nothing (`unchanged`,
//! `same`).
#![tactic(auto)]

mod checks;
mod comparing;
mod looks;
mod resync;
mod returning;
mod taking;
mod turning;

pub use checks::failover_refusal;
pub use comparing::compare_volumes;
pub use resync::resync_step;
pub use returning::failback;
pub use taking::failover;
