//! The configuration: servers and volumes in order of definition, the links between the servers, and the
//! paths between logical subsystems.
//!
//! `add_server` and `add_volume` refuse exactly where the rules say (`refused`), add exactly one entry (`added`,
//! `device`), and change nothing else (`same`, `same_plant`). `add_path` and `remove_path` do the same for paths, which
//! stand in order of definition (`refused`, `added`, `same`; `removed`, `found`), and there is always memory for one
//! that is defined already (`room`); `path` reads one, and `reach` says why one volume can't be reached from another,
//! or that it can (`refused`). `set_link` sets the link of two servers in both directions and no other, or refuses
//! (`refused`); `link_up` reads it. The table goes on standing for the plant's devices (`stands`). Each look-up is a
//! look-up in the list of definitions: `server_named`, `name`, `device_of`, `server_of`, `tracks_of`, `volume_at`,
//! `lss_owner`.
#![tactic(auto)]

mod config;
mod entries;
mod links;
mod paths;
mod volumes;

pub use config::Config;
pub use entries::VolumeEntry;
