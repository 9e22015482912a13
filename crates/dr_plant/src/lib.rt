//! Devices of 64-byte blocks, and servers that may stop in the middle of a write.
//!
//! Each call of the trait `Plant` is an exact function of the plant's state, and `ModelPlant` meets it. `write`:
//! `state`, `done`; `read`: `state`, `done`, `bytes`, and `same` of what a failed one was to fill; `add_device`:
//! `added`, `same`, `full`. `ModelPlant::new` is a plant with nothing on it (`fresh`).
#![tactic(auto)]

mod device;
mod devices;
mod fuse;
mod model;
mod plant;

pub use model::ModelPlant;
pub use plant::{AddFault, Block, DeviceId, Plant, Stopped, Torn, WriteFuse};
