//! How a relationship is made.

/// What a new relationship is to be.
#[derive(Clone, Copy)]
pub struct FlashOptions {
    /// No track is copied in the background.
    pub nocopy: bool,
    /// The relationship stays where the target holds all tracks.
    pub persistent: bool,
    /// Changes are recorded on both sides; such a relationship is persistent.
    pub recorded: bool,
    /// No host may write on the target.
    pub inhibited: bool,
    pub sequence: u32,
}
