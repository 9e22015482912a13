ghost use Rattle.std.specs.Prelude.{◌≡◌, ◌/◌};

use crate::sizes::VOLUMES_OF_LSS;

/// A storage server, by its place in the order of definition (0 to 7).
#[derive(Clone, Copy, PartialEq, Eq)]
pub struct ServerId(pub u8);

/// A volume: the logical subsystem in the high byte, the number within it in the low byte.
#[derive(Clone, Copy, PartialEq, Eq)]
pub struct VolumeId(pub u16);

impl VolumeId {
    /// The logical subsystem in which the volume lies.
    pub fn lss(self) -> Lss
        ensures { result.0 ≡ self.0 / 256 }
    {
        Lss((self.0 / VOLUMES_OF_LSS) as u8)
    }
}

/// A logical subsystem: the volumes whose identifiers share the high byte.
#[derive(Clone, Copy, PartialEq, Eq)]
pub struct Lss(pub u8);

/// A Global Mirror session, 1 to 255.
#[derive(Clone, Copy, PartialEq, Eq)]
pub struct SessionId(pub u8);

/// The number of an attempt to form a consistency group.
#[derive(Clone, Copy, PartialEq, Eq)]
pub struct Attempt(pub u32);

/// A host write, counted from 1 in the order of issue.
#[derive(Clone, Copy, PartialEq, Eq)]
pub struct WriteId(pub u32);

/// A member of a session: primary `a`, secondary `b`, FlashCopy target `c`, and the server of `a`.
#[derive(Clone, Copy)]
pub struct Member {
    pub a: VolumeId,
    pub b: VolumeId,
    pub c: VolumeId,
    pub server: ServerId,
}
