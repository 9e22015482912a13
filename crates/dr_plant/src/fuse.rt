//! How fuses burn.

ghost use Rattle.std.specs.Prelude.{◌≡◌, ◌&&◌, is_none};
ghost use Rattle.dr_plant.specs.State as state;

use crate::plant::{Block, Torn, WriteFuse};

/// Whether a server with this write fuse does its next write.
pub fn passes_write(fuse: &Option<WriteFuse>) -> bool
    ensures { result ≡ state.passes_write fuse.now }
{
    match fuse {
        Some(WriteFuse { after: 0, .. }) => false,
        _ => true,
    }
}

/// Whether a server with this read fuse does its next read.
pub fn passes_read(fuse: Option<u32>) -> bool
    ensures { result ≡ state.passes_read fuse }
{
    match fuse {
        Some(0) => false,
        _ => true,
    }
}

/// Whether none of a server's fuses is armed.
pub fn unarmed(write: &Option<WriteFuse>, read: &Option<u32>) -> bool
    ensures { result ≡ (is_none write.now && is_none read.now) }
{
    write.is_none() && read.is_none()
}

/// Lowers a write fuse: a write was done.
pub fn lower_write(fuse: &mut Option<WriteFuse>)
    ensures { fuse.new ≡ state.lowered_write fuse.old }
{
    if let Some(f) = fuse {
        f.after = f.after.saturating_sub(1);
    }
}

/// A read fuse after a write that was done.
pub fn lowered_read(fuse: Option<u32>) -> Option<u32>
    ensures { result ≡ state.lowered_read fuse }
{
    match fuse {
        Some(after) => Some(after.saturating_sub(1)),
        None => None,
    }
}

/// A write fuse once its server starts: gone if it stood at 0.
pub fn started_write(fuse: Option<WriteFuse>) -> Option<WriteFuse>
    ensures { result ≡ state.started_write fuse }
{
    match fuse {
        Some(WriteFuse { after: 0, .. }) => None,
        _ => fuse,
    }
}

/// A read fuse once its server starts: gone if it stood at 0.
pub fn started_read(fuse: Option<u32>) -> Option<u32>
    ensures { result ≡ state.started_read fuse }
{
    match fuse {
        Some(0) => None,
        _ => fuse,
    }
}

/// What a block contains after this fuse cut short a write to it, where it contained `before`.
pub fn torn_block(fuse: Option<WriteFuse>, before: Block) -> Block
    ensures { result ≡ state.torn_block fuse before }
{
    match fuse {
        Some(
            WriteFuse {
                torn: Torn::Bytes(bytes),
                ..
            },
        ) => bytes,
        _ => before,
    }
}
