//! The entries of a configuration, and the set of names.

ghost use Rattle.std.specs.Prelude.{◌≡◌, ◌++◌, ◌∷◌, [], None, OnOk, OnErr};
ghost use Rattle.std.specs.List.{position};
ghost use Rattle.std.specs.Str.{bytes_eq};

use indexmap::IndexSet;
use std::alloc::AllocError;

/// A volume that is defined: its identifier, its server and its number of tracks.
#[derive(Clone, Copy)]
pub struct VolumeEntry {
    pub id: u16,
    pub server: u8,
    pub tracks: u16,
}

/// The servers' names, in order of definition.
pub(crate) type Names = IndexSet<Vec<u8>>;

// The place of that name.
pub(crate) fn place_of_name(names: &Names, name: &[u8]) -> Option<usize>
    ensures { result ≡ position (λ n. bytes_eq name.now n.items) names.now.keys }
{
    names.get_index_of(name)
}

// Adds a name that no server has, the last in order. Where there is no memory, nothing has changed.
pub(crate) fn add_name(names: &mut Names, name: Vec<u8>) -> Result<(), AllocError>
    requires { position (λ n. bytes_eq name.items n.items) names.old.keys ≡ None }
    ensures added { OnOk result (names.new.keys ≡ names.old.keys ++ name ∷ []) }
    ensures same { OnErr result (names.new.keys ≡ names.old.keys) }
{
    names.insert(name)?;
    Ok(())
}
