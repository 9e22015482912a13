//! The paths between logical subsystems, and the map that holds them.

ghost use Rattle.std.specs.Prelude.{◌≡◌, None, OnOk, OnErr, is_some};
ghost use Rattle.dr_ids.specs.Paths.{path_in, with_path, without_path};
ghost use Rattle.dr_config.specs.Kept.{paths_of};

use dr_ids::Lss;
use indexmap::IndexMap;
use std::alloc::AllocError;

/// The logical subsystems from which and to which a path goes.
#[derive(Clone, Copy, PartialEq, Eq, Hash)]
pub struct Ends {
    pub src: u8,
    pub tgt: u8,
}

/// Whether each path has a consistency group, by its ends and in order of definition.
pub(crate) type Paths = IndexMap<Ends, bool>;

// The ends of the path from one logical subsystem to another.
fn ends_of(src: Lss, tgt: Lss) -> Ends
    ensures { result ≡ record { src = src.0; tgt = tgt.0 } }
{
    Ends {
        src: src.0,
        tgt: tgt.0,
    }
}

// Whether the path has a consistency group, if it is defined.
pub(crate) fn group_of(paths: &Paths, src: Lss, tgt: Lss) -> Option<bool>
    ensures { result ≡ path_in (paths_of paths.now.entries) src.0 tgt.0 }
{
    paths.get(&ends_of(src, tgt)).copied()
}

// Defines the path, the last in order; one that is defined keeps its place and gets the new flag. Where
// there is no memory, nothing has changed, and the path isn't defined.
pub(crate) fn put_path(paths: &mut Paths, src: Lss, tgt: Lss, group: bool) -> Result<(), AllocError>
    ensures put { OnOk result (paths_of paths.new.entries ≡ with_path (paths_of paths.old.entries) src.0 tgt.0 group) }
    ensures same { OnErr result (paths.new.entries ≡ paths.old.entries) }
    ensures absent { OnErr result (path_in (paths_of paths.old.entries) src.0 tgt.0 ≡ None) }
{
    paths.insert(ends_of(src, tgt), group)?;
    Ok(())
}

// Takes the path out, if it is defined, and says whether it was. The others keep their order.
pub(crate) fn take_path(paths: &mut Paths, src: Lss, tgt: Lss) -> bool
    ensures found { result ≡ is_some (path_in (paths_of paths.old.entries) src.0 tgt.0) }
    ensures taken { paths_of paths.new.entries ≡ without_path (paths_of paths.old.entries) src.0 tgt.0 }
{
    paths.shift_remove(&ends_of(src, tgt)).is_some()
}
