//! The uses of a plan: lines of one name are one use.

ghost use Rattle.std.specs.Prelude.{◌≡◌, map, OnOk};
ghost use Rattle.dr_plan.specs.Reading.{is_same_use, has_use, joined, with_pairs};

use crate::names::is_same_name;
use crate::plan::Use;
use dr_model::{Item, Name};
use std::alloc::AllocError;

/// Whether both lines of `use` say the same name, or none.
fn is_same_use(a: &Option<Name>, b: &Option<Name>) -> bool
    ensures { result ≡ is_same_use a.now b.now }
{
    match (a, b) {
        (None, None) => true,
        (Some(a), Some(b)) => is_same_name(a, b),
        _ => false,
    }
}

/// Whether some use has that name.
pub(crate) fn has_use(uses: &[Use], name: &Option<Name>) -> bool
    ensures { result ≡ has_use uses.now name.now }
{
    uses.iter().any(|u| is_same_use(&u.name, name))
}

/// Adds the pairs to a use, if it has that name.
fn join(u: &mut Use, name: &Option<Name>, pairs: &[Item]) -> Result<(), AllocError>
    ensures { OnOk result (u.new ≡ joined name.now pairs.now u.old) }
{
    if is_same_use(&u.name, name) {
        u.pairs.extend_from_slice(pairs)?;
    }
    Ok(())
}

/// Adds the pairs to each use of that name.
fn join_all(uses: &mut [Use], name: &Option<Name>, pairs: &[Item]) -> Result<(), AllocError>
    ensures { OnOk result (uses.new ≡ map (joined name.now pairs.now) uses.old) }
{
    for i in 0..uses.len() {
        join(&mut uses[i], name, pairs)?;
    }
    Ok(())
}

/// Adds the pairs to the use of that name, or as a use more.
pub(crate) fn add_pairs(
    uses: &mut Vec<Use>,
    name: Option<Name>,
    pairs: Vec<Item>,
) -> Result<(), AllocError>
    ensures { OnOk result (uses.new.items ≡ with_pairs uses.old.items name pairs.items) }
{
    if has_use(uses, &name) {
        join_all(uses, &name, &pairs)
    } else {
        uses.push(Use { name, pairs })?;
        Ok(())
    }
}
