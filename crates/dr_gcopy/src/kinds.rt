//! The kinds of pairs.

ghost use Rattle.std.specs.Prelude.{◌≡◌, true};
ghost use Rattle.dr_model.specs.Layout.{is_part};
ghost use Rattle.dr_gcopy.specs.Kinds.{part_of};

use dr_model::Part;

/// A pair of Metro Mirror or one of Global Copy.
#[derive(Clone, Copy)]
pub enum CopyKind {
    Metro,
    Global,
}

/// The part of a volume in a pair of that kind.
pub fn part_of(kind: CopyKind) -> Part
    ensures part { result ≡ part_of kind }
    ensures present { is_part result ≡ true }
{
    match kind {
        CopyKind::Metro => Part::Metro,
        CopyKind::Global => Part::Global,
    }
}
