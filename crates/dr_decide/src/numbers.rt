ghost use Rattle.std.specs.Prelude.{◌≡◌};
ghost use Rattle.dr_decide.specs.Seen.{numbers_seen, with_number};

/// The numbers of some members: none, all one, or the first and the first that differs from it.
#[derive(Clone, Copy)]
pub(crate) enum Numbers {
    NoNumber,
    Same(u32),
    Differ(u32, u32),
}

impl Numbers {
    /// These numbers and one more.
    pub(crate) fn with(self, n: u32) -> Numbers
        ensures { numbers_seen result ≡ with_number (numbers_seen self) n }
    {
        match self {
            Numbers::NoNumber => Numbers::Same(n),
            Numbers::Same(a) if a != n => Numbers::Differ(a, n),
            known => known,
        }
    }
}
