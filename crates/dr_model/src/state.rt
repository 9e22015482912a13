ghost use Rattle.std.specs.Prelude.{◌≡◌};
ghost use Rattle.dr_model.specs.Layout as layout;
ghost use Rattle.dr_model.specs.Pairs as pairs;
ghost use Rattle.dr_model.specs.declared.state.Part.TheVariants.{Global};

/// A volume's part in a pair, on one side: none, or that of a Metro Mirror or a Global Copy.
#[derive(Clone, Copy)]
pub enum Part {
    Absent,
    Metro,
    Global,
}

impl Part {
    /// Whether a volume has a part in a pair.
    pub fn is_part(self) -> bool
        ensures { result ≡ layout.is_part self }
    {
        match self {
            Part::Absent => false,
            Part::Metro | Part::Global => true,
        }
    }

    /// Whether it is that of a Metro Mirror pair.
    pub fn is_metro(self) -> bool
        ensures { result ≡ pairs.is_metro self }
    {
        match self {
            Part::Metro => true,
            Part::Absent | Part::Global => false,
        }
    }

    /// Whether it is that of a Global Copy pair.
    pub fn is_global(self) -> bool
        ensures { result ≡ pairs.is_kind Global self }
    {
        match self {
            Part::Global => true,
            Part::Absent | Part::Metro => false,
        }
    }

    /// Whether it is that of a pair of that kind.
    pub fn is_kind(self, kind: Part) -> bool
        ensures { result ≡ pairs.is_kind kind self }
    {
        match kind {
            Part::Metro => self.is_metro(),
            Part::Global => self.is_global(),
            Part::Absent => false,
        }
    }
}

/// The state of a volume's part in a pair.
#[derive(Clone, Copy)]
pub enum PairState {
    CopyPending,
    FullDuplex,
    Suspended,
}

impl PairState {
    /// Whether the pair is in Copy Pending.
    pub fn is_pending(self) -> bool
        ensures { result ≡ pairs.is_pending self }
    {
        match self {
            PairState::CopyPending => true,
            PairState::FullDuplex | PairState::Suspended => false,
        }
    }

    /// Whether the pair is Full Duplex.
    pub fn is_full_duplex(self) -> bool
        ensures { result ≡ pairs.is_full_duplex self }
    {
        match self {
            PairState::FullDuplex => true,
            PairState::CopyPending | PairState::Suspended => false,
        }
    }

    /// Whether the pair is Suspended.
    pub fn is_suspended(self) -> bool
        ensures { result ≡ pairs.is_suspended self }
    {
        match self {
            PairState::Suspended => true,
            PairState::CopyPending | PairState::FullDuplex => false,
        }
    }
}
