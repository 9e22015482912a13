ghost use Rattle.std.specs.Prelude.{◌≡◌, option_map};
ghost use Rattle.dr_model.specs.Phases.{work_in, numbered, answers};

use crate::reports::Reply;
use dr_ids::PhaseName;

/// What a master asks a server to do with its members.
#[derive(Clone, Copy, PartialEq, Eq)]
pub enum OrderKind {
    Hold,
    Release,
    Seal,
    Flash,
    Commit,
    Revert,
    Finish,
    Report,
}

impl OrderKind {
    ghost use Rattle.dr_master.specs.Seen.{work_of, order_of, reply_of};

    /// The order of this kind that each server is owed in a phase, if it is owed one.
    pub(crate) fn of_phase(phase: PhaseName) -> Option<OrderKind>
        ensures { option_map work_of result ≡ work_in phase }
    {
        match phase {
            PhaseName::Coordinating => Some(OrderKind::Hold),
            PhaseName::Releasing => Some(OrderKind::Release),
            PhaseName::Draining => Some(OrderKind::Seal),
            PhaseName::Flashing => Some(OrderKind::Flash),
            PhaseName::Committing => Some(OrderKind::Commit),
            PhaseName::Reverting => Some(OrderKind::Revert),
            PhaseName::Finishing => Some(OrderKind::Finish),
            PhaseName::Lost => Some(OrderKind::Report),
            PhaseName::Idle | PhaseName::None => None,
        }
    }

    /// Whether a reply is one to an order of this kind.
    pub(crate) fn is_answered_by(self, r: &Reply) -> bool
        ensures { result ≡ answers (reply_of r.now) (work_of self) }
    {
        match r {
            Reply::Done => !matches!(self, OrderKind::Report),
            Reply::NotYet => matches!(self, OrderKind::Seal),
            Reply::Report(_) => matches!(self, OrderKind::Report),
        }
    }

    /// The order of this kind in the attempt of that number.
    pub(crate) fn numbered(self, n: u32) -> Order
        ensures { order_of result ≡ numbered (work_of self) n }
    {
        match self {
            OrderKind::Report => Order { kind: self, n: 0 },
            _ => Order { kind: self, n },
        }
    }
}

/// An order of a master, with the number of its attempt; a report has the number 0.
#[derive(Clone, Copy, PartialEq, Eq)]
pub struct Order {
    pub kind: OrderKind,
    pub n: u32,
}
