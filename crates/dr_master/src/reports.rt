ghost use Rattle.dr_model.specs.Decisions.{decision};
ghost use Rattle.std.specs.Prelude.{◌≡◌, ◌+◌, ◌≤◌, ◌++◌, [], length, nat_le};

use dr_decide::decide;
use dr_ids::Decision;

/// How many members the reports to a master speak of at most.
pub const MOST_REPORTED: usize = 64;

/// What the members of a server show: the first `count` numbers and flags, in order of members.
#[derive(Clone, Copy)]
pub struct Report {
    pub count: u8,
    pub seqs: [u32; 64],
    pub revertible: [bool; 64],
}

/// What a server says to an order.
#[derive(Clone, Copy)]
pub enum Reply {
    /// The order is done on each of the server's members.
    Done,
    /// A member isn't drained, so the seal has to wait.
    NotYet,
    /// What the server's members show.
    Report(Report),
}

impl Reply {
    ghost use Rattle.dr_master.specs.Seen.{count_in};

    /// How many members it speaks of.
    pub(crate) fn count(&self) -> usize
        ensures count { result ≡ count_in self.now }
        ensures small { result ≤ 255 }
    {
        match self {
            Reply::Report(report) => usize::from(report.count),
            Reply::Done | Reply::NotYet => 0,
        }
    }
}

impl Report {
    ghost use Rattle.dr_master.specs.Seen.{shown_in, count_in};

    /// A report of no member.
    pub(crate) fn empty() -> Report
        ensures shown { shown_in result ≡ [] }
        ensures count { result.count ≡ 0 }
    {
        Report {
            count: 0,
            seqs: [0; MOST_REPORTED],
            revertible: [false; MOST_REPORTED],
        }
    }

    /// Whether it and what a reply reports speak of at most 64 members together.
    pub(crate) fn has_room_for(&self, r: &Reply) -> bool
        requires { self.now.count ≤ 64 }
        ensures { result ≡ nat_le (length (shown_in self.now) + count_in r.now) 64 }
    {
        usize::from(self.count) + r.count() <= MOST_REPORTED
    }

    /// It speaks of at most 64 members. Does nothing but state it.
    pub(crate) fn tell_few(&self)
        requires { self.now.count ≤ 64 }
        ensures { length (shown_in self.now) ≤ 64 }
    {}

    /// Adds what another report says.
    pub(crate) fn append(&mut self, more: &Report)
        requires { self.old.count + more.now.count ≤ 64 }
        ensures shown { shown_in self.new ≡ shown_in self.old ++ shown_in more.now }
        ensures count { self.new.count ≡ self.old.count + more.now.count }
    {
        let from = usize::from(self.count);
        let added = usize::from(more.count);
        let to = from + added;
        self.seqs[from..to].copy_from_slice(&more.seqs[..added]);
        self.revertible[from..to].copy_from_slice(&more.revertible[..added]);
        self.count += more.count;
    }

    /// What recovery decides over the members that it speaks of, 64 at most.
    pub fn decision(&self) -> Decision
        requires { self.now.count ≤ 64 }
        ensures { result ≡ decision (shown_in self.now) }
    {
        let count = usize::from(self.count);
        decide(&self.seqs[..count], &self.revertible[..count])
    }
}
