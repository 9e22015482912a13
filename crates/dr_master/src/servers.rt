ghost use Rattle.std.specs.Prelude.{◌≡◌, ◌<◌, ◌↔◌, ◌||◌, ◌==◌, IsTrue, IfSome, [], option_map, slice_get};
ghost use Rattle.dr_model.specs.Phases.{servers_where, is_among, without};
ghost use Rattle.dr_master.specs.Seen.{servers_in};

use dr_ids::ServerId;

/// A set of servers: bit k, counted from the lowest, is server k.
#[derive(Clone, Copy)]
pub struct ServerSet(pub u8);

impl ServerSet {
    /// The set without a server.
    pub const EMPTY: ServerSet = ServerSet(0);

    /// Whether the server is a member.
    pub fn contains(self, s: ServerId) -> bool
        requires { s.0 < 8 }
        ensures { result ≡ is_among s.0 (servers_in self.0) }
    {
        (self.0 >> s.0) & 1 == 1
    }

    /// The set with that server, which may be a member already.
    pub fn with(self, s: ServerId) -> ServerSet
        requires { s.0 < 8 }
        ensures { servers_in result.0 ≡ servers_where (λ k. k == s.0 || is_among k (servers_in self.0)) }
    {
        ServerSet(self.0 | (1 << s.0))
    }

    /// The set without that server.
    pub fn without(self, s: ServerId) -> ServerSet
        requires { s.0 < 8 }
        ensures { servers_in result.0 ≡ without s.0 (servers_in self.0) }
    {
        ServerSet(self.0 & !(1 << s.0))
    }

    /// The member that comes first in order of definition.
    pub fn first(self) -> Option<ServerId>
        ensures first { option_map (λ s. s.0) result ≡ slice_get (servers_in self.0) 0 }
        ensures low { IfSome result (λ s. s.0 < 8) }
    {
        if self.is_empty() {
            None
        } else {
            Some(ServerId(self.0.trailing_zeros() as u8))
        }
    }

    /// Whether no server is a member.
    pub fn is_empty(self) -> bool
        ensures { IsTrue result ↔ (servers_in self.0 ≡ []) }
    {
        self.0 == 0
    }
}
