//! What a run keeps beside its plant, its configuration and its journal.

ghost use Rattle.std.specs.Prelude.{◌≡◌, true, []};
ghost use Rattle.dr_model.specs.Messages.{no_flight};
ghost use Rattle.dr_ctl.specs.Kept.{flight_in};

use dr_ctl::Flight;
use dr_host::Host;
use dr_session::Sessions;
use std::alloc::Global;

/// The tables of a run: the host's writes, the sessions, and the messages in flight.
#[derive(Drop)]
pub struct Tables {
    pub host: Host,
    pub sessions: Sessions,
    pub flight: Flight,
}

impl Tables {
    /// No writes, no sessions and no messages.
    pub fn new(alloc: Global) -> Tables
        ensures host { result.host ≡ record { issued = 0; pending = [] } }
        ensures sessions { result.sessions ≡ record { sessions = []; room = true } }
        ensures flight { flight_in result.flight ≡ no_flight }
    {
        Tables {
            host: Host::new(alloc),
            sessions: Sessions::new(alloc),
            flight: Flight::new(alloc),
        }
    }
}
