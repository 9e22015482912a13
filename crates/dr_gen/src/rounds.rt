//! The rounds of a trial, drawn from its number.

ghost use Rattle.std.specs.Prelude.{◌≡◌, ◌<◌, nat_eq, if◌then◌else◌};
ghost use Rattle.dr_gen.specs.Trial.{next, after_draws, draw, round_at, draws_of};

/// What a round does. Volumes are counted from 0 in the order 1000, 1001, 1100, 1101, and servers in
/// the order A1, A2.
#[derive(Clone, Copy)]
pub enum Round {
    /// One byte is written to a track.
    Write {
        volume: u32,
        track: u32,
        offset: u32,
        byte: u8,
    },
    /// All that a volume's pair has to send is sent.
    Drain {
        volume: u32,
    },
    /// The master and a server exchange an order and its reply.
    Exchange {
        server: u32,
    },
    /// The attempt at hand is given up.
    Abort,
    /// A server stops and starts.
    Restart {
        server: u32,
    },
    /// The master forms one group.
    Run,
}

/// One draw of `m` numbers, 0 to `m - 1`.
#[tactic(auto, unfolding(crate::specs::Trial::next))]
fn draw(state: &mut u32, m: u32) -> u32
    requires { 0 < m }
    ensures state { state.new ≡ next state.old }
    ensures value { result ≡ draw state.old 1 m }
{
    *state = state.wrapping_mul(1664525).wrapping_add(1013904223);
    (*state / 65536) % m
}

/// Draws a round.
#[tactic(auto, unfolding(crate::specs::Trial::round_at))]
pub fn draw_round(state: &mut u32) -> Round
    ensures round { result ≡ round_at state.old }
    ensures state { state.new ≡ after_draws state.old (draws_of result) }
{
    match draw(state, 10) {
        0..=4 => Round::Write {
            volume: draw(state, 4),
            track: draw(state, 4),
            offset: draw(state, 64),
            byte: draw(state, 256) as u8,
        },
        5 => Round::Drain {
            volume: draw(state, 4),
        },
        6 | 7 => Round::Exchange {
            server: draw(state, 2),
        },
        8 => Round::Abort,
        _ => draw_restart(state),
    }
}

/// A server restarts in one of eight such rounds; the others form a group.
fn draw_restart(state: &mut u32) -> Round
    ensures round { result ≡ (if nat_eq (draw state.old 1 8) 0 then Round.Restart (draw state.old 2 2) else Round.Run) }
    ensures state { state.new ≡ after_draws state.old (if nat_eq (draw state.old 1 8) 0 then 2 else 1) }
{
    if draw(state, 8) == 0 {
        Round::Restart {
            server: draw(state, 2),
        }
    } else {
        Round::Run
    }
}
