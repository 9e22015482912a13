//! What the events so far told: the names of servers, and the track that is shown.

ghost use Rattle.std.specs.Prelude.{◌≡◌, ◌≤◌, ℕ, length, take, None};
ghost use Rattle.std.specs.Option.{option_or, unwrap_or};
ghost use Rattle.dr_logic.specs.Bytes.{zeros};
ghost use Rattle.dr_model.specs.Text.{untold, heard, name_in, shown_in, told_name};
ghost use Rattle.dr_list.specs.Seen.{heard_seen, names_of};

use dr_model::{Event, Name};

/// What the events of a journal told so far, as far as lines print it: the first name of each server,
/// and the track that the step at hand has shown.
#[derive(Drop)]
pub struct Heard {
    names: [Option<Name>; 256],
    shown: [u8; 64],
}

#[tactic(auto, unfolding(dr_logic::specs::Bytes::zeros))]
fn zero_track() -> [u8; 64]
    ensures { result ≡ zeros }
{
    [0; 64]
}

fn front(bytes: &[u8], len: usize) -> &[u8]
    ensures front { result.now ≡ take len bytes.now }
    ensures within { length result.now ≤ length bytes.now }
{
    &bytes[..len.min(bytes.len())]
}

fn no_names() -> [Option<Name>; 256]
    ensures { (s : ℕ) → names_of result s ≡ None }
{
    [None; 256]
}

/// Keeps the name that an event gives a server, where it has none.
fn keep_name(names: &mut [Option<Name>; 256], event: &Event)
    ensures { (s : ℕ) → names_of names.new s ≡ option_or (names_of names.old s) (name_in event.now s) }
{
    if let Event::Server { server, len, name } = event {
        let place = usize::from(*server);
        names[place] = names[place].or(Some(Name {
            len: *len,
            bytes: *name,
        }));
    }
}

/// Keeps the track that an event shows; an answer ends what is shown.
fn keep_shown(shown: &mut [u8; 64], event: &Event)
    ensures { shown.new ≡ unwrap_or (shown_in event.now) shown.old }
{
    match event {
        Event::Shown { bytes, .. } => *shown = *bytes,
        Event::Answer { .. } => *shown = zero_track(),
        _ => {}
    }
}

impl Heard {
    /// What no event tells: no server has a name, and a track of zeros is shown.
    #[tactic(auto, unfolding(crate::specs::Seen::heard_seen))]
    pub fn new() -> Heard
        ensures { heard_seen result ≡ untold }
    {
        Heard {
            names: no_names(),
            shown: zero_track(),
        }
    }

    /// Hears one event more. A name that was told stays, and an answer ends what is shown.
    #[tactic(auto, unfolding(crate::specs::Seen::heard_seen))]
    pub fn hear(&mut self, event: &Event)
        ensures { heard_seen self.new ≡ heard (heard_seen self.old) event.now }
    {
        keep_name(&mut self.names, event);
        keep_shown(&mut self.shown, event);
    }

    /// The name of a server; empty where none of that number was defined. Of two names, the first.
    pub fn name(&self, server: u32) -> &[u8]
        ensures { result.now ≡ told_name (heard_seen self.now) server }
    {
        self.name_bytes(server)
    }

    /// The same, with how long it is at most.
    #[tactic(auto, unfolding(crate::specs::Seen::heard_seen))]
    pub(crate) fn name_bytes(&self, server: u32) -> &[u8]
        ensures name { result.now ≡ told_name (heard_seen self.now) server }
        ensures short { length result.now ≤ 24 }
    {
        match self.names.get(server as usize) {
            Some(Some(name)) => front(&name.bytes, usize::from(name.len)),
            _ => &[],
        }
    }

    /// The track that the step at hand has shown; zeros where it has shown none.
    #[tactic(auto, unfolding(crate::specs::Seen::heard_seen))]
    pub(crate) fn shown(&self) -> &[u8]
        ensures track { result.now ≡ (heard_seen self.now).shown }
        ensures len { length result.now ≡ 64 }
    {
        &self.shown
    }
}
