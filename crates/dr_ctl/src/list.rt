//! Look-ups and changes in the list of messages, in which numbers rise.

ghost use Rattle.std.specs.Prelude.{◌≡◌, ◌<◌, ◌==◌, AllPairs, filter, not, map, option_map, remove, vec_len};
ghost use Rattle.std.specs.List.{find, position};
ghost use Rattle.dr_ctl.specs.Seen.{message_of, seen};

use crate::message::{Message, Numbered};
use dr_ids::SessionId;

// The place of the message of that number.
pub(crate) fn place_of(messages: &[Numbered], n: u32) -> Option<usize>
    requires { AllPairs (λ m q. m.number < q.number) (map seen messages.now) }
    ensures { result ≡ position (λ m. m.number == n) (map seen messages.now) }
{
    messages.binary_search_by_key(&n, |x| x.number).ok()
}

// The message of that number.
pub(crate) fn message_numbered(messages: &[Numbered], n: u32) -> Option<Message>
    requires { AllPairs (λ m q. m.number < q.number) (map seen messages.now) }
    ensures { option_map (message_of n) result ≡ find (λ m. m.number == n) (map seen messages.now) }
{
    let i = place_of(messages, n)?;
    Some(messages[i].message)
}

// Takes the message at a place out.
pub(crate) fn take_out(messages: &mut Vec<Numbered>, i: usize)
    requires { i < vec_len messages.old }
    ensures { messages.new.items ≡ remove messages.old.items i }
{
    messages.remove(i);
}

// Takes the messages of a session out.
pub(crate) fn take_session_out(messages: &mut Vec<Numbered>, s: SessionId)
    ensures { messages.new.items ≡ filter (λ x. not ((seen x).session == s.0)) messages.old.items }
{
    messages.retain(|x| x.session().0 != s.0);
}
