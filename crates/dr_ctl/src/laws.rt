//! Laws of a flight, whatever becomes of it. The functions do nothing: each names a law of the definitions by its contract.

ghost use Rattle.std.specs.Prelude.{◌≡◌, ◌≢◌, ◌≤◌, ◌<◌, ◌+◌, ℕ, true, false, Some, None, map, [], ◌∷◌};
ghost use Rattle.dr_model.specs.Phases.{Order, Reply, Done};
ghost use Rattle.dr_model.specs.Messages as model;
ghost use Rattle.dr_model.specs.Messages.{Message, Flight, message_in, is_current};
ghost use Rattle.dr_ctl.specs.Sound.{IsNumbered};
ghost use Rattle.dr_ctl.specs.Changes.{Change, after, next_order, next_reply, Spares, Passes, NoLower};
ghost use Rattle.dr_ctl.specs.Example.{second_order, replied};

/// The numbers of the messages in flight were given, and each to one message: so the next number is above them all.
pub fn each_number_is_given_once()
    ensures begins { IsNumbered model.no_flight }
    ensures kept { (c : Change) (f : Flight) → IsNumbered f → IsNumbered (after c f) }
{}

/// A message that was sent is found by its number, and stays until it is lost, or its session gone; then it is found no more. What
/// answers a message is of its session and epoch, and from its server.
pub fn a_message_stays_until_it_is_lost()
    ensures sent { (f : Flight) (s server : ℕ) (o : Order) → IsNumbered f → message_in (model.sent s server o f) (f.made + 1) ≡ Some (next_order s server o f) }
    ensures answered { (f : Flight) (m : Message) (r : Reply) → IsNumbered f → message_in (model.answered m r f) (f.made + 1) ≡ Some (next_reply m r f) }
    ensures stays { (c : Change) (f : Flight) (n : ℕ) (m : Message) → message_in f n ≡ Some m → Spares c m → message_in (after c f) n ≡ Some m }
    ensures lost { (f : Flight) (n : ℕ) → message_in (model.lost n f) n ≡ None }
    ensures forgotten { (f : Flight) (s n : ℕ) (m : Message) → message_in (model.forgotten s f) n ≡ Some m → m.session ≢ s }
{}

/// No count ever falls: neither how many messages were made, nor how often a server was started, nor an epoch, nor a fence. A server
/// that has reported for an epoch has its fence there, or higher.
pub fn no_count_falls()
    ensures each { (c : Change) (f : Flight) → NoLower f (after c f) }
    ensures fenced { (f : Flight) (s server epoch : ℕ) → epoch ≤ (model.fenced s server epoch f).fence s server }
{}

/// An order is one to carry out as it is sent, where its server has reported for no later epoch, and stays so until that does, or is
/// started; then it isn't any more, and never again.
pub fn an_old_order_stays_old()
    ensures sent { (f : Flight) (s server : ℕ) (o : Order) → f.fence s server ≤ f.epoch s → is_current (model.sent s server o f) (next_order s server o f) (f.starts server) ≡ true }
    ensures stays { (c : Change) (f : Flight) (m : Message) (starts : ℕ) → is_current f m starts ≡ true → Passes c m → is_current (after c f) m starts ≡ true }
    ensures started { (f : Flight) (m : Message) (starts : ℕ) → starts ≤ f.starts m.server → is_current (model.started m.server f) m starts ≡ false }
    ensures reported { (f : Flight) (m : Message) (starts epoch : ℕ) → m.epoch < epoch → is_current (model.fenced m.session m.server epoch f) m starts ≡ false }
    ensures old { (c : Change) (f : Flight) (m : Message) (starts : ℕ) → starts ≤ f.starts m.server → is_current f m starts ≡ false → is_current (after c f) m starts ≡ false }
{}

/// Of the example two messages are replies to the same order, which is still in flight; a report of its server for the epoch that begins
/// makes it an old one, and without their session all are gone.
pub fn an_example_of_a_flight()
    ensures order { message_in replied 2 ≡ Some second_order }
    ensures numbers { map (λ (m : Message). m.number) replied.messages ≡ 2 ∷ 3 ∷ 4 ∷ [] }
    ensures replies { message_in replied 4 ≡ Some (record second_order { number = 4; body = model.Replies Done }) }
    ensures gone { message_in replied 1 ≡ None }
    ensures current { is_current replied second_order 0 ≡ true }
    ensures old { is_current (model.fenced 1 1 1 (model.raised 1 replied)) second_order 0 ≡ false }
    ensures forgotten { (model.forgotten 1 replied).messages ≡ [] }
{}
