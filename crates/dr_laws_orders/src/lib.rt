//! Laws on orders that travel, over every script and every stop: which are carried out no more, and what an order of an older attempt
//! leaves. Its functions do nothing: each names a law by its contract.
#![tactic(auto)]

ghost use Rattle.std.specs.Prelude.{◌≡◌, ◌≤◌, ℕ, ◌∷◌, [], List};
ghost use Rattle.dr_ids.specs.declared.refusal.Refusal.TheVariants.{OldMessage};
ghost use Rattle.dr_model.specs.declared.event.Event.TheVariants.{Committed};
ghost use Rattle.dr_model.specs.Control.{Control, World};
ghost use Rattle.dr_model.specs.Sessions.{Session};
ghost use Rattle.dr_model.specs.Messages.{Message};
ghost use Rattle.dr_model.specs.MessagePlans.{deliver_plan};
ghost use Rattle.dr_model.specs.PlanParts.{Plan, refuses};
ghost use Rattle.dr_model.specs.Carried.{said, after_plan};
ghost use Rattle.dr_model.specs.declared.said.Said.TheVariants.{Refused};
ghost use Rattle.dr_model.specs.Groups.{In};
ghost use Rattle.dr_model.specs.Attempts.{phase_of};
ghost use Rattle.dr_model.specs.Flights.{IsFenced};
ghost use Rattle.dr_model.specs.Runs.{Task, after_task, after_tasks};
ghost use Rattle.dr_ids.specs.declared.refusal.PhaseName.TheVariants.{Lost};
ghost use Rattle.dr_model.specs.Forming.{phase_in};
ghost use Rattle.dr_model.specs.Laws.{Sound, FlightCounted};
ghost use Rattle.dr_laws_attempts.specs.Example.{now};
ghost use Rattle.dr_laws_recovery.specs.Example.{tells};
ghost use Rattle.dr_laws_orders.specs.Arrivals.{IsOrderAt, IsBelowFence, IsRefused, FencesHold, MayArrive};
ghost use Rattle.dr_laws_orders.specs.FlightGoesOn.{FlightGoesOn};
ghost use Rattle.dr_laws_orders.specs.OldOrders.{IsFromBefore, StaysRefused, OldOrdersStayRefused};
ghost use Rattle.dr_laws_orders.specs.SettledLosses.{StaysSettled, IsFencedOff, SettledLossesAreFenced};
ghost use Rattle.dr_laws_orders.specs.OlderNumbers.{IsOlder, LeavesVolumes, OlderOrdersLeaveVolumes};
ghost use Rattle.dr_laws_orders.specs.Example.{order, fenced};

/// A server carries out no order with an epoch below its fence: the delivery of such a message is refused, and a plan that is nothing but a
/// refusal leaves the world as it was, with its answer. It is refused as an old message where all that is looked at before is as it should
/// be: its session is defined and has a master, its server is on and can be reached from the master's, and there is room for the reply. In
/// a sound world no fence is above its session's epoch, so this meets no order that a master has just sent, nor one that it hands over in
/// an exchange.
pub fn an_order_below_a_fence_is_refused()
    ensures refused { (k : Control) → FencesHold k }
    ensures leaves { (w : World) (line : ℕ) (p : Plan) → (r : IsRefused p) → after_plan w line p ≡ said w line (Refused r.refusal) }
    ensures old { (k : Control) (n : ℕ) (m : Message) → IsOrderAt k n m → IsBelowFence k.flight m → MayArrive k m → deliver_plan k n ≡ refuses (OldMessage n) }
    ensures present { (w : World) (s server : ℕ) → Sound w → w.control.flight.fence s server ≤ w.control.flight.epoch s }
{}

/// No step makes the number of messages that were made, of a server's starts or of a session's epochs smaller, nor lowers a fence; and a
/// message that is in flight after steps was so before, or has a number that no message had.
pub fn counts_and_fences_never_fall()
    ensures { (w : World) (tasks : List Task) → FlightGoesOn w.control.flight (after_tasks w tasks).control.flight }
{}

/// Once a lost master has gone on, so that its session commits, reverts or finishes, no order of that attempt from before the loss is carried
/// out any more by a server that has members: whatever steps come, the delivery of its message is refused, be it that it is gone, or that
/// it is old.
pub fn orders_from_before_a_loss_stay_refused()
    ensures worlds { (w : World) (x : Session) (m : Message) → Sound w → FlightCounted w → In x w.control.sessions → IsFenced (phase_of x.mirror) → IsFromBefore w.control x m → StaysRefused w m.number }
    ensures runs { (tasks : List Task) → OldOrdersStayRefused tasks }
{}

/// A loss that is settled is fenced. If a master is Lost as a step of a run begins, and neither Lost nor Idle as it ends, each server of its
/// session's members has reported since the loss: its fence is the session's epoch, so that it carries out no order from before. So it stays over
/// whatever steps come, until the master is Idle or Lost again.
pub fn a_settled_loss_is_fenced()
    ensures worlds { (w : World) (t : Task) (more : List Task) (s : ℕ) → Sound w → phase_in w.control s ≡ Lost → StaysSettled (after_task w t) more s → IsFencedOff (after_tasks (after_task w t) more).control s }
    ensures runs { (tasks : List Task) → SettledLossesAreFenced tasks }
{}

/// An order of an older attempt than its session's last changes no view and no recording. Wherever its delivery comes to, where servers stop or
/// go off by themselves in it, and as it is answered, each volume shows what it showed, and would show the same if it went back; and its
/// record says what it said, but that a primary's last attempt and a target's floor may have risen, not past the order's number.
pub fn an_older_order_leaves_the_volumes()
    ensures worlds { (w : World) (n : ℕ) (m : Message) → Sound w → IsOlder w.control n m → LeavesVolumes m.order.number w (deliver_plan w.control n) }
    ensures runs { (tasks : List Task) → OlderOrdersLeaveVolumes tasks }
{}

/// An example: an order to commit that was sent before its master was lost is refused as old, once the master commits again, by a server
/// that has reported since, and commits nothing; the same order, sent again since, commits the target.
pub fn an_example_is_fenced()
    ensures before { IsFenced (phase_of (now fenced).mirror) × IsFromBefore fenced (now fenced) (order 1 1) }
    ensures old { deliver_plan fenced 1 ≡ refuses (OldMessage 1) }
    ensures old_tells { tells fenced (deliver_plan fenced 1) ≡ [] }
    ensures new_tells { tells fenced (deliver_plan fenced 2) ≡ Committed 7 1 4 6 ∷ [] }
{}
