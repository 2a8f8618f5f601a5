//! Theorems about the definitions of this crate, as functions with empty bodies.

ghost use Rattle.std.specs.Prelude.{◌≡◌, ◌+◌, ◌*◌, true, false, is_some, length, map, List, ℕ};
ghost use Rattle.std.specs.declared.net.socket_addr.SocketAddr.{SocketAddr};
ghost use Rattle.dns_notify.specs.declared.retries.Retries.{Retries};
ghost use Rattle.dns_notify.specs.declared.secondary.Secondary.{Secondary};
ghost use Rattle.dns_notify.specs.Notifications.{after_first_due, after_response, announced_to, copies_left, due_address, first_moment, is_expected, AreOpen};
ghost use Rattle.dns_notify.specs.Secondary.{has_come};

/// A copy is due exactly if the earliest moment has come.
#[tactic(auto, using(crate::proofs::NotificationLaws::due_first))]
pub fn copies_are_due_from_the_first_moment_on()
    ensures { (now : ℕ) (ss : List Secondary)
        → is_some (due_address now ss) ≡ has_come now (first_moment ss) }
{}

/// After a change as many copies are left as the secondaries are sent at most, and each copy that is sent leaves one less.
#[tactic(auto, using(crate::proofs::NotificationLaws::all_left, crate::proofs::NotificationLaws::one_less, crate::proofs::NotificationLaws::announced_open, crate::proofs::NotificationLaws::sent_open, crate::proofs::NotificationLaws::responded_open))]
pub fn copies_are_bounded()
    ensures all { (r : Retries) (now : ℕ) (ss : List Secondary)
        → copies_left (announced_to r now ss) ≡ r.copies * length ss }
    ensures less { (r : Retries) (now : ℕ) (ss : List Secondary) → AreOpen ss
        → is_some (due_address now ss) ≡ true
        → copies_left (after_first_due r now ss) + 1 ≡ copies_left ss }
    ensures announced { (r : Retries) (now : ℕ) (ss : List Secondary)
        → AreOpen (announced_to r now ss) }
    ensures sent { (r : Retries) (now : ℕ) (ss : List Secondary) → AreOpen ss
        → AreOpen (after_first_due r now ss) }
    ensures responded { (address : SocketAddr) (ss : List Secondary) → AreOpen ss
        → AreOpen (map (after_response address) ss) }
{}

/// After a response no copies are sent to its address until the next change.
#[tactic(auto, using(crate::proofs::NotificationLaws::none_expected))]
pub fn responses_end_notifications()
    ensures { (address : SocketAddr) (ss : List Secondary)
        → is_expected address (map (after_response address) ss) ≡ false }
{}
