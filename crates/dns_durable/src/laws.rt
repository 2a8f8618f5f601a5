//! Theorems about the calls of a server.

ghost use Rattle.std.specs.Prelude.{◌≡◌, ◌++◌, ◌∷◌, [], List, ℕ, Result};
ghost use Rattle.std.specs.declared.alloc.AllocError.{AllocError};
ghost use Rattle.dns_journal.specs.declared.journal.Position.{Position};
ghost use Rattle.dns_journal.specs.Event.{Event, Files};
ghost use Rattle.dns_journal.specs.Storage.{Always, Disk, Ends, LeavesOnly};
ghost use Rattle.dns_durable.specs.recovery.Updating.{IsOpen};
ghost use Rattle.dns_zone.specs.Rows.{ZoneContent};
ghost use Rattle.dns_durable.specs.Durable.{Keeps, Responds};
ghost use Rattle.dns_durable.specs.History.{AreBatches, AreGenuine, AreReady, Call, HaveOwnDigests, IsEntryOf, IsGenuineOf, Outlasts, OutlastsInJournal, Runs, events_of, position_after};
ghost use Rattle.dns_durable.specs.declared.durable_server.Replies.{Replies};
ghost use Rattle.dns_durable.specs.declared.incoming.Incoming.{Incoming};
ghost use Rattle.dns_durable.specs.declared.policy.Policy.{Policy};

/// Each call of [`respond_all`](crate::DurableServer::respond_all) is a call of a history, with the entry for the updates of its
/// requests that may be made. A call of [`replace`](crate::DurableServer::replace) is one by its contract.
pub fn responses_are_calls()
    ensures { (policy : Policy) (requests : List Incoming) (outcome : Result Replies AllocError)
        (old new : Position) (zones after : List ZoneContent) (es : List Event)
        → Responds policy requests outcome old new zones after es
        → (frames : List ℕ) × (IsEntryOf policy requests outcome frames
        × Keeps frames outcome old new zones after es) }
{}

/// After any batches and compactions, and at any moment of a further one, a crash leaves all updates that were acknowledged: in the
/// text from before the calls and its journal; or in the text of a compaction and in the journal of that. Such a text may lack updates
/// that were made while it was written, with which its journal begins: it is one of a zone from which these lead to the zone that exactly
/// the acknowledged updates before the compaction lead to. A journal has its updates in order, none of them in part, with all that were
/// acknowledged since then. Of the further call there are all updates or none.
pub fn acknowledged_updates_outlast_crashes()
    ensures { (text : List ℕ) (updates : List (List ℕ)) (p : Position) (zones : List ZoneContent)
        (d : Disk) (done : List Call) (c : Call)
        → IsOpen text updates p d → HaveOwnDigests text (done ++ c ∷ []) → Runs p zones (done ++ c ∷ [])
        → Ends (λ e. Always (LeavesOnly (Outlasts text updates p zones done c)) e c.events) d (events_of done) }
{}

/// After any batches, and at any moment of a further one, a crash leaves the text and updates of it: those from before the batches,
/// then in order those of the batches, none of them in part, with all that were acknowledged. Of the further batch there are all
/// updates or none.
pub fn without_compactions_the_journal_has_all_updates()
    ensures { (text : List ℕ) (updates : List (List ℕ)) (p : Position) (zones : List ZoneContent)
        (d : Disk) (done : List Call) (c : Call)
        → AreBatches (done ++ c ∷ []) → IsOpen text updates p d → Runs p zones (done ++ c ∷ [])
        → Ends (λ e. Always (LeavesOnly (OutlastsInJournal text updates p done c)) e c.events) d (events_of done) }
{}

/// A crash tears one write at most. After calls that leave the journal ready, whatever entries they stored, what
/// [`acknowledged_updates_outlast_crashes`] asks of a crash is met if what that leaves of the write of the further call is genuine.
pub fn only_the_last_write_has_to_be_genuine()
    ensures { (p : Position) (done : List Call) (c : Call) (files : Files) → AreReady done
        → IsGenuineOf c.deed (position_after p done) files
        → AreGenuine p (done ++ c ∷ []) files }
{}
