//! A server whose updates outlast a crash.

ghost use Rattle.std.specs.Prelude.{◌≡◌, ◌≢◌, [], map, IfOk};
ghost use Rattle.dns_journal.specs.Storage.{Performs};
ghost use Rattle.dns_journal.specs.declared.journal.State.TheVariants as states;
ghost use Rattle.dns_durable.specs.Changes.{AreChanges, reply_change};
ghost use Rattle.dns_durable.specs.Durable.{Answers, Responds};
ghost use Rattle.dns_durable.specs.Incoming.{AreJudged, changes_in};
ghost use Rattle.dns_durable.specs.Rule.{entry_of};
ghost use Rattle.dns_durable.specs.Draft.{IsBehind};
ghost use Rattle.dns_zone.specs.Rows.{ZoneContent};

use crate::answering::{Reply, answer_all};
use crate::draft::{Progress, note_outcome, settle_updates};
use crate::incoming::{Batch, Incoming};
use crate::policy::Policy;
use crate::storing::store;
use dns_journal::{Journal, State, Storage};
use dns_server::Server;
use std::alloc::{AllocError, Global};

/// The replies to requests that arrived together.
#[derive(Drop)]
pub struct Replies {
    /// The replies, in the order of the requests, each with what its request has changed.
    pub replies: Vec<Reply>,
    /// Whether the updates of the requests are on the disk, if there are any.
    pub is_stored: bool,
}

/// A server of zones. Updates are appended to its journal before they are served.
#[derive(Drop)]
pub struct DurableServer<S: Storage> {
    /// The zones.
    pub server: Server,
    /// The journal of their updates.
    pub journal: Journal<S>,
    /// The text that is about to take the place of the journal.
    pub draft: Progress,
}

impl<S: Storage> DurableServer<S> {
    /// Answers requests that arrived together, by the keys and the grants of a policy. Those of their updates that may be made are
    /// appended to the journal as one entry. Once that is on the disk, the requests are served one after another. If the journal does
    /// not take it, each of these updates is answered with `ServFail` and changes nothing. The reply to a signed request is signed.
    ///
    /// If a text is being written ([`begin_draft`](DurableServer::begin_draft)), it keeps the sets that these updates change, and carries
    /// the updates that it lacks from then on.
    ///
    /// An error is want of memory. Some of the updates may have been served, and their changes are not returned; then all of them are on
    /// the disk, and the journal takes no further ones until it is opened again.
    pub fn respond_all(
        &mut self,
        alloc: Global,
        policy: &Policy,
        requests: &[Incoming<'_>],
    ) -> Result<Replies, AllocError>
        ensures performs { Performs S.performs self.old.journal.storage self.new.journal.storage
            (Responds policy.now requests.now result self.old.journal.position
            self.new.journal.position self.old.server self.new.server) }
        ensures changes { IfOk result (λ replies. AreChanges self.old.server
            (map reply_change replies.replies.items) self.new.server) }
        ensures behind { (base : ZoneContent) → IsBehind base self.old.server self.old.draft
            → IsBehind base self.new.server self.new.draft }
    {
        let batch = Batch::new(alloc, policy, requests)?;
        let DurableServer {
            server,
            journal,
            draft,
        } = self;
        settle_updates(draft, server, &batch);
        let outcome = respond_batch(server, journal, alloc, policy, &batch);
        note_outcome(draft, &outcome, batch.entry.as_slice());
        outcome
    }
}

/// Answers the requests of a batch, once their updates are on the disk.
fn respond_batch<S: Storage>(
    server: &mut Server,
    journal: &mut Journal<S>,
    alloc: Global,
    policy: &Policy,
    batch: &Batch<'_>,
) -> Result<Replies, AllocError>
    requires entry { batch.now.entry.items
        ≡ entry_of policy.now.answering (changes_in batch.now.admitted.items) }
    requires judged { AreJudged policy.now batch.now.admitted.items }
    ensures performs { Performs S.performs journal.old.storage journal.new.storage
        (Answers policy.now batch.now.admitted.items result journal.old.position
        journal.new.position server.old server.new) }
    ensures changes { IfOk result (λ replies. AreChanges server.old
        (map reply_change replies.replies.items) server.new) }
{
    let is_stored = store(journal, alloc, batch.entry.as_slice());
    match answer_all(server, alloc, policy, is_stored, batch.admitted.as_slice()) {
        Ok(replies) => Ok(Replies { replies, is_stored }),
        Err(error) => {
            if is_stored {
                suspend(journal, batch.entry.as_slice());
            }
            Err(error)
        }
    }
}

/// Lets a journal take no further updates if the zones may lack some of those that were appended.
fn suspend<S: Storage>(journal: &mut Journal<S>, entry: &[u8])
    ensures storage { journal.new.storage ≡ journal.old.storage }
    ensures empty { entry.now ≡ [] → journal.new.position ≡ journal.old.position }
    ensures lost { entry.now ≢ [] → journal.new.position.state ≡ states.Lost }
    ensures end { journal.new.position.end ≡ journal.old.position.end }
    ensures digest { journal.new.position.digest ≡ journal.old.position.digest }
    ensures key { journal.new.position.key ≡ journal.old.position.key }
    ensures link { journal.new.position.link ≡ journal.old.position.link }
{
    if !entry.is_empty() {
        journal.position.state = State::Lost;
    }
}
