//! A handle over the replies that are known.

ghost use Rattle.std.specs.Prelude.{◌≡◌, [], None};

use crate::known::known::{KnownReply, outcome_for, restored};
use dns_messages::{DnsResponse, Query};
use std::alloc::Global;
use std::marker::Model;
use std::mem;
use stub_client::{DnsHandle, DnsRequest};
use stub_lookup::{Moment, NetError};

/// A handle that answers from the replies that are known. It remembers a question to which none is known, and runs out of memory,
/// which ends the lookup.
#[derive(Drop)]
pub struct AnsweredHandle {
    alloc: Global,
    known: Vec<KnownReply>,
    wanted: Option<Query>,
}

impl Model for AnsweredHandle {
    ghost use Rattle.api_resolver.specs.known.Answered.{AnsweredState};

    ghost Value = { AnsweredState };

    ghost view = { λ handle. record { known = handle.known.items; wanted = handle.wanted } };
}

impl AnsweredHandle {
    /// Creates a handle to which no reply is known.
    pub fn new(alloc: Global) -> AnsweredHandle
        ensures { result ≡ record { known = []; wanted = None } }
    {
        AnsweredHandle {
            alloc,
            known: Vec::new(alloc),
            wanted: None,
        }
    }

    /// Replaces the replies that are known, and forgets which question was wanted. Returns the old replies.
    pub fn replace_known(&mut self, known: Vec<KnownReply>) -> Vec<KnownReply>
        ensures old { result.items ≡ self.old.known }
        ensures new { self.new ≡ record { known = known.items; wanted = None } }
    {
        self.wanted = None;
        mem::replace(&mut self.known, known)
    }

    /// Takes the question that was wanted.
    pub fn take_wanted(&mut self) -> Option<Query>
        ensures wanted { result ≡ self.old.wanted }
        ensures new { self.new ≡ record self.old { wanted = None } }
    {
        mem::replace(&mut self.wanted, None)
    }

    /// Returns what is known of a question, or remembers it.
    fn outcome_of(&mut self, question: &Query) -> Result<DnsResponse, NetError>
        ensures { GivesTo question.now self.old result self.new }
    {
        match outcome_for(self.known.as_slice(), question) {
            Some(known) => restored(self.alloc, known),
            None => {
                let copy = question.clone()?;
                self.wanted = Some(copy);
                // Want of memory ends the lookup, which is run again when the reply is known.
                Err(NetError::Memory)
            }
        }
    }
}

ghost use Rattle.api_resolver.specs.known.Answered.{GivesTo};

impl DnsHandle for AnsweredHandle {
    ghost use Rattle.api_resolver.specs.known.Answered.{Gives};

    ghost gives = { λ old request now outcome new. Gives old request.message.queries outcome new };

    fn send(&mut self, request: DnsRequest, _now: Moment) -> Result<DnsResponse, NetError> {
        match request.message().queries.as_slice() {
            [question] => self.outcome_of(question),
            _ => Err(NetError::Unsupported),
        }
    }
}
