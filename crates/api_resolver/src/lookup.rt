//! A lookup that is open, or has ended.

ghost use Rattle.std.specs.Prelude.{◌≡◌, ◌∷◌, [], ◌≤◌, ◌/◌, ◌^◌, length, None, Some};

use crate::exchange::{Awaited, Exchange};
use crate::known::KnownReply;
use dns_messages::{Query, Sequence};
use std::net::SocketAddr;
use stub_lookup::{Lookup, Moment, NetError};

/// What a lookup asks, and what is known of it.
pub struct Course {
    /// The question.
    pub question: Query,
    /// When it began, in milliseconds of the caller's clock.
    pub begun: u64,
    /// The ids of the exchanges to come.
    pub ids: Sequence<u16>,
    /// The replies that are known.
    pub known: Sequence<KnownReply>,
}

impl Drop for Course {
    fn drop(self) {
        let Course {
            question,
            begun: _begun,
            ids,
            known,
        } = self;
        drop(question);
        drop(ids);
        drop(known);
    }
}

impl Course {
    /// Returns the moment of the lookup, in seconds: that at which it began.
    pub(crate) fn moment(&self) -> Moment
        ensures moment { result ≡ self.now.begun / 1000 }
        ensures bound { result ≤ 2 ^ 62 }
    {
        self.begun / 1_000
    }

    /// Draws the id of an exchange, if one is left.
    pub(crate) fn draw_id(&mut self) -> Option<u16>
        ensures { DrawsId self.old result self.new }
    {
        if self.ids.is_empty() {
            return None;
        }
        Some(self.ids.remove(0))
    }
}

ghost use Rattle.api_resolver.specs.Lookup.{DrawsId, awaited_in};

/// What a lookup does next.
#[derive(Drop)]
pub enum LookupState {
    /// It waits for a reply.
    Waits(Exchange),
    /// It has ended.
    Ended(Result<Lookup, NetError>),
}

/// A lookup that is open, or has ended.
#[derive(Drop)]
pub struct OpenLookup {
    pub(crate) course: Course,
    pub(crate) state: LookupState,
}

impl OpenLookup {
    ghost use Rattle.std.specs.Option.{option_copied};

    /// Returns the message whose reply the lookup awaits, or none if it has ended.
    ///
    /// The message is to be sent once: it is a new one exactly if [`exchanges`](OpenLookup::exchanges) or its
    /// [`number`](Awaited::number) is.
    pub fn awaited(&self) -> Option<&Awaited>
        ensures { option_copied result ≡ awaited_in self.now.state }
    {
        match &self.state {
            LookupState::Waits(exchange) => Some(&exchange.awaited),
            LookupState::Ended(_) => None,
        }
    }

    /// Returns what the lookup does next.
    pub fn state(&self) -> &LookupState
        ensures { result.now ≡ self.now.state }
    {
        &self.state
    }

    /// Returns how many of the questions of the lookup have had their exchange.
    pub fn exchanges(&self) -> usize
        ensures { result ≡ length self.now.course.known }
    {
        self.course.known.len()
    }

    /// Returns the question.
    pub fn question(&self) -> &Query
        ensures { result.now ≡ self.now.course.question }
    {
        &self.course.question
    }

    /// Returns what the lookup does next, and drops the rest.
    pub fn into_state(self) -> LookupState
        ensures { result ≡ self.state }
    {
        self.state
    }
}
