//! Entries of a cache.

ghost use Rattle.std.specs.Prelude.{◌≡◌, ◌≤◌, ◌-◌, ◌^◌, IfOk, Ok, Err, Some};
ghost use Rattle.stub_cache.specs.Cache.{aged, entry_of};

use super::ageing::{age_answer, age_message};
use super::clamping::{clamp_message, negative_lifetime, positive_lifetime};
use crate::ttl::TtlConfig;
use dns_messages::{Message, Query};
use std::alloc::AllocError;
use stub_lookup::{Moment, NoRecords};

/// The response to a question, or a negative answer, since the moment at which it was stored.
pub struct Entry {
    /// The question.
    pub question: Query,
    /// A response, or a negative answer.
    pub kept: Result<Message, NoRecords>,
    /// When it was stored.
    pub moment: Moment,
    /// The last moment at which it is current.
    pub deadline: Moment,
}

impl Drop for Entry {
    fn drop(self) {
        let Entry {
            question,
            kept,
            moment: _moment,
            deadline: _deadline,
        } = self;
        drop(question);
        drop(kept);
    }
}

impl Entry {
    /// Creates an entry for a question with a response, whose TTLs are brought within the bounds of their types.
    pub fn positive(config: &TtlConfig, question: Query, message: Message, now: Moment) -> Entry
        requires { now ≤ 2 ^ 62 }
        ensures { result ≡ entry_of config.now question (Ok message) now }
    {
        let mut message = message;
        clamp_message(config, &mut message);
        let lifetime = positive_lifetime(config, question.query_type, &message);
        Entry {
            question,
            kept: Ok(message),
            moment: now,
            deadline: now + u64::from(lifetime),
        }
    }

    /// Creates an entry for a question with a negative answer.
    pub fn negative(config: &TtlConfig, question: Query, answer: NoRecords, now: Moment) -> Entry
        requires { now ≤ 2 ^ 62 }
        ensures { result ≡ entry_of config.now question (Err answer) now }
    {
        let lifetime = negative_lifetime(config, question.query_type, &answer);
        Entry {
            question,
            kept: Err(answer),
            moment: now,
            deadline: now + u64::from(lifetime),
        }
    }

    /// Clones the entry. Fails if memory runs out.
    pub fn clone(&self) -> Result<Entry, AllocError>
        ensures { IfOk result (λ copy. copy ≡ self.now) }
    {
        let kept = match &self.kept {
            Ok(message) => Ok(message.clone()?),
            Err(answer) => Err(answer.clone()?),
        };
        Ok(Entry {
            question: self.question.clone()?,
            kept,
            moment: self.moment,
            deadline: self.deadline,
        })
    }

    /// Returns a copy of the response or the negative answer, with the TTLs that are left at a moment.
    pub fn reply_at(&self, now: Moment) -> Result<Option<Result<Message, NoRecords>>, AllocError>
        ensures { IfOk result (λ reply. reply
            ≡ Some (aged (now - self.now.moment) self.now.kept)) }
    {
        let seconds = now.saturating_sub(self.moment);
        match &self.kept {
            Ok(message) => {
                let mut copy = message.clone()?;
                age_message(&mut copy, seconds);
                Ok(Some(Ok(copy)))
            }
            Err(answer) => {
                let mut copy = answer.clone()?;
                age_answer(&mut copy, seconds);
                Ok(Some(Err(copy)))
            }
        }
    }
}
