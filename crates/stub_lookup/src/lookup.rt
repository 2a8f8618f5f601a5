//! What a lookup found.

ghost use Rattle.std.specs.Prelude.{◌≡◌, ◌≤◌, ◌<◌, ◌+◌, ◌^◌, ◌++◌, ◌∷◌, [], length, IfOk, OnOk, Some, slice_get};

mod equality;

use crate::moment::Moment;
use dns_data::RData;
use dns_messages::{Message, OpCode, Query, Record, Sequence};
use std::alloc::{AllocError, Global};
use std::marker::Model;

/// The TTL of records that a resolver makes itself, in seconds: one day.
pub const MAX_TTL: u32 = 86_400;

/// The response to a question, and how long it is valid.
#[derive(Drop)]
pub struct Lookup {
    message: Message,
    valid_until: Moment,
}

impl Model for Lookup {
    ghost use Rattle.std.specs.Prelude.{◌<◌, length};
    ghost use Rattle.stub_lookup.specs.Lookup.{LookupContent};

    ghost Value = { LookupContent };

    ghost view = { λ l. record { message = l.message; valid_until = l.valid_until } };

    ghost invariant = { λ l. 0 < length l.message.queries };
}

impl Lookup {
    ghost use Rattle.std.specs.Iterator.{IsFiniteIterable, ExtendsWithItems};
    ghost use Rattle.dns_messages.specs.Sections.{with_more_authorities, with_more_additionals};
    ghost use Rattle.stub_lookup.specs.Lookup.{joined, lookup_of, max_ttl, record_for};

    /// Creates a lookup from a message, which has a question.
    pub fn new(message: Message, valid_until: Moment) -> Lookup
        requires { 0 < length message.queries }
        ensures { result ≡ record { message = message; valid_until = valid_until } }
    {
        Lookup {
            message,
            valid_until,
        }
    }

    /// Creates a lookup with one answer of class `IN` at the name of the question. The TTL of the answer is [`MAX_TTL`],
    /// and the lookup is valid for [`MAX_TTL`] seconds.
    pub fn from_rdata(
        alloc: Global,
        query: Query,
        rdata: RData,
        now: Moment,
    ) -> Result<Lookup, AllocError>
        requires { now ≤ 2 ^ 62 }
        ensures { IfOk result (λ lookup.
            lookup ≡ lookup_of query (record_for query rdata ∷ []) (now + max_ttl)) }
    {
        let answers = one_answer(alloc, &query, rdata)?;
        Lookup::new_with_max_ttl(alloc, query, answers, now)
    }

    /// Creates a lookup with answers, which is valid for [`MAX_TTL`] seconds. The TTLs of the answers are not changed.
    pub fn new_with_max_ttl(
        alloc: Global,
        query: Query,
        answers: Vec<Record>,
        now: Moment,
    ) -> Result<Lookup, AllocError>
        requires { now ≤ 2 ^ 62 }
        ensures { IfOk result (λ lookup.
            lookup ≡ lookup_of query answers.items (now + max_ttl)) }
    {
        Lookup::new_with_deadline(alloc, query, answers, now + u64::from(MAX_TTL))
    }

    /// Creates a lookup with answers. Its message is a response of id 0 to the question.
    pub fn new_with_deadline(
        alloc: Global,
        query: Query,
        answers: Vec<Record>,
        valid_until: Moment,
    ) -> Result<Lookup, AllocError>
        ensures { IfOk result (λ lookup. lookup ≡ lookup_of query answers.items valid_until) }
    {
        let message = response(alloc, query, answers)?;
        Ok(Lookup {
            message,
            valid_until,
        })
    }

    /// Returns the question, the first one of the message.
    pub fn query(&self) -> &Query
        ensures { slice_get self.now.message.queries 0 ≡ Some result.now }
    {
        &self.message.queries.as_slice()[0]
    }

    /// Returns the message.
    pub fn message(&self) -> &Message
        ensures { result.now ≡ self.now.message }
    {
        &self.message
    }

    /// Returns the records of the answer section.
    pub fn answers(&self) -> &[Record]
        ensures { result.now ≡ self.now.message.answers }
    {
        self.message.answers.as_slice()
    }

    /// Returns the records of the authority section.
    pub fn authorities(&self) -> &[Record]
        ensures { result.now ≡ self.now.message.authorities }
    {
        self.message.authorities.as_slice()
    }

    /// Returns the records of the additional section.
    pub fn additionals(&self) -> &[Record]
        ensures { result.now ≡ self.now.message.additionals }
    {
        self.message.additionals.as_slice()
    }

    /// Returns the last moment at which the lookup is valid.
    pub fn valid_until(&self) -> Moment
        ensures { result ≡ self.now.valid_until }
    {
        self.valid_until
    }

    /// Adds records to the authority section. If memory runs out, those before are added.
    pub fn extend_authorities<I: IntoIterator<Item = Record>>(
        &mut self,
        records: I,
    ) -> Result<(), AllocError>
        requires { IsFiniteIterable I.into_iter_gives I.IntoIter.can_next I.IntoIter.remaining
            records }
        ensures { ExtendsWithItems I.into_iter_gives I.IntoIter.next_gives
            (λ old more new. new ≡ record old
            { message = with_more_authorities old.message more }) records self.old self.new
            result }
    {
        self.message.add_authorities(records)
    }

    /// Adds records to the additional section. If memory runs out, those before are added.
    pub fn extend_additionals<I: IntoIterator<Item = Record>>(
        &mut self,
        records: I,
    ) -> Result<(), AllocError>
        requires { IsFiniteIterable I.into_iter_gives I.IntoIter.can_next I.IntoIter.remaining
            records }
        ensures { ExtendsWithItems I.into_iter_gives I.IntoIter.next_gives
            (λ old more new. new ≡ record old
            { message = with_more_additionals old.message more }) records self.old self.new
            result }
    {
        self.message.add_additionals(records)
    }

    /// Copies the lookup.
    pub fn clone(&self) -> Result<Lookup, AllocError>
        ensures { IfOk result (λ copy. copy ≡ self.now) }
    {
        Ok(Lookup {
            message: self.message.clone()?,
            valid_until: self.valid_until,
        })
    }

    /// Returns a lookup with the records of both, section by section. Its deadline is the sooner one, and the rest is
    /// that of `self`.
    pub fn append(&self, other: Lookup) -> Result<Lookup, AllocError>
        ensures { IfOk result (λ lookup. lookup ≡ joined self.now other) }
    {
        let valid_until = sooner(self.valid_until, other.valid_until);
        let message = join_messages(&self.message, Message::from(other))?;
        Ok(Lookup {
            message,
            valid_until,
        })
    }
}

impl From<Lookup> for Message {
    ghost use Rattle.std.specs.Prelude.{◌≡◌};

    ghost from_gives = { λ lookup message. message ≡ lookup.message };

    fn from(lookup: Lookup) -> Message {
        lookup.message
    }
}

ghost use Rattle.stub_lookup.specs.Lookup.{record_for, response_to};

/// Creates a response of id 0 to a question.
fn response(alloc: Global, query: Query, answers: Vec<Record>) -> Result<Message, AllocError>
    ensures { IfOk result (λ message. message ≡ response_to query answers.items) }
{
    let queries = one_query(alloc, query)?;
    let mut message = Message::response(alloc, 0, OpCode::Query);
    message.queries = queries;
    message.insert_answers(answers);
    Ok(message)
}

/// Returns a question section with one question.
fn one_query(alloc: Global, query: Query) -> Result<Sequence<Query>, AllocError>
    ensures { IfOk result (λ queries. queries ≡ query ∷ []) }
{
    let mut queries = Sequence::new(alloc);
    queries.push(query)?;
    Ok(queries)
}

/// Returns one record at the name of a question, with the greatest TTL.
fn one_answer(alloc: Global, query: &Query, rdata: RData) -> Result<Vec<Record>, AllocError>
    ensures { IfOk result (λ answers. answers.items ≡ record_for query.now rdata ∷ []) }
{
    let answer = answer_to(query, rdata)?;
    one_record(alloc, answer)
}

/// Returns a record at the name of a question, with the greatest TTL.
fn answer_to(query: &Query, rdata: RData) -> Result<Record, AllocError>
    ensures { IfOk result (λ answer. answer ≡ record_for query.now rdata) }
{
    let name = query.name.clone()?;
    Ok(Record::from_rdata(name, MAX_TTL, rdata))
}

/// Returns a vector of one record.
fn one_record(alloc: Global, answer: Record) -> Result<Vec<Record>, AllocError>
    ensures { IfOk result (λ answers. answers.items ≡ answer ∷ []) }
{
    let mut answers = Vec::new(alloc);
    answers.push(answer)?;
    Ok(answers)
}

ghost use Rattle.stub_lookup.specs.Lookup.{joined_messages};
ghost use Rattle.std.specs.Prelude.{min};

/// Returns the sooner of two moments.
fn sooner(first: Moment, second: Moment) -> Moment
    ensures { result ≡ min first second }
{
    if second < first { second } else { first }
}

/// Copies a message, and adds the records of another one, section by section.
fn join_messages(first: &Message, second: Message) -> Result<Message, AllocError>
    ensures { IfOk result (λ message. message ≡ joined_messages first.now second) }
{
    let mut second = second;
    copy_with_sections(first, &mut second)
}

/// Copies a message, and moves the records of another one to the ends of its sections.
fn copy_with_sections(first: &Message, second: &mut Message) -> Result<Message, AllocError>
    ensures { IfOk result (λ message. message ≡ joined_messages first.now second.old) }
{
    let mut message = first.clone()?;
    add_sections(&mut message, second)?;
    Ok(message)
}

/// Moves the records of another message to the ends of the sections of a message.
fn add_sections(message: &mut Message, other: &mut Message) -> Result<(), AllocError>
    ensures { OnOk result (message.new ≡ joined_messages message.old other.old) }
{
    add_records(&mut message.answers, &mut other.answers)?;
    add_records(&mut message.authorities, &mut other.authorities)?;
    add_records(&mut message.additionals, &mut other.additionals)
}

/// Moves the records of a section to the end of another one. Both are empty afterwards if memory runs out.
fn add_records(
    section: &mut Sequence<Record>,
    other: &mut Sequence<Record>,
) -> Result<(), AllocError>
    ensures { OnOk result (section.new ≡ section.old ++ other.old) }
{
    let mut records = other.take().into_vec();
    move_records(section, &mut records)
}

/// Moves records to the end of a section, which is empty afterwards if memory runs out.
fn move_records(section: &mut Sequence<Record>, records: &mut Vec<Record>) -> Result<(), AllocError>
    ensures { OnOk result (section.new ≡ section.old ++ records.old.items) }
{
    let mut all = section.take().into_vec();
    all.append(records)?;
    *section = Sequence::from_vec(all);
    Ok(())
}
