//! The sections of a message, which grow or are replaced.

ghost use Rattle.std.specs.Prelude.{◌≡◌, ◌++◌, ◌∷◌, [], OnOk, OnErr};

use super::Message;
use super::section_iter::{IntoSections, Sections};
use crate::query::Query;
use dns_records::{Record, Sequence};
use std::alloc::AllocError;

impl Message {
    ghost use Rattle.std.specs.Iterator.{IsFiniteIterable, ExtendsWithItems};
    ghost use Rattle.dns_messages.specs.Message.{all_records};
    ghost use Rattle.dns_messages.specs.Sections.{with_more_queries, with_more_answers, with_more_authorities, with_more_additionals};

    /// Adds a question.
    pub fn add_query(&mut self, query: Query) -> Result<(), AllocError>
        ensures ok { OnOk result (self.new ≡ with_more_queries self.old (query ∷ [])) }
        ensures err { OnErr result (self.new ≡ self.old) }
    {
        self.queries.push(query)
    }

    /// Adds questions. If memory runs out, those before are added.
    pub fn add_queries<I: IntoIterator<Item = Query>>(
        &mut self,
        queries: I,
    ) -> Result<(), AllocError>
        requires { IsFiniteIterable I.into_iter_gives I.IntoIter.can_next I.IntoIter.remaining
            queries }
        ensures { ExtendsWithItems I.into_iter_gives I.IntoIter.next_gives
            (λ old more new. new ≡ with_more_queries old more) queries self.old self.new result }
    {
        self.queries.extend(queries)
    }

    /// Adds an answer.
    pub fn add_answer(&mut self, answer: Record) -> Result<(), AllocError>
        ensures ok { OnOk result (self.new ≡ with_more_answers self.old (answer ∷ [])) }
        ensures err { OnErr result (self.new ≡ self.old) }
    {
        self.answers.push(answer)
    }

    /// Adds answers. If memory runs out, those before are added.
    pub fn add_answers<I: IntoIterator<Item = Record>>(
        &mut self,
        answers: I,
    ) -> Result<(), AllocError>
        requires { IsFiniteIterable I.into_iter_gives I.IntoIter.can_next I.IntoIter.remaining
            answers }
        ensures { ExtendsWithItems I.into_iter_gives I.IntoIter.next_gives
            (λ old more new. new ≡ with_more_answers old more) answers self.old self.new result }
    {
        self.answers.extend(answers)
    }

    /// Replaces the answers.
    pub fn insert_answers(&mut self, answers: Vec<Record>)
        ensures { self.new ≡ record self.old { answers = answers.items } }
    {
        self.answers = Sequence::from_vec(answers);
    }

    /// Adds a record to the authority section.
    pub fn add_authority(&mut self, authority: Record) -> Result<(), AllocError>
        ensures ok { OnOk result (self.new ≡ with_more_authorities self.old (authority ∷ [])) }
        ensures err { OnErr result (self.new ≡ self.old) }
    {
        self.authorities.push(authority)
    }

    /// Adds records to the authority section. If memory runs out, those before are added.
    pub fn add_authorities<I: IntoIterator<Item = Record>>(
        &mut self,
        authorities: I,
    ) -> Result<(), AllocError>
        requires { IsFiniteIterable I.into_iter_gives I.IntoIter.can_next I.IntoIter.remaining
            authorities }
        ensures { ExtendsWithItems I.into_iter_gives I.IntoIter.next_gives
            (λ old more new. new ≡ with_more_authorities old more) authorities self.old self.new
            result }
    {
        self.authorities.extend(authorities)
    }

    /// Replaces the authority section.
    pub fn insert_authorities(&mut self, authorities: Vec<Record>)
        ensures { self.new ≡ record self.old { authorities = authorities.items } }
    {
        self.authorities = Sequence::from_vec(authorities);
    }

    /// Adds a record to the additional section.
    pub fn add_additional(&mut self, additional: Record) -> Result<(), AllocError>
        ensures ok { OnOk result (self.new ≡ with_more_additionals self.old (additional ∷ [])) }
        ensures err { OnErr result (self.new ≡ self.old) }
    {
        self.additionals.push(additional)
    }

    /// Adds records to the additional section. If memory runs out, those before are added.
    pub fn add_additionals<I: IntoIterator<Item = Record>>(
        &mut self,
        additionals: I,
    ) -> Result<(), AllocError>
        requires { IsFiniteIterable I.into_iter_gives I.IntoIter.can_next I.IntoIter.remaining
            additionals }
        ensures { ExtendsWithItems I.into_iter_gives I.IntoIter.next_gives
            (λ old more new. new ≡ with_more_additionals old more) additionals self.old self.new
            result }
    {
        self.additionals.extend(additionals)
    }

    /// Replaces the additional section.
    pub fn insert_additionals(&mut self, additionals: Vec<Record>)
        ensures { self.new ≡ record self.old { additionals = additionals.items } }
    {
        self.additionals = Sequence::from_vec(additionals);
    }

    /// Takes the records out of the three sections, in order. The sections are empty afterwards.
    pub fn take_all_sections(&mut self) -> IntoSections
        ensures records { result ≡ all_records self.old }
        ensures empty { self.new ≡ record self.old {
          answers = [];
          authorities = [];
          additionals = [];
        } }
    {
        IntoSections::new(
            self.answers.take(),
            self.authorities.take(),
            self.additionals.take(),
        )
    }

    /// Iterates over the records of the three sections, in order.
    pub fn all_sections(&self) -> Sections<'_>
        ensures { result ≡ all_records self.now }
    {
        Sections::new(
            self.answers.as_slice(),
            self.authorities.as_slice(),
            self.additionals.as_slice(),
        )
    }
}
