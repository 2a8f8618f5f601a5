//! Iterators over the records of the three sections of a message.

ghost use Rattle.std.specs.Prelude.{◌≡◌, ◌++◌};
ghost use Rattle.std.specs.Iterator.{YieldsFirst, YieldsFirstRef, item_count};

use dns_records::{Record, Sequence};
use std::marker::Model;
use std::vec;

/// An iterator over the records of the answer, authority and additional section, in order.
#[derive(Drop)]
pub struct Sections<'a> {
    answers: &'a [Record],
    authorities: &'a [Record],
    additionals: &'a [Record],
}

impl<'a> Model for Sections<'a> {
    ghost use Rattle.std.specs.Prelude.{List, ◌++◌};
    ghost use Rattle.dns_records.specs.Record.{Record};

    ghost Value = { List Record };

    ghost view = { λ it. it.answers.now ++ (it.authorities.now ++ it.additionals.now) };
}

impl<'a> Sections<'a> {
    /// Iterates over three sections.
    pub(super) fn new(
        answers: &'a [Record],
        authorities: &'a [Record],
        additionals: &'a [Record],
    ) -> Sections<'a>
        ensures { result ≡ answers.now ++ (authorities.now ++ additionals.now) }
    {
        Sections {
            answers,
            authorities,
            additionals,
        }
    }
}

impl<'a> Iterator for Sections<'a> {
    type Item = &'a Record;

    ghost next_gives = { YieldsFirstRef (λ rest. rest) };

    ghost remaining = { item_count (λ rest. rest) };

    fn next(&mut self) -> Option<&'a Record> {
        if let Some((first, others)) = self.answers.split_first() {
            self.answers = others;
            return Some(first);
        }
        if let Some((first, others)) = self.authorities.split_first() {
            self.authorities = others;
            return Some(first);
        }
        let (first, others) = self.additionals.split_first()?;
        self.additionals = others;
        Some(first)
    }
}

/// An owning iterator over the records of the answer, authority and additional section, in order.
#[derive(Drop)]
pub struct IntoSections {
    answers: vec::IntoIter<Record>,
    authorities: vec::IntoIter<Record>,
    additionals: vec::IntoIter<Record>,
}

impl Model for IntoSections {
    ghost use Rattle.std.specs.Prelude.{List, ◌++◌};
    ghost use Rattle.std.specs.Vec.Iter.{into_iter_items};
    ghost use Rattle.dns_records.specs.Record.{Record};

    ghost Value = { List Record };

    ghost view = { λ it. into_iter_items it.answers
        ++ (into_iter_items it.authorities ++ into_iter_items it.additionals) };
}

impl IntoSections {
    /// Iterates over three sections.
    pub(super) fn new(
        answers: Sequence<Record>,
        authorities: Sequence<Record>,
        additionals: Sequence<Record>,
    ) -> IntoSections
        ensures { result ≡ answers ++ (authorities ++ additionals) }
    {
        IntoSections {
            answers: answers.into_vec().into_iter(),
            authorities: authorities.into_vec().into_iter(),
            additionals: additionals.into_vec().into_iter(),
        }
    }
}

impl Iterator for IntoSections {
    type Item = Record;

    ghost next_gives = { YieldsFirst (λ rest. rest) };

    ghost remaining = { item_count (λ rest. rest) };

    fn next(&mut self) -> Option<Record> {
        if let Some(record) = self.answers.next() {
            return Some(record);
        }
        if let Some(record) = self.authorities.next() {
            return Some(record);
        }
        self.additionals.next()
    }
}
