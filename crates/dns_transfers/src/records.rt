//! Records that a transfer takes from a source, and how many of them have room in a message.

ghost use Rattle.std.specs.Prelude.{◌≡◌, ◌++◌, [], map, IfOk, IsOk};
ghost use Rattle.dns_transfers.specs.Records.{front, left_of, lent_record, IsPeeked};

use crate::lent_record::LentRecord;
use std::alloc::{AllocError, Global};

/// Records that are taken one after another.
pub trait RecordSource<'a> {
    ghost use Rattle.std.specs.Prelude.{List};
    ghost use Rattle.dns_records.specs.Record.{Record};
    ghost use Rattle.dns_transfers.specs.Records.{IsNext};

    /// The records that are left.
    ghost left: { Self → List Record };

    /// Returns the next record, or `None` after the last.
    fn next(&mut self) -> Option<LentRecord<'a>>
        ensures { IsNext (left self.old) result (left self.new) };

    /// Returns a source of the same records. No memory is taken.
    fn copied(&self) -> Self
        ensures { left result ≡ left self.now };
}

/// The records of a source, of which the next may be known.
#[derive(Drop)]
pub(crate) struct Records<'a, S> {
    next: Option<LentRecord<'a>>,
    rest: S,
}

impl<'a, S: RecordSource<'a> + Drop> Records<'a, S> {
    /// Takes the records of a source.
    pub(crate) fn new(source: S) -> Records<'a, S>
        ensures { left_of S.left result ≡ S.left source }
    {
        Records {
            next: None,
            rest: source,
        }
    }

    /// Returns the same records. No memory is taken.
    pub(crate) fn copied(&self) -> Records<'a, S>
        ensures { left_of S.left result ≡ left_of S.left self.now }
    {
        Records {
            next: self.next,
            rest: self.rest.copied(),
        }
    }

    /// Returns the next record, which stays, or `None` after the last.
    pub(crate) fn peek(&mut self) -> Option<LentRecord<'a>>
        ensures { IsPeeked S.left self.old result self.new }
    {
        if self.next.is_none() {
            self.next = self.rest.next();
        }
        self.next
    }

    /// Returns the records, from the first on, that have room in `room` bytes without compression, and those that are left then.
    pub(crate) fn split_front(
        &self,
        alloc: Global,
        room: usize,
    ) -> Result<(Vec<LentRecord<'a>>, Records<'a, S>), AllocError>
        ensures front { IfOk result (λ parts. map lent_record parts.0.items
            ≡ front room (left_of S.left self.now)) }
        ensures left { IfOk result (λ parts. map lent_record parts.0.items
            ++ left_of S.left parts.1 ≡ left_of S.left self.now) }
        ensures decided { front room (left_of S.left self.now) ≡ [] → IsOk result }
    {
        let mut batch = Vec::new(alloc);
        let mut left = room;
        let mut rest = self.copied();
        while let Some(next) = rest.peek() {
            let Some(after) = next.room_after(left) else {
                break;
            };
            batch.push(next)?;
            left = after;
            rest.next = None;
        }
        Ok((batch, rest))
    }
}
