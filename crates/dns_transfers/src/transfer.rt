//! Transfers: one message after another (RFC 5936 section 2.2).

ghost use Rattle.std.specs.Prelude.{◌≤◌, length};

use crate::error::TransferError;
use crate::message::{TransferMessage, dnssec_ok_of, edns_of, metadata_of_transfer, room_for};
use crate::records::{RecordSource, Records};
use dns_messages::{Message, Metadata, Query};
use std::alloc::Global;

/// The reply to a request for a transfer: messages with the records of a source.
#[derive(Drop)]
pub struct Transfer<'a, S> {
    alloc: Global,
    metadata: Metadata,
    /// The question, until the first message is made.
    queries: &'a [Query],
    /// DO of the OPT record of each message, if they have one.
    dnssec_ok: Option<bool>,
    records: Records<'a, S>,
    ghost few: { length queries.now ≤ 1 },
}

impl<'a, S: RecordSource<'a> + Drop> Transfer<'a, S> {
    ghost use Rattle.std.specs.Prelude.{◌≡◌, ◌≤◌, ◌<◌, [], None, length, map, IfOk, OnErr, Err, option_map};
    ghost use Rattle.dns_transfers.specs.Sending.{sending, start, CannotSend, IsStuck, Sends, SendsAll};

    /// Creates the reply to a request with the records of a source.
    pub fn new(alloc: Global, request: &'a Message, source: S) -> Transfer<'a, S>
        requires { length request.now.queries ≤ 1 }
        ensures { sending S.left result ≡ start request.now (S.left source) }
    {
        Transfer {
            alloc,
            metadata: metadata_of_transfer(&request.metadata),
            queries: request.queries.as_slice(),
            dnssec_ok: dnssec_ok_of(&request.edns),
            records: Records::new(source),
        }
    }

    /// Returns the next message, or `None` after the last. It has the records, from the first on, that have room without
    /// compression. An error takes no record.
    ///
    /// # Errors
    ///
    /// - [`TransferError::TooLong`] if the next record has no room in a message;
    /// - [`TransferError::Memory`] if memory is refused.
    pub fn next_message(&mut self) -> Result<Option<Vec<u8>>, TransferError>
        ensures message { IfOk result (λ found. Sends (sending S.left self.old)
            (option_map (λ bytes. bytes.items) found) (sending S.left self.new)) }
        ensures too_long { result ≡ Err TransferError.TooLong
            → IsStuck (sending S.left self.old) }
        ensures err { OnErr result (sending S.left self.new ≡ sending S.left self.old) }
    {
        let room = room_for(self.queries, self.dnssec_ok);
        let (batch, left) = self.records.split_front(self.alloc, room)?;
        if batch.is_empty() {
            return self.end();
        }
        let message = TransferMessage {
            metadata: self.metadata,
            queries: self.queries,
            records: batch.as_slice(),
            edns: edns_of(self.alloc, self.dnssec_ok),
        };
        let bytes = message.encode(self.alloc)?;
        self.queries = &[];
        self.records = left;
        Ok(Some(bytes))
    }

    /// Returns `None` if no record is left, and otherwise the error of one that has no room.
    fn end(&mut self) -> Result<Option<Vec<u8>>, TransferError>
        ensures none { IfOk result (λ found. (found ≡ None)
            × (((sending S.left self.old).records ≡ []) × (sending S.left self.new ≡ sending S.left self.old))) }
        ensures too_long { result ≡ Err TransferError.TooLong
            → 0 < length (sending S.left self.old).records }
        ensures err { OnErr result (sending S.left self.new ≡ sending S.left self.old) }
    {
        match self.records.peek() {
            None => Ok(None),
            Some(_record) => Err(TransferError::TooLong),
        }
    }

    /// Returns all messages that are left.
    ///
    /// # Errors
    ///
    /// - [`TransferError::TooLong`] if a record has no room in a message;
    /// - [`TransferError::Memory`] if memory is refused.
    pub fn into_messages(mut self) -> Result<Vec<Vec<u8>>, TransferError>
        ensures messages { IfOk result (λ messages. SendsAll (sending S.left self.entry)
            (map (λ bytes. bytes.items) messages.items)) }
        ensures too_long { result ≡ Err TransferError.TooLong
            → CannotSend (sending S.left self.entry) }
    {
        let mut messages = Vec::new(self.alloc);
        loop {
            match self.next_message()? {
                Some(message) => messages.push(message)?,
                None => return Ok(messages),
            }
        }
    }
}
