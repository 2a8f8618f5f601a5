//! The records of one message.

ghost use Rattle.dns_transfers.specs.Records.{batch_records};

use crate::lent_record::LentRecord;
use dns_messages::EmitAndCount;
use dns_records::Record;
use dns_wire::{BinEncoder, EncodeError, emit_fitting};

/// Borrowed records as the answer section of a message.
#[derive(Clone, Copy, Drop)]
pub(crate) struct Batch<'b, 'a> {
    pub(crate) records: &'b [LentRecord<'a>],
}

impl EmitAndCount for Batch<'_, '_> {
    type Item = Record;

    ghost items = { batch_records };

    fn len(&self) -> usize {
        self.records.len()
    }

    fn emit(&mut self, encoder: &mut BinEncoder<'_>) -> Result<usize, EncodeError> {
        emit_fitting(self.records, encoder)
    }
}
