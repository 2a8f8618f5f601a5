//! Records that are borrowed with an owner.

ghost use Rattle.std.specs.Prelude.{◌≡◌, ◌+◌, ◌<◌, IfSome, None};
ghost use Rattle.dns_message_bytes.specs.soundness.Size.{record_len};
ghost use Rattle.dns_transfers.specs.Records.{lent_record, owned_record};

use dns_names::Name;
use dns_records::{Record, emit_behind_owner};
use dns_wire::{BinEncodable, BinEncoder, DNSClass, EncodeError};

/// The length of type, class, TTL and data length of a record, in bytes (RFC 1035 section 4.1.3).
const RECORD_FIELDS_LEN: u128 = 10;

/// A record of the class `IN`, whose owner, TTL and data are borrowed.
#[derive(Clone, Copy, Drop)]
pub struct LentRecord<'a> {
    owner: &'a Name,
    stored: &'a Record,
}

impl<'a> LentRecord<'a> {
    /// Creates the record that has this owner, and the TTL and the data of a record.
    pub fn new(owner: &'a Name, stored: &'a Record) -> LentRecord<'a>
        ensures { lent_record result ≡ owned_record owner.now stored.now }
    {
        LentRecord { owner, stored }
    }

    /// Returns how much of `room` bytes is left after the record without compression (RFC 1035 section 4.1.4), or `None` if
    /// it has no room.
    pub(crate) fn room_after(&self, room: usize) -> Option<usize>
        ensures some { IfSome result (λ left. left + record_len (lent_record self.now) ≡ room) }
        ensures none { result ≡ None → room < record_len (lent_record self.now) }
    {
        let head_len = self.owner.encoded_len() as u128 + RECORD_FIELDS_LEN;
        let left = left_after(room, head_len)?;
        left_after(left, self.stored.rdata.encoded_len())
    }
}

impl BinEncodable for LentRecord<'_> {
    ghost use Rattle.dns_records.specs.Record.{record_pieces};
    ghost use Rattle.dns_transfers.specs.Records.{lent_record};

    ghost pieces = { λ r s. record_pieces s (lent_record r) };

    fn emit(&self, encoder: &mut BinEncoder<'_>) -> Result<(), EncodeError> {
        let kind = self.stored.rdata.record_type();
        self.owner.emit(encoder)?;
        emit_behind_owner(
            kind,
            DNSClass::IN,
            self.stored.ttl,
            &self.stored.rdata,
            encoder,
        )
    }
}

/// Returns how many of `room` bytes are left after `len` bytes.
fn left_after(room: usize, len: u128) -> Option<usize>
    ensures some { IfSome result (λ left. left + len ≡ room) }
    ensures none { result ≡ None → room < len }
{
    if len > room as u128 {
        return None;
    }
    Some(room - len as usize)
}
