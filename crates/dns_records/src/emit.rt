//! Records of borrowed parts, encoded.

ghost use Rattle.std.specs.Prelude.{IsOk};
ghost use Rattle.dns_wire.specs.Encoder.{state_of, IsAtEnd};
ghost use Rattle.dns_wire.specs.Encodable.{position_of, Emits, AreWritable};
ghost use Rattle.dns_records.specs.Emit.{fixed_pieces, pieces_behind_owner};

use dns_wire::{BinEncodable, BinEncoder, DNSClass, EncodeError, Place, RecordType};

/// Writes what follows the owner of a record: type, class, TTL, and the length and encoding of its data (RFC 1035
/// section 4.1.3).
pub fn emit_behind_owner<D: BinEncodable>(
    record_type: RecordType,
    dns_class: DNSClass,
    ttl: u32,
    rdata: &D,
    encoder: &mut BinEncoder<'_>,
) -> Result<(), EncodeError>
    requires { IsAtEnd (state_of encoder.old) }
    ensures emits { Emits (state_of encoder.old)
        (pieces_behind_owner (position_of (state_of encoder.old)) record_type dns_class ttl
        (D.pieces rdata.now)) result (state_of encoder.new) }
    ensures writable { IsOk result
        → AreWritable (pieces_behind_owner (position_of (state_of encoder.old))
        record_type dns_class ttl (D.pieces rdata.now)) }
{
    emit_fixed(record_type, dns_class, ttl, encoder)?;
    let place: Place<u16> = encoder.place()?;
    rdata.emit(encoder)?;
    let len = encoder.len_since_place(&place);
    place.replace(encoder, len as u16)
}

/// Writes type, class and TTL.
fn emit_fixed(
    record_type: RecordType,
    dns_class: DNSClass,
    ttl: u32,
    encoder: &mut BinEncoder<'_>,
) -> Result<(), EncodeError>
    requires { IsAtEnd (state_of encoder.old) }
    ensures { Emits (state_of encoder.old) (fixed_pieces record_type dns_class ttl)
        result (state_of encoder.new) }
{
    encoder.emit_u16(u16::from(record_type))?;
    encoder.emit_u16(u16::from(dns_class))?;
    encoder.emit_u32(ttl)
}
