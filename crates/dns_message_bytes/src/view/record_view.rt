//! Records, borrowed from a message (RFC 1035 section 4.1.3).

ghost use Rattle.std.specs.Prelude.{◌≡◌, ◌<◌, ◌+◌, length, None, Err, IfOk, IfErr, IfSome, OnErr};
ghost use Rattle.dns_wire.specs.Decoder.{rest};
ghost use Rattle.dns_records.specs.RecordHead.{class_for};

use crate::view::name_view::NameView;
use dns_wire::laws::{class_number_round_trips, type_number_round_trips};
use dns_wire::{BinDecoder, DNSClass, DecodeError, RecordType};

/// A record, borrowed from a message (RFC 1035 section 4.1.3). Its data is not decoded.
#[derive(Drop)]
pub struct RecordView<'a> {
    /// The owner.
    pub name: NameView<'a>,
    /// TYPE: the type of the data.
    pub record_type: RecordType,
    /// CLASS. In an OPT record it is the payload size, which is at least 512 (RFC 6891 section 6.2.3).
    pub dns_class: DNSClass,
    /// TTL: how long the record may be cached, in seconds.
    pub ttl: u32,
    /// RDATA, as it is encoded. Names in it may be compressed.
    pub data: &'a [u8],
}

/// What is between the owner of a record and its data.
#[derive(Clone, Copy)]
struct Fields {
    record_type: u16,
    class: u16,
    ttl: u32,
    len: u16,
}

impl<'a> RecordView<'a> {
    ghost use Rattle.dns_message_bytes.specs.view.RecordView.{RawRecord, ReadsRaw, RefusesRaw, IsRecordOf};

    /// Reads a record in place, and advances past it. On an error the decoder is unchanged.
    ///
    /// A head is refused with the error of `RecordHead::read`, and [`DecodeError::InsufficientBytes`] is returned if fewer
    /// bytes follow it than the data takes. The data may be of any form.
    pub fn read(decoder: &mut BinDecoder<'a>) -> Result<RecordView<'a>, DecodeError>
        ensures read { IfOk result (λ view. (r : RawRecord)
            × (ReadsRaw decoder.old.bytes decoder.old.index r decoder.new.index
            × IsRecordOf view r)) }
        ensures refused { IfErr result (λ error.
            RefusesRaw decoder.old.bytes decoder.old.index error) }
        ensures fault { (error : DecodeError)
            → RefusesRaw decoder.old.bytes decoder.old.index error → result ≡ Err error }
        ensures bytes { decoder.new.bytes ≡ decoder.old.bytes }
        ensures err { OnErr result (decoder.new ≡ decoder.old) }
    {
        let mut reader = decoder.clone(decoder.index());
        match RecordView::read_on(&mut reader) {
            Ok(view) => {
                *decoder = reader;
                Ok(view)
            }
            Err(error) => Err(error),
        }
    }

    /// Reads a record. A failed read may advance the decoder.
    fn read_on(decoder: &mut BinDecoder<'a>) -> Result<RecordView<'a>, DecodeError>
        ensures read { IfOk result (λ view. (r : RawRecord)
            × (ReadsRaw decoder.old.bytes decoder.old.index r decoder.new.index
            × IsRecordOf view r)) }
        ensures refused { IfErr result (λ error.
            RefusesRaw decoder.old.bytes decoder.old.index error) }
        ensures bytes { decoder.new.bytes ≡ decoder.old.bytes }
    {
        type_number_round_trips();
        class_number_round_trips();
        let name = match NameView::read(decoder) {
            Ok(name) => name,
            Err(error) => return Err(error),
        };
        let Some(fields) = read_fields(decoder) else {
            return Err(DecodeError::InsufficientBytes);
        };
        let Ok(data) = decoder.read_slice(usize::from(fields.len)) else {
            return Err(DecodeError::InsufficientBytes);
        };
        let record_type = RecordType::from(fields.record_type);
        Ok(RecordView {
            name,
            record_type,
            dns_class: class_of(record_type, fields.class),
            ttl: fields.ttl,
            data,
        })
    }
}

ghost use Rattle.dns_message_bytes.specs.view.internal.RecordFields.{fields_form, FitFields};

/// Reads type, class, TTL and the length of the data. Returns `None` if there are too few bytes.
fn read_fields(decoder: &mut BinDecoder<'_>) -> Option<Fields>
    ensures read { IfSome result (λ fields.
        rest decoder.old ≡ fields_form fields (rest decoder.new)) }
    ensures fit { IfSome result FitFields }
    ensures index { IfSome result (λ _. decoder.new.index ≡ decoder.old.index + 10) }
    ensures none { result ≡ None → length (rest decoder.old) < 10 }
    ensures bytes { decoder.new.bytes ≡ decoder.old.bytes }
{
    let Ok(record_type) = decoder.read_u16() else {
        return None;
    };
    let Ok(class) = decoder.read_u16() else {
        return None;
    };
    let Ok(ttl) = decoder.read_u32() else {
        return None;
    };
    let Ok(len) = decoder.read_u16() else {
        return None;
    };
    Some(Fields {
        record_type,
        class,
        ttl,
        len,
    })
}

/// Returns the class that a number stands for in a record of a type.
fn class_of(record_type: RecordType, number: u16) -> DNSClass
    ensures { result ≡ class_for record_type number }
{
    match record_type {
        RecordType::OPT => DNSClass::for_opt(number),
        _ => DNSClass::from(number),
    }
}
