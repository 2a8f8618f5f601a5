//! What precedes the data of a record (RFC 1035 section 4.1.3).

ghost use Rattle.std.specs.Prelude.{◌≡◌, ◌≢◌, ◌<◌, [], ◌∷◌, true, length, drop, IfOk, IfErr, IsOk, OnErr, Err};
ghost use Rattle.dns_records.specs.RecordHead.{class_for};

use crate::record::Record;
use dns_data::RData;
use dns_names::Name;
use dns_wire::codes::laws::{class_number_round_trips, type_number_round_trips};
use dns_wire::{BinDecodable, BinDecoder, DNSClass, DecodeError, RecordType};
use std::alloc::Global;

/// The owner, type, class and TTL of a record, and the length of its data (RFC 1035 section 4.1.3).
#[derive(Drop)]
pub struct RecordHead {
    /// The owner.
    pub name: Name,
    pub record_type: RecordType,
    pub dns_class: DNSClass,
    /// How long the record may be cached, in seconds.
    pub ttl: u32,
    /// The length of the data, in bytes.
    pub len: u16,
}

impl RecordHead {
    ghost use Rattle.dns_wire.specs.codes.DNSClass.{class_number};
    ghost use Rattle.dns_wire.specs.Element.{element_at};
    ghost use Rattle.dns_records.specs.RecordHead.{ReadsHead, RefusesHead};
    ghost use Rattle.dns_data.specs.Field.{Opaque};
    ghost use Rattle.dns_data.specs.Memory.{are_fixed};
    ghost use Rattle.dns_data.specs.rdata.{kinds_of_number};
    ghost use Rattle.dns_records.specs.Record.{ReadsDataOf, RefusesDataOf, RefusesDataOfEarly};

    /// Reads owner, type, class, TTL and the length of the data. A failed read leaves the decoder unchanged.
    ///
    /// An OPT record has the class [`DNSClass::OPT`], whose payload size is at least 512 (RFC 6891 section 6.2.3). A fault of
    /// the first element of the owner is found before memory is taken.
    pub fn read(alloc: Global, decoder: &mut BinDecoder<'_>) -> Result<RecordHead, DecodeError>
        ensures read { IfOk result (λ head.
            ReadsHead decoder.old.bytes decoder.old.index head decoder.new.index) }
        ensures refused { IfErr result (λ error. error ≢ DecodeError.Memory
            → RefusesHead decoder.old.bytes decoder.old.index error) }
        ensures fault { (error : DecodeError)
            → element_at decoder.old.bytes decoder.old.index ≡ Err error → result ≡ Err error }
        ensures bytes { decoder.new.bytes ≡ decoder.old.bytes }
        ensures err { OnErr result (decoder.new ≡ decoder.old) }
    {
        let mut reader = decoder.clone(decoder.index());
        let head = RecordHead::read_on(alloc, &mut reader)?;
        *decoder = reader;
        Ok(head)
    }

    /// Reads a head. A failed read may advance the decoder.
    fn read_on(alloc: Global, decoder: &mut BinDecoder<'_>) -> Result<RecordHead, DecodeError>
        ensures read { IfOk result (λ head.
            ReadsHead decoder.old.bytes decoder.old.index head decoder.new.index) }
        ensures refused { IfErr result (λ error. error ≢ DecodeError.Memory
            → RefusesHead decoder.old.bytes decoder.old.index error) }
        ensures fault { (error : DecodeError)
            → element_at decoder.old.bytes decoder.old.index ≡ Err error → result ≡ Err error }
        ensures bytes { decoder.new.bytes ≡ decoder.old.bytes }
    {
        type_number_round_trips();
        class_number_round_trips();
        let name = Name::read(alloc, decoder)?;
        let record_type = RecordType::from(u16::read(alloc, decoder)?);
        let dns_class = class_of_type(record_type, u16::read(alloc, decoder)?);
        let ttl = u32::read(alloc, decoder)?;
        let len = u16::read(alloc, decoder)?;
        Ok(RecordHead {
            name,
            record_type,
            dns_class,
            ttl,
            len,
        })
    }

    /// Reads the data of the record, which takes exactly its length. A failed read leaves the decoder unchanged. Data without
    /// bytes takes no memory, and neither do numbers and addresses.
    pub fn read_data(
        self,
        alloc: Global,
        decoder: &mut BinDecoder<'_>,
    ) -> Result<Record, DecodeError>
        ensures read { IfOk result (λ found. ReadsDataOf decoder.old.bytes decoder.old.index
            self found decoder.new.index) }
        ensures refused { IfErr result (λ error. error ≢ DecodeError.Memory
            → RefusesDataOf decoder.old.bytes decoder.old.index self error) }
        ensures empty { self.len ≡ 0 → IsOk result }
        ensures fixed { are_fixed (kinds_of_number self.record_type) ≡ true
            → IfErr result (λ error. error ≢ DecodeError.Memory) }
        ensures fault { (error : DecodeError)
            → RefusesDataOfEarly decoder.old.bytes decoder.old.index self error
            → result ≡ Err error }
        ensures opaque { kinds_of_number self.record_type ≡ Opaque ∷ []
            → length (drop decoder.old.index decoder.old.bytes) < self.len
            → result ≡ Err DecodeError.InsufficientBytes }
        ensures bytes { decoder.new.bytes ≡ decoder.old.bytes }
        ensures err { OnErr result (decoder.new ≡ decoder.old) }
    {
        let rdata = RData::read(alloc, decoder, self.record_type, self.len)?;
        Ok(Record {
            name: self.name,
            dns_class: self.dns_class,
            ttl: self.ttl,
            rdata,
        })
    }
}

/// Returns the class that a number stands for in a record of a type.
fn class_of_type(record_type: RecordType, number: u16) -> DNSClass
    ensures { result ≡ class_for record_type number }
{
    match record_type {
        RecordType::OPT => DNSClass::for_opt(number),
        _ => DNSClass::from(number),
    }
}
