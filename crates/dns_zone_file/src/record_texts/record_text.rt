//! Owners, types, data and records, as `Display` writes them.

ghost use Rattle.std.specs.Prelude.{◌≡◌, Some};
ghost use Rattle.std.specs.Fmt.{WritesOnOk};
ghost use Rattle.dns_zone_file.specs.declared.types.Types.TheVariants.{All};
ghost use Rattle.dns_zone_file.specs.record_texts.RecordText.{data_as_read, owner_text, record_text, type_as_read};

use crate::Types;
use dns_data::RData;
use dns_formats::{DataText, TypeWord};
use dns_names::Name;
use dns_records::Record;
use dns_wire::RecordType;
use std::fmt;

/// The owner of a record. A name without labels is the root, qualified or not.
#[derive(Clone, Copy)]
pub struct OwnerText<'a> {
    /// The owner.
    pub name: &'a Name,
}

/// A type, by a name or by its number (RFC 3597 section 5).
#[derive(Clone, Copy)]
pub struct TypeText {
    /// Which types have names.
    pub types: Types,
    /// The type.
    pub record_type: RecordType,
}

/// The data of a record, by the format of its type or in the generic form (RFC 3597 section 5).
#[derive(Clone, Copy)]
pub struct RDataText<'a> {
    /// Which types have formats.
    pub types: Types,
    /// The data.
    pub rdata: &'a RData,
}

/// A record, as on a line of a zone file: `a.t. 60 IN A 10.0.0.1` (RFC 1035 section 5.1).
#[derive(Clone, Copy)]
pub struct RecordText<'a> {
    /// Which types have names and formats.
    pub types: Types,
    /// The record.
    pub record: &'a Record,
}

impl fmt::Display for OwnerText<'_> {
    ghost output = { λ owner. Some (owner_text owner.name.now) };

    fn fmt<W: fmt::Write>(&self, f: &mut fmt::Formatter<W>) -> fmt::Result {
        let name = self.name;
        // The root byte alone: no label.
        if name.encoded_len() == 1 {
            f.write_str(".")
        } else {
            write!(f, "{name}")
        }
    }
}

impl fmt::Display for TypeText {
    ghost output = { λ shown. Some (type_as_read shown.types shown.record_type) };

    fn fmt<W: fmt::Write>(&self, f: &mut fmt::Formatter<W>) -> fmt::Result {
        match self.types {
            Types::Nine => {
                // The type under the name that its number is read as.
                let record_type = self.record_type.canonical();
                write!(f, "{record_type}")
            }
            Types::All => {
                let number = u16::from(self.record_type);
                let word = TypeWord { number };
                write!(f, "{word}")
            }
        }
    }
}

impl fmt::Display for RDataText<'_> {
    ghost output = { λ shown. Some (data_as_read shown.types shown.rdata.now) };

    fn fmt<W: fmt::Write>(&self, f: &mut fmt::Formatter<W>) -> fmt::Result {
        match self.types {
            Types::Nine => {
                let rdata = self.rdata;
                write!(f, "{rdata}")
            }
            Types::All => write_formatted(self.rdata, f),
        }
    }
}

/// Writes data by the format of its type, if it is bytes.
fn write_formatted<W: fmt::Write>(found: &RData, f: &mut fmt::Formatter<W>) -> fmt::Result
    ensures { WritesOnOk W.write_str_gives f.old result (data_as_read All found.now) f.new }
{
    match found {
        RData::Unknown { code, rdata } => {
            let text = DataText {
                record_type: *code,
                bytes: rdata.as_slice(),
            };
            write!(f, "{text}")
        }
        RData::A(_)
        | RData::AAAA(_)
        | RData::CNAME(_)
        | RData::NS(_)
        | RData::PTR(_)
        | RData::MX(_)
        | RData::SOA(_)
        | RData::SRV(_)
        | RData::TXT(_)
        | RData::OPT(_)
        | RData::Update0(_) => write!(f, "{found}"),
    }
}

impl fmt::Display for RecordText<'_> {
    ghost output = { λ shown. Some (record_text shown.types shown.record.now) };

    fn fmt<W: fmt::Write>(&self, f: &mut fmt::Formatter<W>) -> fmt::Result {
        let owner = OwnerText {
            name: &self.record.name,
        };
        let ttl = self.record.ttl;
        let record_type = TypeText {
            types: self.types,
            record_type: self.record.rdata.record_type(),
        };
        let rdata = RDataText {
            types: self.types,
            rdata: &self.record.rdata,
        };
        write!(f, "{owner} {ttl} IN {record_type} {rdata}")
    }
}
