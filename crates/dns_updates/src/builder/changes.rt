//! The changes, which are made in their order (RFC 2136 section 2.5).

ghost use Rattle.std.specs.Prelude.{◌≡◌, OnOk, OnErr};
ghost use Rattle.dns_wire.specs.declared.codes.dns_class.DNSClass.TheVariants as classes;
ghost use Rattle.dns_wire.specs.declared.codes.record_type.RecordType.TheVariants as types;
ghost use Rattle.dns_updates.specs.Builders.{empty_record};
ghost use Rattle.dns_updates.specs.builder.Builder.{data_record, with_change};

use crate::builder::builder::UpdateBuilder;
use crate::builder::item::empty_record;
use dns_data::RData;
use dns_messages::Record;
use dns_names::Name;
use dns_wire::{DNSClass, RecordType};
use std::alloc::AllocError;

impl UpdateBuilder {
    /// Adds a record, with a TTL in seconds (RFC 2136 section 2.5.1).
    pub fn add(&mut self, name: Name, ttl: u32, rdata: RData) -> Result<(), AllocError>
        ensures ok { OnOk result (self.new
            ≡ with_change (data_record self.old.dns_class name ttl rdata) self.old) }
        ensures err { OnErr result (self.new ≡ self.old) }
    {
        let dns_class = self.dns_class;
        self.changes.push(Record {
            name,
            dns_class,
            ttl,
            rdata,
        })?;
        Ok(())
    }

    /// Deletes the record of a name with this data, whatever its TTL (RFC 2136 section 2.5.4).
    pub fn delete_record(&mut self, name: Name, rdata: RData) -> Result<(), AllocError>
        ensures ok { OnOk result (self.new
            ≡ with_change (data_record classes.NONE name 0 rdata) self.old) }
        ensures err { OnErr result (self.new ≡ self.old) }
    {
        self.changes.push(Record {
            name,
            dns_class: DNSClass::NONE,
            ttl: 0,
            rdata,
        })?;
        Ok(())
    }

    /// Deletes the records of a name and a type (RFC 2136 section 2.5.2).
    pub fn delete_rrset(&mut self, name: Name, record_type: RecordType) -> Result<(), AllocError>
        ensures ok { OnOk result (self.new
            ≡ with_change (empty_record classes.ANY name record_type) self.old) }
        ensures err { OnErr result (self.new ≡ self.old) }
    {
        self.changes
            .push(empty_record(DNSClass::ANY, name, record_type))?;
        Ok(())
    }

    /// Deletes all records of a name (RFC 2136 section 2.5.3).
    pub fn delete_name(&mut self, name: Name) -> Result<(), AllocError>
        ensures ok { OnOk result (self.new
            ≡ with_change (empty_record classes.ANY name types.ANY) self.old) }
        ensures err { OnErr result (self.new ≡ self.old) }
    {
        self.changes
            .push(empty_record(DNSClass::ANY, name, RecordType::ANY))?;
        Ok(())
    }
}
