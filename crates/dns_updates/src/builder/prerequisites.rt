//! The prerequisites (RFC 2136 section 2.4). All of them must hold, or nothing is changed.

ghost use Rattle.std.specs.Prelude.{◌≡◌, OnOk, OnErr};
ghost use Rattle.dns_wire.specs.declared.codes.dns_class.DNSClass.TheVariants as classes;
ghost use Rattle.dns_wire.specs.declared.codes.record_type.RecordType.TheVariants as types;
ghost use Rattle.dns_updates.specs.Builders.{empty_record};
ghost use Rattle.dns_updates.specs.builder.Builder.{data_record, with_prerequisite};

use crate::builder::builder::UpdateBuilder;
use crate::builder::item::empty_record;
use dns_data::RData;
use dns_messages::Record;
use dns_names::Name;
use dns_wire::{DNSClass, RecordType};
use std::alloc::AllocError;

impl UpdateBuilder {
    /// Requires that a name is in use, that is, has records of any type (RFC 2136 section 2.4.4). Else the server answers NXDOMAIN.
    pub fn require_name(&mut self, name: Name) -> Result<(), AllocError>
        ensures ok { OnOk result (self.new
            ≡ with_prerequisite (empty_record classes.ANY name types.ANY) self.old) }
        ensures err { OnErr result (self.new ≡ self.old) }
    {
        self.prerequisites
            .push(empty_record(DNSClass::ANY, name, RecordType::ANY))?;
        Ok(())
    }

    /// Requires that a name is not in use (RFC 2136 section 2.4.5). Else the server answers YXDOMAIN.
    pub fn forbid_name(&mut self, name: Name) -> Result<(), AllocError>
        ensures ok { OnOk result (self.new
            ≡ with_prerequisite (empty_record classes.NONE name types.ANY) self.old) }
        ensures err { OnErr result (self.new ≡ self.old) }
    {
        self.prerequisites
            .push(empty_record(DNSClass::NONE, name, RecordType::ANY))?;
        Ok(())
    }

    /// Requires that a name has records of a type, with any data (RFC 2136 section 2.4.1). Else the server answers NXRRSET.
    pub fn require_rrset(&mut self, name: Name, record_type: RecordType) -> Result<(), AllocError>
        ensures ok { OnOk result (self.new
            ≡ with_prerequisite (empty_record classes.ANY name record_type) self.old) }
        ensures err { OnErr result (self.new ≡ self.old) }
    {
        self.prerequisites
            .push(empty_record(DNSClass::ANY, name, record_type))?;
        Ok(())
    }

    /// Requires that a name has no records of a type (RFC 2136 section 2.4.3). Else the server answers YXRRSET.
    pub fn forbid_rrset(&mut self, name: Name, record_type: RecordType) -> Result<(), AllocError>
        ensures ok { OnOk result (self.new
            ≡ with_prerequisite (empty_record classes.NONE name record_type) self.old) }
        ensures err { OnErr result (self.new ≡ self.old) }
    {
        self.prerequisites
            .push(empty_record(DNSClass::NONE, name, record_type))?;
        Ok(())
    }

    /// Requires that a name has a record with this data. Those of one name and type are required together: the name must have
    /// records with exactly their data (RFC 2136 section 2.4.2). Else the server answers NXRRSET.
    pub fn require_record(&mut self, name: Name, rdata: RData) -> Result<(), AllocError>
        ensures ok { OnOk result (self.new
            ≡ with_prerequisite (data_record self.old.dns_class name 0 rdata) self.old) }
        ensures err { OnErr result (self.new ≡ self.old) }
    {
        let dns_class = self.dns_class;
        self.prerequisites.push(Record {
            name,
            dns_class,
            ttl: 0,
            rdata,
        })?;
        Ok(())
    }
}
