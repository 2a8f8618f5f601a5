//! The additional section of an answer with many records, whose sets are found through an index.

ghost use Rattle.std.specs.Prelude.{◌≡◌, ◌++◌, [], IfOk};
ghost use Rattle.dns_authority.specs.Additional.{host_of, rows_by, with_host, with_host_of, with_hosts, with_set};
ghost use Rattle.dns_authority.specs.SetIndex.{IsIndexOf, Grows};

use crate::additional::{HostKind, host_of, host_records};
use crate::copies::{copies, joined};
use crate::set_index::SetIndex;
use dns_data::RData;
use dns_names::Name;
use dns_records::{Record, Sequence};
use dns_server::ZoneTable;
use dns_wire::RecordType;
use std::alloc::{AllocError, Global};

/// An additional section that grows, with an index of its sets and of those of the answer section.
pub(crate) struct Section {
    records: Sequence<Record>,
    index: SetIndex,
}

impl Drop for Section {
    fn drop(self) {
        let Section { records, index } = self;
        drop(records);
        drop(index);
    }
}

impl Section {
    /// Creates an additional section without records, beside an answer section.
    pub(crate) fn new(alloc: Global, answers: &[Record]) -> Result<Section, AllocError>
        ensures empty { IfOk result (λ section. section.records ≡ []) }
        ensures index { IfOk result (λ section.
            IsIndexOf section.index answers.now section.records) }
    {
        let mut index = SetIndex::new(alloc);
        index.add_all(answers)?;
        Ok(Section {
            records: Sequence::new(alloc),
            index,
        })
    }

    /// Returns the records.
    pub(crate) fn into_records(self) -> Sequence<Record>
        ensures { result ≡ self.records }
    {
        let Section {
            records,
            index: _index,
        } = self;
        records
    }

    /// Adds the addresses of the hosts that some records name.
    pub(crate) fn with_hosts(
        self,
        alloc: Global,
        zones: &ZoneTable,
        kind: HostKind,
        naming: &[Record],
    ) -> Result<Section, AllocError>
        ensures { IfOk result (λ grown. Grows self (λ answers records.
            with_hosts (rows_by kind zones.now) answers records naming.now) grown) }
    {
        let mut section = self;
        for record in naming {
            section = section.with_host_of(alloc, zones, kind, &record.rdata)?;
        }
        Ok(section)
    }

    /// Adds the addresses of the host that data names, if it names one.
    fn with_host_of(
        self,
        alloc: Global,
        zones: &ZoneTable,
        kind: HostKind,
        rdata: &RData,
    ) -> Result<Section, AllocError>
        ensures { IfOk result (λ grown. Grows self (λ answers records.
            with_host_of (rows_by kind zones.now) answers records (host_of rdata.now)) grown) }
    {
        match host_of(rdata) {
            Some(host) => self.with_host(alloc, zones, kind, host),
            None => Ok(self),
        }
    }

    /// Adds the addresses of a host.
    fn with_host(
        self,
        alloc: Global,
        zones: &ZoneTable,
        kind: HostKind,
        host: &Name,
    ) -> Result<Section, AllocError>
        ensures { IfOk result (λ grown. Grows self (λ answers records.
            with_host (rows_by kind zones.now) answers records host.now) grown) }
    {
        let section = self.with_set(alloc, zones, kind, host, RecordType::A)?;
        let section = section.with_set(alloc, zones, kind, host, RecordType::AAAA)?;
        Ok(section)
    }

    /// Adds the records of a host and a type, unless the section or the answer section has them.
    fn with_set(
        self,
        alloc: Global,
        zones: &ZoneTable,
        kind: HostKind,
        host: &Name,
        record_type: RecordType,
    ) -> Result<Section, AllocError>
        ensures { IfOk result (λ grown. Grows self (λ answers records.
            with_set answers records host.now record_type
            (rows_by kind zones.now host.now record_type)) grown) }
    {
        if self.index.contains(host, record_type) {
            return Ok(self);
        }
        let stored = host_records(zones, kind, host, record_type)?;
        let grown = self.with_records(copies(alloc, host, stored)?)?;
        Ok(grown)
    }

    /// Adds records.
    fn with_records(self, further: Sequence<Record>) -> Result<Section, AllocError>
        ensures { IfOk result (λ grown.
            Grows self (λ answers records. records ++ further) grown) }
    {
        let Section { records, index } = self;
        let mut index = index;
        index.add_all(further.as_slice())?;
        Ok(Section {
            records: joined(records, further)?,
            index,
        })
    }
}
