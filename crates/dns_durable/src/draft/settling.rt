//! Sets are written ahead of their turn, when updates are about to change them.

ghost use Rattle.std.specs.Prelude.{◌≡◌, true, OnOk};
ghost use Rattle.std.specs.List.{AllByRecursion};
ghost use Rattle.dns_updates.specs.Keys.{owner_code, type_code};
ghost use Rattle.dns_zone.specs.Rows.{ZoneContent};
ghost use Rattle.dns_durable.specs.Draft.{AreSettledFor, IsDraftOf, IsSettledFor, IsSettledForOne, deletes_owner, is_settled};
ghost use Rattle.dns_durable.specs.internal.Drafting.{AreOwnersSettled, GoesOn, IsReadyFor};

use crate::draft::{Draft, DraftFault, Progress};
use crate::incoming::{Admitted, Arrived, Batch};
use dns_messages::Message;
use dns_names::Name;
use dns_records::Record;
use dns_server::Server;
use dns_updates::{SetKey, set_key};
use dns_wire::{DNSClass, RecordType};
use dns_zone::Zone;
use std::cmp::Ordering;

/// Has the sets written that the updates of a batch are about to change, if a text is being written. It is given up if that fails.
pub(crate) fn settle_updates(progress: &mut Progress, server: &Server, batch: &Batch<'_>)
    ensures { (base : ZoneContent) → IsReadyFor base server.now batch.now.admitted.items
        progress.old progress.new }
{
    if let Progress::Writing(draft) = progress {
        match server.zones() {
            [zone] => {
                if let Err(fault) = draft.settle_all(zone, batch.admitted.as_slice()) {
                    *progress = Progress::GivenUp(fault);
                }
            }
            // The text is that of the only zone.
            _ => *progress = Progress::Idle,
        }
    }
}

impl Draft {
    /// Writes the sets that the updates of requests are about to change, unless they are written.
    fn settle_all(&mut self, zone: &Zone, admitted: &[Arrived<'_>]) -> Result<(), DraftFault>
        ensures goes_on { OnOk result (GoesOn zone.now self.old self.new) }
        ensures settled { OnOk result
            (AreSettledFor (is_settled self.new) zone.now.rows admitted.now) }
    {
        for arrived in admitted {
            self.settle_one(zone, arrived)?;
        }
        Ok(())
    }

    /// Writes the sets that a request is about to change, unless they are written.
    fn settle_one(&mut self, zone: &Zone, arrived: &Arrived<'_>) -> Result<(), DraftFault>
        ensures goes_on { OnOk result (GoesOn zone.now self.old self.new) }
        ensures settled { OnOk result
            (IsSettledForOne (is_settled self.new) zone.now.rows arrived.now) }
    {
        match arrived {
            Arrived::Request(admitted) if admitted.is_change() => {
                self.settle_update(zone, admitted.message.authorities.as_slice())
            }
            _ => Ok(()),
        }
    }

    /// Writes the sets that the records of an update section are about to change, unless they are written.
    fn settle_update(&mut self, zone: &Zone, updates: &[Record]) -> Result<(), DraftFault>
        ensures goes_on { OnOk result (GoesOn zone.now self.old self.new) }
        ensures settled { OnOk result (AllByRecursion
            (IsSettledFor (is_settled self.new) zone.now.rows) updates.now) }
    {
        for update in updates {
            self.settle_record(zone, update)?;
        }
        Ok(())
    }

    /// Writes the sets that a record of an update section is about to change, unless they are written.
    fn settle_record(&mut self, zone: &Zone, update: &Record) -> Result<(), DraftFault>
        ensures goes_on { OnOk result (GoesOn zone.now self.old self.new) }
        ensures settled { OnOk result
            (IsSettledFor (is_settled self.new) zone.now.rows update.now) }
    {
        self.settle(zone, &update.name, update.record_type())?;
        if deletes_owner(update) {
            self.settle_owner(zone, &update.name)?;
        }
        Ok(())
    }

    /// Writes the sets of an owner, unless they are written.
    fn settle_owner(&mut self, zone: &Zone, owner: &Name) -> Result<(), DraftFault>
        ensures goes_on { OnOk result (GoesOn zone.now self.old self.new) }
        ensures settled { OnOk result
            (AreOwnersSettled owner.now (is_settled self.new) zone.now.rows) }
    {
        let mut types = zone.types_at(owner)?;
        while let Some(record_type) = types.pop() {
            self.settle(zone, owner, record_type)?;
        }
        Ok(())
    }

    /// Writes a set, if there is one, unless it is written.
    fn settle(
        &mut self,
        zone: &Zone,
        owner: &Name,
        record_type: RecordType,
    ) -> Result<(), DraftFault>
        ensures goes_on { OnOk result (GoesOn zone.now self.old self.new) }
        ensures settled { OnOk result (is_settled self.new
            (owner_code owner.now.labels, type_code record_type) ≡ true) }
    {
        let key = set_key(owner, record_type);
        if self.has_settled(&key) {
            return Ok(());
        }
        self.ahead.insert(key)?;
        match zone.record_set(owner, record_type) {
            Some(set) => self.write_set(set),
            None => Ok(()),
        }
    }

    /// Returns `true` if the set at a key had its turn, or was looked at ahead of it.
    fn has_settled(&self, key: &SetKey) -> bool
        ensures { result ≡ is_settled self.now key.now }
    {
        self.is_whole || key.cmp(&self.place) != Ordering::Greater || self.ahead.contains(key)
    }
}

/// Returns `true` for a record that deletes all sets of its owner (RFC 2136 section 2.5.3).
fn deletes_owner(update: &Record) -> bool
    ensures { result ≡ deletes_owner update.now }
{
    matches!(update.dns_class, DNSClass::ANY) && RecordType::ANY == update.record_type()
}
