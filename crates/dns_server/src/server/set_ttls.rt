//! One TTL for the records of a set (RFC 2181 section 5.2): updates, completed before they are applied.

ghost use Rattle.std.specs.Prelude.{◌≡◌, ◌++◌, ◌&&◌, ◌==◌, List, [], ◌∷◌, None, Some, is_none, map, unwrap_or, IfOk, OnOk, if◌then◌else◌};
ghost use Rattle.std.specs.List.{list_all};
ghost use Rattle.dns_records.specs.Record.{Record as RecordValue};
ghost use Rattle.dns_records.specs.Rows.{row_of, set_of};
ghost use Rattle.dns_updates.specs.Keys.{Place};
ghost use Rattle.dns_zone.specs.Answer.{record_of};
ghost use Rattle.dns_wire.specs.codes.RecordType.{type_number};
ghost use Rattle.dns_server.specs.SetTtls.{has_one_ttl, is_addition, last_ttl, restated, restated_rows, with_one_ttl};
ghost use Rattle.dns_server.specs.internal.SetTtls.{is_place, kept_ttl, set_place, ttl_at, with_kept_ttl, AreLastTtls};

use dns_messages::Message;
use dns_records::{Record, Sequence};
use dns_updates::{SetKey, set_key};
use dns_wire::codes::{DNSClass, RecordType};
use dns_zone::Zone;
use std::alloc::{AllocError, Global};
use std::collections::BTreeMap;

/// The TTLs of the last additions to sets, found by owner, up to ASCII case, and type.
struct SetTtls {
    map: BTreeMap<SetKey, u32>,
}

impl Drop for SetTtls {
    fn drop(self) {
        let SetTtls { map } = self;
        drop(map);
    }
}

impl SetTtls {
    /// Creates an empty collection.
    fn new(alloc: Global) -> SetTtls
        ensures { (p : Place) → ttl_at result p ≡ None }
    {
        SetTtls {
            map: BTreeMap::new(alloc),
        }
    }

    /// Returns the TTL that is kept for the set of a record.
    fn get(&self, update: &Record) -> Option<u32>
        ensures { result ≡ ttl_at self.now (set_place update.now) }
    {
        self.map
            .get(&set_key(&update.name, update.record_type()))
            .copied()
    }

    /// Keeps the TTL of an addition for its set.
    fn insert(&mut self, addition: &Record) -> Result<(), AllocError>
        ensures { OnOk result ((p : Place) → ttl_at self.new p
            ≡ (if is_place (set_place addition.now) p then Some addition.now.ttl
            else ttl_at self.old p)) }
    {
        let key = set_key(&addition.name, addition.record_type());
        self.map.insert(key, addition.ttl)?;
        Ok(())
    }

    /// Keeps the TTL of an addition for its set, unless it has one, and returns whether it has kept it.
    fn note(&mut self, update: &Record) -> Result<bool, AllocError>
        ensures noted { IfOk result (λ noted. (more : List RecordValue)
            → AreLastTtls more self.old
            → noted ≡ (is_addition update.now && is_none (last_ttl more update.now))) }
        ensures last { OnOk result ((more : List RecordValue) → AreLastTtls more self.old
            → AreLastTtls (update.now ∷ more) self.new) }
    {
        if !is_addition(update) {
            return Ok(false);
        }
        match self.get(update) {
            Some(_) => Ok(false),
            None => {
                self.insert(update)?;
                Ok(true)
            }
        }
    }
}

/// Completes an update, so that its additions, and the records of the zone in their sets, have one TTL in each set: that of the
/// last addition. Returns `None` if nothing is to be changed, for which no record is copied.
///
/// The cost grows with the update and the sets that it names, and a logarithm.
pub(crate) fn completed(
    alloc: Global,
    zone: &Zone,
    update: &Message,
) -> Result<Option<Message>, AllocError>
    ensures { IfOk result (λ found.
        unwrap_or found update.now ≡ with_one_ttl zone.now.rows update.now) }
{
    let updates = update.authorities.as_slice();
    let mut ttls = SetTtls::new(alloc);
    let mut records = restated(alloc, zone, updates, &mut ttls)?;
    if records.is_empty() && are_kept(&ttls, updates) {
        return Ok(None);
    }
    append_kept(&ttls, updates, &mut records)?;
    let message = with_updates(update, records)?;
    Ok(Some(message))
}

/// Returns the records of a zone that have another TTL than the last addition to their set, as additions with that TTL, and keeps
/// the TTLs of the last additions.
fn restated(
    alloc: Global,
    zone: &Zone,
    updates: &[Record],
    ttls: &mut SetTtls,
) -> Result<Vec<Record>, AllocError>
    requires { (p : Place) → ttl_at ttls.old p ≡ None }
    ensures records { IfOk result (λ records.
        records.items ≡ restated zone.now.rows updates.now) }
    ensures last { OnOk result (AreLastTtls updates.now ttls.new) }
{
    let mut records = Vec::new(alloc);
    let mut end = updates.len();
    while end > 0 {
        let place = end - 1;
        restate_last(zone, &updates[place], ttls, &mut records)?;
        end -= 1;
    }
    Ok(records)
}

/// Appends the records of a zone that an update restates, if no later one adds to its set.
fn restate_last(
    zone: &Zone,
    update: &Record,
    ttls: &mut SetTtls,
    records: &mut Vec<Record>,
) -> Result<(), AllocError>
    ensures records { OnOk result ((more : List RecordValue) → AreLastTtls more ttls.old
        → records.old.items ≡ restated zone.now.rows more
        → records.new.items ≡ restated zone.now.rows (update.now ∷ more)) }
    ensures last { OnOk result ((more : List RecordValue) → AreLastTtls more ttls.old
        → AreLastTtls (update.now ∷ more) ttls.new) }
{
    if ttls.note(update)? {
        restate(zone, update, records)?;
    }
    Ok(())
}

/// Appends the records of a zone in the set of an addition that have another TTL, with its TTL.
fn restate(zone: &Zone, addition: &Record, records: &mut Vec<Record>) -> Result<(), AllocError>
    ensures { OnOk result (records.new.items
        ≡ records.old.items ++ restated_rows addition.now (set_of zone.now.rows addition.now)) }
{
    let stored = zone.records_at(&addition.name, addition.record_type());
    for present in stored {
        restate_record(addition, present, records)?;
    }
    Ok(())
}

/// Appends a record in the set of an addition, if it has another TTL, with its TTL.
fn restate_record(
    addition: &Record,
    present: &Record,
    records: &mut Vec<Record>,
) -> Result<(), AllocError>
    ensures { OnOk result (records.new.items
        ≡ records.old.items ++ restated_rows addition.now (row_of present.now ∷ [])) }
{
    if present.ttl != addition.ttl {
        records.push(restated_record(addition, present)?)?;
    }
    Ok(())
}

/// Copies a record, with the owner and the TTL of an addition.
fn restated_record(addition: &Record, present: &Record) -> Result<Record, AllocError>
    ensures { IfOk result (λ copy. copy ≡ record_of addition.now.name
        (record { ttl = addition.now.ttl; rdata = present.now.rdata })) }
{
    let rdata = present.rdata.clone()?;
    Ok(Record {
        name: addition.name.clone()?,
        dns_class: DNSClass::IN,
        ttl: addition.ttl,
        rdata,
    })
}

/// Returns `true` if each update has the TTL that is kept for its set.
fn are_kept(ttls: &SetTtls, updates: &[Record]) -> bool
    ensures { result ≡ list_all (λ r. kept_ttl ttls.now r == r.ttl) updates.now }
{
    updates
        .iter()
        .all(|update| kept_ttl(ttls, update) == update.ttl)
}

/// Appends updates with the TTLs that are kept for their sets.
fn append_kept(
    ttls: &SetTtls,
    updates: &[Record],
    records: &mut Vec<Record>,
) -> Result<(), AllocError>
    ensures { OnOk result (records.new.items ≡ records.old.items
        ++ map (with_kept_ttl ttls.now) updates.now) }
{
    for update in updates {
        records.push(with_kept_ttl(ttls, update)?)?;
    }
    Ok(())
}

/// Copies an update, with the TTL that is kept for its set.
fn with_kept_ttl(ttls: &SetTtls, update: &Record) -> Result<Record, AllocError>
    ensures { IfOk result (λ copy. copy ≡ with_kept_ttl ttls.now update.now) }
{
    let mut copy = update.clone()?;
    copy.ttl = kept_ttl(ttls, update);
    Ok(copy)
}

/// Returns the TTL of an update: that which is kept for its set, if it is an addition.
fn kept_ttl(ttls: &SetTtls, update: &Record) -> u32
    ensures { result ≡ kept_ttl ttls.now update.now }
{
    if is_addition(update) {
        ttls.get(update).unwrap_or(update.ttl)
    } else {
        update.ttl
    }
}

/// Copies an update, with other records in its update section.
fn with_updates(update: &Message, records: Vec<Record>) -> Result<Message, AllocError>
    ensures { IfOk result (λ copy. copy
        ≡ record update.now { authorities = records.items }) }
{
    let mut copy = update.clone()?;
    copy.authorities = Sequence::from_vec(records);
    Ok(copy)
}

/// Returns `true` for an addition to a set whose records have one TTL.
fn is_addition(update: &Record) -> bool
    ensures { result ≡ is_addition update.now }
{
    match update.dns_class {
        DNSClass::IN => has_one_ttl(update.record_type()),
        _ => false,
    }
}

/// Returns `true` if the records of a set of this type have one TTL. A CNAME or SOA record is alone in its set, an RRSIG record has
/// the TTL of the set that it covers (RFC 4034 section 3), and an addition of a meta type is refused.
fn has_one_ttl(record_type: RecordType) -> bool
    ensures { result ≡ has_one_ttl (type_number record_type) }
{
    match u16::from(record_type) {
        0 | 5 | 6 | 24 | 41 | 46 | 128..=255 => false,
        _ => true,
    }
}
