//! Grants, and whether they permit an update.

ghost use Rattle.std.specs.Prelude.{◌≡◌};
ghost use Rattle.dns_wire.specs.codes.RecordType.{type_number};
ghost use Rattle.dns_keys.specs.grants.Grant.{allows_type, has_type, is_granted, is_granted_name, is_within, may_change, may_change_name, permits, permits_record};

use dns_messages::Message;
use dns_names::Name;
use dns_records::Record;
use dns_tsig::WireName;
use dns_wire::RecordType;

/// What the holders of a key may change.
#[derive(Drop)]
pub struct Grant {
    /// The name of the key in canonical form.
    pub key: WireName,
    /// The name at or below which records may be changed.
    pub subtree: Name,
    /// The types of these records; none are all types.
    pub types: Vec<RecordType>,
}

/// Returns `true` if each record of an update is within a grant of a key. The deletion of all sets of a name needs a grant for all
/// types.
pub fn permits(grants: &[Grant], key: &[u8], update: &Message) -> bool
    ensures { result ≡ permits grants.now key.now update.now }
{
    update
        .authorities
        .as_slice()
        .iter()
        .all(|change| permits_record(grants, key, change))
}

/// Returns `true` if a record of an update is within a grant of a key.
fn permits_record(grants: &[Grant], key: &[u8], change: &Record) -> bool
    ensures { result ≡ permits_record grants.now key.now change.now }
{
    let record_type = change.record_type();
    if record_type == RecordType::ANY {
        return may_change_name(grants, key, &change.name);
    }
    may_change(grants, key, &change.name, record_type)
}

/// Returns `true` if the holders of a key may change a set.
fn may_change(grants: &[Grant], key: &[u8], owner: &Name, record_type: RecordType) -> bool
    ensures { result ≡ may_change grants.now key.now owner.now.labels (type_number record_type) }
{
    grants
        .iter()
        .any(|grant| is_granted(grant, key, owner, record_type))
}

/// Returns `true` if the holders of a key may change all sets of a name.
fn may_change_name(grants: &[Grant], key: &[u8], owner: &Name) -> bool
    ensures { result ≡ may_change_name grants.now key.now owner.now.labels }
{
    grants
        .iter()
        .any(|grant| is_granted_name(grant, key, owner))
}

/// Returns `true` if a grant gives a key the sets of a type at a name.
fn is_granted(grant: &Grant, key: &[u8], owner: &Name, record_type: RecordType) -> bool
    ensures { result ≡ is_granted key.now owner.now.labels (type_number record_type) grant.now }
{
    is_within(grant, key, owner) && allows_type(grant.types.as_slice(), record_type)
}

/// Returns `true` if a grant gives a key all sets of a name.
fn is_granted_name(grant: &Grant, key: &[u8], owner: &Name) -> bool
    ensures { result ≡ is_granted_name key.now owner.now.labels grant.now }
{
    is_within(grant, key, owner) && grant.types.is_empty()
}

/// Returns `true` if a grant gives a key sets at a name.
fn is_within(grant: &Grant, key: &[u8], owner: &Name) -> bool
    ensures { result ≡ is_within key.now owner.now.labels grant.now }
{
    grant.key.as_slice() == key && grant.subtree.zone_of(owner)
}

/// Returns `true` if the types of a grant have a type, or are all types.
fn allows_type(types: &[RecordType], record_type: RecordType) -> bool
    ensures { result ≡ allows_type types.now (type_number record_type) }
{
    types.is_empty() || has_type(types, record_type)
}

/// Returns `true` if a type is one of these.
fn has_type(types: &[RecordType], record_type: RecordType) -> bool
    ensures { result ≡ has_type types.now (type_number record_type) }
{
    types.iter().any(|other| *other == record_type)
}
