//! What ends a lookup above its name: zone cuts (RFC 1034 section 4.2) and DNAME records (RFC 6672 section 3.2).

ghost use Rattle.std.specs.Prelude.{◌≡◌, IfOk, length};
ghost use Rattle.dns_wire.specs.declared.codes.record_type.RecordType.TheVariants.{DNAME, NS};
ghost use Rattle.dns_zone.specs.Rows.{rows_at, rows_of};
ghost use Rattle.dns_authority.specs.steps.Barrier.{barrier, barrier_above, cut_at, has_rows, is_barrier, is_cut, is_ds};

use dns_names::Name;
use dns_records::Record;
use dns_wire::RecordType;
use dns_zone::{Node, Zone};
use std::alloc::AllocError;

/// Returns the barrier on the way from the origin of a zone down to a name: the first zone cut or owner of a DNAME record above
/// the name, or else the name itself if it is a zone cut and the type is not DS (RFC 4035 section 3.1.4.1).
pub fn barrier(
    zone: &Zone,
    record_type: RecordType,
    name: &Name,
) -> Result<Option<Name>, AllocError>
    ensures { IfOk result (λ found. found ≡ barrier zone.now record_type name.now) }
{
    let above = barrier_above(zone, name)?;
    if above.is_some() {
        return Ok(above);
    }
    cut_at(zone, record_type, name)
}

/// Returns `true` if a name is a zone cut: it is below the origin, has NS records, and is no wildcard.
pub fn is_cut(zone: &Zone, name: &Name) -> bool
    ensures { result ≡ is_cut zone.now name.now }
{
    is_cut_with(zone, name, zone.records_at(name, RecordType::NS))
}

/// Returns `true` if a name with these NS records is a zone cut.
pub(crate) fn is_cut_with(zone: &Zone, name: &Name, servers: &[Record]) -> bool
    requires { rows_of servers.now ≡ rows_at zone.now.rows name.now.labels NS }
    ensures { result ≡ is_cut zone.now name.now }
{
    label_count(zone.origin()) < label_count(name) && !name.is_wildcard() && !servers.is_empty()
}

/// Returns `true` if a name has records of a type.
pub fn has_rows(zone: &Zone, name: &Name, record_type: RecordType) -> bool
    ensures { result ≡ has_rows zone.now.rows name.now record_type }
{
    !zone.records_at(name, record_type).is_empty()
}

/// Returns the first barrier above a name, from the origin of a zone down: a zone cut or the owner of a DNAME record.
///
/// The search ends at a name that does not exist, since no name below it is a barrier. So the time for a name with many labels does
/// not grow with those that do not exist.
pub fn barrier_above(zone: &Zone, name: &Name) -> Result<Option<Name>, AllocError>
    ensures { IfOk result (λ found. found ≡ barrier_above zone.now name.now) }
{
    for kept in label_count(zone.origin())..label_count(name) {
        let above = name.trim_to(kept)?;
        let node = zone.node(&above, RecordType::DNAME);
        if !node.exists {
            return Ok(None);
        }
        if is_barrier(zone, &above, node) {
            return Ok(Some(above));
        }
    }
    Ok(None)
}

/// Returns `true` if the rows below a name do not count: it is a zone cut, or has a DNAME record.
fn is_barrier(zone: &Zone, name: &Name, node: Node<'_>) -> bool
    requires { (rows_of node.servers.now ≡ rows_at zone.now.rows name.now.labels NS)
        × (rows_of node.redirections.now ≡ rows_at zone.now.rows name.now.labels DNAME) }
    ensures { result ≡ is_barrier zone.now name.now }
{
    is_cut_with(zone, name, node.servers) || !node.redirections.is_empty()
}

/// Returns the name if it is a zone cut for a type.
fn cut_at(zone: &Zone, record_type: RecordType, name: &Name) -> Result<Option<Name>, AllocError>
    ensures { IfOk result (λ found. found ≡ cut_at zone.now record_type name.now) }
{
    if is_cut(zone, name) && !is_ds(record_type) {
        return Ok(Some(name.clone()?));
    }
    Ok(None)
}

/// Returns `true` for the type DS, whose records are above a zone cut (RFC 4035 section 3.1.4.1).
pub fn is_ds(record_type: RecordType) -> bool
    ensures { result ≡ is_ds record_type }
{
    u16::from(record_type) == 43
}

/// Returns the number of labels of a name.
pub(crate) fn label_count(name: &Name) -> usize
    ensures { result ≡ length name.now.labels }
{
    name.iter().len()
}
