//! What a question asks for: the records of one type, or of any (RFC 1034 section 3.7.1).

ghost use Rattle.std.specs.Prelude.{◌≡◌, map, take, IfOk};
ghost use Rattle.std.specs.List.{flat_map};
ghost use Rattle.dns_zone.specs.Rows.{rows_at, rows_of};
ghost use Rattle.dns_zone.specs.Answer.{record_of};
ghost use Rattle.dns_authority.specs.Asked.{any_numbers, asked_rows, filled, first_filled, is_any, rows_by_number};

use crate::copies::{first_copies, joined};
use dns_names::Name;
use dns_records::{Record, Sequence};
use dns_wire::RecordType;
use dns_wire::codes::laws::type_number_round_trips;
use dns_zone::Zone;
use std::alloc::{AllocError, Global};

/// The records that a question for the type ANY is answered with.
#[derive(Clone, Copy, Debug, PartialEq, Eq)]
pub enum AnyAnswer {
    /// Those of all sets of the name, in the order of their types, but SOA first (RFC 1034 section 3.7.1).
    AllSets,
    /// Those of the first of these sets (RFC 8482 section 4.1).
    FirstSet,
}

/// The type that a question asks for, and how a question for ANY is answered.
#[derive(Clone, Copy, Debug, PartialEq, Eq)]
pub(crate) struct Asked {
    pub(crate) record_type: RecordType,
    pub(crate) any: AnyAnswer,
}

/// What a question asks for, and how many of the records are needed. More may be copied.
#[derive(Clone, Copy)]
pub(crate) struct Wanted {
    pub(crate) asked: Asked,
    pub(crate) most: usize,
}

/// Copies the first of the records of a name that are asked for, with an owner: as many as are needed. `stored` has those of the
/// type that is asked for.
pub(crate) fn asked_records(
    alloc: Global,
    zone: &Zone,
    wanted: Wanted,
    owner: &Name,
    source: &Name,
    stored: &[Record],
) -> Result<Sequence<Record>, AllocError>
    requires { rows_of stored.now
        ≡ rows_at zone.now.rows source.now.labels wanted.asked.record_type }
    ensures { IfOk result (λ records. take wanted.most records ≡ take wanted.most
        (map (record_of owner.now) (asked_rows wanted.asked zone.now.rows source.now.labels))) }
{
    let Wanted { asked, most } = wanted;
    if !is_any(asked.record_type) {
        return first_copies(alloc, most, owner, stored);
    }
    match asked.any {
        AnyAnswer::AllSets => all_sets(alloc, most, zone, owner, source),
        AnyAnswer::FirstSet => first_copies(alloc, most, owner, first_set(zone, source)?),
    }
}

/// Returns `true` for the type ANY.
pub(crate) fn is_any(record_type: RecordType) -> bool
    ensures { result ≡ is_any record_type }
{
    u16::from(record_type) == 255
}

/// Copies the first `most` of the records of all sets of a name, or more, with an owner.
fn all_sets(
    alloc: Global,
    most: usize,
    zone: &Zone,
    owner: &Name,
    source: &Name,
) -> Result<Sequence<Record>, AllocError>
    ensures { IfOk result (λ records. take most records ≡ take most (map (record_of owner.now)
        (flat_map (rows_by_number zone.now.rows source.now.labels) any_numbers))) }
{
    let types = types_of(zone, source)?;
    sets_of_types(alloc, most, zone, owner, source, types.as_slice())
}

/// Copies the first `most` of the records of these types of a name, or more, with an owner.
fn sets_of_types(
    alloc: Global,
    most: usize,
    zone: &Zone,
    owner: &Name,
    source: &Name,
    types: &[RecordType],
) -> Result<Sequence<Record>, AllocError>
    ensures { IfOk result (λ records. take most records ≡ take most (map (record_of owner.now)
        (flat_map (rows_at zone.now.rows source.now.labels) types.now))) }
{
    let mut records = Sequence::new(alloc);
    for record_type in types {
        if records.len() >= most {
            return Ok(records);
        }
        let stored = zone.records_at(source, *record_type);
        records = joined(records, first_copies(alloc, most, owner, stored)?)?;
    }
    Ok(records)
}

/// Returns the records of the first set of a name.
fn first_set<'a>(zone: &'a Zone, source: &Name) -> Result<&'a [Record], AllocError>
    ensures { IfOk result (λ stored. rows_of stored.now ≡ first_filled
        (map (rows_by_number zone.now.rows source.now.labels) any_numbers)) }
{
    let types = types_of(zone, source)?;
    match types.as_slice().first() {
        Some(record_type) => Ok(zone.records_at(source, *record_type)),
        None => Ok(&[]),
    }
}

/// Returns the types of the sets of a name, in the order of the zone.
fn types_of(zone: &Zone, source: &Name) -> Result<Vec<RecordType>, AllocError>
    ensures { IfOk result (λ types.
        map (rows_at zone.now.rows source.now.labels) types.items
        ≡ filled (map (rows_by_number zone.now.rows source.now.labels) any_numbers)) }
{
    type_number_round_trips();
    zone.types_at(source)
}
