//! Sections of whole sets of records (RFC 2181 section 5).

ghost use Rattle.std.specs.Prelude.{◌≡◌, ◌≤◌, true};
ghost use Rattle.dns_authority.specs.replies.WholeSets.{are_one_set, continues_set, set_start};

use dns_records::Record;

/// Returns the place of the first record of the set that is at a place, or the place if there is none.
pub(crate) fn set_start(records: &[Record], place: usize) -> usize
    ensures value { result ≡ set_start records.now place }
    ensures within { result ≤ place }
{
    let mut start = place;
    while continues_set(records, start) {
        start -= 1;
    }
    start
}

/// Returns `true` if the record at a place is of the set of the one before it.
fn continues_set(records: &[Record], place: usize) -> bool
    ensures value { result ≡ continues_set records.now place }
    ensures positive { result ≡ true → 1 ≤ place }
{
    if place == 0 {
        return false;
    }
    let (Some(before), Some(at)) = (records.get(place - 1), records.get(place)) else {
        return false;
    };
    are_one_set(before, at)
}

/// Returns `true` if two records are of one set: they have the same owner, ignoring ASCII case, and the same type.
fn are_one_set(one: &Record, other: &Record) -> bool
    ensures { result ≡ are_one_set one.now other.now }
{
    one.name.eq_ignore_root(&other.name) && one.rdata.record_type() == other.rdata.record_type()
}
