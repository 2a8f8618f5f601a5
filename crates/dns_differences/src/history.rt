//! The last differences of a zone (RFC 1995 section 5).

ghost use Rattle.std.specs.Prelude.{◌≡◌, ◌≤◌, ◌++◌, [], ◌∷◌, drop, length, map, true, not, ◌||◌, if◌then◌else◌, IsOk, OnErr, OnOk, option_copied};
ghost use Rattle.dns_differences.specs.Difference.{is_empty, is_numbered, octets};
ghost use Rattle.dns_differences.specs.History.{extended, from_serial, kept, known_since, last_serial, recorded, same_serial, since};

use crate::difference::{Difference, left_after};
use dns_wire::codes::{SerialNumber, SerialOrder};
use std::alloc::{AllocError, Global};

/// How much a history keeps at most.
#[derive(Clone, Copy, Debug, PartialEq, Eq)]
pub struct Limits {
    /// The number of differences.
    pub differences: usize,
    /// The number of records in all differences.
    pub records: usize,
    /// The octets of these records without compression (RFC 1035 section 4.1.3).
    pub octets: usize,
}

/// The last differences of a zone, each of which is from the version to which the one before it leads.
#[derive(Drop)]
pub struct History {
    limits: Limits,
    differences: Vec<Difference>,
    /// The octets of each difference's records.
    lengths: Vec<usize>,
    ghost counted: { lengths.items ≡ map octets differences.items },
}

impl History {
    /// Creates a history without differences.
    pub fn new(alloc: Global, limits: Limits) -> History
        ensures differences { result.differences.items ≡ [] }
        ensures limits { result.limits ≡ limits }
    {
        History {
            limits,
            differences: Vec::new(alloc),
            lengths: Vec::new(alloc),
        }
    }

    /// Drops all differences, since the zone has changed in another way.
    pub fn clear(&mut self)
        ensures differences { self.new.differences.items ≡ [] }
        ensures limits { self.new.limits ≡ self.old.limits }
    {
        self.differences.clear();
        self.lengths.clear();
    }

    /// Adds the difference that a change of the zone has made.
    ///
    /// The oldest ones are dropped if there are too many, and those before it if it is not from the version to which they lead.
    /// All are dropped if the records have changed, but not the serial number, or if the difference alone is beyond the limits.
    /// An error drops all, so that none is left out before a later one.
    #[tactic(auto, using(crate::proofs::HistoryLaws::none_recorded))]
    pub fn record(&mut self, difference: Difference) -> Result<(), AllocError>
        ensures ok { OnOk result (self.new.differences.items
            ≡ recorded self.old.limits self.old.differences.items difference) }
        ensures err { OnErr result (self.new.differences.items ≡ []) }
        ensures decided { (is_empty difference || not (is_numbered difference)) ≡ true
            → IsOk result }
        ensures limits { self.new.limits ≡ self.old.limits }
    {
        if difference.is_empty() {
            return Ok(());
        }
        if !difference.is_numbered() {
            self.clear();
            return Ok(());
        }
        let Some(len) = difference.octets_within(self.limits.octets) else {
            // No history with this difference is within the limits.
            self.clear();
            return Ok(());
        };
        self.extend(difference, len)?;
        self.drop_oldest();
        Ok(())
    }

    /// Adds a difference, whose records have `len` octets, as the last. Those before it are dropped if it is not from the version to
    /// which they lead.
    fn extend(&mut self, difference: Difference, len: usize) -> Result<(), AllocError>
        requires { len ≡ octets difference }
        ensures ok { OnOk result (self.new.differences.items
            ≡ extended self.old.differences.items difference) }
        ensures err { OnErr result (self.new.differences.items ≡ []) }
        ensures limits { self.new.limits ≡ self.old.limits }
    {
        self.clear_unless_at(difference.old_serial());
        match push_both(&mut self.differences, &mut self.lengths, difference, len) {
            Ok(()) => Ok(()),
            Err(AllocError) => {
                self.differences.clear();
                self.lengths.clear();
                Err(AllocError) // The memory for a further difference was refused.
            }
        }
    }

    /// Drops all differences unless they lead to the version with a serial number.
    fn clear_unless_at(&mut self, serial: Option<u32>)
        ensures differences { self.new.differences.items
            ≡ (if same_serial (last_serial self.old.differences.items) serial
            then self.old.differences.items else []) }
        ensures limits { self.new.limits ≡ self.old.limits }
    {
        if !leads_to(self.differences.as_slice(), serial) {
            self.clear();
        }
    }

    /// Drops the oldest differences until the others are within the limits.
    fn drop_oldest(&mut self)
        ensures differences { self.new.differences.items
            ≡ kept self.old.limits self.old.differences.items }
        ensures limits { self.new.limits ≡ self.old.limits }
    {
        let (differences, lengths) = (self.differences.as_slice(), self.lengths.as_slice());
        let start = first_kept(&self.limits, differences, lengths);
        let count = self.differences.len() - start;
        self.differences.rotate_left(start);
        self.differences.truncate(count);
        self.lengths.rotate_left(start);
        self.lengths.truncate(count);
    }

    /// Returns what a client lacks that has the version with a serial number, where the zone has the one with the serial number
    /// `current`: the differences that lead to it, or none if the client has this version or a later one (RFC 1995 section 2).
    /// Returns `None` if they are not known, so that the client needs the whole zone.
    pub fn since(&self, current: u32, serial: u32) -> Option<&[Difference]>
        ensures { option_copied result ≡ since self.now.differences.items current serial }
    {
        match SerialNumber::new(serial).compare(SerialNumber::new(current)) {
            SerialOrder::Less => self.known_since(current, serial),
            SerialOrder::Equal | SerialOrder::Greater => Some(&[]),
            SerialOrder::Undecided => None,
        }
    }

    /// Returns the differences from the version with a serial number to the current one, if they are known.
    fn known_since(&self, current: u32, serial: u32) -> Option<&[Difference]>
        ensures { option_copied result ≡ known_since self.now.differences.items current serial }
    {
        if !leads_to(self.differences.as_slice(), Some(current)) {
            return None;
        }
        let known = from_serial(self.differences.as_slice(), serial);
        if known.is_empty() {
            return None;
        }
        Some(known)
    }
}

/// Returns `true` if differences lead to the version with a serial number.
fn leads_to(differences: &[Difference], serial: Option<u32>) -> bool
    ensures { result ≡ same_serial (last_serial differences.now) serial }
{
    last_serial(differences) == serial
}

/// Returns the serial number of the version to which differences lead.
fn last_serial(differences: &[Difference]) -> Option<u32>
    ensures { result ≡ last_serial differences.now }
{
    match differences.split_last() {
        Some((last, _older)) => last.new_serial(),
        None => None,
    }
}

/// Adds a difference, and the octets of its records. An error may leave one of the two added.
fn push_both(
    differences: &mut Vec<Difference>,
    lengths: &mut Vec<usize>,
    difference: Difference,
    len: usize,
) -> Result<(), AllocError>
    ensures differences { OnOk result (differences.new.items
        ≡ differences.old.items ++ difference ∷ []) }
    ensures lengths { OnOk result (lengths.new.items ≡ lengths.old.items ++ len ∷ []) }
{
    lengths.push(len)?;
    differences.push(difference)?;
    Ok(())
}

/// Returns the place of the first difference that is kept: from it on they are within the limits. Each difference has the octets at
/// its place.
fn first_kept(limits: &Limits, differences: &[Difference], lengths: &[usize]) -> usize
    requires { lengths.now ≡ map octets differences.now }
    ensures within { result ≤ length differences.now }
    ensures kept { drop result differences.now ≡ kept limits.now differences.now }
{
    let mut start = differences.len();
    let mut room = limits.records;
    let mut octets_room = limits.octets;
    while start > 0 && differences.len() - start < limits.differences {
        let Some(left) = differences[start - 1].room_after(room) else {
            return start;
        };
        let Some(octets_left) = left_after(octets_room, lengths[start - 1]) else {
            return start;
        };
        room = left;
        octets_room = octets_left;
        start -= 1;
    }
    start
}

/// Returns the differences from the version with a serial number on, or none if that is not among them.
fn from_serial(differences: &[Difference], serial: u32) -> &[Difference]
    ensures { result.now ≡ from_serial serial differences.now }
{
    let mut rest = differences;
    while let Some((first, others)) = rest.split_first() {
        if first.old_serial() == Some(serial) {
            return rest;
        }
        rest = others;
    }
    rest
}
