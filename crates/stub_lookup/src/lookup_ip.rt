//! The addresses that a lookup found.

ghost use Rattle.std.specs.Prelude.{◌≡◌, Some, slice_get};
ghost use Rattle.std.specs.Iterator.{YieldsFirst, item_count};
ghost use Rattle.stub_lookup.specs.LookupIp.{addresses_in};

use crate::lookup::Lookup;
use crate::moment::Moment;
use dns_messages::{Message, Query, Record};
use std::marker::Model;
use std::net::IpAddr;
use std::vec;

/// The response to questions for addresses: `A`, `AAAA` or both.
#[derive(Drop)]
pub struct LookupIp {
    lookup: Lookup,
}

impl Model for LookupIp {
    ghost use Rattle.stub_lookup.specs.Lookup.{LookupContent};

    ghost Value = { LookupContent };

    ghost view = { λ addresses. addresses.lookup };
}

impl LookupIp {
    /// Iterates over the addresses of the `A` and `AAAA` records in the answer section, in order.
    pub fn iter(&self) -> LookupIpIter<'_>
        ensures { result ≡ addresses_in self.now.message.answers }
    {
        LookupIpIter {
            records: self.lookup.answers(),
        }
    }

    /// Returns the question, the first one of the message.
    pub fn query(&self) -> &Query
        ensures { slice_get self.now.message.queries 0 ≡ Some result.now }
    {
        self.lookup.query()
    }

    /// Returns the last moment at which the lookup is valid.
    pub fn valid_until(&self) -> Moment
        ensures { result ≡ self.now.valid_until }
    {
        self.lookup.valid_until()
    }

    /// Returns the lookup, which has all records of the response.
    pub fn as_lookup(&self) -> &Lookup
        ensures { result.now ≡ self.now }
    {
        &self.lookup
    }
}

impl From<Lookup> for LookupIp {
    ghost use Rattle.std.specs.Prelude.{◌≡◌};

    ghost from_gives = { λ lookup addresses. addresses ≡ lookup };

    fn from(lookup: Lookup) -> LookupIp {
        LookupIp { lookup }
    }
}

impl From<LookupIp> for Lookup {
    ghost use Rattle.std.specs.Prelude.{◌≡◌};

    ghost from_gives = { λ addresses lookup. lookup ≡ addresses };

    fn from(addresses: LookupIp) -> Lookup {
        addresses.lookup
    }
}

impl IntoIterator for LookupIp {
    type Item = IpAddr;

    type IntoIter = LookupIpIntoIter;

    ghost use Rattle.std.specs.Prelude.{◌≡◌};
    ghost use Rattle.stub_lookup.specs.LookupIp.{addresses_in};

    ghost into_iter_gives = { λ lookup it. it ≡ addresses_in lookup.message.answers };

    fn into_iter(self) -> LookupIpIntoIter {
        let answers = Message::from(self.lookup).into_parts().answers;
        LookupIpIntoIter {
            records: answers.into_vec().into_iter(),
        }
    }
}

/// An iterator over the addresses of the `A` and `AAAA` records among borrowed records, in order.
#[derive(Drop)]
pub struct LookupIpIter<'a> {
    records: &'a [Record],
}

impl<'a> Model for LookupIpIter<'a> {
    ghost use Rattle.std.specs.Prelude.{List};
    ghost use Rattle.std.specs.declared.net.ip_addr.IpAddr.{IpAddr};
    ghost use Rattle.stub_lookup.specs.LookupIp.{addresses_in};

    ghost Value = { List IpAddr };

    ghost view = { λ it. addresses_in it.records.now };
}

impl<'a> Iterator for LookupIpIter<'a> {
    type Item = IpAddr;

    ghost next_gives = { YieldsFirst (λ rest. rest) };

    ghost remaining = { item_count (λ rest. rest) };

    fn next(&mut self) -> Option<IpAddr> {
        let (address, others) = first_address(self.records)?;
        self.records = others;
        Some(address)
    }
}

ghost use Rattle.std.specs.Prelude.{◌∷◌, [], IfSome, IfNone};

/// Returns the first address, and the records after its own.
fn first_address<'a>(records: &'a [Record]) -> Option<(IpAddr, &'a [Record])>
    ensures some { IfSome result (λ found.
        addresses_in records.now ≡ found.0 ∷ addresses_in found.1.now) }
    ensures none { IfNone result (addresses_in records.now ≡ []) }
{
    let mut rest = records;
    while let Some((first, others)) = rest.split_first() {
        if let Some(address) = first.rdata.ip_addr() {
            return Some((address, others));
        }
        rest = others;
    }
    None
}

/// An iterator over the addresses of the `A` and `AAAA` records among owned records, in order.
#[derive(Drop)]
pub struct LookupIpIntoIter {
    records: vec::IntoIter<Record>,
}

impl Model for LookupIpIntoIter {
    ghost use Rattle.std.specs.Prelude.{List};
    ghost use Rattle.std.specs.Vec.Iter.{into_iter_items};
    ghost use Rattle.std.specs.declared.net.ip_addr.IpAddr.{IpAddr};
    ghost use Rattle.stub_lookup.specs.LookupIp.{addresses_in};

    ghost Value = { List IpAddr };

    ghost view = { λ it. addresses_in (into_iter_items it.records) };
}

impl Iterator for LookupIpIntoIter {
    type Item = IpAddr;

    ghost next_gives = { YieldsFirst (λ rest. rest) };

    ghost remaining = { item_count (λ rest. rest) };

    fn next(&mut self) -> Option<IpAddr> {
        next_address(&mut self.records)
    }
}

ghost use Rattle.std.specs.Vec.Iter.{into_iter_items};

/// Takes records up to the first one that has an address, and returns the address.
fn next_address(records: &mut vec::IntoIter<Record>) -> Option<IpAddr>
    ensures { YieldsFirst (λ it. addresses_in (into_iter_items it)) records.old result
        records.new }
{
    while let Some(record) = records.next() {
        if let Some(address) = record.rdata.ip_addr() {
            return Some(address);
        }
    }
    None
}
