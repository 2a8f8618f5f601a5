//! Starts of authority (RFC 1035 section 3.3.13).

ghost use Rattle.std.specs.Prelude.{◌≡◌, IfOk, IsOk};
ghost use Rattle.dns_data.specs.Field.{values_pieces};
ghost use Rattle.dns_data.specs.rdata.SOA.{soa_kinds, soa_values};

use crate::fields::{FixedData, Time, WriteFields};
use dns_names::Name;
use dns_wire::{BinEncodable, BinEncoder, EncodeError};
use std::alloc::AllocError;
use std::fmt;

/// The start of a zone's authority (RFC 1035 section 3.3.13). The times are in seconds.
#[derive(Debug, Drop, PartialEq, Eq, PartialOrd, Ord)]
pub struct SOA {
    /// The primary name server of the zone.
    pub mname: Name,
    /// The mailbox of the person responsible for the zone, as a name.
    pub rname: Name,
    /// The version of the zone (RFC 1982).
    pub serial: u32,
    /// The time after which a secondary checks for a new version.
    pub refresh: u32,
    /// The time after which a secondary retries a failed refresh.
    pub retry: u32,
    /// The time after which the zone of a secondary is no longer authoritative.
    pub expire: u32,
    /// The maximum TTL of negative answers (RFC 2308 section 4).
    pub minimum: u32,
}

impl FixedData<(Name, (Name, (u32, (Time, (Time, (Time, (Time, ())))))))> for SOA {
    ghost fields = { λ s. (
      s.mname,
      (
        s.rname,
        (
          s.serial,
          (
            record { 0 = s.refresh },
            (record { 0 = s.retry }, (record { 0 = s.expire }, (record { 0 = s.minimum }, tt))),
          ),
        ),
      ),
    ) };

    fn from_fields(given: (Name, (Name, (u32, (Time, (Time, (Time, (Time, ())))))))) -> SOA {
        let (mname, (rname, numbers)) = given;
        let (serial, (refresh, (retry, (expire, (minimum, _))))) = numbers;
        SOA {
            mname,
            rname,
            serial,
            refresh: refresh.0,
            retry: retry.0,
            expire: expire.0,
            minimum: minimum.0,
        }
    }
}

impl SOA {
    ghost use Rattle.dns_data.specs.Field.{values_len};
    ghost use Rattle.dns_data.specs.Memory.{AreInlineValues};
    ghost use Rattle.dns_data.specs.declared.rdata.soa.SOA.{SOA};

    /// Clones the data. Short names take no memory.
    pub fn clone(&self) -> Result<SOA, AllocError>
        ensures ok { IfOk result (λ copy. copy ≡ self.now) }
        ensures inline { AreInlineValues soa_kinds (soa_values self.now) → IsOk result }
    {
        Ok(SOA {
            mname: self.mname.clone()?,
            rname: self.rname.clone()?,
            serial: self.serial,
            refresh: self.refresh,
            retry: self.retry,
            expire: self.expire,
            minimum: self.minimum,
        })
    }

    /// Returns the times, in the order of their encoding.
    fn times(&self) -> (Time, (Time, (Time, (Time, ()))))
        ensures { result ≡ (
          record { 0 = self.now.refresh },
          (
            record { 0 = self.now.retry },
            (record { 0 = self.now.expire }, (record { 0 = self.now.minimum }, tt)),
          ),
        ) }
    {
        (
            Time(self.refresh),
            (
                Time(self.retry),
                (Time(self.expire), (Time(self.minimum), ())),
            ),
        )
    }

    /// Returns the length of the data's uncompressed encoding.
    pub fn encoded_len(&self) -> u128
        ensures { result ≡ values_len soa_kinds (soa_values self.now) }
    {
        (&self.mname, (&self.rname, (self.serial, self.times()))).fields_len()
    }
}

impl Clone for SOA {
    ghost is_clone = { λ soa copy. copy ≡ soa };

    fn clone(&self) -> Result<SOA, AllocError> {
        SOA::clone(self)
    }
}

impl BinEncodable for SOA {
    ghost pieces = { λ soa s. values_pieces s.canonical soa_kinds (soa_values soa) };

    fn emit(&self, encoder: &mut BinEncoder<'_>) -> Result<(), EncodeError> {
        (&self.mname, (&self.rname, (self.serial, self.times()))).emit_fields(encoder)
    }
}

impl fmt::Display for SOA {
    ghost use Rattle.std.specs.Prelude.{Some};
    ghost use Rattle.dns_data.specs.Text.{values_text};

    ghost output = { λ s. Some (values_text soa_kinds (soa_values s)) };

    fn fmt<W: fmt::Write>(&self, f: &mut fmt::Formatter<W>) -> fmt::Result {
        let (mname, rname) = (&self.mname, &self.rname);
        let (serial, refresh, retry) = (self.serial, self.refresh, self.retry);
        let (expire, minimum) = (self.expire, self.minimum);
        write!(
            f,
            "{mname} {rname} {serial} {refresh} {retry} {expire} {minimum}"
        )
    }
}
