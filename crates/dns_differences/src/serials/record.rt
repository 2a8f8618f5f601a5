//! The serial number of an SOA record.

ghost use Rattle.std.specs.Prelude.{◌≡◌};
ghost use Rattle.dns_differences.specs.serials.Record.{data_serial};

use dns_data::RData;

/// Returns the serial number of the data of an SOA record, or `None` for other data (RFC 1035 section 3.3.13).
pub fn data_serial(rdata: &RData) -> Option<u32>
    ensures { result ≡ data_serial rdata.now }
{
    match rdata {
        RData::SOA(soa) => Some(soa.serial),
        _ => None,
    }
}
