//! Data of one type, and data of any type, as the data of a record.

ghost use Rattle.std.specs.Prelude.{◌≡◌, ◌≢◌, IfSome, IfNone};
ghost use Rattle.dns_data.specs.declared.rdata.RData.{RData};
ghost use Rattle.dns_data.specs.rdata.{data_type, is_update_data};

use crate::rdata::{A, AAAA, CNAME, MX, NS, OPT, PTR, RData, SOA, SRV, TXT};
use dns_wire::RecordType;

/// The data of a record, of one type or of any.
pub trait RecordData {
    /// The data of a record that holds this.
    ghost rdata: { Self → RData };

    /// Borrows data of this type. Returns `None` for data of another type.
    fn try_borrow(held: &RData) -> Option<&Self>
        ensures some { IfSome result (λ borrowed. rdata borrowed.now ≡ held.now) }
        ensures none { IfNone result ((other : Self) → rdata other ≢ held.now) };

    /// Returns the type of a record with this data.
    fn record_type(&self) -> RecordType
        ensures { result ≡ data_type (rdata self.now) };

    /// Converts to data of any type, without copying it.
    fn into_rdata(self) -> RData
        ensures { result ≡ rdata self };

    /// Returns `true` for the absent data of a record of an update (RFC 2136 section 2.4).
    fn is_update(&self) -> bool
        ensures { result ≡ is_update_data (rdata self.now) };
}

impl RecordData for RData {
    ghost rdata = { λ rdata. rdata };

    fn try_borrow(held: &RData) -> Option<&RData> {
        Some(held)
    }

    fn record_type(&self) -> RecordType {
        RData::record_type(self)
    }

    fn into_rdata(self) -> RData {
        self
    }

    fn is_update(&self) -> bool {
        matches!(self, RData::Update0(_))
    }
}

impl RecordData for A {
    ghost rdata = { RData.A };

    fn try_borrow(held: &RData) -> Option<&A> {
        match held {
            RData::A(a) => Some(a),
            _ => None,
        }
    }

    fn record_type(&self) -> RecordType {
        RecordType::A
    }

    fn into_rdata(self) -> RData {
        RData::A(self)
    }

    fn is_update(&self) -> bool {
        false
    }
}

impl RecordData for AAAA {
    ghost rdata = { RData.AAAA };

    fn try_borrow(held: &RData) -> Option<&AAAA> {
        match held {
            RData::AAAA(aaaa) => Some(aaaa),
            _ => None,
        }
    }

    fn record_type(&self) -> RecordType {
        RecordType::AAAA
    }

    fn into_rdata(self) -> RData {
        RData::AAAA(self)
    }

    fn is_update(&self) -> bool {
        false
    }
}

impl RecordData for CNAME {
    ghost rdata = { RData.CNAME };

    fn try_borrow(held: &RData) -> Option<&CNAME> {
        match held {
            RData::CNAME(cname) => Some(cname),
            _ => None,
        }
    }

    fn record_type(&self) -> RecordType {
        RecordType::CNAME
    }

    fn into_rdata(self) -> RData {
        RData::CNAME(self)
    }

    fn is_update(&self) -> bool {
        false
    }
}

impl RecordData for NS {
    ghost rdata = { RData.NS };

    fn try_borrow(held: &RData) -> Option<&NS> {
        match held {
            RData::NS(ns) => Some(ns),
            _ => None,
        }
    }

    fn record_type(&self) -> RecordType {
        RecordType::NS
    }

    fn into_rdata(self) -> RData {
        RData::NS(self)
    }

    fn is_update(&self) -> bool {
        false
    }
}

impl RecordData for PTR {
    ghost rdata = { RData.PTR };

    fn try_borrow(held: &RData) -> Option<&PTR> {
        match held {
            RData::PTR(ptr) => Some(ptr),
            _ => None,
        }
    }

    fn record_type(&self) -> RecordType {
        RecordType::PTR
    }

    fn into_rdata(self) -> RData {
        RData::PTR(self)
    }

    fn is_update(&self) -> bool {
        false
    }
}

impl RecordData for MX {
    ghost rdata = { RData.MX };

    fn try_borrow(held: &RData) -> Option<&MX> {
        match held {
            RData::MX(mx) => Some(mx),
            _ => None,
        }
    }

    fn record_type(&self) -> RecordType {
        RecordType::MX
    }

    fn into_rdata(self) -> RData {
        RData::MX(self)
    }

    fn is_update(&self) -> bool {
        false
    }
}

impl RecordData for SOA {
    ghost rdata = { RData.SOA };

    fn try_borrow(held: &RData) -> Option<&SOA> {
        match held {
            RData::SOA(soa) => Some(soa),
            _ => None,
        }
    }

    fn record_type(&self) -> RecordType {
        RecordType::SOA
    }

    fn into_rdata(self) -> RData {
        RData::SOA(self)
    }

    fn is_update(&self) -> bool {
        false
    }
}

impl RecordData for SRV {
    ghost rdata = { RData.SRV };

    fn try_borrow(held: &RData) -> Option<&SRV> {
        match held {
            RData::SRV(srv) => Some(srv),
            _ => None,
        }
    }

    fn record_type(&self) -> RecordType {
        RecordType::SRV
    }

    fn into_rdata(self) -> RData {
        RData::SRV(self)
    }

    fn is_update(&self) -> bool {
        false
    }
}

impl RecordData for TXT {
    ghost rdata = { RData.TXT };

    fn try_borrow(held: &RData) -> Option<&TXT> {
        match held {
            RData::TXT(txt) => Some(txt),
            _ => None,
        }
    }

    fn record_type(&self) -> RecordType {
        RecordType::TXT
    }

    fn into_rdata(self) -> RData {
        RData::TXT(self)
    }

    fn is_update(&self) -> bool {
        false
    }
}

impl RecordData for OPT {
    ghost rdata = { RData.OPT };

    fn try_borrow(held: &RData) -> Option<&OPT> {
        match held {
            RData::OPT(opt) => Some(opt),
            _ => None,
        }
    }

    fn record_type(&self) -> RecordType {
        RecordType::OPT
    }

    fn into_rdata(self) -> RData {
        RData::OPT(self)
    }

    fn is_update(&self) -> bool {
        false
    }
}
