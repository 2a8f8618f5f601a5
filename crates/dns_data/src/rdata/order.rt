//! The order of record data.

ghost use Rattle.std.specs.Prelude.{◌≡◌};
ghost use Rattle.dns_data.specs.rdata.Order.{type_cmp, variant_index};

use crate::rdata::RData;
use dns_wire::RecordType;
use std::cmp::Ordering;

impl Ord for RData {
    ghost use Rattle.std.proofs.Common.{refl};
    ghost use Rattle.dns_data.specs.rdata.Order.{data_cmp};
    ghost use Rattle.dns_data.specs.internal.DataOrder.{data_cmp-total, data_tie};

    ghost cmp = { data_cmp };

    ghost total = { data_cmp-total };

    ghost matches_partial_cmp = { λ x y. refl };

    ghost matches_eq = { data_tie };

    /// Compares by variant, and data of one variant by their fields. Names compare ignoring ASCII case.
    fn cmp(&self, other: &RData) -> Ordering {
        match (self, other) {
            (RData::A(own), RData::A(others)) => own.cmp(others),
            (RData::AAAA(own), RData::AAAA(others)) => own.cmp(others),
            (RData::CNAME(own), RData::CNAME(others)) => own.cmp(others),
            (RData::NS(own), RData::NS(others)) => own.cmp(others),
            (RData::PTR(own), RData::PTR(others)) => own.cmp(others),
            (RData::MX(own), RData::MX(others)) => own.cmp(others),
            (RData::SOA(own), RData::SOA(others)) => own.cmp(others),
            (RData::SRV(own), RData::SRV(others)) => own.cmp(others),
            (RData::TXT(own), RData::TXT(others)) => own.cmp(others),
            (RData::OPT(own), RData::OPT(others)) => own.cmp(others),
            (RData::Update0(own), RData::Update0(others)) => cmp_types(*own, *others),
            (
                RData::Unknown { code, rdata },
                RData::Unknown {
                    code: others_code,
                    rdata: others_rdata,
                },
            ) => cmp_types(*code, *others_code).then(rdata.cmp(others_rdata)),
            _ => variant_index(self).cmp(&variant_index(other)),
        }
    }
}

impl PartialOrd for RData {
    ghost use Rattle.std.specs.Ordering.{as_partial_cmp};
    ghost use Rattle.dns_data.specs.rdata.Order.{data_cmp};
    ghost use Rattle.dns_data.specs.internal.DataOrder.{data_cmp-partial};

    ghost partial_cmp = { as_partial_cmp data_cmp };

    ghost laws = { data_cmp-partial };

    fn partial_cmp(&self, other: &RData) -> Option<Ordering> {
        Some(self.cmp(other))
    }
}

/// Compares types by number.
fn cmp_types(own: RecordType, others: RecordType) -> Ordering
    ensures { result ≡ type_cmp own others }
{
    u16::from(own).cmp(&u16::from(others))
}

/// Returns the place of a variant among all.
fn variant_index(rdata: &RData) -> u8
    ensures { result ≡ variant_index rdata.now }
{
    match rdata {
        RData::A(_) => 0,
        RData::AAAA(_) => 1,
        RData::CNAME(_) => 2,
        RData::NS(_) => 3,
        RData::PTR(_) => 4,
        RData::MX(_) => 5,
        RData::SOA(_) => 6,
        RData::SRV(_) => 7,
        RData::TXT(_) => 8,
        RData::OPT(_) => 9,
        RData::Update0(_) => 10,
        RData::Unknown { .. } => 11,
    }
}
