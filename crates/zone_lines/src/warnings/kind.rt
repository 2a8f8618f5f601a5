//! The kinds of warnings.

ghost use Rattle.std.specs.Prelude.{◌≡◌};

use crate::Position;

/// A kind of warning.
#[derive(Clone, Copy, Debug, PartialEq, Eq)]
pub enum WarningKind {
    /// An SOA record of a zone whose origin is the root: the text has no `$ORIGIN` above it, and none was given.
    RootZone,
    /// An SOA record of a zone without a `$ORIGIN` and without an origin that was given, with a name without a dot in the data
    /// of a record: the root completed it (RFC 1035 section 5.1).
    NoOrigin,
    /// An SOA record of a zone that has no NS record at its origin (RFC 2181 section 6.1), and no entry with a
    /// fault that may be meant as one. A zone that is served plainly needs none.
    NoServer,
    /// A CNAME record, of whose owner there is other data (RFC 1034 section 3.6.2, RFC 2181 section 10.1) than that of a signed
    /// zone: RRSIG, NSEC and KEY (RFC 4035 section 2.5).
    AliasBesideData,
    /// A CNAME or SOA record after another of its owner, of which one is kept (RFC 2181 section 10.1, RFC 1035 section 5.2).
    SecondRecord,
    /// A record that is dropped: one above has its owner and type, and equal data (RFC 2181 section 5).
    DuplicateRecord,
    /// A record whose TTL is not that of the set of its owner and type (RFC 2181 section 5.2). The TTL of an RRSIG record is that of
    /// the set that it covers (RFC 4034 section 3).
    OtherTtl,
    /// A record whose TTL has the highest of its 32 bits set, so that a receiver takes it as 0 (RFC 2181 section 8).
    HighTtl,
    /// A record with an address in the place of a name (RFC 1035 section 3.3): four numbers up to 255, alone or completed by the
    /// origin.
    AddressName,
    /// An NS or MX record whose target is in the zone, which has no address for it (RFC 2181 section 10.3). A record with a
    /// name that ends in the origin twice, or with an address in its place, has this warning only once that name is corrected, and
    /// one whose target is at or below a delegation never, unless the zone is served plainly.
    NoAddress,
    /// A record of a wildcard in a zone that is served plainly, which is not expanded (RFC 1034 section 4.3.3). It is the
    /// first of its type.
    Wildcard,
    /// The first NS record of an owner below the origin, in a zone that is served plainly: no name is treated otherwise (RFC
    /// 1034 section 4.2.1).
    Delegation,
    /// The first NS record of a wildcard, which has no defined meaning (RFC 4592 section 4.2).
    WildcardCut,
    /// An NS record of a delegation to a server at or below it that has no address here, so that it is not found (RFC 1034
    /// section 4.2.1).
    NoGlue,
    /// A record below a delegation that is not the address of a name server: it is never an answer (RFC 1034 section 4.2.1).
    Occluded,
    /// A DS record whose owner is no delegation (RFC 4035 section 2.4).
    SignerWithoutCut,
    /// A record with a digest whose length is not that of its kind, so that nothing has it (RFC 4034 section 5.1.4, RFC 4255 section
    /// 3.1.2, RFC 6698 section 2.1.3, RFC 8976 section 2.2.3).
    WrongDigest,
    /// An RRSIG record that has expired (RFC 4034 section 3.1.5).
    ExpiredSignature,
    /// A TXT record beginning `v=spf1` after another of its owner, with which neither counts (RFC 7208 section 4.5).
    SecondSpf,
    /// A TXT record beginning `v=DMARC1` after another at `_dmarc`, with which neither counts (RFC 7489 section 6.6.3).
    SecondDmarc,
    /// A TXT record with a `;` directly after a word that is not quoted, which ends the record there (RFC 1035 section 5.1).
    CutText,
    /// A record whose first line ends inside a quoted string, which goes on over the lines after it (RFC 1035 section 5.1): more
    /// often a quotation mark is missing.
    OpenString,
    /// A record with a name that ends in the origin twice (RFC 1035 section 5.1).
    MissingDot,
}

impl WarningKind {
    ghost use Rattle.zone_lines.specs.warnings.Warning.{is_about_origin, is_about_servers};

    /// The kinds, in the order of a record's warnings.
    pub const ALL: [WarningKind; 23] = [
        WarningKind::RootZone,
        WarningKind::NoOrigin,
        WarningKind::NoServer,
        WarningKind::AliasBesideData,
        WarningKind::SecondRecord,
        WarningKind::DuplicateRecord,
        WarningKind::OtherTtl,
        WarningKind::HighTtl,
        WarningKind::AddressName,
        WarningKind::NoAddress,
        WarningKind::Wildcard,
        WarningKind::Delegation,
        WarningKind::WildcardCut,
        WarningKind::NoGlue,
        WarningKind::Occluded,
        WarningKind::SignerWithoutCut,
        WarningKind::WrongDigest,
        WarningKind::ExpiredSignature,
        WarningKind::SecondSpf,
        WarningKind::SecondDmarc,
        WarningKind::CutText,
        WarningKind::OpenString,
        WarningKind::MissingDot,
    ];

    /// Returns `true` if the warning is about the origin of the zone: that the root is, or completed a name.
    pub fn is_about_origin(self) -> bool
        ensures { result ≡ is_about_origin self }
    {
        matches!(self, WarningKind::RootZone | WarningKind::NoOrigin)
    }

    /// Returns `true` if the warning is about the name servers of the zone: that it has none.
    pub fn is_about_servers(self) -> bool
        ensures { result ≡ is_about_servers self }
    {
        matches!(self, WarningKind::NoServer)
    }
}

/// Something that is accepted and hardly meant.
#[derive(Clone, Copy, Debug, PartialEq, Eq)]
pub struct Warning {
    /// Where the record is.
    pub at: Position,
    pub kind: WarningKind,
    /// The place of its entry among those that were read, from 0.
    pub place: usize,
}
