//! The sentences of warnings.

ghost use Rattle.std.specs.Prelude.{◌≡◌, option_map};
ghost use Rattle.zone_check.specs.findings.Finding.{sentences};
ghost use Rattle.zone_check.specs.findings.WarningText.{text_sentences, server_sentences, set_sentences, warning_sentences};

use crate::findings::finding::Advice;
use zone_lines::warnings::WarningKind;

/// Returns what a kind of warning says, and what to write instead.
pub fn warning_advice(kind: WarningKind) -> Advice
    ensures { sentences result ≡ warning_sentences kind }
{
    match set_advice(kind) {
        Some(advice) => advice,
        None => match server_advice(kind) {
            Some(advice) => advice,
            None => text_advice(kind),
        },
    }
}

/// Returns what a warning about the origin of a zone, or about a record and others of its owner, says.
fn set_advice(kind: WarningKind) -> Option<Advice>
    ensures { option_map sentences result ≡ set_sentences kind }
{
    match kind {
        WarningKind::RootZone => Some(Advice {
            reason: "a zone whose origin is the root",
            hint: "write $ORIGIN and the zone's origin above it, or pass --origin",
        }),
        WarningKind::NoOrigin => Some(Advice {
            reason: "no $ORIGIN, and no origin given: the root completed a name without a dot at its end",
            hint: "write $ORIGIN and the zone's origin above it, pass --origin, or write a dot at the end of each name",
        }),
        WarningKind::NoServer => Some(Advice {
            reason: "no NS record at the zone's origin",
            hint: "write @ NS ns and an address record of ns",
        }),
        WarningKind::AliasBesideData => Some(Advice {
            reason: "an alias (CNAME) beside other records of its owner",
            hint: "remove the alias or the other records, and at the origin always the alias: many servers answer with the alias alone",
        }),
        WarningKind::SecondRecord => Some(Advice {
            reason: "a second CNAME or SOA record of its owner: the last CNAME is kept, or the SOA with the greater serial",
            hint: "remove one of them",
        }),
        WarningKind::DuplicateRecord => Some(Advice {
            reason: "a record that is dropped: one above has its owner, type and data",
            hint: "remove one of them",
        }),
        WarningKind::OtherTtl => Some(Advice {
            reason: "another TTL than the records above of this owner and type",
            hint: "write the same TTL for all records of a set",
        }),
        WarningKind::HighTtl => Some(Advice {
            reason: "a TTL above 2147483647, which resolvers take as 0",
            hint: "write at most 2147483647 seconds",
        }),
        _ => None,
    }
}

/// Returns what a warning about an address or a server, a wildcard or a delegation says.
fn server_advice(kind: WarningKind) -> Option<Advice>
    ensures { option_map sentences result ≡ server_sentences kind }
{
    match kind {
        WarningKind::AddressName => Some(Advice {
            reason: "an address where a name belongs",
            hint: "write the name of the host, and its address in an A record",
        }),
        WarningKind::NoAddress => Some(Advice {
            reason: "a server in this zone that has no A or AAAA record",
            hint: "write an address record of the server's name, which must not be an alias, or a dot after a name outside the zone",
        }),
        WarningKind::Wildcard => Some(Advice {
            reason: "a wildcard, which stub and nameserver --plain do not expand",
            hint: "write a record for each name that is to be found",
        }),
        WarningKind::Delegation => Some(Advice {
            reason: "a delegation, which stub and nameserver --plain do not follow: they answer for names below from this file alone",
            hint: "write the records of the names below it into this file",
        }),
        WarningKind::WildcardCut => Some(Advice {
            reason: "a delegation at a wildcard, which servers treat in different ways",
            hint: "write the NS records of each name that is to be delegated",
        }),
        WarningKind::NoGlue => Some(Advice {
            reason: "a delegation to a server at or below it that has no A or AAAA record here: resolvers do not find it",
            hint: "write an address record of the server's name, or a dot after a name outside the zone",
        }),
        WarningKind::Occluded => Some(Advice {
            reason: "a record below a delegation, which is never an answer",
            hint: "remove it, or the NS records above it; only addresses of name servers belong there",
        }),
        WarningKind::SignerWithoutCut => Some(Advice {
            reason: "a DS record where nothing is delegated",
            hint: "write the NS records of its owner, or remove it: the DS records of this zone are in the one above it",
        }),
        _ => None,
    }
}

/// Returns what a warning about the content of a record says. The last kind is a name that lacks its dot.
fn text_advice(kind: WarningKind) -> Advice
    ensures { sentences result ≡ text_sentences kind }
{
    match kind {
        WarningKind::WrongDigest => Advice {
            reason: "a digest of another length than its type has",
            hint: "write all digits of the digest, or the number of its type: SHA-1 has 20 bytes, SHA-256 32, SHA-384 48, SHA-512 64",
        },
        WarningKind::ExpiredSignature => Advice {
            reason: "a signature that has expired",
            hint: "sign the zone again",
        },
        WarningKind::SecondSpf => Advice {
            reason: "a second SPF policy of its owner, with which neither counts",
            hint: "write one TXT record with v=spf1",
        },
        WarningKind::SecondDmarc => Advice {
            reason: "a second DMARC policy of its owner, with which neither counts",
            hint: "write one TXT record with v=DMARC1",
        },
        WarningKind::CutText => Advice {
            reason: "a ; directly after a word, which ends the text there",
            hint: "write the text in quotes, as \"v=DKIM1; k=rsa\"",
        },
        WarningKind::OpenString => Advice {
            reason: "a quoted string that goes on over the end of its line",
            hint: "write \" where it ends: each line up to the next \" is part of it",
        },
        _ => Advice {
            reason: "a name that ends in the origin twice",
            hint: "write a dot at the end of the name, or leave the origin out of it",
        },
    }
}
