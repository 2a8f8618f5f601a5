//! How the data of each type is written in a zone file.

ghost use Rattle.std.specs.Prelude.{◌≡◌, map, option_copied};
ghost use Rattle.dns_wire.specs.codes.RecordType.{type_number};
ghost use Rattle.zone_check.specs.findings.FormText.{form_among, form_of};

use dns_wire::RecordType;

/// How data is written, by the number of its type: its fields in capitals, as the RFC of the type names them, and an example
/// where the fields alone may not tell.
const FORMS: &[(u16, &str)] = &[
    // A, NS, CNAME, SOA, PTR, HINFO, MX, TXT (RFC 1035 sections 3.3 and 3.4)
    (1, "write an IPv4 address, as 192.0.2.1"),
    (2, "write the name of a server"),
    (5, "write a name"),
    (
        6,
        "write MNAME RNAME SERIAL REFRESH RETRY EXPIRE MINIMUM on one line, or on several between ( and ), as ns hostmaster 1 1h 10m 1d 30",
    ),
    (12, "write a name"),
    (13, "write CPU OS, as x86 Linux"),
    (15, "write PREFERENCE EXCHANGE, as 10 mail"),
    (16, "write one string or several"),
    // RP, AFSDB, RT (RFC 1183)
    (17, "write MAILBOX TEXT-NAME, as hostmaster ."),
    (18, "write SUBTYPE HOSTNAME, as 1 db"),
    (21, "write PREFERENCE HOST, as 10 relay"),
    // AAAA (RFC 3596)
    (28, "write an IPv6 address, as 2001:db8::1"),
    // LOC (RFC 1876)
    (
        29,
        "write latitude, longitude and altitude, as 52 22 23 N 4 53 32 E 2m",
    ),
    // SRV (RFC 2782)
    (33, "write PRIORITY WEIGHT PORT TARGET, as 0 0 443 www"),
    // NAPTR (RFC 3403)
    (
        35,
        "write ORDER PREFERENCE FLAGS SERVICES REGEXP REPLACEMENT, as 10 10 s SIP+D2U \"\" _sip._udp",
    ),
    // KX (RFC 2230)
    (36, "write PREFERENCE EXCHANGER, as 10 key"),
    // CERT (RFC 4398)
    (
        37,
        "write TYPE KEY-TAG ALGORITHM and the certificate in base64",
    ),
    // DNAME (RFC 6672)
    (39, "write a name"),
    // DS and CDS (RFC 4034, RFC 7344)
    (
        43,
        "write KEY-TAG ALGORITHM DIGEST-TYPE and the digest in hexadecimal digits",
    ),
    (
        59,
        "write KEY-TAG ALGORITHM DIGEST-TYPE and the digest in hexadecimal digits",
    ),
    // SSHFP (RFC 4255)
    (
        44,
        "write ALGORITHM FINGERPRINT-TYPE and the fingerprint in hexadecimal digits",
    ),
    // RRSIG, NSEC, DNSKEY and CDNSKEY (RFC 4034, RFC 7344)
    (
        46,
        "write TYPE ALGORITHM LABELS TTL EXPIRATION INCEPTION KEY-TAG SIGNER and the signature in base64",
    ),
    (47, "write the next name, and the types of the owner"),
    (
        48,
        "write FLAGS PROTOCOL ALGORITHM and the key in base64, as 257 3 13 and the key",
    ),
    (
        60,
        "write FLAGS PROTOCOL ALGORITHM and the key in base64, as 257 3 13 and the key",
    ),
    // DHCID (RFC 4701), OPENPGPKEY (RFC 7929)
    (49, "write the data in base64"),
    (61, "write the key in base64"),
    // NSEC3 and NSEC3PARAM (RFC 5155)
    (
        50,
        "write HASH-ALGORITHM FLAGS ITERATIONS SALT, the next hash in base32hex, and the types of the owner",
    ),
    (51, "write HASH-ALGORITHM FLAGS ITERATIONS SALT, as 1 0 0 -"),
    // TLSA and SMIMEA (RFC 6698, RFC 8162)
    (
        52,
        "write USAGE SELECTOR MATCHING-TYPE and the data in hexadecimal digits, as 3 1 1 and the digest",
    ),
    (
        53,
        "write USAGE SELECTOR MATCHING-TYPE and the data in hexadecimal digits, as 3 1 1 and the digest",
    ),
    // CSYNC (RFC 7477)
    (62, "write SERIAL FLAGS and types, as 66 3 A NS AAAA"),
    // ZONEMD (RFC 8976)
    (
        63,
        "write SERIAL SCHEME HASH-ALGORITHM and the digest in hexadecimal digits",
    ),
    // SVCB and HTTPS (RFC 9460)
    (64, "write PRIORITY TARGET and parameters, as 1 . alpn=h2"),
    (65, "write PRIORITY TARGET and parameters, as 1 . alpn=h2"),
    // URI (RFC 7553)
    (
        256,
        "write PRIORITY WEIGHT \"TARGET\", as 10 1 \"ftp://ftp.example.com/\"",
    ),
    // CAA (RFC 8659)
    (257, "write FLAGS TAG \"VALUE\", as 0 issue \"ca.example\""),
];

/// Returns how the data of a type is written, or `None` if it has no form here but the generic one.
pub(crate) fn form_text(record_type: RecordType) -> Option<&'static str>
    ensures { option_copied result ≡ form_of (type_number record_type) }
{
    form_among(FORMS, u16::from(record_type))
}

/// Returns how the data of the type with a number is written, by a table.
fn form_among(forms: &'static [(u16, &'static str)], number: u16) -> Option<&'static str>
    ensures { option_copied result
        ≡ form_among (map (λ line. (line.0, line.1.now)) forms.now) number }
{
    for (other, form) in forms {
        if *other == number {
            return Some(*form);
        }
    }
    None
}
