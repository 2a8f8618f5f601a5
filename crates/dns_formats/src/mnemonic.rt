//! Numbers by their mnemonics: algorithms of DNSSEC, and types of certificates.

ghost use Rattle.std.specs.Prelude.{◌≡◌, ◌%◌, [], ◌∷◌, map};
ghost use Rattle.std.specs.Int.{w16, to_be_bytes};
ghost use Rattle.dns_text.specs.Token.{lexeme};
ghost use Rattle.dns_formats.specs.Value.{Appends, bytes_of_number};
ghost use Rattle.dns_formats.specs.Mnemonic.{algorithms, certificate_types, word_number};

use crate::fault::TokenFault;
use dns_fields::bitmaps::number_among;
use dns_text::Token;
use dns_wire::codes::parse_decimal;

/// The algorithms of DNSSEC (IANA registry of DNS security algorithm numbers). Some have several mnemonics.
const ALGORITHMS: &[(&str, u16)] = &[
    ("DELETE", 0),
    ("RSAMD5", 1),
    ("DH", 2),
    ("DSA", 3),
    ("ECC", 4),
    ("RSASHA1", 5),
    ("DSA-NSEC3-SHA1", 6),
    ("NSEC3DSA", 6),
    ("DSANSEC3SHA1", 6),
    ("RSASHA1-NSEC3-SHA1", 7),
    ("NSEC3RSASHA1", 7),
    ("RSASHA1NSEC3SHA1", 7),
    ("RSASHA256", 8),
    ("RSASHA512", 10),
    ("ECC-GOST", 12),
    ("ECCGOST", 12),
    ("ECDSAP256SHA256", 13),
    ("ECDSAP384SHA384", 14),
    ("ED25519", 15),
    ("ED448", 16),
    ("INDIRECT", 252),
    ("PRIVATEDNS", 253),
    ("PRIVATEOID", 254),
];

/// The types of certificates (RFC 4398 section 2.1).
const CERTIFICATE_TYPES: &[(&str, u16)] = &[
    ("PKIX", 1),
    ("SPKI", 2),
    ("PGP", 3),
    ("IPKIX", 4),
    ("ISPKI", 5),
    ("IPGP", 6),
    ("ACPKIX", 7),
    ("IACPKIX", 8),
    ("URI", 253),
    ("OID", 254),
];

/// Parses a decimal number, or a mnemonic of a table.
fn word_number(words: &[(&str, u16)], greatest: u64, token: Token<'_>) -> Result<u64, TokenFault>
    ensures { result ≡ word_number
        (map (λ line. (line.0.now, line.1)) words.now) greatest (lexeme token.entry) }
{
    let Token::CharData(text) = token else {
        return Err(TokenFault::NotAWord);
    };
    if let Some(number) = parse_decimal(text, greatest) {
        return Ok(number);
    }
    match number_among(words, text) {
        Some(number) => Ok(u64::from(number)),
        None => Err(TokenFault::NotAMnemonic),
    }
}

/// Appends an algorithm of DNSSEC.
pub(crate) fn push_algorithm(token: Token<'_>, out: &mut Vec<u8>) -> Result<(), TokenFault>
    ensures { Appends TokenFault.Memory
        (bytes_of_number (λ number. (number % 256) ∷ []) (word_number algorithms 255 (lexeme token.entry)))
        out.old.items result out.new.items }
{
    let number = word_number(ALGORITHMS, 255, token)?;
    out.push((number % 256) as u8)?;
    Ok(())
}

/// Appends a type of certificates.
pub(crate) fn push_certificate_type(token: Token<'_>, out: &mut Vec<u8>) -> Result<(), TokenFault>
    ensures { Appends TokenFault.Memory
        (bytes_of_number (λ number. to_be_bytes w16 (number % 65536))
        (word_number certificate_types 65535 (lexeme token.entry)))
        out.old.items result out.new.items }
{
    let number = word_number(CERTIFICATE_TYPES, 65_535, token)?;
    out.extend_from_slice(&((number % 65_536) as u16).to_be_bytes())?;
    Ok(())
}
