//! Response codes in text (RFC 6895 section 2.3).

ghost use Rattle.std.specs.Prelude.{◌≡◌};
ghost use Rattle.std.specs.List.{find};
ghost use Rattle.std.specs.Str.{str_eq_ignore_ascii_case};
ghost use Rattle.dns_messages.specs.ResponseCode.{code_name};
ghost use Rattle.dns_faults.specs.table.Code.{code_in_text};

use dns_messages::ResponseCode;
use dns_wire::codes::parse_decimal;

/// The response codes that have a name.
const NAMED: [ResponseCode; 20] = [
    ResponseCode::NoError,
    ResponseCode::FormErr,
    ResponseCode::ServFail,
    ResponseCode::NXDomain,
    ResponseCode::NotImp,
    ResponseCode::Refused,
    ResponseCode::YXDomain,
    ResponseCode::YXRRSet,
    ResponseCode::NXRRSet,
    ResponseCode::NotAuth,
    ResponseCode::NotZone,
    ResponseCode::BADVERS,
    ResponseCode::BADSIG,
    ResponseCode::BADKEY,
    ResponseCode::BADTIME,
    ResponseCode::BADMODE,
    ResponseCode::BADNAME,
    ResponseCode::BADALG,
    ResponseCode::BADTRUNC,
    ResponseCode::BADCOOKIE,
];

/// Returns the response code that a word names, in any case.
fn find_named(codes: &[ResponseCode], word: &[u8]) -> Option<ResponseCode>
    ensures { result ≡ find (λ code. str_eq_ignore_ascii_case (code_name code) word.now) codes.now }
{
    for code in codes {
        if code.to_str().as_bytes().eq_ignore_ascii_case(word) {
            return Some(*code);
        }
    }
    None
}

/// Parses a response code, and returns its number: a name in any case, or a number of at most twelve bits.
pub(crate) fn parse_code(word: &[u8]) -> Option<u16>
    ensures { result ≡ code_in_text word.now }
{
    if let Some(code) = find_named(&NAMED, word) {
        return Some(u16::from(code));
    }
    Some(parse_decimal(word, 4095)? as u16)
}
