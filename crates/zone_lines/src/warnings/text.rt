//! What TXT records and the lines of a file say.

ghost use Rattle.std.specs.Prelude.{◌≡◌, map};
ghost use Rattle.zone_lines.specs.Line.{lines_view};
ghost use Rattle.zone_lines.specs.warnings.Text.{begins_with_version, cuts_word, ends_quoted, ends_version, first_string, has_directive, is_origin_line, states_origin, is_dmarc, is_dmarc_owner, is_quoted, is_spf, spot_after};

use crate::RecordLine;
use dns_data::RData;
use dns_names::Name;

/// Returns the first string of TXT data, or an empty one of other data.
fn first_string(rdata: &RData) -> &[u8]
    ensures { result.now ≡ first_string rdata.now }
{
    match rdata {
        RData::TXT(txt) => match txt.strings().first() {
            Some(string) => string.as_slice(),
            None => b"".as_slice(),
        },
        _ => b"".as_slice(),
    }
}

/// Returns `true` if data is a policy of the Sender Policy Framework (RFC 7208 section 4.5).
pub(crate) fn is_spf(rdata: &RData) -> bool
    ensures { result ≡ is_spf rdata.now }
{
    begins_with_version(b"v=spf1".as_slice(), first_string(rdata))
}

/// Returns `true` if a record is a policy of DMARC at its name (RFC 7489 section 6.3).
pub(crate) fn is_dmarc(record_line: &RecordLine) -> bool
    ensures { result ≡ is_dmarc record_line.now }
{
    is_dmarc_owner(&record_line.owner)
        && begins_with_version(b"v=DMARC1".as_slice(), first_string(&record_line.rdata))
}

/// Returns `true` if the first label of a name is `_dmarc`, in any case.
fn is_dmarc_owner(owner: &Name) -> bool
    ensures { result ≡ is_dmarc_owner owner.now.labels }
{
    match owner.iter().next() {
        Some(label) => label.eq_ignore_ascii_case(b"_dmarc".as_slice()),
        None => false,
    }
}

/// Returns `true` if a string begins with a version, in any case, and a blank, a semicolon or nothing follows it.
fn begins_with_version(version: &[u8], string: &[u8]) -> bool
    ensures { result ≡ begins_with_version version.now string.now }
{
    match string.split_at_checked(version.len()) {
        Some((front, rest)) => front.eq_ignore_ascii_case(version) && ends_version(rest),
        None => false,
    }
}

/// Returns `true` if what follows a version ends it.
fn ends_version(rest: &[u8]) -> bool
    ensures { result ≡ ends_version rest.now }
{
    match rest {
        [] => true,
        [c, ..] => matches!(*c, b' ' | b';'),
    }
}

/// Where a line is read.
#[derive(Clone, Copy, PartialEq, Eq)]
enum Spot {
    /// After a blank, a parenthesis or a quoted string.
    Between,
    Word,
    /// After a backslash in a word.
    WordEscape,
    Quoted,
    /// After a backslash in a quoted string.
    QuotedEscape,
}

/// Returns `true` if the first `;` of a line that begins a comment directly follows a word that is not quoted.
pub(crate) fn cuts_word(line: &str) -> bool
    ensures { result ≡ cuts_word line.now }
{
    let mut spot = Spot::Between;
    for c in line.as_bytes() {
        spot = match (spot, *c) {
            (Spot::Between, b';') => return false,
            (Spot::Word, b';') => return true,
            _ => spot_after(spot, *c),
        };
    }
    false
}

/// Returns `true` if a line ends inside a quoted string, which a backslash at its end does not end.
pub(crate) fn ends_quoted(line: &str) -> bool
    ensures { result ≡ ends_quoted line.now }
{
    let mut spot = Spot::Between;
    for c in line.as_bytes() {
        spot = match (spot, *c) {
            (Spot::Between | Spot::Word, b';') => return false,
            _ => spot_after(spot, *c),
        };
    }
    is_quoted(spot)
}

/// Returns `true` inside a quoted string.
fn is_quoted(spot: Spot) -> bool
    ensures { result ≡ is_quoted spot }
{
    matches!(spot, Spot::Quoted | Spot::QuotedEscape)
}

/// Returns where a line is read after a character that does not begin a comment.
fn spot_after(spot: Spot, c: u8) -> Spot
    ensures { result ≡ spot_after spot c }
{
    match (spot, c) {
        (Spot::Quoted, b'"') => Spot::Between,
        (Spot::Quoted, b'\\') => Spot::QuotedEscape,
        (Spot::Quoted | Spot::QuotedEscape, _) => Spot::Quoted,
        (Spot::WordEscape, _) => Spot::Word,
        (_, b'\\') => Spot::WordEscape,
        (_, b'"') => Spot::Quoted,
        (_, b' ' | b'\t' | b'(' | b')') => Spot::Between,
        _ => Spot::Word,
    }
}

/// Returns `true` if some line of some text begins with `$ORIGIN`.
pub fn has_directive(texts: &[Vec<&str>]) -> bool
    ensures { result ≡ has_directive (lines_view texts.now) }
{
    for lines in texts {
        if states_origin(lines.as_slice()) {
            return true;
        }
    }
    false
}

/// Returns `true` if some line begins with `$ORIGIN`.
fn states_origin(lines: &[&str]) -> bool
    ensures { result ≡ states_origin (map (λ line. line.now) lines.now) }
{
    for line in lines {
        if is_origin_line(line) {
            return true;
        }
    }
    false
}

/// Returns `true` if a line begins with `$ORIGIN`.
fn is_origin_line(line: &str) -> bool
    ensures { result ≡ is_origin_line line.now }
{
    line.as_bytes().starts_with(b"$ORIGIN")
}
