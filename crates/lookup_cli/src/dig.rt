//! Words that `dig` takes for something else than a name.

ghost use Rattle.std.specs.Prelude.{◌≡◌};
ghost use Rattle.std.specs.List.{list_any};
ghost use Rattle.lookup_cli.specs.Dig.{begins_with_at, dig_word, is_lower_case, is_type_in_capitals};

use dns_formats::type_of_word;

/// What a word means in the arguments of `dig`.
#[derive(Clone, Copy, Debug, PartialEq, Eq)]
pub(crate) enum DigWord {
    /// A server, behind `@`.
    NameServer,
    /// A type, in capitals beside a name.
    RecordType,
}

/// Returns what a word, alone or beside other names, means in the arguments of `dig` if it is no name there.
pub(crate) fn dig_word(word: &[u8], is_alone: bool) -> Option<DigWord>
    ensures { result ≡ dig_word word.now is_alone }
{
    if begins_with_at(word) {
        return Some(DigWord::NameServer);
    }
    if !is_alone && is_type_in_capitals(word) {
        return Some(DigWord::RecordType);
    }
    None
}

/// Returns `true` if a word begins with `@`.
fn begins_with_at(word: &[u8]) -> bool
    ensures { result ≡ begins_with_at word.now }
{
    match word {
        [first, ..] => *first == b'@',
        [] => false,
    }
}

/// Returns `true` if a word is a type without a lower-case letter.
fn is_type_in_capitals(word: &[u8]) -> bool
    ensures { result ≡ is_type_in_capitals word.now }
{
    type_of_word(word).is_some() && !has_lower_case(word)
}

/// Returns `true` if a word has a lower-case letter.
fn has_lower_case(word: &[u8]) -> bool
    ensures { result ≡ list_any is_lower_case word.now }
{
    word.iter().any(|byte| is_lower_case(*byte))
}

/// Returns `true` if a byte is a lower-case letter.
fn is_lower_case(byte: u8) -> bool
    ensures { result ≡ is_lower_case byte }
{
    byte >= b'a' && byte <= b'z'
}
