//! Tokens of zone files (RFC 1035 section 5.1).

ghost use Rattle.std.specs.Prelude.{◌≡◌};
ghost use Rattle.dns_text.specs.Lexer.{word_token};
ghost use Rattle.dns_text.specs.Token.{lexeme};

/// A token of a zone file. Words and strings are borrowed, with their escapes.
#[derive(Clone, Copy, Debug, PartialEq, Eq)]
pub enum Token<'a> {
    /// Blanks at the start of an entry, which has the owner of the entry before.
    Blank,
    /// A word.
    CharData(&'a [u8]),
    /// A quoted string, without its quotes.
    Quoted(&'a [u8]),
    /// The word `@`, which denotes the origin.
    At,
    /// `$INCLUDE` at the start of an entry.
    Include,
    /// `$ORIGIN` at the start of an entry.
    Origin,
    /// `$TTL` at the start of an entry (RFC 2308 section 4).
    Ttl,
    /// The end of an entry, at the end of a line outside parentheses.
    EOL,
}

/// Returns the token of a word.
pub(crate) fn token_of_word(is_front: bool, text: &[u8]) -> Token<'_>
    ensures { lexeme result ≡ word_token is_front text.now }
{
    if text == b"@".as_slice() {
        return Token::At;
    }
    if !is_front {
        return Token::CharData(text);
    }
    if text == b"$INCLUDE".as_slice() {
        return Token::Include;
    }
    if text == b"$ORIGIN".as_slice() {
        return Token::Origin;
    }
    if text == b"$TTL".as_slice() {
        return Token::Ttl;
    }
    Token::CharData(text)
}
