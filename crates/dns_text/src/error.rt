//! Lexical errors.

use thiserror::Error;

/// A lexical error of a zone file, with its line, from 1.
#[derive(Clone, Copy, Debug, PartialEq, Eq, Error)]
pub enum LexerError {
    /// A quoted string, which begins on this line, is not closed: on this line, or at all where it may go over several
    /// lines.
    #[error("line {0}: quoted string is not closed")]
    UnclosedQuotedString(usize),
    /// The text ends while a parenthesis is open. The line is the first of the entry.
    #[error("line {0}: parenthesis is not closed")]
    UnclosedList(usize),
    /// Parentheses are nested, about which RFC 1035 section 5.1 says nothing.
    #[error("line {0}: nested parentheses")]
    NestedList(usize),
    /// A parenthesis is closed without being open.
    #[error("line {0}: closing parenthesis without an open one")]
    UnopenedList(usize),
    /// A backslash ends a line or the text.
    #[error("line {0}: nothing follows the backslash")]
    LoneBackslash(usize),
}

impl LexerError {
    ghost use Rattle.std.specs.Prelude.{◌≡◌};
    ghost use Rattle.dns_text.specs.Error.{line_of};

    /// Returns the line of the error, from 1.
    pub fn line(&self) -> usize
        ensures { result ≡ line_of self.now }
    {
        match *self {
            LexerError::UnclosedQuotedString(line)
            | LexerError::UnclosedList(line)
            | LexerError::NestedList(line)
            | LexerError::UnopenedList(line)
            | LexerError::LoneBackslash(line) => line,
        }
    }
}
