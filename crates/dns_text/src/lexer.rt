//! The lexer of zone files (RFC 1035 section 5.1).

ghost use Rattle.std.specs.Prelude.{◌≡◌, ◌+◌, ◌<◌, ◌≤◌, Ok, drop, length};
ghost use Rattle.dns_text.specs.Lexer.{NextToken, start, start_with, step, step_past, past};
ghost use Rattle.dns_text.specs.Token.{answer};
ghost use Rattle.dns_text.specs.internal.Front.{front_of};
ghost use Rattle.dns_text.specs.internal.Lexer.{step_of, Stays};

use crate::error::LexerError;
use crate::front::{Front, find_front};
use crate::quotes::Quotes;
use crate::token::{Token, token_of_word};
use std::marker::Model;

/// The outcome of scanning one item of the text.
#[derive(Clone, Copy)]
enum Scan<'a> {
    /// No token, as for a comment.
    Nothing,
    Found(Token<'a>),
    AtEnd,
}

/// A lexer over the borrowed text of a zone file. An entry ends at the end of a line outside parentheses, `;` begins a
/// comment, a backslash escapes the next character, and a quoted string may contain blanks and `;` (RFC 1035 section
/// 5.1), and line ends if [`Quotes`] says so. A line ends at a line feed, or at a carriage return and a line feed.
#[derive(Drop)]
pub struct Lexer<'a> {
    text: &'a [u8],
    line: usize,
    entry: usize,
    is_open: bool,
    is_front: bool,
    quotes: Quotes,
}

impl<'a> Model for Lexer<'a> {
    ghost use Rattle.std.specs.Prelude.{◌+◌, ◌<◌, ◌^◌, length};
    ghost use Rattle.dns_text.specs.Lexer.{LexerState};

    ghost Value = { LexerState };

    ghost view = { λ l. record {
      text = l.text.now;
      line = l.line;
      entry = l.entry;
      is_open = l.is_open;
      is_front = l.is_front;
      quotes = l.quotes;
    } };

    ghost invariant = { λ l. l.line + length l.text.now < 2 ^ 64 };
}

impl<'a> Lexer<'a> {
    /// Creates a lexer at the start of a text whose quoted strings end on their lines.
    pub fn new(text: &'a str) -> Self
        ensures { result ≡ start text.now }
    {
        Lexer::with_quotes(text, Quotes::OneLine)
    }

    /// Creates a lexer at the start of a text whose quoted strings go as far as `quotes` says.
    pub fn with_quotes(text: &'a str, quotes: Quotes) -> Self
        ensures { result ≡ start_with quotes text.now }
    {
        Lexer {
            text: text.as_bytes(),
            line: 1,
            entry: 1,
            is_open: false,
            is_front: true,
            quotes,
        }
    }

    /// Returns the next token, or `None` at the end of the text. After an error each further call returns it again.
    pub fn next_token(&mut self) -> Result<Option<Token<'a>>, LexerError>
        ensures { NextToken self.old (answer result) self.new }
    {
        loop {
            match self.scan()? {
                Scan::Nothing => {}
                Scan::Found(token) => return Ok(Some(token)),
                Scan::AtEnd => return Ok(None),
            }
        }
    }

    /// Returns the line that the rest of the text begins on, from 1. Inside parentheses the next token may be on a
    /// later line.
    pub fn line(&self) -> usize
        ensures { result ≡ self.now.line }
    {
        self.line
    }

    /// Returns the line on which the current entry begins, from 1.
    pub fn entry_line(&self) -> usize
        ensures { result ≡ self.now.entry }
    {
        self.entry
    }

    /// Scans the first item of the text.
    fn scan(&mut self) -> Result<Scan<'a>, LexerError>
        ensures steps { step self.old ≡ step_of result self.new }
        ensures stays { Stays result self.old self.new }
        ensures moves { result ≡ Ok Scan.Nothing → length self.new.text < length self.old.text }
    {
        match find_front(self.quotes, self.text) {
            Front::TextEnd => self.end_text(),
            Front::LineEnd(len) => Ok(self.end_line(len)),
            Front::Gap => Ok(self.take_gap()),
            Front::Comment(len) => {
                self.text = &self.text[len..];
                Ok(Scan::Nothing)
            }
            Front::Open => self.open_list(),
            Front::Close => self.close_list(),
            Front::Quoted(len) => Ok(Scan::Found(self.take_quoted(len))),
            Front::Word(len) => Ok(Scan::Found(self.take_word(len))),
            Front::Unclosed => Err(LexerError::UnclosedQuotedString(self.line)),
            Front::Broken => Err(LexerError::LoneBackslash(self.line)),
        }
    }

    /// Ends the text, unless a parenthesis is open.
    fn end_text(&mut self) -> Result<Scan<'a>, LexerError>
        ensures steps { step_past (front_of Front.TextEnd) self.old ≡ step_of result self.new }
        ensures stays { self.new ≡ self.old }
    {
        if self.is_open {
            return Err(LexerError::UnclosedList(self.entry));
        }
        Ok(Scan::AtEnd)
    }

    /// Ends a line, and the entry unless a parenthesis is open.
    fn end_line(&mut self, len: usize) -> Scan<'a>
        requires some { 0 < len }
        requires within { len ≤ length self.old.text }
        ensures steps { step_past (front_of (Front.LineEnd len)) self.old
            ≡ step_of (Ok result) self.new }
        ensures moved { self.new.text ≡ drop len self.old.text }
        ensures stays { Stays (Ok result) self.old self.new }
    {
        self.text = &self.text[len..];
        self.line += 1;
        if self.is_open {
            return Scan::Nothing;
        }
        self.entry = self.line;
        self.is_front = true;
        Scan::Found(Token::EOL)
    }

    /// Consumes a blank.
    fn take_gap(&mut self) -> Scan<'a>
        requires { 0 < length self.old.text }
        ensures steps { step_past (front_of Front.Gap) self.old ≡ step_of (Ok result) self.new }
        ensures moved { self.new.text ≡ drop 1 self.old.text }
        ensures stays { Stays (Ok result) self.old self.new }
    {
        let is_front = self.is_front;
        self.advance(1);
        if is_front {
            Scan::Found(Token::Blank)
        } else {
            Scan::Nothing
        }
    }

    /// Opens a parenthesis.
    fn open_list(&mut self) -> Result<Scan<'a>, LexerError>
        requires { 0 < length self.old.text }
        ensures steps { step_past (front_of Front.Open) self.old ≡ step_of result self.new }
        ensures stays { Stays result self.old self.new }
        ensures moves { result ≡ Ok Scan.Nothing → length self.new.text < length self.old.text }
    {
        if self.is_open {
            return Err(LexerError::NestedList(self.line));
        }
        self.advance(1);
        self.is_open = true;
        Ok(Scan::Nothing)
    }

    /// Closes a parenthesis.
    fn close_list(&mut self) -> Result<Scan<'a>, LexerError>
        requires { 0 < length self.old.text }
        ensures steps { step_past (front_of Front.Close) self.old ≡ step_of result self.new }
        ensures stays { Stays result self.old self.new }
        ensures moves { result ≡ Ok Scan.Nothing → length self.new.text < length self.old.text }
    {
        if !self.is_open {
            return Err(LexerError::UnopenedList(self.line));
        }
        self.advance(1);
        self.is_open = false;
        Ok(Scan::Nothing)
    }

    /// Consumes a quoted string.
    fn take_quoted(&mut self, len: usize) -> Token<'a>
        requires { len + 2 ≤ length self.old.text }
        ensures { step_past (front_of (Front.Quoted len)) self.old
            ≡ step_of (Ok (Scan.Found result)) self.new }
    {
        let string = &self.text[1..len + 1];
        self.advance(len + 2);
        self.line += string.iter().filter(|byte| **byte == b'\n').count();
        Token::Quoted(string)
    }

    /// Consumes a word.
    fn take_word(&mut self, len: usize) -> Token<'a>
        requires { len ≤ length self.old.text }
        ensures { step_past (front_of (Front.Word len)) self.old
            ≡ step_of (Ok (Scan.Found result)) self.new }
    {
        let token = token_of_word(self.is_front, &self.text[..len]);
        self.advance(len);
        token
    }

    /// Consumes `len` characters of an entry.
    fn advance(&mut self, len: usize)
        requires { len ≤ length self.old.text }
        ensures { self.new ≡ past len self.old }
    {
        self.text = &self.text[len..];
        self.is_front = false;
    }
}
