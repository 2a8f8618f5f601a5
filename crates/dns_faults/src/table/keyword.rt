//! The words of actions.

ghost use Rattle.std.specs.Prelude.{◌≡◌};
ghost use Rattle.std.specs.List.{find};
ghost use Rattle.std.specs.Str.{bytes_eq};
ghost use Rattle.dns_faults.specs.table.Keyword.{keyword_of, keyword_text};

/// A word that begins an action, or ends the actions.
#[derive(Clone, Copy, Debug, PartialEq, Eq)]
pub enum Keyword {
    /// `drop`
    Drop,
    /// `delay` and a number of milliseconds
    Delay,
    /// `code` and a response code
    Code,
    /// `truncate`
    Truncate,
    /// `wrong-id`
    WrongId,
    /// `wrong-question`
    WrongQuestion,
    /// `garbage` and a number of bytes
    Garbage,
    /// `duplicate`
    Duplicate,
    /// `close`, perhaps with a number of bytes
    Close,
    /// `stale`
    Stale,
    /// `times` and a number
    Times,
}

/// The keywords.
const KEYWORDS: [Keyword; 11] = [
    Keyword::Drop,
    Keyword::Delay,
    Keyword::Code,
    Keyword::Truncate,
    Keyword::WrongId,
    Keyword::WrongQuestion,
    Keyword::Garbage,
    Keyword::Duplicate,
    Keyword::Close,
    Keyword::Stale,
    Keyword::Times,
];

impl Keyword {
    /// Returns the word.
    pub fn text(self) -> &'static str
        ensures { result.now ≡ keyword_text self }
    {
        match self {
            Keyword::Drop => "drop",
            Keyword::Delay => "delay",
            Keyword::Code => "code",
            Keyword::Truncate => "truncate",
            Keyword::WrongId => "wrong-id",
            Keyword::WrongQuestion => "wrong-question",
            Keyword::Garbage => "garbage",
            Keyword::Duplicate => "duplicate",
            Keyword::Close => "close",
            Keyword::Stale => "stale",
            Keyword::Times => "times",
        }
    }
}

/// Returns the keyword that is a word.
fn find_keyword(keywords: &[Keyword], word: &[u8]) -> Option<Keyword>
    ensures { result ≡ find (λ keyword. bytes_eq (keyword_text keyword) word.now) keywords.now }
{
    for keyword in keywords {
        if keyword.text().as_bytes() == word {
            return Some(*keyword);
        }
    }
    None
}

/// Parses a keyword.
pub fn parse_keyword(word: &[u8]) -> Option<Keyword>
    ensures { result ≡ keyword_of word.now }
{
    find_keyword(&KEYWORDS, word)
}
