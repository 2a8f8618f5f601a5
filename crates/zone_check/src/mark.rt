//! The byte-order mark at the start of a file.

ghost use Rattle.std.specs.Prelude.{◌≡◌};
ghost use Rattle.zone_check.specs.Mark.{has_mark, mark_said, unmarked, without_mark};
ghost use Rattle.zone_check.specs.findings.Finding.{sentences};
ghost use Rattle.zone_lines.specs.Source.{text_view};

use crate::findings::Advice;
use zone_lines::ZoneText;

/// A byte-order mark, U+FEFF, which the server takes for the start of the first word.
const BYTE_ORDER_MARK: &str = "\u{FEFF}";

/// Returns `true` if a text begins with a byte-order mark.
pub(crate) fn begins_with_mark(text: &str) -> bool
    ensures { result ≡ has_mark text.now }
{
    text.as_bytes().starts_with(BYTE_ORDER_MARK.as_bytes())
}

/// Returns a text without the byte-order mark at its start.
pub fn without_mark(text: &str) -> &str
    ensures { result.now ≡ without_mark text.now }
{
    match text.strip_prefix(BYTE_ORDER_MARK) {
        Some(rest) => rest,
        None => text,
    }
}

/// Returns a zone file without the byte-order mark at its start: the mark is a fault of the file, and not of its first entry.
pub(crate) fn unmarked<'a>(file: &ZoneText<'a>) -> ZoneText<'a>
    ensures { text_view result ≡ unmarked (text_view file.entry.now) }
{
    ZoneText {
        text: without_mark(file.text),
        includes: file.includes,
        types: file.types,
    }
}

/// Returns what a byte-order mark says.
pub(crate) fn mark_text() -> Advice
    ensures { sentences result ≡ mark_said }
{
    Advice {
        reason: "a byte-order mark at the start of the file",
        hint: "save the file as UTF-8 without a byte-order mark",
    }
}
