//! The lines that the events of a script printed.

ghost use Rattle.std.specs.Prelude.{◌≡◌, ◌≤◌, length};
ghost use Rattle.script_expectations.specs.Line.{texts};
ghost use Rattle.script_expectations.specs.Printed.{continued_len, event_len, is_continued};

/// Returns how many lines the first event of an output printed: one, and those after it that begin with two spaces.
pub(crate) fn event_len(printed: &[&[u8]]) -> usize
    ensures len { result ≡ event_len (texts printed.now) }
    ensures within { result ≤ length printed.now }
{
    match printed {
        [] => 0,
        [_, lines @ ..] => continued_len(lines) + 1,
    }
}

/// Returns how many lines go on with what an event printed.
fn continued_len(lines: &[&[u8]]) -> usize
    ensures len { result ≡ continued_len (texts lines.now) }
    ensures within { result ≤ length lines.now }
{
    for (i, line) in lines.iter().enumerate() {
        if !is_continued(line) {
            return i;
        }
    }
    lines.len()
}

/// Returns `true` if a line goes on with what an event printed.
fn is_continued(line: &[u8]) -> bool
    ensures { result ≡ is_continued line.now }
{
    line.strip_prefix(b"  ".as_slice()).is_some()
}
