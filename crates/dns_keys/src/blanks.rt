//! Blanks and comments.

ghost use Rattle.std.specs.Prelude.{◌≡◌, ◌≤◌, length, option_map, IfSome};
ghost use Rattle.dns_keys.specs.Blanks.{after_blanks, begins, can_end, is_blank, step};

/// What the octets before a place of a text leave open.
#[derive(Clone, Copy, Debug, PartialEq, Eq)]
pub enum Mode {
    /// Nothing.
    Between,
    /// A comment up to the end of the line.
    Line,
    /// The `/` of `/*`.
    Open,
    /// A comment up to `*/`.
    Block,
    /// Such a comment, after a `*`.
    Star,
}

/// Returns the text after blanks and comments, or `None` if a comment does not end.
pub fn after_blanks(text: &[u8]) -> Option<&[u8]>
    ensures rest { option_map (λ rest. rest.now) result ≡ after_blanks Mode.Between text.now }
    ensures no_longer { IfSome result (λ rest. length rest.now ≤ length text.now) }
{
    let mut mode = Mode::Between;
    let mut rest = text;
    while let [octet, more @ ..] = rest {
        match step(mode, *octet, more) {
            Some(next) => mode = next,
            None => return Some(rest),
        }
        rest = more;
    }
    if can_end(mode) { Some(rest) } else { None }
}

/// Returns what an octet leaves open, or `None` if a word or a symbol begins with it.
fn step(mode: Mode, octet: u8, rest: &[u8]) -> Option<Mode>
    ensures { result ≡ step mode octet rest.now }
{
    match (mode, octet) {
        (Mode::Between, _) => begins(octet, rest),
        (Mode::Line, b'\n') | (Mode::Star, b'/') => Some(Mode::Between),
        (Mode::Line, _) => Some(Mode::Line),
        (Mode::Block | Mode::Star, b'*') => Some(Mode::Star),
        (Mode::Open | Mode::Block | Mode::Star, _) => Some(Mode::Block),
    }
}

/// Returns what an octet between words leaves open, by the octets that follow it, or `None` if a word or a symbol begins with it.
fn begins(octet: u8, rest: &[u8]) -> Option<Mode>
    ensures { result ≡ begins octet rest.now }
{
    match (octet, rest) {
        (b'#', _) | (b'/', [b'/', ..]) => Some(Mode::Line),
        (b'/', [b'*', ..]) => Some(Mode::Open),
        _ if is_blank(octet) => Some(Mode::Between),
        _ => None,
    }
}

/// Returns `true` if a text may end here.
fn can_end(mode: Mode) -> bool
    ensures { result ≡ can_end mode }
{
    matches!(mode, Mode::Between | Mode::Line)
}

/// Returns `true` for a space, and for the octets from tab to carriage return.
pub fn is_blank(octet: u8) -> bool
    ensures { result ≡ is_blank octet }
{
    octet == b' ' || (octet >= b'\t' && octet <= b'\r')
}
