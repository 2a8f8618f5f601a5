//! What the words of `options` set.

ghost use Rattle.std.specs.Prelude.{◌≡◌, ◌+◌, ◌*◌, ◌≤◌, map, min};
ghost use Rattle.stub_servers.specs.resolv_conf.Options.{number_from, number_up_to, option_after, options_after, default_conf_options, with_flag};

/// The maximum of `ndots`.
pub const MAX_NDOTS: usize = 15;

/// The maximum of `timeout`, in seconds.
pub const MAX_TIMEOUT: usize = 30;

/// The maximum of `attempts`.
pub const MAX_ATTEMPTS: usize = 5;

/// The options of a configuration file.
#[derive(Clone, Copy, Debug)]
pub struct ConfOptions {
    /// A name with at least this many dots is looked up as it is, before it is completed.
    pub ndots: usize,
    /// How long to wait for a reply, in seconds.
    pub timeout: usize,
    /// How many rounds are made through the name servers.
    pub attempts: usize,
    /// Whether servers are asked in turn.
    pub rotate: bool,
    /// Whether requests have an OPT record (RFC 6891).
    pub edns0: bool,
    /// Whether servers are asked over TCP alone.
    pub use_vc: bool,
}

impl ConfOptions {
    /// Returns the options of a file that sets none.
    pub(crate) fn new() -> ConfOptions
        ensures { result ≡ default_conf_options }
    {
        ConfOptions {
            ndots: 1,
            timeout: 5,
            attempts: 2,
            rotate: false,
            edns0: false,
            use_vc: false,
        }
    }

    /// Sets the options of the words after a keyword.
    pub(crate) fn set_all(&mut self, words: &[&[u8]])
        ensures { self.new ≡ options_after self.old (map (λ word. word.now) words.now) }
    {
        for word in words {
            self.set(word);
        }
    }

    /// Sets the option of a word.
    fn set(&mut self, word: &[u8])
        ensures { self.new ≡ option_after self.old word.now }
    {
        if let Some(number) = word.strip_prefix(b"ndots:") {
            self.ndots = number_up_to(MAX_NDOTS, number);
        } else if let Some(number) = word.strip_prefix(b"timeout:") {
            self.timeout = number_up_to(MAX_TIMEOUT, number).max(1);
        } else if let Some(number) = word.strip_prefix(b"attempts:") {
            self.attempts = number_up_to(MAX_ATTEMPTS, number).max(1);
        } else {
            self.set_flag(word);
        }
    }

    /// Sets the option of a word without a number.
    fn set_flag(&mut self, word: &[u8])
        ensures { self.new ≡ with_flag self.old word.now }
    {
        if word == b"rotate".as_slice() {
            self.rotate = true;
        } else if word == b"edns0".as_slice() {
            self.edns0 = true;
        } else if word == b"use-vc".as_slice() {
            self.use_vc = true;
        }
    }
}

/// Returns the number of the digits that a text begins with, or `greatest` if that is less.
fn number_up_to(greatest: usize, text: &[u8]) -> usize
    requires { greatest ≤ 1000 }
    ensures { result ≡ number_up_to greatest text.now }
{
    let mut number = 0;
    for octet in text {
        if !octet.is_ascii_digit() {
            return number;
        }
        number = with_digit(greatest, number, *octet - b'0');
    }
    number
}

/// Returns a number with a further digit, or `greatest` if that is less.
fn with_digit(greatest: usize, number: usize, digit: u8) -> usize
    requires greatest { greatest ≤ 1000 }
    requires number { number ≤ greatest }
    ensures { result ≡ min greatest (10 * number + digit) }
{
    greatest.min(10 * number + usize::from(digit))
}
