//! What the program does besides a run: the options that the words of a run do not have.

use crate::stop::Stop;
use clap::error::ErrorKind;
use stub_play::Ending;

/// What is done with the results of the events.
#[derive(Clone, Copy, PartialEq, Eq)]
pub(crate) enum Mode {
    /// They are printed.
    Print,
    /// They are compared with the expectations in the script: `--check`.
    Check,
    /// The script is printed with them as its expectations: `--bless`.
    Bless,
    /// They are printed as JSON objects: `--json`.
    Json,
}

impl Mode {
    /// Returns `true` if the mode reads the expectations in the script.
    pub(crate) fn reads_expectations(self) -> bool {
        matches!(self, Mode::Check | Mode::Bless)
    }
}

/// What `--help` says of the modes, of the trace and of the warnings.
const MODES: &str = "
One of these, anywhere:
      --check          Compare what each event prints with the lines '#> ' after it
      --bless          Print the script with these lines as its events print them
      --json           Print a JSON object for each event
And, anywhere:
      --trace          Print on standard error what each event sent and received
      --warn           Print on standard error the warnings of the zone file
";

/// Removes `--check`, `--bless` or `--json` from the arguments, and returns what it asks for. No other option takes such a value.
/// Two of them exclude each other.
pub(crate) fn take_mode(words: &mut Vec<&str>) -> Result<Mode, Stop> {
    let Some(word) = take_mode_word(words) else {
        return Ok(Mode::Print);
    };
    match take_mode_word(words) {
        Some(other) => Err(Stop::Excluded(word, other)),
        None => Ok(mode_of(word)),
    }
}

/// Removes the first `--check`, `--bless` or `--json` from the arguments.
fn take_mode_word(words: &mut Vec<&str>) -> Option<&'static str> {
    let index = words.iter().position(|word| mode_word(word).is_some())?;
    mode_word(words.remove(index))
}

/// Removes an option without a value from the arguments, and returns whether it was among them. It is given at most once.
pub(crate) fn take_flag(words: &mut Vec<&str>, flag: &'static str) -> Result<bool, Stop> {
    if !take_word(words, flag) {
        return Ok(false);
    }
    if take_word(words, flag) {
        return Err(Stop::Excluded(flag, flag));
    }
    Ok(true)
}

/// Removes the first argument that is this word, and returns whether there is one.
fn take_word(words: &mut Vec<&str>, wanted: &str) -> bool {
    match words.iter().position(|word| *word == wanted) {
        Some(index) => {
            words.remove(index);
            true
        }
        None => false,
    }
}

/// Returns an argument as the option of a mode, if it is one.
fn mode_word(word: &str) -> Option<&'static str> {
    match word {
        "--check" => Some("--check"),
        "--bless" => Some("--bless"),
        "--json" => Some("--json"),
        _ => None,
    }
}

/// Returns what the option of a mode asks for.
fn mode_of(word: &str) -> Mode {
    match word {
        "--check" => Mode::Check,
        "--bless" => Mode::Bless,
        "--json" => Mode::Json,
        _ => Mode::Print,
    }
}

/// Prints on standard error what `--help` says of the modes, if the program ends with its help.
pub(crate) fn print_modes(rt: &HostRuntime, stop: &Stop) {
    if let Stop::Ending(Ending::Arguments(error)) = stop
        && error.kind() == ErrorKind::DisplayHelp
    {
        // A failure to write to standard error can't be reported.
        let _ = rt.eprint(&MODES);
    }
}
